//! Why a document is refused.

ghost use Rattle.std.specs.Prelude.{◌≡◌};
ghost use Rattle.msg_form.specs.FaultNumber.{document_fault_number, document_fault_text};
ghost use Rattle.msg_form.specs.Unread.{unread};
ghost use Rattle.msg_form.specs.declared.faults.DocumentFault.TheVariants as DocumentFault;
ghost use Rattle.msg_form.specs.declared.faults.ReadFault.TheVariants.{Memory};

use std::alloc::{AllocError, AllocFailed};
use std::error::Error;
use std::fmt;

/// Why a value was not read.
#[derive(Clone, Copy, Debug, PartialEq, Eq, thiserror::Error)]
pub enum ReadFault {
    /// The value doesn't have the form of the part that was read.
    #[error("shape")]
    Shape,
    #[error("out of memory")]
    Memory,
}

impl From<AllocError> for ReadFault {
    ghost from_gives = { λ _ e. e ≡ Memory };

    fn from(_refused: AllocError) -> ReadFault {
        ReadFault::Memory
    }
}

impl<T: Drop> From<AllocFailed<T>> for ReadFault {
    ghost from_gives = { λ _ e. e ≡ Memory };

    fn from(_refused: AllocFailed<T>) -> ReadFault {
        ReadFault::Memory
    }
}

/// What is wrong with a document. The faults are in the order of their numbers, in which a document
/// is judged.
#[derive(Clone, Copy, Debug, PartialEq, Eq)]
pub enum DocumentFault {
    NotJson,
    Shape,
    Version,
    Limit,
    DuplicateClass,
    UnknownSuperclass,
    UnknownClass,
    DuplicateObject,
    UnknownObject,
    DuplicateImp,
    UnknownImp,
    BadSelector,
    DuplicateSelector,
    ArgumentCount,
    ArgumentIndex,
    BodyTooDeep,
    Memory,
    ClassCycle,
}

impl From<AllocError> for DocumentFault {
    ghost from_gives = { λ _ e. e ≡ DocumentFault.Memory };

    fn from(_refused: AllocError) -> DocumentFault {
        DocumentFault::Memory
    }
}

impl From<ReadFault> for DocumentFault {
    ghost from_gives = { λ r e. e ≡ unread r };

    fn from(fault: ReadFault) -> DocumentFault {
        match fault {
            ReadFault::Shape => DocumentFault::Shape,
            ReadFault::Memory => DocumentFault::Memory,
        }
    }
}

impl DocumentFault {
    /// The number of the fault, from 1.
    pub fn number(self) -> u32
        ensures { result ≡ document_fault_number self }
    {
        self as u32 + 1
    }

    /// The text of the fault.
    pub fn text(self) -> &'static str
        ensures { result.now ≡ document_fault_text self }
    {
        match self {
            DocumentFault::NotJson => "not json",
            DocumentFault::Shape => "shape",
            DocumentFault::Version => "version",
            DocumentFault::Limit => "limit",
            DocumentFault::DuplicateClass => "duplicate class",
            DocumentFault::UnknownSuperclass => "unknown superclass",
            DocumentFault::UnknownClass => "unknown class",
            DocumentFault::DuplicateObject => "duplicate object",
            DocumentFault::UnknownObject => "unknown object",
            DocumentFault::DuplicateImp => "duplicate implementation",
            DocumentFault::UnknownImp => "unknown implementation",
            DocumentFault::BadSelector => "bad selector",
            DocumentFault::DuplicateSelector => "duplicate selector",
            DocumentFault::ArgumentCount => "argument count",
            DocumentFault::ArgumentIndex => "argument index",
            DocumentFault::BodyTooDeep => "body too deep",
            DocumentFault::Memory => "out of memory",
            DocumentFault::ClassCycle => "class cycle",
        }
    }
}

impl fmt::Display for DocumentFault {
    ghost use Rattle.std.specs.Prelude.{Some};

    ghost output = { λ f. Some (document_fault_text f) };

    fn fmt<W: fmt::Write>(&self, f: &mut fmt::Formatter<W>) -> fmt::Result {
        f.write_str(self.text())
    }
}

impl Error for DocumentFault {}
