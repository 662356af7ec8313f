//! Why a run ended.

ghost use Rattle.std.specs.Prelude.{◌≡◌};
ghost use Rattle.msg_io.specs.Fault.{refused, unread};
ghost use Rattle.msg_io.specs.declared.fault.RunFault.TheVariants.{Memory};

use crate::reading::ReadFault;
use msg_image::DocumentFault;
use std::alloc::AllocError;
use thiserror::Error;

/// Why a run wrote no answers, or not all of them. In order of time the faults are `Workers`,
/// `Cut`, `Read`, `Document` and `Write`. `Memory` may come between any two of them until the first
/// byte is written.
#[derive(Clone, Copy, Debug, PartialEq, Eq, Error)]
pub enum RunFault {
    /// A read failed. No read is tried again after an error of any kind.
    #[error("read failed")]
    Read,
    /// What was read is no document. A lack of memory is [`RunFault::Memory`].
    #[error("document fault {}: {}", .0.number(), .0)]
    Document(DocumentFault),
    /// An allocation was refused.
    #[error("out of memory")]
    Memory,
    /// A write failed. The start of the text was written.
    #[error("write failed")]
    Write,
    /// The number of workers is 0, or more than 64.
    #[error("workers must be 1 to 64")]
    Workers,
    /// A cut is 0.
    #[error("cut must be at least 1")]
    Cut,
}

impl From<AllocError> for RunFault {
    ghost from_gives = { λ _ e. e ≡ Memory };

    fn from(_refused: AllocError) -> RunFault {
        RunFault::Memory
    }
}

impl From<ReadFault> for RunFault {
    ghost from_gives = { λ r e. e ≡ unread r };

    fn from(fault: ReadFault) -> RunFault {
        match fault {
            ReadFault::Read => RunFault::Read,
            ReadFault::TooLong => RunFault::Document(DocumentFault::Limit),
            ReadFault::Memory => RunFault::Memory,
        }
    }
}

impl From<DocumentFault> for RunFault {
    ghost from_gives = { λ f e. e ≡ refused f };

    fn from(fault: DocumentFault) -> RunFault {
        match fault {
            DocumentFault::Memory => RunFault::Memory,
            fault => RunFault::Document(fault),
        }
    }
}
