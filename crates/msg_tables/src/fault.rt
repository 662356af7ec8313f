//! Why changes are refused.

ghost use Rattle.std.specs.Prelude.{◌≡◌};
ghost use Rattle.msg_tables.specs.FaultNumber.{change_fault_number};
ghost use Rattle.msg_tables.specs.declared.fault.ChangeFault.TheVariants.{Memory};

use std::alloc::AllocError;
use thiserror::Error;

/// Why a change was not made. If several faults hold, the first is returned. Memory is needed only
/// after all other faults were excluded.
#[derive(Clone, Copy, Debug, PartialEq, Eq, Error)]
pub enum ChangeFault {
    /// The class, or the superclass of a class that is to be made, is not present.
    #[error("no class")]
    NoClass,
    /// An implementation is forwarding, or no implementation has the number.
    #[error("no implementation")]
    NoImp,
    /// No selector has the number, or a selector takes another number of arguments than the
    /// implementation or than the other selector.
    #[error("argument count")]
    ArgumentCount,
    /// The class itself has the method already.
    #[error("method present")]
    MethodPresent,
    /// Neither the class nor a superclass has the method. For a removal: the class itself has none.
    #[error("no method")]
    NoMethod,
    /// As many changes were accepted as the limit allows, or there would be more rows than the
    /// limit.
    #[error("limit")]
    Limit,
    /// An allocation was refused.
    #[error("out of memory")]
    Memory,
    /// The class is present already.
    #[error("duplicate class")]
    DuplicateClass,
    /// The class was listed when the tables were opened, or has a class below it.
    #[error("class in use")]
    ClassInUse,
}

impl From<AllocError> for ChangeFault {
    ghost from_gives = { λ _ fault. fault ≡ Memory };

    fn from(_refused: AllocError) -> ChangeFault {
        ChangeFault::Memory
    }
}

impl ChangeFault {
    /// The number of the fault, from 1.
    pub fn number(self) -> u32
        ensures { result ≡ change_fault_number self }
    {
        self as u32 + 1
    }
}
