//! Why events are refused.

ghost use Rattle.std.specs.Prelude.{◌≡◌};
ghost use Rattle.msg_model.specs.FaultNumber.{event_fault_number};

use msg_tables::ChangeFault;
use std::alloc::AllocError;
use thiserror::Error;

/// Why an event did not happen. If several faults hold, the first is returned. Memory is needed
/// only after all other faults were excluded.
#[derive(Clone, Copy, Debug, PartialEq, Eq, Error)]
pub enum EventFault {
    #[error("no sender")]
    NoSender,
    #[error("no class")]
    NoClass,
    #[error("no array")]
    NoArray,
    /// The sender isn't out.
    #[error("sender not out")]
    NotOut,
    /// The sender is out. For a header load: the sender holds an array.
    #[error("sender not in")]
    NotIn,
    /// The sender holds no array.
    #[error("no array held")]
    NotHolding,
    /// The class has no live array.
    #[error("no live array")]
    NotLive,
    /// The place is past the end of the array.
    #[error("no place")]
    NoPlace,
    #[error("array not free")]
    NotFree,
    /// The word that would be overwritten isn't 0, or some word of the array that would be
    /// installed isn't.
    #[error("array not empty")]
    NotEmpty,
    /// The tables refuse the change.
    #[error("change refused: {0}")]
    Refused(ChangeFault),
    /// A word of a live array would not agree with the method lists.
    #[error("word disagrees")]
    Disagrees,
    /// An allocation was refused.
    #[error("out of memory")]
    Memory,
}

impl From<AllocError> for EventFault {
    ghost use Rattle.std.specs.Prelude.{◌≡◌};
    ghost use Rattle.msg_model.specs.declared.fault.EventFault.TheVariants.{Memory};

    ghost from_gives = { λ _ fault. fault ≡ Memory };

    fn from(_refused: AllocError) -> EventFault {
        EventFault::Memory
    }
}

impl EventFault {
    /// The number of the fault, from 1. Of several faults the one with the least number is
    /// returned.
    pub fn number(self) -> u32
        ensures { result ≡ event_fault_number self }
    {
        match self {
            EventFault::NoSender => 1,
            EventFault::NoClass => 2,
            EventFault::NoArray => 3,
            EventFault::NotOut => 4,
            EventFault::NotIn => 5,
            EventFault::NotHolding => 6,
            EventFault::NotLive => 7,
            EventFault::NoPlace => 8,
            EventFault::NotFree => 9,
            EventFault::NotEmpty => 10,
            EventFault::Refused(_) => 11,
            EventFault::Disagrees => 12,
            EventFault::Memory => 13,
        }
    }
}
