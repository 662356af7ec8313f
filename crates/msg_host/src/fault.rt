//! Faults of numbers that name nothing.

ghost use Rattle.std.specs.Prelude.{◌≡◌, ◌≢◌, ◌<◌, ◌≤◌, None, Some, IfOk, IfErr, OnOk};
ghost use Rattle.msg_names.specs.Number.{selector_of};
ghost use Rattle.msg_host.specs.Asking.{ask_fault, ask_fault_number, want_of_memory, want_of_room};
ghost use Rattle.msg_host.specs.Named.{ref_of};
ghost use Rattle.msg_host.specs.declared.fault.OpenFault.TheVariants as opening;
ghost use Rattle.msg_host.specs.declared.fault.SenderFault.TheVariants as sending;

use msg_names::{ClassRef, Selector};
use std::alloc::AllocError;

/// Why a question in numbers isn't asked, or a change in numbers isn't made. If both of the first
/// two faults hold, the first is returned.
#[derive(Clone, Copy, Debug, PartialEq, Eq)]
pub enum AskFault {
    /// No class has the number.
    NoClass,
    /// The selector's number is 0, which no selector has.
    NoSelector,
    /// The kind of a row of a list of changes is unknown, or a row names neither a class nor its
    /// metaclass.
    BadRow,
}

// The number of the fault that the array for results has too few places, or a wrong number of
// places. No question or change is refused for it.
pub(crate) const NO_ROOM: u32 = 76;

impl AskFault {
    /// The number of the fault, which is not the number of a document's or change's fault.
    pub fn number(self) -> u32
        ensures number { result ≡ ask_fault_number self }
        ensures room { result ≢ want_of_room }
        ensures memory { result ≢ want_of_memory }
    {
        match self {
            AskFault::NoClass => 66,
            AskFault::NoSelector => 67,
            AskFault::BadRow => 75,
        }
    }
}

/// Why no runtime is opened.
#[derive(Clone, Copy, Debug, PartialEq, Eq)]
pub enum OpenFault {
    /// A field of the config is above its most.
    BadConfig,
    Memory,
}

impl From<AllocError> for OpenFault {
    ghost from_gives = { λ _ e. e ≡ opening.Memory };

    fn from(_refused: AllocError) -> OpenFault {
        OpenFault::Memory
    }
}

/// Why no sender is given.
#[derive(Clone, Copy, Debug, PartialEq, Eq)]
pub enum SenderFault {
    /// All sender numbers are out.
    NoneFree,
    Memory,
}

impl From<AllocError> for SenderFault {
    ghost from_gives = { λ _ e. e ≡ sending.Memory };

    fn from(_refused: AllocError) -> SenderFault {
        SenderFault::Memory
    }
}

// The selector with a number.
pub(crate) fn selector(number: u32) -> Result<Selector, AskFault>
    ensures ok { IfOk result (λ s. (0 < number) × (s ≡ selector_of number)) }
    ensures err { IfErr result (λ f. (number ≡ 0) × (f ≡ AskFault.NoSelector)) }
{
    match Selector::of(number) {
        Some(selector) => Ok(selector),
        None => Err(AskFault::NoSelector),
    }
}

// The class with a number, among this number of classes.
pub(crate) fn asked_class(classes: u32, class: u32, meta: bool) -> Result<ClassRef, AskFault>
    ensures ok { IfOk result (λ c. (class < classes) × (c ≡ ref_of class meta)) }
    ensures err { IfErr result (λ f. (classes ≤ class) × (f ≡ AskFault.NoClass)) }
{
    if class < classes {
        Ok(ClassRef { class, meta })
    } else {
        Err(AskFault::NoClass)
    }
}

// The class reference and the selector with these numbers, among this number of classes.
pub(crate) fn asked(
    classes: u32,
    class: u32,
    meta: bool,
    sel: u32,
) -> Result<(ClassRef, Selector), AskFault>
    ensures ok { IfOk result (λ a. (class < classes) × (a.0 ≡ ref_of class meta) × (a.1 ≡ selector_of sel)) }
    ensures none { OnOk result (ask_fault classes class sel ≡ None) }
    ensures some { IfErr result (λ f. ask_fault classes class sel ≡ Some f) }
{
    let class = asked_class(classes, class, meta)?;
    let sel = selector(sel)?;
    Ok((class, sel))
}
