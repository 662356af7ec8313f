//! What messages are made of. Every type here is `Copy` and takes no memory.

ghost use Rattle.std.specs.Prelude.{◌<◌};

/// A selector by its number, which counts from 1.
///
/// Two selectors of one [`Names`](crate::Names) are the same exactly if their names are the same.
#[derive(Clone, Copy, Debug, PartialEq, Eq)]
pub struct Selector {
    number: u32,
    pub ghost positive: { 0 < number },
}

impl Selector {
    ghost use Rattle.std.specs.Prelude.{◌≡◌, ◌<◌, MatchOption};
    ghost use Rattle.msg_names.specs.Number.{selector_number};

    /// Returns the selector with a number. Only 0 gives none.
    pub fn of(number: u32) -> Option<Selector>
        ensures { MatchOption result (number ≡ 0) (λ s. selector_number s ≡ number) }
    {
        if number == 0 {
            None
        } else {
            Some(Selector { number })
        }
    }

    /// The number, from 1.
    pub fn number(self) -> u32
        ensures number { result ≡ selector_number self }
        ensures positive { 0 < result }
    {
        self.number
    }
}

/// An implementation by its number, which counts from 1. Number 0 stands for forwarding.
#[derive(Clone, Copy, Debug, PartialEq, Eq)]
pub struct ImpRef {
    number: u32,
}

impl ImpRef {
    ghost use Rattle.std.specs.Prelude.{◌≡◌};
    ghost use Rattle.msg_names.specs.Number.{imp_number};

    /// What a lookup returns if no class of the chain has the method, like `_objc_msgForward` in
    /// the runtime.
    pub const FORWARD: ImpRef = ImpRef { number: 0 };

    /// The implementation with a number.
    pub fn of(number: u32) -> ImpRef
        ensures { imp_number result ≡ number }
    {
        ImpRef { number }
    }

    /// The number, from 1, or 0 for forwarding.
    pub fn number(self) -> u32
        ensures { result ≡ imp_number self }
    {
        self.number
    }
}

/// A class, or its metaclass if `meta` is true. Classes are numbered from 0.
#[derive(Clone, Copy, Debug, PartialEq, Eq)]
pub struct ClassRef {
    pub class: u32,
    pub meta: bool,
}

impl ClassRef {
    ghost use Rattle.std.specs.Prelude.{◌≡◌};
    ghost use Rattle.msg_names.specs.ClassRef.{slot_of, above};

    /// Its index in the list of all class references, in which each class comes before its
    /// metaclass.
    #[inline(always)]
    pub fn slot(self) -> usize
        ensures { result ≡ slot_of self }
    {
        2 * self.class as usize + usize::from(self.meta)
    }

    /// Its superclass, given the superclass of its class. For a metaclass that is the superclass's
    /// metaclass, and for a root metaclass the root class itself (Objective-C Runtime Reference).
    #[inline(always)]
    pub fn above(self, superclass: Option<u32>) -> Option<ClassRef>
        ensures { result ≡ above self superclass }
    {
        match superclass {
            Some(class) => Some(ClassRef { class, ..self }),
            None if self.meta => Some(ClassRef {
                meta: false,
                ..self
            }),
            None => None,
        }
    }
}

/// An object. Objects are numbered from 0.
#[derive(Clone, Copy, Debug, PartialEq, Eq)]
pub struct ObjectRef {
    pub object: u32,
}

/// A receiver, an argument or a result of a message.
#[derive(Clone, Copy, Debug, Default, PartialEq, Eq)]
pub enum Value {
    Number(i64),
    Object(ObjectRef),
    /// A class object, by the number of its class.
    Class(u32),
    Sel(Selector),
    #[default]
    Nil,
}
