//! Lists of methods.

ghost use Rattle.std.specs.Prelude.{◌≡◌};

use msg_names::{ImpRef, Selector};
use std::marker::Model;

/// A list of methods: selectors with their implementations. Contracts see the pairs of their
/// numbers.
#[derive(Drop)]
pub struct MethodList {
    pairs: Vec<(Selector, ImpRef)>,
}

impl Model for MethodList {
    ghost use Rattle.std.specs.Prelude.{ℕ, List};
    ghost use Rattle.msg_rows.specs.Methods.{method_numbers};

    ghost Value = { List (ℕ × ℕ) };

    ghost view = { λ m. method_numbers m.pairs.items };
}

impl MethodList {
    ghost use Rattle.std.specs.Prelude.{◌≡◌};
    ghost use Rattle.msg_rows.specs.Methods.{method_numbers};

    pub fn new(pairs: Vec<(Selector, ImpRef)>) -> Self
        ensures { result ≡ method_numbers pairs.items }
    {
        MethodList { pairs }
    }

    pub fn as_slice(&self) -> &[(Selector, ImpRef)]
        ensures { method_numbers result.now ≡ self.now }
    {
        self.pairs.as_slice()
    }

    pub fn into_vec(self) -> Vec<(Selector, ImpRef)>
        ensures { method_numbers result.items ≡ self }
    {
        self.pairs
    }
}
