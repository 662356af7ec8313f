//! Laws of names and numbers, over every list of names.

ghost use Rattle.std.specs.Prelude.{◌≡◌};
ghost use Rattle.msg_names.specs.Number.{imp_number};
ghost use Rattle.msg_names.specs.Laws.{NumbersAreOneToOne, NumberedTextIsItsName, NewNameHasNextNumber, NumbersStay};

use crate::name::{MAX_ARGUMENTS, MAX_NAME_BYTES};
use crate::names::MAX_NAMES;
use crate::value::ImpRef;

/// Forwarding has number 0, which no implementation of a document has.
pub fn forwarding_has_number_0()
    ensures { imp_number ImpRef.FORWARD ≡ 0 }
{}

/// Two texts with the same number are the same text.
pub fn one_number_is_one_name()
    ensures { NumbersAreOneToOne }
{}

/// The text that has a number is the name of that number.
pub fn a_number_has_its_name()
    ensures { NumberedTextIsItsName }
{}

/// A new name gets the number after the last one.
pub fn a_new_name_has_the_next_number()
    ensures { NewNameHasNextNumber }
{}

/// A number stays the same when a name is added.
pub fn a_number_stays()
    ensures { NumbersStay }
{}

/// The limits of names, as in the document format.
pub fn the_limits_are_the_formats()
    ensures bytes { MAX_NAME_BYTES ≡ 64 }
    ensures arguments { MAX_ARGUMENTS ≡ 4 }
    ensures names { MAX_NAMES ≡ 4096 }
{}
