//! Laws of documents. In a form without fault each part has the number of its place, and the last
//! category wins.

ghost use Rattle.std.specs.Prelude.{◌≡◌};
ghost use Rattle.msg_image.specs.Laws.{ClassHasNumberOfPlace, MadeClassComesAfterListed};
ghost use Rattle.msg_image.specs.Laws.{ObjectHasNumberOfPlace, ImplementationHasNumberOfPlace};
ghost use Rattle.msg_image.specs.Laws.{LastCategoryWins, LastCategoryWinsAtMetaclass};

use crate::document::MOST_BYTES;
use crate::opened::{MAX_CHANGES, MAX_ROWS, MAX_SENDERS, MAX_WORDS};

/// A listed class has the number of its place in the list, from 0.
pub fn a_class_has_the_number_of_its_place()
    ensures { ClassHasNumberOfPlace }
{}

/// A class that may be made is numbered after the listed ones.
pub fn a_class_that_may_be_made_comes_after_the_listed_ones()
    ensures { MadeClassComesAfterListed }
{}

/// An object has the number of its place in the list, from 0.
pub fn an_object_has_the_number_of_its_place()
    ensures { ObjectHasNumberOfPlace }
{}

/// An implementation has the number of its place in the list, from 1.
pub fn an_implementation_has_the_number_of_its_place()
    ensures { ImplementationHasNumberOfPlace }
{}

/// Among the categories of a class that have a method with a selector, the one that is listed last
/// wins, over the others and over the class. Later categories without such a method change nothing.
pub fn the_last_category_wins()
    ensures class { LastCategoryWins }
    ensures metaclass { LastCategoryWinsAtMetaclass }
{}

/// The limits of a document's text and of its tables, as in the document format.
pub fn the_limits_are_the_formats()
    ensures bytes { MOST_BYTES ≡ 16777216 }
    ensures rows { MAX_ROWS ≡ 16384 }
    ensures changes { MAX_CHANGES ≡ 65536 }
    ensures senders { MAX_SENDERS ≡ 64 }
    ensures words { MAX_WORDS ≡ 1048576 }
{}
