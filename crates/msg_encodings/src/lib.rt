//! Encodings of Objective-C types, as GCC's `@encode` writes them. The crate gives the end of a
//! type, its size and alignment on x86-64, and the members of a structure one by one.
//!
//! A text may come from anywhere. A text that isn't an encoding is read too: an unknown letter has
//! no size, types that are nested too deep end the text, and no size is above [`LARGEST`].
#![tactic(auto)]

mod letters;
mod reading;
mod shapes;
#[cfg(test)]
mod tests;
mod texts;
mod types;
mod units;

pub use letters::{DEEPEST, LARGEST};
pub use types::{Extent, Member, first_type, next_member};
