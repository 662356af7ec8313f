//! One bucket: a selector's number in the high 32 bits of a word, an implementation's in the low
//! 32. The word 0 is an empty bucket.

ghost use Rattle.std.specs.Prelude.{◌≡◌, ◌↔◌, IsNone, IfSome};
ghost use Rattle.msg_names.specs.Number.{selector_number, imp_number};
ghost use Rattle.msg_buckets.specs.Word.{sel_of, imp_of, word_of, IsLook};

use msg_names::{ImpRef, Selector};

/// What a word says to a probe for a selector.
#[derive(Clone, Copy, Debug, PartialEq, Eq)]
pub enum Look {
    Hit(ImpRef),
    Empty,
    /// The word of another selector.
    Other,
}

/// The word of a selector and its implementation.
#[inline(always)]
pub fn pack(selector: Selector, implementation: ImpRef) -> u64
    ensures word { result ≡ word_of (selector_number selector) (imp_number implementation) }
    ensures selector { sel_of result ≡ selector_number selector }
    ensures implementation { imp_of result ≡ imp_number implementation }
{
    u64::from(selector.number()) << 32 | u64::from(implementation.number())
}

/// The selector and the implementation of a word.
#[inline(always)]
pub fn unpack(word: u64) -> Option<(Selector, ImpRef)>
    ensures none { IsNone result ↔ (sel_of word ≡ 0) }
    ensures selector { IfSome result (λ entry. selector_number entry.0 ≡ sel_of word) }
    ensures implementation { IfSome result (λ entry. imp_number entry.1 ≡ imp_of word) }
    ensures packed { IfSome result (λ entry. word_of (selector_number entry.0) (imp_number entry.1) ≡ word) }
{
    let selector = Selector::of((word >> 32) as u32)?;
    Some((selector, implementation_of(word)))
}

/// One step of a probe, on a word that one load has read.
#[inline(always)]
pub fn look_at(word: u64, selector: Selector) -> Look
    ensures { IsLook word (selector_number selector) result }
{
    if word >> 32 == u64::from(selector.number()) {
        Look::Hit(implementation_of(word))
    } else if word == 0 {
        Look::Empty
    } else {
        Look::Other
    }
}

#[inline(always)]
fn implementation_of(word: u64) -> ImpRef
    ensures { imp_number result ≡ imp_of word }
{
    ImpRef::of((word & 0xffff_ffff) as u32)
}
