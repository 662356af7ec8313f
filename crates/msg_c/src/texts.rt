//! Interned texts.

ghost use Rattle.std.specs.Prelude.{◌≡◌, ◌≢◌, ◌⊎◌, ◌↔◌, ℕ, List, [], Some, None, option_map, true, length};
ghost use Rattle.msg_names.specs.Name.{colons_of};
ghost use Rattle.msg_names.specs.Numbering.{number_of, with_name};
ghost use Rattle.msg_names.specs.Texts.{LacksPlaceFor, text_at};
ghost use Rattle.msg_c.specs.Interned.{AnswersNumber, is_interned, with_text};
ghost use Rattle.msg_c.specs.Handles.{HasTexts, IfInterned};

use crate::answer::{ALREADY_OPEN, CLOSED, DONE, LIMIT, NO_MEMORY, NONE};
use crate::texts_handle::TextsHandle;
use msg_names::{TextFault, Texts};
use std::alloc::Global;

/// No texts yet.
#[unsafe(no_mangle)]
pub extern "C" fn msg_texts_open(alloc: Global, texts: &mut TextsHandle) -> u32
    ensures already { HasTexts texts.old → result ≡ ALREADY_OPEN }
    ensures left { result ≢ 0 → texts.new.held.state ≡ texts.old.held.state }
    ensures done { result ≡ 0 → texts.new.held.state ≡ Some [] }
    ensures allowed { texts.old.held.state ≡ None → (result ≡ DONE) ⊎ (result ≡ NO_MEMORY) }
{
    if texts.is_open() {
        return ALREADY_OPEN;
    }
    match Box::new(alloc, Texts::new(alloc)) {
        Ok(made) => {
            *texts = TextsHandle::of(made);
            DONE
        }
        Err(_) => NO_MEMORY,
    }
}

/// Frees what the texts take.
#[unsafe(no_mangle)]
pub extern "C" fn msg_texts_close(alloc: Global, texts: &mut TextsHandle) -> u32
    ensures closed { texts.new.held.state ≡ None }
    ensures was_closed { texts.old.held.state ≡ None → result ≡ CLOSED }
    ensures was_open { HasTexts texts.old → result ≡ 0 }
{
    match texts.take(alloc) {
        Some(held) => {
            drop(held);
            DONE
        }
        None => CLOSED,
    }
}

/// Writes the number of a text, like `sel_registerName`. A new text gets the next number, from 1.
/// Only a new text can lack memory (69), or come when as many texts have numbers as the limit (6).
#[unsafe(no_mangle)]
pub extern "C" fn msg_texts_intern(
    alloc: Global,
    texts: &mut TextsHandle,
    text: &[u8],
    number: &mut u32,
) -> u32
    ensures closed { texts.old.held.state ≡ None → result ≡ CLOSED }
    ensures left { result ≢ 0 → (number.new ≡ number.old) × (texts.new.held.state ≡ texts.old.held.state) }
    ensures texts { result ≡ 0 → texts.new.held.state ≡ option_map (λ v. with_name v text.now) texts.old.held.state }
    ensures number { result ≡ 0 → IfInterned texts.new (λ v. number_of v text.now ≡ Some number.new) }
    ensures there { IfInterned texts.old (λ v. is_interned text.now v ≡ true → result ≡ 0) }
    ensures many { IfInterned texts.old (λ v. result ≡ LIMIT ↔ LacksPlaceFor v text.now) }
    ensures answers { HasTexts texts.old → (result ≡ DONE) ⊎ ((result ≡ LIMIT) ⊎ (result ≡ NO_MEMORY)) }
{
    let Some(mut held) = texts.take(alloc) else {
        return CLOSED;
    };
    let interned = held.intern(text);
    *texts = TextsHandle::of(held);
    match interned {
        Ok(made) => {
            *number = made;
            DONE
        }
        Err(TextFault::TooMany) => LIMIT,
        Err(TextFault::Memory) => NO_MEMORY,
    }
}

/// Writes the number of a text, if it has one. It gives no new number.
#[unsafe(no_mangle)]
pub extern "C" fn msg_texts_find(
    alloc: Global,
    texts: &mut TextsHandle,
    text: &[u8],
    number: &mut u32,
) -> u32
    ensures kept { texts.new.held.state ≡ texts.old.held.state }
    ensures closed { texts.old.held.state ≡ None → result ≡ CLOSED }
    ensures left { result ≢ 0 → number.new ≡ number.old }
    ensures none { IfInterned texts.old (λ v. number_of v text.now ≡ None → result ≡ NONE) }
    ensures done { IfInterned texts.old (λ v. AnswersNumber v text.now result number.new) }
{
    let Some(held) = texts.take(alloc) else {
        return CLOSED;
    };
    let found = held.find(text);
    *texts = TextsHandle::of(held);
    match found {
        Some(found) => {
            *number = found;
            DONE
        }
        None => NONE,
    }
}

// Writes as much of a text as there is room for.
fn write(text: &[u8], into: &mut [u8])
    ensures { into.new ≡ with_text text.now into.old }
{
    let count = text.len().min(into.len());
    into[..count].copy_from_slice(&text[..count]);
}

/// `sel_getName`: writes as much of the text with a number as there is room for, and its length.
#[unsafe(no_mangle)]
pub extern "C" fn msg_texts_text(
    alloc: Global,
    texts: &mut TextsHandle,
    number: u32,
    into: &mut [u8],
    size: &mut usize,
) -> u32
    ensures kept { texts.new.held.state ≡ texts.old.held.state }
    ensures closed { texts.old.held.state ≡ None → result ≡ CLOSED }
    ensures left { result ≢ 0 → (into.new ≡ into.old) × (size.new ≡ size.old) }
    ensures none { IfInterned texts.old (λ v. text_at v number ≡ None → result ≡ NONE) }
    ensures done { IfInterned texts.old (λ v. (t : List ℕ)
        → text_at v number ≡ Some t → (result ≡ 0) × (size.new ≡ length t) × (into.new ≡ with_text t into.old)) }
{
    let Some(held) = texts.take(alloc) else {
        return CLOSED;
    };
    let answer = match held.text(number) {
        Some(text) => {
            write(text, into);
            *size = text.len();
            DONE
        }
        None => NONE,
    };
    *texts = TextsHandle::of(held);
    answer
}

/// Writes the number of colons in the text with a number. A selector with that name takes as many
/// arguments.
#[unsafe(no_mangle)]
pub extern "C" fn msg_texts_colons(
    alloc: Global,
    texts: &mut TextsHandle,
    number: u32,
    count: &mut usize,
) -> u32
    ensures kept { texts.new.held.state ≡ texts.old.held.state }
    ensures closed { texts.old.held.state ≡ None → result ≡ CLOSED }
    ensures left { result ≢ 0 → count.new ≡ count.old }
    ensures none { IfInterned texts.old (λ v. text_at v number ≡ None → result ≡ NONE) }
    ensures done { IfInterned texts.old (λ v. (t : List ℕ)
        → text_at v number ≡ Some t → (result ≡ 0) × (count.new ≡ colons_of t)) }
{
    let Some(held) = texts.take(alloc) else {
        return CLOSED;
    };
    let colons = held.colons(number);
    *texts = TextsHandle::of(held);
    match colons {
        Some(colons) => {
            *count = colons;
            DONE
        }
        None => NONE,
    }
}
