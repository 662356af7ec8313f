//! What a text begins with.

ghost use Rattle.std.specs.Prelude.{◌≡◌, ◌≤◌, ◌∷◌};
ghost use Rattle.msg_encodings.specs.Texts.{past, up_to, past_one, past_name, number, past_number};
ghost use Rattle.msg_encodings.specs.declared.letters.TheConstants.{LARGEST};

use crate::letters::LARGEST;

/// The text after its leading letters that are among these.
pub(crate) fn past<'a>(text: &'a [u8], these: &[u8]) -> &'a [u8]
    ensures { result.now ≡ past these.now text.now }
{
    let mut rest = text;
    while let [letter, more @ ..] = rest {
        if !these.contains(letter) {
            break;
        }
        rest = more;
    }
    rest
}

/// The text from its first letter that is among these.
pub(crate) fn up_to<'a>(text: &'a [u8], these: &[u8]) -> &'a [u8]
    ensures { result.now ≡ up_to these.now text.now }
{
    let mut rest = text;
    while let [letter, more @ ..] = rest {
        if these.contains(letter) {
            break;
        }
        rest = more;
    }
    rest
}

/// The text after this letter, if it begins with it.
pub(crate) fn past_one(text: &[u8], it: u8) -> &[u8]
    ensures { result.now ≡ past_one it text.now }
{
    match text {
        [letter, rest @ ..] if *letter == it => rest,
        _ => text,
    }
}

/// The text after a name in quotes, if it begins with one.
pub(crate) fn past_name(text: &[u8]) -> &[u8]
    ensures { result.now ≡ past_name text.now }
{
    match text {
        [b'"', rest @ ..] => past_one(up_to(rest, b"\""), b'"'),
        _ => text,
    }
}

/// The number that the leading digits write, at most [`LARGEST`], and the text after them.
pub(crate) fn number(text: &[u8]) -> (u64, &[u8])
    ensures value { result.0 ≡ number text.now }
    ensures rest { result.1.now ≡ past_number text.now }
    ensures most { result.0 ≤ LARGEST }
{
    let mut value = 0;
    let mut rest = text;
    while let [digit @ b'0'..=b'9', more @ ..] = rest {
        value = (10 * value + u64::from(*digit - b'0')).min(LARGEST);
        rest = more;
    }
    (value, rest)
}
