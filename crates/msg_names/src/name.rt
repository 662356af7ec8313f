//! Which texts are names.

ghost use Rattle.std.specs.Prelude.{◌≡◌, ◌<◌, length, IsTrue};
ghost use Rattle.std.specs.List.{list_all};
ghost use Rattle.msg_names.specs.Name as spec;

/// The most bytes that a name has.
pub const MAX_NAME_BYTES: usize = 64;

/// The most arguments that a selector takes. Its name has a colon for each of them.
pub const MAX_ARGUMENTS: usize = 4;

/// Whether a text can be the name of a class, an object or an implementation.
#[tactic(auto, unfolding(crate::specs::Name::is_identifier))]
pub fn is_identifier(text: &str) -> bool
    ensures { result ≡ spec.is_identifier text.now }
{
    let bytes = text.as_bytes();
    is_sized(bytes) && !bytes[0].is_ascii_digit() && are_word_bytes(bytes)
}

/// Whether a text can be the name of a selector.
#[tactic(auto, unfolding(crate::specs::Name::is_selector_name))]
pub fn is_selector_name(text: &str) -> bool
    ensures { result ≡ spec.is_selector_name text.now }
{
    let bytes = text.as_bytes();
    is_sized(bytes)
        && !bytes[0].is_ascii_digit()
        && are_selector_bytes(bytes)
        && ends_in_its_colons(bytes)
}

#[tactic(auto, unfolding(crate::specs::Name::is_sized))]
fn is_sized(bytes: &[u8]) -> bool
    ensures value { result ≡ spec.is_sized bytes.now }
    ensures some { IsTrue result → 0 < length bytes.now }
{
    1 <= bytes.len() && bytes.len() <= MAX_NAME_BYTES
}

fn are_word_bytes(bytes: &[u8]) -> bool
    ensures { result ≡ list_all spec.is_word_byte bytes.now }
{
    bytes.iter().all(|b| is_word_byte(*b))
}

fn are_selector_bytes(bytes: &[u8]) -> bool
    ensures { result ≡ list_all spec.is_selector_byte bytes.now }
{
    bytes.iter().all(|b| is_selector_byte(*b))
}

#[tactic(auto, unfolding(crate::specs::Name::is_word_byte))]
fn is_word_byte(b: u8) -> bool
    ensures { result ≡ spec.is_word_byte b }
{
    b.is_ascii_alphanumeric() || b == b'_'
}

#[tactic(auto, unfolding(crate::specs::Name::is_selector_byte))]
fn is_selector_byte(b: u8) -> bool
    ensures { result ≡ spec.is_selector_byte b }
{
    is_word_byte(b) || b == b':'
}

#[tactic(auto, unfolding(crate::specs::Name::ends_in_its_colons))]
fn ends_in_its_colons(bytes: &[u8]) -> bool
    requires { 0 < length bytes.now }
    ensures { result ≡ spec.ends_in_its_colons bytes.now }
{
    let colons = colon_count(bytes);
    colons <= MAX_ARGUMENTS && (colons == 0 || bytes[bytes.len() - 1] == b':')
}

/// The number of colons.
pub(crate) fn colon_count(bytes: &[u8]) -> usize
    ensures { result ≡ spec.colons_of bytes.now }
{
    bytes.iter().filter(|b| **b == b':').count()
}
