//! Numbers.

ghost use Rattle.std.specs.Prelude.{◌≡◌, ◌==◌, ◌<◌, length, slice_index, option_map, Some, false, true, IsTrue, IfSome};
ghost use Rattle.fast_float.specs.Text.{scan};
ghost use Rattle.serde_json.specs.Data.{unsigned};
ghost use Rattle.serde_json.specs.Read.{number_of, number_from, float_of};
ghost use Rattle.serde_json.specs.View.{number_view};

use fast_float::Numeral;
use serde_json::Number;

/// Reads a numeral, and gives no number if it is too large for a float.
///
/// Most numbers of a document are digits alone. These are read in one pass, which looks for no
/// point and no exponent.
pub(crate) fn number(text: &str) -> Option<Number>
    ensures { option_map number_view result ≡ number_of text.now }
{
    let bytes = text.as_bytes();
    if has_minus(bytes) {
        return after_minus(&bytes[1..]);
    }
    match plain_digits(bytes) {
        Some(number) => Some(Number::from(number)),
        None => without_minus(bytes),
    }
}

// The next two functions are separate from `number`, which would otherwise reserve their stack
// space at its entry.
#[inline(never)]
fn after_minus(bytes: &[u8]) -> Option<Number>
    ensures { option_map number_view result ≡ number_from true (scan bytes.now) }
{
    negative(&Numeral::scan(bytes))
}

#[inline(never)]
fn without_minus(bytes: &[u8]) -> Option<Number>
    ensures { option_map number_view result ≡ number_from false (scan bytes.now) }
{
    unsigned(&Numeral::scan(bytes))
}

// Reads a number that is digits alone, if it fits. The kit's reader would skip a plus, which JSON
// doesn't have.
fn plain_digits(bytes: &[u8]) -> Option<u64>
    ensures { IfSome result (λ n. number_from false (scan bytes.now) ≡ Some (unsigned n)) }
{
    if has_plus(bytes) {
        return None;
    }
    fast_float::parse_u64(bytes).ok()
}

fn has_plus(bytes: &[u8]) -> bool
    ensures { result ≡ (slice_index bytes.now 0 == 43) }
{
    !bytes.is_empty() && bytes[0] == b'+'
}

fn has_minus(bytes: &[u8]) -> bool
    ensures value { result ≡ (slice_index bytes.now 0 == 45) }
    ensures some { IsTrue result → 0 < length bytes.now }
{
    !bytes.is_empty() && bytes[0] == b'-'
}

fn unsigned(numeral: &Numeral<'_>) -> Option<Number>
    ensures { option_map number_view result ≡ number_from false numeral.now }
{
    match numeral.to_u64() {
        Some(number) => Some(Number::from(number)),
        None => nearest(false, numeral),
    }
}

// A zero with a minus is a float.
fn negative(numeral: &Numeral<'_>) -> Option<Number>
    ensures { option_map number_view result ≡ number_from true numeral.now }
{
    match numeral.to_i64(true) {
        Some(number) if number < 0 => Some(Number::from(number)),
        _ => nearest(true, numeral),
    }
}

fn nearest(negative: bool, numeral: &Numeral<'_>) -> Option<Number>
    ensures { option_map number_view result ≡ float_of negative numeral.now }
{
    Number::from_f64(numeral.to_float::<f64>(negative))
}
