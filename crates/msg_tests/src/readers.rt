//! Texts at random, each read by `serde_json` and by `msg_json`.

use crate::documents::nested;
use crate::same::same_at;
use msg_samples::{Readings, read_by_both};
use std::alloc::{AllocError, Global};

// The number of texts.
const TEXTS: usize = 10_000;

// Texts that values are put together from. They are JSON, but for the last four.
const PIECES: [&str; 32] = [
    "null",
    "true",
    "false",
    "0",
    "-0",
    " 7\n",
    "-12",
    "1.5",
    "-0.0",
    "1e3",
    "2E-7",
    "123456.789e+2",
    "9007199254740993",
    "9223372036854775807",
    "9223372036854775808",
    "-9223372036854775808",
    "-9223372036854775809",
    "18446744073709551615",
    "18446744073709551616",
    "1.7976931348623157e308",
    "4.9e-324",
    "123456789012345678901234567890",
    "\"\\\"\\\\\\/\\b\\f\\n\\r\\t\"",
    "\"\\ud83d\\ude00\"",
    "\"a longer text, with a comma: and a colon\"",
    "\"\\u0000\"",
    "[]",
    "{\t}",
    "1e400",
    "01",
    "\"\\ud83d\"",
    "\"\\x\"",
];

const KEYS: [&str; 8] = [
    "\"a\"",
    "\"b\" ",
    "\"\\u0061\"",
    "\"\"",
    "\"name\"",
    "\"\\u00e9\"",
    "\"é\"",
    "\"a\\n\"",
];

// The byte that replaces another.
const BYTES: [u8; 16] = [
    b'"', b'\\', b',', b':', b'[', b']', b'{', b'}', b' ', b'0', b'9', b'-', b'e', 0, 0x80, 0xC3,
];

// A linear congruential generator: each run has the same texts.
#[derive(Drop)]
struct Random {
    state: u64,
}

impl Random {
    // A number below the count, or 0 of 0.
    fn below(&mut self, count: usize) -> usize {
        self.state = self
            .state
            .wrapping_mul(6_364_136_223_846_793_005)
            .wrapping_add(1_442_695_040_888_963_407);
        let high = self.state >> 33;
        (high as usize).checked_rem(count).unwrap_or(0)
    }

    fn piece(&mut self, pieces: &[&'static str]) -> &'static str {
        let place = self.below(pieces.len());
        pieces.get(place).copied().unwrap_or("")
    }
}

// A list or an object of some of the values.
fn value_of(random: &mut Random, values: &[String], alloc: Global) -> Result<String, AllocError> {
    let is_object = random.below(2) == 0;
    let mut text = String::new(alloc);
    text.push(if is_object { '{' } else { '[' })?;
    for place in 0..random.below(6) {
        if place > 0 {
            text.push(',')?;
        }
        if is_object {
            text.push_str(random.piece(&KEYS))?;
            text.push(':')?;
        }
        let inner = random.below(values.len());
        text.push_str(values.get(inner).map_or("0", |value| value.as_str()))?;
    }
    text.push(if is_object { '}' } else { ']' })?;
    Ok(text)
}

// Puts another byte into the place of one, or cuts the text there.
fn spoil(random: &mut Random, text: &mut Vec<u8>) {
    let place = random.below(text.len());
    let other = random.below(BYTES.len() + 1);
    match BYTES.get(other) {
        Some(byte) => {
            if let Some(spoiled) = text.get_mut(place) {
                *spoiled = *byte;
            }
        }
        None => text.truncate(place),
    }
}

// Reads the text, and half of the time one that is spoiled. What is read well takes the place of
// one of the values, if it is short.
fn try_text(
    random: &mut Random,
    values: &mut [String],
    alloc: Global,
) -> Result<Readings, AllocError> {
    let text = value_of(random, values, alloc)?;
    let mut bytes = text.as_bytes().to_vec(alloc)?;
    if random.below(2) == 0 {
        spoil(random, &mut bytes);
        return Ok(read_by_both(alloc, &bytes));
    }
    let found = read_by_both(alloc, &bytes);
    if found == Readings::Same {
        let place = random.below(values.len());
        if let Some(value) = values.get_mut(place) {
            *value = if text.len() < 500 {
                text
            } else {
                "{}".to_string(alloc)?
            };
        }
    }
    Ok(found)
}

#[test]
fn texts_at_random_are_read_alike(rt: HostRuntime) -> Result<(), AllocError> {
    let alloc = rt.alloc();
    let mut random = Random { state: 1 };
    let mut values = Vec::new(alloc);
    for piece in PIECES {
        values.push(piece.to_string(alloc)?)?;
    }
    let mut read = 0usize;
    for at in 0..TEXTS {
        let found = try_text(&mut random, &mut values, alloc)?;
        assert_ne!(rt; found, Readings::Different, "text {at}");
        if found == Readings::Same {
            read = read.saturating_add(1);
        }
    }
    assert!(rt; (3_000..7_000).contains(&read), "{read} are JSON");
    Ok(())
}

#[test]
fn deep_texts_are_read_alike(rt: HostRuntime) {
    let alloc = rt.alloc();
    for (count, found) in [(127, Readings::Same), (128, Readings::Refused)] {
        let lists = nested(&rt, alloc, "[", "1", "]", count);
        same_at(&rt, &count, read_by_both(alloc, lists.as_bytes()), found);
        let objects = nested(&rt, alloc, "{\"a\":", "1", "}", count);
        same_at(&rt, &count, read_by_both(alloc, objects.as_bytes()), found);
    }
}
