//! The size of a runtime.

ghost use Rattle.std.specs.Prelude.{◌≡◌, ◌≤◌, IfSome, None, false, is_some, is_none};
ghost use Rattle.msg_cache.specs.Config.{refusal_of};
ghost use Rattle.msg_host.specs.Config.{are_known, arena_config, array_counts, config_of, host_origin, is_beyond, word_at};
ghost use Rattle.msg_host.specs.Config as spec;

use msg_cache::Config;
use msg_tables::{Limits, Origin};
use std::alloc::Global;

/// The most class numbers that are reserved.
pub const MOST_CLASSES: u32 = 1_048_576;

/// The number of class numbers that are reserved by default.
pub const DEFAULT_CLASSES: u32 = 16_384;

/// The most senders.
pub const MOST_SENDERS: u32 = 16_384;

/// The number of senders by default.
pub const DEFAULT_SENDERS: u32 = 1_024;

/// The most arrays of a capacity.
pub const MOST_ARRAYS: u32 = 65_535;

/// The number of arrays of each capacity by default.
pub const DEFAULT_ARRAYS: [u16; 9] = [4096, 2048, 512, 256, 128, 64, 32, 16, 8];

/// The most methods that there may be at any time.
pub const HOST_ROWS: u64 = 4_294_967_296;

/// The number of changes that are accepted.
pub const HOST_CHANGES: u64 = 281_474_976_710_656;

/// The most words that caches may use. It is more than the most of each field add up to.
pub const HOST_WORDS: u32 = 268_435_456;

// The number of words of a config.
const CONFIG_WORDS: usize = 11;

/// The size that a host asks for. A number 0 stands for the default.
#[derive(Clone, Copy, Debug, PartialEq, Eq)]
pub struct HostConfig {
    /// The number of class numbers that are reserved, from 0.
    pub classes: u32,
    /// The most senders that there may be.
    pub senders: u32,
    /// The numbers of arrays of 4 buckets, of 8, and so on up to 1,024. If all are 0, they are the
    /// default.
    pub arrays: [u32; 9],
}

// The word at a place, or 0 beyond the end.
fn word(words: &[u32], place: usize) -> u32
    ensures { result ≡ word_at words.now place }
{
    match words.get(place) {
        Some(word) => *word,
        None => 0,
    }
}

// Whether each word beyond those of a config is 0.
fn known(words: &[u32]) -> bool
    ensures { result ≡ are_known words.now }
{
    words.iter().skip(CONFIG_WORDS).all(|word| *word == 0)
}

// The number itself, or the default if it is 0.
fn or_default(default: u32, number: u32) -> u32
    ensures { result ≡ spec.or_default default number }
{
    if number == 0 { default } else { number }
}

// A count of arrays, if it isn't above the most.
fn short(count: u32) -> u16
    requires { count ≤ MOST_ARRAYS }
    ensures { result ≡ count }
{
    count as u16
}

// Whether no count of arrays is asked for.
fn are_all_0(arrays: &[u32; 9]) -> bool
    ensures { result ≡ spec.are_all_0 arrays.now }
{
    arrays.iter().all(|count| *count == 0)
}

// Whether some count of arrays is above the most.
fn are_beyond(arrays: &[u32; 9]) -> bool
    ensures { result ≡ spec.are_beyond arrays.now }
{
    arrays.iter().any(|count| *count > MOST_ARRAYS)
}

impl HostConfig {
    /// Reads a config from words, one field after another. Fields beyond the last word are 0, and
    /// words beyond the last field have to be 0.
    pub fn of_words(words: &[u32]) -> Option<HostConfig>
        ensures config { IfSome result (λ config. config ≡ config_of words.now) }
        ensures known { is_some result ≡ are_known words.now }
    {
        if !known(words) {
            return None;
        }
        Some(HostConfig {
            classes: word(words, 0),
            senders: word(words, 1),
            arrays: [
                word(words, 2),
                word(words, 3),
                word(words, 4),
                word(words, 5),
                word(words, 6),
                word(words, 7),
                word(words, 8),
                word(words, 9),
                word(words, 10),
            ],
        })
    }

    // Whether a field is above its most.
    fn is_beyond(&self) -> bool
        ensures { result ≡ is_beyond self.now }
    {
        self.classes > MOST_CLASSES || self.senders > MOST_SENDERS || are_beyond(&self.arrays)
    }

    // The number of arrays of each capacity, if none is above the most.
    fn array_counts(&self) -> [u16; 9]
        requires { spec.are_beyond self.now.arrays ≡ false }
        ensures { result ≡ array_counts self.now }
    {
        if are_all_0(&self.arrays) {
            return DEFAULT_ARRAYS;
        }
        let mut counts = [0; 9];
        for place in 0..9 {
            counts[place] = short(self.arrays[place]);
        }
        counts
    }

    // The size of the arena, unless a field is above its most. It then has no fault.
    #[tactic(auto, using(crate::proofs::ConfigLemmas::host_arena_fits))]
    pub(crate) fn arena(&self) -> Option<Config>
        ensures config { IfSome result (λ config. config ≡ arena_config self.now) }
        ensures fits { IfSome result (λ config. refusal_of (host_origin self.now) config ≡ None) }
        ensures beyond { is_none result ≡ is_beyond self.now }
    {
        if self.is_beyond() {
            return None;
        }
        Some(Config {
            senders: or_default(DEFAULT_SENDERS, self.senders),
            arrays: self.array_counts(),
        })
    }

    // The origin of the runtime's history.
    #[tactic(auto, using(crate::proofs::ConfigLemmas::host_origin_sound))]
    pub(crate) fn origin(&self, alloc: Global) -> Origin
        requires { self.now.classes ≤ MOST_CLASSES }
        ensures { result ≡ host_origin self.now }
    {
        let classes = or_default(DEFAULT_CLASSES, self.classes);
        let limits = Limits {
            rows: HOST_ROWS,
            changes: HOST_CHANGES,
            senders: MOST_SENDERS,
            words: HOST_WORDS,
        };
        Origin::new(Vec::new(alloc), classes, Vec::new(alloc), None, limits)
    }
}
