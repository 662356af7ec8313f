//! Whether words of a live array will agree with the method lists after a change is made.

ghost use Rattle.std.specs.Prelude.{◌≡◌, ◌<◌, length};
ghost use Rattle.msg_tables.specs.Log.{Log};
ghost use Rattle.msg_tables.specs.Stands.{StandsAt};
ghost use Rattle.msg_tables.specs.Written.{SeeksAmong};
ghost use Rattle.msg_model.specs.Spoiled.{spoils_some, spoils_word};

use crate::buckets::Buckets;
use msg_buckets::unpack;
use msg_names::ClassRef;
use msg_tables::{Change, Tables};

// Whether a word is an entry that will not agree with the method lists.
fn would_disagree(tables: &Tables, change: &Change, class: ClassRef, word: u64) -> bool
    requires class { class.class < length tables.now.supers }
    requires listed { SeeksAmong (length tables.now.supers) change.now }
    ensures { (h : Log) → StandsAt tables.now h → result ≡ spoils_word h change.now class word }
{
    if word == 0 {
        return false;
    }
    match unpack(word) {
        Some((sel, imp)) => tables.lookup_after(change, class, sel) != imp,
        None => true,
    }
}

// Whether the words of a class reference have an entry that will not agree.
pub(crate) fn has_spoiled_word(
    tables: &Tables,
    change: &Change,
    class: ClassRef,
    words: &Buckets,
) -> bool
    requires class { class.class < length tables.now.supers }
    requires listed { SeeksAmong (length tables.now.supers) change.now }
    ensures { (h : Log) → StandsAt tables.now h → result ≡ spoils_some h change.now class words.now }
{
    for place in 0..words.capacity() {
        if would_disagree(tables, change, class, words.word(place)) {
            return true;
        }
    }
    false
}
