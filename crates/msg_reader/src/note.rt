//! A note: what one lookup found.

ghost use Rattle.std.specs.Prelude.{◌≡◌, ◌+◌, ◌<◌, ◌≤◌, ◌^◌};
ghost use Rattle.msg_reader.specs.Key.{IsSealed, key_of, mark_of, place_of};

// The number of places. It is a power of two, so the low bits of a key give the place of its note.
pub(crate) const PLACES: usize = 8192;

// The distance between the keys of two slots: more than the 2^35 that the keys of all selectors
// span, and 3,849 notes on. So the notes of a class and of those with the next numbers lie far from
// each other. This is a multiplicative hash of the slot, like Knuth's (The Art of Computer
// Programming, 6.4).
const APART: u64 = 34_359_769_160;

// The marks for an implementation whose number takes more than 16 bits, and for no method.
const LONG: u32 = 65_534;

const NO_METHOD: u64 = 65_535;

// What a lookup found, and the number of changes at that time. `seal` is the key of a class
// reference's slot and a selector, minus the mark of what was found. So a host in C gets both by
// one load, and no signal handler comes between them. In a blank note it is 0, which belongs to no
// lookup. `stamp` is the distance in bytes from the first of the words that threads share to the
// stamp of the class reference. In a blank note it is 0. The count of changes lies there, and
// whatever that says, the seal belongs to no lookup. Of the two notes at a place the second is the
// newer one if their parities are equal.
#[repr(C)]
#[derive(Clone, Copy)]
pub(crate) struct Note {
    seal: u64,
    count: u64,
    imp: u32,
    pub(crate) parity: u32,
    stamp: u64,
    ghost sealed: { IsSealed seal imp },
}

// The key of a slot and a selector. Its low 16 bits are 8 times the place of its note. It is above
// each mark, so no key belongs to a blank note.
#[inline(always)]
fn key(slot: usize, sel: u32) -> u64
    requires { slot < 2 ^ 26 }
    ensures key { result ≡ key_of slot sel }
    ensures some { 65535 < result }
{
    (slot as u64 + 1) * APART + u64::from(sel) * 8
}

// The place of a lookup's note. Selectors of one class with near numbers have different places.
#[inline(always)]
pub(crate) fn place(slot: usize, sel: u32) -> usize
    requires { slot < 2 ^ 26 }
    ensures inside { result < 8192 }
    ensures place { result ≡ place_of slot sel }
{
    (key(slot, sel) / 8) as usize % PLACES
}

// The mark of an implementation in a seal.
#[inline(always)]
fn mark(imp: u32) -> u64
    ensures mark { result ≡ mark_of imp }
    ensures few { result < 65536 }
{
    if imp == 0 {
        NO_METHOD
    } else {
        u64::from(imp.min(LONG))
    }
}

impl Note {
    ghost use Rattle.std.specs.Prelude.{◌≡◌, ◌==◌, ◌+◌, ◌<◌, ◌≤◌, ◌^◌, ℕ, IfSome, Some, false, true};
    ghost use Rattle.msg_reader.specs.Key.{IsSealOf, key_of, mark_of, place_of};
    ghost use Rattle.msg_tables.specs.History.{History};
    ghost use Rattle.msg_reader.specs.Notes.{IsNoteOf, IsRecalled, LiesAt, Tells, found_by, is_free_for};
    ghost use Rattle.msg_reader.specs.Blank.{IsBlank};

    pub(crate) const BLANK: Note = Note {
        seal: 0,
        count: 0,
        imp: 0,
        parity: 0,
        stamp: 0,
    };

    // Whether the note is blank.
    #[inline(always)]
    pub(crate) fn is_blank(&self) -> bool
        ensures blank { result ≡ true → IsBlank self.now }
    {
        self.seal == 0 && self.imp == 0 && self.stamp == 0
    }

    // Whether the note is of this lookup. The seal of another one is mostly far from the key.
    #[inline(always)]
    fn is_of(&self, slot: usize, sel: u32) -> bool
        requires slot { slot < 2 ^ 26 }
        requires sel { 0 < sel }
        ensures { result ≡ (self.now.seal + mark_of self.now.imp == key_of slot sel) }
    {
        let key = key(slot, sel);
        self.seal < key && key - self.seal <= NO_METHOD && key - self.seal == mark(self.imp)
    }

    // Whether the note is blank or of this lookup.
    #[inline(always)]
    fn is_free_for(&self, slot: usize, sel: u32) -> bool
        requires slot { slot < 2 ^ 26 }
        requires sel { 0 < sel }
        ensures { result ≡ is_free_for self.now slot sel }
    {
        self.seal == 0 || self.is_of(slot, sel)
    }

    // The implementation's number, if this is a note of that lookup after at least this number of
    // changes; 0 if the lookup found no method.
    #[inline(always)]
    pub(crate) fn answer(&self, since: u64, slot: usize, sel: u32) -> Option<u32>
        requires slot { slot < 2 ^ 26 }
        requires sel { 0 < sel }
        ensures found { IfSome result (Tells self.now since slot sel) }
        ensures answer { result ≡ found_by self.now since slot sel }
    {
        if self.is_of(slot, sel) && since <= self.count {
            Some(self.imp)
        } else {
            None
        }
    }

    // Makes the note of a lookup after a number of changes. It says where the stamp lies.
    #[inline(always)]
    pub(crate) fn of(count: u64, slot: usize, sel: u32, imp: u32, stamp: u64, parity: u32) -> Note
        requires slot { slot < 2 ^ 26 }
        requires sel { 0 < sel }
        ensures sealed { IsSealOf result.seal slot sel imp }
        ensures imp { result.imp ≡ imp }
        ensures stamp { result.stamp ≡ stamp }
        ensures kept { (since : ℕ) → since ≤ count → found_by result since slot sel ≡ Some imp }
        ensures placed { LiesAt (place_of slot sel) result }
        ensures note { (h : History) → IsRecalled h count slot sel imp → IsNoteOf h result }
    {
        Note {
            seal: key(slot, sel) - mark(imp),
            count,
            imp,
            parity,
            stamp,
        }
    }

    // Whether a lookup is noted second at the place of these two notes. It is if the first is of
    // another lookup, and the second isn't or is the older of both. No clause says which is older:
    // that is a matter of cost alone.
    #[inline(always)]
    pub(crate) fn comes_second(first: Note, second: Note, slot: usize, sel: u32) -> bool
        requires slot { slot < 2 ^ 26 }
        requires sel { 0 < sel }
        ensures taken { result ≡ true → is_free_for first slot sel ≡ false }
        ensures spared { result ≡ false → is_free_for second slot sel ≡ true → is_free_for first slot sel ≡ true }
    {
        !first.is_free_for(slot, sel)
            && (second.is_free_for(slot, sel) || first.parity != second.parity)
    }
}
