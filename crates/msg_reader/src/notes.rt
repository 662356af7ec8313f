//! The notes that a sender keeps of its lookups. Only its own thread sees them, and no call here
//! takes a lock or reads a shared word.

ghost use Rattle.msg_reader.specs.Blank.{AreBlankUnlessWritten, ComeAfter};

use crate::note::{Note, PLACES, place};
use msg_cache::Arena;
use msg_names::{ClassRef, ImpRef, Selector};

// Nothing is noted of slots from this one on. No arena has a word for one.
const SLOTS: usize = 67_108_864;

// The places come in parts. The first notes of a part take 4 KiB.
const PARTS: usize = 64;

const OF_A_PART: usize = 128;

/// The notes that a sender keeps of its lookups. Each class reference and selector has one of 8,192
/// places, and there are two notes at each: a first and a second one. In C they are two arrays of
/// notes of 32 bytes, with 80 bytes before them. A note of zero bytes is blank.
#[repr(C)]
#[derive(Drop)]
pub struct Notes {
    // of each part, whether a note was written there
    written: [bool; PARTS],
    // with 16 bytes before the notes, none lies on two lines of the processor's cache
    unused: [u64; 2],
    first: [Note; PLACES],
    second: [Note; PLACES],
    ghost after: { ComeAfter first second },
    ghost unwritten: { AreBlankUnlessWritten written first },
}

impl Notes {
    ghost use Rattle.std.specs.Prelude.{◌≡◌, ◌<◌, ◌≤◌, ℕ, get_or, option_map, IfSome, None};
    ghost use Rattle.msg_names.specs.Number.{imp_number};
    ghost use Rattle.msg_tables.specs.History.{History};
    ghost use Rattle.msg_cache.specs.Views.{classes, layout};
    ghost use Rattle.msg_reader.specs.declared.note.Note.{Note};
    ghost use Rattle.msg_reader.specs.Blank.{AreBlankIn, IsBlank, StayBlank};
    ghost use Rattle.msg_reader.specs.Kept.{KeepOthers, SpareOthers};
    ghost use Rattle.msg_reader.specs.Notes.{AreBlank, AreNotesOf, HavePlaces, IsKeptAt, StayNotes, StayStamped};
    ghost use Rattle.msg_reader.specs.Notes.{Tell, TellFound, recalled, recalled_of};

    /// Makes blank notes.
    pub const fn new() -> Notes
        ensures blank { AreBlank result }
        ensures notes { (h : History) → AreNotesOf h result }
    {
        Notes {
            written: [false; PARTS],
            unused: [0; 2],
            first: [Note::BLANK; PLACES],
            second: [Note::BLANK; PLACES],
        }
    }

    /// Makes all notes blank. It visits the parts of 128 places where a note was written, and there
    /// a second note only where there is a first one. So memory that no note was written to stays
    /// untouched.
    pub fn clear(&mut self)
        ensures { AreBlank self.new }
    {
        for part in 0..PARTS {
            if self.written[part] {
                self.clear_part(part);
            }
        }
    }

    // Makes the notes of a part blank.
    fn clear_part(&mut self, part: usize)
        requires { part < 64 }
        ensures blank { AreBlankIn part self.new.first }
        ensures kept { StayBlank self.old.first self.new.first }
        ensures rooms { HavePlaces self.new }
    {
        for place in OF_A_PART * part..OF_A_PART * (part + 1) {
            self.clear_place(place);
        }
        self.written[part] = false;
    }

    // Makes both notes of a place blank.
    fn clear_place(&mut self, place: usize)
        requires { place < 8192 }
        ensures blank { (d : Note) → IsBlank (get_or self.new.first place d) }
        ensures kept { StayBlank self.old.first self.new.first }
        ensures rooms { HavePlaces self.new }
    {
        if !self.first[place].is_blank() {
            if !self.second[place].is_blank() {
                self.second[place] = Note::BLANK;
            }
            self.first[place] = Note::BLANK;
        }
    }

    /// Returns the implementation that a lookup found after at least this number of changes, if it
    /// is noted. If no later change affects the class reference, the lookup still finds it.
    #[inline]
    pub fn recall(&self, since: u64, class: ClassRef, sel: Selector) -> Option<ImpRef>
        ensures found { IfSome result (TellFound self.now since class sel) }
        ensures noted { option_map imp_number result ≡ recalled_of self.now since class sel }
    {
        match self.recall_named(since, class.slot(), sel.number()) {
            Some(imp) => Some(ImpRef::of(imp)),
            None => None,
        }
    }

    /// Does the same as `recall`, in numbers: given the slot of a class reference and a selector's
    /// number, it returns the number of the implementation, or 0 for forwarding.
    #[inline]
    pub fn recall_method(&self, since: u64, slot: usize, sel: u32) -> Option<u32>
        ensures found { IfSome result (Tell self.now since slot sel) }
        ensures noted { result ≡ recalled self.now since slot sel }
        ensures blank { AreBlank self.now → result ≡ None }
    {
        if sel == 0 {
            return None;
        }
        self.recall_named(since, slot, sel)
    }

    // Does the same for a selector's number that isn't 0.
    #[inline(always)]
    fn recall_named(&self, since: u64, slot: usize, sel: u32) -> Option<u32>
        requires { 0 < sel }
        ensures found { IfSome result (Tell self.now since slot sel) }
        ensures noted { result ≡ recalled self.now since slot sel }
    {
        if slot >= SLOTS {
            return None;
        }
        let place = place(slot, sel);
        match self.first[place].answer(since, slot, sel) {
            Some(imp) => Some(imp),
            None => self.second[place].answer(since, slot, sel),
        }
    }

    /// Notes what a lookup found after a number of changes, and where the stamp of its class
    /// reference lies. If both notes at its place are of other lookups, the older one is replaced.
    /// Otherwise what is noted of other lookups stays. It notes nothing of a class reference whose
    /// slot is 2^26 or more, for which no arena has a word.
    #[inline]
    pub fn keep(&mut self, arena: &Arena, count: u64, class: ClassRef, sel: Selector, imp: ImpRef)
        requires { class.class < classes arena.now }
        ensures notes { StayNotes self.old self.new count class sel imp }
        ensures kept { IsKeptAt count self.new class sel imp }
        ensures others { KeepOthers self.old self.new class sel }
        ensures spared { SpareOthers self.old self.new class sel }
        ensures stamped { StayStamped (layout arena.now) self.old self.new }
    {
        let slot = class.slot();
        let named = sel.number();
        if slot >= SLOTS {
            return;
        }
        let stamp = arena.stamp_offset(class);
        let place = place(slot, named);
        let first = self.first[place];
        let second = self.second[place];
        if Note::comes_second(first, second, slot, named) {
            self.second[place] = Note::of(count, slot, named, imp.number(), stamp, first.parity);
        } else {
            self.written[place / OF_A_PART] = true;
            self.first[place] = Note::of(
                count,
                slot,
                named,
                imp.number(),
                stamp,
                second.parity ^ 1,
            );
        }
    }
}
