//! Several lookups at one point of the history.
//!
//! The count of changes is loaded first, and each lookup is answered as of that count. The stamp of
//! its class reference is loaded before the notes or the cache are read, and isn't above the count.
//! So no change after the count has affected the class reference yet, and what the notes or the
//! cache have now is what the lookup found then. A change of other classes is not noticed.

ghost use Rattle.std.specs.Prelude.{◌≡◌, ◌≤◌, ◌<◌, ◌+◌, ◌⊎◌, length, IfSome, IfNone, IsSome};
ghost use Rattle.msg_tables.specs.History.{BeginsWith};
ghost use Rattle.msg_cache.specs.Views.{IsSenderOf, classes, layout};
ghost use Rattle.msg_names.specs.Number.{imp_number, selector_number};
ghost use Rattle.msg_reader.specs.Cost.{ProbesAtMost};
ghost use Rattle.msg_reader.specs.Kept.{KeepOthers, LoadsMore, MissesAfter};
ghost use Rattle.msg_reader.specs.Notes.{AreNotesOf, StayStamped};
ghost use Rattle.msg_reader.specs.Several.{AreAsked, AreFoundAfter, AreNoted, IsFoundAfter, IsNotedAmong, KeepOthersOfAll, LackOne, LacksIt, MissOne};

use crate::laws::notes_are_of_longer_histories;
use crate::lookup::Lookup;
use crate::lookup_list::LookupList;
use crate::notes::Notes;
use crate::reader::Reader;
use msg_cache::Arena;
use msg_names::ImpRef;

impl Reader {
    /// Returns the number of changes, and writes the numbers of the implementations that several
    /// lookups find after that many changes, 0 for forwarding. The reader has then seen these
    /// changes, which are no fewer than it had seen. No lock is taken.
    ///
    /// It returns nothing if the notes and a cache lack one of them, or if a change that affects
    /// the class reference of one has fallen among them. Then the runtime answers, and `imps` has
    /// no meaning.
    pub fn try_find_all<L: LookupList>(
        &mut self,
        arena: &Arena,
        notes: &mut Notes,
        lookups: &L,
        imps: &mut [u32],
    ) -> Option<u64>
        requires reader { IsSenderOf arena.now self.old }
        requires asked { AreAsked arena.now (L.lookups lookups.now) }
        requires notes { AreNotesOf self.old.sender.front notes.old }
        requires room { length imps.old ≡ length (L.lookups lookups.now) }
        ensures reader { IsSenderOf arena.now self.new }
        ensures begins { BeginsWith self.new.sender.front self.old.sender.front }
        ensures found { IfSome result (AreFoundAfter self.old.sender self.new.sender (L.lookups lookups.now) imps.new) }
        ensures notes { AreNotesOf self.new.sender.front notes.new }
        ensures stamped { StayStamped (layout arena.now) notes.old notes.new }
        ensures noted { IsSome result
            → AreNoted notes.new self.old.sender self.new.sender (L.lookups lookups.now) imps.new }
        ensures others { KeepOthersOfAll notes.old notes.new (L.lookups lookups.now) }
        ensures looked { self.new.sender.looks ≡ self.old.sender.looks + 1 }
        ensures room { length imps.new ≡ length imps.old }
        ensures recalled { IfNone result (LackOne notes.old (L.lookups lookups.now) self.old.sender self.new.sender) }
        ensures missed { IfNone result (MissOne arena.now (L.lookups lookups.now) self.old.sender self.new.sender) }
        ensures probed { ProbesAtMost (length (L.lookups lookups.now)) self.old.sender self.new.sender }
    {
        notes_are_of_longer_histories();
        let count = self.refresh(arena);
        for place in 0..lookups.len() {
            let lookup = lookups.get(place);
            let Some(imp) = self.try_find_after(arena, notes, count, lookup) else {
                return None;
            };
            imps[place] = imp.number();
        }
        Some(count)
    }

    // Returns what a lookup found after this number of changes, if none after them has affected its
    // class reference and the notes or the cache have it.
    #[inline]
    fn try_find_after(
        &mut self,
        arena: &Arena,
        notes: &mut Notes,
        count: u64,
        lookup: Lookup,
    ) -> Option<ImpRef>
        requires reader { IsSenderOf arena.now self.old }
        requires class { lookup.class.class < classes arena.now }
        requires notes { AreNotesOf self.old.sender.front notes.old }
        requires count { count ≤ length self.old.sender.front.changes }
        ensures reader { IsSenderOf arena.now self.new }
        ensures begins { BeginsWith self.new.sender.front self.old.sender.front }
        ensures counted { IfSome result (IsFoundAfter count self.new.sender.front lookup.class lookup.sel) }
        ensures notes { AreNotesOf self.new.sender.front notes.new }
        ensures stamped { StayStamped (layout arena.now) notes.old notes.new }
        ensures noted { IfSome result
            (λ i. IsNotedAmong notes.new self.old.sender self.new.sender lookup (imp_number i)) }
        ensures others { KeepOthers notes.old notes.new lookup.class lookup.sel }
        ensures looks { self.new.sender.looks ≡ self.old.sender.looks }
        ensures stamps { LoadsMore self.old.sender self.new.sender }
        ensures recalled { (IsSome result × (notes.new ≡ notes.old))
            ⊎ LacksIt notes.old count lookup self.old.sender self.new.sender }
        ensures missed { IfNone result
            (MissesAfter arena.now lookup.class (selector_number lookup.sel) count self.new.sender) }
        ensures probed { ProbesAtMost 1 self.old.sender self.new.sender }
    {
        notes_are_of_longer_histories();
        let since = self.stamp(arena, lookup.class);
        if count < since {
            return None;
        }
        match notes.recall(since, lookup.class, lookup.sel) {
            Some(imp) => Some(imp),
            None => self.try_find_at(arena, notes, count, lookup.class, lookup.sel),
        }
    }
}
