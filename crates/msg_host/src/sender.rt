//! Senders.

ghost use Rattle.std.specs.Prelude.{◌≡◌, ◌<◌, ◌≤◌, ◌+◌, length, option_map, true, false, IfSome, IfNone};
ghost use Rattle.msg_names.specs.Number.{imp_number, selector_number};
ghost use Rattle.msg_tables.specs.Origin.{last_imp};
ghost use Rattle.msg_tables.specs.History.{BeginsWith};
ghost use Rattle.msg_model.specs.Stamps.{last_affected};
ghost use Rattle.msg_cache.specs.Rule.{IsAccepted};
ghost use Rattle.msg_cache.specs.Views.{IsFoundAt, classes, layout};
ghost use Rattle.msg_reader.specs.Cost.{ProbesAtMost, ProbesOnceAtMost};
ghost use Rattle.msg_reader.specs.Kept.{FindsUnprobed, KeepOthers, LoadsStamp, MissesUnlessChanged};
ghost use Rattle.msg_reader.specs.Notes.{AreNotesOf, StayStamped};
ghost use Rattle.msg_reader.specs.Several.{AreAsked, AreFoundTogether, AreNoted, KeepOthersOfAll, LackOne, MissOne};
ghost use Rattle.msg_host.specs.Named.{HaveNotedLast};

use msg_cache::Arena;
use msg_names::{ClassRef, ImpRef, Selector};
use msg_reader::laws::a_slot_of_few_classes_is_short;
use msg_reader::{LookupList, Notes, Reader};
use std::alloc::Global;
use std::marker::Model;
use std::sync::Arc;

/// Looks up without a lock, in the caches that it shares with all senders of its runtime. It never
/// answers from an earlier point than it has seen.
#[derive(Drop)]
pub struct HostedSender {
    pub(crate) arena: Arc<Arena, Global>,
    pub(crate) reader: Reader,
    pub(crate) classes: u32,
}

impl Model for HostedSender {
    ghost use Rattle.msg_host.specs.View.{SenderView};

    ghost Value = { SenderView };

    ghost use Rattle.std.specs.Coded.{codes};
    ghost use Rattle.atomic_table.specs.Seated.{table_id_coded};

    ghost coded = { Prim.hlevel (codes, table_id_coded) };

    ghost use Rattle.msg_host.specs.Inside.{sender_view, IsOfArena};

    ghost view = { sender_view };

    ghost invariant = { IsOfArena };
}

impl HostedSender {
    /// The number of classes with numbers.
    pub fn class_count(&self) -> u32
        ensures { result ≡ classes self.now.arena }
    {
        self.classes
    }

    /// The number of changes, which the sender has then seen: from then on it answers from no
    /// earlier point. The call needs no lock.
    pub fn refresh(&mut self) -> u64
        ensures arena { self.new.arena ≡ self.old.arena }
        ensures begins { BeginsWith self.new.seen.front self.old.seen.front }
        ensures length { result ≡ length self.new.seen.front.changes }
        ensures looked { self.new.seen.looks ≡ self.old.seen.looks + 1 }
    {
        self.reader.refresh(&self.arena)
    }

    // The stamp of a class reference: of the changes that the sender has then seen, none after that
    // many has affected it.
    pub(crate) fn load_stamp(&mut self, class: ClassRef) -> u64
        requires { class.class < classes self.old.arena }
        ensures arena { self.new.arena ≡ self.old.arena }
        ensures begins { BeginsWith self.new.seen.front self.old.seen.front }
        ensures loaded { LoadsStamp class result self.old.seen self.new.seen }
        ensures accepted { IsAccepted self.new.seen.front }
        ensures since { last_affected self.new.seen.front class ≤ result }
    {
        self.reader.stamp(&self.arena, class)
    }

    // Returns the implementation from the notes, or else from the cache: what a lookup finds at
    // what the sender has then seen. What the notes have is noted again at the number of changes.
    #[inline]
    pub(crate) fn try_find(
        &mut self,
        notes: &mut Notes,
        class: ClassRef,
        sel: Selector,
    ) -> Option<ImpRef>
        requires class { class.class < classes self.old.arena }
        requires notes { AreNotesOf self.old.seen.front notes.old }
        ensures arena { self.new.arena ≡ self.old.arena }
        ensures begins { BeginsWith self.new.seen.front self.old.seen.front }
        ensures some { IfSome result (IsFoundAt self.new.seen.front class sel) }
        ensures listed { IfSome result (λ i. imp_number i ≤ last_imp self.old.arena.key.origin.counts) }
        ensures notes { AreNotesOf self.new.seen.front notes.new }
        ensures noted { IfSome result (HaveNotedLast notes.new self.new class sel) }
        ensures others { KeepOthers notes.old notes.new class sel }
        ensures stamped { StayStamped (layout self.old.arena) notes.old notes.new }
        ensures unprobed { FindsUnprobed notes.old class (selector_number sel)
            self.old.seen self.new.seen (option_map imp_number result) }
        ensures missed { IfNone result
            (MissesUnlessChanged self.new.arena class (selector_number sel) self.old.seen self.new.seen) }
        ensures probed { ProbesOnceAtMost self.old.arena class (selector_number sel)
            self.old.seen self.new.seen }
    {
        a_slot_of_few_classes_is_short();
        self.reader.try_find_counted(&self.arena, notes, class, sel)
    }

    // Whether several lookups were found, by the notes or by caches, all at one point of the
    // history that the sender has then seen.
    pub(crate) fn try_find_all<L: LookupList>(
        &mut self,
        notes: &mut Notes,
        lookups: &L,
        imps: &mut [u32],
    ) -> bool
        requires asked { AreAsked self.old.arena (L.lookups lookups.now) }
        requires notes { AreNotesOf self.old.seen.front notes.old }
        requires room { length imps.old ≡ length (L.lookups lookups.now) }
        ensures arena { self.new.arena ≡ self.old.arena }
        ensures begins { BeginsWith self.new.seen.front self.old.seen.front }
        ensures found { result ≡ true → AreFoundTogether self.old.seen self.new.seen (L.lookups lookups.now) imps.new }
        ensures looked { self.new.seen.looks ≡ self.old.seen.looks + 1 }
        ensures notes { AreNotesOf self.new.seen.front notes.new }
        ensures noted { result ≡ true
            → AreNoted notes.new self.old.seen self.new.seen (L.lookups lookups.now) imps.new }
        ensures others { KeepOthersOfAll notes.old notes.new (L.lookups lookups.now) }
        ensures stamped { StayStamped (layout self.old.arena) notes.old notes.new }
        ensures recalled { result ≡ false → LackOne notes.old (L.lookups lookups.now) self.old.seen self.new.seen }
        ensures missed { result ≡ false → MissOne self.old.arena (L.lookups lookups.now) self.old.seen self.new.seen }
        ensures probed { ProbesAtMost (length (L.lookups lookups.now)) self.old.seen self.new.seen }
    {
        self.reader
            .try_find_all(&self.arena, notes, lookups, imps)
            .is_some()
    }
}
