//! The runtime behind a lock.

ghost use Rattle.std.specs.Prelude.{◌≡◌, ◌≢◌, ◌<◌, ◌≤◌, ◌*◌, length, replicate, slice_set, take, not, is_some, true, false, [], ◌∷◌, IfOk, IfErr, IfSome, IsErrOf, IsNone, OnErr, OnOk, None};
ghost use Rattle.msg_names.specs.Number.{selector_number, imp_number};
ghost use Rattle.msg_tables.specs.Origin.{last_imp};
ghost use Rattle.msg_tables.specs.History.{BeginsWith, empty, holder, log, superclass};
ghost use Rattle.msg_tables.specs.Made.{AreMade, AreRefused, TellsWayBack};
ghost use Rattle.msg_tables.specs.Refusal.{IsLog};
ghost use Rattle.msg_tables.specs.RoomLaws.{adds_no_row};
ghost use Rattle.msg_tables.specs.Several.{refused_from};
ghost use Rattle.msg_tables.specs.declared.fault.ChangeFault.{ChangeFault};
ghost use Rattle.msg_cache.specs.Counts.{AreCounts};
ghost use Rattle.msg_cache.specs.Plays.{given_again, taken_in, lent, is_lent};
ghost use Rattle.msg_cache.specs.declared.view.TurnAt.TheVariants.{Away};
ghost use Rattle.msg_cache.specs.Views.{IsFoundAt, IsSenderOf, classes, layout};
ghost use Rattle.msg_reader.specs.Kept.{KeepOthers};
ghost use Rattle.msg_reader.specs.Notes.{AreNotesOf, IsNoted, StayStamped};
ghost use Rattle.msg_runtime.specs.Calls.{AllAreOut, CachesAnswer, CountsRefusalUnless, HasKeeper, HasRoomForRows, HoldsRoomFor, KeepsAtLeastRoom, KeepsCaches, KeepsRoom, LacksRoomFor, LendsTurnIf, MarksAllReached, RestsAs, WantsRoom, WantsRoomIf};
ghost use Rattle.msg_runtime.specs.Changed.{IsAccepted, IsMadeAt, IsRefusedAt, IsUnmade};
ghost use Rattle.msg_runtime.specs.Parts.{IsKeeperOf, IsNew, keeper_history};
ghost use Rattle.msg_runtime.specs.Reach.{flushes_all};
ghost use Rattle.msg_runtime.specs.Spared.{ChillsAffected, ChillsAll, OnlyFlushesOf, SparesOthers};
ghost use Rattle.msg_runtime.specs.declared.runtime.TheConstants.{OPENING_ENTRIES};

use crate::caching::cache_found;
use crate::flushing_all::flush_changed;
use crate::unmade::Unmade;
use msg_cache::{Arena, Keeper, Report, Turn};
use msg_names::{ClassRef, ImpRef, Selector};
use msg_reader::laws::notes_are_of_longer_histories;
use msg_reader::{Notes, Reader};
use msg_tables::laws::tables_are_of_their_origin;
use msg_tables::{Change, ChangeFault, ChangeList, HasOrigin, Origin, Refused, Tables, Written};
use std::alloc::{AllocError, Global};
use std::marker::Model;
use std::mem::swap;
use std::slice::from_ref;
use std::snapshot::Snapshot;

/// The keeper of an arena's method caches, and class tables at its history.
///
/// One thread at a time uses it, while senders probe the arena concurrently. It has no lock of its
/// own and waits for nobody: a program with threads puts a lock around it. After it is opened only
/// changes take memory, for rows and for what is noted of them. Setting or removing a row, an
/// exchange and making a class take none.
#[derive(Drop)]
pub struct Runtime {
    pub(crate) keeper: Keeper,
    pub(crate) tables: Tables,
    written: Written,
    classes: u32,
    // for each sender number the number of changes when its sender last rested or was given out
    pub(crate) rested: Vec<u64>,
    // all sender numbers below it are given out
    full: u32,
    arena: Snapshot<Arena>,
}

/// A runtime is opened with room for what an exchange notes.
pub const OPENING_ENTRIES: usize = 2;

impl Model for Runtime {
    ghost use Rattle.msg_runtime.specs.View.{RuntimeView};

    ghost Value = { RuntimeView };

    ghost use Rattle.std.specs.Coded.{codes};

    ghost coded = { Prim.hlevel codes };

    ghost use Rattle.msg_runtime.specs.Inside.{view_of, AreTogether};

    ghost view = { view_of };

    ghost invariant = { AreTogether };
}

impl Runtime {
    /// Makes the runtime of an arena that was just opened, and opens its tables.
    pub fn open<C: HasOrigin>(
        alloc: Global,
        arena: &Arena,
        keeper: Keeper,
        given: &C,
    ) -> Result<Runtime, AllocError>
        requires keeper { IsKeeperOf arena.now keeper }
        requires origin { C.given given.now ≡ arena.now.key.origin }
        requires history { keeper_history keeper ≡ empty (C.given given.now) }
        ensures arena { IfOk result (λ r. r.arena ≡ arena.now) }
        ensures history { IfOk result (λ r. r.keeper.history ≡ empty (C.given given.now)) }
        ensures keeper { IfOk result (HasKeeper keeper) }
        ensures entries { IfOk result (λ r. OPENING_ENTRIES ≤ r.written.room) }
        ensures rested { IfOk result (λ r. r.rested ≡ replicate arena.now.key.senders 0) }
    {
        Runtime::of(alloc, arena, keeper, given.origin())
    }

    fn of(
        alloc: Global,
        arena: &Arena,
        keeper: Keeper,
        origin: &Origin,
    ) -> Result<Runtime, AllocError>
        requires keeper { IsKeeperOf arena.now keeper }
        requires origin { origin.now ≡ arena.now.key.origin }
        requires history { keeper_history keeper ≡ empty origin.now }
        ensures arena { IfOk result (λ r. r.arena ≡ arena.now) }
        ensures history { IfOk result (λ r. r.keeper.history ≡ empty origin.now) }
        ensures keeper { IfOk result (HasKeeper keeper) }
        ensures entries { IfOk result (λ r. OPENING_ENTRIES ≤ r.written.room) }
        ensures rested { IfOk result (λ r. r.rested ≡ replicate arena.now.key.senders 0) }
    {
        let tables = Tables::open(alloc, origin)?;
        let rested = vec![in alloc; 0; arena.senders() as usize]?;
        Ok(Runtime {
            keeper,
            tables,
            written: Written::with_room(alloc, OPENING_ENTRIES)?,
            classes: origin.class_count(),
            rested,
            full: 0,
            arena: Snapshot::of(arena),
        })
    }

    /// Answers a lookup that a reader missed from the tables, and caches the result. Its class
    /// reference is then open: what is noted of it counts until a change affects it. The reader has
    /// then seen the whole history.
    pub fn answer(
        &mut self,
        arena: &Arena,
        reader: &mut Reader,
        class: ClassRef,
        sel: Selector,
    ) -> ImpRef
        requires arena { arena.now ≡ self.old.arena }
        requires reader { IsSenderOf self.old.arena reader.old }
        requires class { class.class < classes self.old.arena }
        ensures arena { self.new.arena ≡ self.old.arena }
        ensures history { self.new.keeper.history ≡ self.old.keeper.history }
        ensures remembered { self.new.remembered ≡ self.old.remembered }
        ensures room { KeepsRoom self.old self.new }
        ensures rested { self.new.rested ≡ self.old.rested }
        ensures cached { CachesAnswer class sel result reader.old.sender self.old self.new }
        ensures reader { IsSenderOf self.old.arena reader.new }
        ensures number { reader.new.sender.number ≡ reader.old.sender.number }
        ensures begins { BeginsWith self.old.keeper.history reader.old.sender.front }
        ensures front { reader.new.sender.front ≡ self.old.keeper.history }
        ensures stamps { reader.new.sender.stamps ≡ reader.old.sender.stamps }
        ensures origin { self.old.keeper.history.origin ≡ self.old.arena.key.origin }
        ensures found { IsFoundAt self.old.keeper.history class sel result }
        ensures listed { imp_number result ≤ last_imp self.old.arena.key.origin.counts }
    {
        tables_are_of_their_origin();
        let imp = self.tables.lookup(class, sel);
        cache_found(&mut self.keeper, arena, class, sel, imp);
        self.keeper.open(arena, class);
        reader.renew(arena, &mut self.keeper);
        imp
    }

    /// Does the same, and notes the result.
    pub fn answer_noted(
        &mut self,
        arena: &Arena,
        reader: &mut Reader,
        notes: &mut Notes,
        class: ClassRef,
        sel: Selector,
    ) -> ImpRef
        requires arena { arena.now ≡ self.old.arena }
        requires reader { IsSenderOf self.old.arena reader.old }
        requires notes { AreNotesOf reader.old.sender.front notes.old }
        requires class { class.class < classes self.old.arena }
        ensures arena { self.new.arena ≡ self.old.arena }
        ensures history { self.new.keeper.history ≡ self.old.keeper.history }
        ensures remembered { self.new.remembered ≡ self.old.remembered }
        ensures room { KeepsRoom self.old self.new }
        ensures rested { self.new.rested ≡ self.old.rested }
        ensures cached { CachesAnswer class sel result reader.old.sender self.old self.new }
        ensures reader { IsSenderOf self.old.arena reader.new }
        ensures number { reader.new.sender.number ≡ reader.old.sender.number }
        ensures begins { BeginsWith self.old.keeper.history reader.old.sender.front }
        ensures front { reader.new.sender.front ≡ self.old.keeper.history }
        ensures stamps { reader.new.sender.stamps ≡ reader.old.sender.stamps }
        ensures origin { self.old.keeper.history.origin ≡ self.old.arena.key.origin }
        ensures found { IsFoundAt self.old.keeper.history class sel result }
        ensures listed { imp_number result ≤ last_imp self.old.arena.key.origin.counts }
        ensures notes { AreNotesOf self.old.keeper.history notes.new }
        ensures noted { IsNoted self.old.keeper.history notes.new class (selector_number sel) (imp_number result) }
        ensures others { KeepOthers notes.old notes.new class sel }
        ensures stamped { StayStamped (layout self.old.arena) notes.old notes.new }
    {
        notes_are_of_longer_histories();
        let imp = self.answer(arena, reader, class, sel);
        notes.keep(arena, self.count(), class, sel, imp);
        imp
    }

    /// Returns the implementation that a lookup finds, from the tables alone. It reads and fills no
    /// cache.
    pub fn lookup(&self, class: ClassRef, sel: Selector) -> ImpRef
        requires class { class.class < classes self.now.arena }
        ensures found { IsFoundAt self.now.keeper.history class sel result }
        ensures listed { imp_number result ≤ last_imp self.now.arena.key.origin.counts }
    {
        tables_are_of_their_origin();
        self.tables.lookup(class, sel)
    }

    /// Returns the class reference that has that method.
    pub fn holder(&self, class: ClassRef, sel: Selector) -> Option<ClassRef>
        requires class { class.class < classes self.now.arena }
        ensures { result ≡ holder self.now.keeper.history class (selector_number sel) }
    {
        tables_are_of_their_origin();
        self.tables.holder(class, sel)
    }

    /// The superclass of a class reference.
    pub fn superclass(&self, class: ClassRef) -> Option<ClassRef>
        requires class { class.class < classes self.now.arena }
        ensures { result ≡ superclass self.now.keeper.history class }
    {
        tables_are_of_their_origin();
        self.tables.superclass(class)
    }

    /// Marks the class references whose lookups a list of changes may alter if it is made as one,
    /// in addition to those that are marked, each at its slot. It doesn't make the list. If a
    /// change would be refused, it returns which, and marks what the changes before it may alter.
    /// If memory is lacking, the marks say nothing.
    ///
    /// It touches no cache. It costs the walk over the classes that it marks, and what it costs the
    /// tables to make the list and to take it back. The turn's history is the runtime's.
    pub fn reach_all<L: ChangeList>(
        &mut self,
        arena: &Arena,
        turn: &mut Turn,
        changes: &L,
        marked: &mut [bool],
    ) -> Result<(), Refused>
        requires arena { arena.now ≡ self.old.arena }
        requires turn { turn.old.table ≡ self.old.arena.table }
        requires marks { length marked.old ≡ 2 * classes self.old.arena }
        ensures turn { turn.new.table ≡ self.old.arena.table }
        ensures was { turn.old.history ≡ self.old.keeper.history }
        ensures is { turn.new.history ≡ self.old.keeper.history }
        ensures same { self.new ≡ record self.old
            { keeper = lent self.old.keeper; rooms = self.new.rooms; written = self.new.written } }
        ensures room { KeepsAtLeastRoom self.old self.new }
        ensures forgotten { self.new.written.entries ≡ [] }
        ensures wanting { IfErr result (WantsRoom self.old (L.changes changes.now)) }
        ensures ok { OnOk result (refused_from 0 (log self.old.keeper.history) (L.changes changes.now) ≡ None) }
        ensures marks { OnOk result (MarksAllReached self.old (L.changes changes.now) marked.old marked.new) }
        ensures refused { IfErr result (AreRefused (L.changes changes.now) self.old.keeper.history) }
        ensures before { IfErr result (λ r. r.fault ≢ ChangeFault.Memory
            → MarksAllReached self.old (take r.place (L.changes changes.now)) marked.old marked.new) }
        ensures length { length marked.new ≡ length marked.old }
    {
        tables_are_of_their_origin();
        self.keeper.face(arena, turn);
        self.tables.reach_all(changes, &mut self.written, marked)
    }

    /// Makes a change, closes the class references that it affects and flushes their caches.
    /// Returns how many times changes were made. It is a list of one: see
    /// [`change_all`](Runtime::change_all).
    #[tactic(auto, using(crate::proofs::OneLemmas::made_alone, crate::proofs::OneLemmas::refused_alone, crate::proofs::OneLemmas::wanting_alone, crate::proofs::OneLemmas::no_row_alone))]
    pub fn change(
        &mut self,
        arena: &Arena,
        turn: &mut Turn,
        change: &Change,
    ) -> Result<u64, ChangeFault>
        requires arena { arena.now ≡ self.old.arena }
        requires turn { turn.old.table ≡ self.old.arena.table }
        ensures arena { self.new.arena ≡ self.old.arena }
        ensures turn { turn.new.table ≡ self.old.arena.table }
        ensures was { turn.old.history ≡ self.old.keeper.history }
        ensures is { turn.new.history ≡ self.new.keeper.history }
        ensures ok { IfOk result (IsMadeAt self.old.keeper.history change.now self.new.keeper.history) }
        ensures back { OnOk result (TellsWayBack (change.now ∷ []) self.old.keeper.history self.new.written.entries) }
        ensures held { OnOk result (HoldsRoomFor self.old self.new (change.now ∷ [])) }
        ensures cold { OnOk result (ChillsAffected (change.now ∷ []) self.old self.new) }
        ensures emptied { OnOk result (ChillsAll (change.now ∷ []) self.old self.new) }
        ensures spared { OnOk result (flushes_all self.old.keeper.history.origin.counts (change.now ∷ []) ≡ false
            → SparesOthers (change.now ∷ []) self.old self.new) }
        ensures flushes { OnOk result (OnlyFlushesOf self.old self.new) }
        ensures room { KeepsAtLeastRoom self.old self.new }
        ensures wanting { IsErrOf result ChangeFault.Memory → LacksRoomFor self.old (change.now ∷ []) }
        ensures no_row { IsErrOf result ChangeFault.Memory
            → adds_no_row change.now ≡ true → self.old.written.room < OPENING_ENTRIES }
        ensures err { OnErr result (self.new.keeper.history ≡ self.old.keeper.history) }
        ensures forgotten { OnErr result (self.new.written.entries ≡ []) }
        ensures caches { OnErr result (KeepsCaches self.old self.new) }
        ensures report { OnErr result (self.new.report ≡ self.old.report) }
        ensures given { self.new.keeper.given ≡ self.old.keeper.given }
        ensures rested { self.new.rested ≡ self.old.rested }
        ensures away { self.new.keeper.turn ≡ Away }
        ensures fault { IfErr result (IsRefusedAt self.old.keeper.history change.now) }
        ensures memory { IsErrOf result ChangeFault.Memory → IsAccepted self.old.keeper.history change.now }
    {
        match self.change_all(arena, turn, &from_ref(change)) {
            Ok(count) => Ok(count),
            Err(refused) => Err(refused.fault),
        }
    }

    /// Makes a list of changes as one, closes the class references that it affects and flushes
    /// their caches. Returns how many times changes were made, including this one. If a change
    /// would be refused, it returns which. After an error nothing was changed or flushed. An empty
    /// list changes nothing and isn't counted.
    ///
    /// What the list wrote is noted. Directly afterwards [`written`](Runtime::written) gives the
    /// way back. Making that needs no memory: there is room for as many entries, and for the
    /// methods that each class had. The turn's history is the runtime's, before and after. The call
    /// costs what its changes cost, but stores only one count.
    pub fn change_all<L: ChangeList>(
        &mut self,
        arena: &Arena,
        turn: &mut Turn,
        changes: &L,
    ) -> Result<u64, Refused>
        requires arena { arena.now ≡ self.old.arena }
        requires turn { turn.old.table ≡ self.old.arena.table }
        ensures arena { self.new.arena ≡ self.old.arena }
        ensures turn { turn.new.table ≡ self.old.arena.table }
        ensures was { turn.old.history ≡ self.old.keeper.history }
        ensures is { turn.new.history ≡ self.new.keeper.history }
        ensures ok { OnOk result (AreMade (L.changes changes.now) self.old.keeper.history self.new.keeper.history) }
        ensures count { IfOk result (λ count. count ≡ length self.new.keeper.history.changes) }
        ensures back { OnOk result
            (TellsWayBack (L.changes changes.now) self.old.keeper.history self.new.written.entries) }
        ensures held { OnOk result (HoldsRoomFor self.old self.new (L.changes changes.now)) }
        ensures cold { OnOk result (ChillsAffected (L.changes changes.now) self.old self.new) }
        ensures emptied { OnOk result (ChillsAll (L.changes changes.now) self.old self.new) }
        ensures spared { OnOk result (flushes_all self.old.keeper.history.origin.counts (L.changes changes.now) ≡ false
            → SparesOthers (L.changes changes.now) self.old self.new) }
        ensures flushes { OnOk result (OnlyFlushesOf self.old self.new) }
        ensures room { KeepsAtLeastRoom self.old self.new }
        ensures rows { HasRoomForRows self.old }
        ensures wanting { IfErr result (WantsRoom self.old (L.changes changes.now)) }
        ensures err { OnErr result (self.new.keeper.history ≡ self.old.keeper.history) }
        ensures forgotten { OnErr result (self.new.written.entries ≡ []) }
        ensures caches { OnErr result (KeepsCaches self.old self.new) }
        ensures report { OnErr result (self.new.report ≡ self.old.report) }
        ensures given { self.new.keeper.given ≡ self.old.keeper.given }
        ensures rested { self.new.rested ≡ self.old.rested }
        ensures away { self.new.keeper.turn ≡ Away }
        ensures refused { IfErr result (AreRefused (L.changes changes.now) self.old.keeper.history) }
    {
        match self.change_all_within(arena, turn, changes, usize::MAX) {
            Ok(count) => Ok(count),
            Err(Unmade::Refused(refused)) => Err(refused),
            Err(Unmade::TooLong(_count)) => unreachable!(),
        }
    }

    /// Does the same if the list's way back has at most this number of changes. Otherwise it makes
    /// nothing, and returns the number that it has.
    pub fn change_all_within<L: ChangeList>(
        &mut self,
        arena: &Arena,
        turn: &mut Turn,
        changes: &L,
        most: usize,
    ) -> Result<u64, Unmade>
        requires arena { arena.now ≡ self.old.arena }
        requires turn { turn.old.table ≡ self.old.arena.table }
        ensures arena { self.new.arena ≡ self.old.arena }
        ensures turn { turn.new.table ≡ self.old.arena.table }
        ensures was { turn.old.history ≡ self.old.keeper.history }
        ensures is { turn.new.history ≡ self.new.keeper.history }
        ensures ok { OnOk result (AreMade (L.changes changes.now) self.old.keeper.history self.new.keeper.history) }
        ensures count { IfOk result (λ count. count ≡ length self.new.keeper.history.changes) }
        ensures back { OnOk result
            (TellsWayBack (L.changes changes.now) self.old.keeper.history self.new.written.entries) }
        ensures fits { OnOk result (length self.new.written.entries ≤ most) }
        ensures held { OnOk result (HoldsRoomFor self.old self.new (L.changes changes.now)) }
        ensures cold { OnOk result (ChillsAffected (L.changes changes.now) self.old self.new) }
        ensures emptied { OnOk result (ChillsAll (L.changes changes.now) self.old self.new) }
        ensures spared { OnOk result (flushes_all self.old.keeper.history.origin.counts (L.changes changes.now) ≡ false
            → SparesOthers (L.changes changes.now) self.old self.new) }
        ensures flushes { OnOk result (OnlyFlushesOf self.old self.new) }
        ensures room { KeepsAtLeastRoom self.old self.new }
        ensures rows { HasRoomForRows self.old }
        ensures wanting { IfErr result (WantsRoomIf self.old (L.changes changes.now)) }
        ensures err { OnErr result (self.new.keeper.history ≡ self.old.keeper.history) }
        ensures forgotten { OnErr result (self.new.written.entries ≡ []) }
        ensures caches { OnErr result (KeepsCaches self.old self.new) }
        ensures report { OnErr result (self.new.report ≡ self.old.report) }
        ensures given { self.new.keeper.given ≡ self.old.keeper.given }
        ensures rested { self.new.rested ≡ self.old.rested }
        ensures away { self.new.keeper.turn ≡ Away }
        ensures unmade { IfErr result (IsUnmade (L.changes changes.now) self.old.keeper.history most) }
    {
        tables_are_of_their_origin();
        let start = self.tables.start();
        if let Err(refused) = self.tables.apply_all(changes, &mut self.written) {
            self.keeper.face(arena, turn);
            return Err(Unmade::Refused(refused));
        }
        let count = self.written.as_slice().len();
        if most < count {
            self.keeper.face(arena, turn);
            self.tables.retract(start, &mut self.written);
            return Err(Unmade::TooLong(count));
        }
        if changes.len() == 0 {
            self.keeper.face(arena, turn);
            return Ok(self.keeper.count());
        }
        flush_changed(
            &mut self.keeper,
            arena,
            &self.tables,
            self.classes,
            changes,
            self.written.as_slice(),
        );
        Ok(self.keeper.commit_all(arena, turn, changes))
    }

    /// Returns a reader with a sender number that isn't given out, if there is one. It has seen the
    /// whole history.
    ///
    /// It looks at the numbers from the least one on that may be free.
    pub fn sender(&mut self, arena: &Arena) -> Option<Reader>
        requires arena { arena.now ≡ self.old.arena }
        ensures arena { self.new.arena ≡ self.old.arena }
        ensures remembered { self.new.remembered ≡ self.old.remembered }
        ensures room { KeepsRoom self.old self.new }
        ensures report { CountsRefusalUnless (is_some result) self.old self.new }
        ensures reader { IfSome result (λ r. IsSenderOf self.old.arena r) }
        ensures some { IfSome result (λ r. IsNew r.sender self.old.keeper self.new.keeper) }
        ensures front { IfSome result (λ r. r.sender.front ≡ self.old.keeper.history) }
        ensures rested { IfSome result (λ r. RestsAs r.sender self.old self.new) }
        ensures unrested { IsNone result → self.new.rested ≡ self.old.rested }
        ensures none { IsNone result → AllAreOut self.old × (self.new.keeper ≡ self.old.keeper) }
        ensures origin { self.old.keeper.history.origin ≡ self.old.arena.key.origin }
    {
        for number in self.full..arena.senders() {
            if let Some(prober) = self.keeper.give_out(arena, number) {
                self.full = number + 1;
                self.rested[number as usize] = self.keeper.count();
                return Some(Reader::new(prober));
            }
        }
        self.full = arena.senders();
        self.keeper.refuse(arena);
        None
    }

    /// Takes a reader's number back.
    pub fn finish(&mut self, arena: &Arena, reader: Reader)
        requires arena { arena.now ≡ self.old.arena }
        requires reader { IsSenderOf self.old.arena reader }
        ensures arena { self.new.arena ≡ self.old.arena }
        ensures remembered { self.new.remembered ≡ self.old.remembered }
        ensures room { KeepsRoom self.old self.new }
        ensures rested { self.new.rested ≡ self.old.rested }
        ensures report { self.new.report ≡ self.old.report }
        ensures keeper { self.new.keeper ≡ taken_in reader.sender self.old.keeper }
        ensures begins { BeginsWith self.old.keeper.history reader.sender.front }
    {
        if reader.number() < self.full {
            self.full = reader.number();
        }
        self.keeper.take_in(arena, reader.into_prober());
    }

    /// Returns the right to make changes the first time, and nothing later. No change was made
    /// before.
    pub fn turn(&mut self, arena: &Arena) -> Option<Turn>
        requires arena { arena.now ≡ self.old.arena }
        ensures arena { self.new.arena ≡ self.old.arena }
        ensures remembered { self.new.remembered ≡ self.old.remembered }
        ensures room { KeepsRoom self.old self.new }
        ensures rested { self.new.rested ≡ self.old.rested }
        ensures report { self.new.report ≡ self.old.report }
        ensures keeper { LendsTurnIf (is_some result) self.old self.new }
        ensures once { is_some result ≡ not (is_lent self.old.keeper.turn) }
        ensures turn { IfSome result (λ t. t.table ≡ self.old.arena.table) }
        ensures empty { IfSome result (λ t. t.history ≡ empty self.old.arena.key.origin) }
        ensures history { IfSome result (λ t. t.history ≡ self.old.keeper.history) }
    {
        self.keeper.turn(arena)
    }

    /// Brings a reader up to date: it has then seen the turn's whole history, which begins with
    /// what it had seen.
    pub fn meet(&mut self, arena: &Arena, turn: &mut Turn, reader: &mut Reader)
        requires arena { arena.now ≡ self.old.arena }
        requires turn { turn.old.table ≡ self.old.arena.table }
        requires reader { IsSenderOf self.old.arena reader.old }
        ensures arena { self.new.arena ≡ self.old.arena }
        ensures remembered { self.new.remembered ≡ self.old.remembered }
        ensures room { KeepsRoom self.old self.new }
        ensures rested { self.new.rested ≡ self.old.rested }
        ensures report { self.new.report ≡ self.old.report }
        ensures keeper { self.new.keeper ≡ given_again reader.old.sender (lent self.old.keeper) }
        ensures turn { turn.new.table ≡ self.old.arena.table }
        ensures reader { IsSenderOf self.old.arena reader.new }
        ensures number { reader.new.sender.number ≡ reader.old.sender.number }
        ensures was { turn.old.history ≡ self.old.keeper.history }
        ensures is { turn.new.history ≡ self.old.keeper.history }
        ensures begins { BeginsWith self.old.keeper.history reader.old.sender.front }
        ensures front { reader.new.sender.front ≡ self.old.keeper.history }
        ensures stamps { reader.new.sender.stamps ≡ reader.old.sender.stamps }
    {
        self.keeper.face(arena, turn);
        reader.renew(arena, &mut self.keeper);
    }

    /// What the list that was made last wrote.
    pub fn written(&self) -> &Written
        ensures { result.now ≡ self.now.written }
    {
        &self.written
    }

    /// Exchanges what was written last, with its room, for another record. The next list is noted
    /// there.
    pub fn swap_written(&mut self, written: &mut Written)
        ensures same { self.new ≡ record self.old { written = written.old } }
        ensures given { written.new ≡ self.old.written }
    {
        swap(&mut self.written, written);
    }

    /// The number of times that changes were made. Each change was accepted.
    #[inline]
    pub fn count(&self) -> u64
        ensures count { result ≡ length self.now.keeper.history.changes }
        ensures accepted { IsLog (log self.now.keeper.history) }
    {
        self.keeper.count()
    }

    /// The counts of what was done to caches so far.
    pub fn report(&self) -> Report
        ensures value { result ≡ self.now.report }
        ensures counts { AreCounts result }
    {
        self.keeper.report()
    }
}
