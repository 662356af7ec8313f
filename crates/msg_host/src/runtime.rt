//! The runtime.

ghost use Rattle.std.specs.Prelude.{◌≡◌, ◌≢◌, ◌<◌, ◌≤◌, ◌*◌, [], ◌∷◌, length, take, None, IfOk, IfErr, IsErrOf, OnErr, OnOk, false, true};
ghost use Rattle.msg_names.specs.Number.{selector_number, imp_number};
ghost use Rattle.msg_tables.specs.Origin.{last_imp};
ghost use Rattle.msg_tables.specs.History.{BeginsWith, lookup, log};
ghost use Rattle.msg_tables.specs.Made.{AreMade, AreRefused, TellsWayBack};
ghost use Rattle.msg_tables.specs.Refusal.{IsLog};
ghost use Rattle.msg_tables.specs.RoomLaws.{adds_no_row};
ghost use Rattle.msg_tables.specs.Several.{refused_from};
ghost use Rattle.msg_tables.specs.declared.fault.ChangeFault.{ChangeFault};
ghost use Rattle.msg_cache.specs.Counts.{AreCounts, after_refusal};
ghost use Rattle.msg_cache.specs.Plays.{given_again, taken_in};
ghost use Rattle.msg_address.specs.Address.{IsNotNull};
ghost use Rattle.msg_cache.specs.Views.{classes, layout};
ghost use Rattle.msg_reader.specs.Kept.{KeepOthers};
ghost use Rattle.msg_reader.specs.Notes.{AreNotesOf, HaveNotedFor, StayStamped};
ghost use Rattle.msg_reader.specs.Several.{AreAsked, AreFoundAt, AreNotedOrAt, KeepOthersOfAll};
ghost use Rattle.msg_runtime.specs.Changed.{IsAccepted, IsMadeAt, IsRefusedAt, IsUnmade};
ghost use Rattle.msg_runtime.specs.Calls.{AllAreOut, CachesAnswer, HoldsRoomFor, KeepsAtLeastRoom, KeepsRoom, LacksRoomFor, MarksAllReached, RestsAs, WantsRoom, WantsRoomIf};
ghost use Rattle.msg_host.specs.Asking.{IsLeft};
ghost use Rattle.msg_runtime.specs.Parts.{IsNew};
ghost use Rattle.msg_runtime.specs.Spared.{ChillsAffected, OnlyFlushesOf, SparesOthers};
ghost use Rattle.msg_runtime.specs.declared.runtime.TheConstants.{OPENING_ENTRIES};
ghost use Rattle.msg_host.specs.Config.{IsHostOrigin, is_beyond};
ghost use Rattle.msg_host.specs.Opening.{OpensAs};
ghost use Rattle.msg_host.specs.declared.fault.OpenFault.{OpenFault};
ghost use Rattle.msg_host.specs.declared.fault.SenderFault.{SenderFault};

use crate::config::HostConfig;
use crate::fault::{OpenFault, SenderFault};
use crate::opening::opened;
use crate::sender::HostedSender;
use msg_cache::laws::{a_fill_changes_caches_alone, an_opening_changes_a_stamp_alone};
use msg_cache::{Arena, Report, Turn};
use msg_names::{ClassRef, ImpRef, Selector};
use msg_reader::laws::a_slot_of_few_classes_is_short;
use msg_reader::{LookupList, Notes};
use msg_runtime::{Runtime, Unmade};
use msg_tables::{Change, ChangeFault, ChangeList, Refused, Written};
use std::alloc::Global;
use std::marker::Model;
use std::sync::Arc;

/// The data behind a host's runtime lock: a runtime, the right to change it, and the arena that its
/// senders share.
///
/// One thread at a time uses it. The host decides which, by its lock.
#[derive(Drop)]
pub struct HostedRuntime {
    pub(crate) arena: Arc<Arena, Global>,
    pub(crate) runtime: Runtime,
    pub(crate) turn: Turn,
    // the number of class numbers that are reserved
    classes: u32,
}

impl Model for HostedRuntime {
    ghost use Rattle.msg_runtime.specs.View.{RuntimeView};

    ghost Value = { RuntimeView };

    ghost use Rattle.std.specs.Coded.{codes};
    ghost use Rattle.atomic_table.specs.Seated.{table_id_coded};

    ghost coded = { Prim.hlevel (codes, table_id_coded) };

    ghost use Rattle.msg_host.specs.Inside.{runtime_view, AreOfOne};

    ghost view = { runtime_view };

    ghost invariant = { AreOfOne };
}

impl HostedRuntime {
    /// Opens a runtime without classes, with no change made.
    ///
    /// `BadConfig` is returned before memory is allocated. `Memory` may be returned if an
    /// allocation is refused.
    pub fn open(alloc: Global, config: HostConfig) -> Result<HostedRuntime, OpenFault>
        ensures ok { IfOk result (λ r. (is_beyond config ≡ false) × OpensAs config r) }
        ensures refused { IsErrOf result OpenFault.BadConfig → is_beyond config ≡ true }
        ensures memory { IsErrOf result OpenFault.Memory → is_beyond config ≡ false }
    {
        let Some(arena) = config.arena() else {
            return Err(OpenFault::BadConfig);
        };
        let origin = config.origin(alloc);
        let (arena, runtime, turn) = opened(alloc, &origin, arena)?;
        Ok(HostedRuntime {
            arena,
            runtime,
            turn,
            classes: origin.class_count(),
        })
    }

    /// The number of class numbers that are reserved.
    pub fn class_count(&self) -> u32
        ensures count { result ≡ classes self.now.arena }
        ensures origin { self.now.keeper.history.origin ≡ self.now.arena.key.origin }
    {
        self.classes
    }

    /// Marks the class references whose lookups a list of changes may alter if it is made as one,
    /// in addition to those that are marked, each at its slot. It doesn't make the list. If a
    /// change would be refused, it returns which, and marks what the changes before it may alter.
    /// If memory is lacking, the marks say nothing.
    pub fn reach_all<L: ChangeList>(
        &mut self,
        changes: &L,
        marked: &mut [bool],
    ) -> Result<(), Refused>
        requires { length marked.old ≡ 2 * classes self.old.arena }
        ensures same { IsLeft self.old self.new }
        ensures ok { OnOk result (refused_from 0 (log self.old.keeper.history) (L.changes changes.now) ≡ None) }
        ensures marks { OnOk result (MarksAllReached self.old (L.changes changes.now) marked.old marked.new) }
        ensures refused { IfErr result (AreRefused (L.changes changes.now) self.old.keeper.history) }
        ensures wanting { IfErr result (WantsRoom self.old (L.changes changes.now)) }
        ensures before { IfErr result (λ r. r.fault ≢ ChangeFault.Memory
            → MarksAllReached self.old (take r.place (L.changes changes.now)) marked.old marked.new) }
        ensures length { length marked.new ≡ length marked.old }
    {
        self.runtime
            .reach_all(&self.arena, &mut self.turn, changes, marked)
    }

    /// Makes a change, flushes the caches that it affects, and returns how many times changes were
    /// made. After an error nothing was changed or flushed.
    pub fn change(&mut self, change: &Change) -> Result<u64, ChangeFault>
        ensures arena { self.new.arena ≡ self.old.arena }
        ensures ok { IfOk result (IsMadeAt self.old.keeper.history change.now self.new.keeper.history) }
        ensures held { OnOk result (HoldsRoomFor self.old self.new (change.now ∷ [])) }
        ensures cold { OnOk result (ChillsAffected (change.now ∷ []) self.old self.new) }
        ensures spared { OnOk result (SparesOthers (change.now ∷ []) self.old self.new) }
        ensures flushes { OnOk result (OnlyFlushesOf self.old self.new) }
        ensures room { KeepsAtLeastRoom self.old self.new }
        ensures given { self.new.keeper.given ≡ self.old.keeper.given }
        ensures rested { self.new.rested ≡ self.old.rested }
        ensures err { OnErr result (IsLeft self.old self.new) }
        ensures fault { IfErr result (IsRefusedAt self.old.keeper.history change.now) }
        ensures memory { IsErrOf result ChangeFault.Memory → IsAccepted self.old.keeper.history change.now }
        ensures wanting { IsErrOf result ChangeFault.Memory → LacksRoomFor self.old (change.now ∷ []) }
        ensures no_row { IsErrOf result ChangeFault.Memory
            → adds_no_row change.now ≡ true → self.old.written.room < OPENING_ENTRIES }
    {
        self.runtime.change(&self.arena, &mut self.turn, change)
    }

    /// Makes a list of changes as one, flushes the caches that it affects, and returns how many
    /// times changes were made. The error says which change would be refused, or that the way back
    /// has more changes than it may have. After an error nothing was changed or flushed. An empty
    /// list changes nothing and isn't counted.
    ///
    /// What the list wrote is noted. Directly afterwards [`written`](HostedRuntime::written) gives
    /// the way back, and there is room for making that.
    #[inline(always)]
    pub fn change_all<L: ChangeList>(&mut self, changes: &L, most: usize) -> Result<u64, Unmade>
        ensures arena { self.new.arena ≡ self.old.arena }
        ensures ok { OnOk result (AreMade (L.changes changes.now) self.old.keeper.history self.new.keeper.history) }
        ensures count { IfOk result (λ count. count ≡ length self.new.keeper.history.changes) }
        ensures back { OnOk result
            (TellsWayBack (L.changes changes.now) self.old.keeper.history self.new.written.entries) }
        ensures fits { OnOk result (length self.new.written.entries ≤ most) }
        ensures held { OnOk result (HoldsRoomFor self.old self.new (L.changes changes.now)) }
        ensures cold { OnOk result (ChillsAffected (L.changes changes.now) self.old self.new) }
        ensures spared { OnOk result (SparesOthers (L.changes changes.now) self.old self.new) }
        ensures flushes { OnOk result (OnlyFlushesOf self.old self.new) }
        ensures room { KeepsAtLeastRoom self.old self.new }
        ensures given { self.new.keeper.given ≡ self.old.keeper.given }
        ensures rested { self.new.rested ≡ self.old.rested }
        ensures err { OnErr result (IsLeft self.old self.new) }
        ensures unmade { IfErr result (IsUnmade (L.changes changes.now) self.old.keeper.history most) }
        ensures wanting { IfErr result (WantsRoomIf self.old (L.changes changes.now)) }
    {
        self.runtime
            .change_all_within(&self.arena, &mut self.turn, changes, most)
    }

    /// What the list that was made last wrote.
    pub fn written(&self) -> &Written
        ensures { result.now ≡ self.now.written }
    {
        self.runtime.written()
    }

    /// The number of times that changes were made: a list of changes counts as one. Each was
    /// accepted.
    pub fn count(&self) -> u64
        ensures count { result ≡ length self.now.keeper.history.changes }
        ensures accepted { IsLog (log self.now.keeper.history) }
        ensures hosts { IsHostOrigin self.now.keeper.history.origin }
    {
        self.runtime.count()
    }

    /// The counts of what was done to caches so far.
    pub fn report(&self) -> Report
        ensures value { result ≡ self.now.report }
        ensures counts { AreCounts result }
    {
        self.runtime.report()
    }

    /// The address of the first of the words that all threads share. The words stay in place as
    /// long as the runtime or a sender of it exists.
    pub fn words(&self) -> *const u64
        ensures { IsNotNull result }
    {
        self.arena.words()
    }

    /// Returns a sender, which has seen the whole history. If as many senders are out as the
    /// runtime has room for, it returns none, and only then the error is `NoneFree`.
    pub fn sender(&mut self) -> Result<HostedSender, SenderFault>
        ensures kept { self.new ≡ record self.old
            { keeper = self.new.keeper; rested = self.new.rested; report = self.new.report } }
        ensures history { self.new.keeper.history ≡ self.old.keeper.history }
        ensures arena { IfOk result (λ s. s.arena ≡ self.old.arena) }
        ensures front { IfOk result (λ s. s.seen.front ≡ self.old.keeper.history) }
        ensures given { IfOk result (λ s. IsNew s.seen self.old.keeper self.new.keeper) }
        ensures rested { IfOk result (λ s. RestsAs s.seen self.old self.new) }
        ensures unrested { OnErr result (self.new.rested ≡ self.old.rested) }
        ensures report { OnOk result (self.new.report ≡ self.old.report) }
        ensures left { OnErr result (self.new.keeper ≡ self.old.keeper) }
        ensures none { IsErrOf result SenderFault.NoneFree
            → AllAreOut self.old × (self.new.report ≡ after_refusal self.old.report) }
        ensures memory { IsErrOf result SenderFault.Memory → self.new ≡ self.old }
    {
        let arena = Arc::try_clone(&self.arena)?;
        let Some(reader) = self.runtime.sender(&self.arena) else {
            return Err(SenderFault::NoneFree);
        };
        Ok(HostedSender {
            arena,
            reader,
            classes: self.classes,
        })
    }

    // Answers what a sender missed, caches it, and notes it. The sender has then seen the whole
    // history.
    pub(crate) fn answer(
        &mut self,
        sender: &mut HostedSender,
        notes: &mut Notes,
        class: ClassRef,
        sel: Selector,
    ) -> ImpRef
        requires sender { sender.old.arena ≡ self.old.arena }
        requires notes { AreNotesOf sender.old.seen.front notes.old }
        requires class { class.class < classes self.old.arena }
        ensures same { self.new.arena ≡ self.old.arena }
        ensures history { self.new.keeper.history ≡ self.old.keeper.history }
        ensures remembered { self.new.remembered ≡ self.old.remembered }
        ensures room { KeepsRoom self.old self.new }
        ensures cached { CachesAnswer class sel result sender.old.seen self.old self.new }
        ensures rested { self.new.rested ≡ self.old.rested }
        ensures arena { sender.new.arena ≡ sender.old.arena }
        ensures begins { BeginsWith self.old.keeper.history sender.old.seen.front }
        ensures front { sender.new.seen.front ≡ self.old.keeper.history }
        ensures found { imp_number result ≡ lookup self.old.keeper.history class (selector_number sel) }
        ensures listed { imp_number result ≤ last_imp self.old.keeper.history.origin.counts }
        ensures notes { AreNotesOf self.old.keeper.history notes.new }
        ensures noted { HaveNotedFor notes.new self.old.keeper.history class sel result }
        ensures others { KeepOthers notes.old notes.new class sel }
        ensures stamped { StayStamped (layout self.old.arena) notes.old notes.new }
    {
        a_slot_of_few_classes_is_short();
        a_fill_changes_caches_alone();
        an_opening_changes_a_stamp_alone();
        self.runtime
            .answer_noted(&self.arena, &mut sender.reader, notes, class, sel)
    }

    // Answers several lookups, all at the whole history, which the sender has then seen.
    pub(crate) fn answer_all<L: LookupList>(
        &mut self,
        sender: &mut HostedSender,
        notes: &mut Notes,
        lookups: &L,
        imps: &mut [u32],
    )
        requires sender { sender.old.arena ≡ self.old.arena }
        requires notes { AreNotesOf sender.old.seen.front notes.old }
        requires asked { AreAsked self.old.arena (L.lookups lookups.now) }
        requires places { length imps.old ≡ length (L.lookups lookups.now) }
        ensures same { self.new.arena ≡ self.old.arena }
        ensures history { self.new.keeper.history ≡ self.old.keeper.history }
        ensures remembered { self.new.remembered ≡ self.old.remembered }
        ensures room { KeepsRoom self.old self.new }
        ensures rested { self.new.rested ≡ self.old.rested }
        ensures arena { sender.new.arena ≡ sender.old.arena }
        ensures begins { BeginsWith self.old.keeper.history sender.old.seen.front }
        ensures front { sender.new.seen.front ≡ self.old.keeper.history }
        ensures found { AreFoundAt self.old.keeper.history (L.lookups lookups.now) imps.new }
        ensures notes { AreNotesOf self.old.keeper.history notes.new }
        ensures noted { AreNotedOrAt self.old.keeper.history notes.new
            sender.old.seen sender.new.seen (L.lookups lookups.now) imps.new }
        ensures others { KeepOthersOfAll notes.old notes.new (L.lookups lookups.now) }
        ensures stamped { StayStamped (layout self.old.arena) notes.old notes.new }
    {
        let reader = &mut sender.reader;
        self.runtime
            .answer_all(&self.arena, &mut self.turn, reader, notes, lookups, imps);
    }

    /// Brings a sender up to date: it has then seen the whole history, which begins with what it
    /// had seen.
    pub fn meet(&mut self, sender: &mut HostedSender)
        requires sender { sender.old.arena ≡ self.old.arena }
        ensures met { self.new ≡ record self.old { keeper = given_again sender.old.seen self.old.keeper } }
        ensures arena { sender.new.arena ≡ sender.old.arena }
        ensures number { sender.new.seen.number ≡ sender.old.seen.number }
        ensures begins { BeginsWith self.old.keeper.history sender.old.seen.front }
        ensures front { sender.new.seen.front ≡ self.old.keeper.history }
    {
        self.runtime
            .meet(&self.arena, &mut self.turn, &mut sender.reader);
    }

    /// Takes a sender back: its number is then no longer out. The number of a sender that is
    /// dropped instead stays in use.
    pub fn finish(&mut self, sender: HostedSender)
        requires sender { sender.arena ≡ self.old.arena }
        ensures { self.new ≡ record self.old { keeper = taken_in sender.seen self.old.keeper } }
    {
        let HostedSender { reader, .. } = sender;
        self.runtime.finish(&self.arena, reader);
    }
}
