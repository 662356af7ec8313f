//! The keeper, who changes the caches, one at a time.

ghost use Rattle.std.specs.Prelude.{◌≡◌, ◌↔◌, ℕ, suc, ◌*◌, ◌^◌, ◌<◌, ◌≤◌, [], ◌∷◌, None, length, true, false, not, IfOk, replicate, IfSome, IsNone, is_some};
ghost use Rattle.msg_names.specs.Number.{selector_number};
ghost use Rattle.msg_buckets.specs.Capacity.{IsCapacity};
ghost use Rattle.msg_tables.specs.History.{empty, log, BeginsWith};
ghost use Rattle.msg_tables.specs.Refusal.{refusal};
ghost use Rattle.msg_tables.specs.Several.{refusal_of_all};
ghost use Rattle.msg_model.specs.State.{size, awaits};
ghost use Rattle.msg_model.specs.declared.state.Standing.TheVariants.{Free, Live};
ghost use Rattle.msg_cache.specs.declared.view.TurnAt.TheVariants.{Never};
ghost use Rattle.msg_cache.specs.Counts.{AreCounts, CountsGrowth, CountsInstall, after_collection, after_entry, after_flush, after_refusal};
ghost use Rattle.msg_cache.specs.Keeping.{header as header_of, standing_of, EndsAt, IsFreeArray, OnUse, OnTake, TakesOneMore, lowest_free, Collects};
ghost use Rattle.msg_cache.specs.Layout.{stamp_at};
ghost use Rattle.msg_model.specs.Stamps.{last_affected};
ghost use Rattle.msg_cache.specs.Plays.{kept, keeper_of, stored, flushed, installed, committed, lent, is_lent, given_out, given_again, taken_in, renewed};
ghost use Rattle.msg_cache.specs.Seats.{IsKeeper, keeper_at};
ghost use Rattle.msg_cache.specs.Uses.{all_free, settled};
ghost use Rattle.msg_cache.specs.Views.{layout, classes, IsFoundAt, IsNewcomer, IsSenderOf, IsTurnAt};

use crate::answer::{Filled, Placement, Report};
use crate::arena::Arena;
use crate::collecting::{Outs, collect_into};
use crate::filling::{count_want, placement_in_array, retire_in};
use crate::prober::Prober;
use crate::standings::Standings;
use crate::steps::{
    Seat, header_at, join_sender, join_turn, split_sender, split_turn, store_array, store_count,
    store_entry, store_none, store_stamp, witness,
};
use crate::view::View;
use atomic_table::Badge;
use msg_buckets::{first_place, pack};
use msg_names::{ClassRef, ImpRef, Selector};
use msg_tables::{Change, ChangeList, MOST_SENDERS};
use std::alloc::{AllocError, Global};
use std::marker::{Brand, Model};
use std::mem::replace;
use std::slice::from_ref;

/// The stamp of a class reference that is closed. Nothing is noted after that many changes.
pub const CLOSED: u64 = 18_446_744_073_709_551_615;

/// The keeper, with its own copy of all words but the probe words.
#[derive(Drop)]
pub struct Keeper {
    pub(crate) seat: Seat,
    words: Vec<u64>,
    standings: Standings,
    // the number of entries of each array
    pub(crate) occupied: Vec<u32>,
    // for each class reference without an array the capacity of its next, or 0 for the least
    pub(crate) remembered: Vec<u32>,
    given: Vec<bool>,
    outs: Outs,
    count: u64,
    lent: bool,
    // marks the arrays that were installed before
    pub(crate) used: Vec<bool>,
    report: Report,
    pub ghost keeper: { seat.me ≡ kept (keeper_of seat.me.0) },
    pub ghost words_are: { words.items ≡ (keeper_of seat.me.0).words },
    pub ghost standings_are: { standings ≡ settled standings.senders (keeper_of seat.me.0).standings },
    pub ghost senders_are: { standings.senders ≡ length (keeper_of seat.me.0).given },
    pub ghost given_are: { given.items ≡ (keeper_of seat.me.0).given },
    pub ghost outs_are: { length outs.were.items ≡ standings.senders },
    pub ghost nobody: { (n : ℕ) → outs.known ≤ n → awaits given.items n ≡ false },
    pub ghost count_is: { count ≡ size (keeper_of seat.me.0).history },
    pub ghost lent_is: { lent ≡ is_lent (keeper_of seat.me.0).turn },
    pub ghost counts: { AreCounts report },
}

// The keeper's data about arrays. It is made on its own, as is the other part, because a function
// that lacks memory gives back what it has made.
#[derive(Drop)]
struct ArrayCopies {
    standings: Standings,
    occupied: Vec<u32>,
    used: Vec<bool>,
}

impl ArrayCopies {
    // Makes the data of this number of arrays, which are free.
    fn blank(alloc: Global, arrays: usize, senders: usize) -> Result<ArrayCopies, AllocError>
        requires arrays { arrays < 2 ^ 32 }
        requires senders { senders ≤ MOST_SENDERS }
        ensures standings { IfOk result (λ n. n.standings ≡ all_free arrays senders) }
        ensures occupied { IfOk result (λ n. n.occupied.items ≡ replicate arrays 0) }
        ensures used { IfOk result (λ n. length n.used.items ≡ arrays) }
    {
        let standings = Standings::all_free(alloc, arrays, senders)?;
        let occupied = vec![in alloc; 0; arrays]?;
        let used = vec![in alloc; false; arrays]?;
        Ok(ArrayCopies {
            standings,
            occupied,
            used,
        })
    }
}

// The capacity that each class reference reaches, and which senders are out.
#[derive(Drop)]
struct Copies {
    remembered: Vec<u32>,
    given: Vec<bool>,
    outs: Outs,
}

impl Copies {
    // Makes the data of this number of classes and senders.
    fn blank(alloc: Global, classes: usize, senders: usize) -> Result<Copies, AllocError>
        requires classes { classes < 2 ^ 32 }
        requires senders { senders < 2 ^ 32 }
        ensures remembered { IfOk result (λ c. c.remembered.items ≡ replicate (2 * classes) 0) }
        ensures given { IfOk result (λ c. c.given.items ≡ replicate senders false) }
        ensures outs { IfOk result (λ c. length c.outs.were.items ≡ senders) }
        ensures known { IfOk result (λ c. c.outs.known ≡ 0) }
    {
        let remembered = vec![in alloc; 0; 2 * classes]?;
        let given = vec![in alloc; false; senders]?;
        let outs = Outs::all(alloc, senders)?;
        Ok(Copies {
            remembered,
            given,
            outs,
        })
    }
}

/// The right to change the history.
#[derive(Drop)]
pub struct Turn {
    badge: Badge<View>,
}

impl Model for Turn {
    ghost use Rattle.msg_cache.specs.Views.{TurnView};

    ghost Value = { TurnView };

    ghost use Rattle.std.specs.Coded.{codes};
    ghost use Rattle.atomic_table.specs.Seated.{table_id_coded};

    ghost coded = { Prim.hlevel (codes, table_id_coded) };

    ghost use Rattle.msg_cache.specs.Inside.{turn_of_badge, IsTurn};

    ghost view = { turn_of_badge };

    ghost invariant = { IsTurn };
}

impl Keeper {
    ghost use Rattle.msg_cache.specs.Ours.{AffectedAreClosed, AffectedAreFlushed, AllAffectedAreClosed, AllAffectedAreFlushed, CanUseFor, CannotBeGiven, ChangesIf, Chills, ClosesSome, CommitsClosed, CountsFillWith, CountsIf, FillsPlace, FillsWith, GrowsInto, IsClosed, IsCold, IsOf, OnlyFlushesIn, RemembersCapacity, StayCold, closed, is_closed, opened, view, placement_for};

    // Makes the keeper of a new arena. The words are a copy of the arena's.
    pub(crate) fn first(
        alloc: Global,
        seat: Seat,
        words: Vec<u64>,
        arrays: usize,
        classes: usize,
        senders: usize,
    ) -> Result<Keeper, AllocError>
        requires classes { classes < 2 ^ 32 }
        requires few_arrays { arrays < 2 ^ 32 }
        requires few_senders { senders ≤ MOST_SENDERS }
        requires seat { IsKeeper seat }
        requires history { size (keeper_at seat).history ≡ 0 }
        requires turn { (keeper_at seat).turn ≡ Never }
        requires words { (keeper_at seat).words ≡ words.items }
        requires arrays { (keeper_at seat).standings ≡ replicate arrays Free }
        requires senders { (keeper_at seat).given ≡ replicate senders false }
        ensures table { IfOk result (λ keeper. keeper.seat.table_id ≡ seat.table_id) }
        ensures seat { IfOk result (λ keeper. keeper.seat.me ≡ seat.me) }
        ensures occupied { IfOk result (λ keeper. keeper.occupied.items ≡ replicate arrays 0) }
        ensures remembered { IfOk result (λ keeper. keeper.remembered.items ≡ replicate (2 * classes) 0) }
        ensures used { IfOk result (λ keeper. length keeper.used.items ≡ arrays) }
    {
        let arrays = ArrayCopies::blank(alloc, arrays, senders)?;
        let copies = Copies::blank(alloc, classes, senders)?;
        Ok(Keeper {
            words,
            standings: arrays.standings,
            occupied: arrays.occupied,
            remembered: copies.remembered,
            given: copies.given,
            outs: copies.outs,
            used: arrays.used,
            count: 0,
            lent: false,
            report: Report::default(),
            seat,
        })
    }

    // What an entry of a class reference needs.
    fn placement(&self, arena: &Arena, class: ClassRef, selector: Selector) -> Placement
        requires arena { IsOf arena.now self.now }
        requires class { class.class < classes arena.now }
        ensures placement { result ≡ placement_for arena.now self.now class selector }
        ensures uses { OnUse result (CanUseFor arena.now self.now class selector) }
        ensures takes { OnTake result IsCapacity }
    {
        let at = header_at(class);
        let header = self.words[at];
        if header == 0 {
            let remembered = self.remembered[at - 1];
            return Placement::Take(if remembered == 0 { 4 } else { remembered });
        }
        let array = (header - 1) as usize;
        let base = arena.base(array);
        let capacity = arena.capacity(array) as usize;
        placement_in_array(
            &self.words[base..base + capacity],
            self.occupied[array],
            selector,
            array,
        )
    }

    // The lowest free array of a capacity.
    fn free_array(&self, arena: &Arena, capacity: u32) -> Option<usize>
        requires arena { IsOf arena.now self.now }
        requires capacity { IsCapacity capacity }
        ensures lowest { result ≡ lowest_free (layout arena.now) capacity (view self.now) }
        ensures free { IfSome result (IsFreeArray arena.now.key (view self.now)) }
    {
        let (from, until) = arena.group(capacity);
        self.standings.first_free(from, until)
    }

    // Makes a Fill.
    fn put(
        &mut self,
        arena: &Arena,
        class: ClassRef,
        array: usize,
        place: usize,
        selector: Selector,
        implementation: ImpRef,
    )
        requires arena { IsOf arena.now self.old }
        requires live { standing_of (view self.old) array ≡ Live class }
        requires found { EndsAt (layout arena.now) (view self.old) array (selector_number selector) place }
        requires room { TakesOneMore (layout arena.now) (view self.old) array }
        requires agrees { IsFoundAt (view self.old).history class selector implementation }
        ensures arena { IsOf arena.now self.new }
        ensures remembered { self.new.remembered.items ≡ self.old.remembered.items }
        ensures view { FillsPlace arena.now array place selector implementation self.old self.new }
        ensures report { self.new.report ≡ after_entry self.old.report }
    {
        let shared = arena.shared();
        let base = arena.base(array);
        let word = pack(selector, implementation);
        store_entry::<Brand>(shared, &mut self.seat, class, array, base, place, word);
        self.words[base + place] = word;
        self.occupied[array] += 1;
        self.report.fills = self.report.fills.saturating_add(1);
    }

    // Makes an Install.
    fn install(&mut self, arena: &Arena, class: ClassRef, array: usize)
        requires arena { IsOf arena.now self.old }
        requires class { class.class < classes arena.now }
        requires array { array < length arena.now.key.capacities }
        requires free { standing_of (view self.old) array ≡ Free }
        ensures arena { IsOf arena.now self.new }
        ensures remembered { self.new.remembered.items ≡ self.old.remembered.items }
        ensures view { view self.new ≡ installed class array (view self.old) }
        ensures report { CountsInstall self.old.report self.new.report }
    {
        let at = header_at(class);
        let header = self.words[at];
        let shared = arena.shared();
        store_array::<Brand>(shared, &mut self.seat, class, array as u32);
        retire_in(&mut self.standings, header);
        self.standings.install(array);
        self.words[at] = array as u64 + 1;
        if header != 0 {
            self.report.retired = self.report.retired.saturating_add(1);
        }
        if self.used[array] {
            self.report.given_again = self.report.given_again.saturating_add(1);
        }
        self.used[array] = true;
        self.report.growths = self.report.growths.saturating_add(1);
    }

    // Makes an Install, and then a Fill.
    fn grow(
        &mut self,
        arena: &Arena,
        class: ClassRef,
        array: usize,
        selector: Selector,
        implementation: ImpRef,
    )
        requires arena { IsOf arena.now self.old }
        requires class { class.class < classes arena.now }
        requires array { array < length arena.now.key.capacities }
        requires free { standing_of (view self.old) array ≡ Free }
        requires agrees { IsFoundAt (view self.old).history class selector implementation }
        ensures arena { IsOf arena.now self.new }
        ensures remembered { self.new.remembered.items ≡ self.old.remembered.items }
        ensures view { GrowsInto arena.now class array selector implementation self.old self.new }
        ensures report { CountsGrowth self.old.report self.new.report }
    {
        self.install(arena, class, array);
        let place = first_place(selector, arena.capacity(array));
        self.put(arena, class, array, place, selector, implementation);
    }

    /// Looks at each sender, and makes the arrays free that nobody holds any more. Returns their
    /// number. It loads a word for each sender number up to the highest that was ever given out. If
    /// no array is retired it loads none.
    pub fn collect(&mut self, arena: &Arena) -> u32
        requires arena { IsOf arena.now self.old }
        ensures arena { IsOf arena.now self.new }
        ensures remembered { self.new.remembered.items ≡ self.old.remembered.items }
        ensures collects { Collects (layout arena.now) (view self.old) (view self.new) result }
        ensures report { self.new.report ≡ after_collection result self.old.report }
    {
        let freed = collect_into(
            arena,
            &mut self.seat,
            &mut self.words,
            &mut self.standings,
            &mut self.occupied,
            &self.remembered,
            &mut self.outs,
        );
        self.report.collections = self.report.collections.saturating_add(1);
        self.report.freed = self.report.freed.saturating_add(u64::from(freed));
        freed
    }

    /// Caches the implementation that was found for a selector in a class reference.
    pub fn fill(
        &mut self,
        arena: &Arena,
        class: ClassRef,
        selector: Selector,
        implementation: ImpRef,
    ) -> Filled
        requires arena { IsOf arena.now self.old }
        requires class { class.class < classes arena.now }
        requires agrees { IsFoundAt (view self.old).history class selector implementation }
        ensures arena { IsOf arena.now self.new }
        ensures remembered { self.new.remembered.items ≡ self.old.remembered.items }
        ensures fills { FillsWith arena.now class selector implementation self.old self.new result }
        ensures report { CountsFillWith arena.now class selector result self.old self.new }
    {
        match self.placement(arena, class, selector) {
            Placement::Present => Filled::Present,
            Placement::Use(array, place) => {
                self.put(arena, class, array, place, selector, implementation);
                Filled::Used
            }
            Placement::Take(capacity) => {
                if let Some(array) = self.free_array(arena, capacity) {
                    self.grow(arena, class, array, selector, implementation);
                    return Filled::Grown;
                }
                let _freed = self.collect(arena);
                if let Some(array) = self.free_array(arena, capacity) {
                    self.grow(arena, class, array, selector, implementation);
                    return Filled::Grown;
                }
                count_want(&mut self.report, capacity);
                Filled::NoArray
            }
        }
    }

    /// The number of times that changes were made.
    #[inline]
    pub fn count(&self) -> u64
        ensures { result ≡ size (view self.now).history }
    {
        self.count
    }

    /// Whether a sender number is given out.
    #[inline]
    pub fn is_out(&self, number: usize) -> bool
        ensures { result ≡ awaits (view self.now).given number }
    {
        number < self.given.len() && self.given[number]
    }

    /// The counts of what was done so far.
    pub fn report(&self) -> Report
        ensures value { result ≡ self.now.report }
        ensures counts { AreCounts result }
    {
        self.report
    }

    /// Takes the live array of a class reference away, and returns whether there was one.
    pub fn flush(&mut self, arena: &Arena, class: ClassRef) -> bool
        requires arena { IsOf arena.now self.old }
        requires class { class.class < classes arena.now }
        ensures arena { IsOf arena.now self.new }
        ensures flushed { ChangesIf result (flushed class) self.old self.new }
        ensures none { result ≡ false → header_of (view self.old) class ≡ 0 }
        ensures some { result ≡ true → (a : ℕ) × (header_of (view self.old) class ≡ suc a) }
        ensures remembered { RemembersCapacity arena.now class self.old self.new }
        ensures report { CountsIf result after_flush self.old self.new }
    {
        let place = header_at(class);
        let header = self.words[place];
        if header == 0 {
            return false;
        }
        let array = (header - 1) as usize;
        let capacity = arena.capacity(array);
        let shared = arena.shared();
        store_none::<Brand>(shared, &mut self.seat, class, array);
        self.words[place] = 0;
        self.standings.retire(array);
        self.remembered[place - 1] = capacity;
        self.report.flushes = self.report.flushes.saturating_add(1);
        self.report.retired = self.report.retired.saturating_add(1);
        true
    }

    // Stores the stamp of a class reference. It may not be below the number of the last change that
    // affects the class reference.
    fn stamp(&mut self, arena: &Arena, class: ClassRef, count: u64)
        requires arena { IsOf arena.now self.old }
        requires class { class.class < classes arena.now }
        requires since { last_affected (view self.old).history class ≤ count }
        ensures arena { IsOf arena.now self.new }
        ensures remembered { self.new.remembered.items ≡ self.old.remembered.items }
        ensures report { self.new.report ≡ self.old.report }
        ensures view { view self.new ≡ stored (stamp_at (layout arena.now) class) count (view self.old) }
    {
        let place = arena.stamp_at(class);
        let shared = arena.shared();
        store_stamp::<Brand>(shared, &mut self.seat, class, place, count);
        self.words[place] = count;
    }

    /// Closes a class reference, so that none of its notes holds until it is opened. Returns
    /// whether it was open.
    pub fn close(&mut self, arena: &Arena, class: ClassRef) -> bool
        requires arena { IsOf arena.now self.old }
        requires class { class.class < classes arena.now }
        ensures arena { IsOf arena.now self.new }
        ensures remembered { self.new.remembered.items ≡ self.old.remembered.items }
        ensures report { self.new.report ≡ self.old.report }
        ensures open { result ≡ not (is_closed (layout arena.now) (view self.old) class) }
        ensures view { view self.new ≡ closed (layout arena.now) class (view self.old) }
        ensures closed { IsClosed arena.now self.new class }
    {
        // the number of changes is at most the stamp of a closed class reference
        let _count = self.count;
        let place = arena.stamp_at(class);
        let stamp = self.words[place];
        if stamp == CLOSED {
            return false;
        }
        self.stamp(arena, class, CLOSED);
        true
    }

    /// Closes a class reference and takes its live array away, so that a change that affects it may
    /// be made.
    pub fn chill(&mut self, arena: &Arena, class: ClassRef)
        requires arena { IsOf arena.now self.old }
        requires class { class.class < classes arena.now }
        ensures arena { IsOf arena.now self.new }
        ensures view { Chills arena.now class self.old self.new }
        ensures flushes { OnlyFlushesIn arena.now self.old self.new }
        ensures history { (view self.new).history ≡ (view self.old).history }
        ensures given { (view self.new).given ≡ (view self.old).given }
        ensures since { (view self.new).since ≡ (view self.old).since }
        ensures cold { IsCold arena.now self.new class }
        ensures others { StayCold arena.now self.old self.new }
    {
        self.close(arena, class);
        self.flush(arena, class);
    }

    /// Opens a class reference, so that what is noted of it from now on holds until it is closed.
    /// Returns whether it was closed.
    #[tactic(auto, using(crate::proofs::PastLemmas::reached_by))]
    pub fn open(&mut self, arena: &Arena, class: ClassRef) -> bool
        requires arena { IsOf arena.now self.old }
        requires class { class.class < classes arena.now }
        ensures arena { IsOf arena.now self.new }
        ensures remembered { self.new.remembered.items ≡ self.old.remembered.items }
        ensures report { self.new.report ≡ self.old.report }
        ensures closed { result ≡ is_closed (layout arena.now) (view self.old) class }
        ensures view { view self.new ≡ opened (layout arena.now) class (view self.old) }
        ensures history { (view self.new).history ≡ (view self.old).history }
        ensures given { (view self.new).given ≡ (view self.old).given }
        ensures since { (view self.new).since ≡ (view self.old).since }
    {
        let place = arena.stamp_at(class);
        let stamp = self.words[place];
        if stamp == CLOSED {
            self.stamp(arena, class, self.count);
            return true;
        }
        false
    }

    // Closes each class reference that is open.
    fn close_all(&mut self, arena: &Arena)
        requires arena { IsOf arena.now self.old }
        ensures arena { IsOf arena.now self.new }
        ensures remembered { self.new.remembered.items ≡ self.old.remembered.items }
        ensures report { self.new.report ≡ self.old.report }
        ensures view { ClosesSome arena.now self.old self.new }
        ensures closed { (c : ClassRef) → c.class < classes arena.now → IsClosed arena.now self.new c }
    {
        for class in 0..arena.classes() {
            self.close(arena, ClassRef { class, meta: false });
            self.close(arena, ClassRef { class, meta: true });
        }
    }

    /// Adds a change to the history, and returns how many times changes were made. It first closes
    /// each class reference that is open. A caller that has closed those that the change affects
    /// calls `commit_closed`, which closes no other.
    pub fn commit(&mut self, arena: &Arena, turn: &mut Turn, change: &Change) -> u64
        requires arena { IsOf arena.now self.old }
        requires turn { turn.old.table ≡ arena.now.table }
        requires accepted { refusal (log (view self.old).history) change.now ≡ None }
        requires flushed { AffectedAreFlushed arena.now change.now self.old }
        ensures arena { IsOf arena.now self.new }
        ensures remembered { self.new.remembered.items ≡ self.old.remembered.items }
        ensures report { self.new.report ≡ self.old.report }
        ensures turn { turn.new.table ≡ turn.old.table }
        ensures committed { CommitsClosed arena.now (change.now ∷ []) self.old self.new }
        ensures turn_was { turn.old.history ≡ (view self.old).history }
        ensures turn_is { turn.new.history ≡ (view self.new).history }
        ensures count { result ≡ size (view self.new).history }
    {
        self.close_all(arena);
        self.commit_closed(arena, turn, change)
    }

    /// Does the same if each class reference that the change affects is closed. It closes no other.
    pub fn commit_closed(&mut self, arena: &Arena, turn: &mut Turn, change: &Change) -> u64
        requires arena { IsOf arena.now self.old }
        requires turn { turn.old.table ≡ arena.now.table }
        requires accepted { refusal (log (view self.old).history) change.now ≡ None }
        requires flushed { AffectedAreFlushed arena.now change.now self.old }
        requires closed { AffectedAreClosed arena.now change.now self.old }
        ensures arena { IsOf arena.now self.new }
        ensures remembered { self.new.remembered.items ≡ self.old.remembered.items }
        ensures report { self.new.report ≡ self.old.report }
        ensures turn { turn.new.table ≡ turn.old.table }
        ensures committed { view self.new ≡ lent (committed (change.now ∷ []) (view self.old)) }
        ensures turn_was { turn.old.history ≡ (view self.old).history }
        ensures turn_is { turn.new.history ≡ (view self.new).history }
        ensures count { result ≡ size (view self.new).history }
    {
        self.commit_all(arena, turn, &from_ref(change))
    }

    /// Adds changes to the history that are made as one, and returns how many times changes were
    /// made. Each class reference that one of them affects must be closed before. The count is
    /// stored once, so no sender sees only some of the changes.
    pub fn commit_all<L: ChangeList>(&mut self, arena: &Arena, turn: &mut Turn, changes: &L) -> u64
        requires arena { IsOf arena.now self.old }
        requires turn { turn.old.table ≡ arena.now.table }
        requires some { 0 < length (L.changes changes.now) }
        requires accepted { refusal_of_all (log (view self.old).history) (L.changes changes.now) ≡ None }
        requires flushed { AllAffectedAreFlushed arena.now (L.changes changes.now) self.old }
        requires closed { AllAffectedAreClosed arena.now (L.changes changes.now) self.old }
        ensures arena { IsOf arena.now self.new }
        ensures remembered { self.new.remembered.items ≡ self.old.remembered.items }
        ensures report { self.new.report ≡ self.old.report }
        ensures turn { turn.new.table ≡ turn.old.table }
        ensures committed { view self.new ≡ lent (committed (L.changes changes.now) (view self.old)) }
        ensures turn_was { turn.old.history ≡ (view self.old).history }
        ensures turn_is { turn.new.history ≡ (view self.new).history }
        ensures count { result ≡ size (view self.new).history }
    {
        let shared = arena.shared();
        let badge = replace(&mut turn.badge, Badge::blank());
        join_turn(shared, &mut self.seat, badge.into_seat());
        let count = self.count + 1;
        store_count::<Brand, L>(shared, &mut self.seat, count, changes);
        self.words[0] = count;
        self.count = count;
        turn.badge = split_turn(shared, &mut self.seat).into_badge();
        self.lent = true;
        count
    }

    /// Changes nothing, and proves that the turn's history is the keeper's.
    pub fn face(&mut self, arena: &Arena, turn: &mut Turn)
        requires arena { IsOf arena.now self.old }
        requires turn { turn.old.table ≡ arena.now.table }
        ensures arena { IsOf arena.now self.new }
        ensures remembered { self.new.remembered.items ≡ self.old.remembered.items }
        ensures report { self.new.report ≡ self.old.report }
        ensures turn { turn.new.table ≡ turn.old.table }
        ensures same { view self.new ≡ lent (view self.old) }
        ensures turn_was { turn.old.history ≡ (view self.old).history }
        ensures turn_is { turn.new.history ≡ (view self.new).history }
    {
        let shared = arena.shared();
        let badge = replace(&mut turn.badge, Badge::blank());
        join_turn(shared, &mut self.seat, badge.into_seat());
        witness::<Brand>(shared, &mut self.seat);
        turn.badge = split_turn(shared, &mut self.seat).into_badge();
        self.lent = true;
    }

    /// Returns the right to change the history the first time, and nothing later.
    pub fn turn(&mut self, arena: &Arena) -> Option<Turn>
        requires arena { IsOf arena.now self.old }
        ensures arena { IsOf arena.now self.new }
        ensures remembered { self.new.remembered.items ≡ self.old.remembered.items }
        ensures report { self.new.report ≡ self.old.report }
        ensures view { ChangesIf (is_some result) lent self.old self.new }
        ensures once { is_some result ≡ not (is_lent (view self.old).turn) }
        ensures turn { IfSome result (IsTurnAt arena.now (empty arena.now.key.origin)) }
    {
        if self.lent {
            return None;
        }
        let shared = arena.shared();
        let badge = split_turn(shared, &mut self.seat).into_badge();
        self.lent = true;
        Some(Turn { badge })
    }

    /// Gives out a sender with this number. It has seen all that the keeper has.
    pub fn give_out(&mut self, arena: &Arena, number: u32) -> Option<Prober>
        requires arena { IsOf arena.now self.old }
        ensures arena { IsOf arena.now self.new }
        ensures remembered { self.new.remembered.items ≡ self.old.remembered.items }
        ensures report { self.new.report ≡ self.old.report }
        ensures view { ChangesIf (is_some result) (given_out number) self.old self.new }
        ensures none { IsNone result ↔ CannotBeGiven arena.now number self.old }
        ensures some { IfSome result (IsNewcomer arena.now number (view self.old).history) }
    {
        let place = number as usize;
        if place >= self.given.len() || self.given[place] {
            return None;
        }
        let shared = arena.shared();
        let seat = split_sender::<Brand>(shared, &mut self.seat, number);
        self.given[place] = true;
        self.outs.know(number);
        Some(Prober::of(seat, number, arena.probe_at(number)))
    }

    /// Counts that a sender was asked for and none is given out.
    pub fn refuse(&mut self, arena: &Arena)
        requires arena { IsOf arena.now self.old }
        ensures arena { IsOf arena.now self.new }
        ensures remembered { self.new.remembered.items ≡ self.old.remembered.items }
        ensures report { self.new.report ≡ after_refusal self.old.report }
        ensures view { view self.new ≡ view self.old }
    {
        let _ = arena;
        self.report.refused_senders = self.report.refused_senders.saturating_add(1);
    }

    /// Takes a sender back.
    pub fn take_in(&mut self, arena: &Arena, prober: Prober)
        requires arena { IsOf arena.now self.old }
        requires prober { IsSenderOf arena.now prober }
        ensures arena { IsOf arena.now self.new }
        ensures remembered { self.new.remembered.items ≡ self.old.remembered.items }
        ensures report { self.new.report ≡ self.old.report }
        ensures taken { view self.new ≡ taken_in (prober.sender) (view self.old) }
        ensures begins { BeginsWith (view self.new).history (prober.sender).front }
    {
        let shared = arena.shared();
        let place = prober.number() as usize;
        join_sender(shared, &mut self.seat, prober.into_seat());
        witness::<Brand>(shared, &mut self.seat);
        self.given[place] = false;
    }

    /// Brings a sender up to date: it has then seen all that the keeper has, which begins with what
    /// it had seen. It keeps its number, and its last probe is forgotten.
    pub fn renew(&mut self, arena: &Arena, prober: &mut Prober)
        requires arena { IsOf arena.now self.old }
        requires prober { IsSenderOf arena.now prober.old }
        ensures arena { IsOf arena.now self.new }
        ensures remembered { self.new.remembered.items ≡ self.old.remembered.items }
        ensures report { self.new.report ≡ self.old.report }
        ensures view { view self.new ≡ given_again prober.old.sender (view self.old) }
        ensures prober { IsSenderOf arena.now prober.new }
        ensures sender { prober.new.sender ≡ renewed prober.old.sender (view self.old).history }
        ensures begins { BeginsWith (view self.old).history prober.old.sender.front }
    {
        prober.renew(arena.shared(), &mut self.seat);
        let number = prober.number();
        self.given[number as usize] = true;
        self.outs.know(number);
    }
}
