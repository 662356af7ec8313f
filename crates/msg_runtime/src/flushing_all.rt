//! The caches that a list of changes flushes.

ghost use Rattle.std.specs.Prelude.{◌≡◌, [], ◌∷◌, All, false, length};
ghost use Rattle.msg_names.specs.declared.value.ClassRef.{ClassRef};
ghost use Rattle.msg_tables.specs.ChangeList.{change_of};
ghost use Rattle.msg_tables.specs.Journal.{NamesListed};
ghost use Rattle.msg_tables.specs.Making.{is_told};
ghost use Rattle.msg_tables.specs.Origin.{class_total};
ghost use Rattle.msg_tables.specs.Recent.{HasPlace};
ghost use Rattle.msg_cache.specs.Ours.{OnlyFlushesIn};
ghost use Rattle.msg_runtime.specs.Flushed.{AreFlushed, FirstAreFlushed, IsFlushedBelow, StayFlushed};
ghost use Rattle.msg_runtime.specs.Parts.{IsKeeperOf, keeper_history, keeper_seats};
ghost use Rattle.msg_runtime.specs.Reach.{flushes_all, is_flushed, is_set, is_set_alone};
ghost use Rattle.msg_runtime.specs.Spared.{AreSpared};

use crate::flushing::{flush_all, flush_below, flush_class};
use msg_cache::{Arena, Keeper};
use msg_tables::{ChangeList, ChangeRef, Entry, Recent, Tables};

// Flushes the caches that an entry affects: those of a class that was made or disposed of, or those
// of the class reference where rows were written and of all below.
#[inline(always)]
fn flush_entry(keeper: &mut Keeper, arena: &Arena, tables: &Tables, entry: Entry)
    requires arena { IsKeeperOf arena.now keeper.old }
    requires listed { NamesListed (length tables.now.supers) entry }
    requires classes { length tables.now.supers ≡ class_total (keeper_history keeper.old).origin }
    ensures arena { IsKeeperOf arena.now keeper.new }
    ensures history { keeper_history keeper.new ≡ keeper_history keeper.old }
    ensures seats { keeper_seats keeper.new ≡ keeper_seats keeper.old }
    ensures flushed { AreFlushed arena.now tables.now keeper.new (λ h. is_told h (entry ∷ [])) }
    ensures others { StayFlushed arena.now keeper.old keeper.new }
    ensures spared { AreSpared arena.now tables.now keeper.old keeper.new (λ h. is_told h (entry ∷ [])) }
    ensures flushes { OnlyFlushesIn arena.now keeper.old keeper.new }
{
    if let Entry::Made { class } | Entry::Disposed { class, .. } = entry {
        flush_class(keeper, arena, class, true, true);
    } else if let Some(place) = entry.place() {
        flush_below(keeper, arena, tables, place);
    }
}

// Flushes the caches that an entry affects, unless what is below its place was flushed lately.
#[inline(always)]
fn flush_once(
    keeper: &mut Keeper,
    arena: &Arena,
    tables: &Tables,
    entry: Entry,
    recent: &mut Recent,
)
    requires arena { IsKeeperOf arena.now keeper.old }
    requires listed { NamesListed (length tables.now.supers) entry }
    requires classes { length tables.now.supers ≡ class_total (keeper_history keeper.old).origin }
    requires recent { (c : ClassRef) → HasPlace recent.old c → IsFlushedBelow arena.now tables.now keeper.old c }
    ensures arena { IsKeeperOf arena.now keeper.new }
    ensures history { keeper_history keeper.new ≡ keeper_history keeper.old }
    ensures seats { keeper_seats keeper.new ≡ keeper_seats keeper.old }
    ensures flushed { AreFlushed arena.now tables.now keeper.new (λ h. is_told h (entry ∷ [])) }
    ensures recent { (c : ClassRef) → HasPlace recent.new c → IsFlushedBelow arena.now tables.now keeper.new c }
    ensures others { StayFlushed arena.now keeper.old keeper.new }
    ensures spared { AreSpared arena.now tables.now keeper.old keeper.new (λ h. is_told h (entry ∷ [])) }
    ensures flushes { OnlyFlushesIn arena.now keeper.old keeper.new }
{
    if !recent.had(&entry) {
        flush_entry(keeper, arena, tables, entry);
    }
}

// Flushes the caches that two entries affect, those below one place once.
#[inline(always)]
fn flush_both(keeper: &mut Keeper, arena: &Arena, tables: &Tables, first: Entry, second: Entry)
    requires arena { IsKeeperOf arena.now keeper.old }
    requires first { NamesListed (length tables.now.supers) first }
    requires second { NamesListed (length tables.now.supers) second }
    requires classes { length tables.now.supers ≡ class_total (keeper_history keeper.old).origin }
    ensures arena { IsKeeperOf arena.now keeper.new }
    ensures history { keeper_history keeper.new ≡ keeper_history keeper.old }
    ensures seats { keeper_seats keeper.new ≡ keeper_seats keeper.old }
    ensures flushed { AreFlushed arena.now tables.now keeper.new (λ h. is_told h (first ∷ second ∷ [])) }
    ensures spared { AreSpared arena.now tables.now keeper.old keeper.new (λ h. is_told h (first ∷ second ∷ [])) }
    ensures flushes { OnlyFlushesIn arena.now keeper.old keeper.new }
{
    flush_entry(keeper, arena, tables, first);
    if let (Some(one), Some(other)) = (first.place(), second.place()) {
        if one.slot() == other.slot() {
            return;
        }
    }
    flush_entry(keeper, arena, tables, second);
}

// Flushes the caches that entries affect, those below one place once if it was flushed lately. It
// is a function of its own, so that a list of one or two makes no table of places.
#[inline(never)]
fn flush_each(keeper: &mut Keeper, arena: &Arena, tables: &Tables, entries: &[Entry])
    requires arena { IsKeeperOf arena.now keeper.old }
    requires listed { All (NamesListed (length tables.now.supers)) entries.now }
    requires classes { length tables.now.supers ≡ class_total (keeper_history keeper.old).origin }
    ensures arena { IsKeeperOf arena.now keeper.new }
    ensures history { keeper_history keeper.new ≡ keeper_history keeper.old }
    ensures seats { keeper_seats keeper.new ≡ keeper_seats keeper.old }
    ensures flushed { AreFlushed arena.now tables.now keeper.new (λ h. is_told h entries.now) }
    ensures spared { AreSpared arena.now tables.now keeper.old keeper.new (λ h. is_told h entries.now) }
    ensures flushes { OnlyFlushesIn arena.now keeper.old keeper.new }
{
    let mut recent = Recent::none();
    for entry in entries {
        flush_once(keeper, arena, tables, *entry, &mut recent);
    }
}

// Flushes the caches that a list of changes affects, which were just made. These are the caches of
// the classes that were made or disposed of, and of the places where rows were written and of all
// below, by the present tables. What was below a place when a change wrote there still is, except
// for classes that were disposed of.
#[inline(always)]
fn flush_written(keeper: &mut Keeper, arena: &Arena, tables: &Tables, entries: &[Entry])
    requires arena { IsKeeperOf arena.now keeper.old }
    requires listed { All (NamesListed (length tables.now.supers)) entries.now }
    requires classes { length tables.now.supers ≡ class_total (keeper_history keeper.old).origin }
    ensures arena { IsKeeperOf arena.now keeper.new }
    ensures history { keeper_history keeper.new ≡ keeper_history keeper.old }
    ensures seats { keeper_seats keeper.new ≡ keeper_seats keeper.old }
    ensures flushed { AreFlushed arena.now tables.now keeper.new (λ h. is_told h entries.now) }
    ensures spared { AreSpared arena.now tables.now keeper.old keeper.new (λ h. is_told h entries.now) }
    ensures flushes { OnlyFlushesIn arena.now keeper.old keeper.new }
{
    if entries.len() == 1 {
        flush_entry(keeper, arena, tables, entries[0]);
    } else if entries.len() == 2 {
        flush_both(keeper, arena, tables, entries[0], entries[1]);
    } else {
        flush_each(keeper, arena, tables, entries);
    }
}

// Whether a change sets a method's implementation or exchanges two.
#[tactic(auto, using(crate::proofs::AloneLemmas::covering_sets_none))]
fn is_set(change: ChangeRef<'_>) -> bool
    ensures { result ≡ is_set (change_of change.entry) }
{
    match change {
        ChangeRef::SetImp { .. } => true,
        ChangeRef::Exchange { .. } => true,
        ChangeRef::Add { .. } => false,
        ChangeRef::Replace { .. } => false,
        ChangeRef::Attach { .. } => false,
        ChangeRef::AddClass { .. } => false,
        ChangeRef::Remove { .. } => false,
        ChangeRef::DisposeClass { .. } => false,
        ChangeRef::Cover { .. } => false,
    }
}

// Whether the list is one such change and no other.
#[tactic(auto, using(crate::proofs::AloneLemmas::more_or_none, crate::proofs::AloneLemmas::only_one))]
fn is_set_alone<L: ChangeList>(changes: &L) -> bool
    ensures { result ≡ is_set_alone (L.changes changes.now) }
{
    if changes.len() != 1 {
        return false;
    }
    is_set(changes.get(0))
}

// Whether all caches are flushed after a list of changes.
fn flushes_all<L: ChangeList>(tables: &Tables, changes: &L) -> bool
    ensures { result ≡ flushes_all tables.now.counts (L.changes changes.now) }
{
    tables.counts_arguments() && is_set_alone(changes)
}

// Flushes the caches that a list of changes affects, which were just made and wrote these entries.
// For a document's classes all caches are flushed if the list only set one method or exchanged two.
#[inline(always)]
pub(crate) fn flush_changed<L: ChangeList>(
    keeper: &mut Keeper,
    arena: &Arena,
    tables: &Tables,
    classes: u32,
    changes: &L,
    entries: &[Entry],
)
    requires arena { IsKeeperOf arena.now keeper.old }
    requires listed { All (NamesListed (length tables.now.supers)) entries.now }
    requires classes { classes ≡ class_total (keeper_history keeper.old).origin }
    requires tables { length tables.now.supers ≡ classes }
    ensures arena { IsKeeperOf arena.now keeper.new }
    ensures history { keeper_history keeper.new ≡ keeper_history keeper.old }
    ensures seats { keeper_seats keeper.new ≡ keeper_seats keeper.old }
    ensures flushed { FirstAreFlushed classes arena.now tables.now keeper.new
        (λ h. is_flushed tables.now.counts (L.changes changes.now) h entries.now) }
    ensures spared { flushes_all tables.now.counts (L.changes changes.now) ≡ false
        → AreSpared arena.now tables.now keeper.old keeper.new (λ h. is_told h entries.now) }
    ensures flushes { OnlyFlushesIn arena.now keeper.old keeper.new }
{
    if flushes_all(tables, changes) {
        flush_all(keeper, arena, classes);
    } else {
        flush_written(keeper, arena, tables, entries);
    }
}
