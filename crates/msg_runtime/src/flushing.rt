//! The caches that a change flushes.

ghost use Rattle.std.specs.Prelude.{◌≡◌, ◌<◌, length, true};
ghost use Rattle.msg_names.specs.declared.value.ClassRef.{ClassRef};
ghost use Rattle.msg_tables.specs.Origin.{class_total};
ghost use Rattle.msg_tables.specs.Below.{covers};
ghost use Rattle.msg_tables.specs.Chain.{is_member};
ghost use Rattle.msg_tables.specs.Log.{chain_at};
ghost use Rattle.msg_tables.specs.Marking.{is_of};
ghost use Rattle.msg_cache.specs.Ours.{IsCold, OnlyFlushesIn};
ghost use Rattle.msg_runtime.specs.Flushed.{AreClasses, ClassIsFlushed, IsFlushedBelow, StayFlushed};
ghost use Rattle.msg_runtime.specs.Parts.{IsKeeperOf, keeper_history, keeper_seats};
ghost use Rattle.msg_runtime.specs.Spared.{AreSpared, SparesUnless};

use msg_cache::{Arena, Keeper};
use msg_names::ClassRef;
use msg_tables::{Below, Tables};

// Flushes the cache of a class, of its metaclass, or of both.
#[inline(always)]
pub(crate) fn flush_class(keeper: &mut Keeper, arena: &Arena, class: u32, own: bool, meta: bool)
    requires arena { IsKeeperOf arena.now keeper.old }
    requires class { class < class_total (keeper_history keeper.old).origin }
    ensures arena { IsKeeperOf arena.now keeper.new }
    ensures history { keeper_history keeper.new ≡ keeper_history keeper.old }
    ensures seats { keeper_seats keeper.new ≡ keeper_seats keeper.old }
    ensures flushed { ClassIsFlushed arena.now keeper.new class own meta }
    ensures others { StayFlushed arena.now keeper.old keeper.new }
    ensures spared { SparesUnless (is_of class own meta) arena.now keeper.old keeper.new }
    ensures flushes { OnlyFlushesIn arena.now keeper.old keeper.new }
{
    if own {
        keeper.chill(arena, ClassRef { class, meta: false });
    }
    if meta {
        keeper.chill(arena, ClassRef { class, meta: true });
    }
}

// Flushes the caches of some class references.
#[inline(always)]
fn flush_each(keeper: &mut Keeper, arena: &Arena, below: Below<'_>)
    requires arena { IsKeeperOf arena.now keeper.old }
    requires classes { AreClasses below.classes (keeper_history keeper.old).origin }
    ensures arena { IsKeeperOf arena.now keeper.new }
    ensures history { keeper_history keeper.new ≡ keeper_history keeper.old }
    ensures seats { keeper_seats keeper.new ≡ keeper_seats keeper.old }
    ensures flushed { (c : ClassRef) → covers below.entry c ≡ true → IsCold arena.now keeper.new c }
    ensures others { StayFlushed arena.now keeper.old keeper.new }
    ensures spared { SparesUnless (covers below.entry) arena.now keeper.old keeper.new }
    ensures flushes { OnlyFlushesIn arena.now keeper.old keeper.new }
{
    let own = below.has_classes();
    let meta = below.has_metaclasses();
    for class in below.classes() {
        flush_class(keeper, arena, class, own, meta);
    }
}

// Flushes the caches of a class reference and of all below it. It looks at these and at one class
// more.
#[inline(always)]
pub(crate) fn flush_below(keeper: &mut Keeper, arena: &Arena, tables: &Tables, class: ClassRef)
    requires arena { IsKeeperOf arena.now keeper.old }
    requires class { class.class < length tables.now.supers }
    requires classes { length tables.now.supers ≡ class_total (keeper_history keeper.old).origin }
    ensures arena { IsKeeperOf arena.now keeper.new }
    ensures history { keeper_history keeper.new ≡ keeper_history keeper.old }
    ensures seats { keeper_seats keeper.new ≡ keeper_seats keeper.old }
    ensures flushed { IsFlushedBelow arena.now tables.now keeper.new class }
    ensures others { StayFlushed arena.now keeper.old keeper.new }
    ensures spared { AreSpared arena.now tables.now keeper.old keeper.new (λ h c. is_member class (chain_at h c)) }
    ensures flushes { OnlyFlushesIn arena.now keeper.old keeper.new }
{
    flush_each(keeper, arena, tables.below(class));
}

// Flushes all caches.
pub(crate) fn flush_all(keeper: &mut Keeper, arena: &Arena, classes: u32)
    requires arena { IsKeeperOf arena.now keeper.old }
    requires classes { classes ≡ class_total (keeper_history keeper.old).origin }
    ensures arena { IsKeeperOf arena.now keeper.new }
    ensures history { keeper_history keeper.new ≡ keeper_history keeper.old }
    ensures seats { keeper_seats keeper.new ≡ keeper_seats keeper.old }
    ensures flushed { (c : ClassRef) → c.class < classes → IsCold arena.now keeper.new c }
    ensures flushes { OnlyFlushesIn arena.now keeper.old keeper.new }
{
    for class in 0..classes {
        flush_class(keeper, arena, class, true, true);
    }
}
