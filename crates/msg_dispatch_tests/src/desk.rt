//! An arena's keeper, class tables that know what may be cached, and senders of the arena.

ghost use Rattle.std.specs.Prelude.{◌≡◌, ◌<◌};
ghost use Rattle.msg_image.specs.Opened.{origin_of};
ghost use Rattle.std.specs.Arc.{arc_value};
ghost use Rattle.msg_names.specs.declared.value.ClassRef.{ClassRef};
ghost use Rattle.msg_tables.specs.Origin.{class_total};
ghost use Rattle.msg_cache.specs.Ours.{IsOf};
ghost use Rattle.msg_cache.specs.Views.{classes, IsSenderOf};
ghost use Rattle.msg_dispatch_tests.specs.Together.{Begin, HasNoArray, history};

use crate::images::{self, image};
use msg_cache::{Arena, Filled, Keeper, Pause, Prober, Report, Turn};
use msg_image::{Change, Image};
use msg_names::{ClassRef, ImpRef, Selector};
use msg_samples::SMALL;
use msg_tables::{Tables, Written};
use std::alloc::Global;
use std::marker::Model;
use std::process::Abort;
use std::slice::from_ref;
use std::sync::Arc;

/// An arena of this number of senders and arrays for the image of two classes, with its keeper
/// beside tables.
pub(crate) fn open(rt: &impl Abort, alloc: Global, senders: u32, arrays: [u16; 9]) -> Box<Desk> {
    let image = image(rt, alloc, SMALL);
    assert_eq!(rt; image.class_count(), 2);
    let (arena, keeper, tables) = opened(rt, alloc, &image, senders, arrays);
    Desk::at(rt, alloc, arena, keeper, tables)
}

// An arena of an image of two classes, its keeper, and tables.
#[tactic(auto, using(crate::proofs::BeginLemmas::begins))]
fn opened(
    rt: &impl Abort,
    alloc: Global,
    image: &Image,
    senders: u32,
    arrays: [u16; 9],
) -> (Arena, Keeper, Tables)
    requires { class_total (origin_of image.now) ≡ 2 }
    ensures { Begin result.0 result.1 result.2 }
{
    let tables = Tables::open(alloc, image).expect(rt, "memory");
    let (arena, keeper) = images::opened(rt, alloc, image, senders, arrays);
    (arena, keeper, tables)
}

// Takes the live array of each class reference away.
fn flush_all(keeper: &mut Keeper, arena: &Arena)
    requires arena { IsOf arena.now keeper.old }
    requires two { classes arena.now ≡ 2 }
    ensures arena { IsOf arena.now keeper.new }
    ensures history { history keeper.new ≡ history keeper.old }
    ensures flushed { (c : ClassRef) → c.class < 2 → HasNoArray arena.now keeper.new c }
{
    for class in 0..2 {
        flush(keeper, arena, ClassRef { class, meta: false });
        flush(keeper, arena, ClassRef { class, meta: true });
    }
}

// Takes the live array of a class reference away.
#[tactic(auto, using(crate::proofs::KeepLemmas::flushed_history, crate::proofs::ArrayLemmas::flushed_none, crate::proofs::ArrayLemmas::flushed_others))]
fn flush(keeper: &mut Keeper, arena: &Arena, class: ClassRef) -> bool
    requires arena { IsOf arena.now keeper.old }
    requires class { class.class < classes arena.now }
    ensures arena { IsOf arena.now keeper.new }
    ensures history { history keeper.new ≡ history keeper.old }
    ensures flushed { HasNoArray arena.now keeper.new class }
    ensures others { (c : ClassRef) → HasNoArray arena.now keeper.old c → HasNoArray arena.now keeper.new c }
{
    keeper.flush(arena, class)
}

/// The data behind a runtime lock.
#[derive(Drop)]
pub(crate) struct Desk {
    arena: Arc<Arena, Global>,
    keeper: Keeper,
    tables: Tables,
    turn: Turn,
    written: Written,
}

impl Model for Desk {
    ghost use Rattle.std.specs.Arc.{arc_value};
    ghost use Rattle.msg_cache.specs.Views.{ArenaView};

    ghost Value = { ArenaView };

    ghost use Rattle.std.specs.Coded.{codes};
    ghost use Rattle.atomic_table.specs.Seated.{table_id_coded};

    ghost coded = { Prim.hlevel (codes, table_id_coded) };

    ghost use Rattle.msg_dispatch_tests.specs.Together.{IsDesk};

    ghost view = { λ d. arc_value d.arena };

    ghost invariant = { λ d. IsDesk (arc_value d.arena) d.keeper d.tables d.turn };
}

impl Desk {
    fn at(
        rt: &impl Abort,
        alloc: Global,
        arena: Arena,
        mut keeper: Keeper,
        tables: Tables,
    ) -> Box<Desk>
        requires { Begin arena keeper tables }
    {
        let turn = keeper.turn(&arena).expect(rt, "the turn");
        let arena = Arc::new(alloc, arena).expect(rt, "memory");
        let desk = Desk {
            arena,
            keeper,
            tables,
            turn,
            written: Written::with_room(alloc, 1).expect(rt, "memory"),
        };
        Box::new(alloc, desk).expect(rt, "memory")
    }

    /// Whether there is a second turn.
    pub(crate) fn has_turn(&mut self) -> bool {
        self.keeper.turn(&self.arena).is_some()
    }

    pub(crate) fn give_out(&mut self, rt: &impl Abort, number: u32) -> Reader {
        let prober = self
            .keeper
            .give_out(&self.arena, number)
            .expect(rt, "a sender");
        Reader {
            arena: Arc::try_clone(&self.arena).expect(rt, "an owner more"),
            prober,
        }
    }

    /// Whether a sender of this number, which is then dropped, is given out.
    pub(crate) fn gives_out(&mut self, number: u32) -> bool {
        self.keeper.give_out(&self.arena, number).is_some()
    }

    /// What a sender with this number finds, which is then taken in.
    pub(crate) fn find_once(
        &mut self,
        rt: &impl Abort,
        number: u32,
        class: ClassRef,
        sel: Selector,
    ) -> Option<ImpRef>
        requires { class.class < 2 }
    {
        let mut prober = self
            .keeper
            .give_out(&self.arena, number)
            .expect(rt, "a sender");
        let found = prober.probe(&self.arena, class, sel);
        self.keeper.take_in(&self.arena, prober);
        found
    }

    /// Caches what the tables find.
    pub(crate) fn fill(&mut self, class: ClassRef, sel: Selector) -> Filled
        requires { class.class < 2 }
    {
        self.keeper.face(&self.arena, &mut self.turn);
        let imp = self.tables.lookup(class, sel);
        self.keeper.fill(&self.arena, class, sel, imp)
    }

    pub(crate) fn flush(&mut self, class: ClassRef) -> bool
        requires { class.class < 2 }
    {
        flush(&mut self.keeper, &self.arena, class)
    }

    pub(crate) fn collect(&mut self) -> u32 {
        self.keeper.collect(&self.arena)
    }

    /// Makes a change, after all caches were flushed.
    pub(crate) fn change(&mut self, rt: &impl Abort, change: &Change) -> u64 {
        self.keeper.face(&self.arena, &mut self.turn);
        self.tables
            .apply_all(&from_ref(change), &mut self.written)
            .expect(rt, "no fault");
        flush_all(&mut self.keeper, &self.arena);
        self.keeper.commit(&self.arena, &mut self.turn, change)
    }

    pub(crate) fn report(&self) -> Report {
        self.keeper.report()
    }
}

/// A sender that is one of the arena's owners.
#[derive(Drop)]
pub(crate) struct Reader {
    arena: Arc<Arena, Global>,
    prober: Prober,
    ghost of: { IsSenderOf (arc_value arena) prober },
    ghost two: { classes (arc_value arena) ≡ 2 },
}

impl Reader {
    pub(crate) fn find(&mut self, class: ClassRef, sel: Selector) -> Option<ImpRef>
        requires { class.class < 2 }
    {
        self.prober.probe(&self.arena, class, sel)
    }

    /// The same, with a call before each load.
    pub(crate) fn find_paused<P: Pause>(
        &mut self,
        class: ClassRef,
        sel: Selector,
        pause: &mut P,
    ) -> Option<ImpRef>
        requires { class.class < 2 }
    {
        self.prober.probe_paused(&self.arena, class, sel, pause)
    }

    pub(crate) fn published(&mut self) -> u64 {
        self.prober.published(&self.arena)
    }

    pub(crate) fn number(&self) -> u32 {
        self.prober.number()
    }

    pub(crate) fn loads(&self) -> u32 {
        self.prober.last_loads()
    }
}
