//! The ways to look a method up, each in a loop of its own.

ghost use Rattle.std.specs.Prelude.{◌≡◌, ◌<◌, length};
ghost use Rattle.msg_image.specs.Opened.{origin_of};
ghost use Rattle.msg_tables.specs.Origin.{class_total};
ghost use Rattle.msg_runtime.specs.Parts.{IsKeeperOf, keeper_history};
ghost use Rattle.msg_tables.specs.History.{empty};

use crate::document::image;
use crate::load::{Load, QUERY_COUNT, Queries, drawn};
use anyhow::{Context, Result, bail};
use msg_cache::{Arena, Config, Keeper};
use msg_dispatch::{ArenaName, CachingSender, Dispatcher, Sender};
use msg_image::Image;
use msg_tables::Tables;
use std::alloc::Global;
use std::marker::Brand;
use std::sync::Wait;

/// This number of lookups of queries in a way.
#[derive(Clone, Copy)]
struct Course<'q> {
    way: Way,
    queries: &'q Queries,
    lookups: u64,
}

/// A way to look a method up.
#[derive(Clone, Copy)]
pub(crate) enum Way {
    /// Along the chain, in the method lists.
    Tables,
    /// By a sender that probes the cache of the class.
    Probe,
    /// By a sender with notes of its own.
    Notes,
    /// The same, first by a call that can't wait.
    Recalled,
    /// The same, once it knows the number of changes.
    Refreshed,
}

impl Way {
    pub(crate) fn of(word: &str) -> Option<Way> {
        match word {
            "tables" => Some(Way::Tables),
            "probe" => Some(Way::Probe),
            "notes" => Some(Way::Notes),
            "recalled" => Some(Way::Recalled),
            "refreshed" => Some(Way::Refreshed),
            _ => None,
        }
    }
}

// Enough for all that is cached, with room to grow.
const ARRAYS: [u16; 9] = [32, 32, 32, 32, 0, 0, 0, 0, 0];

// A sender with notes, of an image of 32 classes.
#[derive(Drop)]
struct Noter<'d, N: ArenaName> {
    sender: CachingSender<'d, N>,
    ghost all: { class_total sender.sender.seen.front.origin ≡ 32 },
}

impl<N: ArenaName> Noter<'_, N> {
    fn find<R: Wait>(&mut self, rt: &R, queries: &Queries, lookups: u64) -> u64 {
        let all = queries.all();
        let mut sum = 0u64;
        for at in 0..lookups {
            let query = all[at as usize % QUERY_COUNT];
            let imp = self.sender.find(rt, query.class, query.sel);
            sum = sum.wrapping_add(u64::from(imp.number()));
        }
        sum
    }

    fn recall_or_find<R: Wait>(&mut self, rt: &R, queries: &Queries, lookups: u64) -> u64 {
        let all = queries.all();
        let mut sum = 0u64;
        for at in 0..lookups {
            let query = all[at as usize % QUERY_COUNT];
            let imp = match self.sender.recall(query.class, query.sel) {
                Some(imp) => imp,
                None => self.sender.find(rt, query.class, query.sel),
            };
            sum = sum.wrapping_add(u64::from(imp.number()));
        }
        sum
    }

    fn find_refreshed<R: Wait>(&mut self, rt: &R, queries: &Queries, lookups: u64) -> u64 {
        let all = queries.all();
        let mut sum = 0u64;
        for at in 0..lookups {
            let query = all[at as usize % QUERY_COUNT];
            self.sender.refresh();
            let imp = self.sender.find(rt, query.class, query.sel);
            sum = sum.wrapping_add(u64::from(imp.number()));
        }
        sum
    }
}

// A sender, of an image of 32 classes.
#[derive(Drop)]
struct Caller<'d, N: ArenaName> {
    sender: Sender<'d, N>,
    ghost all: { class_total sender.seen.front.origin ≡ 32 },
}

impl<N: ArenaName> Caller<'_, N> {
    fn find<R: Wait>(&mut self, rt: &R, queries: &Queries, lookups: u64) -> u64 {
        let all = queries.all();
        let mut sum = 0u64;
        for at in 0..lookups {
            let query = all[at as usize % QUERY_COUNT];
            let imp = self.sender.find(rt, query.class, query.sel);
            sum = sum.wrapping_add(u64::from(imp.number()));
        }
        sum
    }
}

// The sum of what this number of lookups find along the chain.
fn sum_by_tables(tables: &Tables, queries: &Queries, lookups: u64) -> u64
    requires { length tables.now.supers ≡ 32 }
{
    let all = queries.all();
    let mut sum = 0u64;
    for at in 0..lookups {
        let query = all[at as usize % QUERY_COUNT];
        sum = sum.wrapping_add(u64::from(tables.lookup(query.class, query.sel).number()));
    }
    sum
}

// The sum of what lookups by a sender find.
fn sum_by_sender<N: ArenaName, R: Wait>(
    rt: &R,
    alloc: Global,
    dispatcher: &Dispatcher<N>,
    course: Course<'_>,
) -> Result<u64>
    requires { class_total N.arena.key.origin ≡ 32 }
{
    let Course {
        way,
        queries,
        lookups,
    } = course;
    let sender = dispatcher.sender(rt)?;
    if let Way::Probe = way {
        let mut caller = Caller { sender };
        return Ok(caller.find(rt, queries, lookups));
    }
    let sender = CachingSender::new(alloc, sender).ok().context("notes")?;
    let mut noter = Noter { sender };
    Ok(match way {
        Way::Recalled => noter.recall_or_find(rt, queries, lookups),
        Way::Refreshed => noter.find_refreshed(rt, queries, lookups),
        _ => noter.find(rt, queries, lookups),
    })
}

// The same over an arena that was just opened.
fn sum_over<N: ArenaName, R: Wait>(
    rt: &R,
    alloc: Global,
    arena: Arena,
    keeper: Keeper,
    image: &Image,
    course: Course<'_>,
) -> Result<u64>
    requires arena { arena ≡ N.arena }
    requires keeper { IsKeeperOf N.arena keeper }
    requires image { origin_of image.now ≡ N.arena.key.origin }
    requires history { keeper_history keeper ≡ empty (origin_of image.now) }
    requires all { class_total (origin_of image.now) ≡ 32 }
{
    let dispatcher: Dispatcher<N> = Dispatcher::open(alloc, arena, keeper, image).context(
        "opening the dispatcher",
    )?;
    sum_by_sender(rt, alloc, &dispatcher, course)
}

// The sum of what this number of lookups along the chain find.
fn sum_along(alloc: Global, image: &Image, queries: &Queries, lookups: u64) -> Result<u64>
    requires { class_total (origin_of image.now) ≡ 32 }
{
    let tables = Tables::open(alloc, image).context("opening the tables")?;
    Ok(sum_by_tables(&tables, queries, lookups))
}

// The sum of what lookups by a sender find.
fn sum_in<R: Wait>(rt: &R, alloc: Global, image: &Image, course: Course<'_>) -> Result<u64>
    requires { class_total (origin_of image.now) ≡ 32 }
{
    let config = Config {
        senders: 1,
        arrays: ARRAYS,
    };
    let (arena, keeper) = Arena::open(alloc, image, config).context("opening the arena")?;
    sum_over::<Brand, R>(rt, alloc, arena, keeper, image, course)
}

// The sum of what lookups of an image find.
fn sum_of_image<R: Wait>(rt: &R, alloc: Global, image: &Image, course: Course<'_>) -> Result<u64> {
    if image.class_count() != 32 {
        bail!("not 32 classes");
    }
    match course.way {
        Way::Tables => sum_along(alloc, image, course.queries, course.lookups),
        _ => sum_in(rt, alloc, image, course),
    }
}

/// The sum of what this number of lookups of a load find in a way.
pub(crate) fn sum_of<R: Wait>(
    rt: &R,
    alloc: Global,
    load: Load,
    way: Way,
    lookups: u64,
) -> Result<u64> {
    let image = image(alloc)?;
    let queries = drawn(alloc, load)?.1;
    let course = Course {
        way,
        queries: &queries,
        lookups,
    };
    sum_of_image(rt, alloc, &image, course)
}
