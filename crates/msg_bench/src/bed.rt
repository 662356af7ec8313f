//! An arena of caches that are filled from class tables, and its senders.

ghost use Rattle.std.specs.Prelude.{◌≡◌, ◌<◌, IfOk};
ghost use Rattle.msg_image.specs.Opened.{origin_of};
ghost use Rattle.msg_tables.specs.Origin.{class_total};
ghost use Rattle.msg_cache.specs.Views.{classes, IsSenderOf};
ghost use Rattle.msg_bench.specs.Together.{Begin};

use crate::document::image;
use crate::load::{Load, Queries, Query, drawn};
use anyhow::{Context, Result, bail};
use msg_cache::{Arena, Config, Keeper, Prober, Turn};
use msg_image::Image;
use msg_tables::Tables;
use std::alloc::{AllocError, Global};
use std::marker::Model;

// This number of arrays of 4, 8, 16, .. words. What a class grows out of is free for the next one.
const ARRAYS: [u16; 9] = [1, 1, 1, 32, 0, 0, 0, 0, 0];

/// An arena for 64 senders, its keeper, and tables at the same history.
pub(crate) fn open(alloc: Global) -> Result<(Arena, Keeper, Tables)>
    ensures { IfOk result (λ r. Begin r.0 r.1 r.2) }
{
    let image = image(alloc)?;
    if image.class_count() != 32 {
        bail!("not 32 classes");
    }
    let config = Config {
        senders: 64,
        arrays: ARRAYS,
    };
    opened(alloc, &image, config)
}

// The same for an image of 32 classes.
fn opened(alloc: Global, image: &Image, config: Config) -> Result<(Arena, Keeper, Tables)>
    requires { class_total (origin_of image.now) ≡ 32 }
    ensures { IfOk result (λ r. Begin r.0 r.1 r.2) }
{
    let tables = Tables::open(alloc, image)?;
    let (arena, keeper) = Arena::open(alloc, image, config)?;
    Ok((arena, keeper, tables))
}

/// The keeper of an arena of 32 classes, and tables at its history.
#[derive(Drop)]
pub(crate) struct Bed<'a> {
    arena: &'a Arena,
    keeper: Keeper,
    tables: Tables,
    turn: Turn,
}

impl<'a> Model for Bed<'a> {
    ghost use Rattle.msg_cache.specs.Views.{ArenaView};

    ghost Value = { ArenaView };

    ghost use Rattle.std.specs.Coded.{codes};
    ghost use Rattle.atomic_table.specs.Seated.{table_id_coded};

    ghost coded = { Prim.hlevel (codes, table_id_coded) };

    ghost use Rattle.msg_bench.specs.Together.{IsBed};

    ghost view = { λ b. b.arena.now };

    ghost invariant = { λ b. IsBed b.arena.now b.keeper b.tables b.turn };
}

impl<'a> Bed<'a> {
    pub(crate) fn at(arena: &'a Arena, mut keeper: Keeper, tables: Tables) -> Result<Bed<'a>>
        requires { Begin arena.now keeper tables }
    {
        let turn = keeper.turn(arena).context("no turn")?;
        Ok(Bed {
            arena,
            keeper,
            tables,
            turn,
        })
    }

    // Caches what the tables find.
    fn fill(&mut self, query: Query) {
        self.keeper.face(self.arena, &mut self.turn);
        let imp = self.tables.lookup(query.class, query.sel);
        self.keeper.fill(self.arena, query.class, query.sel, imp);
    }

    /// Caches the entries of a load, and gives queries for them.
    pub(crate) fn prepare(&mut self, alloc: Global, load: Load) -> Result<Queries> {
        let (entries, queries) = drawn(alloc, load)?;
        // An array that a cache grows into has one entry, so what was cached before is cached
        // again.
        for _time in 0..2 {
            self.fill_all(&entries);
        }
        Ok(queries)
    }

    fn fill_all(&mut self, entries: &[Query]) {
        for entry in entries {
            self.fill(*entry);
        }
    }

    pub(crate) fn sender(&mut self, number: u32) -> Option<Sender<'a>> {
        let prober = self.keeper.give_out(self.arena, number)?;
        Some(Sender {
            arena: self.arena,
            prober,
        })
    }

    /// The first senders, if there are as many.
    pub(crate) fn senders(
        &mut self,
        alloc: Global,
        count: u32,
    ) -> Result<Vec<Sender<'a>>, AllocError> {
        let mut senders = Vec::new(alloc);
        for number in 0..count {
            if let Some(sender) = self.sender(number) {
                senders.push(sender)?;
            }
        }
        Ok(senders)
    }
}

/// A sender.
#[derive(Drop)]
pub(crate) struct Sender<'a> {
    arena: &'a Arena,
    prober: Prober,
    ghost of: { IsSenderOf arena.now prober },
    ghost all: { classes arena.now ≡ 32 },
}

impl Sender<'_> {
    /// Makes this number of probes, from one query on, and adds up the implementations that are
    /// found.
    pub(crate) fn probe(&mut self, queries: &Queries, first: usize, probes: u64) -> u64 {
        let mut sum = 0u64;
        let mut at = first;
        for _probe in 0..probes {
            let query = queries.at(at);
            if let Some(imp) = self.prober.probe(self.arena, query.class, query.sel) {
                sum = sum.wrapping_add(u64::from(imp.number()));
            }
            at = at.wrapping_add(1);
        }
        sum
    }
}
