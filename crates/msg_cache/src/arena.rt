//! The arena: the words of all caches, which threads share.

ghost use Rattle.std.specs.Prelude.{◌≡◌, IfErr, ◌+◌, ◌*◌, ◌^◌, ◌<◌, ◌≤◌, All, IfOk, length, replicate};
ghost use Rattle.msg_address.specs.Address.{IsNotNull};
ghost use Rattle.msg_buckets.specs.Capacity.{IsCapacity};
ghost use Rattle.msg_model.specs.State.{capacity};
ghost use Rattle.msg_cache.specs.Config.{IsLeastUnlessMemory, NoneHoldsIfMemory};
ghost use Rattle.msg_cache.specs.Keeping.{AreGroups, IsGroup};
ghost use Rattle.msg_cache.specs.Layout.{layout_of, setting_for, total, base as base_of, probes as probes_of, stamp_at, probe_at, word_count};
ghost use Rattle.msg_cache.specs.Plays.{kept};
ghost use Rattle.msg_cache.specs.Rule.{first_keeper};
ghost use Rattle.msg_cache.specs.Views.{classes, layout};

use crate::config::{ArenaFault, Config, capacities_of, firsts_of};
use crate::keeper::Keeper;
use crate::rule::Rule;
use crate::setting::Setting;
use crate::steps::{Seat, Words};
use crate::view::View;
use atomic_table::Table;
use msg_address::address_of;
use msg_names::ClassRef;
use msg_tables::{HasOrigin, MOST_SENDERS, Origin};
use std::alloc::{AllocError, Global};
use std::marker::Model;
use std::snapshot::Snapshot;

// The place where the words of an array begin, and their number.
#[derive(Clone, Copy)]
struct Span {
    base: u32,
    capacity: u32,
}

/// The words of the caches of an origin.
#[derive(Drop)]
pub struct Arena {
    table: Table<u8, View, Setting, Rule, Global>,
    spans: Vec<Span>,
    // the number of the first array of each capacity, and the number of its arrays
    firsts: [usize; 10],
    senders: u32,
    stamps: usize,
    probes: usize,
}

impl Model for Arena {
    ghost use Rattle.msg_cache.specs.Views.{ArenaView};

    ghost Value = { ArenaView };

    ghost use Rattle.std.specs.Coded.{codes};
    ghost use Rattle.atomic_table.specs.Seated.{table_id_coded};

    ghost coded = { Prim.hlevel (codes, table_id_coded) };

    ghost use Rattle.msg_cache.specs.Inside.{arena_view, IsArena};

    ghost view = { arena_view };

    ghost invariant = { IsArena };
}

impl Arena {
    ghost use Rattle.msg_cache.specs.Ours.{AreOpened};

    /// Makes an arena of classes, with no live array, and its keeper at their empty history.
    pub fn open<C: HasOrigin>(
        alloc: Global,
        classes: &C,
        config: Config,
    ) -> Result<(Arena, Keeper), ArenaFault>
        ensures ok { IfOk result (λ r. AreOpened (C.given classes.now) config r.0 r.1) }
        ensures fault { IfErr result (IsLeastUnlessMemory (C.given classes.now) config) }
        ensures memory { IfErr result (NoneHoldsIfMemory (C.given classes.now) config) }
    {
        Arena::made(alloc, classes.origin(), config)
    }

    fn made(alloc: Global, origin: &Origin, config: Config) -> Result<(Arena, Keeper), ArenaFault>
        ensures ok { IfOk result (λ r. AreOpened origin.now config r.0 r.1) }
        ensures fault { IfErr result (IsLeastUnlessMemory origin.now config) }
        ensures memory { IfErr result (NoneHoldsIfMemory origin.now config) }
    {
        if let Some(fault) = config.refusal(origin) {
            return Err(fault);
        }
        let classes = origin.class_count() as usize;
        let capacities = capacities_of(alloc, &config.arrays)?;
        let (arena, seat, words) = Arena::of(
            alloc,
            origin,
            config.senders,
            capacities,
            firsts_of(&config.arrays),
        )?;
        let senders = config.senders as usize;
        let arrays = arena.arrays();
        let keeper = Keeper::first(alloc, seat, words, arrays, classes, senders)?;
        Ok((arena, keeper))
    }

    // The words, which threads share.
    #[inline(always)]
    pub(crate) fn shared(&self) -> &Words
        ensures table { result.now.table_id ≡ self.now.table }
        ensures key { result.now.key ≡ self.now.key }
        ensures count { self.now.table.words ≡ word_count (layout_of self.now.key) }
        ensures few { self.now.table.words < 2 ^ 32 }
        ensures capacities { All IsCapacity self.now.key.capacities }
        ensures senders { self.now.key.senders ≤ MOST_SENDERS }
    {
        &self.table.shared
    }

    // The number of arrays.
    pub(crate) fn arrays(&self) -> usize
        ensures count { result ≡ length self.now.key.capacities }
        ensures few { result < 2 ^ 32 }
    {
        self.spans.len()
    }

    /// The most senders that there may be.
    #[inline(always)]
    pub fn senders(&self) -> u32
        ensures senders { result ≡ self.now.key.senders }
        ensures few { result ≤ MOST_SENDERS }
    {
        self.senders
    }

    // Where the words of an array begin.
    #[inline(always)]
    pub(crate) fn base(&self, array: usize) -> usize
        requires { array < length self.now.key.capacities }
        ensures base { result ≡ base_of (layout_of self.now.key) array }
        ensures few { let z = layout self.now in base_of z array + capacity z array < 2 ^ 32 }
    {
        self.spans[array].base as usize
    }

    // The number of an array's words.
    #[inline(always)]
    pub(crate) fn capacity(&self, array: usize) -> u32
        requires { array < length self.now.key.capacities }
        ensures capacity { result ≡ capacity (layout_of self.now.key) array }
        ensures listed { IsCapacity result }
    {
        self.spans[array].capacity
    }

    // The arrays of a capacity, whose numbers are consecutive.
    pub(crate) fn group(&self, capacity: u32) -> (usize, usize)
        requires { IsCapacity capacity }
        ensures { IsGroup self.now.key.capacities capacity result.0 result.1 }
    {
        let at = capacity.trailing_zeros() as usize - 2;
        (self.firsts[at], self.firsts[at + 1])
    }

    // The number of classes.
    pub(crate) fn classes(&self) -> u32
        ensures { result ≡ classes self.now }
    {
        (self.probes - self.stamps) as u32 / 2
    }

    /// The distance in bytes from the first word to the stamp of a class reference. The words lie
    /// in one block.
    #[inline(always)]
    pub fn stamp_offset(&self, class: ClassRef) -> u64
        requires { class.class < classes self.now }
        ensures { result ≡ 8 * stamp_at (layout self.now) class }
    {
        8 * self.stamp_at(class) as u64
    }

    /// The address of the first word, for a host that loads one of the words itself. The words stay
    /// in place as long as the arena exists.
    pub fn words(&self) -> *const u64
        ensures { IsNotNull result }
    {
        address_of(&self.table.shared)
    }

    // The place of the stamp of a class reference.
    #[inline(always)]
    pub(crate) fn stamp_at(&self, class: ClassRef) -> usize
        requires { class.class < classes self.now }
        ensures place { result ≡ stamp_at (layout_of self.now.key) class }
        ensures within { result < probes_of (layout_of self.now.key) }
        ensures few { probes_of (layout_of self.now.key) ≤ self.now.table.words }
        ensures short { self.now.table.words < 2 ^ 32 }
    {
        self.stamps + class.slot()
    }

    // The place of a sender's probe word.
    #[inline(always)]
    pub(crate) fn probe_at(&self, number: u32) -> usize
        requires { number < self.now.key.senders }
        ensures place { result ≡ probe_at (layout_of self.now.key) number }
        ensures within { result < self.now.table.words }
    {
        self.probes + 8 * number as usize + 7
    }

    // Makes an arena of these arrays, all empty, the seat of its keeper, and the keeper's copy of
    // all words but the probe words.
    pub(crate) fn of(
        alloc: Global,
        origin: &Origin,
        senders: u32,
        capacities: Vec<u32>,
        firsts: [usize; 10],
    ) -> Result<(Arena, Seat, Vec<u64>), AllocError>
        requires senders { (0 < senders) × (senders ≤ MOST_SENDERS) }
        requires capacities { All IsCapacity capacities.items }
        requires firsts { AreGroups capacities.items firsts }
        requires room { total capacities.items < 2 ^ 29 }
        ensures table { IfOk result (λ r. r.1.table_id ≡ r.0.table) }
        ensures seat { IfOk result (λ r. r.1.me ≡ kept (first_keeper r.0.key)) }
        ensures key { IfOk result (λ r. r.0.key ≡ setting_for origin.now senders capacities.items) }
        ensures words { IfOk result (λ r. r.2.items ≡ replicate (probes_of (layout_of r.0.key)) 0) }
    {
        let setting = Setting {
            origin: Snapshot::of(origin),
            senders,
            capacities: Snapshot::of(&capacities),
        };
        let mut spans = Vec::new(alloc);
        let mut probes = 1 + 2 * origin.class_count() as usize;
        for capacity in &capacities {
            spans.push(Span {
                base: probes as u32,
                capacity: *capacity,
            })?;
            probes += *capacity as usize;
        }
        // 8 words before the stamps and 8 before the probe words stay unused, so that no line of 64
        // bytes has words of two of these kinds
        let stamps = probes + 8;
        let probes = stamps + 2 * origin.class_count() as usize;
        let count = probes + 8 * senders as usize;
        let mut words = vec![in alloc; 0u64; count]?;
        let (table, seat) = Table::of_words(alloc, &words, &setting)?;
        words.truncate(probes);
        let arena = Arena {
            table,
            spans,
            firsts,
            senders,
            stamps,
            probes,
        };
        Ok((arena, seat, words))
    }
}
