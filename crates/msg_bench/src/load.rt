//! What is cached, and in which order it is looked for.

ghost use Rattle.std.specs.Prelude.{◌≡◌, ◌<◌, ◌≤◌, length};

use crate::document::{CLASSES, SELECTORS};
use crate::draws::Draws;
use anyhow::{Context, Result};
use msg_names::{ClassRef, Selector};
use std::alloc::{AllocError, Global};

/// The number of classes with caches, and the number of selectors of each.
#[derive(Clone, Copy)]
pub(crate) enum Load {
    /// One class, which has one.
    Mono,
    /// All 32 classes, each of which has 24.
    Mix,
}

impl Load {
    pub(crate) fn of(word: &str) -> Option<Load> {
        match word {
            "mono" => Some(Load::Mono),
            "mix" => Some(Load::Mix),
            _ => None,
        }
    }

    fn classes(self) -> u32
        ensures { (0 < result) × (result ≤ 32) }
    {
        match self {
            Load::Mono => 1,
            Load::Mix => CLASSES,
        }
    }

    fn per_class(self) -> u32
        ensures { (0 < result) × (result ≤ 24) }
    {
        match self {
            Load::Mono => 1,
            Load::Mix => 24,
        }
    }
}

/// What a probe looks for.
#[derive(Clone, Copy)]
pub(crate) struct Query {
    pub(crate) class: ClassRef,
    pub(crate) sel: Selector,
    pub ghost listed: { class.class < 32 },
}

// The entries, those of one class after those of another.
fn entries(alloc: Global, draws: &mut Draws, load: Load) -> Result<Vec<Query>, AllocError> {
    let mut entries = Vec::new(alloc);
    for class in 0..load.classes() {
        let class = ClassRef { class, meta: false };
        for sel in draw_selectors(alloc, draws, load.per_class())? {
            entries.push(Query { class, sel })?;
        }
    }
    Ok(entries)
}

// This number of selectors, of which no two are one, where a thousand draws give so many. After
// each one number is drawn and left, where the other program draws an implementation.
fn draw_selectors(
    alloc: Global,
    draws: &mut Draws,
    count: u32,
) -> Result<Vec<Selector>, AllocError> {
    let mut selectors = Vec::new(alloc);
    for _draw in 0..1000 {
        if selectors.len() >= count as usize {
            break;
        }
        if let Some(sel) = Selector::of(1 + draws.below(SELECTORS)) {
            if !selectors.contains(&sel) {
                selectors.push(sel)?;
                draws.draw();
            }
        }
    }
    Ok(selectors)
}

/// The entries of a load, and queries that are drawn from them.
pub(crate) fn drawn(alloc: Global, load: Load) -> Result<(Vec<Query>, Queries)> {
    let mut draws = Draws::new();
    let entries = entries(alloc, &mut draws, load)?;
    let queries = Queries::draw(alloc, &mut draws, load, &entries)?.context("an entry is missing")?;
    Ok((entries, queries))
}

/// The number of queries, before they come again.
pub(crate) const QUERY_COUNT: usize = 4096;

/// Queries, in the order in which they are sought.
#[derive(Drop)]
pub(crate) struct Queries {
    list: Vec<Query>,
    pub ghost full: { length list.items ≡ 4096 },
}

impl Queries {
    // Queries that are drawn from the entries.
    fn draw(
        alloc: Global,
        draws: &mut Draws,
        load: Load,
        entries: &[Query],
    ) -> Result<Option<Queries>, AllocError> {
        let mut list = Vec::with_capacity(alloc, QUERY_COUNT)?;
        for _query in 0..QUERY_COUNT {
            let class = draws.below(load.classes());
            let place = draws.below(load.per_class());
            if let Some(entry) = entries.get((class * load.per_class() + place) as usize) {
                list.push(*entry)?;
            }
        }
        if list.len() != QUERY_COUNT {
            return Ok(None);
        }
        Ok(Some(Queries { list }))
    }

    /// The query of this number. After the last one they come again.
    #[inline(always)]
    pub(crate) fn at(&self, number: usize) -> Query {
        self.list[number % QUERY_COUNT]
    }

    /// All of them, at hand for a loop: their place is loaded once.
    #[inline(always)]
    pub(crate) fn all(&self) -> &[Query]
        ensures { length result.now ≡ 4096 }
    {
        &self.list
    }
}
