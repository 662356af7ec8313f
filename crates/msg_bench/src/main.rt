//! How long probes that hit take: `msg_bench mono|mix PROBES [WAY | SENDERS WINDOWS]`.
//!
//! Without senders one thread makes so many probes, and the sum of the implementations that they
//! find is printed. A way is one of tables, probe, notes, recalled and refreshed: this number of
//! lookups are made in that way, by a sender of a dispatcher where it isn't tables. With them each
//! sender makes so many in each window, in a thread of its own, and its nanoseconds are printed for
//! each window, those of one sender after those of another.
#![tactic(auto)]

mod bed;
mod document;
mod draws;
mod load;
mod racing;
mod ways;

use crate::bed::{Bed, Sender};
use crate::load::{Load, Queries};
use crate::racing::race;
use crate::ways::{Way, sum_of};
use anyhow::{Context, Result};
use std::alloc::Global;
use std::sync::Wait;
use std::thread::Threads;
use std::time::Clock;
use std::{env, io};

// What is asked for.
#[derive(Drop)]
struct Task {
    load: Load,
    probes: u64,
    way: Option<Way>,
    race: Option<(u32, u32)>,
}

fn word<'a>(words: &'a [String], at: usize) -> Result<&'a str> {
    Ok(words.get(at).context("a word is missing")?.as_str())
}

// The task of these words, of which the first is the program's.
fn task_of(words: &[String]) -> Result<Task> {
    let load = Load::of(word(words, 1)?).context("the load is mono or mix")?;
    let probes = word(words, 2)?.parse::<u64>()?;
    let way = match words.get(3) {
        Some(word) => Way::of(word.as_str()),
        None => None,
    };
    let race = if words.len() > 4 {
        Some((
            word(words, 3)?.parse::<u32>()?,
            word(words, 4)?.parse::<u32>()?,
        ))
    } else {
        None
    };
    Ok(Task {
        load,
        probes,
        way,
        race,
    })
}

// A line for each window of a sender.
fn print_times(rt: &impl Print, times: &[u64]) -> Result<()> {
    for nanos in times {
        println!(rt; "{nanos}")?;
    }
    Ok(())
}

// The times of senders, each in a thread of its own.
fn print_race<R: Threads + Wait + Clock + Print + Sync>(
    rt: &R,
    alloc: Global,
    senders: Vec<Sender<'_>>,
    queries: &Queries,
    probes: u64,
    windows: u32,
) -> Result<()> {
    for times in race(rt, alloc, senders, queries, probes, windows)? {
        print_times(rt, &times?)?;
    }
    Ok(())
}

// What one thread finds.
fn print_sum(
    rt: &impl Print,
    sender: &mut Sender<'_>,
    queries: &Queries,
    probes: u64,
) -> Result<()> {
    let sum = sender.probe(queries, 0, probes);
    println!(rt; "{sum}")?;
    Ok(())
}

fn measure<R: Threads + Wait + Clock + Print + Sync>(
    rt: &R,
    alloc: Global,
    bed: &mut Bed<'_>,
    task: &Task,
) -> Result<()> {
    let queries = bed.prepare(alloc, task.load)?;
    if let Some((senders, windows)) = task.race {
        let senders = bed.senders(alloc, senders)?;
        return print_race(rt, alloc, senders, &queries, task.probes, windows);
    }
    let mut sender = bed.sender(0).context("no sender")?;
    print_sum(rt, &mut sender, &queries, task.probes)
}

fn perform<R: Threads + Wait + Clock + Print + Sync>(
    rt: &R,
    alloc: Global,
    task: &Task,
) -> Result<()> {
    if let Some(way) = task.way {
        let sum = sum_of(rt, alloc, task.load, way, task.probes)?;
        println!(rt; "{sum}")?;
        return Ok(());
    }
    let (arena, keeper, tables) = bed::open(alloc)?;
    let mut bed = Bed::at(&arena, keeper, tables)?;
    measure(rt, alloc, &mut bed, task)
}

fn main(rt: HostRuntime) -> Result<()> {
    let mut words = Vec::new(rt.alloc());
    for word in env::args(&rt)? {
        words.push(word)?;
    }
    perform(&rt, rt.alloc(), &task_of(&words)?)
}
