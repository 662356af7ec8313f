//! Senders at once, each in a thread of its own.

use crate::bed::Sender;
use crate::load::Queries;
use std::alloc::{AllocError, Global};
use std::sync::{Barrier, Wait};
use std::thread::Threads;
use std::time::{Clock, Instant};
use std::{io, thread};

// A sender, and the query at which it begins.
#[derive(Drop)]
struct Runner<'a> {
    sender: Sender<'a>,
    first: usize,
    // the nanoseconds of each window so far, with room for all
    took: Vec<u64>,
}

impl Runner<'_> {
    // A window, which begins when all runners have come to it.
    fn window<R: Wait + Clock>(
        &mut self,
        rt: &R,
        barrier: &Barrier,
        queries: &Queries,
        probes: u64,
    ) -> io::Result<u64> {
        barrier.wait(rt);
        let begin = Instant::now(rt)?;
        self.sender.probe(queries, self.first, probes);
        let took = begin.elapsed(rt)?;
        Ok(
            took.as_secs()
                .wrapping_mul(1_000_000_000)
                .wrapping_add(u64::from(took.subsec_nanos())),
        )
    }
}

// All windows of a runner. One whose clock can't be read counts as the longest, so that no runner
// waits in vain.
fn run<'a, R: Wait + Clock>(
    rt: &R,
    runner: Runner<'a>,
    barrier: &Barrier,
    queries: &Queries,
    probes: u64,
    windows: u32,
) -> Result<Vec<u64>, AllocError> {
    let mut runner = runner;
    for _window in 0..windows {
        let took = runner
            .window(rt, barrier, queries, probes)
            .unwrap_or(u64::MAX);
        runner.took.push(took)?;
    }
    Ok(runner.took)
}

/// The nanoseconds of each sender in each window. Where a thread can't be started the senders wait
/// for it forever.
pub(crate) fn race<'a, R: Threads + Wait + Clock + Sync>(
    rt: &R,
    alloc: Global,
    senders: Vec<Sender<'a>>,
    queries: &Queries,
    probes: u64,
    windows: u32,
) -> Result<Vec<Result<Vec<u64>, AllocError>>, AllocError> {
    let barrier = Barrier::new(senders.len());
    let mut runners = Vec::new(alloc);
    let mut first = 0usize;
    for sender in senders {
        runners.push(Runner {
            sender,
            first,
            took: Vec::with_capacity(alloc, windows as usize)?,
        })?;
        first = first.wrapping_add(997);
    }
    thread::map_vec(
        rt,
        runners,
        &|runner| run(rt, runner, &barrier, queries, probes, windows),
    )
}
