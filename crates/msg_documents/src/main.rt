//! Runs the documents of the folder that it is started in, and says of each whether its answers are
//! as they should be.
//!
//! In `examples` and `answers` a document `NAME.json` is beside `NAME.out`, which is what a run of
//! it writes, for each number of workers and each cut. In `edits` each `NAME.edits` has edits of
//! the documents there, and the fault that the edited document is refused with. Each text is also
//! read by `serde_json`, which has to make the same for it.
#![tactic(auto)]

mod edits;

use edits::Edits;
use msg_io::{FromReader, RunFault, ToWriter};
use msg_runner::{OpenGate, run};
use msg_samples::{Readings, read_by_both};
use std::alloc::Global;
use std::sync::Wait;
use std::thread::{self, Threads};
use std::{fs, io};

/// The number of workers, and how many sends a piece has at most.
const SPLITS: [(u32, u32); 10] = [
    (1, 64),
    (1, 1),
    (1, 2),
    (2, 1),
    (2, 2),
    (2, 64),
    (3, 2),
    (64, 1),
    (64, 2),
    (64, 64),
];

/// What a run of the document writes, and how it ends.
fn run_of<T: Threads + Wait + Sync>(
    rt: &T,
    alloc: Global,
    document: &[u8],
    workers: u32,
    cut: u32,
) -> (Vec<u8>, Result<(), RunFault>) {
    let mut source = FromReader::new(document);
    let mut sink = ToWriter::new(Vec::new(alloc));
    let ended = run(rt, alloc, &mut source, &mut sink, workers, cut, &OpenGate);
    let ToWriter { writer, .. } = sink;
    (writer, ended)
}

// The names of the files of a folder that end so, without that end, in order.
fn names(rt: &HostRuntime, folder: &str, end: &str) -> io::Result<Vec<String>> {
    let mut names = Vec::new(rt.alloc());
    for entry in fs::read_dir(rt, folder)? {
        let entry = entry?;
        if let Some(name) = entry.file_name().strip_suffix(end) {
            names.push(name.to_string(rt.alloc())?)?;
        }
    }
    names.sort_unstable();
    Ok(names)
}

fn read(rt: &HostRuntime, folder: &str, name: &str, end: &str) -> io::Result<String> {
    let path = format!(in rt.alloc(); "{folder}/{name}{end}")?;
    fs::read_to_string(rt, path.as_str())
}

// Whether the document is read as serde_json reads it, and each run of it writes the text, and
// nothing else.
fn is_answered<T: Threads + Wait + Sync>(
    rt: &T,
    alloc: Global,
    document: &str,
    text: &str,
) -> bool {
    if read_by_both(alloc, document.as_bytes()) != Readings::Same {
        return false;
    }
    for (workers, cut) in SPLITS {
        let (written, ended) = run_of(rt, alloc, document.as_bytes(), workers, cut);
        if ended.is_err() || written.as_slice() != text.as_bytes() {
            return false;
        }
    }
    true
}

// The same in two threads at once, each with the stack that a thread has by default.
fn is_answered_in_threads<T: Threads + Wait + Sync>(
    threads: &T,
    alloc: Global,
    document: &str,
    text: &str,
) -> bool {
    let (one, other) = thread::join(
        threads,
        || is_answered(threads, alloc, document, text),
        || is_answered(threads, alloc, document, text),
    );
    one && other
}

fn try_answers<T: Threads + Wait + Sync>(
    rt: &HostRuntime,
    threads: &T,
    folder: &str,
) -> io::Result<()> {
    for name in names(rt, folder, ".json")? {
        let document = read(rt, folder, name.as_str(), ".json")?;
        let text = read(rt, folder, name.as_str(), ".out")?;
        let is_answered = is_answered_in_threads(
            threads,
            rt.alloc(),
            document.as_str(),
            text.as_str(),
        );
        let answer = if is_answered {
            "as expected"
        } else {
            "otherwise"
        };
        println!(rt; "{folder}/{name}: {answer}")?;
    }
    Ok(())
}

fn try_edits<T: Threads + Wait + Sync>(
    rt: &HostRuntime,
    threads: &T,
    folder: &str,
) -> io::Result<()> {
    for name in names(rt, folder, ".edits")? {
        let lines = read(rt, folder, name.as_str(), ".edits")?;
        let mut edits = Edits::new(rt.alloc());
        for line in lines.as_str().lines() {
            edits.take(rt, threads, folder, line)?;
        }
        println!(rt; "{folder}/{name}: {} as expected", edits.expected)?;
    }
    Ok(())
}

fn main(rt: HostRuntime) -> io::Result<()> {
    try_answers(&rt, &rt, "examples")?;
    try_answers(&rt, &rt, "answers")?;
    try_edits(&rt, &rt, "edits")
}
