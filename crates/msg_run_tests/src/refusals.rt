//! Runs that end before they read, or with nothing to read.

use crate::runs::{Way, ran};
use crate::same::same_at;
use msg_form::DocumentFault;
use msg_io::RunFault;
use msg_runner::OpenGate;
use msg_samples::SMALL;
use std::alloc::Global;
use std::process::Abort;
use std::sync::Wait;
use std::thread::Threads;

// A run ends so, and has written these lines.
fn run_is<R: Threads + Wait + Abort + Sync>(
    rt: &R,
    alloc: Global,
    text: &str,
    (workers, cut): (u32, u32),
    want: Option<RunFault>,
    lines: &str,
) {
    let ended = ran(rt, alloc, Way::Between, text, workers, cut, &OpenGate);
    same_at(rt, &(text, workers, cut), ended.fault, want);
    same_at(
        rt,
        &(text, workers, cut),
        ended.text.as_slice(),
        lines.as_bytes(),
    );
}

const REFUSALS: [(&str, u32, u32, Option<RunFault>, &str); 12] = [
    (SMALL, 0, 64, Some(RunFault::Workers), ""),
    (SMALL, 65, 64, Some(RunFault::Workers), ""),
    (SMALL, 4294967295, 64, Some(RunFault::Workers), ""),
    // workers are judged before the cut
    (SMALL, 0, 0, Some(RunFault::Workers), ""),
    (SMALL, 1, 0, Some(RunFault::Cut), ""),
    (SMALL, 64, 0, Some(RunFault::Cut), ""),
    (SMALL, 64, 4294967295, None, "7\n"),
    // and both before the document
    ("", 0, 1, Some(RunFault::Workers), ""),
    ("", 1, 0, Some(RunFault::Cut), ""),
    (
        "",
        1,
        64,
        Some(RunFault::Document(DocumentFault::NotJson)),
        "",
    ),
    (
        r#"{"version":1"#,
        3,
        1,
        Some(RunFault::Document(DocumentFault::NotJson)),
        "",
    ),
    (
        "{}",
        64,
        64,
        Some(RunFault::Document(DocumentFault::Shape)),
        "",
    ),
];

// The document with this number of spaces after it.
fn with_spaces(rt: &impl Abort, alloc: Global, spaces: usize) -> String {
    let spaces = " ".repeat(alloc, spaces).expect(rt, "memory");
    format!(in alloc; "{SMALL}{spaces}").expect(rt, "memory")
}

#[test]
fn a_document_of_16777216_bytes_is_answered(rt: HostRuntime) {
    let room = 16_777_216_usize.saturating_sub(SMALL.len());
    let limit = Some(RunFault::Document(DocumentFault::Limit));
    for (more, want, lines) in [(0, None, "7\n"), (1, limit, "")] {
        let text = with_spaces(&rt, rt.alloc(), room.saturating_add(more));
        let ended = ran(&rt, rt.alloc(), Way::Between, &text, 1, 64, &OpenGate);
        same_at(&rt, &more, ended.fault, want);
        same_at(&rt, &more, ended.text.as_slice(), lines.as_bytes());
    }
}

#[test]
fn workers_cuts_and_texts_that_are_refused(rt: HostRuntime) {
    for (text, workers, cut, want, lines) in REFUSALS {
        run_is(&rt, rt.alloc(), text, (workers, cut), want, lines);
    }
}
