//! The versions at which lookups are answered, and the explanation by these versions.

use crate::runs::document;
use crate::same::same;
use msg_image::read_document;
use msg_reasons::explain_beside;
use msg_runner::{Changes, Gate, answer_document};
use std::alloc::Global;
use std::process::Abort;
use std::str;
use std::sync::{Mutex, Wait};
use std::thread::Threads;

// A gate that records the versions with which it is called.
#[derive(Drop)]
struct Watching<'r, R: Wait> {
    rt: &'r R,
    versions: Mutex<Vec<u64>>,
}

impl<R: Wait + Sync> Gate for Watching<'_, R> {
    fn piece_starts(&self, _worker: u32, _piece: u32) {}

    fn piece_done(&self, _worker: u32, _piece: u32) {}

    fn change_starts(&self, _change: u32) {}

    fn change_done(&self, _change: u32) {}

    fn is_watching(&self) -> bool {
        true
    }

    // A version that can't be recorded is missed when the versions are read.
    fn looked(&self, version: u64) {
        let _written = self.versions.lock(self.rt).push(version);
    }
}

// A run of one worker: its lines, the versions of its lookups, and what is explained by them.
#[derive(Drop)]
struct Watched {
    lines: Vec<u8>,
    versions: Vec<u64>,
    explained: Vec<u8>,
}

fn watch<R: Threads + Wait + Abort + Sync>(
    rt: &R,
    alloc: Global,
    text: &str,
    changes: Changes,
) -> Watched {
    let document = read_document(alloc, text.as_bytes()).expect(rt, "a document");
    let watching = Watching {
        rt,
        versions: Mutex::new(Vec::new(alloc)),
    };
    let lines = answer_document(rt, alloc, &watching, &document, changes, 1, 64);
    let Watching { versions, .. } = watching;
    let versions = versions.into_inner();
    let explained = explain_beside(alloc, &document, &versions);
    Watched {
        lines: lines.expect(rt, "memory"),
        versions,
        explained: explained.expect(rt, "memory"),
    }
}

// A change is refused, and a name is looked up in Child and then in Root.
const ITEMS: &str = r#"{"send":[["obj","g"],"value"]},
{"change":["add","Root",false,"value","r_name"]},{"send":[["obj","g"],"value"]},
{"change":["replace","Root",false,"value","r_name"]},{"send":[["obj","g"],"name"]}"#;

#[test]
fn each_lookup_is_told_with_its_version(rt: HostRuntime) {
    let text = document(&rt, rt.alloc(), ITEMS);
    let watched = watch(&rt, rt.alloc(), text.as_str(), Changes::Between);
    same(
        &rt,
        watched.lines.as_slice(),
        b"7\nrefused: method present\n7\nok\n11\n",
    );
    same(&rt, watched.versions.as_slice(), &[0u64, 0, 1, 1][..]);
}

// A send, and a change of what the next one finds.
const SEND_AND_CHANGE: &str = r#"{"send":[["obj","g"],"value"]},
{"change":["replace","Root",false,"value","r_name"]},{"send":[["obj","g"],"name"]},
{"change":["replace","Root",false,"value","r_value"]},"#;

// How often they come, and in how many runs.
const TIMES: usize = 60;

const RUNS: usize = 8;

fn many(rt: &impl Abort, alloc: Global) -> String {
    let mut items = String::new(alloc);
    for _time in 0..TIMES {
        items.push_str(SEND_AND_CHANGE).expect(rt, "memory");
    }
    items
        .push_str(r#"{"send":[["obj","c"],"value"]}"#)
        .expect(rt, "memory");
    document(rt, alloc, items.as_str())
}

// The lines of an explanation that are answers.
fn answers(rt: &impl Abort, alloc: Global, explanation: &[u8]) -> Vec<u8> {
    let mut lines = Vec::new(alloc);
    for line in str::from_utf8(explanation).expect(rt, "a text").lines() {
        if !line.starts_with("  ") {
            lines
                .extend_from_slice(line.as_bytes())
                .expect(rt, "memory");
            lines.push(b'\n').expect(rt, "memory");
        }
    }
    lines
}

#[test]
fn a_run_beside_changes_is_explained_by_its_versions(rt: HostRuntime) {
    let text = many(&rt, rt.alloc());
    for _run in 0..RUNS {
        let watched = watch(&rt, rt.alloc(), text.as_str(), Changes::Beside);
        let told = answers(&rt, rt.alloc(), &watched.explained);
        same(&rt, told.as_slice(), watched.lines.as_slice());
    }
}
