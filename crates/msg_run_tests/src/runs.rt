//! Documents, and what a run of one writes.

use crate::same::same;
use msg_io::{FromReader, RunFault, ToWriter};
use msg_runner::{Gate, run, run_beside};
use std::alloc::Global;
use std::process::Abort;
use std::sync::Wait;
use std::thread::Threads;

/// Four classes. `value` is 7 and `name` is 1 in all of them, but for `name` of the class `Child`
/// and below it; `r_name`, which can be set for `value`, is 1.
const CLASSES: &str = r#"{"version":1,"classes":[
{"name":"Root","super":null,"methods":[["value","r_value"],["name","r_name"]],"class_methods":[]},
{"name":"Child","super":"Root","methods":[["name","c_name"]],"class_methods":[]},
{"name":"Grand","super":"Child","methods":[],"class_methods":[]},
{"name":"Side","super":"Root","methods":[],"class_methods":[]}],
"categories":[],"objects":[{"name":"c","class":"Child"},{"name":"g","class":"Grand"},{"name":"s","class":"Side"}],
"imps":[
{"name":"r_value","class":"Root","meta":false,"args":0,"body":7},
{"name":"r_name","class":"Root","meta":false,"args":0,"body":1},
{"name":"c_name","class":"Child","meta":false,"args":0,"body":["add",10,["super","name"]]}],
"items":["#;

/// The document of these classes with these items.
pub(crate) fn document(rt: &impl Abort, alloc: Global, items: &str) -> String {
    format!(in alloc; "{CLASSES}{items}]}}").expect(rt, "memory")
}

/// Which of the two runs.
#[derive(Clone, Copy, Debug, PartialEq, Eq)]
pub(crate) enum Way {
    Between,
    Beside,
}

/// How a run ended, and what it wrote.
#[derive(Drop)]
pub(crate) struct Outcome {
    pub(crate) fault: Option<RunFault>,
    pub(crate) text: Vec<u8>,
}

/// Runs a document from memory to memory.
pub(crate) fn ran<G: Gate, T: Threads + Wait + Sync>(
    rt: &T,
    alloc: Global,
    way: Way,
    document: &str,
    workers: u32,
    cut: u32,
    gate: &G,
) -> Outcome {
    let mut source = FromReader::new(document.as_bytes());
    let mut sink = ToWriter::new(Vec::new(alloc));
    let ended = match way {
        Way::Between => run(rt, alloc, &mut source, &mut sink, workers, cut, gate),
        Way::Beside => run_beside(rt, alloc, &mut source, &mut sink, workers, cut, gate),
    };
    let ToWriter { writer, .. } = sink;
    Outcome {
        fault: ended.err(),
        text: writer,
    }
}

/// The run was not refused, and its lines are these.
pub(crate) fn wrote(rt: &impl Abort, outcome: &Outcome, lines: &str) {
    same(rt, outcome.fault, None);
    same(rt, outcome.text.as_slice(), lines.as_bytes());
}
