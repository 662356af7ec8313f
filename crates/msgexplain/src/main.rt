//! Reads a document from standard input, and writes where its fault is, if it is refused, or which
//! lookups are behind its answers: `msgexplain [beside]`.
#![tactic(auto)]

use msg_explain::explain_program;
use msg_io::{FromReader, ToWriter};
use std::process::ExitCode;

fn main(rt: HostRuntime) -> ExitCode {
    let mut source = FromReader::new(rt.stdin());
    let mut sink = ToWriter::new(rt.stdout());
    let mut errors = ToWriter::new(rt.stderr());
    let status = explain_program(&rt, &mut source, &mut sink, &mut errors);
    ExitCode::from(status)
}
