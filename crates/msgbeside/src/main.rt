//! Reads a document from standard input, makes its changes while its sends are answered, and writes
//! the answers to standard output: `msgbeside [workers [cut]]`.
#![tactic(auto)]

use msg_io::{FromReader, Program, ToWriter};
use msg_runner::run_program;
use std::process::ExitCode;

fn main(rt: HostRuntime) -> ExitCode {
    let mut source = FromReader::new(rt.stdin());
    let mut sink = ToWriter::new(rt.stdout());
    let mut errors = ToWriter::new(rt.stderr());
    let status = run_program(&rt, Program::Msgbeside, &mut source, &mut sink, &mut errors);
    ExitCode::from(status)
}
