//! Devices that fail, or move few bytes at a call.

ghost use Rattle.std.specs.Prelude.{◌≡◌, false};

use crate::runs::Way;
use crate::same::{same, same_at};
use msg_io::{Failed, FromReader, RunFault, Sink, Source, ToWriter};
use msg_runner::{OpenGate, run, run_beside};
use msg_samples::SMALL;
use std::alloc::Global;
use std::io::{self, ErrorKind, Read, Write};
use std::process::Abort;
use std::sync::Wait;
use std::thread::Threads;

const WAYS: [Way; 2] = [Way::Between, Way::Beside];

fn fault_of<R: Source, W: Sink, T: Threads + Wait + Sync>(
    rt: &T,
    alloc: Global,
    way: Way,
    source: &mut R,
    sink: &mut W,
) -> Option<RunFault>
    requires unread { R.mark source.old ≡ false }
    requires unwritten { W.mark sink.old ≡ false }
{
    let ended = match way {
        Way::Between => run(rt, alloc, source, sink, 1, 64, &OpenGate),
        Way::Beside => run_beside(rt, alloc, source, sink, 1, 64, &OpenGate),
    };
    ended.err()
}

/// A reader that gives at most this number of bytes at a call, fails at one call, and then goes on.
#[derive(Drop)]
struct Unsteady<'a> {
    rest: &'a [u8],
    step: usize,
    calls_left: u32,
}

impl Read for Unsteady<'_> {
    fn read(&mut self, buf: &mut [u8]) -> io::Result<usize> {
        if self.calls_left == 1 {
            self.calls_left = 0;
            return Err(io::Error::from(ErrorKind::Interrupted));
        }
        self.calls_left = self.calls_left.saturating_sub(1);
        let count = buf.len().min(self.step);
        self.rest.read(&mut buf[..count])
    }
}

/// A writer that takes at most this number of bytes at a call, fails at one call, and then goes on.
#[derive(Drop)]
struct Slow {
    taken: Vec<u8>,
    step: usize,
    calls_left: u32,
}

impl Write for Slow {
    fn write(&mut self, buf: &[u8]) -> io::Result<usize> {
        if self.calls_left == 1 {
            self.calls_left = 0;
            return Err(io::Error::from(ErrorKind::Interrupted));
        }
        self.calls_left = self.calls_left.saturating_sub(1);
        let count = buf.len().min(self.step);
        self.taken.write(&buf[..count])
    }

    fn flush(&mut self) -> io::Result<()> {
        Ok(())
    }
}

fn slow_sink(alloc: Global, step: usize, calls_left: u32) -> ToWriter<Slow>
    ensures { result.failed ≡ false }
{
    ToWriter::new(Slow {
        taken: Vec::new(alloc),
        step,
        calls_left,
    })
}

// A run ended in this way, and its device failed if a failure is reported.
fn ended_so(
    rt: &impl Abort,
    (way, step, calls_left): (Way, usize, u32),
    (ended, failed): (Option<RunFault>, bool),
    fault: Option<RunFault>,
) {
    let row = (way, step, calls_left);
    same_at(rt, &row, ended, fault);
    same_at(rt, &row, failed, fault.is_some());
}

fn reads_end<T: Threads + Wait + Abort + Sync>(
    rt: &T,
    alloc: Global,
    way: Way,
    text: &str,
    (step, calls_left): (usize, u32),
    fault: Option<RunFault>,
) {
    let mut source = FromReader::new(Unsteady {
        rest: text.as_bytes(),
        step,
        calls_left,
    });
    let mut sink = ToWriter::new(Vec::new(alloc));
    let ended = fault_of(rt, alloc, way, &mut source, &mut sink);
    let failed = source.failed;
    ended_so(rt, (way, step, calls_left), (ended, failed), fault);
    let lines = if fault.is_some() { "" } else { "7\n" };
    same_at(rt, &step, sink.writer.as_slice(), lines.as_bytes());
    let failed = sink.failed;
    assert!(rt; !failed);
}

#[test]
fn a_failed_read_ends_a_run(rt: HostRuntime) {
    let alloc = rt.alloc();
    let spaces = " ".repeat(alloc, 20_000).expect(&rt, "memory");
    let long = format!(in alloc; "{SMALL}{spaces}").expect(&rt, "memory");
    for way in WAYS {
        for (is_long, step, calls_left, fault) in [
            (false, 10, 2, Some(RunFault::Read)),
            (false, 10, 1, Some(RunFault::Read)),
            (false, 1000, 2, Some(RunFault::Read)),
            (true, 8192, 3, Some(RunFault::Read)),
            (false, 1, 0, None),
            (true, 8192, 0, None),
        ] {
            let text = if is_long { long.as_str() } else { SMALL };
            reads_end(&rt, alloc, way, text, (step, calls_left), fault);
        }
    }
}

// The calls by which a document is read a byte at a time, and the one that finds its end.
fn calls() -> u32 {
    SMALL.len().saturating_add(1) as u32
}

#[test]
fn each_read_of_a_byte_fails(rt: HostRuntime) {
    for way in WAYS {
        for before in 0..calls() {
            let row = (1, before + 1);
            reads_end(&rt, rt.alloc(), way, SMALL, row, Some(RunFault::Read));
        }
        let later = (1, calls().saturating_add(1));
        reads_end(&rt, rt.alloc(), way, SMALL, later, None);
    }
}

fn writes_end<T: Threads + Wait + Abort + Sync>(
    rt: &T,
    alloc: Global,
    way: Way,
    (step, calls_left): (usize, u32),
    fault: Option<RunFault>,
    lines: &str,
) {
    let mut source = FromReader::new(SMALL.as_bytes());
    let mut sink = slow_sink(alloc, step, calls_left);
    let ended = fault_of(rt, alloc, way, &mut source, &mut sink);
    let failed = sink.failed;
    ended_so(rt, (way, step, calls_left), (ended, failed), fault);
    same_at(rt, &step, sink.writer.taken.as_slice(), lines.as_bytes());
}

#[test]
fn a_failed_write_ends_a_run(rt: HostRuntime) {
    for way in WAYS {
        for (step, calls_left, fault, lines) in [
            (1, 2, Some(RunFault::Write), "7"),
            (1, 1, Some(RunFault::Write), ""),
            (0, 0, Some(RunFault::Write), ""),
            (1, 0, None, "7\n"),
            (2, 2, None, "7\n"),
        ] {
            writes_end(&rt, rt.alloc(), way, (step, calls_left), fault, lines);
        }
    }
}

// The run is refused since its document is too long, and writes nothing.
fn is_left<T: Threads + Wait + Abort + Sync>(rt: &T, alloc: Global, way: Way) {
    let mut source = FromReader::new(io::repeat(b' '));
    let mut sink = ToWriter::new(Vec::new(alloc));
    let number = match fault_of(rt, alloc, way, &mut source, &mut sink) {
        Some(RunFault::Document(fault)) => Some(fault.number()),
        _ => None,
    };
    same_at(rt, &way, number, Some(4));
    same(rt, sink.writer.as_slice(), b"".as_slice());
}

#[test]
fn an_input_without_end_is_left(rt: HostRuntime) {
    for way in WAYS {
        is_left(&rt, rt.alloc(), way);
    }
}

fn a_source_tells(rt: &impl Abort) {
    let mut source = FromReader::new(Unsteady {
        rest: b"abc",
        step: 2,
        calls_left: 3,
    });
    let mut bytes = [0; 4];
    same(rt, source.read(&mut bytes), Ok(2));
    same(rt, source.read(&mut bytes), Ok(1));
    same(rt, bytes.as_slice(), b"cb\0\0".as_slice());
    assert!(rt; !source.failed);
    same(rt, source.read(&mut bytes), Err(Failed));
    assert!(rt; source.failed);
}

fn a_sink_tells(rt: &impl Abort, alloc: Global) {
    let mut sink = slow_sink(alloc, 2, 3);
    same(rt, sink.write(b"abc"), Ok(2));
    same(rt, sink.write(b""), Ok(0));
    assert!(rt; !sink.failed);
    same(rt, sink.write(b"c"), Err(Failed));
    assert!(rt; sink.failed);
    same(rt, sink.writer.taken.as_slice(), b"ab".as_slice());
}

#[test]
fn devices_tell_what_their_readers_and_writers_do(rt: HostRuntime) {
    a_source_tells(&rt);
    a_sink_tells(&rt, rt.alloc());
}
