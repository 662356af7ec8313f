//! The words of the command line, and what is said of a fault.

use crate::same::{same, same_at};
use msg_form::DocumentFault;
use msg_runner::{FromReader, Program, RunFault, ToWriter, arguments, complain, run_words};
use msg_samples::SMALL;
use std::alloc::Global;
use std::io::{self, ErrorKind, Read};
use std::process::Abort;
use std::sync::Wait;
use std::thread::Threads;

fn words_of(rt: &impl Abort, alloc: Global, texts: &[&str]) -> Vec<String> {
    let mut words = Vec::new(alloc);
    for text in texts {
        let word = text.to_string(alloc).expect(rt, "memory");
        words.push(word).expect(rt, "memory");
    }
    words
}

// The words of the command line are read so.
fn words_are(rt: &impl Abort, alloc: Global, texts: &[&str], want: Option<(u32, u32)>) {
    let words = words_of(rt, alloc, texts);
    same_at(rt, &texts, arguments(&words), want);
}

const WORDS: [(&[&str], Option<(u32, u32)>); 27] = [
    (&[], Some((1, 64))),
    (&["1"], Some((1, 64))),
    (&["3"], Some((3, 64))),
    (&["3", "2"], Some((3, 2))),
    (&["0"], Some((0, 64))),
    (&["65"], Some((65, 64))),
    (&["1", "0"], Some((1, 0))),
    (&["000000007", "000000009"], Some((7, 9))),
    (&["999999999", "999999999"], Some((999999999, 999999999))),
    (&["x"], None),
    (&[""], None),
    (&["1", ""], None),
    (&["1", "x"], None),
    (&["x", "1"], None),
    (&["1", "2", "3"], None),
    (&["1", "2", ""], None),
    (&["-1"], None),
    (&["+1"], None),
    (&[" 1"], None),
    (&["1 "], None),
    (&["1\n"], None),
    (&["1.0"], None),
    (&["1e0"], None),
    (&["0x1"], None),
    (&["0000000001"], None),
    (&["1000000000"], None),
    (&["\u{661}"], None),
];

#[test]
fn words_are_two_numbers_at_most(rt: HostRuntime) {
    for (texts, want) in WORDS {
        words_are(&rt, rt.alloc(), texts, want);
    }
}

// The line after the name of the program, which is PROGRAM here.
const LINES: [(Option<RunFault>, &str, u8); 23] = [
    (None, "usage: PROGRAM [workers [cut]]\n", 2),
    (Some(RunFault::Read), "read failed\n", 1),
    (Some(RunFault::Memory), "out of memory\n", 1),
    (Some(RunFault::Write), "write failed\n", 1),
    (Some(RunFault::Workers), "workers must be 1 to 64\n", 2),
    (Some(RunFault::Cut), "cut must be at least 1\n", 2),
    (
        Some(RunFault::Document(DocumentFault::NotJson)),
        "document fault 1: not json\n",
        2,
    ),
    (
        Some(RunFault::Document(DocumentFault::Shape)),
        "document fault 2: shape\n",
        2,
    ),
    (
        Some(RunFault::Document(DocumentFault::Version)),
        "document fault 3: version\n",
        2,
    ),
    (
        Some(RunFault::Document(DocumentFault::Limit)),
        "document fault 4: limit\n",
        2,
    ),
    (
        Some(RunFault::Document(DocumentFault::DuplicateClass)),
        "document fault 5: duplicate class\n",
        2,
    ),
    (
        Some(RunFault::Document(DocumentFault::UnknownSuperclass)),
        "document fault 6: unknown superclass\n",
        2,
    ),
    (
        Some(RunFault::Document(DocumentFault::UnknownClass)),
        "document fault 7: unknown class\n",
        2,
    ),
    (
        Some(RunFault::Document(DocumentFault::DuplicateObject)),
        "document fault 8: duplicate object\n",
        2,
    ),
    (
        Some(RunFault::Document(DocumentFault::UnknownObject)),
        "document fault 9: unknown object\n",
        2,
    ),
    (
        Some(RunFault::Document(DocumentFault::DuplicateImp)),
        "document fault 10: duplicate implementation\n",
        2,
    ),
    (
        Some(RunFault::Document(DocumentFault::UnknownImp)),
        "document fault 11: unknown implementation\n",
        2,
    ),
    (
        Some(RunFault::Document(DocumentFault::BadSelector)),
        "document fault 12: bad selector\n",
        2,
    ),
    (
        Some(RunFault::Document(DocumentFault::DuplicateSelector)),
        "document fault 13: duplicate selector\n",
        2,
    ),
    (
        Some(RunFault::Document(DocumentFault::ArgumentCount)),
        "document fault 14: argument count\n",
        2,
    ),
    (
        Some(RunFault::Document(DocumentFault::ArgumentIndex)),
        "document fault 15: argument index\n",
        2,
    ),
    (
        Some(RunFault::Document(DocumentFault::BodyTooDeep)),
        "document fault 16: body too deep\n",
        2,
    ),
    (
        Some(RunFault::Document(DocumentFault::ClassCycle)),
        "document fault 18: class cycle\n",
        2,
    ),
];

const PROGRAMS: [(Program, &str); 2] = [
    (Program::Msgrun, "msgrun"),
    (Program::Msgbeside, "msgbeside"),
];

// The line for a fault, with the status.
fn line_is(
    rt: &impl Abort,
    alloc: Global,
    (program, name): (Program, &str),
    fault: Option<&RunFault>,
    said: &str,
    status: u8,
) {
    let said = said.replace(alloc, "PROGRAM", name).expect(rt, "memory");
    let line = format!(in alloc; "{name}: {said}").expect(rt, "memory");
    let mut sink = ToWriter::new(Vec::new(alloc));
    same_at(rt, &line, complain(&mut sink, program, fault), status);
    same(rt, sink.writer.as_slice(), line.as_bytes());
}

#[test]
fn each_fault_has_a_line_and_a_status(rt: HostRuntime) {
    for program in PROGRAMS {
        for (fault, said, status) in LINES {
            line_is(&rt, rt.alloc(), program, fault.as_ref(), said, status);
        }
    }
}

// A write fails after this number of bytes, of which the first is there.
fn write_fails(rt: &impl Abort, size: usize, fault: Option<&RunFault>, status: u8) {
    let mut room = [0; 12];
    let mut sink = ToWriter::new(io::Cursor::new(&mut room[..size.min(12)]));
    same(rt, complain(&mut sink, Program::Msgrun, fault), status);
    let failed = sink.failed;
    assert!(rt; failed);
    same(rt, room.as_slice().first(), Some(&b'm'));
}

#[test]
fn a_failed_write_leaves_the_status(rt: HostRuntime) {
    for (fault, _said, status) in LINES {
        // room for the name, and for a front of what is said
        for size in [3, 12] {
            write_fails(&rt, size, fault.as_ref(), status);
        }
    }
}

// A reader of a text, or one whose first read fails.
#[derive(Drop)]
struct Input<'a> {
    text: &'a [u8],
    is_broken: bool,
}

impl Read for Input<'_> {
    fn read(&mut self, buf: &mut [u8]) -> io::Result<usize> {
        if self.is_broken {
            return Err(io::Error::from(ErrorKind::BrokenPipe));
        }
        self.text.read(buf)
    }
}

// What a program is started with: its words, a document, or none where no read succeeds, and room
// for this number of bytes.
type Start = (&'static [&'static str], Option<&'static str>, usize);

// And how it ends: its status, what it says after its name, and what it has written.
type End = (u8, &'static str, [u8; 4]);

const NOTHING: [u8; 4] = [0; 4];

const ENDS: [(Start, End); 8] = [
    ((&["2"], Some(SMALL), 4), (0, "", *b"7\n\0\0")),
    (
        (&["0", "1"], Some(SMALL), 4),
        (2, "workers must be 1 to 64\n", NOTHING),
    ),
    (
        (&["1", "0"], Some(SMALL), 4),
        (2, "cut must be at least 1\n", NOTHING),
    ),
    (
        (&["x"], Some(SMALL), 4),
        (2, "usage: PROGRAM [workers [cut]]\n", NOTHING),
    ),
    (
        (&[], Some("x"), 4),
        (2, "document fault 1: not json\n", NOTHING),
    ),
    (
        (&[], Some("{}"), 4),
        (2, "document fault 2: shape\n", NOTHING),
    ),
    ((&[], None, 4), (1, "read failed\n", NOTHING)),
    ((&[], Some(SMALL), 1), (1, "write failed\n", *b"7\0\0\0")),
];

fn ends_so<T: Threads + Wait + Abort + Sync>(
    rt: &T,
    alloc: Global,
    (program, name): (Program, &str),
    (texts, document, size): Start,
    (status, said, written): End,
) {
    let words = words_of(rt, alloc, texts);
    let mut source = FromReader::new(Input {
        text: document.unwrap_or("").as_bytes(),
        is_broken: document.is_none(),
    });
    let mut room = NOTHING;
    let mut sink = ToWriter::new(io::Cursor::new(&mut room[..size.min(4)]));
    let mut errors = ToWriter::new(Vec::new(alloc));
    let found = run_words(
        rt,
        alloc,
        program,
        &words,
        &mut source,
        &mut sink,
        &mut errors,
    );
    same_at(rt, &said, found, status);
    same_at(rt, &said, room, written);
    let prefix = if status == 0 { "" } else { ": " };
    let name = if status == 0 { "" } else { name };
    let said = said.replace(alloc, "PROGRAM", name).expect(rt, "memory");
    let line = format!(in alloc; "{name}{prefix}{said}").expect(rt, "memory");
    same(rt, errors.writer.as_slice(), line.as_bytes());
}

#[test]
fn a_program_says_why_it_ended(rt: HostRuntime) {
    for program in PROGRAMS {
        for (start, end) in ENDS {
            ends_so(&rt, rt.alloc(), program, start, end);
        }
    }
}
