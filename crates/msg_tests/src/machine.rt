//! Worked rows of events.

use crate::same::{same, same_at};
use msg_image::{Change, Image, read_document};
use msg_model::{Event, EventFault, Machine, Seen};
use msg_names::{ClassRef, ImpRef, Selector};
use msg_tables::ChangeFault;
use std::alloc::Global;
use std::process::Abort;

const ROOT: ClassRef = ClassRef {
    class: 0,
    meta: false,
};

const CHILD: ClassRef = ClassRef {
    class: 1,
    meta: false,
};

// No class of the image.
const NONE: ClassRef = ClassRef {
    class: 2,
    meta: false,
};

// Selector 2 with implementation 1.
const WORD: u64 = 0x0000_0002_0000_0001;

// Child below Root, which has a method `value`; and a send of it.
const ONE: &[u8] =
    br#"{"version":1,"classes":[{"name":"Root","super":null,"methods":[["value","r_value"]],"class_methods":[]},{"name":"Child","super":"Root","methods":[],"class_methods":[]}],"categories":[],"objects":[{"name":"c","class":"Child"}],"imps":[{"name":"r_value","class":"Root","meta":false,"args":0,"body":7}],"items":[{"send":[["obj","c"],"value"]}]}"#;

// The same classes, and a second implementation.
const TWO: &[u8] =
    br#"{"version":1,"classes":[{"name":"Root","super":null,"methods":[["value","r_value"]],"class_methods":[]},{"name":"Child","super":"Root","methods":[],"class_methods":[]}],"categories":[],"objects":[{"name":"c","class":"Child"}],"imps":[{"name":"r_value","class":"Root","meta":false,"args":0,"body":7},{"name":"r_two","class":"Root","meta":false,"args":0,"body":2}],"items":[]}"#;

fn machine(rt: &impl Abort, alloc: Global, document: &[u8]) -> Box<Machine> {
    let document = read_document(alloc, document).expect(rt, "a document");
    let machine = Machine::open(alloc, &document.image, 1, &[4]).expect(rt, "memory");
    Box::new(alloc, machine).expect(rt, "memory")
}

// An event of a row. A change gives Child the implementation of this number for `value`.
#[derive(Clone, Copy, Debug)]
enum Row {
    Enter(u32),
    Header(u32, ClassRef),
    Read(u32, usize),
    Leave(u32),
    Fill(ClassRef, usize, u64),
    Install(ClassRef, u32),
    Flush(ClassRef),
    Look(u32),
    Clear(u32, usize),
    Add(u32),
}

fn event(rt: &impl Abort, row: Row) -> Event {
    match row {
        Row::Enter(sender) => Event::Enter(sender),
        Row::Header(sender, class) => Event::Header(sender, class),
        Row::Read(sender, place) => Event::Read(sender, place),
        Row::Leave(sender) => Event::Leave(sender),
        Row::Fill(class, place, word) => Event::Fill(class, place, word),
        Row::Install(class, array) => Event::Install(class, array),
        Row::Flush(class) => Event::Flush(class),
        Row::Look(sender) => Event::Look(sender),
        Row::Clear(array, place) => Event::Clear(array, place),
        Row::Add(imp) => Event::Commit(Change::Add {
            class: CHILD,
            sel: Selector::of(2).expect(rt, "a number above 0"),
            imp: ImpRef::of(imp),
        }),
    }
}

// An array is flushed while a sender holds it.
const FLUSHED: [(Row, Result<Seen, EventFault>); 12] = [
    (Row::Install(CHILD, 0), Ok(Seen::Nothing)),
    (Row::Fill(CHILD, 2, WORD), Ok(Seen::Nothing)),
    (Row::Enter(0), Ok(Seen::Nothing)),
    (Row::Header(0, CHILD), Ok(Seen::Array(Some(0)))),
    (Row::Flush(CHILD), Ok(Seen::Nothing)),
    (Row::Look(0), Ok(Seen::Out(false))),
    (Row::Clear(0, 2), Err(EventFault::NotFree)),
    (Row::Read(0, 2), Ok(Seen::Word(WORD))),
    (Row::Leave(0), Ok(Seen::Nothing)),
    (Row::Look(0), Ok(Seen::Out(true))),
    (Row::Clear(0, 2), Ok(Seen::Nothing)),
    (Row::Install(ROOT, 0), Ok(Seen::Nothing)),
];

// Selector 2 with implementation 2.
const OTHER: u64 = 0x0000_0002_0000_0002;

// Each refusal is the least.
const REFUSED: [(Row, Result<Seen, EventFault>); 27] = [
    (Row::Enter(1), Err(EventFault::NoSender)),
    (Row::Header(0, CHILD), Err(EventFault::NotIn)),
    (Row::Read(0, 0), Err(EventFault::NotHolding)),
    (Row::Leave(0), Err(EventFault::NotIn)),
    (Row::Enter(0), Ok(Seen::Nothing)),
    (Row::Enter(0), Err(EventFault::NotOut)),
    (Row::Fill(CHILD, 2, WORD), Err(EventFault::NotLive)),
    (Row::Install(NONE, 0), Err(EventFault::NoClass)),
    (Row::Install(CHILD, 1), Err(EventFault::NoArray)),
    (Row::Install(CHILD, 0), Ok(Seen::Nothing)),
    (Row::Install(ROOT, 0), Err(EventFault::NotFree)),
    (Row::Fill(CHILD, 4, WORD), Err(EventFault::NoPlace)),
    (Row::Fill(CHILD, 2, 1), Err(EventFault::Disagrees)),
    (Row::Fill(CHILD, 2, OTHER), Err(EventFault::Disagrees)),
    (Row::Fill(CHILD, 2, WORD), Ok(Seen::Nothing)),
    (Row::Fill(CHILD, 2, WORD), Err(EventFault::NotEmpty)),
    (Row::Add(9), Err(EventFault::Refused(ChangeFault::NoImp))),
    (Row::Add(2), Err(EventFault::Disagrees)),
    (Row::Flush(CHILD), Ok(Seen::Nothing)),
    (Row::Add(2), Ok(Seen::Nothing)),
    (Row::Look(0), Ok(Seen::Out(false))),
    (Row::Leave(0), Ok(Seen::Nothing)),
    (Row::Look(0), Ok(Seen::Out(true))),
    (Row::Install(CHILD, 0), Err(EventFault::NotEmpty)),
    (Row::Clear(0, 2), Ok(Seen::Nothing)),
    (Row::Install(CHILD, 0), Ok(Seen::Nothing)),
    (Row::Fill(CHILD, 2, OTHER), Ok(Seen::Nothing)),
];

// The machine of a document's image, with one sender and one array of 4, answers each event of the
// rows.
fn answers(
    rt: &impl Abort,
    alloc: Global,
    document: &[u8],
    rows: &[(Row, Result<Seen, EventFault>)],
) {
    let mut machine = machine(rt, alloc, document);
    for (row, answer) in rows {
        same_at(rt, row, machine.step(event(rt, *row)), *answer);
    }
}

#[test]
fn events_are_answered_or_refused(rt: HostRuntime) {
    answers(&rt, rt.alloc(), ONE, &FLUSHED);
    answers(&rt, rt.alloc(), TWO, &REFUSED);
}

#[test]
fn faults_have_numbers(rt: HostRuntime) {
    same(&rt, EventFault::NoSender.number(), 1);
    same(&rt, EventFault::Refused(ChangeFault::NoImp).number(), 11);
    same(&rt, EventFault::Memory.number(), 13);
    same(&rt, ChangeFault::NoImp.number(), 2);
}
