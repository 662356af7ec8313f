//! The machine of events over a host's classes, which are made one by one, with numbers and limits
//! of the host's own.

use crate::same::same_at;
use msg_model::{Event, EventFault, Machine, Seen};
use msg_names::{ClassRef, ImpRef, Selector};
use msg_tables::{Change, ChangeFault, Limits, Origin};
use std::alloc::Global;
use std::process::Abort;

// Four class numbers, of which this is the last.
const LAST: ClassRef = ClassRef {
    class: 3,
    meta: false,
};

const SELECTOR: u32 = 4_000_000_003;

const IMP: u32 = 3_000_000_000;

// The selector with the implementation, which is at the place that its two lowest bits say.
const WORD: u64 = 4_000_000_003 << 32 | 3_000_000_000;

const SENDERS: u32 = 100;

// Room for one row and three changes.
#[tactic(auto, using(crate::proofs::HostLemmas::four_classes_are_sound))]
fn classes(alloc: Global) -> Origin {
    let limits = Limits {
        rows: 1,
        changes: 3,
        senders: SENDERS,
        words: 1_000,
    };
    Origin::new(Vec::new(alloc), 4, Vec::new(alloc), None, limits)
}

fn machine(rt: &impl Abort, alloc: Global) -> Box<Machine> {
    let machine = Machine::open(alloc, &classes(alloc), SENDERS, &[4]).expect(rt, "memory");
    Box::new(alloc, machine).expect(rt, "memory")
}

#[derive(Clone, Copy, Debug)]
enum Row {
    Make(u32),
    Add(u32, u32),
    Set(u32),
    Install,
    Fill,
    Flush,
    Enter,
    Header,
    Read,
    Leave,
    Clear,
}

fn selector(rt: &impl Abort, number: u32) -> Selector {
    Selector::of(number).expect(rt, "a number above 0")
}

fn event(rt: &impl Abort, row: Row) -> Event {
    match row {
        Row::Make(class) => Event::Commit(Change::AddClass {
            class,
            superclass: None,
        }),
        Row::Add(sel, imp) => Event::Commit(Change::Add {
            class: LAST,
            sel: selector(rt, sel),
            imp: ImpRef::of(imp),
        }),
        Row::Set(imp) => Event::Commit(Change::SetImp {
            class: LAST,
            sel: selector(rt, SELECTOR),
            imp: ImpRef::of(imp),
        }),
        Row::Install => Event::Install(LAST, 0),
        Row::Fill => Event::Fill(LAST, 3, WORD),
        Row::Flush => Event::Flush(LAST),
        Row::Enter => Event::Enter(SENDERS - 1),
        Row::Header => Event::Header(SENDERS - 1, LAST),
        Row::Read => Event::Read(SENDERS - 1, 3),
        Row::Leave => Event::Leave(SENDERS - 1),
        Row::Clear => Event::Clear(0, 3),
    }
}

fn answers(rt: &impl Abort, machine: &mut Machine, rows: &[(Row, Result<Seen, EventFault>)]) {
    for (row, want) in rows {
        same_at(rt, row, machine.step(event(rt, *row)), *want);
    }
}

// Each sender is looked at, and the last is seen out or not.
fn looks(rt: &impl Abort, machine: &mut Machine, last: bool) {
    for sender in 0..SENDERS {
        let out = last || sender < SENDERS - 1;
        same_at(
            rt,
            &sender,
            machine.step(Event::Look(sender)),
            Ok(Seen::Out(out)),
        );
    }
}

// A class is made, gets a method, and a cache, which the last sender holds while it is taken away.
const HELD: [(Row, Result<Seen, EventFault>); 11] = [
    (
        Row::Add(SELECTOR, IMP),
        Err(EventFault::Refused(ChangeFault::NoClass)),
    ),
    (Row::Make(4), Err(EventFault::Refused(ChangeFault::NoClass))),
    (Row::Make(3), Ok(Seen::Nothing)),
    (
        Row::Add(SELECTOR, 0),
        Err(EventFault::Refused(ChangeFault::NoImp)),
    ),
    (Row::Add(SELECTOR, IMP), Ok(Seen::Nothing)),
    (
        Row::Add(1, IMP),
        Err(EventFault::Refused(ChangeFault::Limit)),
    ),
    (Row::Install, Ok(Seen::Nothing)),
    (Row::Fill, Ok(Seen::Nothing)),
    (Row::Enter, Ok(Seen::Nothing)),
    (Row::Header, Ok(Seen::Array(Some(0)))),
    (Row::Flush, Ok(Seen::Nothing)),
];

const LEFT: [(Row, Result<Seen, EventFault>); 3] = [
    (Row::Clear, Err(EventFault::NotFree)),
    (Row::Read, Ok(Seen::Word(WORD))),
    (Row::Leave, Ok(Seen::Nothing)),
];

const FREED: [(Row, Result<Seen, EventFault>); 3] = [
    (Row::Clear, Ok(Seen::Nothing)),
    (Row::Set(u32::MAX), Ok(Seen::Nothing)),
    (Row::Set(1), Err(EventFault::Refused(ChangeFault::Limit))),
];

#[test]
fn a_sender_past_64_holds_an_array_of_a_host(rt: HostRuntime) {
    let mut machine = machine(&rt, rt.alloc());
    answers(&rt, &mut machine, &HELD);
    looks(&rt, &mut machine, false);
    answers(&rt, &mut machine, &LEFT);
    looks(&rt, &mut machine, true);
    answers(&rt, &mut machine, &FREED);
}
