//! Calls for which there is no memory, or too little.

ghost use Rattle.std.specs.Prelude.{◌≡◌, ◌<◌};
ghost use Rattle.msg_eval.specs.Finder.{sizes_of, table_sizes};

use crate::images::with_items;
use crate::runs::Way;
use crate::same::{same, same_at};
use msg_eval::{Args, Reply, SendFault, Tabled, send};
use msg_image::{Change, DocumentFault, Image, read_document};
use msg_io::{FromReader, Program, RunFault, ToWriter, complain};
use msg_model::{Event, EventFault, Machine, Seen};
use msg_names::{ClassRef, ImpRef, NameFault, Names, ObjectRef, Selector, Value};
use msg_runner::{OpenGate, run, run_beside};
use msg_samples::{Hog, IMAGE, SMALL};
use msg_tables::{ChangeFault, Tables, Written};
use std::alloc::Global;
use std::io;
use std::process::Abort;
use std::slice::from_ref;
use std::sync::Wait;
use std::thread::Threads;

// The class of the first method.
const ROOT: ClassRef = ClassRef {
    class: 0,
    meta: false,
};

// Selector 2 with implementation 1, and its place among four.
const WORD: u64 = 0x0000_0002_0000_0001;

const PLACE: usize = 2;

// A class without methods.
const GRAND: ClassRef = ClassRef {
    class: 2,
    meta: false,
};

fn selector(rt: &impl Abort, number: u32) -> Selector {
    Selector::of(number).expect(rt, "a number above 0")
}

// A change that adds a row.
fn addition(rt: &impl Abort) -> Change {
    Change::Add {
        class: GRAND,
        sel: selector(rt, 2),
        imp: ImpRef::of(2),
    }
}

// What the calls are made of. It lies in a box, since each way out of a test drops it by one call
// there.
#[derive(Drop)]
struct Bed {
    image: Image,
    names: Names,
    tables: Tables,
    machine: Machine,
}

fn image(rt: &impl Abort, alloc: Global) -> Box<Image> {
    let document = read_document(alloc, IMAGE.as_bytes()).expect(rt, "a document");
    Box::new(alloc, document.image).expect(rt, "memory")
}

fn tables_of(rt: &impl Abort, alloc: Global, image: &Image) -> Box<Tables>
    ensures { table_sizes result.value ≡ sizes_of image.now }
{
    let tables = Tables::open(alloc, image).expect(rt, "memory");
    Box::new(alloc, tables).expect(rt, "memory")
}

fn happens(rt: &impl Abort, machine: &mut Machine, event: Event, seen: Seen) {
    same(rt, machine.step(event), Ok(seen));
}

// The root class has its array, with its one word, and nobody is at it.
fn is_left(rt: &impl Abort, machine: &mut Machine) {
    happens(rt, machine, Event::Enter(0), Seen::Nothing);
    happens(rt, machine, Event::Header(0, GRAND), Seen::Array(None));
    happens(rt, machine, Event::Leave(0), Seen::Nothing);
    happens(rt, machine, Event::Enter(0), Seen::Nothing);
    happens(rt, machine, Event::Header(0, ROOT), Seen::Array(Some(0)));
    happens(rt, machine, Event::Read(0, PLACE), Seen::Word(WORD));
    happens(rt, machine, Event::Leave(0), Seen::Nothing);
}

fn opened(rt: &impl Abort, alloc: Global) -> Box<Bed> {
    let image = read_document(alloc, IMAGE.as_bytes())
        .expect(rt, "a document")
        .image;
    let tables = Tables::open(alloc, &image).expect(rt, "memory");
    let mut machine = Machine::open(alloc, &image, 1, &[4]).expect(rt, "memory");
    happens(rt, &mut machine, Event::Install(ROOT, 0), Seen::Nothing);
    happens(
        rt,
        &mut machine,
        Event::Fill(ROOT, PLACE, WORD),
        Seen::Nothing,
    );
    let bed = Bed {
        image,
        names: Names::new(alloc),
        tables,
        machine,
    };
    Box::new(alloc, bed).expect(rt, "memory")
}

// A call that may answer that there is no memory.
#[derive(Clone, Copy, Debug)]
enum Call {
    Intern,
    Read,
    OpenTables,
    OpenMarks,
    Apply,
    OpenMachine,
    Commit,
}

const CALLS: [Call; 7] = [
    Call::Intern,
    Call::Read,
    Call::OpenTables,
    Call::OpenMarks,
    Call::Apply,
    Call::OpenMachine,
    Call::Commit,
];

fn interns(rt: &impl Abort, names: &mut Names) -> bool {
    match names.intern("at:put:") {
        Ok(sel) => {
            same(rt, (sel.number(), names.len()), (1, 1));
            true
        }
        Err(fault) => {
            same(rt, fault, NameFault::Memory);
            same(rt, (names.len(), names.find("at:put:")), (0, None));
            false
        }
    }
}

fn reads(rt: &impl Abort, alloc: Global) -> bool {
    match read_document(alloc, IMAGE.as_bytes()) {
        Ok(document) => {
            same(rt, document.image.names().len(), 14);
            true
        }
        Err(fault) => {
            same(rt, fault, DocumentFault::Memory);
            false
        }
    }
}

fn applies(rt: &impl Abort, alloc: Global, tables: &mut Tables) -> bool {
    let change = addition(rt);
    let mut written = Written::none(alloc);
    match tables.apply_all(&from_ref(&change), &mut written) {
        Ok(()) => {
            same(
                rt,
                tables.refusal(&change),
                Some(ChangeFault::MethodPresent),
            );
            true
        }
        Err(refused) => {
            same(rt, refused.fault, ChangeFault::Memory);
            same(rt, tables.refusal(&change), None);
            false
        }
    }
}

fn commits(rt: &impl Abort, machine: &mut Machine) -> bool {
    let change = Event::Commit(addition(rt));
    match machine.step(change) {
        Ok(_seen) => {
            let present = EventFault::Refused(ChangeFault::MethodPresent);
            same(
                rt,
                machine.step(Event::Commit(addition(rt))).err(),
                Some(present),
            );
            true
        }
        Err(fault) => {
            same(rt, fault, EventFault::Memory);
            is_left(rt, machine);
            false
        }
    }
}

// Makes a call, and returns whether there was memory for it. If there wasn't, nothing has changed.
fn is_made(rt: &impl Abort, alloc: Global, bed: &mut Bed, call: Call) -> bool {
    match call {
        Call::Intern => interns(rt, &mut bed.names),
        Call::Read => reads(rt, alloc),
        Call::OpenTables => Tables::open(alloc, &bed.image).is_ok(),
        Call::OpenMarks => bed.tables.marks(alloc).is_ok(),
        Call::Apply => applies(rt, alloc, &mut bed.tables),
        Call::OpenMachine => Machine::open(alloc, &bed.image, 1, &[4]).is_ok(),
        Call::Commit => commits(rt, &mut bed.machine),
    }
}

// How often a call is tried, each time with a little more memory.
const TRIES: u32 = 10_000;

// The call is made with ever more memory, until there is enough. The first time there is none.
fn is_made_at_last(rt: &impl Abort, alloc: Global, bed: &mut Bed, call: Call, hog: &mut Hog) {
    let is_full = hog.is_full();
    for refused in 0..TRIES {
        if is_made(rt, alloc, bed, call) {
            assert_eq!(rt; refused > 0, is_full, "{call:?}");
            return;
        }
        assert!(rt; hog.give_back(), "{call:?}");
    }
    assert!(rt; false, "{call:?}");
}

#[test]
fn each_want_of_memory_is_told(rt: HostRuntime) {
    let mut bed = opened(&rt, rt.alloc());
    for call in CALLS {
        let mut hog = Hog::new(&rt).expect(&rt, "memory");
        is_made_at_last(&rt, rt.alloc(), &mut bed, call, &mut hog);
    }
}

// What is sent to an object without arguments is answered so.
fn is_replied(rt: &impl Abort, image: &Image, tables: &Tables, object: u32, sel: u32, want: Reply)
    requires { table_sizes tables.now ≡ sizes_of image.now }
{
    assert!(rt; object < image.object_count());
    let receiver = Value::Object(ObjectRef { object });
    let mut finder = Tabled { tables };
    let reply = send(
        &mut finder,
        image,
        receiver,
        selector(rt, sel),
        &Args::new(),
    );
    same_at(rt, &(object, sel), reply, want);
}

#[test]
fn a_send_takes_no_memory(rt: HostRuntime) {
    let image = image(&rt, rt.alloc());
    let tables = tables_of(&rt, rt.alloc(), &image);
    let _hog = Hog::new(&rt).expect(&rt, "memory");
    for (object, sel, want) in [
        (1, 2, Reply::Value(Value::Number(7))),
        (1, 3, Reply::Value(Value::Number(11))),
        (1, 5, Reply::Fault(SendFault::Overflow)),
        (1, 8, Reply::Value(Value::Number(5003))),
        (1, 9, Reply::Fault(SendFault::Budget)),
        (1, 10, Reply::Fault(SendFault::NotANumber)),
        (3, 2, Reply::Value(Value::Number(7))),
        (3, 11, Reply::Fault(SendFault::TargetNotAnObject)),
    ] {
        is_replied(&rt, &image, &tables, object, sel, want);
    }
}

// The lines that are written without memory.
const SAID: [(Option<RunFault>, &str, u8); 4] = [
    (None, "msgrun: usage: msgrun [workers [cut]]\n", 2),
    (Some(RunFault::Memory), "msgrun: out of memory\n", 1),
    (
        Some(RunFault::Workers),
        "msgrun: workers must be 1 to 64\n",
        2,
    ),
    (
        Some(RunFault::Document(DocumentFault::BadSelector)),
        "msgrun: document fault 12: bad selector\n",
        2,
    ),
];

#[test]
fn a_complaint_takes_no_memory(rt: HostRuntime) {
    let _hog = Hog::new(&rt).expect(&rt, "memory");
    for (fault, said, status) in SAID {
        let mut room = [0; 64];
        let mut sink = ToWriter::new(io::Cursor::new(&mut room[..said.len().min(64)]));
        same_at(
            &rt,
            &said,
            complain(&mut sink, Program::Msgrun, fault.as_ref()),
            status,
        );
        let failed = sink.failed;
        assert!(rt; !failed);
        assert!(rt; room.as_slice().starts_with(said.as_bytes()), "{said}");
    }
}

// Runs a document of two sends into memory that is there, and says whether there was enough beside
// it. Where there wasn't, nothing was written.
fn is_answered<T: Threads + Wait + Abort + Sync>(
    rt: &T,
    alloc: Global,
    document: &str,
    way: Way,
    workers: u32,
) -> bool {
    let mut room = [0; 4];
    let mut source = FromReader::new(document.as_bytes());
    let mut sink = ToWriter::new(io::Cursor::new(&mut room[..]));
    let ended = match way {
        Way::Between => run(rt, alloc, &mut source, &mut sink, workers, 1, &OpenGate),
        Way::Beside => run_beside(rt, alloc, &mut source, &mut sink, workers, 1, &OpenGate),
    };
    same(
        rt,
        ended.err().unwrap_or(RunFault::Memory),
        RunFault::Memory,
    );
    let lines = if ended.is_ok() { *b"7\n7\n" } else { [0; 4] };
    same_at(rt, &(way, workers), room, lines);
    ended.is_ok()
}

// The run is tried with ever more memory, until there is enough, for a thread's stack too. The
// first time there is none.
fn is_answered_at_last<T: Threads + Wait + Abort + Sync>(
    rt: &T,
    alloc: Global,
    document: &str,
    (way, workers): (Way, u32),
    hog: &mut Hog,
) {
    let is_full = hog.is_full();
    for refused in 0..TRIES {
        if is_answered(rt, alloc, document, way, workers) {
            assert_eq!(rt; refused > 0, is_full, "{way:?} {workers}");
            return;
        }
        assert!(rt; hog.give_back(), "{way:?} {workers}");
    }
    assert!(rt; false, "{way:?} {workers}");
}

#[test]
fn a_run_is_whole_or_wants_memory(rt: HostRuntime) {
    let send = r#"{"send":[["obj","c"],"value"]}"#;
    let items = format!(in rt.alloc(); "{send},{send}").expect(&rt, "memory");
    let document = with_items(&rt, rt.alloc(), SMALL, &items);
    for row in [
        (Way::Between, 1),
        (Way::Between, 2),
        (Way::Beside, 1),
        (Way::Beside, 2),
    ] {
        let mut hog = Hog::new(&rt).expect(&rt, "memory");
        is_answered_at_last(&rt, rt.alloc(), &document, row, &mut hog);
    }
}
