//! Changes of method lists by the book: rows, and a search of them.

use std::alloc::Global;
use std::process::Abort;

/// The classes, each below the one before, and the selectors.
pub(crate) const CLASSES: [&str; 3] = ["Root", "Child", "Grand"];

pub(crate) const SELECTORS: [&str; 2] = ["value", "name"];

/// A method of a class: what is sent is answered with a number. Of two rows of one class and one
/// selector the later counts.
#[derive(Clone, Copy, Debug)]
pub(crate) struct Row {
    class: usize,
    sel: usize,
    number: u32,
}

/// A change. Classes and selectors are named by their places.
#[derive(Clone, Copy, Debug)]
pub(crate) enum Edit {
    Set(usize, usize, u32),
    Replace(usize, usize, u32),
    Attach(usize, usize, u32),
    Add(usize, usize, u32),
    Exchange(usize),
}

/// Root has both methods, which answer 0.
pub(crate) fn opening(rt: &impl Abort, alloc: Global) -> Vec<Row> {
    let mut rows = Vec::new(alloc);
    for sel in 0..SELECTORS.len() {
        insert(rt, &mut rows, 0, sel, 0);
    }
    rows
}

fn insert(rt: &impl Abort, rows: &mut Vec<Row>, class: usize, sel: usize, number: u32) {
    let row = Row { class, sel, number };
    rows.push(row).expect(rt, "memory");
}

// The place of the row of a class for a selector.
fn own(rows: &[Row], class: usize, sel: usize) -> Option<usize> {
    let mut found = None;
    for (place, row) in rows.iter().enumerate() {
        if row.class == class && row.sel == sel {
            found = Some(place);
        }
    }
    found
}

// The place of the row that a lookup finds: of the class, else of the nearest above it.
fn method(rows: &[Row], class: usize, sel: usize) -> Option<usize> {
    let mut found = None;
    for above in 0..CLASSES.len() {
        if above <= class {
            found = own(rows, above, sel).or(found);
        }
    }
    found
}

/// The number that a class returns for a selector, if it returns one.
pub(crate) fn answer(rows: &[Row], class: usize, sel: usize) -> Option<u32> {
    rows.get(method(rows, class, sel)?).map(|row| row.number)
}

fn rewrite(rows: &mut [Row], place: Option<usize>, number: u32) -> bool {
    let Some(place) = place else {
        return false;
    };
    let Some(row) = rows.get_mut(place) else {
        return false;
    };
    row.number = number;
    true
}

fn exchange(rows: &mut [Row], class: usize) -> bool {
    let value = method(rows, class, 0);
    let name = method(rows, class, 1);
    match (answer(rows, class, 0), answer(rows, class, 1)) {
        (Some(old_value), Some(old_name)) => {
            rewrite(rows, value, old_name) && rewrite(rows, name, old_value)
        }
        _ => false,
    }
}

/// Makes a change, and returns whether it was accepted.
pub(crate) fn make(rt: &impl Abort, rows: &mut Vec<Row>, edit: Edit) -> bool {
    match edit {
        Edit::Set(class, sel, number) => {
            let place = method(rows, class, sel);
            rewrite(rows, place, number)
        }
        Edit::Replace(class, sel, number) => {
            let place = own(rows, class, sel);
            if !rewrite(rows, place, number) {
                insert(rt, rows, class, sel, number);
            }
            true
        }
        Edit::Attach(class, sel, number) => {
            insert(rt, rows, class, sel, number);
            true
        }
        Edit::Add(class, sel, number) => {
            let is_new = own(rows, class, sel).is_none();
            if is_new {
                insert(rt, rows, class, sel, number);
            }
            is_new
        }
        Edit::Exchange(class) => exchange(rows, class),
    }
}

fn class_name(class: usize) -> &'static str {
    CLASSES.get(class).copied().unwrap_or("")
}

fn selector(sel: usize) -> &'static str {
    SELECTORS.get(sel).copied().unwrap_or("")
}

// A change that names a method by class and selector, and the implementation that returns a number.
fn named(
    rt: &impl Abort,
    alloc: Global,
    kind: &str,
    (class, sel, number): (usize, usize, u32),
) -> String {
    let (class, sel) = (class_name(class), selector(sel));
    format!(in alloc;
        "{{\"change\":[\"{kind}\",\"{class}\",false,\"{sel}\",\"i{number}\"]}}"
    ).expect(rt, "memory")
}

fn attachment(rt: &impl Abort, alloc: Global, (class, sel, number): (usize, usize, u32)) -> String {
    let (class, sel) = (class_name(class), selector(sel));
    format!(in alloc;
        "{{\"change\":[\"attach\",\"{class}\",[[\"{sel}\",\"i{number}\"]],[]]}}"
    ).expect(rt, "memory")
}

fn exchange_item(rt: &impl Abort, alloc: Global, class: usize) -> String {
    let class = class_name(class);
    format!(in alloc;
        "{{\"change\":[\"exchange\",\"{class}\",false,\"value\",\"{class}\",false,\"name\"]}}"
    ).expect(rt, "memory")
}

/// The change as a document has it.
pub(crate) fn item(rt: &impl Abort, alloc: Global, edit: Edit) -> String {
    match edit {
        Edit::Set(class, sel, number) => named(rt, alloc, "set", (class, sel, number)),
        Edit::Replace(class, sel, number) => named(rt, alloc, "replace", (class, sel, number)),
        Edit::Add(class, sel, number) => named(rt, alloc, "add", (class, sel, number)),
        Edit::Attach(class, sel, number) => attachment(rt, alloc, (class, sel, number)),
        Edit::Exchange(class) => exchange_item(rt, alloc, class),
    }
}
