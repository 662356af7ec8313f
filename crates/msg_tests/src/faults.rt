//! Documents at their limits.

use crate::documents::{EMPTY, FULL, THIRD, edit_is, edited, listed, number};
use crate::same::{same, same_at};
use msg_samples::SMALL;
use std::alloc::Global;
use std::process::Abort;

// An edit of a document by a long list: `old` is replaced by `before`, this number of pieces with
// commas, and `after`.
#[derive(Clone, Copy)]
struct Long {
    document: &'static str,
    old: &'static str,
    before: &'static str,
    piece: &'static str,
    after: &'static str,
}

const CLASSES: Long = Long {
    document: EMPTY,
    old: r#""classes":[]"#,
    before: r#""classes":["#,
    piece: r#"{"name":"A","super":null,"methods":[],"class_methods":[]}"#,
    after: "]",
};

const CATEGORIES: Long = Long {
    document: EMPTY,
    old: r#""categories":[]"#,
    before: r#""categories":["#,
    piece: r#"{"class":"A","methods":[],"class_methods":[]}"#,
    after: "]",
};

const OBJECTS: Long = Long {
    document: EMPTY,
    old: r#""objects":[]"#,
    before: r#""objects":["#,
    piece: r#"{"name":"a","class":"A"}"#,
    after: "]",
};

const IMPS: Long = Long {
    document: EMPTY,
    old: r#""imps":[]"#,
    before: r#""imps":["#,
    piece: r#"{"name":"a","class":"A","meta":true,"args":0,"body":0}"#,
    after: "]",
};

const ITEMS: Long = Long {
    document: EMPTY,
    old: r#""items":[]"#,
    before: r#""items":["#,
    piece: r#"{"send":[0,"a"]}"#,
    after: "]",
};

const PAIR: &str = r#"["value","r_value"]"#;

// The entries of a class alone.
const ENTRIES: Long = Long {
    document: SMALL,
    old: PAIR,
    before: "",
    piece: PAIR,
    after: "",
};

// The lists of changes aren't counted.
const CHANGED: Long = Long {
    document: SMALL,
    old: r#"{"send":[["obj","c"],"value"]}"#,
    before: r#"{"change":["attach","Root",["#,
    piece: PAIR,
    after: "],[]]}",
};

const PART: &str = r#"["make","Late","Root"]"#;

// An item may be of any number of changes.
const PARTS: Long = Long {
    document: THIRD,
    old: PART,
    before: "",
    piece: PART,
    after: "",
};

fn long_is(rt: &impl Abort, alloc: Global, long: &Long, count: usize, want: Option<u32>) {
    let Long { before, after, .. } = long;
    let pieces = listed(rt, alloc, long.piece, count);
    let new = format!(in alloc; "{before}{pieces}{after}").expect(rt, "memory");
    let text = edited(rt, alloc, long.document, long.old, &new);
    let row = (long.old, count);
    same_at(rt, &row, number(alloc, text.as_bytes()), want);
}

// In a class and a category the entries are counted together.
fn entries_of_two_lists(rt: &impl Abort, alloc: Global, half: &str, more: &str) {
    let with_category = format!(in alloc;
        "\"categories\":[{{\"class\":\"Root\",\"methods\":[],\"class_methods\":[{half}]}}]"
    ).expect(rt, "memory");
    let both = edited(rt, alloc, SMALL, r#""categories":[]"#, &with_category);
    edit_is(rt, alloc, &both, Some(13), PAIR, half);
    edit_is(rt, alloc, &both, Some(4), PAIR, more);
}

#[test]
fn long_lists(rt: HostRuntime) {
    let alloc = rt.alloc();
    // Those at the limit have other faults or none, as a list with a selector twice has.
    for (long, count, want) in [
        (CLASSES, 1024, Some(5)),
        (CLASSES, 1025, Some(4)),
        (CATEGORIES, 1024, Some(7)),
        (CATEGORIES, 1025, Some(4)),
        (OBJECTS, 4096, Some(7)),
        (OBJECTS, 4097, Some(4)),
        (IMPS, 4096, Some(7)),
        (IMPS, 4097, Some(4)),
        (ITEMS, 65_536, None),
        (ITEMS, 65_537, Some(4)),
        (ENTRIES, 16_384, Some(13)),
        (ENTRIES, 16_385, Some(4)),
        (CHANGED, 16_385, Some(13)),
        (PARTS, 65_537, None),
    ] {
        long_is(&rt, alloc, &long, count, want);
    }
    let half = listed(&rt, alloc, PAIR, 8192);
    let more = listed(&rt, alloc, PAIR, 8193);
    entries_of_two_lists(&rt, alloc, &half, &more);
}

/// This number of sends, each of another selector.
fn numbered_sends(rt: &impl Abort, alloc: Global, count: u32, after: &str) -> String {
    let mut text = String::new(alloc);
    for selector in 0..count {
        let comma = if selector > 0 { "," } else { "" };
        let send = format!(in alloc; "{comma}{{\"send\":[null,\"s{selector}{after}\"]}}").expect(
            rt, "memory",
        );
        text.push_str(send.as_str()).expect(rt, "memory");
    }
    text
}

// Sends of this number of selectors, whose names end so, and then these items give the answer.
fn sends_are(
    rt: &impl Abort,
    alloc: Global,
    (count, after, items, want): (u32, &str, &str, Option<u32>),
) {
    let sends = numbered_sends(rt, alloc, count, after);
    let new = format!(in alloc; "\"items\":[{sends}{items}]").expect(rt, "memory");
    let text = edited(rt, alloc, EMPTY, r#""items":[]"#, &new);
    let row = (count, after, items);
    same_at(rt, &row, number(alloc, text.as_bytes()), want);
}

#[test]
fn many_selectors(rt: HostRuntime) {
    for row in [
        // One more is that of forwarding.
        (4095, "", "", None),
        (
            4095,
            "",
            r#",{"send":[null,"forwardingTargetForSelector:",0]}"#,
            None,
        ),
        (4095, "", r#",{"send":[["sel","s7"],"s8"]}"#, None),
        (4095, "", r#",{"send":[["sel","more"],"s8"]}"#, Some(4)),
        (4095, " ", "", Some(12)),
        (4096, " ", "", Some(4)),
    ] {
        sends_are(&rt, rt.alloc(), row);
    }
}

#[test]
fn a_text_of_more_bytes_is_not_read(rt: HostRuntime) {
    let alloc = rt.alloc();
    let room = " "
        .repeat(alloc, 16_777_216_usize.saturating_sub(EMPTY.len()))
        .expect(&rt, "memory");
    let mut text = format!(in alloc; "{EMPTY}{room}").expect(&rt, "memory");
    same(&rt, text.len(), 16_777_216);
    same(&rt, number(alloc, text.as_bytes()), None);
    for more in [' ', 'x'] {
        text.push(more).expect(&rt, "memory");
        same_at(&rt, &more, number(alloc, text.as_bytes()), Some(4));
    }
}

#[test]
fn arguments_are_numbered_below_their_count(rt: HostRuntime) {
    let alloc = rt.alloc();
    // `r_make` is in the list of class methods.
    let unlisted = edited(&rt, alloc, FULL, r#"["make","r_make"]"#, "");
    let old = r#""args":0,"body":["self"]"#;
    for (new, want) in [
        (r#""args":1,"body":["arg",0]"#, None),
        (r#""args":1,"body":["arg",1]"#, Some(15)),
        (r#""args":4,"body":["arg",3]"#, None),
        (r#""args":4,"body":["arg",4]"#, Some(15)),
    ] {
        edit_is(&rt, alloc, &unlisted, want, old, new);
    }
}
