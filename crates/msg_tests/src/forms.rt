//! Which texts are JSON, and which values have the form of a document.

use crate::documents::{BODY, EMPTY, FULL, THIRD, edit_is, nested, number};
use crate::same::same_at;
use msg_samples::{IMAGE, SMALL};
use std::alloc::Global;
use std::process::Abort;

// Documents, texts that are not JSON, and values that are no documents.
const TEXTS: [(&str, Option<u32>); 32] = [
    (EMPTY, None),
    (SMALL, None),
    (FULL, None),
    ("", Some(1)),
    (" ", Some(1)),
    (r#"{"version":1"#, Some(1)),
    ("[1,]", Some(1)),
    (r#"{"a":1,}"#, Some(1)),
    ("{1:2}", Some(1)),
    ("{'a':1}", Some(1)),
    ("nul", Some(1)),
    ("NaN", Some(1)),
    ("Infinity", Some(1)),
    ("1 2", Some(1)),
    ("[] []", Some(1)),
    ("// none\n[]", Some(1)),
    ("\u{feff}[]", Some(1)),
    ("\u{feff}{}", Some(1)),
    ("\"\n\"", Some(1)),
    ("\"\t\"", Some(1)),
    ("\"\\x\"", Some(1)),
    ("\"\\u12\"", Some(1)),
    ("\"open", Some(1)),
    ("\0", Some(1)),
    ("null", Some(2)),
    ("true", Some(2)),
    ("1", Some(2)),
    ("1.5", Some(2)),
    (r#""version""#, Some(2)),
    ("[]", Some(2)),
    ("{}", Some(2)),
    (r#"{"version":1}"#, Some(2)),
];

#[test]
fn texts_are_read_or_refused(rt: HostRuntime) {
    for (text, want) in TEXTS {
        same_at(&rt, &text, number(rt.alloc(), text.as_bytes()), want);
    }
}

// No front of a document that lacks its last bracket is JSON.
#[test]
fn fronts_are_no_documents(rt: HostRuntime) {
    same_at(
        &rt,
        &IMAGE.len(),
        number(rt.alloc(), IMAGE.as_bytes()),
        None,
    );
    for size in 0..IMAGE.len() {
        let front = IMAGE.as_bytes().get(..size).unwrap_or(b"");
        same_at(&rt, &size, number(rt.alloc(), front), Some(1));
    }
}

// Before the small document, in place of its send's selector, and after it.
const BYTES: [(&[u8], &[u8], &[u8], Option<u32>); 17] = [
    (b"", b"value", b"", None),
    (b" \n\t\r", b"value", b" \n\t\r", None),
    (b"\xef\xbb\xbf", b"value", b"", Some(1)),
    (b"\xc2\xa0", b"value", b"", Some(1)),
    (b"", b"value", b"x", Some(1)),
    (b"", b"value", b"\0", Some(1)),
    (b"", b"value", b"{}", Some(1)),
    (b"", b"value", b",", Some(1)),
    (b"[", b"value", b"]", Some(2)),
    (b"", b"val", b"", None),
    (b"", b"\xc3\xa9", b"", Some(12)),
    (b"", b"\xff", b"", Some(1)),
    (b"", b"\xc3", b"", Some(1)),
    (b"", b"\x80", b"", Some(1)),
    (b"", b"\xc0\xa1", b"", Some(1)),
    (b"", b"\xed\xa0\x80", b"", Some(1)),
    (b"", b"\xf4\x90\x80\x80", b"", Some(1)),
];

fn bytes_are(
    rt: &impl Abort,
    alloc: Global,
    (before, selector, after): (&[u8], &[u8], &[u8]),
    want: Option<u32>,
) {
    let (head, tail) = SMALL.split_once(r#"value"]}"#).expect(rt, "a text to edit");
    let mut text = Vec::new(alloc);
    for piece in [
        before,
        head.as_bytes(),
        selector,
        b"\"]}".as_slice(),
        tail.as_bytes(),
        after,
    ] {
        text.extend_from_slice(piece).expect(rt, "memory");
    }
    let row = (before, selector, after);
    same_at(rt, &row, number(alloc, &text), want);
}

#[test]
fn bytes_that_are_not_utf8(rt: HostRuntime) {
    for (before, selector, after, want) in BYTES {
        bytes_are(&rt, rt.alloc(), (before, selector, after), want);
    }
    let text = b"[\"\xff\"]".as_slice();
    same_at(&rt, &text, number(rt.alloc(), text), Some(1));
}

// A document with `head` and the middle inside so many of two texts in place of `old`.
#[derive(Clone, Copy)]
struct Nest {
    document: &'static str,
    old: &'static str,
    head: &'static str,
    before: &'static str,
    middle: &'static str,
    after: &'static str,
}

const LISTS: Nest = Nest {
    document: "@",
    old: "@",
    head: "",
    before: "[",
    middle: "",
    after: "]",
};

const OBJECTS: Nest = Nest {
    document: "@",
    old: "@",
    head: "",
    before: r#"{"a":"#,
    middle: "1",
    after: "}",
};

// A body lies three deep.
const BODIES: Nest = Nest {
    document: FULL,
    old: BODY,
    head: r#""body":"#,
    before: r#"["add",1,"#,
    middle: "1",
    after: "]",
};

fn nest_is(rt: &impl Abort, alloc: Global, nest: &Nest, count: usize, want: u32) {
    let Nest { head, .. } = nest;
    let value = nested(rt, alloc, nest.before, nest.middle, nest.after, count);
    let new = format!(in alloc; "{head}{value}").expect(rt, "memory");
    edit_is(rt, alloc, nest.document, Some(want), nest.old, &new);
}

#[test]
fn values_nest_127_deep(rt: HostRuntime) {
    for (nest, count, want) in [
        (LISTS, 127, 2),
        (LISTS, 128, 1),
        (OBJECTS, 127, 2),
        (OBJECTS, 128, 1),
        (BODIES, 124, 16),
        (BODIES, 125, 1),
    ] {
        nest_is(&rt, rt.alloc(), &nest, count, want);
    }
}

// Edits of the document of version 3.
const THIRDS: [(&str, &str, Option<u32>); 12] = [
    (r#""version":3"#, r#""version":3"#, None),
    (r#""version":3"#, r#""version":2"#, Some(2)),
    (r#""made":["Late"],"#, "", Some(2)),
    (r#",["attach","Late",[["more","r_value"]],[]]"#, "", Some(2)),
    (
        r#"["make","Late","Root"]"#,
        r#"["all",["make","Late","Root"],["make","Late","Root"]]"#,
        Some(2),
    ),
    (r#"["make","Late","Root"]"#, "null", Some(2)),
    (r#"["attach","Late""#, r#"["attach","Later""#, Some(7)),
    (r#"["more","r_value"]"#, r#"["more","r_more"]"#, Some(11)),
    (r#""more""#, r#""1x""#, Some(12)),
    (
        r#"["more","r_value"]"#,
        r#"["more","r_value"],["more","r_value"]"#,
        Some(13),
    ),
    // whether counts fit is judged when the change is made
    (r#""more""#, r#""more:""#, None),
    (r#"["make","Late","Root"]"#, r#"["make","Late",null]"#, None),
];

#[test]
fn a_change_of_changes_is_read_in_version_3(rt: HostRuntime) {
    for (old, new, want) in THIRDS {
        edit_is(&rt, rt.alloc(), THIRD, want, old, new);
    }
}

#[test]
fn other_versions_have_the_form_of_version_1(rt: HostRuntime) {
    for (new, want) in [
        (r#""version":2"#, Some(2)),
        (r#""version":3"#, Some(2)),
        (r#""version":4"#, Some(3)),
        (r#""version":0"#, Some(3)),
    ] {
        edit_is(&rt, rt.alloc(), EMPTY, want, r#""version":1"#, new);
    }
    edit_is(
        &rt,
        rt.alloc(),
        THIRD,
        Some(2),
        r#""version":3"#,
        r#""version":4"#,
    );
}
