//! JSON texts as trees.

use crate::same::{same, same_at};
use msg_json::{Bump, JsonFault, Scratch, Tree, get, has_keys, read, whole};
use std::alloc::Global;
use std::process::Abort;

fn numbers_are(rt: &impl Abort, numbers: &[Tree]) {
    for (number, want) in numbers
        .iter()
        .zip([Some(-7), None, None, Some(i64::MAX), None])
    {
        same(rt, whole(number), want);
    }
}

// The tree's keys and what they have.
fn tree_is(rt: &impl Abort, value: &Tree) {
    for (count, is_it) in [(1, false), (2, true), (3, false)] {
        same_at(rt, &count, has_keys(value, count), is_it);
    }
    let last = get(value, "a").expect(rt, "a key");
    same(rt, whole(last), Some(2));
    same(rt, get(value, "c").is_none(), true);
    match get(value, "b") {
        Some(Tree::Array(numbers)) => numbers_are(rt, numbers),
        _ => assert!(rt; false, "no list"),
    }
}

#[test]
fn a_tree_is_looked_into(rt: HostRuntime) {
    let alloc = rt.alloc();
    let mut scratch = Scratch::new(alloc);
    let bump = Bump::new(alloc);
    let text = r#"{"a":1,"b":[-7,1.0,-0,9223372036854775807,9223372036854775808],"\u0061":2}"#;
    let value = read(alloc, &bump, text.as_bytes(), &mut scratch).expect(&rt, "a JSON text");
    tree_is(&rt, &value);
}

// The text is no JSON.
fn is_not_read(rt: &impl Abort, alloc: Global, text: &str) {
    let mut scratch = Scratch::new(alloc);
    let bump = Bump::new(alloc);
    let fault = read(alloc, &bump, text.as_bytes(), &mut scratch).err();
    same_at(rt, &text, fault, Some(JsonFault::NotJson));
}

#[test]
fn what_is_no_json_is_not_read(rt: HostRuntime) {
    for text in [
        "",
        "[1,]",
        "{\"a\" 1}",
        "1 2",
        "[1e400]",
        "{\"a\":[-1e999]}",
        "\u{feff}1",
    ] {
        is_not_read(&rt, rt.alloc(), text);
    }
}
