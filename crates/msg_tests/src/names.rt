//! Selectors, values and interned names.

use crate::same::{same, same_at};
use msg_names::{ImpRef, NameFault, Names, Selector, Value, is_identifier, is_selector_name};
use std::alloc::Global;
use std::process::Abort;

fn interned(rt: &impl Abort, names: &mut Names, text: &str, want: Result<u32, NameFault>) {
    let number = names.intern(text).map(Selector::number);
    same_at(rt, &text, number, want);
}

fn interns<'a>(rt: &impl Abort, names: &mut Names, longest: &'a str, longer: &'a str) {
    for (text, want) in [
        ("value", Ok(1)),
        ("value", Ok(1)),
        ("at:put:", Ok(2)),
        (":", Ok(3)),
        ("", Err(NameFault::BadName)),
        ("a b", Err(NameFault::BadName)),
        ("at:put", Err(NameFault::BadName)),
        ("1x", Err(NameFault::BadName)),
        ("a:b:c:d:e:", Err(NameFault::BadName)),
        (longer, Err(NameFault::BadName)),
        (longest, Ok(4)),
        ("value", Ok(1)),
    ] {
        interned(rt, names, text, want);
    }
}

fn has_interned(rt: &impl Abort, names: &Names, longest: &str) {
    same(rt, names.len(), 4);
    same(rt, names.is_empty(), false);
    same(rt, names.find("at:put:").map(Selector::number), Some(2));
    same(rt, names.find("at:"), None);
    for (number, text, colons) in [
        (1, Some("value"), Some(0)),
        (2, Some("at:put:"), Some(2)),
        (3, Some(":"), Some(1)),
        (4, Some(longest), Some(0)),
        (5, None, None),
        (4294967295, None, None),
    ] {
        let selector = Selector::of(number).expect(rt, "a number above 0");
        same_at(rt, &number, names.text(selector), text);
        same_at(rt, &number, names.colons(selector), colons);
    }
}

#[test]
fn names_are_interned(rt: HostRuntime) {
    let alloc = rt.alloc();
    let longest = "n".repeat(alloc, 64).expect(&rt, "memory");
    let longer = "n".repeat(alloc, 65).expect(&rt, "memory");
    let mut names = Names::new(alloc);
    same(&rt, names.is_empty(), true);
    interns(&rt, &mut names, longest.as_str(), longer.as_str());
    has_interned(&rt, &names, longest.as_str());
}

// Interns all names that fit.
fn interns_all(rt: &impl Abort, alloc: Global, names: &mut Names) {
    for number in 1..4097_u32 {
        let text = format!(in alloc; "n{number}").expect(rt, "memory");
        interned(rt, names, text.as_str(), Ok(number));
    }
}

#[test]
fn no_more_than_4096_names_fit(rt: HostRuntime) {
    let mut names = Names::new(rt.alloc());
    interns_all(&rt, rt.alloc(), &mut names);
    for (text, want) in [
        ("n4097", Err(NameFault::TooMany)),
        ("a b", Err(NameFault::BadName)),
        ("n1", Ok(1)),
        ("n4096", Ok(4096)),
    ] {
        interned(&rt, &mut names, text, want);
    }
    same(&rt, names.len(), 4096);
}

#[test]
fn numbers_and_texts(rt: HostRuntime) {
    same(&rt, Selector::of(0), None);
    same(&rt, Selector::of(7).map(Selector::number), Some(7));
    same(&rt, ImpRef::of(7).number(), 7);
    same(&rt, ImpRef::of(0), ImpRef::FORWARD);
    same(&rt, ImpRef::FORWARD.number(), 0);
    same(&rt, Value::default(), Value::Nil);
    for (text, identifier, selector) in [
        ("_x9", true, true),
        ("at:", false, true),
        ("9x", false, false),
        ("a-b", false, false),
        ("", false, false),
    ] {
        same_at(&rt, &text, is_identifier(text), identifier);
        same_at(&rt, &text, is_selector_name(text), selector);
    }
}
