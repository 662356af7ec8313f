//! The walk over selectors, the sets of names, and the faults' numbers and texts.

use crate::documents::FULL;
use crate::same::{same, same_at};
use msg_form::{DocumentFault, FORWARDING, Form, NameSet, ReadFault};
use msg_json::{Bump, Scratch, Tree, read};
use std::alloc::Global;
use std::process::Abort;

const WALK: [&str; 20] = [
    "forwardingTargetForSelector:",
    "value",
    "down:",
    "make",
    "name",
    "tag",
    "kind",
    "down:",
    "value",
    "other",
    "value",
    "down:",
    "seen",
    "more",
    "less",
    "value",
    "name",
    "make",
    "top",
    "low",
];

fn walk_is<'v>(
    rt: &impl Abort,
    alloc: Global,
    bump: &'v Bump,
    value: &Tree<'v, '_>,
    want: &[&str],
) {
    let form = Form::read(alloc, bump, value).expect(rt, "a form");
    let texts = form.selector_texts(alloc).expect(rt, "memory");
    same(rt, texts.as_slice(), want);
}

#[test]
fn selectors_come_in_the_order_of_the_walk(rt: HostRuntime) {
    let alloc = rt.alloc();
    let mut scratch = Scratch::new(alloc);
    let bump = Bump::new(alloc);
    let value = read(alloc, &bump, FULL.as_bytes(), &mut scratch).expect(&rt, "a JSON text");
    let expressions = Bump::new(alloc);
    walk_is(&rt, alloc, &expressions, &value, &WALK);
    same(&rt, FORWARDING, "forwardingTargetForSelector:");
}

fn is_inserted(
    rt: &impl Abort,
    names: &mut NameSet,
    name: &'static str,
    is_new: bool,
    number: u32,
) {
    same_at(rt, &name, names.insert(name).expect(rt, "memory"), is_new);
    same_at(rt, &name, names.number(name), Some(number));
}

#[test]
fn names_are_numbered_as_they_come(rt: HostRuntime) {
    let mut names = NameSet::new(rt.alloc());
    same(&rt, names.number("value"), None);
    for (name, is_new, number) in [
        ("value", true, 1),
        ("at:put:", true, 2),
        ("value", false, 1),
        ("", true, 3),
        (":", true, 4),
        ("Value", true, 5),
        ("at:put:", false, 2),
    ] {
        is_inserted(&rt, &mut names, name, is_new, number);
    }
    same(&rt, names.number("at:"), None);
}

fn fault_is(rt: &impl Abort, alloc: Global, fault: DocumentFault, number: u32, text: &str) {
    same_at(rt, &text, fault.number(), number);
    same_at(rt, &number, fault.text(), text);
    let written = fault.to_string(alloc).expect(rt, "memory");
    same_at(rt, &number, written.as_str(), text);
}

#[test]
fn faults_have_numbers_and_texts(rt: HostRuntime) {
    for (fault, number, text) in [
        (DocumentFault::NotJson, 1, "not json"),
        (DocumentFault::Shape, 2, "shape"),
        (DocumentFault::Version, 3, "version"),
        (DocumentFault::Limit, 4, "limit"),
        (DocumentFault::DuplicateClass, 5, "duplicate class"),
        (DocumentFault::UnknownSuperclass, 6, "unknown superclass"),
        (DocumentFault::UnknownClass, 7, "unknown class"),
        (DocumentFault::DuplicateObject, 8, "duplicate object"),
        (DocumentFault::UnknownObject, 9, "unknown object"),
        (DocumentFault::DuplicateImp, 10, "duplicate implementation"),
        (DocumentFault::UnknownImp, 11, "unknown implementation"),
        (DocumentFault::BadSelector, 12, "bad selector"),
        (DocumentFault::DuplicateSelector, 13, "duplicate selector"),
        (DocumentFault::ArgumentCount, 14, "argument count"),
        (DocumentFault::ArgumentIndex, 15, "argument index"),
        (DocumentFault::BodyTooDeep, 16, "body too deep"),
        (DocumentFault::Memory, 17, "out of memory"),
        (DocumentFault::ClassCycle, 18, "class cycle"),
    ] {
        fault_is(&rt, rt.alloc(), fault, number, text);
    }
    let shape = ReadFault::Shape.to_string(rt.alloc()).expect(&rt, "memory");
    same(&rt, shape.as_str(), "shape");
}
