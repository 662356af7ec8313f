//! Each call once on its happy path, and each fault once.

ghost use Rattle.std.specs.Prelude.{◌≡◌, Some, None, IfOk, is_some, true};
ghost use Rattle.msg_c.specs.Answers.{AreOfOneArena};
ghost use Rattle.msg_c.specs.Handles.{StaysAt};

use crate::answer::{ALREADY_OPEN, BAD_CONFIG, CLOSED, DONE, NONE};
use crate::asking::{
    MsgClass, msg_change_count, msg_class_count, msg_holder, msg_lookup, msg_superclass, msg_words,
};
use crate::changing::{
    msg_add, msg_attach, msg_dispose_class, msg_exchange, msg_make_class, msg_make_root_class,
    msg_remove, msg_replace, msg_set_imp,
};
use crate::opening::{msg_close, msg_open_words};
use crate::runtime_handle::RuntimeHandle;
use crate::same::{answers, same};
use crate::sender_handle::SenderHandle;
use crate::sending::msg_sender_open;
use msg_host::MethodRow;
use std::alloc::Global;
use std::process::Abort;
use std::ptr;
use std::test::Fail;

// Class numbers 0 to 3, three senders, and two arrays of each capacity.
const CONFIG: &[u32] = &[4, 3, 2, 2, 2, 2, 2, 2, 2, 2, 2];

// Root (0), with `value` (selector 2) by implementation 1 and `name` (3) by 2, and the class method
// `new` (4) by 4; Child (1) below it, with `name` by 3. `take:` (5) has no method. Made (2) and
// Other (3) aren't made.
const ROOT_METHODS: &[MethodRow] = &[
    MethodRow { sel: VALUE, imp: 1 },
    MethodRow { sel: NAME, imp: 2 },
];

const ROOT_CLASS_METHODS: &[MethodRow] = &[MethodRow { sel: NEW, imp: 4 }];

const CHILD_METHODS: &[MethodRow] = &[MethodRow { sel: NAME, imp: 3 }];

// The number of changes that make these classes.
pub(crate) const MADE_BY: u64 = 4;

pub(crate) const ROOT: u32 = 0;

pub(crate) const CHILD: u32 = 1;

pub(crate) const MADE: u32 = 2;

const OTHER: u32 = 3;

// A number that no class has, if four are reserved.
pub(crate) const BEYOND: u32 = 4;

pub(crate) const VALUE: u32 = 2;

pub(crate) const NAME: u32 = 3;

pub(crate) const NEW: u32 = 4;

const TAKE: u32 = 5;

fn make<R: Abort>(rt: &R, alloc: Global, runtime: &mut RuntimeHandle) {
    answers(rt, msg_make_root_class(alloc, runtime, ROOT), DONE);
    answers(
        rt,
        msg_attach(alloc, runtime, ROOT, ROOT_METHODS, ROOT_CLASS_METHODS),
        DONE,
    );
    answers(rt, msg_make_class(alloc, runtime, CHILD, ROOT), DONE);
    answers(
        rt,
        msg_attach(alloc, runtime, CHILD, CHILD_METHODS, &[]),
        DONE,
    );
}

pub(crate) fn opened<R: Abort>(rt: &R, alloc: Global) -> RuntimeHandle {
    let mut runtime = RuntimeHandle::closed(alloc);
    answers(rt, msg_open_words(alloc, &mut runtime, CONFIG), DONE);
    make(rt, alloc, &mut runtime);
    runtime
}

pub(crate) fn found<R: Abort>(
    rt: &R,
    alloc: Global,
    runtime: &mut RuntimeHandle,
    class: u32,
    meta: bool,
    sel: u32,
) -> u32 {
    let mut imp = 99;
    answers(
        rt,
        msg_lookup(alloc, runtime, class, meta, sel, &mut imp),
        DONE,
    );
    imp
}

#[test]
fn an_open_runtime_has_words(rt: HostRuntime) -> Result<(), Fail> {
    let alloc = rt.alloc();
    let mut runtime = RuntimeHandle::closed(alloc);
    let mut words = ptr::null();
    answers(&rt, msg_words(alloc, &mut runtime, &mut words), CLOSED);
    let mut runtime = opened(&rt, alloc);
    answers(&rt, msg_words(alloc, &mut runtime, &mut words), DONE);
    Ok(())
}

#[test]
fn a_runtime_opens_once_and_closes_once(rt: HostRuntime) -> Result<(), Fail> {
    let alloc = rt.alloc();
    let mut runtime = RuntimeHandle::closed(alloc);
    answers(
        &rt,
        msg_open_words(alloc, &mut runtime, &[u32::MAX]),
        BAD_CONFIG,
    );
    answers(&rt, msg_close(alloc, &mut runtime), CLOSED);
    answers(&rt, msg_open_words(alloc, &mut runtime, CONFIG), DONE);
    answers(
        &rt,
        msg_open_words(alloc, &mut runtime, CONFIG),
        ALREADY_OPEN,
    );
    answers(
        &rt,
        msg_open_words(alloc, &mut runtime, &[u32::MAX]),
        ALREADY_OPEN,
    );
    answers(&rt, msg_close(alloc, &mut runtime), DONE);
    answers(&rt, msg_close(alloc, &mut runtime), CLOSED);
    Ok(())
}

#[test]
fn a_new_runtime_has_no_classes(rt: HostRuntime) -> Result<(), Fail> {
    let alloc = rt.alloc();
    let mut runtime = RuntimeHandle::closed(alloc);
    answers(&rt, msg_open_words(alloc, &mut runtime, CONFIG), DONE);
    let (mut numbers, mut count) = (99, 99);
    answers(
        &rt,
        msg_class_count(alloc, &mut runtime, &mut numbers),
        DONE,
    );
    answers(&rt, msg_change_count(alloc, &mut runtime, &mut count), DONE);
    same(&rt, (numbers, count), (4, 0));
    for class in [ROOT, OTHER] {
        answers(&rt, found(&rt, alloc, &mut runtime, class, false, VALUE), 0);
        answers(&rt, found(&rt, alloc, &mut runtime, class, true, VALUE), 0);
    }
    Ok(())
}

#[test]
fn lookups_go_up(rt: HostRuntime) -> Result<(), Fail> {
    let alloc = rt.alloc();
    let mut runtime = opened(&rt, alloc);
    answers(&rt, found(&rt, alloc, &mut runtime, CHILD, false, VALUE), 1);
    answers(&rt, found(&rt, alloc, &mut runtime, CHILD, false, NAME), 3);
    answers(&rt, found(&rt, alloc, &mut runtime, CHILD, true, NEW), 4);
    answers(&rt, found(&rt, alloc, &mut runtime, CHILD, true, VALUE), 1);
    answers(&rt, found(&rt, alloc, &mut runtime, CHILD, false, TAKE), 0);
    answers(&rt, found(&rt, alloc, &mut runtime, MADE, false, VALUE), 0);
    answers(
        &rt,
        found(&rt, alloc, &mut runtime, CHILD, false, u32::MAX),
        0,
    );
    let mut imp = 99;
    answers(
        &rt,
        msg_lookup(alloc, &mut runtime, BEYOND, false, VALUE, &mut imp),
        66,
    );
    answers(
        &rt,
        msg_lookup(alloc, &mut runtime, CHILD, false, 0, &mut imp),
        67,
    );
    answers(&rt, imp, 99);
    Ok(())
}

#[test]
fn superclasses_and_holders_are_told(rt: HostRuntime) -> Result<(), Fail> {
    let alloc = rt.alloc();
    let mut runtime = opened(&rt, alloc);
    let mut at = MsgClass {
        class: 99,
        meta: false,
    };
    answers(
        &rt,
        msg_superclass(alloc, &mut runtime, ROOT, false, &mut at),
        NONE,
    );
    answers(
        &rt,
        msg_superclass(alloc, &mut runtime, MADE, true, &mut at),
        NONE,
    );
    answers(
        &rt,
        msg_superclass(alloc, &mut runtime, BEYOND, false, &mut at),
        66,
    );
    answers(
        &rt,
        msg_holder(alloc, &mut runtime, CHILD, false, TAKE, &mut at),
        NONE,
    );
    answers(
        &rt,
        msg_holder(alloc, &mut runtime, CHILD, false, 0, &mut at),
        67,
    );
    answers(&rt, at.class, 99);
    answers(
        &rt,
        msg_superclass(alloc, &mut runtime, CHILD, true, &mut at),
        DONE,
    );
    same(&rt, (at.class, at.meta), (ROOT, true));
    answers(
        &rt,
        msg_superclass(alloc, &mut runtime, ROOT, true, &mut at),
        DONE,
    );
    same(&rt, (at.class, at.meta), (ROOT, false));
    answers(
        &rt,
        msg_holder(alloc, &mut runtime, CHILD, true, NEW, &mut at),
        DONE,
    );
    same(&rt, (at.class, at.meta), (ROOT, true));
    Ok(())
}

#[test]
fn methods_are_changed(rt: HostRuntime) -> Result<(), Fail> {
    let alloc = rt.alloc();
    let mut runtime = opened(&rt, alloc);
    answers(
        &rt,
        msg_add(alloc, &mut runtime, CHILD, false, VALUE, 2),
        DONE,
    );
    answers(&rt, found(&rt, alloc, &mut runtime, CHILD, false, VALUE), 2);
    answers(&rt, msg_add(alloc, &mut runtime, CHILD, false, VALUE, 1), 4);
    answers(
        &rt,
        msg_replace(alloc, &mut runtime, CHILD, false, VALUE, 3),
        DONE,
    );
    answers(&rt, found(&rt, alloc, &mut runtime, CHILD, false, VALUE), 3);
    answers(
        &rt,
        msg_set_imp(alloc, &mut runtime, CHILD, true, NEW, 1),
        DONE,
    );
    answers(&rt, found(&rt, alloc, &mut runtime, ROOT, true, NEW), 1);
    answers(
        &rt,
        msg_exchange(alloc, &mut runtime, CHILD, false, VALUE, ROOT, false, NAME),
        DONE,
    );
    answers(&rt, found(&rt, alloc, &mut runtime, CHILD, false, VALUE), 2);
    answers(&rt, found(&rt, alloc, &mut runtime, ROOT, false, NAME), 3);
    let mut count = 0;
    answers(&rt, msg_change_count(alloc, &mut runtime, &mut count), DONE);
    same(&rt, count, MADE_BY + 4);
    Ok(())
}

// Each number from 1 is a selector and an implementation, and all fit one another.
#[test]
fn any_number_is_an_implementation(rt: HostRuntime) -> Result<(), Fail> {
    let alloc = rt.alloc();
    let mut runtime = opened(&rt, alloc);
    answers(
        &rt,
        msg_add(alloc, &mut runtime, CHILD, false, u32::MAX, u32::MAX),
        DONE,
    );
    answers(
        &rt,
        found(&rt, alloc, &mut runtime, CHILD, false, u32::MAX),
        u32::MAX,
    );
    answers(&rt, msg_add(alloc, &mut runtime, CHILD, false, 1, 1), DONE);
    answers(&rt, found(&rt, alloc, &mut runtime, CHILD, false, 1), 1);
    answers(
        &rt,
        msg_exchange(alloc, &mut runtime, CHILD, false, u32::MAX, CHILD, false, 1),
        DONE,
    );
    answers(
        &rt,
        found(&rt, alloc, &mut runtime, CHILD, false, u32::MAX),
        1,
    );
    answers(
        &rt,
        found(&rt, alloc, &mut runtime, CHILD, false, 1),
        u32::MAX,
    );
    Ok(())
}

#[test]
fn a_refused_change_changes_nothing(rt: HostRuntime) -> Result<(), Fail> {
    let alloc = rt.alloc();
    let mut runtime = opened(&rt, alloc);
    answers(
        &rt,
        msg_replace(alloc, &mut runtime, BEYOND, false, VALUE, 1),
        1,
    );
    answers(
        &rt,
        msg_replace(alloc, &mut runtime, MADE, false, VALUE, 1),
        1,
    );
    answers(
        &rt,
        msg_replace(alloc, &mut runtime, CHILD, false, VALUE, 0),
        2,
    );
    answers(&rt, msg_add(alloc, &mut runtime, CHILD, false, NAME, 1), 4);
    answers(&rt, msg_add(alloc, &mut runtime, CHILD, false, TAKE, 0), 2);
    answers(
        &rt,
        msg_replace(alloc, &mut runtime, CHILD, false, 0, 1),
        67,
    );
    answers(
        &rt,
        msg_set_imp(alloc, &mut runtime, ROOT, false, NEW, 1),
        5,
    );
    answers(
        &rt,
        msg_exchange(alloc, &mut runtime, ROOT, false, VALUE, ROOT, false, 0),
        67,
    );
    answers(
        &rt,
        msg_exchange(alloc, &mut runtime, ROOT, false, VALUE, MADE, false, NAME),
        1,
    );
    answers(
        &rt,
        msg_exchange(alloc, &mut runtime, ROOT, false, VALUE, CHILD, false, TAKE),
        5,
    );
    let mut count = 99;
    answers(&rt, msg_change_count(alloc, &mut runtime, &mut count), DONE);
    same(&rt, count, MADE_BY);
    answers(&rt, found(&rt, alloc, &mut runtime, CHILD, false, VALUE), 1);
    answers(&rt, found(&rt, alloc, &mut runtime, CHILD, false, TAKE), 0);
    Ok(())
}

#[test]
fn categories_are_attached(rt: HostRuntime) -> Result<(), Fail> {
    let alloc = rt.alloc();
    let mut runtime = opened(&rt, alloc);
    let methods = [
        MethodRow { sel: VALUE, imp: 3 },
        MethodRow { sel: VALUE, imp: 2 },
    ];
    let class_methods = [MethodRow { sel: NEW, imp: 2 }];
    answers(
        &rt,
        msg_attach(alloc, &mut runtime, CHILD, &methods, &class_methods),
        DONE,
    );
    answers(&rt, found(&rt, alloc, &mut runtime, CHILD, false, VALUE), 3);
    answers(&rt, found(&rt, alloc, &mut runtime, CHILD, true, NEW), 2);
    answers(&rt, found(&rt, alloc, &mut runtime, CHILD, false, NAME), 3);
    let later = [MethodRow { sel: VALUE, imp: 5 }];
    answers(
        &rt,
        msg_attach(alloc, &mut runtime, CHILD, &later, &[]),
        DONE,
    );
    answers(&rt, found(&rt, alloc, &mut runtime, CHILD, false, VALUE), 5);
    Ok(())
}

#[test]
fn refused_categories_are_not_attached(rt: HostRuntime) -> Result<(), Fail> {
    let alloc = rt.alloc();
    let mut runtime = opened(&rt, alloc);
    let methods = [MethodRow { sel: VALUE, imp: 3 }];
    let unnamed = [MethodRow { sel: 0, imp: 2 }];
    let forwarding = [MethodRow { sel: NEW, imp: 0 }];
    answers(
        &rt,
        msg_attach(alloc, &mut runtime, CHILD, &methods, &unnamed),
        67,
    );
    answers(
        &rt,
        msg_attach(alloc, &mut runtime, CHILD, &methods, &forwarding),
        2,
    );
    answers(
        &rt,
        msg_attach(alloc, &mut runtime, MADE, &methods, &forwarding),
        1,
    );
    answers(
        &rt,
        msg_attach(alloc, &mut runtime, BEYOND, &methods, &[]),
        1,
    );
    answers(&rt, found(&rt, alloc, &mut runtime, CHILD, false, VALUE), 1);
    Ok(())
}

#[test]
fn classes_are_made(rt: HostRuntime) -> Result<(), Fail> {
    let alloc = rt.alloc();
    let mut runtime = opened(&rt, alloc);
    answers(&rt, msg_make_class(alloc, &mut runtime, MADE, OTHER), 1);
    answers(&rt, msg_make_class(alloc, &mut runtime, MADE, MADE), 1);
    answers(&rt, msg_make_class(alloc, &mut runtime, BEYOND, ROOT), 1);
    answers(&rt, msg_make_root_class(alloc, &mut runtime, BEYOND), 1);
    answers(&rt, msg_make_class(alloc, &mut runtime, MADE, CHILD), DONE);
    answers(&rt, msg_make_class(alloc, &mut runtime, MADE, CHILD), 8);
    answers(&rt, msg_make_root_class(alloc, &mut runtime, MADE), 8);
    answers(&rt, found(&rt, alloc, &mut runtime, MADE, false, NAME), 3);
    answers(&rt, found(&rt, alloc, &mut runtime, MADE, true, NEW), 4);
    answers(&rt, msg_make_root_class(alloc, &mut runtime, OTHER), DONE);
    answers(&rt, found(&rt, alloc, &mut runtime, OTHER, false, NAME), 0);
    Ok(())
}

#[test]
fn a_closed_runtime_answers_nothing(rt: HostRuntime) -> Result<(), Fail> {
    let alloc = rt.alloc();
    let mut runtime = RuntimeHandle::closed(alloc);
    let mut sender = SenderHandle::closed(alloc);
    let (mut number, mut count) = (99, 99);
    let mut at = MsgClass {
        class: 99,
        meta: false,
    };
    answers(
        &rt,
        msg_class_count(alloc, &mut runtime, &mut number),
        CLOSED,
    );
    answers(
        &rt,
        msg_change_count(alloc, &mut runtime, &mut count),
        CLOSED,
    );
    answers(
        &rt,
        msg_lookup(alloc, &mut runtime, ROOT, false, VALUE, &mut number),
        CLOSED,
    );
    answers(
        &rt,
        msg_superclass(alloc, &mut runtime, CHILD, false, &mut at),
        CLOSED,
    );
    answers(
        &rt,
        msg_holder(alloc, &mut runtime, CHILD, false, VALUE, &mut at),
        CLOSED,
    );
    answers(
        &rt,
        msg_add(alloc, &mut runtime, CHILD, false, VALUE, 2),
        CLOSED,
    );
    answers(
        &rt,
        msg_replace(alloc, &mut runtime, CHILD, false, VALUE, 2),
        CLOSED,
    );
    answers(
        &rt,
        msg_set_imp(alloc, &mut runtime, CHILD, false, VALUE, 2),
        CLOSED,
    );
    answers(
        &rt,
        msg_exchange(alloc, &mut runtime, ROOT, false, VALUE, ROOT, false, NAME),
        CLOSED,
    );
    answers(&rt, msg_attach(alloc, &mut runtime, ROOT, &[], &[]), CLOSED);
    answers(&rt, msg_make_class(alloc, &mut runtime, MADE, ROOT), CLOSED);
    answers(&rt, msg_make_root_class(alloc, &mut runtime, MADE), CLOSED);
    answers(
        &rt,
        msg_remove(alloc, &mut runtime, ROOT, false, NAME),
        CLOSED,
    );
    answers(&rt, msg_dispose_class(alloc, &mut runtime, MADE), CLOSED);
    answers(
        &rt,
        msg_sender_open(alloc, &mut runtime, &mut sender),
        CLOSED,
    );
    answers(&rt, number, 99);
    Ok(())
}

// A sender of a runtime.
pub(crate) fn sending<R: Abort>(rt: &R, alloc: Global, runtime: &mut RuntimeHandle) -> SenderHandle
    ensures kept { StaysAt runtime.old runtime.new }
    ensures together { AreOfOneArena runtime.new.held.state result.held.state }
{
    let mut sender = SenderHandle::closed(alloc);
    answers(rt, msg_sender_open(alloc, runtime, &mut sender), DONE);
    sender
}
