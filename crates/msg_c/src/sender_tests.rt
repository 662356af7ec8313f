//! Senders: each call once on its happy path, and each fault once.

use crate::answer::{ALREADY_OPEN, CLOSED, DONE, MISSED, NO_SENDER, NOT_NOTED, NOTED_NONE};
use crate::changing::{msg_replace, msg_set_imp};
use crate::opening::msg_close;
use crate::same::{answers, same};
use crate::sender_handle::SenderHandle;
use crate::sending::{
    msg_fill, msg_meet, msg_probe, msg_recall, msg_refresh, msg_sender_close, msg_sender_open,
    msg_sender_size, msg_stamp,
};
use crate::tests::{BEYOND, CHILD, MADE_BY, NAME, NEW, ROOT, VALUE, opened, sending};
use std::test::Fail;

#[test]
fn what_is_filled_is_hit(rt: HostRuntime) -> Result<(), Fail> {
    let alloc = rt.alloc();
    let mut runtime = opened(&rt, alloc);
    let mut sender = sending(&rt, alloc, &mut runtime);
    let mut imp = 99;
    answers(
        &rt,
        msg_probe(alloc, &mut sender, CHILD, true, NEW, &mut imp),
        MISSED,
    );
    answers(&rt, imp, 99);
    answers(
        &rt,
        msg_fill(alloc, &mut runtime, &mut sender, CHILD, true, NEW, &mut imp),
        DONE,
    );
    answers(&rt, imp, 4);
    imp = 99;
    answers(
        &rt,
        msg_probe(alloc, &mut sender, CHILD, true, NEW, &mut imp),
        DONE,
    );
    answers(&rt, imp, 4);
    Ok(())
}

#[test]
fn a_change_flushes_and_is_seen(rt: HostRuntime) -> Result<(), Fail> {
    let alloc = rt.alloc();
    let mut runtime = opened(&rt, alloc);
    let mut sender = sending(&rt, alloc, &mut runtime);
    let (mut imp, mut count) = (99, 99);
    answers(
        &rt,
        msg_fill(
            alloc,
            &mut runtime,
            &mut sender,
            CHILD,
            false,
            VALUE,
            &mut imp,
        ),
        DONE,
    );
    answers(&rt, imp, 1);
    answers(
        &rt,
        msg_set_imp(alloc, &mut runtime, ROOT, false, VALUE, 2),
        DONE,
    );
    answers(&rt, msg_refresh(alloc, &mut sender, &mut count), DONE);
    same(&rt, count, MADE_BY + 1);
    answers(
        &rt,
        msg_probe(alloc, &mut sender, CHILD, false, VALUE, &mut imp),
        MISSED,
    );
    answers(
        &rt,
        msg_fill(
            alloc,
            &mut runtime,
            &mut sender,
            CHILD,
            false,
            VALUE,
            &mut imp,
        ),
        DONE,
    );
    answers(&rt, imp, 2);
    Ok(())
}

#[test]
fn senders_meet_and_close(rt: HostRuntime) -> Result<(), Fail> {
    let alloc = rt.alloc();
    let mut runtime = opened(&rt, alloc);
    let mut sender = sending(&rt, alloc, &mut runtime);
    answers(
        &rt,
        msg_sender_open(alloc, &mut runtime, &mut sender),
        ALREADY_OPEN,
    );
    answers(&rt, msg_meet(alloc, &mut runtime, &mut sender), DONE);
    answers(
        &rt,
        msg_sender_close(alloc, &mut runtime, &mut sender),
        DONE,
    );
    answers(
        &rt,
        msg_sender_close(alloc, &mut runtime, &mut sender),
        CLOSED,
    );
    Ok(())
}

#[test]
fn a_sender_refuses_what_is_nobodys(rt: HostRuntime) -> Result<(), Fail> {
    let alloc = rt.alloc();
    let mut runtime = opened(&rt, alloc);
    let mut sender = sending(&rt, alloc, &mut runtime);
    let mut imp = 99;
    answers(
        &rt,
        msg_probe(alloc, &mut sender, BEYOND, false, VALUE, &mut imp),
        66,
    );
    answers(
        &rt,
        msg_probe(alloc, &mut sender, CHILD, false, 0, &mut imp),
        67,
    );
    answers(
        &rt,
        msg_fill(
            alloc,
            &mut runtime,
            &mut sender,
            BEYOND,
            false,
            VALUE,
            &mut imp,
        ),
        66,
    );
    answers(
        &rt,
        msg_fill(alloc, &mut runtime, &mut sender, CHILD, false, 0, &mut imp),
        67,
    );
    answers(&rt, imp, 99);
    Ok(())
}

#[test]
fn a_closed_sender_answers_nothing(rt: HostRuntime) -> Result<(), Fail> {
    let alloc = rt.alloc();
    let mut runtime = opened(&rt, alloc);
    let mut sender = SenderHandle::closed(alloc);
    let (mut imp, mut count) = (99, 99);
    answers(
        &rt,
        msg_probe(alloc, &mut sender, CHILD, false, VALUE, &mut imp),
        CLOSED,
    );
    answers(
        &rt,
        msg_fill(
            alloc,
            &mut runtime,
            &mut sender,
            CHILD,
            false,
            VALUE,
            &mut imp,
        ),
        CLOSED,
    );
    answers(&rt, msg_meet(alloc, &mut runtime, &mut sender), CLOSED);
    answers(&rt, msg_refresh(alloc, &mut sender, &mut count), CLOSED);
    same(&rt, (imp, count), (99, 99));
    Ok(())
}

#[test]
fn as_many_senders_are_out_as_are_asked_for(rt: HostRuntime) -> Result<(), Fail> {
    let alloc = rt.alloc();
    let mut runtime = opened(&rt, alloc);
    let mut first = sending(&rt, alloc, &mut runtime);
    let _second = sending(&rt, alloc, &mut runtime);
    let mut third = sending(&rt, alloc, &mut runtime);
    let mut last = SenderHandle::closed(alloc);
    answers(
        &rt,
        msg_sender_open(alloc, &mut runtime, &mut last),
        NO_SENDER,
    );
    answers(&rt, msg_sender_close(alloc, &mut runtime, &mut third), DONE);
    answers(&rt, msg_sender_open(alloc, &mut runtime, &mut last), DONE);
    answers(&rt, msg_close(alloc, &mut runtime), DONE);
    let mut imp = 99;
    answers(
        &rt,
        msg_probe(alloc, &mut first, CHILD, false, VALUE, &mut imp),
        MISSED,
    );
    Ok(())
}

#[test]
fn a_sender_sees_a_change_of_a_class_that_it_asks(rt: HostRuntime) -> Result<(), Fail> {
    let alloc = rt.alloc();
    let mut runtime = opened(&rt, alloc);
    let mut sender = sending(&rt, alloc, &mut runtime);
    let (mut imp, mut count) = (99, 99);
    answers(
        &rt,
        msg_fill(
            alloc,
            &mut runtime,
            &mut sender,
            CHILD,
            false,
            VALUE,
            &mut imp,
        ),
        DONE,
    );
    answers(
        &rt,
        msg_replace(alloc, &mut runtime, CHILD, false, VALUE, 2),
        DONE,
    );
    imp = 99;
    answers(
        &rt,
        msg_probe(alloc, &mut sender, CHILD, false, VALUE, &mut imp),
        MISSED,
    );
    answers(&rt, imp, 99);
    answers(&rt, msg_refresh(alloc, &mut sender, &mut count), DONE);
    same(&rt, count, MADE_BY + 1);
    Ok(())
}

#[test]
fn a_sender_is_closed_after_its_runtime(rt: HostRuntime) -> Result<(), Fail> {
    let alloc = rt.alloc();
    let mut runtime = opened(&rt, alloc);
    let mut sender = sending(&rt, alloc, &mut runtime);
    answers(&rt, msg_close(alloc, &mut runtime), DONE);
    answers(
        &rt,
        msg_sender_close(alloc, &mut runtime, &mut sender),
        DONE,
    );
    answers(
        &rt,
        msg_sender_close(alloc, &mut runtime, &mut sender),
        CLOSED,
    );
    Ok(())
}

// The slots of Child and of its metaclass.
const CHILD_SLOT: usize = 2;

const META_SLOT: usize = 3;

// A selector for which no class has a method.
const NOWHERE: u32 = 77;

#[test]
fn what_is_noted_is_recalled_since_its_count(rt: HostRuntime) -> Result<(), Fail> {
    let alloc = rt.alloc();
    let mut runtime = opened(&rt, alloc);
    let mut sender = sending(&rt, alloc, &mut runtime);
    let mut imp = 99;
    same(
        &rt,
        msg_recall(&sender, CHILD_SLOT, VALUE, MADE_BY),
        NOT_NOTED,
    );
    answers(
        &rt,
        msg_fill(
            alloc,
            &mut runtime,
            &mut sender,
            CHILD,
            false,
            VALUE,
            &mut imp,
        ),
        DONE,
    );
    same(&rt, msg_recall(&sender, CHILD_SLOT, VALUE, MADE_BY), 1);
    answers(
        &rt,
        msg_fill(
            alloc,
            &mut runtime,
            &mut sender,
            CHILD,
            false,
            NOWHERE,
            &mut imp,
        ),
        DONE,
    );
    same(
        &rt,
        msg_recall(&sender, CHILD_SLOT, NOWHERE, MADE_BY),
        NOTED_NONE,
    );
    same(
        &rt,
        msg_recall(&sender, META_SLOT, VALUE, MADE_BY),
        NOT_NOTED,
    );
    same(
        &rt,
        msg_recall(&sender, CHILD_SLOT, NAME, MADE_BY),
        NOT_NOTED,
    );
    same(
        &rt,
        msg_recall(&sender, CHILD_SLOT, VALUE, MADE_BY + 1),
        NOT_NOTED,
    );
    answers(
        &rt,
        msg_replace(alloc, &mut runtime, CHILD, false, VALUE, 2),
        DONE,
    );
    same(
        &rt,
        msg_recall(&sender, CHILD_SLOT, VALUE, MADE_BY + 1),
        NOT_NOTED,
    );
    answers(
        &rt,
        msg_fill(
            alloc,
            &mut runtime,
            &mut sender,
            CHILD,
            false,
            VALUE,
            &mut imp,
        ),
        DONE,
    );
    same(&rt, msg_recall(&sender, CHILD_SLOT, VALUE, MADE_BY + 1), 2);
    same(&rt, msg_recall(&sender, CHILD_SLOT, VALUE, MADE_BY), 2);
    Ok(())
}

// The stamp of a class reference that is closed.
const ALL_CHANGES: u64 = u64::MAX;

#[test]
fn a_stamp_says_since_when_a_class_was_not_changed(rt: HostRuntime) -> Result<(), Fail> {
    let alloc = rt.alloc();
    let mut runtime = opened(&rt, alloc);
    let mut sender = sending(&rt, alloc, &mut runtime);
    let (mut imp, mut stamp) = (99, 99);
    answers(
        &rt,
        msg_stamp(alloc, &mut sender, BEYOND, false, &mut stamp),
        66,
    );
    same(&rt, stamp, 99);
    answers(
        &rt,
        msg_stamp(alloc, &mut sender, CHILD, false, &mut stamp),
        DONE,
    );
    same(&rt, stamp, ALL_CHANGES);
    answers(
        &rt,
        msg_fill(
            alloc,
            &mut runtime,
            &mut sender,
            CHILD,
            false,
            VALUE,
            &mut imp,
        ),
        DONE,
    );
    answers(
        &rt,
        msg_stamp(alloc, &mut sender, CHILD, false, &mut stamp),
        DONE,
    );
    same(&rt, stamp, MADE_BY);
    answers(
        &rt,
        msg_replace(alloc, &mut runtime, CHILD, true, VALUE, 2),
        DONE,
    );
    answers(
        &rt,
        msg_stamp(alloc, &mut sender, CHILD, false, &mut stamp),
        DONE,
    );
    same(&rt, stamp, MADE_BY);
    same(&rt, msg_recall(&sender, CHILD_SLOT, VALUE, stamp), 1);
    answers(
        &rt,
        msg_replace(alloc, &mut runtime, CHILD, false, VALUE, 2),
        DONE,
    );
    answers(
        &rt,
        msg_stamp(alloc, &mut sender, CHILD, false, &mut stamp),
        DONE,
    );
    same(&rt, stamp, ALL_CHANGES);
    same(
        &rt,
        msg_recall(&sender, CHILD_SLOT, VALUE, stamp),
        NOT_NOTED,
    );
    Ok(())
}

#[test]
fn a_closed_handle_recalls_nothing(rt: HostRuntime) -> Result<(), Fail> {
    let alloc = rt.alloc();
    let mut runtime = opened(&rt, alloc);
    let mut sender = SenderHandle::closed(alloc);
    same(&rt, msg_recall(&sender, 0, 0, 0), NOT_NOTED);
    answers(&rt, msg_sender_open(alloc, &mut runtime, &mut sender), DONE);
    same(&rt, msg_recall(&sender, 0, 0, 0), NOT_NOTED);
    let mut imp = 99;
    answers(
        &rt,
        msg_fill(alloc, &mut runtime, &mut sender, CHILD, true, NEW, &mut imp),
        DONE,
    );
    same(&rt, msg_recall(&sender, META_SLOT, NEW, MADE_BY), 4);
    answers(
        &rt,
        msg_sender_close(alloc, &mut runtime, &mut sender),
        DONE,
    );
    same(&rt, msg_recall(&sender, META_SLOT, NEW, MADE_BY), NOT_NOTED);
    answers(&rt, msg_sender_open(alloc, &mut runtime, &mut sender), DONE);
    same(&rt, msg_recall(&sender, META_SLOT, NEW, MADE_BY), NOT_NOTED);
    same(&rt, msg_sender_size(), 524_384);
    Ok(())
}
