//! Several lookups as one: what they find, and each fault once.

use crate::answer::{CLOSED, DONE, MISSED};
use crate::changing::msg_replace;
use crate::lookups::{msg_fill_all, msg_probe_all};
use crate::opening::msg_close;
use crate::same::{answers, same};
use crate::sending::msg_sender_close;
use crate::tests::{BEYOND, CHILD, NEW, ROOT, VALUE, opened, sending};
use msg_host::LookupRow;
use std::test::Fail;

fn row(class: u32, meta: u32, sel: u32) -> LookupRow {
    LookupRow { class, meta, sel }
}

// A lookup row of a class, and one of a metaclass.
fn two() -> [LookupRow; 2] {
    [row(CHILD, 0, VALUE), row(CHILD, 1, NEW)]
}

#[test]
fn lookups_are_found_as_one(rt: HostRuntime) -> Result<(), Fail> {
    let alloc = rt.alloc();
    let mut runtime = opened(&rt, alloc);
    let mut sender = sending(&rt, alloc, &mut runtime);
    let (mut imps, mut place) = ([99; 2], 99);
    answers(
        &rt,
        msg_probe_all(alloc, &mut sender, &two(), &mut imps, &mut place),
        MISSED,
    );
    answers(
        &rt,
        msg_fill_all(
            alloc,
            &mut runtime,
            &mut sender,
            &two(),
            &mut imps,
            &mut place,
        ),
        DONE,
    );
    let found = imps[0];
    answers(&rt, imps[1], 4);
    imps = [99; 2];
    answers(
        &rt,
        msg_probe_all(alloc, &mut sender, &two(), &mut imps, &mut place),
        DONE,
    );
    same(&rt, (imps[0], imps[1]), (found, 4));
    answers(
        &rt,
        msg_replace(alloc, &mut runtime, CHILD, false, VALUE, 9),
        DONE,
    );
    answers(
        &rt,
        msg_probe_all(alloc, &mut sender, &two(), &mut imps, &mut place),
        MISSED,
    );
    answers(
        &rt,
        msg_fill_all(
            alloc,
            &mut runtime,
            &mut sender,
            &two(),
            &mut imps,
            &mut place,
        ),
        DONE,
    );
    same(&rt, (imps[0], imps[1], place), (9, 4, 99));
    Ok(())
}

#[test]
fn lookups_that_are_not_asked_are_told(rt: HostRuntime) -> Result<(), Fail> {
    let alloc = rt.alloc();
    let mut runtime = opened(&rt, alloc);
    let mut sender = sending(&rt, alloc, &mut runtime);
    let (mut imps, mut place) = ([99; 2], 99);
    answers(
        &rt,
        msg_probe_all(
            alloc,
            &mut sender,
            &[row(ROOT, 0, VALUE)],
            &mut imps,
            &mut place,
        ),
        76,
    );
    same(&rt, place, 99);
    let bad = [row(ROOT, 0, VALUE), row(ROOT, 2, VALUE)];
    answers(
        &rt,
        msg_probe_all(alloc, &mut sender, &bad, &mut imps, &mut place),
        75,
    );
    same(&rt, place, 1);
    let bad = [row(BEYOND, 0, VALUE), row(ROOT, 0, 0)];
    answers(
        &rt,
        msg_fill_all(
            alloc,
            &mut runtime,
            &mut sender,
            &bad,
            &mut imps,
            &mut place,
        ),
        66,
    );
    same(&rt, place, 0);
    let bad = [row(ROOT, 0, VALUE), row(ROOT, 0, 0)];
    answers(
        &rt,
        msg_fill_all(
            alloc,
            &mut runtime,
            &mut sender,
            &bad,
            &mut imps,
            &mut place,
        ),
        67,
    );
    same(&rt, (imps[0], imps[1], place), (99, 99, 1));
    answers(
        &rt,
        msg_sender_close(alloc, &mut runtime, &mut sender),
        DONE,
    );
    answers(
        &rt,
        msg_probe_all(alloc, &mut sender, &two(), &mut imps, &mut place),
        CLOSED,
    );
    answers(&rt, msg_close(alloc, &mut runtime), DONE);
    answers(
        &rt,
        msg_fill_all(
            alloc,
            &mut runtime,
            &mut sender,
            &two(),
            &mut imps,
            &mut place,
        ),
        CLOSED,
    );
    Ok(())
}
