//! A call that lacks memory succeeds after there is some. `rt try --test --fail-alloc N` refuses
//! the Nth allocation.

use crate::answer::{CLOSED, DONE, NO_MEMORY};
use crate::asking::{msg_change_count, msg_lookup};
use crate::changing::{msg_attach, msg_make_class, msg_make_root_class};
use crate::listing::msg_change_all;
use crate::opening::{msg_close, msg_open_words};
use crate::runtime_handle::RuntimeHandle;
use crate::same::{answers, same};
use msg_host::{ChangeRow, MethodRow};
use std::alloc::Global;
use std::process::Abort;
use std::test::Fail;

const METHODS: &[MethodRow] = &[MethodRow { sel: 1, imp: 7 }];

// The number of the lack of memory among the faults of changes.
const CHANGE_MEMORY: u32 = 7;

fn opens<R: Abort>(rt: &R, alloc: Global, runtime: &mut RuntimeHandle) {
    let first = msg_open_words(alloc, runtime, &[2, 1, 1]);
    if first == NO_MEMORY {
        answers(rt, msg_close(alloc, runtime), CLOSED);
        answers(rt, msg_open_words(alloc, runtime, &[2, 1, 1]), DONE);
    } else {
        answers(rt, first, DONE);
    }
}

fn counts<R: Abort>(rt: &R, alloc: Global, runtime: &mut RuntimeHandle, changes: u64) {
    let mut count = 99;
    answers(rt, msg_change_count(alloc, runtime, &mut count), DONE);
    same(rt, count, changes);
}

fn makes<R: Abort>(rt: &R, alloc: Global, runtime: &mut RuntimeHandle) {
    if msg_make_root_class(alloc, runtime, 0) == CHANGE_MEMORY {
        counts(rt, alloc, runtime, 0);
        answers(rt, msg_make_root_class(alloc, runtime, 0), DONE);
    }
    counts(rt, alloc, runtime, 1);
    if msg_make_class(alloc, runtime, 1, 0) == CHANGE_MEMORY {
        counts(rt, alloc, runtime, 1);
        answers(rt, msg_make_class(alloc, runtime, 1, 0), DONE);
    }
    counts(rt, alloc, runtime, 2);
}

fn attaches<R: Abort>(rt: &R, alloc: Global, runtime: &mut RuntimeHandle) {
    if msg_attach(alloc, runtime, 0, METHODS, METHODS) == CHANGE_MEMORY {
        counts(rt, alloc, runtime, 2);
        answers(rt, msg_attach(alloc, runtime, 0, METHODS, METHODS), DONE);
    }
    counts(rt, alloc, runtime, 3);
    for meta in [false, true] {
        let mut imp = 99;
        answers(rt, msg_lookup(alloc, runtime, 1, meta, 1, &mut imp), DONE);
        answers(rt, imp, 7);
    }
}

// Rewrites the method of class 0.
fn replaces(imp: u32) -> ChangeRow {
    ChangeRow {
        kind: 2,
        class: 0,
        meta: 0,
        sel: 1,
        imp,
        other: 0,
        other_meta: 0,
        other_sel: 0,
    }
}

// A list is made in the room of the one before, which is as long, so it needs no memory.
fn lists<R: Abort>(rt: &R, alloc: Global, runtime: &mut RuntimeHandle) {
    let mut place = 0;
    let first = [replaces(8), replaces(9)];
    if msg_change_all(alloc, runtime, &first, &mut place) == CHANGE_MEMORY {
        counts(rt, alloc, runtime, 3);
        answers(rt, msg_change_all(alloc, runtime, &first, &mut place), DONE);
    }
    counts(rt, alloc, runtime, 4);
    let second = [replaces(10), replaces(11)];
    answers(
        rt,
        msg_change_all(alloc, runtime, &second, &mut place),
        DONE,
    );
    counts(rt, alloc, runtime, 5);
}

#[test]
fn what_wants_memory_is_done_once_there_is_some(rt: HostRuntime) -> Result<(), Fail> {
    let alloc = rt.alloc();
    let mut runtime = RuntimeHandle::closed(alloc);
    opens(&rt, alloc, &mut runtime);
    makes(&rt, alloc, &mut runtime);
    attaches(&rt, alloc, &mut runtime);
    lists(&rt, alloc, &mut runtime);
    Ok(())
}
