//! Lists of changes that are made as one, and taken back.

use crate::answer::DONE;
use crate::changing::{msg_attach, msg_dispose_class, msg_make_class, msg_remove};
use crate::listing::{msg_change_all, msg_change_all_with_undo};
use crate::same::{answers, same};
use crate::tests::{CHILD, MADE, NAME, VALUE, found, opened};
use msg_host::{ChangeRow, MethodRow};
use std::test::Fail;

fn row(kind: u32, class: u32, sel: u32, imp: u32, other: u32) -> ChangeRow {
    ChangeRow {
        kind,
        class,
        meta: 0,
        sel,
        imp,
        other,
        other_meta: 0,
        other_sel: 0,
    }
}

// A class below Child with `value` by implementation 7, and Child's own `name` by 8.
fn brought() -> [ChangeRow; 3] {
    [
        row(5, MADE, 0, 0, CHILD),
        row(1, MADE, VALUE, 7, 0),
        row(2, CHILD, NAME, 8, 0),
    ]
}

#[test]
fn a_list_is_taken_back(rt: HostRuntime) -> Result<(), Fail> {
    let alloc = rt.alloc();
    let mut runtime = opened(&rt, alloc);
    let (mut undone, mut place) = (99, 99);
    let mut few = [row(0, 0, 0, 0, 0); 2];
    answers(
        &rt,
        msg_change_all_with_undo(
            alloc,
            &mut runtime,
            &brought(),
            &mut few,
            &mut undone,
            &mut place,
        ),
        76,
    );
    same(&rt, (undone, place), (3, 99));
    answers(&rt, found(&rt, alloc, &mut runtime, MADE, false, VALUE), 0);
    let mut undo = [row(0, 0, 0, 0, 0); 3];
    answers(
        &rt,
        msg_change_all_with_undo(
            alloc,
            &mut runtime,
            &brought(),
            &mut undo,
            &mut undone,
            &mut place,
        ),
        DONE,
    );
    same(&rt, (undone, place), (3, 99));
    answers(&rt, found(&rt, alloc, &mut runtime, MADE, false, VALUE), 7);
    answers(&rt, found(&rt, alloc, &mut runtime, MADE, false, NAME), 8);
    answers(
        &rt,
        msg_change_all(alloc, &mut runtime, &undo, &mut place),
        DONE,
    );
    answers(&rt, found(&rt, alloc, &mut runtime, MADE, false, VALUE), 0);
    answers(&rt, found(&rt, alloc, &mut runtime, CHILD, false, NAME), 3);
    Ok(())
}

#[test]
fn methods_and_classes_are_taken_away(rt: HostRuntime) -> Result<(), Fail> {
    let alloc = rt.alloc();
    let mut runtime = opened(&rt, alloc);
    answers(&rt, msg_make_class(alloc, &mut runtime, MADE, CHILD), DONE);
    answers(&rt, msg_dispose_class(alloc, &mut runtime, CHILD), 9);
    answers(
        &rt,
        msg_attach(
            alloc,
            &mut runtime,
            CHILD,
            &[MethodRow { sel: NAME, imp: 9 }],
            &[],
        ),
        DONE,
    );
    answers(&rt, found(&rt, alloc, &mut runtime, MADE, false, NAME), 9);
    answers(
        &rt,
        msg_remove(alloc, &mut runtime, CHILD, false, NAME),
        DONE,
    );
    answers(&rt, found(&rt, alloc, &mut runtime, MADE, false, NAME), 3);
    answers(
        &rt,
        msg_remove(alloc, &mut runtime, CHILD, false, NAME),
        DONE,
    );
    answers(&rt, found(&rt, alloc, &mut runtime, MADE, false, NAME), 2);
    answers(&rt, msg_remove(alloc, &mut runtime, CHILD, false, NAME), 5);
    answers(&rt, msg_remove(alloc, &mut runtime, CHILD, false, 0), 67);
    answers(&rt, msg_dispose_class(alloc, &mut runtime, MADE), DONE);
    answers(&rt, found(&rt, alloc, &mut runtime, MADE, false, NAME), 0);
    answers(&rt, msg_dispose_class(alloc, &mut runtime, MADE), 1);
    Ok(())
}
