//! Questions about the contents of a runtime.

use crate::answer::{CLOSED, DONE, NO_ROOM};
use crate::changing::{msg_attach, msg_make_class};
use crate::contents::{msg_classes, msg_classes_below, msg_methods};
use crate::runtime_handle::RuntimeHandle;
use crate::same::{answers, same};
use crate::tests::{BEYOND, CHILD, MADE, NAME, NEW, ROOT, VALUE, opened};
use msg_host::MethodRow;
use std::alloc::Global;
use std::process::Abort;
use std::test::Fail;

const NO_CLASS: u32 = 66;

const NOTHING: MethodRow = MethodRow { sel: 0, imp: 0 };

// The method at a place.
fn is_method<R: Abort>(rt: &R, methods: &[MethodRow], place: usize, wanted: (u32, u32)) {
    let found = methods.get(place).map_or((0, 0), |it| (it.sel, it.imp));
    same(rt, found, wanted);
}

fn refused<R: Abort>(rt: &R, alloc: Global, runtime: &mut RuntimeHandle, class: u32, wanted: u32) {
    let mut count = 99;
    let mut methods = [NOTHING];
    answers(
        rt,
        msg_methods(alloc, runtime, class, false, &mut methods, &mut count),
        wanted,
    );
    answers(
        rt,
        msg_classes_below(alloc, runtime, class, &mut [7], &mut count),
        wanted,
    );
    same(rt, count, 99);
    is_method(rt, &methods, 0, (0, 0));
}

#[test]
fn the_newest_method_comes_first(rt: HostRuntime) -> Result<(), Fail> {
    let alloc = rt.alloc();
    let mut runtime = opened(&rt, alloc);
    let again = &[MethodRow { sel: NAME, imp: 9 }];
    answers(&rt, msg_attach(alloc, &mut runtime, ROOT, again, &[]), DONE);
    let mut methods = [NOTHING; 4];
    let mut count = 0;
    answers(
        &rt,
        msg_methods(alloc, &mut runtime, ROOT, false, &mut methods, &mut count),
        DONE,
    );
    same(&rt, count, 3);
    is_method(&rt, &methods, 0, (NAME, 9));
    is_method(&rt, &methods, 1, (VALUE, 1));
    is_method(&rt, &methods, 2, (NAME, 2));
    is_method(&rt, &methods, 3, (0, 0));
    answers(
        &rt,
        msg_methods(
            alloc,
            &mut runtime,
            ROOT,
            true,
            &mut methods[..0],
            &mut count,
        ),
        NO_ROOM,
    );
    same(&rt, count, 1);
    is_method(&rt, &methods, 0, (NAME, 9));
    answers(
        &rt,
        msg_methods(
            alloc,
            &mut runtime,
            ROOT,
            true,
            &mut methods[..1],
            &mut count,
        ),
        DONE,
    );
    is_method(&rt, &methods, 0, (NEW, 4));
    Ok(())
}

#[test]
fn classes_are_shown_after_their_superclasses(rt: HostRuntime) -> Result<(), Fail> {
    let alloc = rt.alloc();
    let mut runtime = opened(&rt, alloc);
    answers(&rt, msg_make_class(alloc, &mut runtime, MADE, CHILD), DONE);
    let mut classes = [7, 7, 7];
    let mut count = 0;
    answers(
        &rt,
        msg_classes(alloc, &mut runtime, &mut classes, &mut count),
        DONE,
    );
    same(
        &rt,
        (classes[0], classes[1], classes[2]),
        (ROOT, CHILD, MADE),
    );
    same(&rt, count, 3);
    let mut below = [7];
    answers(
        &rt,
        msg_classes_below(alloc, &mut runtime, ROOT, &mut below, &mut count),
        NO_ROOM,
    );
    same(&rt, (count, below[0]), (2, 7));
    answers(
        &rt,
        msg_classes_below(alloc, &mut runtime, CHILD, &mut below, &mut count),
        DONE,
    );
    same(&rt, (count, below[0]), (1, MADE));
    Ok(())
}

#[test]
fn a_class_that_is_nobodys_has_nothing_to_show(rt: HostRuntime) -> Result<(), Fail> {
    let alloc = rt.alloc();
    let mut runtime = opened(&rt, alloc);
    refused(&rt, alloc, &mut runtime, BEYOND, NO_CLASS);
    let mut closed = RuntimeHandle::closed(alloc);
    refused(&rt, alloc, &mut closed, ROOT, CLOSED);
    Ok(())
}
