//! When old code may be unloaded: a sender that doesn't rest holds the count back, and one that is
//! closed doesn't.

ghost use Rattle.std.specs.Prelude.{◌≡◌};

use crate::answer::{CLOSED, DONE};
use crate::changing::msg_set_imp;
use crate::resting::{msg_rest, msg_seen_by_all};
use crate::runtime_handle::RuntimeHandle;
use crate::same::{answers, same};
use crate::sender_handle::SenderHandle;
use crate::sending::{msg_fill, msg_meet, msg_sender_close};
use crate::tests::{CHILD, MADE_BY, ROOT, VALUE, opened, sending};
use std::alloc::Global;
use std::process::Abort;
use std::test::Fail;

// All senders have seen this number of changes.
fn seen<R: Abort>(rt: &R, alloc: Global, runtime: &mut RuntimeHandle, count: u64)
    ensures kept { runtime.new.held.state ≡ runtime.old.held.state }
{
    let mut told = 99;
    answers(rt, msg_seen_by_all(alloc, runtime, &mut told), DONE);
    same(rt, told, count);
}

#[test]
fn a_sender_that_does_not_rest_holds_old_code_back(rt: HostRuntime) -> Result<(), Fail> {
    let alloc = rt.alloc();
    let mut runtime = opened(&rt, alloc);
    seen(&rt, alloc, &mut runtime, MADE_BY);
    let mut sender = sending(&rt, alloc, &mut runtime);
    answers(
        &rt,
        msg_set_imp(alloc, &mut runtime, ROOT, false, VALUE, 2),
        DONE,
    );
    seen(&rt, alloc, &mut runtime, MADE_BY);
    let mut imp = 99;
    answers(
        &rt,
        msg_fill(
            alloc,
            &mut runtime,
            &mut sender,
            CHILD,
            false,
            VALUE,
            &mut imp,
        ),
        DONE,
    );
    answers(&rt, msg_meet(alloc, &mut runtime, &mut sender), DONE);
    seen(&rt, alloc, &mut runtime, MADE_BY);
    answers(&rt, msg_rest(alloc, &mut runtime, &mut sender), DONE);
    seen(&rt, alloc, &mut runtime, MADE_BY + 1);
    Ok(())
}

#[test]
fn a_sender_that_is_closed_holds_nothing_back(rt: HostRuntime) -> Result<(), Fail> {
    let alloc = rt.alloc();
    let mut runtime = opened(&rt, alloc);
    let mut sender = sending(&rt, alloc, &mut runtime);
    answers(
        &rt,
        msg_set_imp(alloc, &mut runtime, ROOT, false, VALUE, 2),
        DONE,
    );
    seen(&rt, alloc, &mut runtime, MADE_BY);
    answers(
        &rt,
        msg_sender_close(alloc, &mut runtime, &mut sender),
        DONE,
    );
    seen(&rt, alloc, &mut runtime, MADE_BY + 1);
    answers(&rt, msg_rest(alloc, &mut runtime, &mut sender), CLOSED);
    Ok(())
}
