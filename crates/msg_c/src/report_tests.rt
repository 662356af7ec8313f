//! Reports, of an open runtime and of a closed one.

ghost use Rattle.msg_c.specs.Answers.{AreOfOneArena};

use crate::answer::{CLOSED, DONE, NO_SENDER};
use crate::changing::msg_set_imp;
use crate::opening::msg_open_words;
use crate::reporting::msg_report_words;
use crate::runtime_handle::RuntimeHandle;
use crate::same::{answers, same};
use crate::sender_handle::SenderHandle;
use crate::sending::{msg_fill, msg_sender_open};
use crate::tests::{CHILD, ROOT, VALUE, opened, sending};
use std::alloc::Global;
use std::process::Abort;
use std::test::Fail;

// The counts in a report with this number of words, which had other values before.
fn told<R: Abort, const N: usize>(rt: &R, alloc: Global, runtime: &mut RuntimeHandle) -> [u64; N] {
    let mut words = [99; N];
    answers(rt, msg_report_words(alloc, runtime, &mut words), DONE);
    words
}

// This number of entries was stored, each in an array of its own, and this number of arrays was
// taken away.
fn reports<R: Abort>(rt: &R, alloc: Global, runtime: &mut RuntimeHandle, stored: u64, taken: u64) {
    let words: [u64; 5] = told(rt, alloc, runtime);
    same(rt, words, [stored, stored, taken, taken, 0]);
}

// The number of entries that were stored, and the number of arrays that were installed.
pub(crate) fn stored<R: Abort>(rt: &R, alloc: Global, runtime: &mut RuntimeHandle) -> (u64, u64) {
    let words: [u64; 2] = told(rt, alloc, runtime);
    (words[0], words[1])
}

fn fills_and_flushes<R: Abort>(
    rt: &R,
    alloc: Global,
    runtime: &mut RuntimeHandle,
    sender: &mut SenderHandle,
)
    requires together { AreOfOneArena runtime.old.held.state sender.old.held.state }
{
    let mut imp = 99;
    answers(
        rt,
        msg_fill(alloc, runtime, sender, CHILD, false, VALUE, &mut imp),
        DONE,
    );
    reports(rt, alloc, runtime, 1, 0);
    answers(rt, msg_set_imp(alloc, runtime, ROOT, false, VALUE, 2), DONE);
    reports(rt, alloc, runtime, 1, 1);
}

#[test]
fn a_report_counts_what_was_done(rt: HostRuntime) -> Result<(), Fail> {
    let alloc = rt.alloc();
    let mut runtime = opened(&rt, alloc);
    reports(&rt, alloc, &mut runtime, 0, 0);
    let mut sender = sending(&rt, alloc, &mut runtime);
    fills_and_flushes(&rt, alloc, &mut runtime, &mut sender);
    Ok(())
}

#[test]
fn a_closed_runtime_reports_nothing(rt: HostRuntime) -> Result<(), Fail> {
    let alloc = rt.alloc();
    let mut runtime = RuntimeHandle::closed(alloc);
    let mut words = [99; 17];
    answers(
        &rt,
        msg_report_words(alloc, &mut runtime, &mut words),
        CLOSED,
    );
    same(&rt, (words[0], words[16]), (99, 99));
    Ok(())
}

// One sender too many is asked for, and there is no array of four for an entry, once with a look at
// all senders. All other counts stay 0, also beyond the last.
#[test]
fn a_report_counts_what_was_wanted(rt: HostRuntime) -> Result<(), Fail> {
    let alloc = rt.alloc();
    let mut runtime = RuntimeHandle::closed(alloc);
    answers(
        &rt,
        msg_open_words(alloc, &mut runtime, &[1, 1, 0, 1]),
        DONE,
    );
    let mut sender = sending(&rt, alloc, &mut runtime);
    let mut another = SenderHandle::closed(alloc);
    answers(
        &rt,
        msg_sender_open(alloc, &mut runtime, &mut another),
        NO_SENDER,
    );
    let mut imp = 99;
    answers(
        &rt,
        msg_fill(alloc, &mut runtime, &mut sender, 0, false, 1, &mut imp),
        DONE,
    );
    let words: [u64; 20] = told(&rt, alloc, &mut runtime);
    same(
        &rt,
        words,
        [0, 0, 0, 0, 0, 1, 0, 1, 0, 0, 0, 0, 0, 0, 0, 0, 1, 0, 0, 0],
    );
    Ok(())
}
