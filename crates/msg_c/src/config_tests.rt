//! What a config may ask for, and what it then gives.

ghost use Rattle.std.specs.Prelude.{◌<◌};
ghost use Rattle.msg_c.specs.Answers.{AreOfOneArena};

use crate::answer::{BAD_CONFIG, DONE, NO_SENDER};
use crate::asking::msg_class_count;
use crate::changing::msg_make_root_class;
use crate::opening::msg_open_words;
use crate::report_tests::stored;
use crate::runtime_handle::RuntimeHandle;
use crate::same::{answers, same};
use crate::sender_handle::SenderHandle;
use crate::sending::{msg_fill, msg_sender_open};
use crate::tests::sending;
use std::alloc::Global;
use std::process::Abort;
use std::test::Fail;

// What opening with these words returns.
fn opens(alloc: Global, config: &[u32]) -> u32 {
    let mut runtime = RuntimeHandle::closed(alloc);
    msg_open_words(alloc, &mut runtime, config)
}

fn opened<R: Abort>(rt: &R, alloc: Global, config: &[u32]) -> RuntimeHandle {
    let mut runtime = RuntimeHandle::closed(alloc);
    answers(rt, msg_open_words(alloc, &mut runtime, config), DONE);
    runtime
}

// The words of a config, one of which isn't 0.
fn alone(place: usize, word: u32) -> [u32; 14]
    requires { place < 14 }
{
    let mut words = [0; 14];
    words[place] = word;
    words
}

#[test]
fn the_most_of_a_field_is_given_and_no_more(rt: HostRuntime) -> Result<(), Fail> {
    let alloc = rt.alloc();
    answers(&rt, opens(alloc, &[1_048_576]), DONE);
    answers(&rt, opens(alloc, &[1_048_577]), BAD_CONFIG);
    answers(&rt, opens(alloc, &[1, 16_384]), DONE);
    answers(&rt, opens(alloc, &[1, 16_385]), BAD_CONFIG);
    answers(&rt, opens(alloc, &[1, 1, 65_535]), DONE);
    for place in 2..11 {
        answers(&rt, opens(alloc, &alone(place, 65_536)), BAD_CONFIG);
        answers(&rt, opens(alloc, &alone(place, u32::MAX)), BAD_CONFIG);
    }
    Ok(())
}

#[test]
fn fields_that_are_not_known_have_to_be_0(rt: HostRuntime) -> Result<(), Fail> {
    let alloc = rt.alloc();
    answers(&rt, opens(alloc, &alone(0, 1)), DONE);
    answers(&rt, opens(alloc, &alone(11, 1)), BAD_CONFIG);
    answers(&rt, opens(alloc, &alone(13, 1)), BAD_CONFIG);
    Ok(())
}

// The last of this number of class numbers is made, and none beyond it.
fn ends<R: Abort>(rt: &R, alloc: Global, runtime: &mut RuntimeHandle, numbers: u32)
    requires { 0 < numbers }
{
    let mut count = 0;
    answers(rt, msg_class_count(alloc, runtime, &mut count), DONE);
    same(rt, count, numbers);
    answers(rt, msg_make_root_class(alloc, runtime, numbers), 1);
    answers(rt, msg_make_root_class(alloc, runtime, numbers - 1), DONE);
}

// This number of senders is opened, and no more.
fn has_senders<R: Abort>(rt: &R, alloc: Global, runtime: &mut RuntimeHandle, senders: u32) {
    for _ in 0..senders {
        let mut another = SenderHandle::closed(alloc);
        answers(rt, msg_sender_open(alloc, runtime, &mut another), DONE);
    }
    let mut last = SenderHandle::closed(alloc);
    answers(rt, msg_sender_open(alloc, runtime, &mut last), NO_SENDER);
}

#[test]
fn a_field_of_0_is_the_default(rt: HostRuntime) -> Result<(), Fail> {
    let alloc = rt.alloc();
    let mut runtime = opened(&rt, alloc, &[]);
    ends(&rt, alloc, &mut runtime, 16_384);
    has_senders(&rt, alloc, &mut runtime, 1_024);
    Ok(())
}

#[test]
fn what_is_asked_for_is_given(rt: HostRuntime) -> Result<(), Fail> {
    let alloc = rt.alloc();
    let mut runtime = opened(&rt, alloc, &[1, 1]);
    ends(&rt, alloc, &mut runtime, 1);
    has_senders(&rt, alloc, &mut runtime, 1);
    let mut large = opened(&rt, alloc, &[1_048_576]);
    ends(&rt, alloc, &mut large, 1_048_576);
    let mut many = opened(&rt, alloc, &[1, 16_384]);
    has_senders(&rt, alloc, &mut many, 16_384);
    Ok(())
}

// A lookup that finds nothing, which is cached if there is an array with room.
fn fills<R: Abort>(
    rt: &R,
    alloc: Global,
    runtime: &mut RuntimeHandle,
    sender: &mut SenderHandle,
    class: u32,
    sel: u32,
)
    requires together { AreOfOneArena runtime.old.held.state sender.old.held.state }
    ensures together { AreOfOneArena runtime.new.held.state sender.new.held.state }
{
    let mut imp = 99;
    answers(
        rt,
        msg_fill(alloc, runtime, sender, class, false, sel, &mut imp),
        DONE,
    );
    answers(rt, imp, 0);
}

// There is one array of four entries, of which three are used. If it is full, nothing more is
// cached, not even for another class.
#[test]
fn arrays_that_are_asked_for_are_all_there_is(rt: HostRuntime) -> Result<(), Fail> {
    let alloc = rt.alloc();
    let mut runtime = opened(&rt, alloc, &[2, 1, 1]);
    let mut sender = sending(&rt, alloc, &mut runtime);
    fills(&rt, alloc, &mut runtime, &mut sender, 0, 1);
    fills(&rt, alloc, &mut runtime, &mut sender, 0, 2);
    fills(&rt, alloc, &mut runtime, &mut sender, 0, 3);
    fills(&rt, alloc, &mut runtime, &mut sender, 0, 4);
    fills(&rt, alloc, &mut runtime, &mut sender, 1, 1);
    same(&rt, stored(&rt, alloc, &mut runtime), (3, 1));
    Ok(())
}
