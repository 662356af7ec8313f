//! Senders in threads of their own, concurrently with changes.

ghost use Rattle.std.specs.Prelude.{◌≡◌, ◌<◌};
ghost use Rattle.msg_image.specs.Opened.{origin_of};

use crate::asker::{Asker, Opener};
use crate::images::{GRAND, ROOT, grid, selector};
use crate::opening::{Steps, open};
use crate::same::same;
use msg_dispatch::{ArenaName, Changer, Dispatcher, NoSenderFree};
use msg_image::{Change, Image};
use msg_names::{ClassRef, ImpRef, Selector};
use msg_samples::IMAGE;
use std::alloc::{AllocError, Global};
use std::process::Abort;
use std::sync::Wait;
use std::thread;
use std::thread::Threads;

// Exchanges two methods of the root class, this number of times.
fn exchange<N: ArenaName, R: Wait + Abort>(
    rt: &R,
    changer: &mut Changer<'_, N>,
    sel: Selector,
    other_sel: Selector,
    times: u32,
) {
    for _time in 0..times {
        let exchange = Change::Exchange {
            class: ROOT,
            sel,
            other: ROOT,
            other_sel,
        };
        assert!(rt; changer.change(rt, &exchange).is_ok());
    }
}

// Asks a hundred times, and gets one of two implementations each time.
fn ask<N: ArenaName, R: Wait + Abort>(
    rt: &R,
    sender: &mut Asker<'_, N>,
    class: ClassRef,
    sel: Selector,
) {
    for _time in 0..100 {
        let found = sender.find(rt, class, sel).number();
        assert!(rt; found == 1 || found == 2);
    }
}

// What senders do, and what the changer does concurrently.
#[derive(Clone, Copy)]
enum Work {
    Exchanges,
    Additions,
}

// This number of senders.
fn open_all<'d, N: ArenaName, R: Wait + Abort>(
    rt: &R,
    alloc: Global,
    opener: &Opener<'d, N>,
    count: u32,
) -> Vec<Asker<'d, N>> {
    let mut all = Vec::new(alloc);
    for _number in 0..count {
        let sender = opener.open(rt).expect(rt, "a free number");
        all.push(sender).expect(rt, "memory");
    }
    all
}

fn ask_for<N: ArenaName, R: Wait + Abort>(rt: &R, sender: &mut Asker<'_, N>, work: Work) {
    match work {
        Work::Exchanges => ask(rt, sender, GRAND, selector(rt, 2)),
        Work::Additions => never_older(rt, sender, 500_000),
    }
}

fn change_for<N: ArenaName, R: Wait + Abort>(rt: &R, changer: &mut Changer<'_, N>, work: Work) {
    match work {
        Work::Exchanges => exchange(rt, changer, selector(rt, 2), selector(rt, 3), 100),
        Work::Additions => add_all(rt, changer),
    }
}

// Each sender asks in a thread of its own.
fn ask_in_threads<'d, N: ArenaName + Send + Sync, R: Threads + Wait + Abort + Sync>(
    rt: &R,
    senders: Vec<Asker<'d, N>>,
    work: Work,
) -> Result<Vec<Asker<'d, N>>, AllocError> {
    thread::map_vec(
        rt,
        senders,
        &|mut sender| {
            ask_for(rt, &mut sender, work);
            sender
        },
    )
}

// The same, concurrently with the changer.
fn ask_beside<'d, N: ArenaName + Send + Sync, R: Threads + Wait + Abort + Sync>(
    rt: &R,
    changer: &mut Changer<'_, N>,
    senders: Vec<Asker<'d, N>>,
    work: Work,
) -> Vec<Asker<'d, N>> {
    let (senders, _changed) = thread::join(
        rt,
        || ask_in_threads(rt, senders, work),
        || change_for(rt, changer, work),
    );
    senders.expect(rt, "memory")
}

// When it has met the changer, a sender knows of all exchanges.
fn knows_all<N: ArenaName, R: Wait + Abort>(
    rt: &R,
    sender: &mut Asker<'_, N>,
    changer: &mut Changer<'_, N>,
) {
    sender.meet(rt, changer);
    same(rt, sender.find(rt, GRAND, selector(rt, 2)).number(), 1);
    same(rt, sender.published(), 100);
}

pub(crate) fn all_ask_beside_exchanges<
    N: ArenaName + Send + Sync,
    R: Threads + Wait + Abort + Sync,
>(rt: &R, alloc: Global, dispatcher: &Dispatcher<N>, image: &Image)
    requires { origin_of image.now ≡ N.arena.key.origin }
{
    let mut changer = dispatcher.changer(rt).expect(rt, "the turn");
    let opener = Opener::of(dispatcher, image.class_count());
    let senders = open_all(rt, alloc, &opener, 64);
    assert!(rt; matches!(opener.open(rt), Err(NoSenderFree)));
    for mut sender in ask_beside(rt, &mut changer, senders, Work::Exchanges) {
        knows_all(rt, &mut sender, &mut changer);
    }
}

#[test]
fn sixty_four_threads_ask_beside_exchanges(rt: HostRuntime) {
    let arrays = [2048, 512, 128, 64, 32, 16, 8, 4, 4];
    open(
        &rt,
        rt.alloc(),
        IMAGE,
        64,
        arrays,
        Steps::AskBesideExchanges,
    );
}

const ADDED: u32 = 1000;

// The class and the selector to which the change of this number, from 0, adds a method.
fn added(number: u32) -> (ClassRef, u32)
    requires { number < 1000 }
    ensures { result.0.class < 33 }
{
    let class = ClassRef {
        class: 1 + number / 32,
        meta: false,
    };
    (class, 2 + number % 32)
}

fn add_all<N: ArenaName, R: Wait + Abort>(rt: &R, changer: &mut Changer<'_, N>) {
    for number in 0..ADDED {
        let (class, sel) = added(number);
        if let Some(sel) = Selector::of(sel) {
            let add = Change::Add {
                class,
                sel,
                imp: ImpRef::of(1),
            };
            assert!(rt; changer.change(rt, &add).is_ok());
        }
    }
}

// Asks for what is added, until the last was found and this number of answers were given. What was
// added before something that was found is found, too.
fn never_older<N: ArenaName, R: Wait + Abort>(rt: &R, sender: &mut Asker<'_, N>, times: u32) {
    let mut found = 0;
    let mut place = 7u32;
    for _time in 0..times {
        place = place.wrapping_add(389) % ADDED;
        let (class, sel) = added(place);
        if let Some(sel) = Selector::of(sel) {
            let is_there = sender.find(rt, class, sel) != ImpRef::FORWARD;
            assert!(rt; is_there || found <= place);
            if is_there && found <= place {
                found = place + 1;
            }
        }
    }
}

// Finds what was added.
fn finds_all<N: ArenaName, R: Wait + Abort>(rt: &R, sender: &mut Asker<'_, N>) {
    for number in 0..ADDED {
        let (class, sel) = added(number);
        same(rt, sender.find(rt, class, selector(rt, sel)).number(), 1);
    }
}

pub(crate) fn three_ask_beside_additions<
    N: ArenaName + Send + Sync,
    R: Threads + Wait + Abort + Sync,
>(rt: &R, alloc: Global, dispatcher: &Dispatcher<N>, image: &Image)
    requires { origin_of image.now ≡ N.arena.key.origin }
{
    same(rt, image.listed_count(), 33);
    let mut changer = dispatcher.changer(rt).expect(rt, "the turn");
    let opener = Opener::of(dispatcher, image.class_count());
    let mut first = opener.open(rt).expect(rt, "a free number");
    let senders = open_all(rt, alloc, &opener, 3);
    let _asked = ask_beside(rt, &mut changer, senders, Work::Additions);
    first.meet(rt, &mut changer);
    finds_all(rt, &mut first);
}

#[test]
fn no_answer_is_older_than_the_last(rt: HostRuntime) {
    let document = grid(&rt, rt.alloc(), 33, 32);
    let arrays = [64, 16, 16, 16, 64, 64, 1, 1, 1];
    open(
        &rt,
        rt.alloc(),
        &document,
        4,
        arrays,
        Steps::AskBesideAdditions,
    );
}
