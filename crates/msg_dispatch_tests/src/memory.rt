//! What is done when no memory is left, or too little. With `rt try --test --fail-alloc N..`, which
//! refuses the Nth allocation and all after it, these tests have to pass for each N, too.

ghost use Rattle.std.specs.Prelude.{◌≡◌};
ghost use Rattle.msg_image.specs.Opened.{origin_of};
ghost use Rattle.msg_tables.specs.History.{empty};
ghost use Rattle.msg_runtime.specs.Parts.{IsKeeperOf, keeper_history};

use crate::asker::Asker;
use crate::images::{GRAND, ROOT};
use crate::same::same;
use msg_cache::{Arena, ArenaFault, Config, Keeper};
use msg_dispatch::{ArenaName, Changer, Dispatcher, Receipt};
use msg_image::{Change, DocumentFault, Image, read_document};
use msg_names::{ImpRef, Selector};
use msg_samples::{Hog, IMAGE};
use msg_tables::ChangeFault;
use std::alloc::Global;
use std::marker::Brand;
use std::process::Abort;
use std::sync::Wait;

// How often something is tried, each time with a little more memory.
const TRIES: u32 = 4096;

// A lookup, and a change that takes no memory with the lookup after it.
fn finds_and_sets<N: ArenaName, R: Wait + Abort>(
    rt: &R,
    sender: &mut Asker<'_, N>,
    changer: &mut Changer<'_, N>,
    sel: Selector,
) {
    same(rt, sender.find(rt, GRAND, sel), ImpRef::of(1));
    same(rt, sender.find_cached(rt, GRAND, sel), Some(ImpRef::of(1)));
    let set = Change::SetImp {
        class: ROOT,
        sel,
        imp: ImpRef::of(2),
    };
    same(rt, changer.change(rt, &set), Ok(Receipt { count: 1 }));
    same(rt, sender.find(rt, GRAND, sel), ImpRef::of(2));
}

// A change that was refused for lack of memory has changed nothing.
fn is_left<N: ArenaName, R: Wait + Abort>(
    rt: &R,
    sender: &mut Asker<'_, N>,
    changer: &Changer<'_, N>,
    sel: Selector,
    fault: ChangeFault,
) {
    same(rt, fault, ChangeFault::Memory);
    same(rt, changer.count(), 1);
    same(rt, sender.find_cached(rt, GRAND, sel), Some(ImpRef::of(2)));
}

// A change that adds a row, for which there may be no memory. It is tried with ever more, and at
// last made, if there is some. The first time there is none.
fn adds<N: ArenaName, R: Wait + Abort>(
    rt: &R,
    dispatcher: &Dispatcher<N>,
    sender: &mut Asker<'_, N>,
    changer: &mut Changer<'_, N>,
    sel: Selector,
    hog: &mut Hog,
) -> bool {
    let is_full = hog.is_full();
    let before = dispatcher.report(rt);
    let add = Change::Add {
        class: GRAND,
        sel,
        imp: ImpRef::of(1),
    };
    for refused in 0..TRIES {
        match changer.change(rt, &add) {
            Ok(receipt) => {
                same(rt, receipt, Receipt { count: 2 });
                assert!(rt; refused > 0 || !is_full);
                return true;
            }
            Err(fault) => {
                is_left(rt, sender, changer, sel, fault);
                same(rt, dispatcher.report(rt), before);
                let _more = hog.give_back();
            }
        }
    }
    false
}

// Every call after `open`: all but a change that adds a row answer as they do with ample memory.
fn answers<N: ArenaName, R: Wait + Abort>(
    rt: &R,
    dispatcher: &Dispatcher<N>,
    image: &Image,
    value: Selector,
    hog: &mut Hog,
)
    requires image { origin_of image.now ≡ N.arena.key.origin }
{
    let sender = dispatcher.sender(rt).expect(rt, "a number is free");
    let mut sender = Asker::of(sender, image.class_count());
    let mut changer = dispatcher.changer(rt).expect(rt, "the turn is there");
    assert!(rt; dispatcher.sender(rt).is_err());
    assert!(rt; dispatcher.changer(rt).is_err());
    finds_and_sets(rt, &mut sender, &mut changer, value);
    let is_full = hog.is_full();
    let is_added = adds(rt, dispatcher, &mut sender, &mut changer, value, hog);
    assert!(rt; is_added || !is_full);
    let found = if is_added { 1 } else { 2 };
    same(rt, sender.find(rt, GRAND, value), ImpRef::of(found));
    same(rt, sender.published(), changer.count());
    sender.meet(rt, &mut changer);
    same(rt, sender.published(), changer.count());
    sender.finish(rt);
    assert!(rt; dispatcher.sender(rt).is_ok());
}

// Opens a dispatcher, if there is memory for one, and takes all memory that is left. Says whether
// there was.
fn opens_and_answers<N: ArenaName, R: Wait + Abort>(
    rt: &R,
    alloc: Global,
    arena: Arena,
    keeper: Keeper,
    image: &Image,
    value: Selector,
    hog: &mut Hog,
) -> bool
    requires arena { arena ≡ N.arena }
    requires keeper { IsKeeperOf N.arena keeper }
    requires image { origin_of image.now ≡ N.arena.key.origin }
    requires history { keeper_history keeper ≡ empty (origin_of image.now) }
{
    match Dispatcher::<N>::open(alloc, arena, keeper, image) {
        Ok(dispatcher) => {
            hog.fill(alloc);
            answers(rt, &dispatcher, image, value, hog);
            true
        }
        Err(_) => false,
    }
}

// The same for an arena that is opened. The fault is a lack of memory.
fn is_answered<R: Wait + Abort>(
    rt: &R,
    alloc: Global,
    image: &Image,
    value: Selector,
    hog: &mut Hog,
) -> bool {
    let config = Config {
        senders: 1,
        arrays: [1, 0, 0, 0, 0, 0, 0, 0, 0],
    };
    match Arena::open(alloc, image, config) {
        Ok((arena, keeper)) => {
            opens_and_answers::<Brand, R>(rt, alloc, arena, keeper, image, value, hog)
        }
        Err(fault) => {
            same(rt, fault, ArenaFault::Memory);
            false
        }
    }
}

// It is tried with ever more memory, until there is enough for a dispatcher. The first time there
// is none.
fn is_answered_at_last<R: Wait + Abort>(
    rt: &R,
    alloc: Global,
    image: &Image,
    value: Selector,
    hog: &mut Hog,
) {
    let is_full = hog.is_full();
    for refused in 0..TRIES {
        if is_answered(rt, alloc, image, value, hog) {
            assert!(rt; refused > 0 || !is_full);
            return;
        }
        let _more = hog.give_back();
    }
    assert!(rt; !is_full);
}

#[test]
fn after_open_all_answers_are_as_with_ample_memory(rt: HostRuntime) {
    let alloc = rt.alloc();
    let image = match read_document(alloc, IMAGE.as_bytes()) {
        Ok(document) => document.image,
        Err(fault) => {
            same(&rt, fault, DocumentFault::Memory);
            return;
        }
    };
    let Some(value) = Selector::of(2) else {
        return;
    };
    let Ok(mut hog) = Hog::new(&rt) else {
        return;
    };
    is_answered_at_last(&rt, alloc, &image, value, &mut hog);
}
