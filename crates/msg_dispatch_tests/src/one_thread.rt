//! A dispatcher in one thread: its results, how often it takes the lock, and what is cached.

ghost use Rattle.std.specs.Prelude.{◌≡◌};
ghost use Rattle.msg_tables.specs.Origin.{class_total};

use crate::asker::Asker;
use crate::counts::five;
use crate::exchange::an_exchange_is_seen_below;
use crate::images::{CHILD, GRAND, ROOT, selector};
use crate::lists::makes_lists;
use crate::opening::{Steps, open};
use crate::same::same;
use msg_dispatch::{ArenaName, Changer, Dispatcher, Receipt};
use msg_image::Change;
use msg_names::{ClassRef, ImpRef, Selector};
use msg_samples::{IMAGE, SMALL};
use msg_tables::ChangeFault;
use std::alloc::Global;
use std::process::Abort;
use std::sync::Wait;

/// What a sender and the changer do.
#[derive(Clone, Copy)]
pub(crate) enum Row {
    CacheALookup,
    LookUpWithoutArrays,
    RefuseAChange,
    KeepOtherCaches,
    DropASender,
    SetAMethod1000Times,
    // what is then reported, and what is cached of the last selector
    FillAClass([u64; 5], Option<ImpRef>),
    ExchangeAbove,
    MakeLists(Global),
}

/// Does a row. The selector `value` is the second one of both documents.
pub(crate) fn take<N: ArenaName, R: Wait + Abort>(
    rt: &R,
    dispatcher: &Dispatcher<N>,
    sender: &mut Asker<'_, N>,
    changer: &mut Changer<'_, N>,
    row: Row,
) {
    let value = selector(rt, 2);
    match row {
        Row::CacheALookup => caches_a_lookup(rt, dispatcher, sender, changer, value),
        Row::LookUpWithoutArrays => looks_up_without_arrays(rt, dispatcher, sender, value),
        Row::RefuseAChange => refuses_a_change(rt, dispatcher, sender, changer, value),
        Row::KeepOtherCaches => keeps_other_caches(rt, dispatcher, sender, changer, value),
        Row::DropASender => {
            gives_the_array_of_a_dropped_sender_again(rt, dispatcher, sender, changer, value);
        }
        Row::SetAMethod1000Times => {
            sets_a_method_1000_times(rt, dispatcher, sender, changer, value);
        }
        Row::FillAClass(report, cached) => {
            fills_a_class(rt, dispatcher, sender, report, cached);
        }
        Row::ExchangeAbove => an_exchange_is_seen_below(rt, sender, changer, value),
        Row::MakeLists(alloc) => makes_lists(rt, alloc, sender, changer, value),
    }
}

// Neither a second sender nor a second changer is there.
fn has_no_more<N: ArenaName, R: Wait + Abort>(rt: &R, dispatcher: &Dispatcher<N>) {
    assert!(rt; dispatcher.sender(rt).is_err());
    assert!(rt; dispatcher.changer(rt).is_err());
}

// Asks twice, and takes the lock once.
fn asks_twice<N: ArenaName, R: Wait + Abort>(rt: &R, sender: &mut Asker<'_, N>, sel: Selector) {
    same(rt, sender.find(rt, GRAND, sel), ImpRef::of(1));
    same(rt, sender.lock_takings(), 1);
    same(rt, sender.find(rt, GRAND, sel), ImpRef::of(1));
    same(rt, sender.lock_takings(), 1);
}

// The first change: Child gets a method of its own.
fn adds<N: ArenaName, R: Wait + Abort>(rt: &R, changer: &mut Changer<'_, N>, sel: Selector) {
    let add = Change::Add {
        class: CHILD,
        sel,
        imp: ImpRef::of(2),
    };
    same(rt, changer.change(rt, &add), Ok(Receipt { count: 1 }));
    same(rt, changer.count(), 1);
}

// Asks after that change, and takes the lock a second time.
fn asks_anew<N: ArenaName, R: Wait + Abort>(rt: &R, sender: &mut Asker<'_, N>, sel: Selector) {
    same(rt, sender.find_cached(rt, GRAND, sel), None);
    same(rt, sender.find(rt, GRAND, sel), ImpRef::of(2));
    same(rt, sender.lock_takings(), 2);
    same(rt, sender.published(), 1);
}

// One array served two lookups, with a flush between.
fn reports<N: ArenaName, R: Wait + Abort>(rt: &R, dispatcher: &Dispatcher<N>) {
    let report = dispatcher.report(rt);
    same(rt, five(report), [2, 2, 1, 1, 1]);
    same(rt, [report.collections, report.freed], [1, 1]);
    same(rt, report.refused_senders, 1);
    same(rt, report.no_array, [0; 9]);
}

// A sender sees a change without a lookup when it looks.
fn sees_the_next<N: ArenaName, R: Wait + Abort>(
    rt: &R,
    sender: &mut Asker<'_, N>,
    changer: &mut Changer<'_, N>,
    sel: Selector,
) {
    let set = Change::SetImp {
        class: CHILD,
        sel,
        imp: ImpRef::of(1),
    };
    same(rt, changer.change(rt, &set), Ok(Receipt { count: 2 }));
    same(rt, sender.published(), 2);
}

fn caches_a_lookup<N: ArenaName, R: Wait + Abort>(
    rt: &R,
    dispatcher: &Dispatcher<N>,
    sender: &mut Asker<'_, N>,
    changer: &mut Changer<'_, N>,
    value: Selector,
) {
    has_no_more(rt, dispatcher);
    asks_twice(rt, sender, value);
    adds(rt, changer, value);
    asks_anew(rt, sender, value);
    sender.meet(rt, changer);
    same(rt, sender.published(), 1);
    reports(rt, dispatcher);
    sees_the_next(rt, sender, changer, value);
}

#[test]
fn a_lookup_is_cached(rt: HostRuntime) {
    let arrays = [1, 0, 0, 0, 0, 0, 0, 0, 0];
    open(
        &rt,
        rt.alloc(),
        IMAGE,
        1,
        arrays,
        Steps::InOneThread(Row::CacheALookup),
    );
}

// Asks twice, and takes the lock twice.
fn asks_without_cache<N: ArenaName, R: Wait + Abort>(
    rt: &R,
    sender: &mut Asker<'_, N>,
    sel: Selector,
) {
    same(rt, sender.find(rt, GRAND, sel), ImpRef::of(1));
    same(rt, sender.find(rt, GRAND, sel), ImpRef::of(1));
    same(rt, sender.lock_takings(), 2);
    same(rt, sender.find_cached(rt, GRAND, sel), None);
}

fn looks_up_without_arrays<N: ArenaName, R: Wait + Abort>(
    rt: &R,
    dispatcher: &Dispatcher<N>,
    sender: &mut Asker<'_, N>,
    value: Selector,
) {
    asks_without_cache(rt, sender, value);
    same(rt, five(dispatcher.report(rt)), [0; 5]);
}

#[test]
fn without_arrays_nothing_is_cached(rt: HostRuntime) {
    let row = Row::LookUpWithoutArrays;
    open(&rt, rt.alloc(), IMAGE, 1, [0; 9], Steps::InOneThread(row));
}

// A change that the tables refuse: the root class has the method.
fn is_refused<N: ArenaName, R: Wait + Abort>(rt: &R, changer: &mut Changer<'_, N>, sel: Selector) {
    let add = Change::Add {
        class: ROOT,
        sel,
        imp: ImpRef::of(2),
    };
    same(
        rt,
        changer.change(rt, &add),
        Err(ChangeFault::MethodPresent),
    );
    same(rt, changer.count(), 0);
}

fn refuses_a_change<N: ArenaName, R: Wait + Abort>(
    rt: &R,
    dispatcher: &Dispatcher<N>,
    sender: &mut Asker<'_, N>,
    changer: &mut Changer<'_, N>,
    value: Selector,
) {
    asks_twice(rt, sender, value);
    is_refused(rt, changer, value);
    same(
        rt,
        sender.find_cached(rt, GRAND, value),
        Some(ImpRef::of(1)),
    );
    same(rt, sender.published(), 0);
    same(rt, dispatcher.report(rt).flushes, 0);
}

#[test]
fn a_refused_change_leaves_the_caches(rt: HostRuntime) {
    open(
        &rt,
        rt.alloc(),
        IMAGE,
        1,
        [1; 9],
        Steps::InOneThread(Row::RefuseAChange),
    );
}

// Whether the caches of these classes have the selector.
fn are_cached<N: ArenaName, R: Wait + Abort>(
    rt: &R,
    sender: &mut Asker<'_, N>,
    sel: Selector,
    wanted: [(ClassRef, Option<ImpRef>); 4],
) {
    for (class, cached) in wanted {
        assert_eq!(rt; sender.find_cached(rt, class, sel), cached, "{class:?}");
    }
}

// A method that is added to a class is looked up again there and below, and nowhere else.
fn keeps_other_caches<N: ArenaName, R: Wait + Abort>(
    rt: &R,
    dispatcher: &Dispatcher<N>,
    sender: &mut Asker<'_, N>,
    changer: &mut Changer<'_, N>,
    value: Selector,
) {
    let one = Some(ImpRef::of(1));
    let meta = ClassRef {
        class: CHILD.class,
        meta: true,
    };
    for class in [ROOT, CHILD, GRAND, meta] {
        let _found = sender.find(rt, class, value);
    }
    let all = [(ROOT, one), (CHILD, one), (GRAND, one), (meta, one)];
    are_cached(rt, sender, value, all);
    adds(rt, changer, value);
    let left = [(ROOT, one), (CHILD, None), (GRAND, None), (meta, one)];
    are_cached(rt, sender, value, left);
    same(rt, dispatcher.report(rt).flushes, 2);
}

#[test]
fn a_change_leaves_the_caches_that_it_does_not_reach(rt: HostRuntime) {
    let arrays = [8, 0, 0, 0, 0, 0, 0, 0, 0];
    open(
        &rt,
        rt.alloc(),
        IMAGE,
        1,
        arrays,
        Steps::InOneThread(Row::KeepOtherCaches),
    );
}

// A sender that asks and is dropped.
fn asks_and_is_dropped<N: ArenaName, R: Wait + Abort>(
    rt: &R,
    dispatcher: &Dispatcher<N>,
    classes: u32,
    sel: Selector,
)
    requires { classes ≡ class_total N.arena.key.origin }
{
    let sender = dispatcher.sender(rt).expect(rt, "a free number");
    let mut dropped = Asker::of(sender, classes);
    same(rt, dropped.find(rt, GRAND, sel), ImpRef::of(1));
}

fn gives_the_array_of_a_dropped_sender_again<N: ArenaName, R: Wait + Abort>(
    rt: &R,
    dispatcher: &Dispatcher<N>,
    sender: &mut Asker<'_, N>,
    changer: &mut Changer<'_, N>,
    value: Selector,
) {
    asks_and_is_dropped(rt, dispatcher, sender.classes(), value);
    same(
        rt,
        sender.find_cached(rt, GRAND, value),
        Some(ImpRef::of(1)),
    );
    assert!(rt; dispatcher.sender(rt).is_err());
    adds(rt, changer, value);
    same(rt, sender.find(rt, GRAND, value), ImpRef::of(2));
    same(rt, dispatcher.report(rt).given_again, 1);
}

#[test]
fn a_dropped_sender_keeps_no_array(rt: HostRuntime) {
    let arrays = [1, 0, 0, 0, 0, 0, 0, 0, 0];
    open(
        &rt,
        rt.alloc(),
        IMAGE,
        2,
        arrays,
        Steps::InOneThread(Row::DropASender),
    );
}

// Sets the root class's method, and asks below.
fn sets<N: ArenaName, R: Wait + Abort>(
    rt: &R,
    sender: &mut Asker<'_, N>,
    changer: &mut Changer<'_, N>,
    sel: Selector,
    imp: ImpRef,
) {
    let set = Change::SetImp {
        class: ROOT,
        sel,
        imp,
    };
    assert!(rt; changer.change(rt, &set).is_ok());
    same(rt, sender.find(rt, GRAND, sel), imp);
}

fn sets_a_method_1000_times<N: ArenaName, R: Wait + Abort>(
    rt: &R,
    dispatcher: &Dispatcher<N>,
    sender: &mut Asker<'_, N>,
    changer: &mut Changer<'_, N>,
    value: Selector,
) {
    for round in 1..1001 {
        let imp = ImpRef::of(if round % 2 == 1 { 2 } else { 1 });
        sets(rt, sender, changer, value, imp);
    }
    same(rt, sender.lock_takings(), 1000);
    same(rt, sender.published(), 1000);
    let report = dispatcher.report(rt);
    same(rt, five(report), [1000, 1000, 999, 999, 999]);
    same(rt, [report.collections, report.freed], [999, 999]);
    same(rt, report.no_array, [0; 9]);
}

#[test]
fn one_array_serves_1000_changes(rt: HostRuntime) {
    let arrays = [1, 0, 0, 0, 0, 0, 0, 0, 0];
    let row = Row::SetAMethod1000Times;
    open(&rt, rt.alloc(), IMAGE, 1, arrays, Steps::InOneThread(row));
}

// Asks for a selector, of which number 2 alone has a method.
fn asks_for<N: ArenaName, R: Wait + Abort>(rt: &R, sender: &mut Asker<'_, N>, number: u32) {
    let sel = selector(rt, number);
    let imp = if number == 2 {
        ImpRef::of(1)
    } else {
        ImpRef::FORWARD
    };
    assert_eq!(rt; sender.find(rt, CHILD, sel), imp, "{number}");
}

// Looks up 1,534 selectors in one class.
fn fills_a_class<N: ArenaName, R: Wait + Abort>(
    rt: &R,
    dispatcher: &Dispatcher<N>,
    sender: &mut Asker<'_, N>,
    report: [u64; 5],
    cached: Option<ImpRef>,
) {
    for number in 1..1535 {
        asks_for(rt, sender, number);
    }
    same(
        rt,
        sender.find_cached(rt, CHILD, selector(rt, 1534)),
        cached,
    );
    same(rt, five(dispatcher.report(rt)), report);
}

#[test]
fn a_class_outgrows_its_arrays(rt: HostRuntime) {
    for (largest, fills, growths, retired, cached) in [
        (1, 1533, 9, 8, None),
        (2, 1534, 10, 9, Some(ImpRef::FORWARD)),
    ] {
        let arrays = [1, 1, 1, 1, 1, 1, 1, 1, largest];
        let report = [fills, growths, 0, retired, 0];
        let row = Row::FillAClass(report, cached);
        open(&rt, rt.alloc(), SMALL, 1, arrays, Steps::InOneThread(row));
    }
}
