//! Exchanges, seen from below.

use crate::asker::Asker;
use crate::images::{CHILD, GRAND, ROOT, selector};
use crate::one_thread::Row;
use crate::opening::{Steps, open};
use crate::same::same;
use msg_dispatch::{ArenaName, Changer};
use msg_image::Change;
use msg_names::Selector;
use msg_samples::IMAGE;
use std::process::Abort;
use std::sync::Wait;

// In each class the two selectors find these implementations.
fn are_found<N: ArenaName, R: Wait + Abort>(
    rt: &R,
    sender: &mut Asker<'_, N>,
    (value, value_is): (Selector, u32),
    (name, name_is): (Selector, u32),
) {
    for (class, wanted) in [(ROOT, name_is), (CHILD, 11), (GRAND, 11)] {
        same(rt, sender.find(rt, class, value).number(), value_is);
        same(rt, sender.find(rt, class, name).number(), wanted);
    }
}

// An exchange in a class. A subclass has a method of its own in addition to the exchanged ones. It
// finds the exchanged ones again, and its own as before.
pub(crate) fn an_exchange_is_seen_below<N: ArenaName, R: Wait + Abort>(
    rt: &R,
    sender: &mut Asker<'_, N>,
    changer: &mut Changer<'_, N>,
    value: Selector,
) {
    let name = selector(rt, 3);
    for (value_is, name_is) in [(1, 2), (2, 1), (1, 2)] {
        are_found(rt, sender, (value, value_is), (name, name_is));
        let exchange = Change::Exchange {
            class: ROOT,
            sel: value,
            other: ROOT,
            other_sel: name,
        };
        assert!(rt; changer.change(rt, &exchange).is_ok());
    }
}

#[test]
fn an_exchange_in_a_class_is_seen_in_its_subclasses(rt: HostRuntime) {
    let arrays = [4, 0, 0, 0, 0, 0, 0, 0, 0];
    open(
        &rt,
        rt.alloc(),
        IMAGE,
        1,
        arrays,
        Steps::InOneThread(Row::ExchangeAbove),
    );
}
