//! What senders note, and when a note is no longer used.

ghost use Rattle.std.specs.Prelude.{◌≡◌};
ghost use Rattle.msg_image.specs.Opened.{origin_of};
ghost use Rattle.std.specs.Coded.{codes};
ghost use Rattle.msg_tables.specs.Origin.{class_total};

use crate::images::{CHILD, GRAND, selector};
use crate::opening::{Steps, open};
use crate::same::same;
use msg_dispatch::{ArenaName, CachingSender, Changer, Dispatcher};
use msg_image::{Change, Image};
use msg_names::{ClassRef, ImpRef, Selector};
use msg_samples::IMAGE;
use std::alloc::Global;
use std::process::Abort;
use std::sync::Wait;

// The change by which a class reference has a method of its own.
fn addition(class: ClassRef, sel: Selector) -> Change {
    Change::Add {
        class,
        sel,
        imp: ImpRef::of(2),
    }
}

// A sender with notes that is known to be of its dispatcher's image, and looks for its classes
// alone.
#[derive(Drop)]
struct Noting<'d, N: ArenaName> {
    sender: CachingSender<'d, N>,
    classes: u32,
    ghost classes_are: { classes ≡ class_total N.arena.key.origin },
    ghost image: { sender.sender.seen.front.origin ≡ N.arena.key.origin } by { Prim.hlevel codes },
}

impl<N: ArenaName> Noting<'_, N> {
    fn find<R: Wait + Abort>(&mut self, rt: &R, class: ClassRef, sel: Selector) -> ImpRef {
        assert!(rt; class.class < self.classes);
        self.sender.find(rt, class, sel)
    }

    fn recall<R: Wait + Abort>(
        &mut self,
        rt: &R,
        class: ClassRef,
        sel: Selector,
    ) -> Option<ImpRef> {
        assert!(rt; class.class < self.classes);
        self.sender.recall(class, sel)
    }

    fn refresh(&mut self) -> u64 {
        self.sender.refresh()
    }

    fn meet<R: Wait>(&mut self, rt: &R, changer: &mut Changer<'_, N>) {
        self.sender.meet(rt, changer);
    }

    fn lock_takings(&self) -> u64 {
        self.sender.lock_takings()
    }

    fn finish<R: Wait>(self, rt: &R) {
        let Noting { sender, .. } = self;
        sender.finish(rt);
    }
}

// Finds a method that it has noted from then on, in the class that it asked for alone.
fn asks_twice<N: ArenaName, R: Wait + Abort>(rt: &R, sender: &mut Noting<'_, N>, sel: Selector) {
    same(rt, sender.recall(rt, GRAND, sel), None);
    same(rt, sender.find(rt, GRAND, sel), ImpRef::of(1));
    same(rt, sender.recall(rt, GRAND, sel), Some(ImpRef::of(1)));
    same(rt, sender.recall(rt, CHILD, sel), None);
    same(rt, sender.find(rt, GRAND, sel), ImpRef::of(1));
    same(rt, sender.lock_takings(), 1);
}

// After a change that affects the class: what it noted isn't taken any more.
fn asks_anew<N: ArenaName, R: Wait + Abort>(rt: &R, sender: &mut Noting<'_, N>, sel: Selector) {
    same(rt, sender.recall(rt, GRAND, sel), None);
    same(rt, sender.refresh(), 1);
    same(rt, sender.recall(rt, GRAND, sel), None);
    same(rt, sender.find(rt, GRAND, sel), ImpRef::of(2));
    same(rt, sender.recall(rt, GRAND, sel), Some(ImpRef::of(2)));
    same(rt, sender.lock_takings(), 2);
}

// A note is used until a change affects its class, also after changes of other classes.
fn notes_until_a_change<N: ArenaName, R: Wait + Abort>(
    rt: &R,
    sender: &mut Noting<'_, N>,
    changer: &mut Changer<'_, N>,
    value: Selector,
) {
    asks_twice(rt, sender, value);
    assert!(rt; changer.change(rt, &addition(CHILD, value)).is_ok());
    asks_anew(rt, sender, value);
    let meta = ClassRef {
        meta: true,
        ..CHILD
    };
    assert!(rt; changer.change(rt, &addition(meta, value)).is_ok());
    same(rt, sender.recall(rt, GRAND, value), Some(ImpRef::of(2)));
    sender.meet(rt, changer);
    same(rt, sender.recall(rt, GRAND, value), Some(ImpRef::of(2)));
    same(rt, sender.lock_takings(), 2);
}

pub(crate) fn notes<N: ArenaName, R: Wait + Abort>(
    rt: &R,
    alloc: Global,
    dispatcher: &Dispatcher<N>,
    image: &Image,
)
    requires { origin_of image.now ≡ N.arena.key.origin }
{
    let sender = dispatcher.sender(rt).expect(rt, "a free number");
    let mut sender = Noting {
        sender: CachingSender::new(alloc, sender).ok().expect(rt, "memory"),
        classes: image.class_count(),
    };
    let mut changer = dispatcher.changer(rt).expect(rt, "the turn");
    notes_until_a_change(rt, &mut sender, &mut changer, selector(rt, 2));
    sender.finish(rt);
}

#[test]
fn notes_are_taken_until_a_change_affects_their_class(rt: HostRuntime) {
    let arrays = [1, 0, 0, 0, 0, 0, 0, 0, 0];
    open(&rt, rt.alloc(), IMAGE, 1, arrays, Steps::Note);
}
