//! A sender that is known to be of its dispatcher's image, and looks for its classes alone.

ghost use Rattle.std.specs.Prelude.{◌≡◌};
ghost use Rattle.std.specs.Coded.{codes};
ghost use Rattle.msg_tables.specs.Origin.{class_total};

use msg_dispatch::{ArenaName, Changer, Dispatcher, NoSenderFree, Sender};
use msg_names::{ClassRef, ImpRef, Selector};
use std::process::Abort;
use std::sync::Wait;

#[derive(Drop)]
pub(crate) struct Asker<'d, N: ArenaName> {
    sender: Sender<'d, N>,
    classes: u32,
    pub ghost classes_are: { classes ≡ class_total N.arena.key.origin },
    pub ghost image: { sender.seen.front.origin ≡ N.arena.key.origin } by { Prim.hlevel codes },
}

impl<'d, N: ArenaName> Asker<'d, N> {
    pub(crate) fn of(sender: Sender<'d, N>, classes: u32) -> Asker<'d, N>
        requires image { sender.seen.front.origin ≡ N.arena.key.origin }
        requires classes { classes ≡ class_total N.arena.key.origin }
    {
        Asker { sender, classes }
    }

    // how many classes the image has
    pub(crate) fn classes(&self) -> u32
        ensures { result ≡ class_total N.arena.key.origin }
    {
        self.classes
    }

    pub(crate) fn find<R: Wait + Abort>(
        &mut self,
        rt: &R,
        class: ClassRef,
        sel: Selector,
    ) -> ImpRef {
        assert!(rt; class.class < self.classes);
        self.sender.find(rt, class, sel)
    }

    pub(crate) fn find_cached(
        &mut self,
        rt: &impl Abort,
        class: ClassRef,
        sel: Selector,
    ) -> Option<ImpRef> {
        assert!(rt; class.class < self.classes);
        self.sender.find_cached(class, sel)
    }

    pub(crate) fn meet<R: Wait>(&mut self, rt: &R, changer: &mut Changer<'_, N>) {
        changer.meet(rt, &mut self.sender);
    }

    pub(crate) fn finish<R: Wait>(self, rt: &R) {
        let Asker { sender, .. } = self;
        sender.finish(rt);
    }

    pub(crate) fn published(&mut self) -> u64 {
        self.sender.published()
    }

    pub(crate) fn lock_takings(&self) -> u64 {
        self.sender.lock_takings()
    }
}

// What a thread opens its sender with.
#[derive(Drop)]
pub(crate) struct Opener<'d, N: ArenaName> {
    dispatcher: &'d Dispatcher<N>,
    classes: u32,
    pub ghost classes_are: { classes ≡ class_total N.arena.key.origin },
}

impl<'d, N: ArenaName> Opener<'d, N> {
    pub(crate) fn of(dispatcher: &'d Dispatcher<N>, classes: u32) -> Opener<'d, N>
        requires { classes ≡ class_total N.arena.key.origin }
    {
        Opener {
            dispatcher,
            classes,
        }
    }

    pub(crate) fn open<R: Wait>(&self, rt: &R) -> Result<Asker<'d, N>, NoSenderFree> {
        Ok(Asker::of(self.dispatcher.sender(rt)?, self.classes))
    }
}
