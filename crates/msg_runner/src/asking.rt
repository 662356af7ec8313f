//! A worker's sender as the finder of its sends.

ghost use Rattle.std.specs.Prelude.{◌≡◌, ◌<◌, ◌≤◌, All, List};
ghost use Rattle.msg_image.specs.Opened.{origin_of};
ghost use Rattle.msg_image.specs.Sound.{IsOf};
ghost use Rattle.msg_tables.specs.History.{History, BeginsWith};
ghost use Rattle.msg_names.specs.Number.{imp_number, selector_number};
ghost use Rattle.msg_tables.specs.Origin.{class_total, last_imp};
ghost use Rattle.msg_eval.specs.Evaluation.{send_of};
ghost use Rattle.msg_eval.specs.Finder.{FindsAt};
ghost use Rattle.msg_eval.specs.Points.{Rise, EndsAfter, last_of};

use crate::gate::Gate;
use msg_dispatch::{ArenaName, CachingSender};
use msg_eval::{Args, Finder, Reply, send};
use msg_image::{Image, MAX_ITEMS};
use msg_names::{ClassRef, ImpRef, Selector, Value};
use std::sync::Wait;

// A worker: its sender, the handle by which its misses wait, and the gate to which it reports its
// pieces.
#[derive(Drop)]
pub(crate) struct Asking<'r, 'd, N: ArenaName, G: Gate, R: Wait> {
    pub(crate) rt: &'r R,
    pub(crate) gate: &'r G,
    pub(crate) sender: CachingSender<'d, N>,
}

impl<'r, 'd, N: ArenaName, G: Gate, R: Wait> Finder for Asking<'r, 'd, N, G, R> {
    ghost use Rattle.std.specs.Prelude.{◌≡◌};
    ghost use Rattle.msg_runner.specs.Asked.{sizes_at};
    ghost use Rattle.msg_tables.specs.Origin.{OriginView};
    ghost use Rattle.msg_tables.specs.History.{History};
    ghost use Rattle.msg_eval.specs.Finder.{FindsAt};

    ghost Kept = { OriginView };

    ghost kept = { λ s. s.sender.sender.seen.front.origin };

    ghost sizes = { sizes_at };

    ghost State = { History };

    ghost is_in = { λ s h. s.sender.sender.seen.front ≡ h };

    ghost step = { FindsAt };

    fn find(&mut self, class: ClassRef, sel: Selector) -> ImpRef {
        if !self.gate.is_watching() {
            return self.sender.find(self.rt, class, sel);
        }
        // if a change is made during a lookup, the version of the lookup isn't known, and it is
        // repeated; it is never repeated more often than there are items
        let mut before = self.sender.refresh();
        for _try in 0..MAX_ITEMS {
            let imp = self.sender.find(self.rt, class, sel);
            let after = self.sender.refresh();
            if after == before {
                self.gate.looked(before);
                return imp;
            }
            before = after;
        }
        self.gate.looked(before);
        self.sender.find(self.rt, class, sel)
    }
}

impl<'r, 'd, N: ArenaName, G: Gate, R: Wait> Asking<'r, 'd, N, G, R> {
    // Returns the reply to a send, at points that rise from what the sender had seen.
    pub(crate) fn reply(
        &mut self,
        image: &Image,
        receiver: Value,
        sel: Selector,
        args: &Args,
    ) -> Reply
        requires image { self.old.sender.sender.seen.front.origin ≡ origin_of image.now }
        requires receiver { IsOf image.now receiver }
        requires args { All (IsOf image.now) args.now.items }
        ensures image { self.new.sender.sender.seen.front.origin ≡ origin_of image.now }
        ensures points { (points : List History) × Rise self.old.sender.sender.seen.front points
            × EndsAfter (send_of image.now receiver sel args.now.items) points result
            × (self.new.sender.sender.seen.front ≡ last_of self.old.sender.sender.seen.front points) }
    {
        send(self, image, receiver, sel, args)
    }

    // Does the same, at points that include each change that was published before.
    pub(crate) fn reply_fresh(
        &mut self,
        image: &Image,
        receiver: Value,
        sel: Selector,
        args: &Args,
    ) -> Reply
        requires image { self.old.sender.sender.seen.front.origin ≡ origin_of image.now }
        requires receiver { IsOf image.now receiver }
        requires args { All (IsOf image.now) args.now.items }
        ensures image { self.new.sender.sender.seen.front.origin ≡ origin_of image.now }
        ensures points { (points : List History) × Rise self.old.sender.sender.seen.front points
            × EndsAfter (send_of image.now receiver sel args.now.items) points result
            × BeginsWith self.new.sender.sender.seen.front (last_of self.old.sender.sender.seen.front points) }
    {
        let _changes = self.sender.refresh();
        self.reply(image, receiver, sel, args)
    }
}
