//! One worker's work.

ghost use Rattle.std.specs.Prelude.{◌≡◌, ◌<◌, ◌==◌, All, length, IfOk, OnOk};
ghost use Rattle.msg_image.specs.Opened.{origin_of};
ghost use Rattle.msg_image.specs.Sound.{IsOf};
ghost use Rattle.msg_eval.specs.Evaluation.{send_of};
ghost use Rattle.msg_answers.specs.Parts.{part_worker, IsSoundPart, Serves};
ghost use Rattle.msg_answers.specs.Serving.{Goes};

use crate::asking::Asking;
use crate::gate::Gate;
use msg_answers::Share;
use msg_dispatch::ArenaName;
use msg_eval::{Args, Reply};
use msg_image::Item;
use msg_names::{Selector, Value};
use std::alloc::{AllocError, Global};
use std::sync::Wait;

// Answers a send, if its place is the worker's.
fn reply_at<'r, 'd, N: ArenaName, G: Gate, R: Wait>(
    asking: &mut Asking<'r, 'd, N, G, R>,
    replies: &mut Vec<Reply>,
    share: Share<'_>,
    receiver: Value,
    sel: Selector,
    args: &Args,
    place: usize,
) -> Result<(), AllocError>
    requires image { asking.old.sender.sender.seen.front.origin ≡ origin_of share.part.image.now }
    requires receiver { IsOf share.part.image.now receiver }
    requires args { All (IsOf share.part.image.now) args.now.items }
    requires place { place < length share.part.items.now }
    ensures image { asking.new.sender.sender.seen.front.origin ≡ origin_of share.entry.part.image.now }
    ensures goes { OnOk result (Goes (part_worker share.entry.part place == share.entry.worker)
        asking.old.sender.sender.seen.front
        (send_of share.entry.part.image.now receiver sel args.now.items)
        replies.old.items replies.new.items asking.new.sender.sender.seen.front) }
{
    let me = share.worker;
    let deal = share.part.deal;
    if deal.worker(place) != me as usize {
        return Ok(());
    }
    if deal.begins(place) {
        asking.gate.piece_starts(me, deal.piece(place));
    }
    let reply = asking.reply_fresh(share.part.image, receiver, sel, args);
    replies.push(reply)?;
    if place + 1 == share.sends || deal.begins(place + 1) {
        asking.gate.piece_done(me, deal.piece(place));
    }
    Ok(())
}

// Answers the sends of a worker's share, in order.
pub(crate) fn reply_share<'r, 'd, N: ArenaName, G: Gate, R: Wait>(
    alloc: Global,
    asking: &mut Asking<'r, 'd, N, G, R>,
    share: Share<'_>,
) -> Result<Vec<Reply>, AllocError>
    requires image { asking.old.sender.sender.seen.front.origin ≡ origin_of share.part.image.now }
    requires sound { IsSoundPart share.part }
    ensures { IfOk result (λ rs. Serves share.entry asking.old.sender.sender.seen.front rs.items
        asking.new.sender.sender.seen.front) }
{
    let mut replies = Vec::new(alloc);
    let mut rest = share.part.items;
    let mut place = 0usize;
    while let Some((item, later)) = rest.split_first() {
        if let Item::Send {
            receiver,
            sel,
            args,
        } = item
        {
            reply_at(asking, &mut replies, share, *receiver, *sel, args, place)?;
            place += 1;
        }
        rest = later;
    }
    Ok(replies)
}
