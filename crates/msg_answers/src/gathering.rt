//! The lines of a batch, in the order of its items.

ghost use Rattle.std.specs.Prelude.{◌≡◌, ◌<◌, ◌^◌, ℕ, length, slice_get, Some, OnOk};
ghost use Rattle.msg_answers.specs.Parts.{part_sends, part_worker, replies_of, HasGathered};
ghost use Rattle.msg_answers.specs.Serving.{count_of, at_worker};

use crate::outcome::Outcome;
use crate::part::Part;
use crate::text::{push_outcome, push_reply};
use msg_eval::Reply;
use msg_image::Item;
use std::alloc::{AllocError, Global};

// A reply of a worker.
fn reply_of(shares: &[Vec<Reply>], worker: usize, at: usize) -> Reply
    requires worker { worker < length shares.now }
    requires at { at < length (at_worker (replies_of shares.now) worker) }
    ensures reply { slice_get (at_worker (replies_of shares.now) worker) at ≡ Some result }
    ensures room { at < 2 ^ 63 }
{
    shares[worker][at]
}

/// Appends a line for each item: for a send the reply of the worker that took it, for changes their
/// outcome.
pub fn gather(
    alloc: Global,
    text: &mut Vec<u8>,
    part: Part<'_>,
    shares: &[Vec<Reply>],
    outcomes: &[Outcome],
) -> Result<(), AllocError>
    requires workers { length shares.now ≡ part.deal.workers }
    requires counts { (w : ℕ) → w < part.deal.workers
        → length (at_worker (replies_of shares.now) w)
        ≡ count_of (part_worker part) w 0 (length (part_sends part)) }
    ensures { OnOk result (HasGathered part.entry (replies_of shares.now) outcomes.now
        text.old.items text.new.items) }
{
    let mut taken = vec![in alloc; 0usize; shares.len()]?;
    let mut place = 0usize;
    let mut left = outcomes;
    let mut rest = part.items;
    while let Some((item, later)) = rest.split_first() {
        match item {
            Item::Send { .. } => {
                let worker = part.deal.worker(place);
                let at = taken[worker];
                let reply = reply_of(shares, worker, at);
                taken[worker] = at + 1;
                place += 1;
                push_reply(text, part.image, reply)?;
            }
            Item::Change(_) | Item::ChangeAll(_) => {
                if let Some((outcome, more)) = left.split_first() {
                    push_outcome(text, *outcome)?;
                    left = more;
                }
            }
        }
        rest = later;
    }
    Ok(())
}
