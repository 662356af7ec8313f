//! Workers in threads, concurrently with the changes.

ghost use Rattle.std.specs.Prelude.{◌≡◌, ◌≤◌, ◌<◌, ◌+◌, ◌^◌, [], ℕ, map, vec_len, IfOk, OnOk};
ghost use Rattle.std.specs.Thread.{IsSync};
ghost use Rattle.msg_image.specs.Opened.{origin_of};
ghost use Rattle.msg_image.specs.Plain.{item_parts};
ghost use Rattle.msg_tables.specs.History.{History};
ghost use Rattle.msg_answers.specs.Parts.{items_of, history_past, IsSoundPart, Serves};
ghost use Rattle.msg_answers.specs.Serving.{Served, outcomes_of, share_of, sends_of, worker_of};
ghost use Rattle.msg_runner.specs.Batch.{HasAnswered};

use crate::asking::Asking;
use crate::changes::make_changes;
use crate::context::Run;
use crate::crew::{Crew, Done};
use crate::gate::Gate;
use crate::share::reply_share;
use msg_answers::{Outcome, Part, Share};
use msg_dispatch::{ArenaName, CachingSender};
use msg_eval::Reply;
use std::alloc::{AllocError, Global};
use std::snapshot::Snapshot;
use std::sync::Wait;
use std::thread::{Promise, PromisedHandle, Scope, Threads};

// Each worker's replies, and the outcome of the changes.
#[derive(Drop)]
pub(crate) struct Batch {
    pub(crate) shares: Vec<Vec<Reply>>,
    pub(crate) outcomes: Vec<Outcome>,
}

// The job of a worker: it answers its share.
#[derive(Drop)]
pub(crate) struct AnswersShare<'a, 'd, N: ArenaName> {
    pub(crate) was: Snapshot<CachingSender<'d, N>>,
    pub(crate) share: Share<'a>,
}

impl<'a, 'd, N: ArenaName> Promise<Done<'d, N>> for AnswersShare<'a, 'd, N> {
    ghost kept_by = { λ p d. IfOk d.replies (λ rs. Served p.was.value.sender.seen.front
        (share_of (worker_of p.share.part.deal.cut p.share.part.deal.workers) p.share.worker 0
        (sends_of p.share.part.image.now (map item_parts p.share.part.items.now)))
        rs.items d.sender.sender.seen.front) };
}

// One worker's work, with a sender of its own.
pub(crate) fn work_share<'d, N: ArenaName, G: Gate, R: Wait>(
    rt: &R,
    alloc: Global,
    gate: &G,
    sender: CachingSender<'d, N>,
    share: Share<'_>,
) -> Done<'d, N>
    requires image { sender.sender.seen.front.origin ≡ origin_of share.part.image.now }
    requires sound { IsSoundPart share.part }
    ensures { IfOk result.replies
        (λ rs. Serves share.entry sender.entry.sender.seen.front rs.items result.sender.sender.seen.front) }
{
    let mut asking = Asking { rt, gate, sender };
    let replies = reply_share(alloc, &mut asking, share);
    let Asking { sender, .. } = asking;
    Done { sender, replies }
}

// Starts a worker.
fn start<'s, 'e: 's, 'd: 's, N: ArenaName + Send + Sync + 's, G: Gate, R: Wait + Sync>(
    run: &Run<'s, G, R>,
    scope: &Scope<'s, &'e ()>,
    sender: CachingSender<'d, N>,
    share: Share<'s>,
) -> Result<PromisedHandle<Done<'d, N>, AnswersShare<'s, 'd, N>>, AllocError>
    requires image { sender.sender.seen.front.origin ≡ origin_of share.part.image.now }
    requires sound { IsSoundPart share.part }
    ensures was { IfOk result (λ h. h.promise.was.value ≡ sender.entry) }
    ensures share { IfOk result (λ h. h.promise.share ≡ share.entry) }
{
    let rt = run.rt;
    let alloc = run.alloc;
    let gate = run.gate;
    let promise = AnswersShare {
        was: Snapshot::of(&sender),
        share,
    };
    let worker = scope.spawn_with(
        promise,
        move || -> Done<N>
            requires { IsSync R.row × (sender.sender.seen.front.origin ≡ origin_of share.part.image.now)
                × IsSoundPart share.part }
            ensures { IfOk result.replies (λ rs. Serves share.entry sender.entry.sender.seen.front
                rs.items result.sender.sender.seen.front) }
        { work_share(rt, alloc, gate, sender, share) },
    )?;
    Ok(worker)
}

// Starts the last worker, calls itself for the others, and joins the last. The innermost call makes
// the changes.
pub(crate) fn work_beside<
    's,
    'e: 's,
    'd: 's,
    N: ArenaName + Send + Sync + 's,
    G: Gate,
    R: Threads + Wait + Sync,
>(
    run: &Run<'s, G, R>,
    scope: &'s Scope<'s, &'e ()>,
    crew: &mut Crew<'d, N>,
    workers: u32,
    part: Part<'s>,
    sends: usize,
    batch: &mut Batch,
) -> Result<(), AllocError>
    requires image { crew.old.changer.origin ≡ origin_of part.image.now }
    requires sound { IsSoundPart part }
    requires enough { workers ≤ vec_len crew.old.senders }
    requires no_shares { batch.old.shares.items ≡ [] }
    requires no_outcomes { batch.old.outcomes.items ≡ [] }
    ensures history { OnOk result (crew.new.changer ≡ history_past part.entry crew.old.changer) }
    ensures outcomes { OnOk result
        (batch.new.outcomes.items ≡ outcomes_of crew.old.changer (items_of part.entry)) }
    ensures senders { OnOk result (vec_len crew.new.senders ≡ vec_len crew.old.senders) }
    ensures count { OnOk result (vec_len batch.new.shares ≡ workers) }
    ensures each { OnOk result ((w : ℕ) → w < workers
        → HasAnswered part.entry w crew.old.changer batch.new crew.new.changer) }
{
    if workers == 0 {
        return make_changes(
            run.alloc,
            run.rt,
            &mut crew.changer,
            run.gate,
            part.first_change,
            part.items,
            &mut batch.outcomes,
        );
    }
    let me = workers - 1;
    let sender = crew.send_out(run.rt)?;
    let share = Share {
        part,
        worker: me,
        sends,
    };
    let worker = start(run, scope, sender, share)?;
    let others = work_beside(run, scope, crew, me, part, sends, batch);
    let taken = crew.put_back(run.rt, worker.join(run.rt), &mut batch.shares);
    others?;
    taken?;
    Ok(())
}
