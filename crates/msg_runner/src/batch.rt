//! A batch: items whose sends are distributed among workers, while the changes among them are made.

ghost use Rattle.std.specs.Prelude.{◌≡◌, ◌≤◌, ◌<◌, ◌+◌, ◌^◌, ◌⊎◌, [], true};
ghost use Rattle.std.specs.Prelude.{length, vec_len, IfOk, OnOk};
ghost use Rattle.msg_image.specs.Opened.{origin_of};
ghost use Rattle.msg_answers.specs.Parts.{history_past, IsAnsweredBeside, IsSoundPart};
ghost use Rattle.msg_answers.specs.Parts.{PartChanges, PartPieces};
ghost use Rattle.msg_runner.specs.Batch.{HasServed};

use crate::changes::make_changes;
use crate::context::Run;
use crate::crew::Crew;
use crate::gate::Gate;
use crate::workers::{Batch, work_beside, work_share};
use msg_answers::{Counts, Part, Share, gather, sends_in};
use msg_dispatch::ArenaName;
use std::alloc::AllocError;
use std::sync::Wait;
use std::thread::{Scope, Threads};

impl<'r, G: Gate, R: Wait> Run<'r, G, R> {
    // Runs one worker on the calling thread, and then makes the changes.
    fn work_alone<'d, N: ArenaName>(
        &self,
        crew: &mut Crew<'d, N>,
        part: Part<'_>,
        sends: usize,
        batch: &mut Batch,
    ) -> Result<(), AllocError>
        requires image { crew.old.changer.origin ≡ origin_of part.image.now }
        requires sound { IsSoundPart part }
        requires one { part.deal.workers ≡ 1 }
        requires no_shares { batch.old.shares.items ≡ [] }
        requires no_outcomes { batch.old.outcomes.items ≡ [] }
        ensures served { OnOk result
            (HasServed part.entry crew.old.changer batch.new crew.new.changer) }
        ensures senders { OnOk result (vec_len crew.new.senders ≡ vec_len crew.old.senders) }
    {
        let sender = crew.send_out(self.rt)?;
        let share = Share {
            part,
            worker: 0,
            sends,
        };
        let done = work_share(self.rt, self.alloc, self.gate, sender, share);
        let changed = make_changes(
            self.alloc,
            self.rt,
            &mut crew.changer,
            self.gate,
            part.first_change,
            part.items,
            &mut batch.outcomes,
        );
        let taken = crew.put_back(self.rt, done, &mut batch.shares);
        changed?;
        taken?;
        Ok(())
    }
}

// The number of workers that take part, for this number of pieces.
fn used_for(workers: u32, pieces: usize) -> u32
    requires { 1 ≤ workers }
    ensures some { 1 ≤ result }
    ensures most { result ≤ workers }
    ensures one { pieces ≤ 1 → result ≡ 1 }
    ensures all { (result ≡ workers) ⊎ (pieces ≤ result) }
{
    if pieces <= 1 {
        1
    } else if (workers as usize) < pieces {
        workers
    } else {
        pieces as u32
    }
}

impl<'s, G: Gate, R: Threads + Wait + Sync> Run<'s, G, R> {
    // Runs the workers, in threads unless there is only one.
    fn work<'e: 's, 'd: 's, N: ArenaName + Send + Sync + 's>(
        &self,
        scope: &'s Scope<'s, &'e ()>,
        crew: &mut Crew<'d, N>,
        part: Part<'s>,
        alone: bool,
        sends: usize,
        batch: &mut Batch,
    ) -> Result<(), AllocError>
        requires image { crew.old.changer.origin ≡ origin_of part.image.now }
        requires sound { IsSoundPart part }
        requires enough { part.deal.workers ≤ vec_len crew.old.senders }
        requires one { alone ≡ true → part.deal.workers ≡ 1 }
        requires no_shares { batch.old.shares.items ≡ [] }
        requires no_outcomes { batch.old.outcomes.items ≡ [] }
        ensures served { OnOk result
            (HasServed part.entry crew.old.changer batch.new crew.new.changer) }
        ensures senders { OnOk result (vec_len crew.new.senders ≡ vec_len crew.old.senders) }
    {
        if alone {
            self.work_alone(crew, part, sends, batch)
        } else {
            let workers = part.deal.workers;
            work_beside(self, scope, crew, workers, part, sends, batch)
        }
    }

    // Answers items, a line for each, and returns the numbers of pieces and changes. It starts no
    // more threads than there are pieces. If there is one piece and no change, it starts none.
    pub(crate) fn share_out<'e: 's, 'd: 's, N: ArenaName + Send + Sync + 's>(
        &self,
        scope: &'s Scope<'s, &'e ()>,
        crew: &mut Crew<'d, N>,
        all: Part<'s>,
        text: &mut Vec<u8>,
    ) -> Result<Counts, AllocError>
        requires image { crew.old.changer.origin ≡ origin_of all.image.now }
        requires sound { IsSoundPart all }
        requires enough { all.deal.workers ≤ vec_len crew.old.senders }
        ensures answered { OnOk result
            (IsAnsweredBeside all.entry crew.old.changer text.old.items text.new.items) }
        ensures history { OnOk result
            (crew.new.changer ≡ history_past all.entry crew.old.changer) }
        ensures senders { OnOk result (vec_len crew.new.senders ≡ vec_len crew.old.senders) }
        ensures pieces { IfOk result (λ c. PartPieces all.entry c.pieces) }
        ensures changes { IfOk result (λ c. PartChanges all.entry c.changes) }
    {
        let sends = sends_in(all.items);
        let pieces = sends.div_ceil(all.deal.cut as usize);
        let changes = (all.items.len() - sends) as u32;
        let workers = used_for(all.deal.workers, pieces);
        let part = Part {
            image: all.image,
            items: all.items,
            deal: all.deal.with_workers(workers),
            first_change: all.first_change,
        };
        let alone = pieces <= 1 && (changes == 0 || sends == 0);
        let mut batch = Batch {
            shares: Vec::new(self.alloc),
            outcomes: Vec::new(self.alloc),
        };
        self.work(scope, crew, part, alone, sends, &mut batch)?;
        gather(self.alloc, text, part, &batch.shares, &batch.outcomes)?;
        Ok(Counts {
            pieces: pieces as u32,
            changes,
        })
    }
}
