//! The lines of a document that was read.
//!
//! The way from `answer_document` to a send: `over_dispatcher` and `over_scope` open what they are
//! named after; `write_parts` and `write_part` go over the items; `write_sends`, `write_pieces` and
//! `write_piece` answer sends on the calling thread, and `share_out` has workers answer them.

ghost use Rattle.std.specs.Prelude.{◌≡◌, ◌≤◌, ◌⊎◌};
ghost use Rattle.std.specs.Prelude.{length, vec_len, IfOk, OnOk};
ghost use Rattle.std.specs.Thread.{IsSync};
ghost use Rattle.msg_image.specs.DocumentParts.{document_parts};
ghost use Rattle.msg_image.specs.Opened.{origin_of};
ghost use Rattle.msg_tables.specs.History.{empty};
ghost use Rattle.msg_runtime.specs.Parts.{IsKeeperOf, keeper_history};
ghost use Rattle.msg_io.specs.Reading.{IsSoundDocument};
ghost use Rattle.msg_answers.specs.Parts.{items_of, history_past, HasLines, IsSoundPart};
ghost use Rattle.msg_answers.specs.Parts.{PartChanges, PartPieces};
ghost use Rattle.msg_answers.specs.Serving.{AllSends, IsOneChange};
ghost use Rattle.msg_answers.specs.Text.{output_of};
ghost use Rattle.msg_runner.specs.Lines.{AreLinesOf, AreLinesOfPart};

use crate::arena::arena_for;
use crate::changes::Changes;
use crate::context::Run;
use crate::crew::Crew;
use crate::gate::Gate;
use msg_answers::{Counts, Deal, Part, is_one_change, part_len};
use msg_cache::{Arena, Keeper};
use msg_dispatch::{ArenaName, Dispatcher};
use msg_image::{Document, MAX_ITEMS};
use std::alloc::{AllocError, Global};
use std::marker::Brand;
use std::sync::Wait;
use std::thread;
use std::thread::{Scope, Threads};

// Whether a part has work for a second worker: more than one piece of sends.
fn is_shared(part: Part<'_>) -> bool {
    part.deal.workers != 1 && part.items.len() > part.deal.cut as usize
}

impl<'s, G: Gate, R: Threads + Wait + Sync> Run<'s, G, R> {
    // Writes the lines of a part: of the sends before the next item of changes, or of one such
    // item. The calling thread answers alone if the part is an item of changes, if only one worker
    // takes part, or if there is one piece.
    fn write_part<'e: 's, 'd: 's, N: ArenaName + Send + Sync + 's>(
        &self,
        scope: &'s Scope<'s, &'e ()>,
        crew: &mut Crew<'d, N>,
        part: Part<'s>,
        text: &mut Vec<u8>,
    ) -> Result<Counts, AllocError>
        requires image { crew.old.changer.origin ≡ origin_of part.image.now }
        requires sound { IsSoundPart part }
        requires enough { part.deal.workers ≤ vec_len crew.old.senders }
        requires part { AllSends (items_of part) ⊎ IsOneChange (items_of part) }
        ensures text { OnOk result
            (HasLines part.entry crew.old.changer text.old.items text.new.items) }
        ensures history { OnOk result
            (crew.new.changer ≡ history_past part.entry crew.old.changer) }
        ensures senders { OnOk result (vec_len crew.new.senders ≡ vec_len crew.old.senders) }
        ensures pieces { IfOk result (λ c. PartPieces part.entry c.pieces) }
        ensures changes { IfOk result (λ c. PartChanges part.entry c.changes) }
    {
        if is_one_change(part.items) {
            let number = part.first_change;
            self.write_change(&mut crew.changer, number, &part.items[0], text)?;
            return Ok(Counts {
                pieces: 0,
                changes: 1,
            });
        }
        if is_shared(part) {
            return self.share_out(scope, crew, part, text);
        }
        let pieces = self.write_sends(crew, part, text)?;
        Ok(Counts { pieces, changes: 0 })
    }

    // Writes the lines of all items. If the changes are made while the sends are answered, they are
    // one batch. Otherwise they are written part by part.
    fn write_parts<'e: 's, 'd: 's, N: ArenaName + Send + Sync + 's>(
        &self,
        scope: &'s Scope<'s, &'e ()>,
        crew: &mut Crew<'d, N>,
        all: Part<'s>,
    ) -> Result<Vec<u8>, AllocError>
        requires image { crew.old.changer.origin ≡ origin_of all.image.now }
        requires sound { IsSoundPart all }
        requires enough { all.deal.workers ≤ vec_len crew.old.senders }
        ensures { IfOk result
            (λ text. AreLinesOfPart self.now.changes all.entry crew.old.changer text.items) }
    {
        let mut text = Vec::new(self.alloc);
        if let Changes::Beside = self.changes {
            let _counts = self.share_out(scope, crew, all, &mut text)?;
            return Ok(text);
        }
        let mut rest = all;
        while !rest.items.is_empty() {
            let (items, later) = rest.items.split_at(part_len(rest.items));
            let part = rest.with_items(items);
            let counts = self.write_part(scope, crew, part, &mut text)?;
            rest = rest.after(counts, later);
        }
        Ok(text)
    }

    // Writes the lines of a document, by a crew of its own, with its threads in one scope.
    fn over_scope<N: ArenaName + Send + Sync>(
        &self,
        dispatcher: &'s Dispatcher<N>,
        document: &'s Document,
    ) -> Result<Vec<u8>, AllocError>
        requires image { N.arena.key.origin ≡ origin_of document.now.image }
        requires sound { IsSoundDocument (document_parts document.now) }
        requires few { length document.now.items.items ≤ MAX_ITEMS }
        requires first { self.now.deal.first ≡ 0 }
        ensures lines { IfOk result (λ text. AreLinesOf self.now.changes self.now.deal.workers
            self.now.deal.cut (document_parts document.now) text.items) }
    {
        let run = *self;
        let crew = Crew::of(run.rt, run.alloc, dispatcher, run.deal.workers)?;
        thread::scope(
            thread::scope_env(),
            run.rt,
            |scope| -> Result<Vec<u8>, AllocError>
                requires { IsSync R.row × (crew.changer ≡ empty (origin_of document.now.image))
                    × (vec_len crew.senders ≡ run.deal.workers)
                    × IsSoundDocument (document_parts document.now)
                    × (length document.now.items.items ≤ MAX_ITEMS) × (run.deal.first ≡ 0) }
                ensures lines { IfOk result (λ text. AreLinesOf run.entry.changes run.entry.deal.workers
                    run.entry.deal.cut (document_parts document.entry.now) text.items) }
            {
                let all = Part {
                    image: &document.image,
                    items: &document.items,
                    deal: run.deal,
                    first_change: 0,
                };
                let mut crew = crew;
                run.write_parts(scope, &mut crew, all)
            },
        )
    }
}

impl<'r, G: Gate, R: Threads + Wait + Sync> Run<'r, G, R> {
    // Writes the lines of a document, by a dispatcher over its arena.
    fn over_dispatcher<N: ArenaName + Send + Sync>(
        &self,
        arena: Arena,
        keeper: Keeper,
        document: &Document,
    ) -> Result<Vec<u8>, AllocError>
        requires arena { arena ≡ N.arena }
        requires keeper { IsKeeperOf N.arena keeper }
        requires image { origin_of document.now.image ≡ N.arena.key.origin }
        requires history { keeper_history keeper ≡ empty (origin_of document.now.image) }
        requires sound { IsSoundDocument (document_parts document.now) }
        requires few { length document.now.items.items ≤ MAX_ITEMS }
        requires first { self.now.deal.first ≡ 0 }
        ensures { IfOk result (λ text. AreLinesOf self.now.changes self.now.deal.workers
            self.now.deal.cut (document_parts document.now) text.items) }
    {
        let dispatcher: Dispatcher<N> = Dispatcher::open(
            self.alloc,
            arena,
            keeper,
            &document.image,
        )?;
        let run = *self;
        run.over_scope(&dispatcher, document)
    }
}

/// Answers a document's items in their order, with a line for each. The text is complete.
///
/// With `Changes::Between` the text is that of one thread which takes the items one by one and
/// searches the method lists, for every number of workers and every cut. No more threads are
/// started than there are pieces of `cut` sends. If there is one worker, it is the calling thread.
/// The only error is a lack of memory.
pub fn answer_document<G: Gate, T: Threads + Wait + Sync>(
    rt: &T,
    alloc: Global,
    gate: &G,
    document: &Document,
    changes: Changes,
    workers: u32,
    cut: u32,
) -> Result<Vec<u8>, AllocError>
    requires sound { IsSoundDocument (document_parts document.now) }
    requires few { length document.now.items.items ≤ MAX_ITEMS }
    requires some_workers { 1 ≤ workers }
    requires some_places { 1 ≤ cut }
    ensures lines { IfOk result (λ text.
        AreLinesOf changes workers cut (document_parts document.now) text.items) }
    ensures one_thread { changes ≡ Changes.Between
        → IfOk result (λ text. text.items ≡ output_of (document_parts document.now)) }
{
    let (arena, keeper) = arena_for(alloc, &document.image, workers)?;
    let run = Run {
        rt,
        alloc,
        gate,
        changes,
        deal: Deal {
            workers,
            cut,
            first: 0,
        },
    };
    run.over_dispatcher::<Brand>(arena, keeper, document)
}
