//! Tables in which a send's lookups are answered at given versions.

ghost use Rattle.std.specs.Prelude.{◌≡◌, ◌<◌, ◌+◌, ◌^◌, IfOk, OnOk, map, true};
ghost use Rattle.msg_image.specs.Plain.{item_parts};
ghost use Rattle.msg_image.specs.Sound.{IsOf};
ghost use Rattle.msg_eval.specs.Evaluation.{send_of};
ghost use Rattle.msg_eval.specs.Facts.{AreOf};
ghost use Rattle.msg_eval.specs.Finder.{sizes_of, table_sizes};
ghost use Rattle.msg_reasons.specs.Beside.{opening};
ghost use Rattle.msg_reasons.specs.Changing.{KeepsSizes};
ghost use Rattle.msg_reasons.specs.Moving.{IsOn, KeepsNotes, MakesItem, MovesOn, MovesTo, Notes, Sends};

use crate::changing::{change_as_one, change_one};
use crate::notes::Lookup;
use crate::noting::search;
use msg_answers::Outcome;
use msg_eval::{Args, Finder, Reply, send};
use msg_image::{Image, Item};
use msg_names::{ClassRef, ImpRef, Selector, Value};
use msg_tables::{Tables, Written};
use std::alloc::{AllocError, Global};

// A lookup, and the number of changes that were made before it.
#[derive(Clone, Copy)]
pub(crate) struct Seen {
    pub(crate) lookup: Lookup,
    pub(crate) changes: u64,
}

// Tables on the way through a document's changes.
#[derive(Drop)]
pub(crate) struct Moving<'c> {
    pub(crate) tables: Tables,
    written: Written,
    // The number of lists of changes that were made.
    pub(crate) made: u64,
    // The items whose changes come next.
    pub(crate) left: &'c [Item],
    // The versions at which the next lookups are answered.
    pub(crate) versions: &'c [u64],
    // The lookups of this send.
    pub(crate) seen: Vec<Seen>,
    // Whether there was memory for all of it.
    pub(crate) is_whole: bool,
}

impl Finder for Moving<'_> {
    ghost use Rattle.std.specs.Prelude.{Option};
    ghost use Rattle.msg_eval.specs.Finder.{Sizes, table_sizes};
    ghost use Rattle.msg_reasons.specs.Beside.{Course};
    ghost use Rattle.msg_reasons.specs.Moving.{FollowsCourse, IsOnOrLost};

    ghost Kept = { Sizes };

    ghost kept = { λ m. table_sizes m.tables };

    ghost sizes = { λ sizes. sizes };

    ghost State = { Option Course };

    ghost is_in = { IsOnOrLost };

    ghost step = { FollowsCourse };

    fn find(&mut self, class: ClassRef, sel: Selector) -> ImpRef {
        self.follow();
        let lookup = search(&self.tables, class, sel);
        let changes = self.tables.start().changes;
        self.note(Seen { lookup, changes });
        lookup.imp
    }
}

impl<'c> Moving<'c> {
    // Makes the tables of an image, before the changes of these items.
    pub(crate) fn open(
        alloc: Global,
        image: &Image,
        items: &'c [Item],
        versions: &'c [u64],
    ) -> Result<Moving<'c>, AllocError>
        ensures on { IfOk result (λ m.
            IsOn m (opening image.now (map item_parts items.now) versions.now)) }
        ensures sizes { IfOk result (λ m. table_sizes m.tables ≡ sizes_of image.now) }
    {
        Ok(Moving {
            tables: Tables::open(alloc, image)?,
            written: Written::none(alloc),
            made: 0,
            left: items,
            versions,
            seen: Vec::new(alloc),
            is_whole: true,
        })
    }

    // Makes the changes of an item, if it has any.
    fn make(&mut self, item: &Item) -> Result<(), AllocError>
        requires { self.old.made + 1 < 2 ^ 64 }
        ensures made { OnOk result (MakesItem self.old self.new (item_parts item.now)) }
        ensures sizes { KeepsSizes self.old.tables self.new.tables }
        ensures left { self.new.left.now ≡ self.old.left.now }
        ensures versions { self.new.versions.now ≡ self.old.versions.now }
        ensures notes { KeepsNotes self.old self.new }
    {
        let (outcome, count) = match item {
            Item::Send { .. } => return Ok(()),
            Item::Change(change) => (change_one(&mut self.tables, change, &mut self.written)?, 1),
            Item::ChangeAll(changes) => (
                change_as_one(&mut self.tables, changes, &mut self.written)?,
                changes.len(),
            ),
        };
        if let Outcome::Made = outcome {
            if count > 0 {
                self.made += 1;
            }
        }
        Ok(())
    }

    // Makes changes until this number of lists was made, or none is left.
    fn move_to(&mut self, version: u64) -> Result<(), AllocError>
        ensures moved { OnOk result (MovesTo version self.old self.new) }
        ensures sizes { KeepsSizes self.old.tables self.new.tables }
        ensures versions { self.new.versions.now ≡ self.old.versions.now }
        ensures notes { KeepsNotes self.old self.new }
    {
        while self.made < version {
            let Some((item, later)) = self.left.split_first() else {
                break;
            };
            self.make(item)?;
            self.left = later;
        }
        Ok(())
    }

    // Goes on to the version of the next lookup.
    fn move_on(&mut self) -> Result<(), AllocError>
        ensures moved { OnOk result (MovesOn self.old self.new) }
        ensures sizes { KeepsSizes self.old.tables self.new.tables }
        ensures notes { KeepsNotes self.old self.new }
    {
        if let Some((version, later)) = self.versions.split_first() {
            self.versions = later;
            self.move_to(*version)?;
        }
        Ok(())
    }

    // Does the same as `move_on`. If memory is lacking, the record is no longer whole.
    fn follow(&mut self)
        ensures moved { self.new.is_whole ≡ true
            → (self.old.is_whole ≡ true) × MovesOn self.old self.new }
        ensures sizes { KeepsSizes self.old.tables self.new.tables }
    {
        if self.move_on().is_err() {
            self.is_whole = false;
        }
    }

    // Notes a lookup of this send.
    fn note(&mut self, seen: Seen)
        ensures noted { self.new.is_whole ≡ true
            → (self.old.is_whole ≡ true) × Notes seen self.old self.new }
        ensures tables { self.new.tables ≡ self.old.tables }
    {
        if self.seen.push(seen).is_err() {
            self.is_whole = false;
        }
    }

    pub(crate) fn seen(&self) -> &[Seen]
        ensures { result.now ≡ self.now.seen.items }
    {
        &self.seen
    }

    // Sends a message, and notes the lookups of the bodies that it reaches.
    pub(crate) fn send(
        &mut self,
        image: &Image,
        receiver: Value,
        sel: Selector,
        args: &Args,
    ) -> Result<Reply, AllocError>
        requires sizes { table_sizes self.old.tables ≡ sizes_of image.now }
        requires receiver_of { IsOf image.now receiver }
        requires args_of { AreOf image.now args.now.items }
        ensures sizes { table_sizes self.new.tables ≡ sizes_of image.now }
        ensures sent { IfOk result
            (Sends (send_of image.now receiver sel args.now.items) self.old self.new) }
    {
        self.seen.clear();
        self.is_whole = true;
        let reply = send(self, image, receiver, sel, args);
        if self.is_whole {
            Ok(reply)
        } else {
            Err(AllocError)
        }
    }
}
