//! Explanations of a document whose changes are made while its sends are answered.

ghost use Rattle.std.specs.Prelude.{◌≡◌, IfOk, OnOk, map};
ghost use Rattle.msg_image.specs.DocumentParts.{document_parts};
ghost use Rattle.msg_image.specs.Items.{SendItem};
ghost use Rattle.msg_image.specs.Plain.{item_parts};
ghost use Rattle.msg_image.specs.Sound.{IsOf, IsSoundItem};
ghost use Rattle.msg_io.specs.Reading.{IsSoundDocument};
ghost use Rattle.msg_eval.specs.Facts.{AreOf};
ghost use Rattle.msg_eval.specs.Finder.{sizes_of, table_sizes};
ghost use Rattle.msg_reasons.specs.ItemsBeside.{ExplainsBeside, IsOpenedBeside};
ghost use Rattle.msg_reasons.specs.Text.{beside_text};

use crate::changing::{change_as_one, change_one};
use crate::moving::Moving;
use crate::text::push_seen;
use msg_answers::{push_outcome, push_reply};
use msg_eval::Args;
use msg_image::{Document, Image, Item};
use msg_names::{Selector, Value};
use msg_tables::{Tables, Written};
use std::alloc::{AllocError, Global};

// The tables in which the changes are made in their order, and those in which the sends are
// answered, which go through the same changes.
#[derive(Drop)]
pub(crate) struct Beside<'c> {
    pub(crate) tables: Tables,
    written: Written,
    pub(crate) moving: Moving<'c>,
}

impl<'c> Beside<'c> {
    // Makes an explainer that has explained nothing.
    fn open(
        alloc: Global,
        image: &Image,
        items: &'c [Item],
        versions: &'c [u64],
    ) -> Result<Beside<'c>, AllocError>
        ensures { IfOk result
            (IsOpenedBeside image.now (map item_parts items.now) versions.now) }
    {
        Ok(Beside {
            tables: Tables::open(alloc, image)?,
            written: Written::none(alloc),
            moving: Moving::open(alloc, image, items, versions)?,
        })
    }

    // Answers a send, and says why.
    fn explain_send(
        &mut self,
        image: &Image,
        receiver: Value,
        sel: Selector,
        args: &Args,
        text: &mut Vec<u8>,
    ) -> Result<(), AllocError>
        requires sizes { table_sizes self.old.moving.tables ≡ sizes_of image.now }
        requires receiver_of { IsOf image.now receiver }
        requires args_of { AreOf image.now args.now.items }
        ensures sizes { table_sizes self.new.moving.tables ≡ sizes_of image.now }
        ensures item { OnOk result (ExplainsBeside image.now
            (SendItem receiver sel args.now.items) self.old self.new text.old.items text.new.items) }
    {
        let reply = self.moving.send(image, receiver, sel, args)?;
        push_reply(text, image, reply)?;
        push_seen(text, image, self.moving.seen())?;
        Ok(())
    }

    // Answers an item, and says why.
    fn explain_item(
        &mut self,
        image: &Image,
        item: &Item,
        text: &mut Vec<u8>,
    ) -> Result<(), AllocError>
        requires sizes { table_sizes self.old.moving.tables ≡ sizes_of image.now }
        requires sound { IsSoundItem image.now (item_parts item.now) }
        ensures sizes { table_sizes self.new.moving.tables ≡ sizes_of image.now }
        ensures item { OnOk result (ExplainsBeside image.now (item_parts item.now)
            self.old self.new text.old.items text.new.items) }
    {
        match item {
            Item::Send {
                receiver,
                sel,
                args,
            } => self.explain_send(image, *receiver, *sel, args, text),
            Item::Change(change) => {
                let outcome = change_one(&mut self.tables, change, &mut self.written)?;
                push_outcome(text, outcome)
            }
            Item::ChangeAll(changes) => {
                let outcome = change_as_one(&mut self.tables, changes, &mut self.written)?;
                push_outcome(text, outcome)
            }
        }
    }
}

/// Answers a document's items as a run does that makes the changes while the sends are answered.
/// Under each answer it writes the lookups behind it, and the number of changes that were made
/// before each.
///
/// The first of the versions is that of the first lookup, and so on. A version is the number of
/// items of changes that were made. No version goes back: one that is less than the one before it,
/// or that is missing, counts as the one before it. A version above the number of those that are
/// made counts as that number. The only error is a lack of memory.
pub fn explain_beside(
    alloc: Global,
    document: &Document,
    versions: &[u64],
) -> Result<Vec<u8>, AllocError>
    requires { IsSoundDocument (document_parts document.now) }
    ensures { IfOk result
        (λ text. text.items ≡ beside_text (document_parts document.now) versions.now) }
{
    let mut explainer = Beside::open(alloc, &document.image, &document.items, versions)?;
    let mut text = Vec::new(alloc);
    for item in &document.items {
        explainer.explain_item(&document.image, item, &mut text)?;
    }
    Ok(text)
}
