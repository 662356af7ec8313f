//! Explanations of a document that is answered.

ghost use Rattle.std.specs.Prelude.{◌≡◌, IfOk, OnOk};
ghost use Rattle.msg_image.specs.DocumentParts.{document_parts};
ghost use Rattle.msg_image.specs.Items.{SendItem};
ghost use Rattle.msg_image.specs.Plain.{item_parts};
ghost use Rattle.msg_image.specs.Sound.{IsOf, IsSoundItem};
ghost use Rattle.msg_io.specs.Reading.{IsSoundDocument};
ghost use Rattle.msg_eval.specs.Facts.{AreOf};
ghost use Rattle.msg_eval.specs.Finder.{sizes_of, table_sizes};
ghost use Rattle.msg_reasons.specs.Changing.{KeepsSizes};
ghost use Rattle.msg_reasons.specs.Items.{ExplainsItem, IsOpened};
ghost use Rattle.msg_reasons.specs.Lines.{AreLines};
ghost use Rattle.msg_reasons.specs.Text.{explanation_text};

use crate::lines::Line;
use crate::noting::Noting;
use crate::slots::Slots;
use crate::text::push_lookups;
use msg_answers::{push_outcome, push_reply};
use msg_eval::Args;
use msg_image::{Document, Image, Item};
use msg_names::{Selector, Value};
use msg_tables::Written;
use std::alloc::{AllocError, Global};

// The tables by which a document's items are answered, and what is noted on the way.
#[derive(Drop)]
struct Explainer {
    noting: Noting,
    written: Written,
    lines: Slots<Line>,
}

impl Explainer {
    // Makes an explainer that has explained nothing.
    fn open(alloc: Global, image: &Image) -> Result<Explainer, AllocError>
        ensures { IfOk result (IsOpened image.now) }
    {
        Ok(Explainer {
            noting: Noting::open(alloc, image)?,
            written: Written::none(alloc),
            lines: Slots::none(alloc)?,
        })
    }

    // Answers a send, and says why.
    fn explain_send(
        &mut self,
        image: &Image,
        receiver: Value,
        sel: Selector,
        args: &Args,
        text: &mut Vec<u8>,
    ) -> Result<(), AllocError>
        requires sizes { table_sizes self.old.noting.tables ≡ sizes_of image.now }
        requires lines { AreLines image.now self.old.lines }
        requires receiver_of { IsOf image.now receiver }
        requires args_of { AreOf image.now args.now.items }
        ensures same { self.new.noting.tables ≡ self.old.noting.tables }
        ensures lines { AreLines image.now self.new.lines }
        ensures item { OnOk result (ExplainsItem image.now (SendItem receiver sel args.now.items)
            self.old.noting.tables self.new.noting.tables text.old.items text.new.items) }
    {
        let reply = self.noting.send(image, receiver, sel, args)?;
        push_reply(text, image, reply)?;
        let changes = self.noting.tables().start().changes as usize;
        push_lookups(text, image, self.noting.lookups(), changes, &mut self.lines)?;
        Ok(())
    }

    // Answers an item, and says why.
    fn explain_item(
        &mut self,
        image: &Image,
        item: &Item,
        text: &mut Vec<u8>,
    ) -> Result<(), AllocError>
        requires sizes { table_sizes self.old.noting.tables ≡ sizes_of image.now }
        requires lines { AreLines image.now self.old.lines }
        requires sound { IsSoundItem image.now (item_parts item.now) }
        ensures sizes { KeepsSizes self.old.noting.tables self.new.noting.tables }
        ensures lines { AreLines image.now self.new.lines }
        ensures item { OnOk result (ExplainsItem image.now (item_parts item.now)
            self.old.noting.tables self.new.noting.tables text.old.items text.new.items) }
    {
        match item {
            Item::Send {
                receiver,
                sel,
                args,
            } => self.explain_send(image, *receiver, *sel, args, text),
            Item::Change(change) => {
                let outcome = self.noting.change_one(change, &mut self.written)?;
                push_outcome(text, outcome)
            }
            Item::ChangeAll(changes) => {
                let outcome = self.noting.change_as_one(changes, &mut self.written)?;
                push_outcome(text, outcome)
            }
        }
    }
}

/// Answers a document's items in their order, and writes under each answer the lookups behind it.
/// Each lookup of a send has a line, with the class that has the method which it found, and their
/// number follows.
///
/// Without the lines of lookups it is the text that `answer_document` of `msg_runner` returns. The
/// only error is a lack of memory.
pub fn explain_document(alloc: Global, document: &Document) -> Result<Vec<u8>, AllocError>
    requires { IsSoundDocument (document_parts document.now) }
    ensures { IfOk result (λ text. text.items ≡ explanation_text (document_parts document.now)) }
{
    let mut explainer = Explainer::open(alloc, &document.image)?;
    let mut text = Vec::new(alloc);
    for item in &document.items {
        explainer.explain_item(&document.image, item, &mut text)?;
    }
    Ok(text)
}
