//! Documents.

ghost use Rattle.std.specs.Prelude.{◌≡◌, ◌≢◌, ◌≤◌, length, map, All, Some, None, Ok, Err, IfOk, IfErr};
ghost use Rattle.msg_json.specs.View.{view};
ghost use Rattle.msg_form.specs.Faults.{fault_of};
ghost use Rattle.msg_form.specs.FormNames.{AreNamesOf};
ghost use Rattle.msg_form.specs.Views.{form_view};
ghost use Rattle.msg_form.specs.declared.faults.DocumentFault.{DocumentFault};
ghost use Rattle.msg_image.specs.Answer.{BytesHaveOneAnswer, IsAnswer, IsFaultOf, IsJson, IsJudged};
ghost use Rattle.msg_image.specs.Answer.{SaysNotJson, Spells, judged};
ghost use Rattle.msg_image.specs.Document.{document_of};
ghost use Rattle.msg_image.specs.DocumentParts.{document_parts};
ghost use Rattle.msg_image.specs.Plain.{item_parts};
ghost use Rattle.msg_image.specs.Sound.{IsSoundItem};

use crate::change::Item;
use crate::image::Image;
use crate::resolve::each;
use msg_form::{DocumentFault, Form, FormNames, MAX_ITEMS};
use msg_json::{Bump, JsonFault, Scratch, Tree};
use std::alloc::{AllocError, Global};

/// The longest document, in bytes.
pub const MOST_BYTES: usize = 16_777_216;

// This number of bytes for each byte of a text holds the tree of most texts.
const TREE_BYTES: usize = 4;

// The most bytes of the first piece of a tree's arena. A second piece has twice as many.
const PIECE_BYTES: usize = 15_728_640;

// More than the second piece has, and no more than 32 MiB. That is the largest block that glibc
// keeps for reuse after it was freed once.
const FREED_BYTES: usize = 32_505_856;

// A text with at least this number of bytes is long.
const LONG_BYTES: usize = 65_536;

/// An image, and the items that send to it and change it.
#[derive(Drop)]
pub struct Document {
    pub image: Image,
    pub items: Vec<Item>,
}

fn parsed<'t, 'b>(
    alloc: Global,
    bump: &'b Bump,
    bytes: &'t [u8],
    scratch: &'t mut Scratch,
) -> Result<Tree<'t, 'b>, DocumentFault>
    ensures ok { IfOk result (λ v. IsJson bytes.now (Some (view v))) }
    ensures err { IfErr result (SaysNotJson bytes.now) }
{
    match msg_json::read(alloc, bump, bytes, scratch) {
        Ok(value) => Ok(value),
        Err(JsonFault::Memory) => Err(DocumentFault::Memory),
        Err(JsonFault::NotJson) => Err(DocumentFault::NotJson),
    }
}

// Makes the document of a form without fault.
fn numbered(alloc: Global, form: &Form, names: &FormNames) -> Result<Document, AllocError>
    requires fault { fault_of (form_view form.now) ≡ None }
    requires names { AreNamesOf names.now (form_view form.now) }
    ensures document { IfOk result (λ d. document_parts d ≡ document_of (form_view form.now)) }
    ensures sound { IfOk result (λ d. All (IsSoundItem d.image) (map item_parts d.items.items)) }
    ensures few { IfOk result (λ d. length d.items.items ≤ MAX_ITEMS) }
{
    let items = each(alloc, names, &form.items)?;
    let image = Image::of(alloc, form, names)?;
    Ok(Document { image, items })
}

// Makes the document of a form, or returns the form's least fault, by the form's names.
fn by_names(alloc: Global, form: &Form, names: &FormNames) -> Result<Document, DocumentFault>
    requires { AreNamesOf names.now (form_view form.now) }
    ensures ok { IfOk result (λ d. judged (Some (form_view form.now)) ≡ Ok (document_parts d)) }
    ensures err { IfErr result (IsFaultOf (form_view form.now)) }
    ensures sound { IfOk result (λ d. All (IsSoundItem d.image) (map item_parts d.items.items)) }
    ensures few { IfOk result (λ d. length d.items.items ≤ MAX_ITEMS) }
{
    match msg_form::fault_by(alloc, form, names)? {
        Some(fault) => Err(fault),
        None => Ok(numbered(alloc, form, names)?),
    }
}

/// Judges a form, whoever made it. Returns its document or its least fault, as [`read_document`]
/// does for a text that spells it.
///
/// It takes time and memory in proportion to the form. `Memory` may be returned if an allocation is
/// refused. Every other fault says of the form what its name says.
pub fn judge_form(alloc: Global, form: &Form) -> Result<Document, DocumentFault>
    ensures ok { IfOk result (λ d. judged (Some (form_view form.now)) ≡ Ok (document_parts d)) }
    ensures err { IfErr result (IsFaultOf (form_view form.now)) }
    ensures sound { IfOk result (λ d. All (IsSoundItem d.image) (map item_parts d.items.items)) }
    ensures few { IfOk result (λ d. length d.items.items ≤ MAX_ITEMS) }
{
    let names = FormNames::of(alloc, form)?;
    let document = by_names(alloc, form, &names);
    drop(names);
    document
}

// Allocates room for the tree of most texts at once. If there isn't enough memory, the arena begins
// small.
//
// glibc returns a large block to the system when it is freed, unless one as large was freed before.
// So for a long text one is first allocated and freed without writing to it. The image then comes
// to lie where the tree was, and the system doesn't have to clear pages for it.
fn arena(alloc: Global, bytes: &[u8]) -> Bump {
    if bytes.len() >= LONG_BYTES {
        drop(Bump::try_with_capacity(alloc, FREED_BYTES));
    }
    let room = bytes.len().saturating_mul(TREE_BYTES);
    match Bump::try_with_capacity(alloc, room.min(PIECE_BYTES)) {
        Ok(bump) => bump,
        Err(_) => Bump::new(alloc),
    }
}

// Reads the form that a text spells, with its expressions in the arena. Its tree lies in an arena
// of its own. Neither is kept along with what is made from the form.
fn spelled<'t>(
    alloc: Global,
    bump: &'t Bump,
    bytes: &'t [u8],
    scratch: &'t mut Scratch,
) -> Result<Form<'t>, DocumentFault>
    ensures ok { IfOk result (λ f. Spells bytes.now (form_view f)) }
    ensures err { IfErr result (λ e. e ≢ DocumentFault.Memory → IsJudged bytes.now (Err e)) }
{
    let trees = arena(alloc, bytes);
    let value = parsed(alloc, &trees, bytes, scratch)?;
    Ok(Form::read(alloc, bump, &value)?)
}

/// Reads a document: the image and the items that the bytes spell, or the first fault in the order
/// of [`DocumentFault`].
///
/// It takes time and memory in proportion to the bytes. A text that is too long isn't looked at.
/// `Memory` may be returned if an allocation is refused. Every other fault says of the bytes what
/// its name says.
pub fn read_document(alloc: Global, bytes: &[u8]) -> Result<Document, DocumentFault>
    ensures ok { IfOk result (λ d. IsAnswer bytes.now (Ok (document_parts d))) }
    ensures err { IfErr result (λ e. e ≢ DocumentFault.Memory → IsAnswer bytes.now (Err e)) }
    ensures sound { IfOk result (λ d. All (IsSoundItem d.image) (map item_parts d.items.items)) }
    ensures few { IfOk result (λ d. length d.items.items ≤ MAX_ITEMS) }
{
    if bytes.len() > MOST_BYTES {
        return Err(DocumentFault::Limit);
    }
    let mut scratch = Scratch::new(alloc);
    let bump = Bump::new(alloc);
    let form = spelled(alloc, &bump, bytes, &mut scratch)?;
    judge_form(alloc, &form)
}

/// The same bytes always have the same result.
#[tactic(auto, using(crate::proofs::AnswerLemmas::one))]
pub fn one_answer()
    ensures { BytesHaveOneAnswer }
{}
