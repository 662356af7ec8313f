//! The search for values that don't have the form of the format.

ghost use Rattle.std.specs.Prelude.{◌≡◌, ◌≢◌, ◌≤◌, ◌<◌, ◌++◌, [], ◌∷◌, false, true, length, map, Some, None, IfOk, OnOk, IfSome, option_map, option_and_then, slice_get};
ghost use Rattle.std.specs.List.{All};
ghost use Rattle.serde_json.specs.Data.{array, object};
ghost use Rattle.serde_json.specs.Find.{get_member};
ghost use Rattle.msg_json.specs.View.{view, items_view, members_view};
ghost use Rattle.msg_form.specs.Shape.{form_of};
ghost use Rattle.msg_explain.specs.Fitting as spec;
ghost use Rattle.msg_explain.specs.Places.{IsAt, IsMisplaced, KeysFit, PartsFit, PlacesFit, whole};
ghost use Rattle.msg_explain.specs.Tables as tables;

use crate::fitting::fits;
use crate::part::{Part, Wanted};
use crate::place::{Place, Step};
use crate::tables::{at_place, edition, keys};
use msg_json::{Bump, Tree};
use std::alloc::{AllocError, Global};

/// The data of a search, and the arena of what it reads.
#[derive(Drop)]
struct Whole<'t, 'b> {
    alloc: Global,
    bump: &'t Bump,
    document: Tree<'t, 'b>,
    wanted: Wanted,
}

/// Returns the places whose values don't have the form that the format expects there, though each
/// of their parts does. If the value spells no document there is at least one, and otherwise there
/// is none.
///
/// `bump` keeps what is read on the way. Each level takes memory in proportion to the document.
#[tactic(auto, unfolding(crate::specs::Fitting::fits, crate::specs::Fitting::is_part))]
pub fn misplaced<'t, 'b>(
    alloc: Global,
    bump: &'t Bump,
    document: &Tree<'t, 'b>,
) -> Result<Vec<Place<'t, 'b>>, AllocError>
    ensures sound { IfOk result
        (λ ps. All (IsMisplaced (whole (view document.now)) (view document.now)) ps.items) }
    ensures some { IfOk result (λ ps. form_of (view document.now) ≡ None → 0 < length ps.items) }
    ensures none { IfOk result (λ ps. form_of (view document.now) ≢ None → ps.items ≡ []) }
{
    let wanted = Wanted::One(Part::Document(edition(document)));
    let mut told = Vec::new(alloc);
    if fits(alloc, bump, wanted, document)? {
        return Ok(told);
    }
    let whole = Whole {
        alloc,
        bump,
        document: *document,
        wanted,
    };
    let mut path = Vec::new(alloc);
    look(document, wanted, &whole, &mut path, &mut told)?;
    Ok(told)
}

/// Walks down a value that doesn't have the expected form, and lists the places.
#[cycle(look)]
fn look<'t, 'b>(
    value: &Tree<'t, 'b>,
    wanted: Wanted,
    whole: &Whole<'t, 'b>,
    path: &mut Vec<Step>,
    told: &mut Vec<Place<'t, 'b>>,
) -> Result<(), AllocError>
    requires here { IsAt whole.now.wanted (view whole.now.document)
        path.old.items wanted (view value.now) }
    requires unfit { spec.fits wanted (view value.now) ≡ false }
    requires sound { All (IsMisplaced whole.now.wanted (view whole.now.document)) told.old.items }
    ensures sound { OnOk result
        (All (IsMisplaced whole.now.wanted (view whole.now.document)) told.new.items) }
    ensures path { OnOk result (path.new.items ≡ path.old.items) }
    ensures some { OnOk result (length told.old.items < length told.new.items) }
{
    let before = told.len();
    look_at_parts(value, wanted, whole, path, told)?;
    if told.len() == before {
        let path = path.clone()?;
        told.push(Place {
            path,
            wanted,
            found: *value,
        })?;
    }
    Ok(())
}

/// Looks at the parts of a value.
#[cycle(look)]
fn look_at_parts<'t, 'b>(
    value: &Tree<'t, 'b>,
    wanted: Wanted,
    whole: &Whole<'t, 'b>,
    path: &mut Vec<Step>,
    told: &mut Vec<Place<'t, 'b>>,
) -> Result<(), AllocError>
    requires here { IsAt whole.now.wanted (view whole.now.document)
        path.old.items wanted (view value.now) }
    requires sound { All (IsMisplaced whole.now.wanted (view whole.now.document)) told.old.items }
    ensures sound { OnOk result
        (All (IsMisplaced whole.now.wanted (view whole.now.document)) told.new.items) }
    ensures path { OnOk result (path.new.items ≡ path.old.items) }
    ensures grown { OnOk result (length told.old.items ≤ length told.new.items) }
    ensures own { OnOk result (length told.new.items ≤ length told.old.items
        → PartsFit wanted (view value.now)) }
{
    match value {
        Tree::Array(values) => look_at_places(values, wanted, whole, path, told),
        Tree::Object(members) => look_at_keys(members, wanted, whole, path, told),
        _ => Ok(()),
    }
}

/// Looks at the parts of a list.
#[cycle(look)]
fn look_at_places<'t, 'b>(
    values: &[Tree<'t, 'b>],
    wanted: Wanted,
    whole: &Whole<'t, 'b>,
    path: &mut Vec<Step>,
    told: &mut Vec<Place<'t, 'b>>,
) -> Result<(), AllocError>
    requires here { IsAt whole.now.wanted (view whole.now.document)
        path.old.items wanted (array (items_view values.now)) }
    requires sound { All (IsMisplaced whole.now.wanted (view whole.now.document)) told.old.items }
    ensures sound { OnOk result
        (All (IsMisplaced whole.now.wanted (view whole.now.document)) told.new.items) }
    ensures path { OnOk result (path.new.items ≡ path.old.items) }
    ensures grown { OnOk result (length told.old.items ≤ length told.new.items) }
    ensures own { OnOk result (length told.new.items ≤ length told.old.items
        → PlacesFit wanted (map view values.now) (length values.now)) }
{
    let word = word_of(values);
    for place in 0..values.len() {
        if let Some(part) = at_place(wanted, word, place) {
            look_into(&values[place], part, Step::Place(place), whole, path, told)?;
        }
    }
    Ok(())
}

/// Looks at the parts of an object.
#[cycle(look)]
fn look_at_keys<'t, 'b>(
    members: &[(&'t str, Tree<'t, 'b>)],
    wanted: Wanted,
    whole: &Whole<'t, 'b>,
    path: &mut Vec<Step>,
    told: &mut Vec<Place<'t, 'b>>,
) -> Result<(), AllocError>
    requires here { IsAt whole.now.wanted (view whole.now.document)
        path.old.items wanted (object (members_view members.now)) }
    requires sound { All (IsMisplaced whole.now.wanted (view whole.now.document)) told.old.items }
    ensures sound { OnOk result
        (All (IsMisplaced whole.now.wanted (view whole.now.document)) told.new.items) }
    ensures path { OnOk result (path.new.items ≡ path.old.items) }
    ensures grown { OnOk result (length told.old.items ≤ length told.new.items) }
    ensures own { OnOk result (length told.new.items ≤ length told.old.items
        → KeysFit wanted (object (members_view members.now)) (length (tables.keys wanted))) }
{
    let keys = keys(wanted);
    for place in 0..keys.len() {
        let (name, part) = keys[place];
        if let Some(index) = last(members, name) {
            look_into(&members[index].1, part, Step::Key(name), whole, path, told)?;
        }
    }
    Ok(())
}

/// Walks down a part, if it doesn't have the expected form.
#[cycle(look)]
fn look_into<'t, 'b>(
    value: &Tree<'t, 'b>,
    wanted: Wanted,
    step: Step,
    whole: &Whole<'t, 'b>,
    path: &mut Vec<Step>,
    told: &mut Vec<Place<'t, 'b>>,
) -> Result<(), AllocError>
    requires here { IsAt whole.now.wanted (view whole.now.document)
        (path.old.items ++ step ∷ []) wanted (view value.now) }
    requires sound { All (IsMisplaced whole.now.wanted (view whole.now.document)) told.old.items }
    ensures sound { OnOk result
        (All (IsMisplaced whole.now.wanted (view whole.now.document)) told.new.items) }
    ensures path { OnOk result (path.new.items ≡ path.old.items) }
    ensures grown { OnOk result (length told.old.items ≤ length told.new.items) }
    ensures fit { OnOk result (length told.new.items ≤ length told.old.items
        → spec.fits wanted (view value.now) ≡ true) }
{
    if fits(whole.alloc, whole.bump, wanted, value)? {
        return Ok(());
    }
    path.push(step)?;
    look(value, wanted, whole, path, told)?;
    path.pop();
    Ok(())
}

/// The word that a list begins with, or no text.
pub(crate) fn word_of<'t>(values: &[Tree<'t, '_>]) -> &'t str
    ensures { result.now ≡ tables.word_of (map view values.now) }
{
    if values.is_empty() {
        return "";
    }
    match values[0] {
        Tree::Text(word) => word,
        _ => "",
    }
}

/// The index of the last member with a key.
pub(crate) fn last(members: &[(&str, Tree<'_, '_>)], key: &str) -> Option<usize>
    ensures inside { IfSome result (λ i. i < length members.now) }
    ensures value { get_member key.now (members_view members.now) ≡ option_and_then
        (λ i. option_map (λ m. view m.1) (slice_get members.now i)) result }
{
    let mut left = members.len();
    while left > 0 {
        left -= 1;
        if members[left].0 == key {
            return Some(left);
        }
    }
    None
}
