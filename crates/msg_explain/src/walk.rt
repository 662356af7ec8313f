//! The search for values that have a document's fault.

ghost use Rattle.std.specs.Prelude.{◌≡◌, ◌++◌, [], ◌∷◌, length, map, true, IfOk, OnOk};
ghost use Rattle.msg_explain.specs.Tables as tables;
ghost use Rattle.std.specs.List.{All};
ghost use Rattle.serde_json.specs.Data.{array, object};
ghost use Rattle.msg_json.specs.View.{view, items_view, members_view};
ghost use Rattle.msg_form.specs.FormNames.{AreNamesOf};
ghost use Rattle.msg_form.specs.Views.{form_view};
ghost use Rattle.msg_explain.specs.Judging.{HasFaultAt, has_fault};
ghost use Rattle.msg_explain.specs.Places.{IsAt, whole};
ghost use Rattle.msg_explain.specs.Walks.{AllAreTold, AllBelowAreTold, AreFaulty, IsOnWay, IsTold, KeysAreTold, PartsAreTold, PlacesAreTold, StayTold};

use crate::judging::Judge;
use crate::part::{Part, Wanted};
use crate::place::{Place, Step};
use crate::search::{last, word_of};
use crate::tables::{at_place, edition, keys};
use crate::twice::names_given;
use msg_form::{DocumentFault, Form, FormNames};
use msg_json::{Bump, Tree};
use std::alloc::{AllocError, Global};

/// The data of a walk.
#[derive(Drop)]
pub(crate) struct Walk<'j, 't, 'b> {
    judge: Judge<'j, 't>,
    document: Tree<'t, 'b>,
    wanted: Wanted,
}

/// Returns the places of a document whose values have the fault, in the order of the format's
/// table. The form and the names are those of the document.
///
/// `bump` keeps what is read on the way. Of bodies each level takes memory in proportion to the
/// document. A name is looked up in the form's sets. Two kinds are found by a walk over the form's
/// list: a name that is given twice, and the implementation of a pair.
pub fn faulty<'t, 'b>(
    alloc: Global,
    bump: &'t Bump,
    document: &Tree<'t, 'b>,
    form: &Form<'t>,
    names: &FormNames<'t>,
    fault: DocumentFault,
) -> Result<Vec<Place<'t, 'b>>, AllocError>
    requires names { AreNamesOf names.now (form_view form.now) }
    ensures sound { IfOk result (λ ps. All (HasFaultAt (form_view form.now) fault
        (whole (view document.now)) (view document.now)) ps.items) }
    ensures all { IfOk result (λ ps. AllAreTold (form_view form.now) fault
        (view document.now) ps.items) }
{
    let given = names_given(alloc, form, fault)?;
    let wanted = Wanted::One(Part::Document(edition(document)));
    let judge = Judge {
        alloc,
        bump,
        form,
        names,
        given: &given,
        fault,
    };
    let walk = Walk {
        judge,
        document: *document,
        wanted,
    };
    let mut path = Vec::new(alloc);
    let mut told = Vec::new(alloc);
    walk_value(document, wanted, &walk, &mut path, &mut told)?;
    Ok(told)
}

/// Judges a value, and then its parts.
#[cycle(walk)]
fn walk_value<'t, 'b>(
    value: &Tree<'t, 'b>,
    wanted: Wanted,
    walk: &Walk<'_, 't, 'b>,
    path: &mut Vec<Step>,
    told: &mut Vec<Place<'t, 'b>>,
) -> Result<(), AllocError>
    requires here { IsOnWay walk.now path.old.items wanted (view value.now) }
    requires sound { AreFaulty walk.now told.old.items }
    ensures sound { OnOk result (AreFaulty walk.now told.new.items) }
    ensures path { OnOk result (path.new.items ≡ path.old.items) }
    ensures kept { OnOk result (StayTold told.old.items told.new.items) }
    ensures all { OnOk result
        (AllBelowAreTold walk.now path.old.items wanted (view value.now) told.new.items) }
{
    judge_value(value, wanted, walk, path, told)?;
    walk_parts(value, wanted, walk, path, told)
}

/// Lists the place, if its value has the fault.
fn judge_value<'t, 'b>(
    value: &Tree<'t, 'b>,
    wanted: Wanted,
    walk: &Walk<'_, 't, 'b>,
    path: &Vec<Step>,
    told: &mut Vec<Place<'t, 'b>>,
) -> Result<(), AllocError>
    requires here { IsOnWay walk.now path.now.items wanted (view value.now) }
    requires sound { AreFaulty walk.now told.old.items }
    ensures sound { OnOk result (AreFaulty walk.now told.new.items) }
    ensures kept { OnOk result (StayTold told.old.items told.new.items) }
    ensures told { OnOk result (has_fault (form_view walk.now.judge.form.now) walk.now.judge.fault
        wanted (view value.now) ≡ true → IsTold told.new.items path.now.items) }
{
    if walk.judge.has_fault(wanted, value)? {
        let path = copy_of(path)?;
        told.push(Place {
            path,
            wanted,
            found: *value,
        })?;
    }
    Ok(())
}

fn copy_of(path: &Vec<Step>) -> Result<Vec<Step>, AllocError>
    ensures { IfOk result (λ copy. copy.items ≡ path.now.items) }
{
    Ok(path.clone()?)
}

#[cycle(walk)]
fn walk_parts<'t, 'b>(
    value: &Tree<'t, 'b>,
    wanted: Wanted,
    walk: &Walk<'_, 't, 'b>,
    path: &mut Vec<Step>,
    told: &mut Vec<Place<'t, 'b>>,
) -> Result<(), AllocError>
    requires here { IsOnWay walk.now path.old.items wanted (view value.now) }
    requires sound { AreFaulty walk.now told.old.items }
    ensures sound { OnOk result (AreFaulty walk.now told.new.items) }
    ensures path { OnOk result (path.new.items ≡ path.old.items) }
    ensures kept { OnOk result (StayTold told.old.items told.new.items) }
    ensures parts { OnOk result
        (PartsAreTold walk.now path.old.items wanted (view value.now) told.new.items) }
{
    match value {
        Tree::Array(values) => walk_values(values, wanted, walk, path, told),
        Tree::Object(members) => walk_members(members, wanted, walk, path, told),
        _ => Ok(()),
    }
}

#[cycle(walk)]
fn walk_values<'t, 'b>(
    values: &[Tree<'t, 'b>],
    wanted: Wanted,
    walk: &Walk<'_, 't, 'b>,
    path: &mut Vec<Step>,
    told: &mut Vec<Place<'t, 'b>>,
) -> Result<(), AllocError>
    requires here { IsOnWay walk.now path.old.items wanted (array (items_view values.now)) }
    requires sound { AreFaulty walk.now told.old.items }
    ensures sound { OnOk result (AreFaulty walk.now told.new.items) }
    ensures path { OnOk result (path.new.items ≡ path.old.items) }
    ensures kept { OnOk result (StayTold told.old.items told.new.items) }
    ensures parts { OnOk result (PlacesAreTold walk.now path.old.items wanted
        (map view values.now) (length values.now) told.new.items) }
{
    let word = word_of(values);
    for place in 0..values.len() {
        if let Some(part) = at_place(wanted, word, place) {
            walk_part(&values[place], part, Step::Place(place), walk, path, told)?;
        }
    }
    Ok(())
}

#[cycle(walk)]
fn walk_members<'t, 'b>(
    members: &[(&'t str, Tree<'t, 'b>)],
    wanted: Wanted,
    walk: &Walk<'_, 't, 'b>,
    path: &mut Vec<Step>,
    told: &mut Vec<Place<'t, 'b>>,
) -> Result<(), AllocError>
    requires here { IsOnWay walk.now path.old.items wanted (object (members_view members.now)) }
    requires sound { AreFaulty walk.now told.old.items }
    ensures sound { OnOk result (AreFaulty walk.now told.new.items) }
    ensures path { OnOk result (path.new.items ≡ path.old.items) }
    ensures kept { OnOk result (StayTold told.old.items told.new.items) }
    ensures parts { OnOk result (KeysAreTold walk.now path.old.items wanted
        (object (members_view members.now)) (length (tables.keys wanted)) told.new.items) }
{
    let keys = keys(wanted);
    for place in 0..keys.len() {
        let (name, part) = keys[place];
        if let Some(index) = last(members, name) {
            walk_part(&members[index].1, part, Step::Key(name), walk, path, told)?;
        }
    }
    Ok(())
}

/// Goes a step down.
#[cycle(walk)]
fn walk_part<'t, 'b>(
    value: &Tree<'t, 'b>,
    wanted: Wanted,
    step: Step,
    walk: &Walk<'_, 't, 'b>,
    path: &mut Vec<Step>,
    told: &mut Vec<Place<'t, 'b>>,
) -> Result<(), AllocError>
    requires here { IsOnWay walk.now (path.old.items ++ step ∷ []) wanted (view value.now) }
    requires sound { AreFaulty walk.now told.old.items }
    ensures sound { OnOk result (AreFaulty walk.now told.new.items) }
    ensures path { OnOk result (path.new.items ≡ path.old.items) }
    ensures kept { OnOk result (StayTold told.old.items told.new.items) }
    ensures all { OnOk result (AllBelowAreTold walk.now (path.old.items ++ step ∷ []) wanted
        (view value.now) told.new.items) }
{
    path.push(step)?;
    walk_value(value, wanted, walk, path, told)?;
    path.pop();
    Ok(())
}
