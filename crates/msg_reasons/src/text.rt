//! The lines of lookups.

ghost use Rattle.std.specs.Prelude.{◌≡◌, OnOk};
ghost use Rattle.std.specs.List.{flat_map};
ghost use Rattle.msg_io.specs.Writing.{Gains};
ghost use Rattle.msg_names.specs.Number.{selector_number, imp_number};
ghost use Rattle.msg_rows.specs.Methods.{method_numbers};
ghost use Rattle.msg_reasons.specs.Categories as chosen;
ghost use Rattle.msg_reasons.specs.Lines.{AreLines};
ghost use Rattle.msg_reasons.specs.Looked.{all_looked, looked};
ghost use Rattle.msg_reasons.specs.Moving.{all_seen, seen_of};
ghost use Rattle.msg_reasons.specs.Text as spec;

use crate::lines::{Line, push_line};
use crate::moving::Seen;
use crate::notes::Lookup;
use crate::slots::Slots;
use msg_answers::{class_name, push_method};
use msg_image::{Category, Image};
use msg_io::push_digits;
use msg_names::{ClassRef, ImpRef, Selector};
use std::alloc::AllocError;

const NEWLINE: u8 = b'\n';

fn push(text: &mut Vec<u8>, part: &str) -> Result<(), AllocError>
    ensures { OnOk result (Gains text.old text.new part.now) }
{
    text.extend_from_slice(part.as_bytes())
}

// Whether a method list has this implementation of the selector.
fn has_method(methods: &[(Selector, ImpRef)], sel: Selector, imp: ImpRef) -> bool
    ensures { result
        ≡ chosen.has_method (selector_number sel) (imp_number imp) (method_numbers methods.now) }
{
    for method in methods {
        if method.0.number() == sel.number() && method.1.number() == imp.number() {
            return true;
        }
    }
    false
}

// Whether a category gives a class reference this implementation of the selector.
fn gives(category: &Category, class: ClassRef, sel: Selector, imp: ImpRef) -> bool
    ensures { result ≡ chosen.gives class (selector_number sel) (imp_number imp) category.now }
{
    if category.class != class.class {
        return false;
    }
    if class.meta {
        has_method(category.class_methods.as_slice(), sel, imp)
    } else {
        has_method(category.methods.as_slice(), sel, imp)
    }
}

fn last_that_gives(
    categories: &[Category],
    class: ClassRef,
    sel: Selector,
    imp: ImpRef,
) -> Option<usize>
    ensures { result
        ≡ chosen.category_of categories.now class (selector_number sel) (imp_number imp) }
{
    let mut found = None;
    for (place, category) in categories.iter().enumerate() {
        if gives(category, class, sel, imp) {
            found = Some(place);
        }
    }
    found
}

/// The place of the document's category that has the method at a class reference. Of two categories
/// that list it the later one counts.
pub fn category_of(image: &Image, class: ClassRef, sel: Selector, imp: ImpRef) -> Option<usize>
    ensures { result
        ≡ chosen.category_of image.now.categories class (selector_number sel) (imp_number imp) }
{
    last_that_gives(image.categories(), class, sel, imp)
}

fn push_place_of_category(text: &mut Vec<u8>, place: usize) -> Result<(), AllocError>
    ensures { OnOk result (Gains text.old text.new (spec.place_of_category place)) }
{
    push(text, "categories[")?;
    push_digits(text, place)?;
    text.push(b']')?;
    Ok(())
}

fn push_category(text: &mut Vec<u8>, category: Option<usize>) -> Result<(), AllocError>
    ensures { OnOk result (Gains text.old text.new (spec.category_text category)) }
{
    match category {
        Some(place) => {
            push(text, " of ")?;
            push_place_of_category(text, place)
        }
        None => Ok(()),
    }
}

fn push_place(text: &mut Vec<u8>, image: &Image, class: ClassRef) -> Result<(), AllocError>
    ensures { OnOk result (Gains text.old text.new (spec.place_text image.now class)) }
{
    push(
        text,
        if class.meta {
            " found in metaclass "
        } else {
            " found in "
        },
    )?;
    push(text, class_name(image, class.class))
}

fn push_listed(
    text: &mut Vec<u8>,
    image: &Image,
    lookup: &Lookup,
    class: ClassRef,
) -> Result<(), AllocError>
    ensures { OnOk result
        (Gains text.old text.new (spec.listed_text image.now (looked lookup.now) class)) }
{
    push(text, ": imps[")?;
    push_digits(text, (lookup.imp.number() as usize).saturating_sub(1))?;
    push(text, "]")?;
    push_category(text, category_of(image, class, lookup.sel, lookup.imp))
}

fn push_found(text: &mut Vec<u8>, image: &Image, lookup: &Lookup) -> Result<(), AllocError>
    ensures { OnOk result
        (Gains text.old text.new (spec.found_text image.now (looked lookup.now) lookup.now.holder)) }
{
    match lookup.holder {
        Some(class) => {
            push_place(text, image, class)?;
            push_listed(text, image, lookup, class)
        }
        None => push(text, " not found"),
    }
}

fn push_lookup_text(text: &mut Vec<u8>, image: &Image, lookup: &Lookup) -> Result<(), AllocError>
    ensures { OnOk result
        (Gains text.old text.new (spec.lookup_text image.now (looked lookup.now))) }
{
    push(text, "  ")?;
    push_method(text, image, lookup.class, lookup.sel)?;
    push_found(text, image, lookup)
}

/// Appends the line of a lookup.
pub fn push_lookup(text: &mut Vec<u8>, image: &Image, lookup: &Lookup) -> Result<(), AllocError>
    ensures { OnOk result
        (Gains text.old text.new (spec.lookup_line image.now (looked lookup.now))) }
{
    push_lookup_text(text, image, lookup)?;
    text.push(NEWLINE)?;
    Ok(())
}

// Appends a line for each lookup.
fn push_lines(
    text: &mut Vec<u8>,
    image: &Image,
    lookups: &[Lookup],
    lines: &mut Slots<Line>,
) -> Result<(), AllocError>
    requires { AreLines image.now lines.old }
    ensures kept { AreLines image.now lines.new }
    ensures lines { OnOk result
        (Gains text.old text.new (flat_map (spec.lookup_line image.now) (all_looked lookups.now))) }
{
    for lookup in lookups {
        push_line(text, image, lookup, lines)?;
    }
    Ok(())
}

// Appends some words, and a number.
fn push_number(text: &mut Vec<u8>, words: &str, number: usize) -> Result<(), AllocError>
    ensures { OnOk result (Gains text.old text.new (spec.number_text words.now number)) }
{
    push(text, words)?;
    push_digits(text, number)
}

fn push_count(text: &mut Vec<u8>, count: usize, changes: usize) -> Result<(), AllocError>
    ensures { OnOk result (Gains text.old text.new (spec.count_line count changes)) }
{
    push_number(text, "  lookups: ", count)?;
    push_number(text, ", changes before: ", changes)?;
    text.push(NEWLINE)?;
    Ok(())
}

// Appends the lines of a send's lookups, and their number, after a number of changes.
#[tactic(auto, using(crate::proofs::NotedLemmas::count_looked))]
pub(crate) fn push_lookups(
    text: &mut Vec<u8>,
    image: &Image,
    lookups: &[Lookup],
    changes: usize,
    lines: &mut Slots<Line>,
) -> Result<(), AllocError>
    requires { AreLines image.now lines.old }
    ensures kept { AreLines image.now lines.new }
    ensures lookups { OnOk result
        (Gains text.old text.new (spec.lookups_text image.now (all_looked lookups.now) changes)) }
{
    push_lines(text, image, lookups, lines)?;
    push_count(text, lookups.len(), changes)?;
    Ok(())
}

// Appends the line of a lookup in a run beside changes.
fn push_seen_line(text: &mut Vec<u8>, image: &Image, seen: &Seen) -> Result<(), AllocError>
    ensures { OnOk result (Gains text.old text.new (spec.seen_line image.now (seen_of seen.now))) }
{
    push_lookup_text(text, image, &seen.lookup)?;
    push_number(text, ", changes before: ", seen.changes as usize)?;
    text.push(NEWLINE)?;
    Ok(())
}

// Appends a line for each lookup.
fn push_seen_lines(text: &mut Vec<u8>, image: &Image, seen: &[Seen]) -> Result<(), AllocError>
    ensures { OnOk result
        (Gains text.old text.new (flat_map (spec.seen_line image.now) (all_seen seen.now))) }
{
    for one in seen {
        push_seen_line(text, image, one)?;
    }
    Ok(())
}

// Appends the lines of a send's lookups, and their number.
pub(crate) fn push_seen(text: &mut Vec<u8>, image: &Image, seen: &[Seen]) -> Result<(), AllocError>
    ensures { OnOk result (Gains text.old text.new (spec.seen_text image.now (all_seen seen.now))) }
{
    push_seen_lines(text, image, seen)?;
    push_number(text, "  lookups: ", seen.len())?;
    text.push(NEWLINE)?;
    Ok(())
}
