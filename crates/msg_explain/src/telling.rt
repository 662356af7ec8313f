//! The lines of places.

ghost use Rattle.std.specs.Prelude.{◌≡◌, ◌++◌, OnOk};
ghost use Rattle.msg_io.specs.Writing.{Gains};
ghost use Rattle.msg_explain.specs.Telling as spec;

use crate::part::{Edition, Naming, Part, Wanted};
use crate::place::{Place, Step};
use crate::search::word_of;
use crate::tables::keys;
use msg_form::DocumentFault;
use msg_io::push_digits;
use msg_json::{Tree, get};
use std::alloc::AllocError;

// The number of bytes of a text that are shown.
const SHOWN_BYTES: usize = 64;

fn push(text: &mut Vec<u8>, words: &str) -> Result<(), AllocError>
    ensures { OnOk result (Gains text.old text.new words.now) }
{
    text.extend_from_slice(words.as_bytes())
}

fn push_step(text: &mut Vec<u8>, step: Step) -> Result<(), AllocError>
    ensures { OnOk result (Gains text.old text.new (spec.step_text step)) }
{
    match step {
        Step::Key(name) => {
            push(text, ".")?;
            push(text, name)
        }
        Step::Place(place) => {
            push(text, "[")?;
            push_digits(text, place)?;
            push(text, "]")
        }
    }
}

fn push_steps(text: &mut Vec<u8>, steps: &[Step]) -> Result<(), AllocError>
    ensures { OnOk result (Gains text.old text.new (spec.steps_text steps.now)) }
{
    for step in steps {
        push_step(text, *step)?;
    }
    Ok(())
}

/// Appends a path, as `items[3].send[1]`.
pub fn push_path(text: &mut Vec<u8>, path: &[Step]) -> Result<(), AllocError>
    ensures { OnOk result (Gains text.old text.new (spec.path_text path.now)) }
{
    if path.is_empty() {
        return push(text, "the document");
    }
    match path[0] {
        Step::Key(name) => {
            push(text, name)?;
            push_steps(text, &path[1..])
        }
        Step::Place(_) => push_steps(text, path),
    }
}

/// Appends what is expected at a place that has the fault, and what was found.
pub(crate) fn push_reason(
    text: &mut Vec<u8>,
    place: &Place<'_, '_>,
    fault: DocumentFault,
) -> Result<(), AllocError> {
    push(text, "wanted ")?;
    push(
        text,
        match fault {
            DocumentFault::Shape => wanted_text(place.wanted),
            DocumentFault::Limit => limit_text(place.wanted),
            _ => rule_text(fault, place.wanted),
        },
    )?;
    push(text, "; found ")?;
    push_found(text, &place.found)?;
    match (fault, place.found) {
        (DocumentFault::Shape, Tree::Object(members)) => {
            push_lacking(text, place)?;
            push_others(text, place.wanted, members)
        }
        (_, Tree::Object(_)) => push_name(text, &place.found),
        _ => Ok(()),
    }
}

/// Appends the name of an object that has one.
fn push_name(text: &mut Vec<u8>, found: &Tree<'_, '_>) -> Result<(), AllocError> {
    match get(found, "name") {
        Some(Tree::Text(name)) => {
            push(text, " of the name ")?;
            push_quoted(text, *name)
        }
        _ => Ok(()),
    }
}

/// The text of a limit.
fn limit_text(wanted: Wanted) -> &'static str {
    match wanted {
        Wanted::Many(Part::Class) => "no more than 1024 classes, listed and made",
        Wanted::Many(Part::Category) => "no more than 1024 categories",
        Wanted::Many(Part::Object) => "no more than 4096 objects",
        Wanted::Many(Part::Imp) => "no more than 4096 implementations",
        Wanted::Many(_) => "no more than 65536 items",
        Wanted::One(_) =>
            "no more than 16384 entries in method lists, and 4096 different selectors",
    }
}

/// The text of what a fault forbids.
fn rule_text(fault: DocumentFault, wanted: Wanted) -> &'static str {
    match fault {
        DocumentFault::Version => "version 1, 2 or 3",
        DocumentFault::DuplicateClass => "a name that no other class has",
        DocumentFault::UnknownSuperclass if wanted == Wanted::One(Part::Imp) => {
            "no super send in a method of a root class"
        }
        DocumentFault::UnknownSuperclass => {
            "a superclass that is listed, and in version 1 before the class"
        }
        DocumentFault::UnknownClass if wanted == Wanted::One(Part::Name(Naming::Listed)) => {
            "the name of a listed class"
        }
        DocumentFault::UnknownClass => "the name of a class",
        DocumentFault::DuplicateObject => "a name that no other object has",
        DocumentFault::UnknownObject => "the name of an object",
        DocumentFault::DuplicateImp => "a name that no other implementation has",
        DocumentFault::UnknownImp => "the name of an implementation",
        DocumentFault::BadSelector => "a selector",
        DocumentFault::DuplicateSelector => "no selector twice in a list",
        DocumentFault::ArgumentCount => "an argument for each colon of the selector",
        DocumentFault::ArgumentIndex => "a body that reads arguments below args",
        DocumentFault::BodyTooDeep =>
            "a body no more than 32 deep, of no more than 256 expressions",
        _ => "a class that doesn't stand above itself",
    }
}

/// The text of what is expected, in the letters of the format's page.
fn wanted_text(wanted: Wanted) -> &'static str {
    match wanted {
        Wanted::Many(_) => "a list",
        Wanted::One(part) => match part {
            Part::Document(Edition::First) => {
                r#"{"version":..,"classes":[..],"categories":[..],"objects":[..],"imps":[..],"items":[..]}"#
            }
            Part::Document(_) => {
                r#"{"version":..,"classes":[..],"made":[..],"categories":[..],"objects":[..],"imps":[..],"items":[..]}"#
            }
            Part::Version => "a whole number",
            Part::Class => r#"a class {"name":N,"super":N or null,"methods":L,"class_methods":L}"#,
            Part::Category => r#"a category {"class":N,"methods":L,"class_methods":L}"#,
            Part::Object => r#"an object {"name":N,"class":N}"#,
            Part::Imp => {
                r#"an implementation {"name":N,"class":N,"meta":true or false,"args":0 to 4,"body":E}"#
            }
            Part::Item(_) => r#"an item {"send":[C,S,C,..]} or {"change":X}"#,
            Part::Name(_) => "a name, of 1 to 64 letters, digits and _, no digit first",
            Part::Superclass | Part::MadeUnder => "a name or null",
            Part::Pair | Part::Attached =>
                "a pair [S,N]: a selector, the name of an implementation",
            Part::Truth => "true or false",
            Part::Args => "a whole number from 0 to 4",
            Part::Body => "an expression E",
            Part::Send => "[C,S,C,..]: a receiver, a selector, arguments",
            Part::Changes(Edition::First) => "a change X of version 1",
            Part::Changes(Edition::Second) => "a change X of version 2",
            Part::Changes(Edition::Third) | Part::Change => "a change X",
            Part::Constant => {
                r#"a constant: a whole number, null, ["obj",N], ["class",N] or ["sel",S]"#
            }
            Part::Selector => "a text",
            Part::Index => "a whole number from 0",
        },
    }
}

fn push_found(text: &mut Vec<u8>, found: &Tree<'_, '_>) -> Result<(), AllocError> {
    match found {
        Tree::Null => push(text, "null"),
        Tree::Bool(true) => push(text, "true"),
        Tree::Bool(false) => push(text, "false"),
        Tree::Number(_) => push(text, "a number"),
        Tree::Text(words) => push_quoted(text, *words),
        Tree::Array(values) => push_list(text, values),
        Tree::Object(_) => push(text, "an object"),
    }
}

fn push_list(text: &mut Vec<u8>, values: &[Tree<'_, '_>]) -> Result<(), AllocError> {
    push(text, "a list of ")?;
    push_digits(text, values.len())?;
    let word = word_of(values);
    if !word.is_empty() {
        push(text, " that begins with ")?;
        push_quoted(text, word)?;
    }
    Ok(())
}

/// Appends the start of a text, in quotes. A byte that isn't printable ASCII is shown as `?`.
fn push_quoted(text: &mut Vec<u8>, words: &str) -> Result<(), AllocError> {
    push(text, "\"")?;
    for byte in words.as_bytes().iter().take(SHOWN_BYTES) {
        text.push(if (b' '..=b'~').contains(byte) {
            *byte
        } else {
            b'?'
        })?;
    }
    push(
        text,
        if words.len() > SHOWN_BYTES {
            "..\""
        } else {
            "\""
        },
    )
}

/// Appends the keys that an object lacks.
fn push_lacking(text: &mut Vec<u8>, place: &Place<'_, '_>) -> Result<(), AllocError> {
    let mut before = "; lacks: ";
    for (name, _) in keys(place.wanted) {
        if get(&place.found, *name).is_none() {
            push(text, before)?;
            push(text, *name)?;
            before = ", ";
        }
    }
    Ok(())
}

/// Appends the keys that an object should not have.
fn push_others(
    text: &mut Vec<u8>,
    wanted: Wanted,
    members: &[(&str, Tree<'_, '_>)],
) -> Result<(), AllocError> {
    let mut before = "; too many: ";
    for (name, _) in members {
        if !keys(wanted).iter().any(|key| key.0 == *name) {
            push(text, before)?;
            push_quoted(text, *name)?;
            before = ", ";
        }
    }
    Ok(())
}
