//! The lines of answers.
//!
//! Each part is appended in place: a line takes no memory apart from the text's own growth, which
//! doubles.

ghost use Rattle.std.specs.Prelude.{◌≡◌, OnOk};
ghost use Rattle.msg_answers.specs.Text as spec;
ghost use Rattle.msg_answers.specs.Text.{line_of, outcome_text};
ghost use Rattle.msg_io.specs.Writing.{Gains};

use crate::outcome::Outcome;
use msg_eval::{Reply, SendFault};
use msg_image::Image;
use msg_io::{push_decimal, push_digits};
use msg_names::{ClassRef, ObjectRef, Selector, Value};
use msg_tables::{ChangeFault, Refused};
use std::alloc::AllocError;

const NEWLINE: u8 = b'\n';

fn push(text: &mut Vec<u8>, part: &str) -> Result<(), AllocError>
    ensures { OnOk result (Gains text.old text.new part.now) }
{
    text.extend_from_slice(part.as_bytes())
}

/// The name of a class.
pub fn class_name(image: &Image, class: u32) -> &str
    ensures { result.now ≡ spec.class_name image.now class }
{
    if class < image.class_count() {
        image.class_name(class)
    } else {
        ""
    }
}

fn object_name(image: &Image, object: ObjectRef) -> &str
    ensures { result.now ≡ spec.object_name image.now object.object }
{
    if object.object < image.object_count() {
        image.object_name(object)
    } else {
        ""
    }
}

fn selector_name(image: &Image, sel: Selector) -> &str
    ensures { result.now ≡ spec.selector_name image.now sel }
{
    image.names().text(sel).unwrap_or("")
}

fn push_value(text: &mut Vec<u8>, image: &Image, value: Value) -> Result<(), AllocError>
    ensures { OnOk result (Gains text.old text.new (spec.value_text image.now value)) }
{
    match value {
        Value::Number(number) => push_decimal(text, number),
        Value::Object(object) => {
            push(text, "object ")?;
            push(text, object_name(image, object))
        }
        Value::Class(class) => {
            push(text, "class ")?;
            push(text, class_name(image, class))
        }
        Value::Sel(sel) => {
            push(text, "selector ")?;
            push(text, selector_name(image, sel))
        }
        Value::Nil => push(text, "nil"),
    }
}

/// Appends a method, as `-[Class selector]`.
pub fn push_method(
    text: &mut Vec<u8>,
    image: &Image,
    class: ClassRef,
    sel: Selector,
) -> Result<(), AllocError>
    ensures { OnOk result (Gains text.old text.new (spec.method_text image.now class sel)) }
{
    push(text, if class.meta { "+[" } else { "-[" })?;
    push(text, class_name(image, class.class))?;
    push(text, " ")?;
    push(text, selector_name(image, sel))?;
    push(text, "]")
}

fn push_fault(text: &mut Vec<u8>, image: &Image, fault: SendFault) -> Result<(), AllocError>
    ensures { OnOk result (Gains text.old text.new (spec.fault_text image.now fault)) }
{
    match fault {
        SendFault::Unrecognized { class, sel } => {
            push(text, "fault: unrecognized ")?;
            push_method(text, image, class, sel)
        }
        SendFault::NotAnObject => push(text, "fault: not an object"),
        SendFault::NotANumber => push(text, "fault: not a number"),
        SendFault::Overflow => push(text, "fault: overflow"),
        SendFault::TargetNotAnObject => push(text, "fault: target not an object"),
        SendFault::Budget => push(text, "fault: budget"),
        SendFault::Depth => push(text, "fault: depth"),
    }
}

/// Appends the line of a reply.
pub fn push_reply(text: &mut Vec<u8>, image: &Image, reply: Reply) -> Result<(), AllocError>
    ensures { OnOk result (Gains text.old text.new (line_of (spec.reply_text image.now reply))) }
{
    match reply {
        Reply::Value(value) => push_value(text, image, value)?,
        Reply::Fault(fault) => push_fault(text, image, fault)?,
    }
    text.push(NEWLINE)?;
    Ok(())
}

fn refusal_text(fault: ChangeFault) -> &'static str
    ensures { result.now ≡ spec.refusal_text fault }
{
    match fault {
        ChangeFault::NoClass => "no class",
        ChangeFault::NoImp => "no implementation",
        ChangeFault::ArgumentCount => "argument count",
        ChangeFault::MethodPresent => "method present",
        ChangeFault::NoMethod => "no method",
        ChangeFault::Limit => "limit",
        ChangeFault::Memory => "out of memory",
        ChangeFault::DuplicateClass => "duplicate class",
        ChangeFault::ClassInUse => "class in use",
    }
}

fn push_refused(text: &mut Vec<u8>, fault: ChangeFault) -> Result<(), AllocError>
    ensures { OnOk result (Gains text.old text.new (outcome_text (Outcome.Refused fault))) }
{
    push(text, "refused: ")?;
    push(text, refusal_text(fault))
}

fn push_refused_at(text: &mut Vec<u8>, refused: Refused) -> Result<(), AllocError>
    ensures { OnOk result (Gains text.old text.new (outcome_text (Outcome.RefusedAt refused))) }
{
    push(text, "refused at ")?;
    push_digits(text, refused.place)?;
    push(text, ": ")?;
    push(text, refusal_text(refused.fault))
}

/// Appends the line of the outcome of changes.
pub fn push_outcome(text: &mut Vec<u8>, outcome: Outcome) -> Result<(), AllocError>
    ensures { OnOk result (Gains text.old text.new (line_of (outcome_text outcome))) }
{
    match outcome {
        Outcome::Made => push(text, "ok")?,
        Outcome::Refused(fault) => push_refused(text, fault)?,
        Outcome::RefusedAt(refused) => push_refused_at(text, refused)?,
    }
    text.push(NEWLINE)?;
    Ok(())
}
