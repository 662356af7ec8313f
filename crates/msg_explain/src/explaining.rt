//! Explains a document: where its fault is, or why it has its answers.

ghost use Rattle.std.specs.Prelude.{◌≡◌, ◌≢◌, ◌≤◌, ◌⊎◌, ℕ, List, false, length, Err, IfSome};
ghost use Rattle.msg_io.specs.Reading.{IsSoundDocument};
ghost use Rattle.msg_io.specs.Writing.{Writes};
ghost use Rattle.msg_form.specs.declared.faults.DocumentFault.{DocumentFault};
ghost use Rattle.msg_form.specs.declared.faults.DocumentFault.TheVariants as documents;
ghost use Rattle.msg_image.specs.Answer.{IsAnswer};
ghost use Rattle.msg_image.specs.DocumentParts.{document_parts};
ghost use Rattle.msg_reasons.specs.Text.{beside_text, explanation_text};
ghost use Rattle.msg_io.specs.declared.complaint.Program.TheVariants as Program;
ghost use Rattle.msg_explain.specs.Explaining.{SaysFault, TellsReasons, TellsReasonsBeside};

use crate::place::Place;
use crate::position::{Position, end_of_json, position_of};
use crate::search::misplaced;
use crate::telling::{push_path, push_reason};
use crate::walk::faulty;
use msg_form::{DocumentFault, Form, FormNames};
use msg_image::{Document, MAX_ITEMS, MOST_BYTES, read_document};
use msg_io::{Program, RunFault, Sink, Source, complain, push_digits, read_whole, write_whole};
use msg_json::{Bump, Scratch, Tree, read};
use msg_reasons::{explain_beside as document_beside, explain_document};
use msg_runner::versions_beside;
use std::alloc::{AllocError, Global};
use std::str;
use std::sync::Wait;
use std::thread::Threads;

// The most places that are listed.
const MOST_PLACES: usize = 100;

/// Explains a document. If it is refused, it writes why, as a run of it does, and then where: a
/// line for each place. If it is answered, it writes the answers, and under each the lookups behind
/// it.
///
/// Returns the exit status: 0 for a document that is answered, 2 for one that is refused.
pub fn explain<R: Source, W: Sink, E: Sink>(
    alloc: Global,
    source: &mut R,
    sink: &mut W,
    errors: &mut E,
) -> u8
    requires { R.mark source.old ≡ false }
    ensures status { (result ≡ 0) ⊎ ((result ≡ 1) ⊎ (result ≡ 2)) }
    ensures answered { result ≡ 0 → IfSome (R.remaining source.old)
        (TellsReasons W.contents sink.old sink.new) }
{
    let bytes = match read_whole(alloc, source) {
        Ok(bytes) => bytes,
        Err(fault) => return complain(errors, Program::Msgrun, Some(&RunFault::from(fault))),
    };
    explain_bytes(alloc, &bytes, sink, errors)
}

/// Does the same as [`explain`] for a run that makes the changes while the sends are answered.
/// Under each answer it also writes the version at which each lookup was answered.
pub fn explain_beside<R: Source, W: Sink, E: Sink, T: Threads + Wait + Sync>(
    rt: &T,
    alloc: Global,
    source: &mut R,
    sink: &mut W,
    errors: &mut E,
) -> u8
    requires { R.mark source.old ≡ false }
    ensures status { (result ≡ 0) ⊎ ((result ≡ 1) ⊎ (result ≡ 2)) }
    ensures answered { result ≡ 0 → IfSome (R.remaining source.old)
        (TellsReasonsBeside W.contents sink.old sink.new) }
{
    let bytes = match read_whole(alloc, source) {
        Ok(bytes) => bytes,
        Err(fault) => return complain(errors, Program::Msgbeside, Some(&RunFault::from(fault))),
    };
    match read_document(alloc, &bytes) {
        Ok(document) => tell_reasons_beside(rt, alloc, document, sink, errors),
        Err(fault) => refuse(alloc, &bytes, fault, Program::Msgbeside, sink, errors),
    }
}

fn explain_bytes<W: Sink, E: Sink>(alloc: Global, bytes: &[u8], sink: &mut W, errors: &mut E) -> u8
    ensures status { (result ≡ 0) ⊎ ((result ≡ 1) ⊎ (result ≡ 2)) }
    ensures answered { result ≡ 0 → TellsReasons W.contents sink.old sink.new bytes.now }
    ensures refused { result ≡ 2 → (f : DocumentFault) × IsAnswer bytes.now (Err f)
        × SaysFault Program.Msgrun E.contents errors.old errors.new f }
{
    match read_document(alloc, bytes) {
        Ok(document) => tell_reasons(alloc, document, sink, errors),
        Err(fault) => refuse(alloc, bytes, fault, Program::Msgrun, sink, errors),
    }
}

/// Writes the answers, and the lookups behind them.
fn tell_reasons<W: Sink, E: Sink>(
    alloc: Global,
    document: Document,
    sink: &mut W,
    errors: &mut E,
) -> u8
    requires { IsSoundDocument (document_parts document) }
    ensures status { (result ≡ 0) ⊎ (result ≡ 1) }
    ensures told { result ≡ 0
        → Writes W.contents sink.old sink.new (explanation_text (document_parts document)) }
{
    match explain_document(alloc, &document) {
        Ok(text) => say(Program::Msgrun, sink, errors, &text, 0),
        Err(AllocError) => complain(errors, Program::Msgrun, Some(&RunFault::Memory)),
    }
}

/// Writes the answers of a run beside changes, and the lookups behind them.
fn tell_reasons_beside<W: Sink, E: Sink, T: Threads + Wait + Sync>(
    rt: &T,
    alloc: Global,
    document: Document,
    sink: &mut W,
    errors: &mut E,
) -> u8
    requires sound { IsSoundDocument (document_parts document) }
    requires few { length document.items.items ≤ MAX_ITEMS }
    ensures status { (result ≡ 0) ⊎ (result ≡ 1) }
    ensures told { result ≡ 0 → (versions : List ℕ)
        × Writes W.contents sink.old sink.new (beside_text (document_parts document) versions) }
{
    let explained = versions_beside(rt, alloc, &document);
    let text = match explained {
        Ok(versions) => document_beside(alloc, &document, &versions),
        Err(AllocError) => Err(AllocError),
    };
    match text {
        Ok(text) => say(Program::Msgbeside, sink, errors, &text, 0),
        Err(AllocError) => complain(errors, Program::Msgbeside, Some(&RunFault::Memory)),
    }
}

/// Writes the fault, and where it is.
fn refuse<W: Sink, E: Sink>(
    alloc: Global,
    bytes: &[u8],
    fault: DocumentFault,
    program: Program,
    sink: &mut W,
    errors: &mut E,
) -> u8
    ensures status { (result ≡ 1) ⊎ (result ≡ 2) }
    ensures said { result ≡ 2 → (fault ≢ documents.Memory)
        × SaysFault program E.contents errors.old errors.new fault }
{
    let status = complain(errors, program, Some(&RunFault::from(fault)));
    match places_text(alloc, bytes, fault) {
        Ok(text) => say(program, sink, errors, &text, status),
        Err(AllocError) => complain(errors, program, Some(&RunFault::Memory)),
    }
}

/// Writes a text, and returns the status if it is written.
fn say<W: Sink, E: Sink>(
    program: Program,
    sink: &mut W,
    errors: &mut E,
    text: &[u8],
    status: u8,
) -> u8
    ensures status { (result ≡ status) ⊎ (result ≡ 1) }
    ensures same { result ≢ 1 → errors.new ≡ errors.old }
    ensures said { result ≢ 1 → Writes W.contents sink.old sink.new text.now }
{
    match write_whole(sink, text) {
        Ok(()) => status,
        Err(_) => complain(errors, program, Some(&RunFault::Write)),
    }
}

/// Lists where the text stops being JSON, or the places that have the fault, a line for each.
fn places_text(alloc: Global, bytes: &[u8], fault: DocumentFault) -> Result<Vec<u8>, AllocError> {
    let mut text = Vec::new(alloc);
    match fault {
        DocumentFault::NotJson => push_end_of_json(alloc, &mut text, bytes)?,
        DocumentFault::Limit if bytes.len() > MOST_BYTES => push_most_bytes(&mut text)?,
        _ => push_places(alloc, &mut text, bytes, fault)?,
    }
    Ok(text)
}

fn push_most_bytes(text: &mut Vec<u8>) -> Result<(), AllocError> {
    text.extend_from_slice(b"the document: wanted no more than ")?;
    push_digits(text, MOST_BYTES)?;
    text.extend_from_slice(b" bytes\n")
}

fn push_end_of_json(alloc: Global, text: &mut Vec<u8>, bytes: &[u8]) -> Result<(), AllocError> {
    let mut scratch = Scratch::new(alloc);
    if let Some(position) = end_of_json(bytes, &mut scratch) {
        push_position(text, position)?;
        text.extend_from_slice(b": wanted JSON\n")?;
    }
    Ok(())
}

fn push_places(
    alloc: Global,
    text: &mut Vec<u8>,
    bytes: &[u8],
    fault: DocumentFault,
) -> Result<(), AllocError> {
    let mut scratch = Scratch::new(alloc);
    let mut room = Scratch::new(alloc);
    let bump = Bump::new(alloc);
    let Ok(document) = read(alloc, &bump, bytes, &mut scratch) else {
        return Ok(());
    };
    let places = places_of(alloc, &bump, &document, fault)?;
    for place in places.iter().take(MOST_PLACES) {
        let words = str::from_utf8(bytes).unwrap_or("");
        if let Some(position) = position_of(words, &mut room, &document, &place.path) {
            push_position(text, position)?;
            text.extend_from_slice(b", ")?;
        }
        push_path(text, &place.path)?;
        text.extend_from_slice(b": ")?;
        push_reason(text, place, fault)?;
        text.push(b'\n')?;
    }
    if places.len() > MOST_PLACES {
        text.extend_from_slice(b"and more\n")?;
    }
    Ok(())
}

/// Lists the places that have the fault.
fn places_of<'t, 'b>(
    alloc: Global,
    bump: &'t Bump,
    document: &Tree<'t, 'b>,
    fault: DocumentFault,
) -> Result<Vec<Place<'t, 'b>>, AllocError> {
    let Ok(form) = Form::read(alloc, bump, document) else {
        return misplaced(alloc, bump, document);
    };
    let names = FormNames::of(alloc, &form)?;
    faulty(alloc, bump, document, &form, &names, fault)
}

fn push_position(text: &mut Vec<u8>, position: Position) -> Result<(), AllocError> {
    text.extend_from_slice(b"line ")?;
    push_digits(text, position.line)?;
    text.extend_from_slice(b", column ")?;
    push_digits(text, position.column)
}
