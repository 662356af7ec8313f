//! From bytes to bytes: reading, answering, writing.

ghost use Rattle.std.specs.Prelude.{◌≡◌, ◌≢◌, ◌↔◌, false, true, Err, IfSome, OnOk};
ghost use Rattle.std.specs.Io.KnownBytes.{Appends, IsAtEnd};
ghost use Rattle.msg_form.specs.declared.faults.DocumentFault.TheVariants as documents;
ghost use Rattle.msg_io.specs.Admission.{AreNoWorkers, IsNoCut, TellsFaultOf};
ghost use Rattle.msg_io.specs.Reading.{GivesStart};
ghost use Rattle.msg_io.specs.Writing.{AppendsStart};
ghost use Rattle.msg_runner.specs.Outcome.{Leaves, Wrote};

use crate::changes::Changes;
use crate::document::answer_document;
use crate::gate::Gate;
use msg_image::Document;
use msg_io::{RunFault, Sink, Source, admit, write_text};
use std::alloc::Global;
use std::mem;
use std::sync::Wait;
use std::thread::Threads;

// The settings of a run.
#[derive(Clone, Copy)]
pub(crate) struct Asked {
    pub(crate) changes: Changes,
    pub(crate) workers: u32,
    pub(crate) cut: u32,
}

// Frees what a document takes, unless the end of the process will.
fn leave<G: Gate>(document: Document, gate: &G) {
    if gate.is_last() {
        mem::forget(document);
    } else {
        drop(document);
    }
}

// Reads a document, answers it, and writes its lines when they are complete.
pub(crate) fn run_as<R: Source, W: Sink, G: Gate, T: Threads + Wait + Sync>(
    rt: &T,
    alloc: Global,
    gate: &G,
    source: &mut R,
    sink: &mut W,
    asked: Asked,
) -> Result<(), RunFault>
    requires unread { R.mark source.old ≡ false }
    requires unwritten { W.mark sink.old ≡ false }
    ensures whole { OnOk result (IfSome (R.remaining source.old)
        (Wrote Appends asked.changes asked.workers asked.cut
        (W.contents sink.old) (W.contents sink.new))) }
    ensures start { result ≡ Err RunFault.Write → IfSome (R.remaining source.old)
        (Wrote AppendsStart asked.changes asked.workers asked.cut
        (W.contents sink.old) (W.contents sink.new)) }
    ensures nothing { Leaves (W.contents sink.old) (W.contents sink.new) result }
    ensures workers { (result ≡ Err RunFault.Workers) ↔ AreNoWorkers asked.workers }
    ensures cut { (result ≡ Err RunFault.Cut) ↔ IsNoCut asked.workers asked.cut }
    ensures document { TellsFaultOf (R.remaining source.old) result }
    ensures memory { result ≢ Err (RunFault.Document documents.Memory) }
    ensures read { (result ≡ Err RunFault.Read) ↔ (R.mark source.new ≡ true) }
    ensures taken { GivesStart (R.remaining source.old) (R.remaining source.new) }
    ensures end { OnOk result (IsAtEnd (R.remaining source.new)) }
    ensures write { (result ≡ Err RunFault.Write) ↔ (W.mark sink.new ≡ true) }
{
    let Asked {
        changes,
        workers,
        cut,
    } = asked;
    let document = admit(alloc, source, workers, cut)?;
    let answered = answer_document(rt, alloc, gate, &document, changes, workers, cut);
    leave(document, gate);
    write_text(sink, &answered?)
}

/// Reads a document, answers its items in their order, and writes a line for each answer.
///
/// The lines are those of one thread that takes the items one by one and searches the method lists,
/// for every number of workers and every cut. The text is complete before its first byte is
/// written. The calling thread answers a batch of one piece.
pub fn run<R: Source, W: Sink, G: Gate, T: Threads + Wait + Sync>(
    rt: &T,
    alloc: Global,
    source: &mut R,
    sink: &mut W,
    workers: u32,
    cut: u32,
    gate: &G,
) -> Result<(), RunFault>
    requires unread { R.mark source.old ≡ false }
    requires unwritten { W.mark sink.old ≡ false }
    ensures whole { OnOk result (IfSome (R.remaining source.old)
        (Wrote Appends Changes.Between workers cut (W.contents sink.old) (W.contents sink.new))) }
    ensures start { result ≡ Err RunFault.Write → IfSome (R.remaining source.old)
        (Wrote AppendsStart Changes.Between workers cut
        (W.contents sink.old) (W.contents sink.new)) }
    ensures nothing { Leaves (W.contents sink.old) (W.contents sink.new) result }
    ensures workers { (result ≡ Err RunFault.Workers) ↔ AreNoWorkers workers }
    ensures cut { (result ≡ Err RunFault.Cut) ↔ IsNoCut workers cut }
    ensures document { TellsFaultOf (R.remaining source.old) result }
    ensures memory { result ≢ Err (RunFault.Document documents.Memory) }
    ensures read { (result ≡ Err RunFault.Read) ↔ (R.mark source.new ≡ true) }
    ensures taken { GivesStart (R.remaining source.old) (R.remaining source.new) }
    ensures end { OnOk result (IsAtEnd (R.remaining source.new)) }
    ensures write { (result ≡ Err RunFault.Write) ↔ (W.mark sink.new ≡ true) }
{
    let asked = Asked {
        changes: Changes::Between,
        workers,
        cut,
    };
    run_as(rt, alloc, gate, source, sink, asked)
}

/// Reads a document and writes a line for each item. Workers answer all its sends while it makes
/// the changes in their order.
///
/// Each worker's sends are answered at points of one history that rise.
pub fn run_beside<R: Source, W: Sink, G: Gate, T: Threads + Wait + Sync>(
    rt: &T,
    alloc: Global,
    source: &mut R,
    sink: &mut W,
    workers: u32,
    cut: u32,
    gate: &G,
) -> Result<(), RunFault>
    requires unread { R.mark source.old ≡ false }
    requires unwritten { W.mark sink.old ≡ false }
    ensures whole { OnOk result (IfSome (R.remaining source.old)
        (Wrote Appends Changes.Beside workers cut (W.contents sink.old) (W.contents sink.new))) }
    ensures start { result ≡ Err RunFault.Write → IfSome (R.remaining source.old)
        (Wrote AppendsStart Changes.Beside workers cut
        (W.contents sink.old) (W.contents sink.new)) }
    ensures nothing { Leaves (W.contents sink.old) (W.contents sink.new) result }
    ensures workers { (result ≡ Err RunFault.Workers) ↔ AreNoWorkers workers }
    ensures cut { (result ≡ Err RunFault.Cut) ↔ IsNoCut workers cut }
    ensures document { TellsFaultOf (R.remaining source.old) result }
    ensures memory { result ≢ Err (RunFault.Document documents.Memory) }
    ensures read { (result ≡ Err RunFault.Read) ↔ (R.mark source.new ≡ true) }
    ensures taken { GivesStart (R.remaining source.old) (R.remaining source.new) }
    ensures end { OnOk result (IsAtEnd (R.remaining source.new)) }
    ensures write { (result ≡ Err RunFault.Write) ↔ (W.mark sink.new ≡ true) }
{
    let asked = Asked {
        changes: Changes::Beside,
        workers,
        cut,
    };
    run_as(rt, alloc, gate, source, sink, asked)
}
