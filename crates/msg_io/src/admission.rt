//! Whether a run is possible, and for which document; and the text that it writes.

ghost use Rattle.std.specs.Prelude.{◌≡◌, ◌≢◌, ◌≤◌, ◌↔◌, ◌⊎◌, length, true, false};
ghost use Rattle.std.specs.Prelude.{Err, IfOk, IfErr, OnErr, OnOk};
ghost use Rattle.std.specs.Io.KnownBytes.{IsAtEnd};
ghost use Rattle.msg_form.specs.declared.faults.DocumentFault.TheVariants as documents;
ghost use Rattle.msg_image.specs.DocumentParts.{document_parts};
ghost use Rattle.msg_io.specs.Admission.{AreNoWorkers, IsNoCut, IsDocumentOf, TellsFaultOf};
ghost use Rattle.msg_io.specs.Reading.{GivesStart, IsSoundDocument};
ghost use Rattle.msg_io.specs.Writing.{Writes, Starts};

use crate::device::{Sink, Source};
use crate::fault::RunFault;
use crate::reading::read_whole;
use crate::writing::write_whole;
use msg_image::{Document, MAX_ITEMS, read_document};
use std::alloc::Global;

/// The most workers of a run.
pub const MAX_WORKERS: u32 = 64;

// Reads the document of a source. The bytes and the JSON value are dropped when the document is
// made.
fn document<R: Source>(alloc: Global, source: &mut R) -> Result<Document, RunFault>
    requires { R.mark source.old ≡ false }
    ensures ok { IfOk result (λ d. IsDocumentOf (R.remaining source.old) (document_parts d)) }
    ensures sound { IfOk result (λ d. IsSoundDocument (document_parts d)) }
    ensures few { IfOk result (λ d. length d.items.items ≤ MAX_ITEMS) }
    ensures fault { TellsFaultOf (R.remaining source.old) result }
    ensures memory { result ≢ Err (RunFault.Document documents.Memory) }
    ensures read { (result ≡ Err RunFault.Read) ↔ (R.mark source.new ≡ true) }
    ensures taken { GivesStart (R.remaining source.old) (R.remaining source.new) }
    ensures end { OnOk result (IsAtEnd (R.remaining source.new)) }
    ensures write { result ≢ Err RunFault.Write }
    ensures workers { result ≢ Err RunFault.Workers }
    ensures cut { result ≢ Err RunFault.Cut }
{
    let bytes = read_whole(alloc, source)?;
    Ok(read_document(alloc, &bytes)?)
}

// Whether a run with this number of workers and this cut is possible.
fn judge(workers: u32, cut: u32) -> Result<(), RunFault>
    ensures some_workers { OnOk result (1 ≤ workers) }
    ensures some_places { OnOk result (1 ≤ cut) }
    ensures workers { (result ≡ Err RunFault.Workers) ↔ AreNoWorkers workers }
    ensures cut { (result ≡ Err RunFault.Cut) ↔ IsNoCut workers cut }
    ensures others { IfErr result (λ f. (f ≡ RunFault.Workers) ⊎ (f ≡ RunFault.Cut)) }
{
    if workers == 0 || workers > MAX_WORKERS {
        return Err(RunFault::Workers);
    }
    if cut == 0 {
        return Err(RunFault::Cut);
    }
    Ok(())
}

/// Returns the document of a run with this number of workers and this cut, if such a run is
/// possible. The source is then read to its end. If the text is too long, at most one buffer past
/// the limit is read.
#[tactic(auto, using(crate::proofs::ByteLemmas::gives_nothing))]
pub fn admit<R: Source>(
    alloc: Global,
    source: &mut R,
    workers: u32,
    cut: u32,
) -> Result<Document, RunFault>
    requires { R.mark source.old ≡ false }
    ensures some_workers { OnOk result (1 ≤ workers) }
    ensures some_places { OnOk result (1 ≤ cut) }
    ensures ok { IfOk result (λ d. IsDocumentOf (R.remaining source.old) (document_parts d)) }
    ensures sound { IfOk result (λ d. IsSoundDocument (document_parts d)) }
    ensures few { IfOk result (λ d. length d.items.items ≤ MAX_ITEMS) }
    ensures workers { (result ≡ Err RunFault.Workers) ↔ AreNoWorkers workers }
    ensures cut { (result ≡ Err RunFault.Cut) ↔ IsNoCut workers cut }
    ensures fault { TellsFaultOf (R.remaining source.old) result }
    ensures memory { result ≢ Err (RunFault.Document documents.Memory) }
    ensures read { (result ≡ Err RunFault.Read) ↔ (R.mark source.new ≡ true) }
    ensures taken { GivesStart (R.remaining source.old) (R.remaining source.new) }
    ensures end { OnOk result (IsAtEnd (R.remaining source.new)) }
    ensures write { result ≢ Err RunFault.Write }
{
    judge(workers, cut)?;
    document(alloc, source)
}

/// Writes the text of a run, which is whole.
pub fn write_text<W: Sink>(sink: &mut W, text: &[u8]) -> Result<(), RunFault>
    requires { W.mark sink.old ≡ false }
    ensures whole { OnOk result (Writes W.contents sink.old sink.new text.now) }
    ensures start { OnErr result (Starts W.contents sink.old sink.new text.now) }
    ensures fault { IfErr result (λ f. f ≡ RunFault.Write) }
    ensures mark { (result ≡ Err RunFault.Write) ↔ (W.mark sink.new ≡ true) }
{
    match write_whole(sink, text) {
        Ok(()) => Ok(()),
        Err(_) => Err(RunFault::Write),
    }
}
