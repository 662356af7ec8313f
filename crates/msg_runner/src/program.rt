//! The programs' work, from the words of the command line to the exit status.

ghost use Rattle.std.specs.Prelude.{◌≡◌, ◌≢◌, ◌⊎◌, List, ℕ, false, map, string_bytes, Err};
ghost use Rattle.std.specs.Prelude.{IfErr, IfSome, OnOk};
ghost use Rattle.std.specs.Io.KnownBytes.{Appends, IsAtEnd};
ghost use Rattle.msg_io.specs.CommandLine.{arguments_of};
ghost use Rattle.msg_io.specs.Reading.{GivesStart};
ghost use Rattle.msg_runner.specs.Program.{EndedWith, EndsWith, WroteAsked};

use crate::changes::Changes;
use crate::gate::LastGate;
use crate::running::{Asked, run_as};
use msg_io::{Program, RunFault, Sink, Source, arguments, complain, words};
use std::alloc::{Alloc, Global};
use std::env::Env;
use std::sync::Wait;
use std::thread::Threads;

// The run that the words ask for. An error without a fault means wrong use.
fn run_asked<R: Source, W: Sink, T: Threads + Wait + Sync>(
    rt: &T,
    alloc: Global,
    program: Program,
    words: &[String],
    source: &mut R,
    sink: &mut W,
) -> Result<(), Option<RunFault>>
    requires unread { R.mark source.old ≡ false }
    requires unwritten { W.mark sink.old ≡ false }
    ensures whole { OnOk result (IfSome (R.remaining source.old)
        (WroteAsked Appends program (arguments_of (map string_bytes words.now))
        (W.contents sink.old) (W.contents sink.new))) }
    ensures ended { IfErr result (EndedWith program (arguments_of (map string_bytes words.now))
        (R.remaining source.old) (W.contents sink.old) (W.contents sink.new)) }
    ensures taken { GivesStart (R.remaining source.old) (R.remaining source.new) }
    ensures end { OnOk result (IsAtEnd (R.remaining source.new)) }
{
    let Some((workers, cut)) = arguments(words) else {
        return Err(None);
    };
    let asked = Asked {
        changes: Changes::of(program),
        workers,
        cut,
    };
    match run_as(rt, alloc, &LastGate, source, sink, asked) {
        Ok(()) => Ok(()),
        Err(fault) => Err(Some(fault)),
    }
}

/// Answers a document as the words of a command line ask, or says in a line why that isn't
/// possible. Returns the exit status, with which the process has to end: the memory of the document
/// is not freed.
pub fn run_words<R: Source, W: Sink, C: Sink, T: Threads + Wait + Sync>(
    rt: &T,
    alloc: Global,
    program: Program,
    words: &[String],
    source: &mut R,
    sink: &mut W,
    errors: &mut C,
) -> u8
    requires unread { R.mark source.old ≡ false }
    requires unwritten { W.mark sink.old ≡ false }
    ensures whole { result ≡ 0 → IfSome (R.remaining source.old)
        (WroteAsked Appends program (arguments_of (map string_bytes words.now))
        (W.contents sink.old) (W.contents sink.new)) }
    ensures silent { result ≡ 0 → errors.new ≡ errors.old }
    ensures status { (result ≡ 0) ⊎ (result ≡ 1) ⊎ (result ≡ 2) }
    ensures ended { result ≢ 0 → EndsWith C.contents C.mark errors.old errors.new program
        (arguments_of (map string_bytes words.now)) (R.remaining source.old)
        (W.contents sink.old) (W.contents sink.new) result }
    ensures refused { result ≡ 2 → W.contents sink.new ≡ W.contents sink.old }
    ensures taken { GivesStart (R.remaining source.old) (R.remaining source.new) }
    ensures end { result ≡ 0 → IsAtEnd (R.remaining source.new) }
{
    match run_asked(rt, alloc, program, words, source, sink) {
        Ok(()) => 0,
        Err(fault) => complain(errors, program, fault.as_ref()),
    }
}

/// Does a program's work: it answers a document as the words ask with which it was started. Returns
/// the exit status, with which the process has to end.
///
/// `whole` names no words, because no clause says what `words` returns.
pub fn run_program<R: Source, W: Sink, C: Sink, T: Env + Alloc<A = Global> + Threads + Wait + Sync>(
    rt: &T,
    program: Program,
    source: &mut R,
    sink: &mut W,
    errors: &mut C,
) -> u8
    requires unread { R.mark source.old ≡ false }
    requires unwritten { W.mark sink.old ≡ false }
    ensures whole { result ≡ 0 → (words : List (List ℕ)) × IfSome (R.remaining source.old)
        (WroteAsked Appends program (arguments_of words) (W.contents sink.old) (W.contents sink.new)) }
    ensures silent { result ≡ 0 → errors.new ≡ errors.old }
    ensures status { (result ≡ 0) ⊎ (result ≡ 1) ⊎ (result ≡ 2) }
    ensures ended { result ≢ 0 → (words : List (List ℕ)) × EndsWith C.contents C.mark
        errors.old errors.new program (arguments_of words) (R.remaining source.old)
        (W.contents sink.old) (W.contents sink.new) result }
    ensures refused { result ≡ 2 → W.contents sink.new ≡ W.contents sink.old }
    ensures taken { GivesStart (R.remaining source.old) (R.remaining source.new) }
    ensures end { result ≡ 0 → IsAtEnd (R.remaining source.new) }
{
    match words(rt) {
        Ok(words) => run_words(rt, rt.alloc(), program, &words, source, sink, errors),
        Err(fault) => complain(errors, program, fault.as_ref()),
    }
}
