//! The program's work, from the words of the command line to the exit status.

ghost use Rattle.std.specs.Prelude.{◌≡◌, ◌⊎◌, List, ℕ, false, map, string_bytes, IfSome};
ghost use Rattle.msg_explain.specs.Explaining.{TellsAsked};

use crate::explaining::{explain, explain_beside};
use msg_io::{Program, Sink, Source, complain, words};
use std::alloc::{Alloc, Global};
use std::env::Env;
use std::sync::Wait;
use std::thread::Threads;

// Explains a document as words ask for it. Returns the exit status.
fn explain_words<R: Source, W: Sink, E: Sink, T: Threads + Wait + Sync>(
    rt: &T,
    alloc: Global,
    words: &[String],
    source: &mut R,
    sink: &mut W,
    errors: &mut E,
) -> u8
    requires { R.mark source.old ≡ false }
    ensures status { (result ≡ 0) ⊎ ((result ≡ 1) ⊎ (result ≡ 2)) }
    ensures answered { result ≡ 0 → IfSome (R.remaining source.old)
        (TellsAsked (map string_bytes words.now) W.contents sink.old sink.new) }
{
    match words {
        [] => explain(alloc, source, sink, errors),
        [word] if word.as_str() == "beside" => explain_beside(rt, alloc, source, sink, errors),
        _ => complain(errors, Program::Msgrun, None),
    }
}

/// Explains a document, or a run of it beside changes if the only word is `beside`. Returns the
/// exit status.
pub fn explain_program<
    R: Source,
    W: Sink,
    E: Sink,
    T: Env + Alloc<A = Global> + Threads + Wait + Sync,
>(rt: &T, source: &mut R, sink: &mut W, errors: &mut E) -> u8
    requires { R.mark source.old ≡ false }
    ensures status { (result ≡ 0) ⊎ ((result ≡ 1) ⊎ (result ≡ 2)) }
    ensures answered { result ≡ 0 → (words : List (List ℕ)) × IfSome (R.remaining source.old)
        (TellsAsked words W.contents sink.old sink.new) }
{
    match words(rt) {
        Ok(words) => explain_words(rt, rt.alloc(), &words, source, sink, errors),
        Err(fault) => complain(errors, Program::Msgrun, fault.as_ref()),
    }
}
