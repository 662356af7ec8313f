//! The words of the command line.

ghost use Rattle.std.specs.Prelude.{◌≡◌, map, string_bytes, IfErr, IfSome};
ghost use Rattle.std.specs.Char.{is_ascii_digit};
ghost use Rattle.std.specs.List.{list_all};
ghost use Rattle.msg_io.specs.CommandLine as spec;
ghost use Rattle.msg_io.specs.declared.fault.RunFault.TheVariants.{Memory};

use crate::fault::RunFault;
use std::alloc::{Alloc, Global};
use std::env::{self, Env};
use std::io::ErrorKind;

/// Returns the words after the program's name. A fault is a lack of memory. An error without a
/// fault means that a word isn't text, which is wrong use.
///
/// No clause says what the words are, because no clause of the kit says what a program is started
/// with.
pub fn words<R: Env + Alloc<A = Global>>(rt: &R) -> Result<Vec<String>, Option<RunFault>>
    ensures { IfErr result (λ fault. IfSome fault (λ f. f ≡ Memory)) }
{
    let all = match env::args(rt) {
        Ok(all) => all,
        Err(e) if e.kind() == ErrorKind::OutOfMemory => return Err(Some(RunFault::Memory)),
        Err(_) => return Err(None),
    };
    let mut words = Vec::new(rt.alloc());
    for word in all.skip(1) {
        if words.push(word).is_err() {
            return Err(Some(RunFault::Memory));
        }
    }
    Ok(words)
}

/// Returns the workers and the cut that the words after the program's name ask for, or 1 and 64 if
/// they name none. `None` means wrong use.
pub fn arguments(words: &[String]) -> Option<(u32, u32)>
    ensures { result ≡ spec.arguments_of (map string_bytes words.now) }
{
    match words {
        [] => Some((1, 64)),
        [workers] => Some((number(workers.as_str())?, 64)),
        [workers, cut] => Some((number(workers.as_str())?, number(cut.as_str())?)),
        _ => None,
    }
}

// The number that a word spells.
#[tactic(auto, unfolding(crate::specs::CommandLine::argument_number))]
fn number(word: &str) -> Option<u32>
    ensures { result ≡ spec.argument_number word.now }
{
    if is_number(word.as_bytes()) {
        word.parse().ok()
    } else {
        None
    }
}

// Nine digits always fit. The test comes before `parse`, which would accept a sign.
#[tactic(auto, unfolding(crate::specs::CommandLine::is_number))]
fn is_number(word: &[u8]) -> bool
    ensures { result ≡ spec.is_number word.now }
{
    1 <= word.len() && word.len() <= 9 && are_digits(word)
}

fn are_digits(word: &[u8]) -> bool
    ensures { result ≡ list_all is_ascii_digit word.now }
{
    word.iter().all(|b| b.is_ascii_digit())
}
