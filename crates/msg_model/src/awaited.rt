//! The senders that retired arrays await.

ghost use Rattle.std.specs.Prelude.{◌≡◌, ◌<◌, ◌≤◌, map, length};
ghost use Rattle.std.specs.List.{list_any};
ghost use Rattle.msg_model.specs.Steps.{everyone, seen_out};

use crate::state::Standing;
use msg_tables::MOST_SENDERS;

// All senders. `senders` is their number.
pub(crate) fn everyone(senders: usize) -> [bool; MOST_SENDERS]
    requires { senders ≤ MOST_SENDERS }
    ensures { result ≡ everyone senders }
{
    let mut awaited = [false; MOST_SENDERS];
    for sender in 0..senders {
        awaited[sender] = true;
    }
    awaited
}

fn awaits_some(awaited: &[bool; MOST_SENDERS]) -> bool
    ensures { result ≡ list_any (λ b. b) awaited.now }
{
    for awaits in awaited {
        if *awaits {
            return true;
        }
    }
    false
}

// The standing of an array after the sender was seen out.
fn seen_out(standing: Standing, sender: usize) -> Standing
    requires { sender < MOST_SENDERS }
    ensures { result ≡ seen_out sender standing }
{
    match standing {
        Standing::Retired(class, changes, awaited) => {
            let mut left = awaited;
            left[sender] = false;
            if awaits_some(&left) {
                Standing::Retired(class, changes, left)
            } else {
                Standing::Free
            }
        }
        Standing::Free | Standing::Live(_) => standing,
    }
}

// Notes that a sender was seen out.
pub(crate) fn see_out(standings: &mut [Standing], sender: usize)
    requires { sender < MOST_SENDERS }
    ensures { standings.new ≡ map (seen_out sender) standings.old }
{
    for array in 0..standings.len() {
        standings[array] = seen_out(standings[array], sender);
    }
}
