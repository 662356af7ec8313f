//! Several lookups as one.

ghost use Rattle.std.specs.Prelude.{◌≡◌, ◌≢◌, ◌⊎◌, None, length};
ghost use Rattle.msg_host.specs.Lookups.{AreRowsFoundAt};
ghost use Rattle.msg_c.specs.Answers.{AreOfOneArena, sender_arena};
ghost use Rattle.msg_c.specs.Handles.{FindsRowsIn, HasRuntime, HasSeenAll, IfAt, KeepsOtherNotes, LacksRowIn, LeavesRests};
ghost use Rattle.msg_c.specs.Handles.{LooksOnceMore, MissesRowIn, NotesRowsAt, NotesRowsIn, ProbesRowsIn};
ghost use Rattle.msg_c.specs.Handles.{RefusesLookupsIn, SeesMore};
ghost use Rattle.msg_c.specs.Handles.{StaysAt, TakesLookupsIn};

use crate::answer::{CLOSED, DONE, MISSED};
use crate::runtime_handle::RuntimeHandle;
use crate::sender_handle::SenderHandle;
use msg_host::LookupRow;
use std::alloc::Global;

/// Writes the numbers of the implementations that the lookups find, 0 for forwarding, all at one
/// point of the history. That point is not before the one that the sender had seen, and the sender
/// has then seen it. The call needs no lock. It returns 71 if the sender's notes and a cache lack
/// one of the lookups, or if a change that affects the class reference of one falls among them;
/// `imps` then has no meaning. It returns 66, 67 or 75 if a lookup isn't asked, with its place,
/// from 0, and 76 if `imps` doesn't have as many places as there are lookups.
#[unsafe(no_mangle)]
pub extern "C" fn msg_probe_all(
    alloc: Global,
    sender: &mut SenderHandle,
    lookups: &[LookupRow],
    imps: &mut [u32],
    place: &mut usize,
) -> u32
    ensures arena { sender_arena sender.new.held.state ≡ sender_arena sender.old.held.state }
    ensures closed { sender.old.held.state ≡ None → (result ≡ CLOSED) × (place.new ≡ place.old) }
    ensures left { result ≢ 0 → result ≢ MISSED → imps.new ≡ imps.old }
    ensures still { result ≢ 0 → result ≢ MISSED → sender.new.held.state ≡ sender.old.held.state }
    ensures unnoted { result ≢ 0 → result ≢ MISSED → sender.new.notes ≡ sender.old.notes }
    ensures begins { SeesMore sender.old sender.new }
    ensures looked { (result ≡ 0) ⊎ (result ≡ MISSED) → LooksOnceMore sender.old sender.new }
    ensures hit { result ≡ 0 → FindsRowsIn sender.old sender.new lookups.now imps.new }
    ensures noted { result ≡ 0 → NotesRowsIn sender.old sender.new lookups.now imps.new }
    ensures others { KeepsOtherNotes sender.old sender.new lookups.now }
    ensures taken { (result ≡ 0) ⊎ (result ≡ MISSED)
        → TakesLookupsIn sender.old lookups.now (length imps.old) place.old place.new }
    ensures fault { result ≢ 0 → result ≢ MISSED
        → RefusesLookupsIn sender.old lookups.now (length imps.old) place.old place.new result }
    ensures recalled { result ≡ MISSED → LacksRowIn sender.old sender.new lookups.now }
    ensures missed { result ≡ MISSED → MissesRowIn sender.old sender.new lookups.now }
    ensures probed { ProbesRowsIn sender.old sender.new lookups.now }
{
    if !sender.is_open() {
        return CLOSED;
    }
    let mut asker = sender.held.take(alloc);
    let found = asker.probe_all(&mut sender.notes, lookups, imps, place);
    sender.held.put(asker);
    match found {
        Ok(true) => DONE,
        Ok(false) => MISSED,
        Err(number) => number,
    }
}

/// Does the same under the lock, at all changes that were made. What the sender's notes lack is
/// looked up and cached. The sender has then seen all these changes.
#[unsafe(no_mangle)]
pub extern "C" fn msg_fill_all(
    alloc: Global,
    runtime: &mut RuntimeHandle,
    sender: &mut SenderHandle,
    lookups: &[LookupRow],
    imps: &mut [u32],
    place: &mut usize,
) -> u32
    requires together { AreOfOneArena runtime.old.held.state sender.old.held.state }
    ensures kept { StaysAt runtime.old runtime.new }
    ensures rested { LeavesRests runtime.old runtime.new }
    ensures unfilled { result ≢ 0 → runtime.new.held.state ≡ runtime.old.held.state }
    ensures arena { sender_arena sender.new.held.state ≡ sender_arena sender.old.held.state }
    ensures closed { runtime.old.held.state ≡ None → (result ≡ CLOSED) × (place.new ≡ place.old) }
    ensures no_sender { sender.old.held.state ≡ None → (result ≡ CLOSED) × (place.new ≡ place.old) }
    ensures left { result ≢ 0 → imps.new ≡ imps.old }
    ensures still { result ≢ 0 → sender.new.held.state ≡ sender.old.held.state }
    ensures unnoted { result ≢ 0 → sender.new.notes ≡ sender.old.notes }
    ensures done { result ≡ 0 → IfAt runtime.old (λ h. AreRowsFoundAt h lookups.now imps.new) }
    ensures noted { result ≡ 0 → NotesRowsAt runtime.old sender.old sender.new lookups.now imps.new }
    ensures others { KeepsOtherNotes sender.old sender.new lookups.now }
    ensures front { result ≡ 0 → HasSeenAll sender.new runtime.old }
    ensures begins { result ≡ 0 → SeesMore sender.old sender.new }
    ensures taken { result ≡ 0 → TakesLookupsIn sender.old lookups.now (length imps.old) place.old place.new }
    ensures fault { HasRuntime runtime.old → result ≢ 0
        → RefusesLookupsIn sender.old lookups.now (length imps.old) place.old place.new result }
{
    let Some(mut held) = runtime.take(alloc) else {
        return CLOSED;
    };
    if !sender.is_open() {
        *runtime = RuntimeHandle::of(held);
        return CLOSED;
    }
    let mut asker = sender.held.take(alloc);
    let found = held.fill_all(&mut asker, &mut sender.notes, lookups, imps, place);
    sender.held.put(asker);
    *runtime = RuntimeHandle::of(held);
    match found {
        Ok(()) => DONE,
        Err(number) => number,
    }
}
