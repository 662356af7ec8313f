//! When old code may be unloaded.

ghost use Rattle.std.specs.Prelude.{◌≡◌, ◌≢◌, None};
ghost use Rattle.msg_c.specs.Answers.{AreOfOneArena, sender_arena};
ghost use Rattle.msg_c.specs.Handles.{HasRuntime, HasSeenAll, HasSender, IfOpen, IsSeenByAll, Rests};
ghost use Rattle.msg_c.specs.Handles.{SeesMore, StaysAt};

use crate::answer::{CLOSED, DONE};
use crate::runtime_handle::RuntimeHandle;
use crate::sender_handle::SenderHandle;
use msg_reader::laws::notes_are_of_longer_histories;
use std::alloc::Global;

/// Does the same as `msg_meet`, and notes after how many changes the sender rested. By the call the
/// host says that nothing which the sender found before is in use: its thread runs no such
/// function, and keeps none to call.
#[unsafe(no_mangle)]
pub extern "C" fn msg_rest(
    alloc: Global,
    runtime: &mut RuntimeHandle,
    sender: &mut SenderHandle,
) -> u32
    requires together { AreOfOneArena runtime.old.held.state sender.old.held.state }
    ensures kept { StaysAt runtime.old runtime.new }
    ensures rests { Rests runtime.old runtime.new sender.old }
    ensures arena { sender_arena sender.new.held.state ≡ sender_arena sender.old.held.state }
    ensures closed { runtime.old.held.state ≡ None → result ≡ CLOSED }
    ensures no_sender { sender.old.held.state ≡ None → result ≡ CLOSED }
    ensures left { result ≢ 0 → sender.new.held.state ≡ sender.old.held.state }
    ensures unrested { result ≢ 0 → runtime.new.held.state ≡ runtime.old.held.state }
    ensures was_open { HasRuntime runtime.old → HasSender sender.old → result ≡ 0 }
    ensures notes { sender.new.notes ≡ sender.old.notes }
    ensures begins { SeesMore sender.old sender.new }
    ensures front { result ≡ 0 → HasSeenAll sender.new runtime.old }
{
    let Some(mut held) = runtime.take(alloc) else {
        return CLOSED;
    };
    if !sender.is_open() {
        *runtime = RuntimeHandle::of(held);
        return CLOSED;
    }
    notes_are_of_longer_histories();
    let mut asker = sender.held.take(alloc);
    held.rest(&mut asker);
    sender.held.put(asker);
    *runtime = RuntimeHandle::of(held);
    DONE
}

/// The least number of changes that an open sender had seen when it last rested or was opened. If
/// no sender is open, it is the number of all changes. Each sender has seen that many, so it finds
/// nothing older from then on. It goes over all sender numbers.
#[unsafe(no_mangle)]
pub extern "C" fn msg_seen_by_all(
    alloc: Global,
    runtime: &mut RuntimeHandle,
    count: &mut u64,
) -> u32
    ensures kept { runtime.new.held.state ≡ runtime.old.held.state }
    ensures closed { runtime.old.held.state ≡ None → result ≡ CLOSED }
    ensures left { result ≢ 0 → count.new ≡ count.old }
    ensures done { IfOpen runtime.old (λ v. result ≡ 0) }
    ensures seen { result ≡ 0 → IsSeenByAll runtime.old count.new }
{
    let Some(held) = runtime.take(alloc) else {
        return CLOSED;
    };
    *count = held.seen_by_all();
    *runtime = RuntimeHandle::of(held);
    DONE
}
