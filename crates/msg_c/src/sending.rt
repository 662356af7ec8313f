//! Senders.

ghost use Rattle.std.specs.Prelude.{◌≡◌, ◌≢◌, ◌≤◌, ◌⊎◌, length, None, Some};
ghost use Rattle.msg_tables.specs.Origin.{last_imp};
ghost use Rattle.msg_tables.specs.History.{lookup};
ghost use Rattle.msg_model.specs.Stamps.{last_affected};
ghost use Rattle.msg_reader.specs.Kept.{HaveOthersOf};
ghost use Rattle.msg_reader.specs.Notes.{AreBlank, recalled};
ghost use Rattle.msg_c.specs.Answers.{AreOfOneArena, IsAsked, fault_in};
ghost use Rattle.msg_c.specs.Answers.{number_of_recalled, sender_arena};
ghost use Rattle.msg_host.specs.Named.{ref_of};
ghost use Rattle.msg_c.specs.Handles.{AnswersAsked, CachesIn, FindsNotedIn, GivesOut, HasAllOut, HasNotedAt, HasNotedSince};
ghost use Rattle.msg_c.specs.Handles.{HasRuntime, HasSeenAll, HasSender, IfAt, IfOfArena, IfSeen};
ghost use Rattle.msg_c.specs.Handles.{IsListedIn, IsOfRuntime, LeavesNumbers, LeavesRests, LeavesRestsOut};
ghost use Rattle.msg_c.specs.Handles.{LoadsStampIn, LooksOnceMore, Meets, MissesIn, ProbesOnceIn, Recalls, RestsAtOpening, SeesMore};
ghost use Rattle.msg_c.specs.Handles.{StaysAt, TakesSenderIn, TellsFaultIn};

use crate::answer::{
    ALREADY_OPEN, CLOSED, DONE, MISSED, NO_MEMORY, NO_SENDER, NOT_NOTED, NOTED_NONE,
};
use crate::runtime_handle::RuntimeHandle;
use crate::sender_handle::SenderHandle;
use msg_host::SenderFault;
use msg_reader::laws::notes_are_of_longer_histories;
use std::alloc::Global;
use std::mem;

// The layout as in the header: a pointer, whether it is open, where notes were written, 16 bytes,
// and two notes of 32 bytes at each of 8,192 places.
const SENDER_BYTES: usize = 524_384;

const _: () = prove!(mem::size_of::<SenderHandle>() == SENDER_BYTES);

/// The size of a sender's handle in bytes, for hosts that don't compile the header.
#[unsafe(no_mangle)]
pub extern "C" fn msg_sender_size() -> usize
    ensures { result ≡ 524384 }
{
    SENDER_BYTES
}

/// Opens a sender of the runtime, which has seen all changes that were made. As many senders may be
/// out at a time as the runtime was opened for.
#[unsafe(no_mangle)]
pub extern "C" fn msg_sender_open(
    alloc: Global,
    runtime: &mut RuntimeHandle,
    sender: &mut SenderHandle,
) -> u32
    ensures kept { StaysAt runtime.old runtime.new }
    ensures closed { runtime.old.held.state ≡ None → sender.old.held.state ≡ None → result ≡ CLOSED }
    ensures refused { HasRuntime runtime.old → sender.old.held.state ≡ None → result ≢ 0
        → (result ≡ NO_SENDER) ⊎ (result ≡ NO_MEMORY) }
    ensures none { result ≡ NO_SENDER → HasAllOut runtime.old }
    ensures given { result ≡ 0 → GivesOut runtime.old runtime.new sender.new }
    ensures rests { result ≡ 0 → RestsAtOpening runtime.old runtime.new sender.new }
    ensures rested { LeavesRestsOut runtime.old runtime.new }
    ensures unused { result ≢ 0 → LeavesNumbers runtime.old runtime.new }
    ensures already { HasSender sender.old → result ≡ ALREADY_OPEN }
    ensures left { result ≢ 0 → sender.new.held.state ≡ sender.old.held.state }
    ensures open { result ≡ 0 → HasSender sender.new }
    ensures of { result ≡ 0 → IsOfRuntime sender.new runtime.old }
    ensures front { result ≡ 0 → HasSeenAll sender.new runtime.old }
{
    if sender.is_open() {
        return ALREADY_OPEN;
    }
    let Some(mut held) = runtime.take(alloc) else {
        return CLOSED;
    };
    let answer = match held.sender() {
        Ok(made) => match Box::new(alloc, made) {
            Ok(made) => {
                sender.open(made);
                DONE
            }
            Err(refused) => {
                held.finish(refused.value);
                NO_MEMORY
            }
        },
        Err(SenderFault::NoneFree) => NO_SENDER,
        Err(SenderFault::Memory) => NO_MEMORY,
    };
    *runtime = RuntimeHandle::of(held);
    answer
}

/// Closes the sender, whose notes are then blank. Its number is given back, unless the runtime was
/// closed before.
#[unsafe(no_mangle)]
pub extern "C" fn msg_sender_close(
    alloc: Global,
    runtime: &mut RuntimeHandle,
    sender: &mut SenderHandle,
) -> u32
    requires together { AreOfOneArena runtime.old.held.state sender.old.held.state }
    ensures kept { StaysAt runtime.old runtime.new }
    ensures back { TakesSenderIn runtime.old runtime.new sender.old }
    ensures closed { sender.new.held.state ≡ None }
    ensures blank { AreBlank sender.new.notes }
    ensures was_closed { sender.old.held.state ≡ None → result ≡ CLOSED }
    ensures unrested { result ≢ 0 → runtime.new.held.state ≡ runtime.old.held.state }
    ensures was_open { HasSender sender.old → result ≡ 0 }
{
    let Some(taken) = sender.close(alloc) else {
        return CLOSED;
    };
    match runtime.take(alloc) {
        Some(mut held) => {
            held.finish(Box::into_inner(taken));
            *runtime = RuntimeHandle::of(held);
        }
        None => drop(taken),
    }
    DONE
}

/// `cache_getImp`: the implementation's number that the sender noted, or that the class reference's
/// cache has for the selector; or 71 if neither has it. The call needs no lock. A hit is the
/// lookup's result at a point of the history not before the one that the sender had seen.
#[unsafe(no_mangle)]
pub extern "C" fn msg_probe(
    alloc: Global,
    sender: &mut SenderHandle,
    class: u32,
    meta: bool,
    sel: u32,
    imp: &mut u32,
) -> u32
    ensures arena { sender_arena sender.new.held.state ≡ sender_arena sender.old.held.state }
    ensures closed { sender.old.held.state ≡ None → result ≡ CLOSED }
    ensures left { result ≢ 0 → imp.new ≡ imp.old }
    ensures still { result ≢ 0 → result ≢ MISSED → sender.new.held.state ≡ sender.old.held.state }
    ensures unnoted { result ≢ 0 → result ≢ MISSED → sender.new.notes ≡ sender.old.notes }
    ensures others { HaveOthersOf (ref_of class meta) sel sender.old.notes sender.new.notes }
    ensures begins { SeesMore sender.old sender.new }
    ensures hit { result ≡ 0 → IfSeen sender.new (λ h. imp.new ≡ lookup h (ref_of class meta) sel) }
    ensures listed { result ≡ 0 → IsListedIn sender.old imp.new }
    ensures fault { TellsFaultIn sender.old class sel result }
    ensures noted { result ≡ 0 → HasNotedSince sender.new (ref_of class meta) sel imp.new }
    ensures unprobed { result ≡ 0 → FindsNotedIn sender.old sender.new (ref_of class meta) sel (Some imp.new) }
    ensures miss { IfOfArena sender.old (λ a. result ≡ MISSED → IsAsked a class sel) }
    ensures recalled { result ≡ MISSED → FindsNotedIn sender.old sender.new (ref_of class meta) sel None }
    ensures missed { result ≡ MISSED → MissesIn sender.old sender.new (ref_of class meta) sel }
    ensures probed { ProbesOnceIn sender.old sender.new (ref_of class meta) sel }
{
    if !sender.is_open() {
        return CLOSED;
    }
    let mut asker = sender.held.take(alloc);
    let found = asker.probe(&mut sender.notes, class, meta, sel);
    sender.held.put(asker);
    match found {
        Ok(Some(found)) => {
            *imp = found;
            DONE
        }
        Ok(None) => MISSED,
        Err(fault) => fault.number(),
    }
}

/// The number of the implementation that the sender noted for a slot and a selector after at least
/// this number of changes, if the note is still there. A slot is twice a class's number, and 1 more
/// for its metaclass. The result is `NOTED_NONE` if the sender noted that no method is found, and 0
/// if it noted nothing. Given the stamp of the class reference, a lookup still finds the result.
///
/// It takes no lock, loads no word that threads share, and writes nothing. It makes a few loads
/// from the handle.
#[unsafe(no_mangle)]
pub extern "C" fn msg_recall(sender: &SenderHandle, slot: usize, sel: u32, since: u64) -> usize
    ensures found { Recalls sender.now since slot sel result }
    ensures closed { sender.now.held.state ≡ None → result ≡ NOT_NOTED }
    ensures answer { result ≡ number_of_recalled (recalled sender.now.notes since slot sel) }
{
    match sender.notes.recall_method(since, slot, sel) {
        None => NOT_NOTED,
        Some(0) => NOTED_NONE,
        Some(imp) => imp as usize,
    }
}

/// The stamp of a class or of its metaclass: of the changes that the sender has then seen, none
/// after that many has affected it. So a lookup finds what was noted of it after at least that many
/// changes. The call needs no lock, and loads one shared word.
#[unsafe(no_mangle)]
pub extern "C" fn msg_stamp(
    alloc: Global,
    sender: &mut SenderHandle,
    class: u32,
    meta: bool,
    stamp: &mut u64,
) -> u32
    ensures arena { sender_arena sender.new.held.state ≡ sender_arena sender.old.held.state }
    ensures closed { sender.old.held.state ≡ None → result ≡ CLOSED }
    ensures left { result ≢ 0 → stamp.new ≡ stamp.old }
    ensures still { result ≢ 0 → sender.new.held.state ≡ sender.old.held.state }
    ensures fault { IfOfArena sender.old (λ a. result ≡ fault_in a class 1) }
    ensures begins { SeesMore sender.old sender.new }
    ensures notes { sender.new.notes ≡ sender.old.notes }
    ensures loaded { result ≡ 0 → LoadsStampIn sender.old sender.new (ref_of class meta) stamp.new }
    ensures since { result ≡ 0 → IfSeen sender.new (λ h. last_affected h (ref_of class meta) ≤ stamp.new) }
{
    if !sender.is_open() {
        return CLOSED;
    }
    notes_are_of_longer_histories();
    let mut asker = sender.held.take(alloc);
    let found = asker.stamp(class, meta);
    sender.held.put(asker);
    match found {
        Ok(found) => {
            *stamp = found;
            DONE
        }
        Err(fault) => fault.number(),
    }
}

/// `lookUpImpOrForward`: looks up what a probe missed, and caches it. The sender has then seen all
/// changes that were made.
#[unsafe(no_mangle)]
pub extern "C" fn msg_fill(
    alloc: Global,
    runtime: &mut RuntimeHandle,
    sender: &mut SenderHandle,
    class: u32,
    meta: bool,
    sel: u32,
    imp: &mut u32,
) -> u32
    requires together { AreOfOneArena runtime.old.held.state sender.old.held.state }
    ensures kept { StaysAt runtime.old runtime.new }
    ensures rested { LeavesRests runtime.old runtime.new }
    ensures cached { result ≡ 0 → CachesIn runtime.old runtime.new sender.old (ref_of class meta) sel imp.new }
    ensures unfilled { result ≢ 0 → runtime.new.held.state ≡ runtime.old.held.state }
    ensures arena { sender_arena sender.new.held.state ≡ sender_arena sender.old.held.state }
    ensures closed { runtime.old.held.state ≡ None → result ≡ CLOSED }
    ensures no_sender { sender.old.held.state ≡ None → result ≡ CLOSED }
    ensures left { result ≢ 0 → imp.new ≡ imp.old }
    ensures still { result ≢ 0 → sender.new.held.state ≡ sender.old.held.state }
    ensures unnoted { result ≢ 0 → sender.new.notes ≡ sender.old.notes }
    ensures others { HaveOthersOf (ref_of class meta) sel sender.old.notes sender.new.notes }
    ensures done { result ≡ 0 → IfAt runtime.old (λ h. imp.new ≡ lookup h (ref_of class meta) sel) }
    ensures listed { result ≡ 0 → IfAt runtime.old (λ h. imp.new ≤ last_imp h.origin.counts) }
    ensures front { result ≡ 0 → HasSeenAll sender.new runtime.old }
    ensures begins { result ≡ 0 → SeesMore sender.old sender.new }
    ensures noted { result ≡ 0 → HasNotedAt sender.new runtime.old (ref_of class meta) sel imp.new }
    ensures fault { HasSender sender.old → AnswersAsked runtime.old class sel result }
{
    let Some(mut held) = runtime.take(alloc) else {
        return CLOSED;
    };
    if !sender.is_open() {
        *runtime = RuntimeHandle::of(held);
        return CLOSED;
    }
    let mut asker = sender.held.take(alloc);
    let found = held.fill(&mut asker, &mut sender.notes, class, meta, sel);
    sender.held.put(asker);
    *runtime = RuntimeHandle::of(held);
    match found {
        Ok(found) => {
            *imp = found;
            DONE
        }
        Err(fault) => fault.number(),
    }
}

/// Brings a sender up to date: it has then seen all changes that were made, and finds nothing older
/// from then on.
#[unsafe(no_mangle)]
pub extern "C" fn msg_meet(
    alloc: Global,
    runtime: &mut RuntimeHandle,
    sender: &mut SenderHandle,
) -> u32
    requires together { AreOfOneArena runtime.old.held.state sender.old.held.state }
    ensures kept { StaysAt runtime.old runtime.new }
    ensures met { Meets runtime.old runtime.new sender.old }
    ensures arena { sender_arena sender.new.held.state ≡ sender_arena sender.old.held.state }
    ensures closed { runtime.old.held.state ≡ None → result ≡ CLOSED }
    ensures no_sender { sender.old.held.state ≡ None → result ≡ CLOSED }
    ensures left { result ≢ 0 → sender.new.held.state ≡ sender.old.held.state }
    ensures unrested { result ≢ 0 → runtime.new.held.state ≡ runtime.old.held.state }
    ensures was_open { HasRuntime runtime.old → HasSender sender.old → result ≡ 0 }
    ensures notes { sender.new.notes ≡ sender.old.notes }
    ensures begins { SeesMore sender.old sender.new }
    ensures front { result ≡ 0 → HasSeenAll sender.new runtime.old }
{
    let Some(mut held) = runtime.take(alloc) else {
        return CLOSED;
    };
    if !sender.is_open() {
        *runtime = RuntimeHandle::of(held);
        return CLOSED;
    }
    notes_are_of_longer_histories();
    let mut asker = sender.held.take(alloc);
    held.meet(&mut asker);
    sender.held.put(asker);
    *runtime = RuntimeHandle::of(held);
    DONE
}

/// The number of changes, which the sender has then seen. The call needs no lock, and loads one
/// shared word.
#[unsafe(no_mangle)]
pub extern "C" fn msg_refresh(alloc: Global, sender: &mut SenderHandle, count: &mut u64) -> u32
    ensures arena { sender_arena sender.new.held.state ≡ sender_arena sender.old.held.state }
    ensures closed { sender.old.held.state ≡ None → result ≡ CLOSED }
    ensures was_open { HasSender sender.old → result ≡ 0 }
    ensures left { result ≢ 0 → count.new ≡ count.old }
    ensures begins { SeesMore sender.old sender.new }
    ensures looked { LooksOnceMore sender.old sender.new }
    ensures notes { sender.new.notes ≡ sender.old.notes }
    ensures done { IfSeen sender.new (λ h. count.new ≡ length h.changes) }
{
    if !sender.is_open() {
        return CLOSED;
    }
    notes_are_of_longer_histories();
    let mut asker = sender.held.take(alloc);
    *count = asker.refresh();
    sender.held.put(asker);
    DONE
}
