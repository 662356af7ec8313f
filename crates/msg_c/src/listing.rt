//! Several changes as one.

ghost use Rattle.std.specs.Prelude.{◌≡◌, ◌≢◌, ◌<◌, ◌≤◌, ◌*◌, ◌⊎◌, None, length, take};
ghost use Rattle.msg_cache.specs.Views.{classes};
ghost use Rattle.msg_host.specs.Asking.{IsRefusal, want_of_memory, want_of_room};
ghost use Rattle.msg_host.specs.Listing.{UndoesRows, WeighRows};
ghost use Rattle.msg_c.specs.Answers.{runtime_arena};
ghost use Rattle.msg_c.specs.Handles.{FlushesRowsIn, IfOpen, KeepsRoomIn, LacksMemoryIn, Leaves, LeavesNumbers, LeavesRests, MakesRowsIn};
ghost use Rattle.msg_c.specs.Handles.{ReachesRowsIn, RefusesReachIn, RefusesRowsIn, TakesBackIn};

use crate::answer::CLOSED;
use crate::runtime_handle::RuntimeHandle;
use msg_host::ChangeRow;
use std::alloc::Global;

/// Makes changes as one: each lookup, by any sender, is from before all of them or from after all.
/// The count of changes is one more. Returns 0, or the number of the fault of the first change that
/// would be refused after those before it were made. Its place is then written, from 0, and nothing
/// has changed. The same holds if a row means no change (67, 75), which is found before any change
/// is made, and if memory is lacking (7). With no rows nothing is made, and the count stays the
/// same. The room for what the changes write is allocated first.
#[unsafe(no_mangle)]
pub extern "C" fn msg_change_all(
    alloc: Global,
    runtime: &mut RuntimeHandle,
    changes: &[ChangeRow],
    place: &mut usize,
) -> u32
    ensures arena { runtime_arena runtime.new.held.state ≡ runtime_arena runtime.old.held.state }
    ensures given { LeavesNumbers runtime.old runtime.new }
    ensures rested { LeavesRests runtime.old runtime.new }
    ensures closed { runtime.old.held.state ≡ None → (result ≡ CLOSED) × (place.new ≡ place.old) }
    ensures left { result ≢ 0 → Leaves runtime.old runtime.new }
    ensures made { result ≡ 0 → MakesRowsIn changes.now runtime.old runtime.new }
    ensures keeps_room { result ≡ 0 → KeepsRoomIn runtime.old runtime.new }
    ensures flushed { result ≡ 0 → FlushesRowsIn changes.now runtime.old runtime.new }
    ensures kept { result ≡ 0 → place.new ≡ place.old }
    ensures place { result ≢ 0 → IfOpen runtime.old (λ v. place.new < length changes.now) }
    ensures fault { result ≢ 0 → result ≢ want_of_memory → RefusesRowsIn runtime.old changes.now place.new result }
    ensures memory { LacksMemoryIn runtime.old changes.now place.new result }
{
    let Some(mut held) = runtime.take(alloc) else {
        return CLOSED;
    };
    let answer = held.make_all(changes, place);
    *runtime = RuntimeHandle::of(held);
    answer
}

/// Does the same as `msg_change_all`, and writes the changes that take these back directly after
/// them, made as one too. Their number is written. If `undo` has fewer places, 76 is returned and
/// nothing is done, and the number is the one that is needed. There is one change for each method
/// that is added, rewritten or removed, and for each class that is made or disposed of.
#[unsafe(no_mangle)]
pub extern "C" fn msg_change_all_with_undo(
    alloc: Global,
    runtime: &mut RuntimeHandle,
    changes: &[ChangeRow],
    undo: &mut [ChangeRow],
    undone: &mut usize,
    place: &mut usize,
) -> u32
    ensures arena { runtime_arena runtime.new.held.state ≡ runtime_arena runtime.old.held.state }
    ensures given { LeavesNumbers runtime.old runtime.new }
    ensures rested { LeavesRests runtime.old runtime.new }
    ensures closed { runtime.old.held.state ≡ None → (result ≡ CLOSED) × (place.new ≡ place.old) }
    ensures left { result ≢ 0 → Leaves runtime.old runtime.new }
    ensures made { result ≡ 0 → MakesRowsIn changes.now runtime.old runtime.new }
    ensures keeps_room { result ≡ 0 → KeepsRoomIn runtime.old runtime.new }
    ensures flushed { result ≡ 0 → FlushesRowsIn changes.now runtime.old runtime.new }
    ensures undo { result ≡ 0 → IfOpen runtime.old (λ v. UndoesRows changes.now v.keeper.history undo.new undone.new) }
    ensures back { result ≡ 0 → TakesBackIn (take undone.new undo.new) runtime.old runtime.new }
    ensures room { result ≡ want_of_room → length undo.old < undone.new }
    ensures wanted { result ≡ want_of_room
        → IfOpen runtime.old (λ v. WeighRows changes.now v.keeper.history undone.new) }
    ensures within { result ≡ 0 → undone.new ≤ length undo.new }
    ensures unwritten { result ≢ 0 → undo.new ≡ undo.old }
    ensures untold { result ≢ 0 → result ≢ want_of_room → undone.new ≡ undone.old }
    ensures kept { (result ≡ 0) ⊎ (result ≡ want_of_room) → place.new ≡ place.old }
    ensures place { result ≢ 0 → result ≢ want_of_room → IfOpen runtime.old (λ v. place.new < length changes.now) }
    ensures fault { IsRefusal result → RefusesRowsIn runtime.old changes.now place.new result }
    ensures memory { LacksMemoryIn runtime.old changes.now place.new result }
{
    let Some(mut held) = runtime.take(alloc) else {
        return CLOSED;
    };
    let answer = held.make_all_with_undo(changes, undo, undone, place);
    *runtime = RuntimeHandle::of(held);
    answer
}

/// Marks the class references whose lookups the changes may alter if they are made as one, in
/// addition to those that are marked. It makes no change, and no lookup outside what is marked
/// would be altered. A class has its place at twice its number, and its metaclass has the next. If
/// there aren't that many places, 76 is returned and nothing is marked. Returns 0, or the number of
/// the fault for which `msg_change_all` would refuse the changes, with its place. What the changes
/// before it may alter is then marked. After 67 and 75 nothing is marked, and if memory is lacking
/// (7) the marks say nothing.
#[unsafe(no_mangle)]
pub extern "C" fn msg_reach(
    alloc: Global,
    runtime: &mut RuntimeHandle,
    changes: &[ChangeRow],
    reached: &mut [bool],
    place: &mut usize,
) -> u32
    ensures same { Leaves runtime.old runtime.new }
    ensures closed { runtime.old.held.state ≡ None
        → (result ≡ CLOSED) × (reached.new ≡ reached.old) × (place.new ≡ place.old) }
    ensures reached { result ≡ 0 → ReachesRowsIn runtime.old changes.now reached.old reached.new }
    ensures room { IfOpen runtime.old (λ v. length reached.old ≢ 2 * classes v.arena → result ≡ want_of_room) }
    ensures short { result ≡ want_of_room → IfOpen runtime.old (λ v. length reached.old ≢ 2 * classes v.arena) }
    ensures unmarked { result ≡ want_of_room → reached.new ≡ reached.old }
    ensures kept { (result ≡ 0) ⊎ (result ≡ want_of_room) → place.new ≡ place.old }
    ensures place { result ≢ 0 → result ≢ want_of_room → IfOpen runtime.old (λ v. place.new < length changes.now) }
    ensures fault { IsRefusal result → RefusesReachIn runtime.old changes.now place.new result reached.old reached.new }
    ensures memory { LacksMemoryIn runtime.old changes.now place.new result }
{
    let Some(mut held) = runtime.take(alloc) else {
        return CLOSED;
    };
    let answer = held.reach_rows(changes, reached, place);
    *runtime = RuntimeHandle::of(held);
    answer
}
