//! What follows from what a runtime's calls say.

ghost use Rattle.msg_runtime.specs.Resting.{NoLaterIsOlder};

/// After each sender has seen a number of changes, no later lookup of any sender is from before
/// these changes: it is at a history that begins with what the sender has seen.
pub fn no_later_lookup_is_older_than_what_all_have_seen()
    ensures { NoLaterIsOlder }
{}
