//! Checks that what handles hold may go to another thread.

use crate::runtime::HostedRuntime;
use crate::sender::HostedSender;

// A call at a type requires that its values may go to another thread.
fn may_cross<T: Send>() {}

pub(crate) fn a_runtime_may_cross() {
    may_cross::<HostedRuntime>();
}

pub(crate) fn a_sender_may_cross() {
    may_cross::<HostedSender>();
}
