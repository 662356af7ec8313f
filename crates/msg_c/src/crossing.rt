//! Checks that handles may go to another thread.

use crate::runtime_handle::RuntimeHandle;
use crate::sender_handle::SenderHandle;
use crate::texts_handle::TextsHandle;

// A call at a type requires that its values may go to another thread.
fn may_cross<T: Send>() {}

pub(crate) fn a_runtime_may_cross() {
    may_cross::<RuntimeHandle>();
}

pub(crate) fn a_sender_may_cross() {
    may_cross::<SenderHandle>();
}

pub(crate) fn texts_may_cross() {
    may_cross::<TextsHandle>();
}
