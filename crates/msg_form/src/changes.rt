//! The changes of an item.

ghost use Rattle.std.specs.Prelude.{◌≡◌};
ghost use Rattle.msg_form.specs.Form.{changes_of};
ghost use Rattle.msg_form.specs.Views.{changes_view, item_view};

use crate::form::{Change, Item};
use std::slice;

impl<'v> Item<'v> {
    /// Its changes, in their order.
    pub(crate) fn changes(&self) -> &[Change<'v>]
        ensures { changes_view result.now ≡ changes_of (item_view self.now) }
    {
        match self {
            Item::Send { .. } => &[],
            Item::Change(change) => slice::from_ref(change),
            Item::ChangeAll(changes) => changes,
        }
    }
}
