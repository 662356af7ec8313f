//! Changes of a document, made in tables.

ghost use Rattle.std.specs.Prelude.{IfOk};
ghost use Rattle.msg_image.specs.Items.{ChangeItem, ChangeAllItem};
ghost use Rattle.msg_reasons.specs.Changing.{IsChanged, IsMadeOrRefused, KeepsSizes};

use msg_answers::Outcome;
use msg_tables::{Change, ChangeFault, Refused, Tables, Written};
use std::alloc::AllocError;
use std::slice::from_ref;

// Makes changes as one, or returns the first that would be refused.
fn make(
    tables: &mut Tables,
    changes: &[Change],
    written: &mut Written,
) -> Result<Option<Refused>, AllocError>
    ensures made { IfOk result (IsMadeOrRefused changes.now tables.old tables.new) }
    ensures sizes { KeepsSizes tables.old tables.new }
{
    match tables.apply_all(&changes, written) {
        Ok(()) => Ok(None),
        Err(refused) => match refused.fault {
            ChangeFault::Memory => Err(AllocError),
            _ => Ok(Some(refused)),
        },
    }
}

// Makes a change, and returns its outcome.
pub(crate) fn change_one(
    tables: &mut Tables,
    change: &Change,
    written: &mut Written,
) -> Result<Outcome, AllocError>
    ensures changed { IfOk result (IsChanged (ChangeItem change.now) tables.old tables.new) }
    ensures sizes { KeepsSizes tables.old tables.new }
{
    match make(tables, from_ref(change), written)? {
        None => Ok(Outcome::Made),
        Some(refused) => Ok(Outcome::Refused(refused.fault)),
    }
}

// Makes changes as one, and returns their outcome.
pub(crate) fn change_as_one(
    tables: &mut Tables,
    changes: &[Change],
    written: &mut Written,
) -> Result<Outcome, AllocError>
    ensures changed { IfOk result (IsChanged (ChangeAllItem changes.now) tables.old tables.new) }
    ensures sizes { KeepsSizes tables.old tables.new }
{
    match make(tables, changes, written)? {
        None => Ok(Outcome::Made),
        Some(refused) => Ok(Outcome::RefusedAt(refused)),
    }
}
