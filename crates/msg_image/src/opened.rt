//! The origin of an image's tables.

ghost use Rattle.std.specs.Prelude.{◌≡◌, ◌<◌, Some, IfOk, length, map, option_map, slice_get};
ghost use Rattle.msg_names.specs.Name.{colons_of};
ghost use Rattle.msg_names.specs.Numbering.{AreNames};
ghost use Rattle.msg_image.specs.declared.image.Imp.{Imp};

use crate::image::Imp;
use msg_form::MAX_ENTRIES;
use msg_names::{Names, Selector};
use msg_tables::{Counts, Limits};
use std::alloc::{AllocError, Global};

/// The most rows that the tables of a document may have at any time: as many as it may list.
pub const MAX_ROWS: u64 = MAX_ENTRIES as u64;

/// The number of changes of a document's tables that are accepted.
pub const MAX_CHANGES: u64 = 65_536;

/// The most senders that may run concurrently with a document's changes.
pub const MAX_SENDERS: u32 = 64;

/// The most words that the caches of a document's classes may use.
pub const MAX_WORDS: u32 = 1_048_576;

// The number of arguments that a selector takes.
fn colons_at(names: &Names, index: usize) -> u8
    requires inside { index < length names.now }
    requires names { AreNames names.now }
    ensures { option_map colons_of (slice_get names.now index) ≡ Some result }
{
    let selector = Selector::of(index as u32 + 1).unwrap();
    names.colons(selector).unwrap()
}

fn colon_counts(alloc: Global, names: &Names) -> Result<Vec<u8>, AllocError>
    ensures { IfOk result (λ colons. colons.items ≡ map colons_of names.now) }
{
    let count = names.len();
    let mut colons = Vec::with_capacity(alloc, count)?;
    for index in 0..count {
        colons.push(colons_at(names, index))?;
    }
    Ok(colons)
}

fn argument_counts(alloc: Global, imps: &[Imp]) -> Result<Vec<u8>, AllocError>
    ensures { IfOk result (λ args. args.items ≡ map (λ (m : Imp). m.args) imps.now) }
{
    let mut args = Vec::with_capacity(alloc, imps.len())?;
    for imp in imps {
        args.push(imp.args)?;
    }
    Ok(args)
}

// The numbers of arguments that selectors and implementations take.
pub(crate) fn counts(alloc: Global, names: &Names, imps: &[Imp]) -> Result<Counts, AllocError>
    ensures colons { IfOk result (λ counts. counts.colons ≡ map colons_of names.now) }
    ensures args { IfOk result (λ counts. counts.args ≡ map (λ (m : Imp). m.args) imps.now) }
{
    let colons = colon_counts(alloc, names)?;
    let args = argument_counts(alloc, imps)?;
    Ok(Counts::new(colons, args))
}

// The limits of a document.
pub(crate) fn limits() -> Limits
    ensures { result ≡ record { rows = MAX_ROWS; changes = MAX_CHANGES; senders = MAX_SENDERS; words = MAX_WORDS } }
{
    Limits {
        rows: MAX_ROWS,
        changes: MAX_CHANGES,
        senders: MAX_SENDERS,
        words: MAX_WORDS,
    }
}
