//! The versions at which a run beside changes answers its lookups.

ghost use Rattle.std.specs.Prelude.{◌≤◌, length};
ghost use Rattle.msg_image.specs.DocumentParts.{document_parts};
ghost use Rattle.msg_io.specs.Reading.{IsSoundDocument};

use crate::changes::Changes;
use crate::document::answer_document;
use crate::gate::Gate;
use msg_image::{Document, MAX_ITEMS};
use std::alloc::{AllocError, Global};
use std::sync::{Mutex, Wait};
use std::thread::Threads;

// The number of sends in a piece. With one worker it has no effect.
const CUT: u32 = 64;

// The versions of a worker's lookups.
#[derive(Drop)]
struct Versions {
    all: Vec<u64>,
    // Whether there was memory for all of them.
    are_whole: bool,
}

// The gate that notes them.
#[derive(Drop)]
struct Witness<'r, R: Wait> {
    rt: &'r R,
    versions: Mutex<Versions>,
}

impl<R: Wait + Sync> Gate for Witness<'_, R> {
    fn piece_starts(&self, _worker: u32, _piece: u32) {}

    fn piece_done(&self, _worker: u32, _piece: u32) {}

    fn change_starts(&self, _change: u32) {}

    fn change_done(&self, _change: u32) {}

    fn is_watching(&self) -> bool {
        true
    }

    fn looked(&self, version: u64) {
        let mut versions = self.versions.lock(self.rt);
        if versions.all.push(version).is_err() {
            versions.are_whole = false;
        }
    }
}

/// Answers a document by one worker, and makes its changes while the sends are answered. Also
/// returns the version at which each lookup was answered, in their order. A version is the number
/// of items of changes that were made before the lookup.
///
/// The versions are what was observed in the run: no clause says more about them. The explanation
/// that `explain_beside` of `msg_reasons` makes from them is right for any versions.
pub fn versions_beside<T: Threads + Wait + Sync>(
    rt: &T,
    alloc: Global,
    document: &Document,
) -> Result<Vec<u64>, AllocError>
    requires sound { IsSoundDocument (document_parts document.now) }
    requires few { length document.now.items.items ≤ MAX_ITEMS }
{
    let witness = Witness {
        rt,
        versions: Mutex::new(Versions {
            all: Vec::new(alloc),
            are_whole: true,
        }),
    };
    let _text = answer_document(rt, alloc, &witness, document, Changes::Beside, 1, CUT)?;
    let Witness { versions, .. } = witness;
    let versions = versions.into_inner();
    if versions.are_whole {
        Ok(versions.all)
    } else {
        Err(AllocError)
    }
}
