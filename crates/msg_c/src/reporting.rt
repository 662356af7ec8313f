//! What was done to a runtime's caches.

ghost use Rattle.std.specs.Prelude.{◌≡◌, ◌≢◌, ◌<◌, ℕ, Some, None, length};
ghost use Rattle.msg_cache.specs.Counts.{AreCounts};
ghost use Rattle.msg_host.specs.Config.{word_at};
ghost use Rattle.msg_runtime.specs.View.{RuntimeView};
ghost use Rattle.msg_c.specs.Handles.{IfOpen};
ghost use Rattle.msg_c.specs.Shown.{IsShown, counts_of};

use crate::answer::{CLOSED, DONE};
use crate::runtime_handle::RuntimeHandle;
use msg_cache::Report;
use std::alloc::Global;

// The number of counts in a report.
const COUNTS: usize = 17;

// The counts of a report, in the order of `struct msg_report_row` of C.
fn counts(report: Report) -> [u64; COUNTS]
    ensures { result ≡ counts_of report }
{
    let no_array = report.no_array;
    [
        report.fills,
        report.growths,
        report.flushes,
        report.retired,
        report.given_again,
        report.collections,
        report.freed,
        no_array[0],
        no_array[1],
        no_array[2],
        no_array[3],
        no_array[4],
        no_array[5],
        no_array[6],
        no_array[7],
        no_array[8],
        report.refused_senders,
    ]
}

// The count at a place, or 0 beyond the last.
fn count_at(counts: &[u64; COUNTS], place: usize) -> u64
    ensures { result ≡ word_at counts.now place }
{
    if place < COUNTS { counts[place] } else { 0 }
}

// Writes as many counts as there is room for, and 0 beyond the last.
fn write(counts: &[u64; COUNTS], words: &mut [u64])
    ensures { (place : ℕ) → place < length words.new → word_at words.new place ≡ word_at counts.now place }
{
    for place in 0..words.len() {
        words[place] = count_at(counts, place);
    }
}

/// Writes what was done to caches since the runtime was opened: the fields of `struct
/// msg_report_row` of C, one after another, as many as there is room for. Words beyond the known
/// fields are 0.
#[unsafe(no_mangle)]
pub extern "C" fn msg_report_words(
    alloc: Global,
    runtime: &mut RuntimeHandle,
    words: &mut [u64],
) -> u32
    ensures kept { runtime.new.held.state ≡ runtime.old.held.state }
    ensures closed { runtime.old.held.state ≡ None → result ≡ CLOSED }
    ensures left { result ≢ 0 → words.new ≡ words.old }
    ensures open { (v : RuntimeView) → runtime.old.held.state ≡ Some v → result ≡ 0 }
    ensures done { result ≡ 0 → IfOpen runtime.old (λ v. AreCounts v.report × IsShown words.new v.report) }
{
    let Some(held) = runtime.take(alloc) else {
        return CLOSED;
    };
    write(&counts(held.report()), words);
    *runtime = RuntimeHandle::of(held);
    DONE
}
