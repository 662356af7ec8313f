//! The counts of a report.

use msg_cache::Report;

// The counts of entries and arrays in a report.
pub(crate) fn five(report: Report) -> [u64; 5] {
    [
        report.fills,
        report.growths,
        report.flushes,
        report.retired,
        report.given_again,
    ]
}
