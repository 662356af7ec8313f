//! A document whose items are given.

use std::alloc::Global;
use std::process::Abort;

// The document with these items in place of its own, which come last in it.
pub(crate) fn with_items(rt: &impl Abort, alloc: Global, document: &str, items: &str) -> String {
    let list = r#""items":["#;
    let (before, _own) = document.split_once(list).expect(rt, "no items");
    format!(in alloc; "{before}{list}{items}]}}").expect(rt, "memory")
}
