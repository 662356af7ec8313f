//! A document that is read once and answered by one call, as a host in Rust does.

use crate::runs::document;
use crate::same::same_at;
use msg_image::read_document;
use msg_runner::{Changes, OpenGate, answer_document};
use std::process::Abort;

// A send, a change of what it finds, and the send again: 7, and then 1.
const ITEMS: &str = r#"{"send":[["obj","g"],"value"]},
{"change":["replace","Root",false,"value","r_name"]},{"send":[["obj","g"],"value"]}"#;

#[test]
fn a_document_is_answered_by_one_call(rt: HostRuntime) {
    let text = document(&rt, rt.alloc(), ITEMS);
    let document = read_document(rt.alloc(), text.as_bytes()).expect(&rt, "a document");
    for workers in 1..4u32 {
        let gate = OpenGate;
        let lines = answer_document(
            &rt,
            rt.alloc(),
            &gate,
            &document,
            Changes::Between,
            workers,
            1,
        );
        let lines = lines.expect(&rt, "memory");
        same_at(&rt, &workers, lines.as_slice(), b"7\nok\n1\n");
    }
}
