//! Documents, edits of them, and the number of the fault that one is refused with. Lack of memory
//! ends a test where it comes: a `?` there would drop each text that the test owns once more.

use crate::same::same_at;
use msg_image::{DocumentFault, read_document};
use msg_samples::{Readings, read_by_both};
use std::alloc::Global;
use std::process::Abort;

/// A document with each form of a part, an item and a change.
pub(crate) const FULL: &str = r#"{"version":1,"classes":[
{"name":"Root","super":null,"methods":[["value","r_value"],["down:","r_down"]],"class_methods":[["make","r_make"]]},
{"name":"Child","super":"Root","methods":[["name","c_name"]],"class_methods":[]}],
"categories":[{"class":"Child","methods":[["tag","c_tag"]],"class_methods":[["kind","c_kind"]]}],
"objects":[{"name":"c","class":"Child"},{"name":"r","class":"Root"}],
"imps":[
{"name":"r_value","class":"Root","meta":false,"args":0,"body":7},
{"name":"r_down","class":"Root","meta":false,"args":1,"body":
 ["if",["arg",0],["send",["self"],"down:",["sub",["arg",0],1]],["obj","r"]]},
{"name":"r_make","class":"Root","meta":true,"args":0,"body":["self"]},
{"name":"c_name","class":"Child","meta":false,"args":0,"body":["add",10,["super","value"]]},
{"name":"c_tag","class":"Child","meta":false,"args":0,"body":["eq",["class","Root"],["sel","other"]]},
{"name":"c_kind","class":"Child","meta":true,"args":0,"body":["mul",["lt",1,2],null]}],
"items":[
{"send":[["obj","c"],"value"]},
{"send":[["class","Child"],"down:",["sel","seen"]]},
{"change":["add","Child",false,"more","r_value"]},
{"change":["replace","Root",true,"less","r_make"]},
{"change":["set","Root",false,"value","r_value"]},
{"change":["exchange","Child",false,"name","Root",true,"make"]},
{"change":["attach","Root",[["top","r_value"]],[["low","r_make"]]]}]}"#;

/// A document without parts.
pub(crate) const EMPTY: &str =
    r#"{"version":1,"classes":[],"categories":[],"objects":[],"imps":[],"items":[]}"#;

/// A document of version 3, whose item makes a class and attaches a category to it as one change.
pub(crate) const THIRD: &str = r#"{"version":3,
"classes":[{"name":"Root","super":null,"methods":[["value","r_value"]],"class_methods":[]}],"made":["Late"],"categories":[],
"objects":[],"imps":[{"name":"r_value","class":"Root","meta":false,"args":0,"body":7}],
"items":[{"change":["all",["make","Late","Root"],["attach","Late",[["more","r_value"]],[]]]}]}"#;

/// The body of an implementation without arguments, in both documents.
pub(crate) const BODY: &str = r#""body":7"#;

// Texts up to this length are read by `serde_json` too.
const SHORT: usize = 20_000;

/// The number of the fault that a document is refused with; 0 where `serde_json` makes something
/// else of the text than `msg_json`.
pub(crate) fn number(alloc: Global, text: &[u8]) -> Option<u32> {
    if text.len() <= SHORT && read_by_both(alloc, text) == Readings::Different {
        return Some(0);
    }
    read_document(alloc, text).err().map(DocumentFault::number)
}

/// The text with `new` in place of its first `old`.
pub(crate) fn edited(rt: &impl Abort, alloc: Global, text: &str, old: &str, new: &str) -> String {
    let (before, after) = text.split_once(old).expect(rt, "a text to edit");
    format!(in alloc; "{before}{new}{after}").expect(rt, "memory")
}

/// The piece this number of times, with commas.
pub(crate) fn listed(rt: &impl Abort, alloc: Global, piece: &str, count: usize) -> String {
    let mut text = String::new(alloc);
    for place in 0..count {
        if place > 0 {
            text.push(',').expect(rt, "memory");
        }
        text.push_str(piece).expect(rt, "memory");
    }
    text
}

/// The middle inside so many of `before` and `after`.
pub(crate) fn nested(
    rt: &impl Abort,
    alloc: Global,
    before: &str,
    middle: &str,
    after: &str,
    count: usize,
) -> String {
    let opening = before.repeat(alloc, count).expect(rt, "memory");
    let closing = after.repeat(alloc, count).expect(rt, "memory");
    format!(in alloc; "{opening}{middle}{closing}").expect(rt, "memory")
}

/// The edit of the text gives the answer.
pub(crate) fn edit_is(
    rt: &impl Abort,
    alloc: Global,
    document: &str,
    want: Option<u32>,
    old: &str,
    new: &str,
) {
    let text = edited(rt, alloc, document, old, new);
    same_at(rt, &new, number(alloc, text.as_bytes()), want);
}
