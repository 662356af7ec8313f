//! Texts: each call once on its happy path, and each fault once. `rt try --test --fail-alloc N`
//! refuses the Nth allocation.

use crate::answer::{ALREADY_OPEN, CLOSED, DONE, NO_MEMORY, NONE};
use crate::same::{answers, same};
use crate::texts::{
    msg_texts_close, msg_texts_colons, msg_texts_find, msg_texts_intern, msg_texts_open,
    msg_texts_text,
};
use crate::texts_handle::TextsHandle;
use std::alloc::Global;
use std::process::Abort;
use std::test::Fail;

fn opened<R: Abort>(rt: &R, alloc: Global) -> TextsHandle {
    let mut texts = TextsHandle::closed(alloc);
    if msg_texts_open(alloc, &mut texts) == NO_MEMORY {
        answers(rt, msg_texts_open(alloc, &mut texts), DONE);
    }
    texts
}

// Interns a text and returns its number, even if memory is lacking at first. Nothing has changed
// then.
fn interned<R: Abort>(rt: &R, alloc: Global, texts: &mut TextsHandle, text: &[u8]) -> u32 {
    let mut number = 99;
    if msg_texts_intern(alloc, texts, text, &mut number) == NO_MEMORY {
        answers(rt, number, 99);
        answers(rt, msg_texts_find(alloc, texts, text, &mut number), NONE);
        answers(rt, msg_texts_intern(alloc, texts, text, &mut number), DONE);
    }
    number
}

fn finds<R: Abort>(rt: &R, alloc: Global, texts: &mut TextsHandle, text: &[u8], number: u32) {
    let mut found = 99;
    answers(rt, msg_texts_find(alloc, texts, text, &mut found), DONE);
    answers(rt, found, number);
}

#[test]
fn texts_have_numbers_in_the_order_in_which_they_come(rt: HostRuntime) -> Result<(), Fail> {
    let alloc = rt.alloc();
    let mut texts = opened(&rt, alloc);
    answers(&rt, interned(&rt, alloc, &mut texts, b"value"), 1);
    answers(
        &rt,
        interned(&rt, alloc, &mut texts, b"setValue:forKey:"),
        2,
    );
    answers(&rt, interned(&rt, alloc, &mut texts, b""), 3);
    answers(&rt, interned(&rt, alloc, &mut texts, b"value"), 1);
    finds(&rt, alloc, &mut texts, b"setValue:forKey:", 2);
    finds(&rt, alloc, &mut texts, b"", 3);
    let mut number = 99;
    answers(
        &rt,
        msg_texts_find(alloc, &mut texts, b"valu", &mut number),
        NONE,
    );
    answers(&rt, number, 99);
    Ok(())
}

#[test]
fn a_text_is_written_where_there_is_room(rt: HostRuntime) -> Result<(), Fail> {
    let alloc = rt.alloc();
    let mut texts = opened(&rt, alloc);
    interned(&rt, alloc, &mut texts, b"a:b");
    let (mut into, mut size) = ([b'-'; 4], 99);
    answers(
        &rt,
        msg_texts_text(alloc, &mut texts, 1, &mut into, &mut size),
        DONE,
    );
    same(&rt, into, *b"a:b-");
    same(&rt, size, 3);
    let mut little = [b'-'; 2];
    answers(
        &rt,
        msg_texts_text(alloc, &mut texts, 1, &mut little, &mut size),
        DONE,
    );
    same(&rt, little, *b"a:");
    same(&rt, size, 3);
    for number in [0, 2] {
        size = 99;
        answers(
            &rt,
            msg_texts_text(alloc, &mut texts, number, &mut into, &mut size),
            NONE,
        );
        same(&rt, into, *b"a:b-");
        same(&rt, size, 99);
    }
    Ok(())
}

#[test]
fn colons_are_counted(rt: HostRuntime) -> Result<(), Fail> {
    let alloc = rt.alloc();
    let mut texts = opened(&rt, alloc);
    interned(&rt, alloc, &mut texts, b"value");
    interned(&rt, alloc, &mut texts, b":setValue:forKey:");
    let mut count = 99;
    answers(
        &rt,
        msg_texts_colons(alloc, &mut texts, 3, &mut count),
        NONE,
    );
    same(&rt, count, 99);
    answers(
        &rt,
        msg_texts_colons(alloc, &mut texts, 1, &mut count),
        DONE,
    );
    same(&rt, count, 0);
    answers(
        &rt,
        msg_texts_colons(alloc, &mut texts, 2, &mut count),
        DONE,
    );
    same(&rt, count, 3);
    Ok(())
}

#[test]
fn texts_open_once_and_close_once(rt: HostRuntime) -> Result<(), Fail> {
    let alloc = rt.alloc();
    let mut texts = opened(&rt, alloc);
    interned(&rt, alloc, &mut texts, b"value");
    answers(&rt, msg_texts_open(alloc, &mut texts), ALREADY_OPEN);
    finds(&rt, alloc, &mut texts, b"value", 1);
    answers(&rt, msg_texts_close(alloc, &mut texts), DONE);
    answers(&rt, msg_texts_close(alloc, &mut texts), CLOSED);
    Ok(())
}

#[test]
fn closed_texts_answer_nothing(rt: HostRuntime) -> Result<(), Fail> {
    let alloc = rt.alloc();
    let mut texts = TextsHandle::closed(alloc);
    let (mut number, mut size, mut into) = (99, 99, [b'-'; 2]);
    answers(
        &rt,
        msg_texts_intern(alloc, &mut texts, b"value", &mut number),
        CLOSED,
    );
    answers(
        &rt,
        msg_texts_find(alloc, &mut texts, b"value", &mut number),
        CLOSED,
    );
    answers(
        &rt,
        msg_texts_text(alloc, &mut texts, 1, &mut into, &mut size),
        CLOSED,
    );
    answers(
        &rt,
        msg_texts_colons(alloc, &mut texts, 1, &mut size),
        CLOSED,
    );
    answers(&rt, number, 99);
    same(&rt, size, 99);
    same(&rt, into, [b'-'; 2]);
    Ok(())
}
