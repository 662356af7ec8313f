//! Texts with numbers.

use crate::texts::Texts;
use std::process::Abort;

fn interned(rt: &impl Abort, texts: &mut Texts, text: &[u8]) -> u32 {
    texts.intern(text).expect(rt, "there is memory")
}

#[test]
fn texts_have_numbers_in_the_order_in_which_they_come(rt: HostRuntime) {
    let mut texts = Texts::new(rt.alloc());
    assert_eq!(&rt; interned(&rt, &mut texts, b"value"), 1);
    assert_eq!(&rt; interned(&rt, &mut texts, b"not a selector's name"), 2);
    assert_eq!(&rt; interned(&rt, &mut texts, b"\xff\x00"), 3);
    assert_eq!(&rt; interned(&rt, &mut texts, b"value"), 1);
    assert_eq!(&rt; interned(&rt, &mut texts, b""), 4);
    assert_eq!(&rt; texts.len(), 4);
    assert_eq!(&rt; texts.find(b"\xff\x00"), Some(3));
    assert_eq!(&rt; texts.find(b"valu"), None);
    assert_eq!(&rt; texts.text(3), Some(&b"\xff\x00"[..]));
    assert_eq!(&rt; texts.text(5), None);
    assert_eq!(&rt; texts.text(0), None);
}

#[test]
fn there_is_room_for_more_than_a_document_has(rt: HostRuntime) {
    let mut texts = Texts::new(rt.alloc());
    for number in 0..5_000_u32 {
        assert_eq!(&rt;
            interned(&rt, &mut texts, &number.to_le_bytes()),
            number + 1
        );
    }
    assert_eq!(&rt; texts.find(&4_999_u32.to_le_bytes()), Some(5_000));
}

#[test]
fn colons_are_counted(rt: HostRuntime) {
    let mut texts = Texts::new(rt.alloc());
    interned(&rt, &mut texts, b"value");
    interned(&rt, &mut texts, b"setValue:forKey:");
    interned(&rt, &mut texts, b":\x00:\xba:");
    assert_eq!(&rt; texts.colons(1), Some(0));
    assert_eq!(&rt; texts.colons(2), Some(2));
    assert_eq!(&rt; texts.colons(3), Some(3));
    assert_eq!(&rt; texts.colons(4), None);
    assert_eq!(&rt; texts.colons(0), None);
}
