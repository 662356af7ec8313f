//! Types by their encodings.

use crate::encodings::{msg_type_first, msg_type_member};

#[test]
fn a_type_is_measured(rt: HostRuntime) {
    let mut size = 0;
    let mut align = 0;
    assert_eq!(&rt; msg_type_first(b"{inner=cs}8@0", &mut size, &mut align), 10);
    assert_eq!(&rt; (size, align), (4, 2));
    assert_eq!(&rt; msg_type_first(b"", &mut size, &mut align), 0);
    assert_eq!(&rt; (size, align), (0, 1));
}

#[test]
fn a_member_is_placed(rt: HostRuntime) {
    let (mut begin, mut end, mut first, mut last, mut align) = (7, 7, 7, 7, 7);
    assert_eq!(&rt;
        msg_type_member(
            b"\"s\"s}", 8, &mut begin, &mut end, &mut first, &mut last, &mut align
        ),
        0
    );
    assert_eq!(&rt; (begin, end), (3, 4));
    assert_eq!(&rt; (first, last, align), (16, 32, 2));
    assert_eq!(&rt;
        msg_type_member(
            b"}", 8, &mut begin, &mut end, &mut first, &mut last, &mut align
        ),
        70
    );
    assert_eq!(&rt; (begin, end), (3, 4));
}
