//! Sizes, ends and members, as GCC gives them on x86-64.

use crate::{Member, first_type, next_member};

fn sized(text: &[u8]) -> (u64, u64, usize) {
    let found = first_type(text);
    (found.size, found.align, found.end)
}

#[test]
fn a_letter_has_its_size(rt: HostRuntime) {
    assert_eq!(&rt; sized(b"c8"), (1, 1, 1));
    assert_eq!(&rt; sized(b"rs"), (2, 2, 2));
    assert_eq!(&rt; sized(b"D"), (16, 16, 1));
    assert_eq!(&rt; sized(b"@\"NSString\"16"), (8, 8, 11));
    assert_eq!(&rt; sized(b"@?8"), (8, 8, 2));
    assert_eq!(&rt; sized(b"_"), (0, 1, 1));
    assert_eq!(&rt; sized(b""), (0, 1, 0));
}

#[test]
fn a_structure_has_the_size_of_its_members(rt: HostRuntime) {
    assert_eq!(&rt; sized(b"{inner=cs}"), (4, 2, 10));
    assert_eq!(&rt; sized(b"{n=\"a\"c\"b\"d\"c\"[3s]}8"), (24, 8, 19));
    assert_eq!(&rt; sized(b"(u=i[7c])"), (8, 4, 9));
    assert_eq!(&rt; sized(b"{n=cb8i3b11i20}"), (4, 4, 15));
    assert_eq!(&rt; sized(b"{name}"), (0, 1, 6));
    assert_eq!(&rt; sized(b"^{a=i[3(b=fc)]}8@0"), (8, 8, 15));
    assert_eq!(&rt; sized(b"jf"), (8, 4, 2));
    assert_eq!(&rt; sized(b"![16,8f]q"), (16, 8, 8));
}

#[test]
fn what_is_broken_is_read_to_its_end(rt: HostRuntime) {
    assert_eq!(&rt; sized(b"{a=i"), (4, 4, 4));
    assert_eq!(&rt; sized(b"[99999999999999999999i]"), (268_435_456, 4, 23));
    assert_eq!(&rt; sized(b"@\"NSS"), (8, 8, 5));
}

#[test]
fn members_come_one_by_one(rt: HostRuntime) {
    let text = b"\"c\"cs}";
    assert_eq!(&rt;
        next_member(text, 0),
        Some(Member {
            begin: 3,
            end: 4,
            first: 0,
            last: 8,
            align: 1
        })
    );
    assert_eq!(&rt;
        next_member(b"s}", 8),
        Some(Member {
            begin: 0,
            end: 1,
            first: 16,
            last: 32,
            align: 2
        })
    );
    assert_eq!(&rt;
        next_member(b"b192i3}", 100),
        Some(Member {
            begin: 0,
            end: 6,
            first: 192,
            last: 195,
            align: 4
        })
    );
    assert_eq!(&rt; next_member(b"}", 16), None);
    assert_eq!(&rt; next_member(b"\"n\"", 16), None);
}
