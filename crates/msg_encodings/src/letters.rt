//! The letters of an encoding.

ghost use Rattle.std.specs.Prelude.{◌≡◌, ◌≤◌};
ghost use Rattle.msg_encodings.specs.Letters.{kind, size_of};

/// The largest size and the largest alignment, in bytes.
pub const LARGEST: u64 = 268_435_456;

/// The greatest depth to which types may be nested.
pub const DEEPEST: u32 = 200;

/// What comes after a letter.
#[derive(Clone, Copy)]
pub(crate) enum Kind {
    /// Members, up to this closing letter.
    Fields(u8),
    /// A count, a type and `]`.
    Rows,
    /// `[`, a size, `,`, an alignment, a type and `]`.
    Vector,
    /// The type of the two parts.
    Complex,
    /// The position of the first bit, the declared type, and the number of bits.
    Bits,
    /// Qualifiers, and the type that is pointed to.
    Pointer,
    /// The mark of a block, or a class in quotes, or nothing.
    Object,
    /// Nothing.
    Plain,
}

/// The kind of type that a letter begins.
pub(crate) fn kind_of(letter: u8) -> Kind
    ensures { result ≡ kind letter }
{
    match letter {
        b'{' => Kind::Fields(b'}'),
        b'(' => Kind::Fields(b')'),
        b'[' => Kind::Rows,
        b'!' => Kind::Vector,
        b'j' => Kind::Complex,
        b'b' => Kind::Bits,
        b'^' => Kind::Pointer,
        b'@' => Kind::Object,
        _ => Kind::Plain,
    }
}

/// The size in bytes of a type that is one letter, which is also its alignment; 0 for an unknown
/// letter.
pub(crate) fn size_of(letter: u8) -> u64
    ensures value { result ≡ size_of letter }
    ensures small { result ≤ 16 }
{
    if b"cCB".contains(&letter) {
        1
    } else if b"sS".contains(&letter) {
        2
    } else if b"iIf".contains(&letter) {
        4
    } else if b"lLqQd@#:*%^?".contains(&letter) {
        8
    } else if b"tTD".contains(&letter) {
        16
    } else {
        0
    }
}
