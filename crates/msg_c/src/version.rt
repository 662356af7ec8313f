//! The version of the library.

ghost use Rattle.std.specs.Prelude.{◌≡◌};

/// The version of the library as one number, like `MSG_VERSION_NUMBER` of the header: 1,000,000 for
/// the major number, and 1,000 for the minor.
#[unsafe(no_mangle)]
pub extern "C" fn msg_version() -> u32
    ensures { result ≡ 1000 }
{
    1_000
}
