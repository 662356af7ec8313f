//! Laws of texts, over every number, and the limit of a run.

ghost use Rattle.std.specs.Prelude.{◌≡◌, ℤ};
ghost use Rattle.msg_io.specs.Decimal.{decimal};

use crate::admission::MAX_WORKERS;

/// Two numbers with the same text are the same number.
pub fn one_text_is_one_number()
    ensures { (m n : ℤ) → decimal m ≡ decimal n → m ≡ n }
{}

/// The limit of a run, as on the command line.
pub fn the_limit_is_the_command_lines()
    ensures workers { MAX_WORKERS ≡ 64 }
{}
