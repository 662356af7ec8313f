//! Numbers in decimal.

ghost use Rattle.std.specs.Prelude.{◌≡◌, OnOk, OnErr};
ghost use Rattle.msg_io.specs.Decimal.{decimal, digits, numbered};
ghost use Rattle.msg_io.specs.Device.{Marks};
ghost use Rattle.msg_io.specs.Writing.{Gains, Writes, Starts};

use crate::device::{Failed, Sink};
use crate::writing::write_both;
use itoa::Buffer;
use std::alloc::AllocError;

/// Appends a number in decimal.
pub fn push_decimal(text: &mut Vec<u8>, number: i64) -> Result<(), AllocError>
    ensures ok { OnOk result (Gains text.old text.new (decimal number)) }
    ensures err { OnErr result (text.new.items ≡ text.old.items) }
{
    let mut buffer = Buffer::new();
    text.extend_from_slice(buffer.format(number).as_bytes())
}

/// Appends a number that isn't negative in decimal.
pub fn push_digits(text: &mut Vec<u8>, number: usize) -> Result<(), AllocError>
    ensures ok { OnOk result (Gains text.old text.new (digits number)) }
    ensures err { OnErr result (text.new.items ≡ text.old.items) }
{
    let mut buffer = Buffer::new();
    text.extend_from_slice(buffer.format(number).as_bytes())
}

/// Writes these bytes, and then a number in decimal.
pub(crate) fn write_numbered<S: Sink>(sink: &mut S, these: &[u8], number: u32) -> Result<(), Failed>
    ensures whole { OnOk result (Writes S.contents sink.old sink.new (numbered these.now number)) }
    ensures start { OnErr result (Starts S.contents sink.old sink.new (numbered these.now number)) }
    ensures marks { Marks (S.mark sink.old) (S.mark sink.new) result }
{
    let mut buffer = Buffer::new();
    write_both(sink, these, buffer.format(number).as_bytes())
}
