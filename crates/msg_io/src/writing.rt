//! Writes bytes to a sink.

ghost use Rattle.std.specs.Prelude.{◌++◌, OnOk, OnErr};
ghost use Rattle.msg_io.specs.Device.{Marks};
ghost use Rattle.msg_io.specs.Writing.{Writes, Starts};

use crate::device::{Failed, Sink};

/// Writes all the bytes, by as many writes as it takes. It ends at the first write that fails. It
/// takes no memory.
pub fn write_whole<S: Sink>(sink: &mut S, bytes: &[u8]) -> Result<(), Failed>
    ensures whole { OnOk result (Writes S.contents sink.old sink.new bytes.now) }
    ensures start { OnErr result (Starts S.contents sink.old sink.new bytes.now) }
    ensures marks { Marks (S.mark sink.old) (S.mark sink.new) result }
{
    let mut written = 0;
    while written < bytes.len() {
        let count = sink.write(&bytes[written..])?;
        written += count;
    }
    Ok(())
}

// Writes these bytes and then those. It ends at the first write that fails.
pub(crate) fn write_both<S: Sink>(sink: &mut S, these: &[u8], those: &[u8]) -> Result<(), Failed>
    ensures whole { OnOk result (Writes S.contents sink.old sink.new (these.now ++ those.now)) }
    ensures start { OnErr result (Starts S.contents sink.old sink.new (these.now ++ those.now)) }
    ensures marks { Marks (S.mark sink.old) (S.mark sink.new) result }
{
    write_whole(sink, these)?;
    write_whole(sink, those)
}
