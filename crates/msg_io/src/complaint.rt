//! The lines that report faults.

ghost use Rattle.std.specs.Prelude.{◌≡◌, ◌⊎◌, ◌++◌, codes, false, OnOk, OnErr};
ghost use Rattle.std.specs.Option.{option_copied};
ghost use Rattle.msg_io.specs.Complaint as spec;
ghost use Rattle.msg_io.specs.Complaint.{fault_line, document_line, run_fault_line};
ghost use Rattle.msg_io.specs.Complaint.{Says, StartsSaying, SaysReason, StartsReason};
ghost use Rattle.msg_io.specs.Device.{Marks};
ghost use Rattle.msg_io.specs.Writing.{Starts, Writes};

use crate::decimal::write_numbered;
use crate::device::{Failed, Sink};
use crate::fault::RunFault;
use crate::writing::{write_both, write_whole};
use msg_image::DocumentFault;

/// The program that reports.
#[derive(Clone, Copy, Debug, PartialEq, Eq)]
pub enum Program {
    /// The program over `run`.
    Msgrun,
    /// The program over `run_beside`.
    Msgbeside,
}

impl Program {
    // The beginning of each line.
    fn prefix(self) -> &'static str
        ensures { result.now ≡ spec.program_name self ++ codes ": " }
    {
        match self {
            Program::Msgrun => "msgrun: ",
            Program::Msgbeside => "msgbeside: ",
        }
    }

    fn usage(self) -> &'static str
        ensures { result.now ≡ spec.usage_line self }
    {
        match self {
            Program::Msgrun => "usage: msgrun [workers [cut]]\n",
            Program::Msgbeside => "usage: msgbeside [workers [cut]]\n",
        }
    }
}

fn wants_memory(fault: DocumentFault) -> bool
    ensures { result ≡ spec.wants_memory fault }
{
    matches!(fault, DocumentFault::Memory)
}

// Writes a document's fault: its number and its text.
fn say_fault<W: Sink>(sink: &mut W, fault: DocumentFault) -> Result<(), Failed>
    ensures whole { OnOk result (Writes W.contents sink.old sink.new (fault_line fault)) }
    ensures start { OnErr result (Starts W.contents sink.old sink.new (fault_line fault)) }
    ensures marks { Marks (W.mark sink.old) (W.mark sink.new) result }
{
    write_numbered(sink, b"document fault ", fault.number())?;
    write_both(sink, b": ", fault.text().as_bytes())?;
    write_whole(sink, b"\n")
}

fn say_document<W: Sink>(sink: &mut W, fault: DocumentFault) -> Result<(), Failed>
    ensures whole { OnOk result (Writes W.contents sink.old sink.new (document_line fault)) }
    ensures start { OnErr result (Starts W.contents sink.old sink.new (document_line fault)) }
    ensures marks { Marks (W.mark sink.old) (W.mark sink.new) result }
{
    if wants_memory(fault) {
        return write_whole(sink, b"out of memory\n");
    }
    say_fault(sink, fault)
}

fn say_run_fault<W: Sink>(sink: &mut W, fault: &RunFault) -> Result<(), Failed>
    ensures whole { OnOk result (Writes W.contents sink.old sink.new (run_fault_line fault.now)) }
    ensures start { OnErr result (Starts W.contents sink.old sink.new (run_fault_line fault.now)) }
    ensures marks { Marks (W.mark sink.old) (W.mark sink.new) result }
{
    match fault {
        RunFault::Read => write_whole(sink, b"read failed\n"),
        RunFault::Document(fault) => say_document(sink, *fault),
        RunFault::Memory => write_whole(sink, b"out of memory\n"),
        RunFault::Write => write_whole(sink, b"write failed\n"),
        RunFault::Workers => write_whole(sink, b"workers must be 1 to 64\n"),
        RunFault::Cut => write_whole(sink, b"cut must be at least 1\n"),
    }
}

fn say<W: Sink>(sink: &mut W, program: Program, fault: Option<&RunFault>) -> Result<(), Failed>
    ensures whole { OnOk result (SaysReason W.contents sink.old sink.new program fault.entry) }
    ensures start { OnErr result (StartsReason W.contents sink.old sink.new program fault.entry) }
    ensures marks { Marks (W.mark sink.old) (W.mark sink.new) result }
{
    match fault {
        None => write_whole(sink, program.usage().as_bytes()),
        Some(fault) => say_run_fault(sink, fault),
    }
}

fn say_line<W: Sink>(sink: &mut W, program: Program, fault: Option<&RunFault>) -> Result<(), Failed>
    ensures whole { OnOk result (Says W.contents sink.old sink.new program fault.entry) }
    ensures start { OnErr result (StartsSaying W.contents sink.old sink.new program fault.entry) }
    ensures marks { Marks (W.mark sink.old) (W.mark sink.new) result }
{
    write_whole(sink, program.prefix().as_bytes())?;
    say(sink, program, fault)
}

fn status(fault: Option<&RunFault>) -> u8
    ensures value { result ≡ spec.status_of (option_copied fault.entry) }
    ensures few { (result ≡ 1) ⊎ (result ≡ 2) }
{
    match fault {
        Some(RunFault::Document(fault)) if wants_memory(*fault) => 1,
        Some(RunFault::Read | RunFault::Memory | RunFault::Write) => 1,
        _ => 2,
    }
}

/// Writes one line that says why a run of the program ended, or how the program is used if there is
/// no fault. Returns the exit status.
///
/// It takes no memory. A failed write ends the line, and the status stays the same.
pub fn complain<W: Sink>(sink: &mut W, program: Program, fault: Option<&RunFault>) -> u8
    ensures status { result ≡ spec.status_of (option_copied fault.entry) }
    ensures few { (result ≡ 1) ⊎ (result ≡ 2) }
    ensures line { W.mark sink.new ≡ false → Says W.contents sink.old sink.new program fault.entry }
    ensures start { Says W.contents sink.old sink.new program fault.entry
        ⊎ StartsSaying W.contents sink.old sink.new program fault.entry }
{
    match say_line(sink, program, fault) {
        Ok(()) | Err(_) => status(fault),
    }
}
