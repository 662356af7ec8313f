//! Files of edits.

use crate::{read, run_of};
use msg_io::RunFault;
use msg_samples::{Readings, read_by_both};
use std::alloc::Global;
use std::io;
use std::sync::Wait;
use std::thread::Threads;

/// The number of the fault that the document is refused with, and `None` where it is accepted; 0
/// where `serde_json` makes something else of it.
fn fault<T: Threads + Wait + Sync>(rt: &T, alloc: Global, document: &str) -> Option<u32> {
    if read_by_both(alloc, document.as_bytes()) == Readings::Different {
        return Some(0);
    }
    let (written, ended) = run_of(rt, alloc, document.as_bytes(), 1, 64);
    match ended {
        Ok(()) => None,
        Err(RunFault::Document(fault)) if written.is_empty() => Some(fault.number()),
        Err(_) => Some(0),
    }
}

/// What the lines so far have said.
#[derive(Drop)]
pub(crate) struct Edits {
    document: String,
    fault: Option<u32>,
    pub expected: u64,
}

impl Edits {
    pub(crate) fn new(alloc: Global) -> Edits {
        Edits {
            document: String::new(alloc),
            fault: None,
            expected: 0,
        }
    }

    /// Takes one line: the document that is edited from here on, what is expected from here on, an
    /// edit `OLD => NEW` at the first place of the old text, or a comment.
    pub(crate) fn take<T: Threads + Wait + Sync>(
        &mut self,
        rt: &HostRuntime,
        threads: &T,
        folder: &str,
        line: &str,
    ) -> io::Result<()> {
        if let Some(name) = line.strip_prefix("document ") {
            self.document = read(rt, folder, name, ".json")?;
        } else if let Some(number) = line.strip_prefix("fault ") {
            self.fault = number.parse().ok();
        } else if line == "accepted" {
            self.fault = None;
        } else if let Some((old, after)) = line.split_once(" =>") {
            return self.edit(rt, threads, old, after.strip_prefix(' ').unwrap_or(after));
        }
        Ok(())
    }

    fn edit<T: Threads + Wait + Sync>(
        &mut self,
        rt: &HostRuntime,
        threads: &T,
        old: &str,
        new: &str,
    ) -> io::Result<()> {
        let Some((before, after)) = self.document.as_str().split_once(old) else {
            println!(rt; "{old} stands nowhere")?;
            return Ok(());
        };
        let document = format!(in rt.alloc(); "{before}{new}{after}")?;
        let fault = fault(threads, rt.alloc(), document.as_str());
        if fault == self.fault {
            self.expected = self.expected.saturating_add(1);
        } else {
            println!(rt; "{old} => {new} is {fault:?}, and not {:?}", self.fault)?;
        }
        Ok(())
    }
}
