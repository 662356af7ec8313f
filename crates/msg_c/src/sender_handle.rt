//! The handle of a sender in C.

ghost use Rattle.std.specs.Prelude.{◌≡◌, Option, Some, None, option_map, is_some, true};
ghost use Rattle.msg_host.specs.View.{SenderView};
ghost use Rattle.msg_reader.specs.Notes.{AreBlank};
ghost use Rattle.msg_c.specs.Notes.{AreNotesIn};
ghost use Rattle.msg_c.specs.SenderOwned.{held_owns, state_coded};

use crate::parts::Parts;
use msg_host::HostedSender;
use msg_reader::Notes;
use msg_reader::laws::{blank_notes_are_of_each_history, blank_notes_are_of_each_table};
use std::alloc::Global;
use std::marker::Model;
use std::{mem, ptr};

/// A box whose pointer C holds, or nothing.
#[repr(C)]
#[derive(Drop)]
pub struct HeldSender {
    at: *mut u8,
    alloc: Global,
    pub ghost state: { Option SenderView } by { state_coded },
}

impl Model for HeldSender {
    ghost also_owns = { λ h. held_owns h.alloc h.at h.state };
}

// What is held may go to another thread, and no part of it stays behind.
unsafe impl Send for HeldSender {}

impl HeldSender {
    fn of_parts(parts: Parts<HostedSender, Global>) -> HeldSender
        ensures { result.state ≡ Some parts.value }
    {
        let Parts { ptr, alloc } = parts;
        HeldSender {
            at: ptr.cast(),
            alloc,
        }
    }

    fn into_parts(self) -> Parts<HostedSender, Global>
        requires { is_some self.state ≡ true }
        ensures { self.state ≡ Some result.value }
    {
        let HeldSender { at, alloc } = self;
        Parts {
            ptr: at.cast(),
            alloc,
        }
    }

    fn closed(alloc: Global) -> HeldSender
        ensures { result.state ≡ None }
    {
        HeldSender {
            at: ptr::null_mut(),
            alloc,
        }
    }

    #[inline(always)]
    fn into_box(self) -> Box<HostedSender>
        requires { is_some self.state ≡ true }
        ensures { self.state ≡ Some result.value }
    {
        self.into_parts().into_box()
    }

    #[inline(always)]
    fn of_box(held: Box<HostedSender>) -> HeldSender
        ensures { result.state ≡ Some held.value }
    {
        HeldSender::of_parts(Parts::of(held))
    }

    // Takes what is held. Nothing is held then.
    #[inline(always)]
    pub(crate) fn take(&mut self, alloc: Global) -> Box<HostedSender>
        requires { is_some self.old.state ≡ true }
        ensures closed { self.new.state ≡ None }
        ensures taken { self.old.state ≡ Some result.value }
    {
        let held = mem::replace(self, HeldSender::closed(alloc));
        held.into_box()
    }

    // Holds this value.
    #[inline(always)]
    pub(crate) fn put(&mut self, held: Box<HostedSender>)
        ensures { self.new.state ≡ Some held.value }
    {
        *self = HeldSender::of_box(held);
    }
}

/// `msg_sender` of C. Zero bytes are a closed one.
///
/// A sender's notes lie in its handle, so that what was noted is found without taking the sender
/// out.
#[repr(C)]
#[derive(Drop)]
pub struct SenderHandle {
    pub(crate) held: HeldSender,
    is_open: bool,
    pub(crate) notes: Notes,
    pub ghost open_is: { is_open ≡ is_some held.state },
    pub ghost noted: { AreNotesIn held.state notes },
}

impl SenderHandle {
    pub(crate) fn closed(alloc: Global) -> SenderHandle
        ensures { result.held.state ≡ None }
    {
        SenderHandle {
            held: HeldSender::closed(alloc),
            is_open: false,
            notes: Notes::new(),
        }
    }

    #[inline(always)]
    pub(crate) fn is_open(&self) -> bool
        ensures { result ≡ is_some self.now.held.state }
    {
        self.is_open
    }

    // Opens a closed handle.
    pub(crate) fn open(&mut self, held: Box<HostedSender>)
        requires { self.old.held.state ≡ None }
        ensures { self.new.held.state ≡ Some held.value }
    {
        blank_notes_are_of_each_history();
        blank_notes_are_of_each_table();
        self.held.put(held);
        self.is_open = true;
    }

    // Takes what an open handle holds. The handle is then closed.
    pub(crate) fn close(&mut self, alloc: Global) -> Option<Box<HostedSender>>
        ensures closed { self.new.held.state ≡ None }
        ensures blank { AreBlank self.new.notes }
        ensures taken { option_map (λ b. b.value) result ≡ self.old.held.state }
    {
        if !self.is_open {
            return None;
        }
        self.notes.clear();
        self.is_open = false;
        Some(self.held.take(alloc))
    }
}
