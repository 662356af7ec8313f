//! The handle of a runtime in C.

ghost use Rattle.std.specs.Prelude.{◌≡◌, Option, Some, None, option_map, is_some, true};
ghost use Rattle.msg_runtime.specs.View.{RuntimeView};
ghost use Rattle.msg_c.specs.RuntimeOwned.{held_owns, state_coded};

use crate::parts::Parts;
use msg_host::HostedRuntime;
use std::alloc::Global;
use std::marker::Model;
use std::{mem, ptr};

/// A box whose pointer C holds, or nothing.
#[repr(C)]
#[derive(Drop)]
pub struct HeldRuntime {
    at: *mut u8,
    alloc: Global,
    pub ghost state: { Option RuntimeView } by { state_coded },
}

impl Model for HeldRuntime {
    ghost also_owns = { λ h. held_owns h.alloc h.at h.state };
}

// What is held may go to another thread, and no part of it stays behind.
unsafe impl Send for HeldRuntime {}

impl HeldRuntime {
    fn of_parts(parts: Parts<HostedRuntime, Global>) -> HeldRuntime
        ensures { result.state ≡ Some parts.value }
    {
        let Parts { ptr, alloc } = parts;
        HeldRuntime {
            at: ptr.cast(),
            alloc,
        }
    }

    fn into_parts(self) -> Parts<HostedRuntime, Global>
        requires { is_some self.state ≡ true }
        ensures { self.state ≡ Some result.value }
    {
        let HeldRuntime { at, alloc } = self;
        Parts {
            ptr: at.cast(),
            alloc,
        }
    }

    fn closed(alloc: Global) -> HeldRuntime
        ensures { result.state ≡ None }
    {
        HeldRuntime {
            at: ptr::null_mut(),
            alloc,
        }
    }

    #[inline(always)]
    fn into_box(self) -> Box<HostedRuntime>
        requires { is_some self.state ≡ true }
        ensures { self.state ≡ Some result.value }
    {
        self.into_parts().into_box()
    }

    #[inline(always)]
    fn of_box(held: Box<HostedRuntime>) -> HeldRuntime
        ensures { result.state ≡ Some held.value }
    {
        HeldRuntime::of_parts(Parts::of(held))
    }
}

/// `msg_runtime` of C. Zero bytes are a closed one.
#[repr(C)]
#[derive(Drop)]
pub struct RuntimeHandle {
    held: HeldRuntime,
    is_open: bool,
    pub ghost open_is: { is_open ≡ is_some held.state },
}

impl RuntimeHandle {
    pub(crate) fn closed(alloc: Global) -> RuntimeHandle
        ensures { result.held.state ≡ None }
    {
        RuntimeHandle {
            held: HeldRuntime::closed(alloc),
            is_open: false,
        }
    }

    #[inline(always)]
    pub(crate) fn of(held: Box<HostedRuntime>) -> RuntimeHandle
        ensures { result.held.state ≡ Some held.value }
    {
        RuntimeHandle {
            held: HeldRuntime::of_box(held),
            is_open: true,
        }
    }

    pub(crate) fn is_open(&self) -> bool
        ensures { result ≡ is_some self.now.held.state }
    {
        self.is_open
    }

    // Takes what an open handle holds. The handle is then closed.
    #[inline(always)]
    pub(crate) fn take(&mut self, alloc: Global) -> Option<Box<HostedRuntime>>
        ensures closed { self.new.held.state ≡ None }
        ensures taken { option_map (λ b. b.value) result ≡ self.old.held.state }
    {
        if !self.is_open {
            return None;
        }
        let RuntimeHandle { held, .. } = mem::replace(self, RuntimeHandle::closed(alloc));
        Some(held.into_box())
    }
}
