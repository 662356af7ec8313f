//! The handle of texts in C.

ghost use Rattle.std.specs.Prelude.{◌≡◌, Option, Some, None, option_map, is_some, true};
ghost use Rattle.msg_c.specs.Interned.{TextsView};
ghost use Rattle.msg_c.specs.TextsOwned.{held_owns, state_coded};

use crate::parts::Parts;
use msg_names::Texts;
use std::alloc::Global;
use std::marker::Model;
use std::{mem, ptr};

/// A box whose pointer C holds, or nothing.
#[repr(C)]
#[derive(Drop)]
pub struct HeldTexts {
    at: *mut u8,
    alloc: Global,
    pub ghost state: { Option TextsView } by { state_coded },
}

impl Model for HeldTexts {
    ghost also_owns = { λ h. held_owns h.alloc h.at h.state };
}

// What is held may go to another thread, and no part of it stays behind.
unsafe impl Send for HeldTexts {}

impl HeldTexts {
    fn of_parts(parts: Parts<Texts, Global>) -> HeldTexts
        ensures { result.state ≡ Some parts.value }
    {
        let Parts { ptr, alloc } = parts;
        HeldTexts {
            at: ptr.cast(),
            alloc,
        }
    }

    fn into_parts(self) -> Parts<Texts, Global>
        requires { is_some self.state ≡ true }
        ensures { self.state ≡ Some result.value }
    {
        let HeldTexts { at, alloc } = self;
        Parts {
            ptr: at.cast(),
            alloc,
        }
    }

    fn closed(alloc: Global) -> HeldTexts
        ensures { result.state ≡ None }
    {
        HeldTexts {
            at: ptr::null_mut(),
            alloc,
        }
    }

    #[inline(always)]
    fn into_box(self) -> Box<Texts>
        requires { is_some self.state ≡ true }
        ensures { self.state ≡ Some result.value }
    {
        self.into_parts().into_box()
    }

    #[inline(always)]
    fn of_box(held: Box<Texts>) -> HeldTexts
        ensures { result.state ≡ Some held.value }
    {
        HeldTexts::of_parts(Parts::of(held))
    }
}

/// `msg_texts` of C. Zero bytes are a closed one.
#[repr(C)]
#[derive(Drop)]
pub struct TextsHandle {
    held: HeldTexts,
    is_open: bool,
    pub ghost open_is: { is_open ≡ is_some held.state },
}

impl TextsHandle {
    pub(crate) fn closed(alloc: Global) -> TextsHandle
        ensures { result.held.state ≡ None }
    {
        TextsHandle {
            held: HeldTexts::closed(alloc),
            is_open: false,
        }
    }

    #[inline(always)]
    pub(crate) fn of(held: Box<Texts>) -> TextsHandle
        ensures { result.held.state ≡ Some held.value }
    {
        TextsHandle {
            held: HeldTexts::of_box(held),
            is_open: true,
        }
    }

    pub(crate) fn is_open(&self) -> bool
        ensures { result ≡ is_some self.now.held.state }
    {
        self.is_open
    }

    // Takes what an open handle holds. The handle is then closed.
    #[inline(always)]
    pub(crate) fn take(&mut self, alloc: Global) -> Option<Box<Texts>>
        ensures closed { self.new.held.state ≡ None }
        ensures taken { option_map (λ b. b.value) result ≡ self.old.held.state }
    {
        if !self.is_open {
            return None;
        }
        let TextsHandle { held, .. } = mem::replace(self, TextsHandle::closed(alloc));
        Some(held.into_box())
    }
}
