//! What a program in another language keeps between calls.
ghost use Rattle.std.specs.Prelude.{◌≡◌, Option, Some, None, MatchOption};
ghost use Rattle.grove_c.specs.Handles.{handle_owns};
ghost use Rattle.grove_c.specs.declared.kept.Kept.{Kept};

use crate::kept::Kept;
use crate::loose::Loose;
use std::alloc::Global;
use std::marker::Model;
use std::mem::replace;
use std::ptr::null_mut;

/// A tree or a store by its pointer, or nothing if that is null. A program in another language has one of its own, and
/// changes it by the calls alone.
#[repr(C)]
pub struct Handle {
    at: *mut u8,
    alloc: Global,
    pub ghost value: { Option Kept },
}

impl Model for Handle {
    ghost also_owns = { λ handle. handle_owns handle.alloc handle.at handle.value };
}

impl Handle {
    pub fn empty(alloc: Global) -> Handle
        ensures { result.value ≡ None }
    {
        Handle {
            at: null_mut(),
            alloc,
        }
    }

    fn of(loose: Loose<Kept, Global>) -> Handle
        ensures { result.value ≡ Some loose.value }
    {
        let Loose { at, alloc } = loose;
        Handle {
            at: at as *mut u8,
            alloc,
        }
    }

    fn into_loose(self) -> Option<Loose<Kept, Global>>
        ensures { MatchOption result (self.value ≡ None) (λ loose. self.value ≡ Some loose.value) }
    {
        let Handle { at, alloc } = self;
        if at.is_null() {
            None
        } else {
            Some(Loose {
                at: at as *mut Kept,
                alloc,
            })
        }
    }

    /// Has the handle hold this. What it held before is let go.
    pub fn hold(&mut self, kept: Box<Kept>)
        ensures { self.new.value ≡ Some kept.value }
    {
        *self = Handle::of(Loose::of(kept));
    }

    /// What the handle holds, which holds nothing then.
    pub fn take(&mut self, alloc: Global) -> Option<Box<Kept>>
        ensures held { MatchOption result (self.old.value ≡ None) (λ kept. self.old.value ≡ Some kept.value) }
        ensures empty { self.new.value ≡ None }
    {
        match replace(self, Handle::empty(alloc)).into_loose() {
            Some(loose) => Some(loose.into_box()),
            None => None,
        }
    }
}

impl Drop for Handle {
    fn drop(self) {
        match self.into_loose() {
            Some(loose) => drop(loose.into_box()),
            None => {}
        }
    }
}

// What is held may go to another thread, so the handle may, between calls.
unsafe impl Send for Handle {}
