//! The handle of a value that C holds.
ghost use Rattle.std.specs.Prelude.{◌≡◌, Option, Some, None, option_map};
ghost use Rattle.std.specs.Coded.{coded_option};
ghost use Rattle.hagzimot_in_process.specs.Held.{held};
ghost use Rattle.hagzimot_in_process.specs.declared.kinds.Kind.{Kind as Made};
ghost use Rattle.hagzimot_in_process.specs.contracts.kinds.Kind.{the_row};

use crate::kinds::Kind;
use crate::loose::Loose;
use std::alloc::Global;
use std::marker::Model;

/// A value that C holds: one pointer, which is null if there is no value.
#[repr(C)]
#[derive(Drop)]
pub struct Handle {
    at: *mut u8,
    pub ghost value: { Option Made } by { coded_option the_row.coded },
}

impl Model for Handle {
    ghost also_owns = { λ h. held the_row h.at h.value };
}

impl Handle {
    /// Makes a handle that holds nothing.
    pub fn closed() -> Handle
        ensures { result.value ≡ None }
    {
        Handle {
            at: std::ptr::null_mut(),
        }
    }

    /// Makes the handle of a value.
    pub fn of(held: Loose<Kind, Global>) -> Handle
        ensures { result.value ≡ Some held.value }
    {
        let Loose { at, alloc: _ } = held;
        Handle { at: at.cast() }
    }

    /// Returns the value of a handle, if it holds one.
    pub fn into_loose(self, alloc: Global) -> Option<Loose<Kind, Global>>
        ensures { option_map (λ l. l.value) result ≡ self.value }
    {
        let Handle { at } = self;
        if at.is_null() {
            None
        } else {
            Some(Loose {
                at: at.cast(),
                alloc,
            })
        }
    }

    /// Takes the value out of a handle, which holds nothing then.
    pub fn take(&mut self, alloc: Global) -> Option<Box<Kind>>
        ensures value { option_map (λ b. b.value) result ≡ self.old.value }
        ensures closed { self.new.value ≡ None }
    {
        let held = std::mem::replace(self, Handle::closed());
        match held.into_loose(alloc) {
            Some(loose) => Some(loose.into_box()),
            None => None,
        }
    }

    /// Puts a value into a handle. A value that it held is forgotten, and its memory isn't freed.
    pub fn put(&mut self, kind: Box<Kind>)
        ensures { self.new.value ≡ Some kind.value }
    {
        *self = Handle::of(Loose::of(kind));
    }
}
