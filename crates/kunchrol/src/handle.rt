//! What C holds: the place of a register, which is owned by whoever holds it.

mod parts;

ghost use Rattle.std.specs.Prelude.{◌≡◌, MatchOption, None, Some};
ghost use Rattle.kunchrol.specs.Handles.{Held, held_code};

use embed::Register;
use parts::Parts;
use std::alloc::Global;
use std::marker::Model;
use std::ptr::null_mut;

/// A handle: it owns the register that lies at `at`; null if it is closed.
#[repr(C)]
pub struct Handle {
    at: *mut u8,
    pub ghost value: { Held } by { held_code },
}

impl Model for Handle {
    ghost use Rattle.kunchrol.specs.Handles.{handle_owns};

    ghost also_owns = { λ h. handle_owns h.at h.value };
}

impl Handle {
    /// Puts a register into a closed handle.
    pub fn put(&mut self, register: Box<Register>)
        requires { self.old.value ≡ None }
        ensures { self.new.value ≡ Some register.value }
    {
        self.hold(Parts::of(register));
    }

    fn hold(&mut self, parts: Parts<Register>)
        requires { self.old.value ≡ None }
        ensures { self.new.value ≡ Some parts.value }
    {
        let Parts { at } = parts;
        self.at = at as *mut u8;
    }

    /// Takes the register out, which leaves the handle closed. `None` if it is closed already.
    pub fn take(&mut self, alloc: Global) -> Option<Box<Register>>
        ensures taken { MatchOption result (self.old.value ≡ None)
            (λ register. self.old.value ≡ Some register.value) }
        ensures closed { self.new.value ≡ None }
    {
        let at = self.at;
        if at.is_null() {
            return None;
        }
        self.at = null_mut();
        Some(unsafe { Box::from_raw(alloc, at as *mut Register) })
    }
}
