//! What C has: a collator or an upgrade in memory of its own, or nothing.

ghost use Rattle.std.specs.Prelude.{◌≡◌, true, false, IfOk};
ghost use Rattle.uca_c.specs.declared.held.Held.{Held};
ghost use Rattle.uca_c.specs.inside.Handles.{handle_owns, held_coded};

use crate::held::Held;
use crate::parts::Parts;
use std::alloc::{AllocError, Global};
use std::marker::Model;
use std::ptr;

/// In C `struct { void *inside; bool is_kept; }`. Where `full` is false it owns nothing, and the pointer may be any. So a
/// struct of zeros is a handle with nothing inside.
///
/// It is never dropped, since that would give no memory back: one that is full is taken apart, and only one with nothing
/// inside is let go.
#[repr(C)]
pub struct Handle {
    ptr: *mut u8,
    alloc: Global,
    pub(crate) full: bool,
    pub ghost kept: { Held } by { held_coded },
}

impl Model for Handle {
    ghost also_owns = { λ h. handle_owns h.full h.alloc h.ptr h.kept };
}

impl Handle {
    ghost use Rattle.std.specs.Borrow.{sem};
    ghost use Rattle.uca_c.specs.inside.HandleLending.{LendsHeld};

    /// A handle with nothing inside.
    pub(crate) fn closed(alloc: Global) -> Handle
        ghost kept: { Held }
        ensures { (result.full ≡ false) × (result.kept ≡ kept) }
    {
        Handle {
            ptr: ptr::null_mut(),
            alloc,
            full: false,
        }
    }

    /// A handle that holds this, in memory of its own.
    pub(crate) fn of(alloc: Global, held: Held) -> Result<Handle, AllocError>
        ensures { IfOk result (λ handle. (handle.full ≡ true) × (handle.kept ≡ held)) }
    {
        Ok(Handle::of_parts(Parts::of(Box::new(alloc, held)?)))
    }

    fn of_parts(parts: Parts<Held, Global>) -> Handle
        ensures { (result.full ≡ true) × (result.kept ≡ parts.value) }
    {
        let Parts { ptr, alloc } = parts;
        Handle {
            ptr: ptr as *mut u8,
            alloc,
            full: true,
        }
    }

    /// What an open handle holds.
    #[inline(always)]
    pub(crate) fn held(&mut self) -> &mut Held
        requires { self.old.full ≡ true }
        ensures* lends { sem 𝓛 (LendsHeld self.entry result) }
        ensures value { result.now ≡ self.old.kept }
    {
        unsafe { &mut *(self.ptr as *mut Held) }
    }

    /// Lets a handle go that owns nothing.
    pub(crate) fn let_go(self)
        requires { self.full ≡ false }
    {
        let Handle {
            ptr: _,
            alloc: _,
            full: _,
        } = self;
    }

    /// Gives back all memory of what an open handle holds.
    pub(crate) fn give_back(self)
        requires { self.full ≡ true }
    {
        drop(self.into_parts().into_box());
    }

    fn into_parts(self) -> Parts<Held, Global>
        requires { self.full ≡ true }
        ensures { result.value ≡ self.kept }
    {
        let Handle {
            ptr,
            alloc,
            full: _,
        } = self;
        Parts {
            ptr: ptr as *mut Held,
            alloc,
        }
    }
}

unsafe impl Send for Handle {}
