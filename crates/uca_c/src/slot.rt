//! A collator of C's: how it is opened and closed, and how a call uses what is in it.

ghost use Rattle.std.specs.Prelude.{◌≡◌, true, false};
ghost use Rattle.uca_c.specs.inside.Holding.{HoldsCollator, HoldsCollator-prop};

use crate::handle::Handle;
use crate::held::Held;
use crate::open_collator::OpenCollator;
use crate::statuses::{MEMORY, OK};
use std::alloc::Global;
use std::mem;

/// In C `struct uca_collator`: a handle, and whether there is a collator in it. It is never dropped, as its handle is not.
#[repr(C)]
pub struct Slot {
    pub(crate) handle: Handle,
    pub(crate) full: bool,
    ghost told: { handle.full ≡ full },
    pub ghost kept: { HoldsCollator handle.kept } by { HoldsCollator-prop handle.kept },
}

impl Slot {
    ghost use Rattle.std.specs.Prelude.{◌≢◌, ◌⊎◌};
    ghost use Rattle.std.specs.Borrow.{sem};
    ghost use Rattle.uca_c.specs.Slots.{collator_in};
    ghost use Rattle.uca_c.specs.inside.SlotLending.{LendsCollator};

    // Puts a collator into a slot that is closed, which is open then. Returns the status of the call.
    pub(crate) fn keep(&mut self, alloc: Global, collator: OpenCollator) -> u32
        requires { self.old.full ≡ false }
        ensures statuses { (result ≡ OK) ⊎ (result ≡ MEMORY) }
        ensures open { result ≡ OK → self.new.full ≡ true }
        ensures value { result ≡ OK → collator_in self.new ≡ collator }
        ensures same { result ≢ OK → self.new ≡ self.old }
    {
        let Ok(handle) = Handle::of(alloc, Held::Collator(collator)) else {
            return MEMORY;
        };
        let opened = Slot { handle, full: true };
        let Slot {
            handle: closed,
            full: _,
        } = mem::replace(self, opened);
        closed.let_go();
        OK
    }

    // The collator of an open slot.
    #[inline(always)]
    pub(crate) fn opened(&mut self) -> &mut OpenCollator
        requires { self.old.full ≡ true }
        ensures* lends { sem 𝓛 (LendsCollator self.entry result) }
        ensures value { result.now ≡ collator_in self.old }
    {
        let handle = &mut self.handle;
        let held = handle.held();
        held.collator()
    }

    // Gives back all memory of a slot, which is closed then.
    pub(crate) fn close(&mut self, alloc: Global)
        ensures { self.new.full ≡ false }
    {
        if self.full {
            let closed = Slot {
                handle: Handle::closed(alloc),
                full: false,
            };
            let Slot {
                handle: opened,
                full: _,
            } = mem::replace(self, closed);
            opened.give_back();
        }
    }
}
