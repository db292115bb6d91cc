//! An upgrade of C's: how it is opened and closed, and how a call uses what is in it.

ghost use Rattle.std.specs.Prelude.{◌≡◌, true, false};
ghost use Rattle.uca_c.specs.inside.Holding.{HoldsUpgrade, HoldsUpgrade-prop};

use crate::handle::Handle;
use crate::held::Held;
use crate::open_upgrade::OpenUpgrade;
use crate::statuses::{MEMORY, OK};
use std::alloc::Global;
use std::mem;

/// In C `struct uca_upgrade`: a handle, and whether there is an upgrade in it. It is never dropped, as its handle is not.
#[repr(C)]
pub struct UpgradeSlot {
    pub(crate) handle: Handle,
    pub(crate) full: bool,
    ghost told: { handle.full ≡ full },
    pub ghost kept: { HoldsUpgrade handle.kept } by { HoldsUpgrade-prop handle.kept },
}

impl UpgradeSlot {
    ghost use Rattle.std.specs.Prelude.{◌≢◌, ◌⊎◌};
    ghost use Rattle.std.specs.Borrow.{sem};
    ghost use Rattle.uca_c.specs.Slots.{upgrade_in};
    ghost use Rattle.uca_c.specs.inside.SlotLending.{LendsUpgrade};

    // Puts an upgrade into a slot that is closed, which is open then. Returns the status of the call.
    pub(crate) fn keep(&mut self, alloc: Global, upgrade: OpenUpgrade) -> u32
        requires { self.old.full ≡ false }
        ensures statuses { (result ≡ OK) ⊎ (result ≡ MEMORY) }
        ensures open { result ≡ OK → self.new.full ≡ true }
        ensures value { result ≡ OK → upgrade_in self.new ≡ upgrade }
        ensures same { result ≢ OK → self.new ≡ self.old }
    {
        let Ok(handle) = Handle::of(alloc, Held::Upgrade(upgrade)) else {
            return MEMORY;
        };
        let opened = UpgradeSlot { handle, full: true };
        let UpgradeSlot {
            handle: closed,
            full: _,
        } = mem::replace(self, opened);
        closed.let_go();
        OK
    }

    // The upgrade of an open slot.
    #[inline(always)]
    pub(crate) fn opened(&mut self) -> &mut OpenUpgrade
        requires { self.old.full ≡ true }
        ensures* lends { sem 𝓛 (LendsUpgrade self.entry result) }
        ensures value { result.now ≡ upgrade_in self.old }
    {
        let handle = &mut self.handle;
        let held = handle.held();
        held.upgrade()
    }

    // Gives back all memory of a slot, which is closed then.
    pub(crate) fn close(&mut self, alloc: Global)
        ensures { self.new.full ≡ false }
    {
        if self.full {
            let closed = UpgradeSlot {
                handle: Handle::closed(alloc),
                full: false,
            };
            let UpgradeSlot {
                handle: opened,
                full: _,
            } = mem::replace(self, closed);
            opened.give_back();
        }
    }
}
