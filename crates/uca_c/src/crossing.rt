//! That C may give a collator or an upgrade to another thread.

ghost use Rattle.uca_c.specs.inside.Crossing.{IsSendSlot, IsSendUpgradeSlot};

/// A collator of C's may change threads, between two calls. The function does nothing: its contract is the law.
pub fn collators_may_change_threads()
    ensures { IsSendSlot }
{}

/// So may an upgrade of C's.
pub fn upgrades_may_change_threads()
    ensures { IsSendUpgradeSlot }
{}
