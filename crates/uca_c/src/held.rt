//! What C can keep.

ghost use Rattle.std.specs.Prelude.{◌≡◌};
ghost use Rattle.std.specs.Borrow.{sem};
ghost use Rattle.uca_c.specs.declared.held.Held.TheVariants.{Collator, Upgrade};
ghost use Rattle.uca_c.specs.inside.Holding.{HoldsCollator, HoldsUpgrade};
ghost use Rattle.uca_c.specs.inside.Lending.{LendsCollator, LendsUpgrade};

use crate::open_collator::OpenCollator;
use crate::open_upgrade::OpenUpgrade;

/// A collator or an upgrade that is open.
#[derive(Drop)]
pub enum Held {
    Collator(OpenCollator),
    Upgrade(OpenUpgrade),
}

impl Held {
    // The collator that this is.
    #[inline(always)]
    pub(crate) fn collator(&mut self) -> &mut OpenCollator
        requires { HoldsCollator self.old }
        ensures* lends { sem 𝓛 (LendsCollator self.entry result) }
        ensures value { self.old ≡ Collator result.now }
    {
        match self {
            Held::Collator(collator) => collator,
            Held::Upgrade(_) => unreachable!(),
        }
    }

    // The upgrade that this is.
    #[inline(always)]
    pub(crate) fn upgrade(&mut self) -> &mut OpenUpgrade
        requires { HoldsUpgrade self.old }
        ensures* lends { sem 𝓛 (LendsUpgrade self.entry result) }
        ensures value { self.old ≡ Upgrade result.now }
    {
        match self {
            Held::Collator(_) => unreachable!(),
            Held::Upgrade(upgrade) => upgrade,
        }
    }
}
