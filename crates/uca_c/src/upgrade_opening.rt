//! How an upgrade of C's is opened.

ghost use Rattle.std.specs.Prelude.{◌≡◌, Option, IfOk, IfErr, OnOk, MatchResult};
ghost use Rattle.uca_weights.specs.declared.Asked.{Asked};
ghost use Rattle.uca_changes.specs.Changes.{Change};
ghost use Rattle.uca_upgrade.specs.Causes.{IsUpgradeStop};
ghost use Rattle.uca_upgrade.specs.Opening.{IsUpgradeOf};
ghost use Rattle.uca_c.specs.UpgradeCalls.{AsksUpgrade, OpensUpgradeBy, IsUpgradeOpenStatus};
ghost use Rattle.uca_c.specs.UpgradeErrors.{TellsUpgrade, no_error};

use crate::numbers::asked_settings;
use crate::statuses::ARGUMENT;
use crate::structs::UpgradeError;
use crate::upgrade_errors::{nothing, tell};
use std::alloc::Global;
use uca_upgrade::{OwnedUpgrade, UpgradeFiles};

// An upgrade by these files, or the status of the call.
pub fn open(
    alloc: Global,
    files: &UpgradeFiles,
    weighting: u32,
    depth: u32,
    error: &mut UpgradeError,
) -> Result<OwnedUpgrade, u32>
    ensures found { IfOk result (OpensUpgradeBy weighting depth files.now) }
    ensures only { (asked : Asked) (change : Change) → AsksUpgrade weighting depth files.now asked change →
        MatchResult result (IsUpgradeOf files.now change asked) (TellsUpgrade (IsUpgradeStop asked.numbers change) error.new) }
    ensures no_error { OnOk result (error.new ≡ no_error) }
    ensures rejected { IfErr result (IsUpgradeOpenStatus weighting depth files.now error.new) }
{
    *error = nothing();
    let Some(asked) = asked_settings(weighting, depth) else {
        return Err(ARGUMENT);
    };
    match OwnedUpgrade::open(alloc, files, asked) {
        Ok(upgrade) => Ok(upgrade),
        Err(fault) => Err(tell(fault, error)),
    }
}
