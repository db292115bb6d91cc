//! The calls of an upgrade that C makes. Their clauses hold for every argument: a wrong one is a status.

ghost use Rattle.std.specs.Prelude.{◌≡◌, ◌≢◌, ◌↔◌, ◌⊎◌, true, false, Option, None, if◌then◌else◌};
ghost use Rattle.uca_weights.specs.declared.Asked.{Asked};
ghost use Rattle.uca_changes.specs.Changes.{Change};
ghost use Rattle.uca_upgrade.specs.Causes.{IsUpgradeStop};
ghost use Rattle.uca_upgrade.specs.Opening.{IsUpgradeOf};
ghost use Rattle.uca_upgrade.specs.Upgrades.{is_affected_in, rekeyed_in};
ghost use Rattle.uca_c.specs.CompactCalls.{IsOneTooSmall, WritesOne};
ghost use Rattle.uca_c.specs.UpgradeCalls.{AsksUpgrade, OpensUpgradeBy, IsUpgradeOpenStatus, IsRekeyed, IsTextStatus, files_of};
ghost use Rattle.uca_c.specs.UpgradeErrors.{TellsUpgrade, no_error};
ghost use Rattle.uca_c.specs.Slots.{upgrade_in};

use crate::open_upgrade::OpenUpgrade;
use crate::statuses::{ALREADY_OPEN, CLOSED, MEMORY, NO_IMAGE, OK, SMALL};
use crate::structs::UpgradeError;
use crate::upgrade_errors::nothing;
use crate::upgrade_slot::UpgradeSlot;
use crate::{upgrade_opening, upgrade_work};
use std::alloc::Global;
use uca_upgrade::UpgradeFiles;

/// How many bytes `struct uca_upgrade` has.
#[unsafe(no_mangle)]
pub extern "C" fn uca_upgrade_size() -> usize
    ensures { result ≡ 24 }
{
    size_of::<UpgradeSlot>()
}

/// Opens an upgrade that is closed, by the bytes of six files. An upgrade that is opened is one of an accepted change.
/// By it the old key of each text that is not affected, put through the maps, is the text's new key.
#[unsafe(no_mangle)]
pub extern "C" fn uca_open_upgrade(
    alloc: Global,
    upgrade: &mut UpgradeSlot,
    old_table: &[u8],
    old_data: &[u8],
    new_table: &[u8],
    new_data: &[u8],
    changes: &[u8],
    certificate: &[u8],
    weighting: u32,
    depth: u32,
    error: &mut UpgradeError,
) -> u32
    ensures already { (result ≡ ALREADY_OPEN) ↔ (upgrade.old.full ≡ true) }
    ensures ok { let files = files_of old_table.entry old_data.entry new_table.entry new_data.entry changes.entry certificate.entry in
        result ≡ OK → OpensUpgradeBy weighting depth files (upgrade_in upgrade.new) }
    ensures open { result ≡ OK → upgrade.new.full ≡ true }
    ensures same { result ≢ OK → upgrade.new ≡ upgrade.old }
    ensures only { let files = files_of old_table.entry old_data.entry new_table.entry new_data.entry changes.entry certificate.entry in
        (asked : Asked) (change : Change) → upgrade.old.full ≡ false → AsksUpgrade weighting depth files asked change →
        ((result ≡ OK) × IsUpgradeOf files change asked (upgrade_in upgrade.new)) ⊎ TellsUpgrade (IsUpgradeStop asked.numbers change) error.new result }
    ensures no_error { (result ≡ OK) ⊎ (result ≡ ALREADY_OPEN) → error.new ≡ no_error }
    ensures rejected { let files = files_of old_table.entry old_data.entry new_table.entry new_data.entry changes.entry certificate.entry in
        result ≢ OK → result ≢ ALREADY_OPEN → IsUpgradeOpenStatus weighting depth files error.new result }
{
    if upgrade.full {
        *error = nothing();
        return ALREADY_OPEN;
    }
    let files = UpgradeFiles {
        old_table,
        old_data,
        new_table,
        new_data,
        changes,
        certificate,
    };
    match upgrade_opening::open(alloc, &files, weighting, depth, error) {
        Ok(opened) => upgrade.keep(alloc, OpenUpgrade::new(alloc, opened)),
        Err(status) => status,
    }
}

/// Tells whether the key of a text has to be made anew.
#[unsafe(no_mangle)]
pub extern "C" fn uca_affected(upgrade: &mut UpgradeSlot, text: &[u8], affected: &mut u32) -> u32
    ensures closed { (result ≡ CLOSED) ↔ (upgrade.old.full ≡ false) }
    ensures ok { result ≡ OK → affected.new ≡ (if is_affected_in (upgrade_in upgrade.old) text.now then 1 else 0) }
    ensures rejected { upgrade.old.full ≡ true → IsTextStatus (upgrade_in upgrade.old) text.now result }
    ensures none { result ≢ OK → affected.new ≡ 0 }
    ensures full { upgrade.new.full ≡ upgrade.old.full }
    ensures kept { upgrade.old.full ≡ true → upgrade_in upgrade.new ≡ upgrade_in upgrade.old }
{
    if !upgrade.full {
        *affected = 0;
        return CLOSED;
    }
    upgrade_work::affected(upgrade.opened(), text, affected)
}

/// Writes the new key of an old key at `out`.
#[unsafe(no_mangle)]
pub extern "C" fn uca_rekey(
    upgrade: &mut UpgradeSlot,
    key: &[u8],
    out: &mut [u8],
    needed: &mut usize,
) -> u32
    ensures closed { (result ≡ CLOSED) ↔ (upgrade.old.full ≡ false) }
    ensures ok { result ≡ OK → WritesOne (IsRekeyed (upgrade_in upgrade.old) key.now) out.old out.new needed.new }
    ensures small { result ≡ SMALL → IsOneTooSmall (IsRekeyed (upgrade_in upgrade.old) key.now) out.old needed.new }
    ensures no_image { result ≡ NO_IMAGE → rekeyed_in (upgrade_in upgrade.old) key.now ≡ None }
    ensures statuses { (result ≡ OK) ⊎ (result ≡ SMALL) ⊎ (result ≡ CLOSED) ⊎ (result ≡ NO_IMAGE) ⊎ (result ≡ MEMORY) }
    ensures unwritten { result ≢ OK → out.new ≡ out.old }
    ensures none { result ≢ OK → result ≢ SMALL → needed.new ≡ 0 }
    ensures full { upgrade.new.full ≡ upgrade.old.full }
    ensures kept { upgrade.old.full ≡ true → upgrade_in upgrade.new ≡ upgrade_in upgrade.old }
{
    if !upgrade.full {
        *needed = 0;
        return CLOSED;
    }
    upgrade_work::rekey(upgrade.opened(), key, out, needed)
}

/// Makes the new key of an old key in its place.
#[unsafe(no_mangle)]
pub extern "C" fn uca_rekey_in_place(upgrade: &mut UpgradeSlot, key: &mut [u8]) -> u32
    ensures closed { (result ≡ CLOSED) ↔ (upgrade.old.full ≡ false) }
    ensures ok { result ≡ OK → IsRekeyed (upgrade_in upgrade.old) key.old key.new }
    ensures no_image { result ≡ NO_IMAGE → rekeyed_in (upgrade_in upgrade.old) key.old ≡ None }
    ensures statuses { (result ≡ OK) ⊎ (result ≡ CLOSED) ⊎ (result ≡ NO_IMAGE) ⊎ (result ≡ MEMORY) }
    ensures stays { result ≢ OK → key.new ≡ key.old }
    ensures full { upgrade.new.full ≡ upgrade.old.full }
    ensures kept { upgrade.old.full ≡ true → upgrade_in upgrade.new ≡ upgrade_in upgrade.old }
{
    if !upgrade.full {
        return CLOSED;
    }
    upgrade_work::rekey_in_place(upgrade.opened(), key)
}

/// Writes the fingerprint of what the old keys were made by at `old_out`, and that of what the new keys are made by at
/// `new_out`.
#[unsafe(no_mangle)]
pub extern "C" fn uca_upgrade_fingerprints(
    upgrade: &mut UpgradeSlot,
    old_out: &mut [u8; 32],
    new_out: &mut [u8; 32],
) -> u32
    ensures closed { (result ≡ CLOSED) ↔ (upgrade.old.full ≡ false) }
    ensures statuses { (result ≡ OK) ⊎ (result ≡ CLOSED) }
    ensures old_keys { result ≡ OK → old_out.new ≡ (upgrade_in upgrade.old).old_fingerprint }
    ensures new_keys { result ≡ OK → new_out.new ≡ (upgrade_in upgrade.old).new_fingerprint }
    ensures unwritten { result ≢ OK → (old_out.new ≡ old_out.old) × (new_out.new ≡ new_out.old) }
    ensures full { upgrade.new.full ≡ upgrade.old.full }
    ensures kept { upgrade.old.full ≡ true → upgrade_in upgrade.new ≡ upgrade_in upgrade.old }
{
    if !upgrade.full {
        return CLOSED;
    }
    let opened = upgrade.opened();
    *old_out = opened.upgrade.old_fingerprint();
    *new_out = opened.upgrade.new_fingerprint();
    OK
}

/// Gives back all memory of an upgrade, which is closed then. One that is closed stays so.
#[unsafe(no_mangle)]
pub extern "C" fn uca_close_upgrade(alloc: Global, upgrade: &mut UpgradeSlot)
    ensures { upgrade.new.full ≡ false }
{
    upgrade.close(alloc);
}
