//! What a call does with an open upgrade.

ghost use Rattle.std.specs.Prelude.{◌≡◌, ◌≢◌, ◌⊎◌, None, if◌then◌else◌};
ghost use Rattle.uca_upgrade.specs.Upgrades.{is_affected_in, rekeyed_in};
ghost use Rattle.uca_c.specs.CompactCalls.{IsOneTooSmall, WritesOne};
ghost use Rattle.uca_c.specs.UpgradeCalls.{IsRekeyed, IsTextStatus};

use crate::open_upgrade::OpenUpgrade;
use crate::statuses::{MEMORY, NO_IMAGE, OK, SMALL, status_of_text};
use crate::work::copy_out;

// Tells whether a text is affected, by 1 or 0.
pub fn affected(upgrade: &mut OpenUpgrade, text: &[u8], affected: &mut u32) -> u32
    ensures ok { result ≡ OK → affected.new ≡ (if is_affected_in upgrade.old text.now then 1 else 0) }
    ensures rejected { IsTextStatus upgrade.old text.now result }
    ensures none { result ≢ OK → affected.new ≡ 0 }
    ensures upgrade { upgrade.new ≡ upgrade.old }
{
    *affected = 0;
    match upgrade.upgrade.affected(text) {
        Ok(true) => {
            *affected = 1;
            OK
        }
        Ok(false) => OK,
        Err(fault) => status_of_text(fault),
    }
}

// Writes the new key of an old key where it has room, and how many bytes it has.
pub fn rekey(upgrade: &mut OpenUpgrade, key: &[u8], out: &mut [u8], needed: &mut usize) -> u32
    ensures ok { result ≡ OK → WritesOne (IsRekeyed upgrade.old key.now) out.old out.new needed.new }
    ensures small { result ≡ SMALL → IsOneTooSmall (IsRekeyed upgrade.old key.now) out.old needed.new }
    ensures no_image { result ≡ NO_IMAGE → rekeyed_in upgrade.old key.now ≡ None }
    ensures statuses { (result ≡ OK) ⊎ (result ≡ SMALL) ⊎ (result ≡ NO_IMAGE) ⊎ (result ≡ MEMORY) }
    ensures unwritten { result ≢ OK → out.new ≡ out.old }
    ensures none { result ≢ OK → result ≢ SMALL → needed.new ≡ 0 }
    ensures upgrade { upgrade.new ≡ upgrade.old }
{
    *needed = 0;
    upgrade.made.clear();
    let Ok(()) = upgrade.made.extend_from_slice(key) else {
        return MEMORY;
    };
    match upgrade.upgrade.rekey(&mut upgrade.made) {
        Ok(true) => copy_out(&upgrade.made, out, needed),
        Ok(false) => NO_IMAGE,
        Err(_) => MEMORY,
    }
}

// Makes the new key of an old key in its place.
pub fn rekey_in_place(upgrade: &mut OpenUpgrade, key: &mut [u8]) -> u32
    ensures ok { result ≡ OK → IsRekeyed upgrade.old key.old key.new }
    ensures no_image { result ≡ NO_IMAGE → rekeyed_in upgrade.old key.old ≡ None }
    ensures statuses { (result ≡ OK) ⊎ (result ≡ NO_IMAGE) ⊎ (result ≡ MEMORY) }
    ensures stays { result ≢ OK → key.new ≡ key.old }
    ensures upgrade { upgrade.new ≡ upgrade.old }
{
    let Ok(has_image) = upgrade.upgrade.rekey(key) else {
        return MEMORY;
    };
    if has_image { OK } else { NO_IMAGE }
}
