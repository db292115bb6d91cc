//! How the levels of a key are joined in the caller's memory. For example, `1C 47`, `00 20` and `00 02` become
//! `1C 47 00 00 00 20 00 00 00 02`.

ghost use Rattle.std.specs.Prelude.{◌≡◌, ◌≢◌, ◌⊎◌, ◌+◌, ◌++◌, ◌∷◌, ◌≤◌, List, ℕ, None, Some, length, drop, IfSome};
ghost use Rattle.uca_c.specs.Results.{WritesKey, IsTooSmall};
ghost use Rattle.uca_c.specs.inside.Joining.{IsWritten, joined_levels};

use crate::statuses::{OK, SMALL};
use uca_key_writer::KeyLevels;
use uca_order::SEPARATOR;
use uca_weights::Weighting;

// How many bytes the levels have when they are joined. There is no result if no memory has so many.
#[inline(always)]
fn joined_len(levels: &KeyLevels<'_>, weighting: Weighting) -> Option<usize>
    ensures { IfSome result (λ len. len ≡ length (joined_levels weighting levels.now)) }
{
    let two = levels.primary.len().checked_add(levels.secondary.len())?;
    let three = two.checked_add(levels.tertiary.len())?.checked_add(4)?;
    match weighting {
        Weighting::NonIgnorable => Some(three),
        Weighting::Shifted => three.checked_add(levels.quaternary.len())?.checked_add(2),
    }
}

// Writes bytes after those that are written, and returns how many are written then.
#[inline(always)]
fn put_bytes(out: &mut [u8], at: usize, bytes: &[u8]) -> usize
    requires { at + length bytes.now ≤ length out.old }
    ensures written { (key before : List ℕ) → IsWritten key before at out.old → IsWritten (key ++ bytes.now) before result out.new }
    ensures count { result ≡ at + length bytes.now }
    ensures room { length out.new ≡ length out.old }
{
    let end = at + bytes.len();
    out[at..end].copy_from_slice(bytes);
    end
}

// Writes a level after those that are written, with a separator before it.
#[inline(always)]
fn put_level(out: &mut [u8], at: usize, level: &[u8]) -> usize
    requires { at + (2 + length level.now) ≤ length out.old }
    ensures written { (key before : List ℕ) → IsWritten key before at out.old →
        IsWritten (key ++ (0 ∷ 0 ∷ level.now)) before result out.new }
    ensures count { result ≡ at + (2 + length level.now) }
    ensures room { length out.new ≡ length out.old }
{
    let at = put_bytes(out, at, &SEPARATOR);
    put_bytes(out, at, level)
}

// Writes the levels one after another where the caller has room, and how many bytes they have. There is no result if no memory
// has so many bytes.
pub(crate) fn join_levels(
    levels: &KeyLevels<'_>,
    weighting: Weighting,
    out: &mut [u8],
    needed: &mut usize,
) -> Option<u32>
    ensures ok { IfSome result (λ status. status ≡ OK → WritesKey (joined_levels weighting levels.now) out.old out.new needed.new) }
    ensures small { IfSome result (λ status. status ≡ SMALL → IsTooSmall (joined_levels weighting levels.now) out.old needed.new) }
    ensures statuses { IfSome result (λ status. (status ≡ OK) ⊎ (status ≡ SMALL)) }
    ensures unwritten { (result ≢ Some OK) → out.new ≡ out.old }
    ensures none { result ≡ None → needed.new ≡ needed.old }
{
    let len = joined_len(levels, weighting)?;
    *needed = len;
    if out.len() < len {
        return Some(SMALL);
    }
    let at = put_bytes(out, 0, levels.primary);
    let at = put_level(out, at, levels.secondary);
    let at = put_level(out, at, levels.tertiary);
    match weighting {
        Weighting::NonIgnorable => {}
        Weighting::Shifted => {
            put_level(out, at, levels.quaternary);
        }
    }
    Some(OK)
}
