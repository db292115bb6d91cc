//! Plain levels after the first levels of a stored key.

ghost use Rattle.std.specs.Prelude.{◌≡◌, ℕ, ◌-◌, ◌<◌, ◌≤◌, List, [], ◌∷◌, ◌++◌, OnOk, length, false};
ghost use Rattle.uca_order.specs.Levels.{level_bytes, levels_bytes};
ghost use Rattle.uca_compact.specs.Forms.{AreLevels};
ghost use Rattle.uca_compact.specs.PlainLevels.{copies, plain_level};
ghost use Rattle.uca_ranges.specs.Ranges.{plain_levels};
ghost use Rattle.uca_ranges.specs.inside.WeightCounts as weight_counts;
ghost use Rattle.uca_ranges.specs.inside.WeightCounts.{weights_counted};

use crate::levels::levels_left;
use std::alloc::{AllocError, Allocator};

// A weight, so many times.
#[derive(Clone, Copy)]
struct Run {
    weight: u16,
    count: usize,
}

// Whether the next weight is left out.
fn leads(leaves_out: bool, after_lead: bool, weight: u16) -> bool
    ensures { result ≡ weight_counts.leads leaves_out after_lead weight }
{
    leaves_out && !after_lead && 0xFB00 <= weight && weight < 0xFC00
}

// One where a weight counts, and zero where it does not.
fn counted(left: usize, after_lead: bool, weight: u16) -> usize
    ensures is { result ≡ weight_counts.counted left after_lead weight }
    ensures few { result ≤ 1 }
{
    if left == 1 && weight != 0 && !after_lead {
        1
    } else {
        0
    }
}

// How many weights the last of so many levels has. Those after leads may be left out.
fn weight_count(bytes: &[u8], level: usize, leaves_out: bool) -> usize
    ensures count { result ≡ weights_counted leaves_out false level bytes.now }
    ensures few { result ≤ length bytes.now }
{
    let mut left = level;
    let mut after_lead = false;
    let mut count = 0;
    let mut at = 0;
    while at + 1 < bytes.len() {
        let weight = 256 * u16::from(bytes[at]) + u16::from(bytes[at + 1]);
        count += counted(left, after_lead, weight);
        after_lead = leads(leaves_out, after_lead, weight);
        left = levels_left(left, weight);
        at += 2;
    }
    count
}

// The plain level after so many levels.
fn plain_run(bytes: &[u8], count: usize) -> Run
    ensures { (levels : List (List ℕ)) → AreLevels count levels → 0 < count → bytes.now ≡ levels_bytes levels → copies result.weight result.count ≡ plain_level levels }
{
    let letters = weight_count(bytes, 1, true);
    if count == 1 {
        return Run {
            weight: 0x20,
            count: letters,
        };
    }
    if count == 2 {
        return Run {
            weight: 2,
            count: weight_count(bytes, 2, false),
        };
    }
    let later = weight_count(bytes, 1, false).saturating_sub(letters);
    Run {
        weight: 0xFFFF,
        count: weight_count(bytes, 3, false) + later,
    }
}

// Writes a weight so many times, two bytes each.
fn push_copies<A: Allocator>(
    out: &mut Vec<u8, A>,
    weight: u16,
    count: usize,
) -> Result<(), AllocError>
    ensures { OnOk result (out.new.items ≡ out.old.items ++ level_bytes (copies weight count)) }
{
    let mut left = count;
    while left > 0 {
        out.push((weight / 256) as u8)?;
        out.push((weight % 256) as u8)?;
        left -= 1;
    }
    Ok(())
}

// Writes the plain level after so many levels.
fn push_plain_level<A: Allocator>(bytes: &mut Vec<u8, A>, count: usize) -> Result<(), AllocError>
    ensures { (levels : List (List ℕ)) → AreLevels count levels → 0 < count → bytes.old.items ≡ levels_bytes levels →
        OnOk result (bytes.new.items ≡ levels_bytes (levels ++ plain_level levels ∷ [])) }
{
    let run = plain_run(bytes, count);
    bytes.extend_from_slice(&[0, 0])?;
    push_copies(bytes, run.weight, run.count)?;
    Ok(())
}

/// Writes plain levels after so many levels, up to this number of levels.
pub(crate) fn push_plain_levels<A: Allocator>(
    bytes: &mut Vec<u8, A>,
    count: usize,
    all: usize,
) -> Result<(), AllocError>
    ensures { (levels : List (List ℕ)) → AreLevels count levels → 0 < count → bytes.old.items ≡ levels_bytes levels →
        OnOk result (bytes.new.items ≡ levels_bytes (levels ++ plain_levels levels (all - count))) }
{
    let mut done = count;
    while done < all {
        push_plain_level(bytes, done)?;
        done += 1;
    }
    Ok(())
}
