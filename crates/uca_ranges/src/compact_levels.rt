//! Both ends of ranges of compact keys by the first levels of a stored key.

ghost use Rattle.std.specs.Prelude.{◌≡◌, ◌↔◌, ℕ, suc, ◌+◌, ◌-◌, ◌<◌, ◌≤◌, List, [], ◌∷◌, ◌++◌, true, IsTrue, IfOk, OnOk};
ghost use Rattle.uca_order.specs.Levels.{level_count};
ghost use Rattle.uca_ranges.specs.Ranges.{FindsCompactLevels, HasCompactLevels};
ghost use Rattle.uca_ranges.specs.inside.NoPoints.{no_points};

use crate::levels::levels_end;
use crate::plain::push_plain_levels;
use std::alloc::{AllocError, Allocator};
use uca_compact::KeyCompacter;
use uca_weights::{Depth, Settings, Weighting};

// How many levels of weights a key has.
fn level_total(weighting: Weighting) -> usize
    ensures is { result ≡ level_count weighting }
    ensures few { result ≤ 4 }
{
    match weighting {
        Weighting::NonIgnorable => 3,
        Weighting::Shifted => 4,
    }
}

// Whether it is one of these levels at least, and not more.
fn are_some_of(count: usize, all: usize) -> bool
    ensures { IsTrue result ↔ ((0 < count) × (count ≤ all)) }
{
    count > 0 && count <= all
}

// Writes an identical level without code points, where keys have one.
fn push_no_points<A: Allocator>(key: &mut Vec<u8, A>, depth: Depth) -> Result<(), AllocError>
    ensures { OnOk result (key.new.items ≡ key.old.items ++ no_points depth) }
{
    match depth {
        Depth::Weights => {}
        Depth::Identical => key.extend_from_slice(&[0, 0])?,
    }
    Ok(())
}

// Makes both ends of a range, of the key with plain levels: its last byte is the end of a level. So many levels are
// after the first ones.
fn part_ends<A: Allocator>(
    low: &mut Vec<u8, A>,
    high: &mut Vec<u8, A>,
    later: u8,
) -> Result<(), AllocError>
    ensures low { (front : List ℕ) (end : ℕ) → high.old.items ≡ front ++ end ∷ [] → OnOk result (low.new.items ≡ front ++ (end - later) ∷ []) }
    ensures high { (front : List ℕ) (end : ℕ) → high.old.items ≡ front ++ end ∷ [] → end + suc later < 256 →
        OnOk result (high.new.items ≡ front ++ (end + suc later) ∷ []) }
{
    let end = high.pop().unwrap_or(0);
    low.clear();
    low.extend_from_slice(high)?;
    low.push(end.saturating_sub(later))?;
    high.push(end.saturating_add(later).saturating_add(1))?;
    Ok(())
}

/// Writes both ends of the range of compact keys that have the first levels of this stored key, over the bytes that were
/// there, and returns `true`. For example, `count` is 1 for the same letters, and 2 for the same letters and accents.
///
/// The compacter was made with these settings. It stays as it is, and its memory is used.
///
/// The bytes are to be a stored key of the settings, of at least so many levels, and `count` is at least 1. For others
/// it may return `false`, and what was written is then unspecified. It returns `true` only if keys of the settings have
/// so many levels, and the bytes begin with as many. Then both ends are those of the range by these levels.
///
/// # Errors
///
/// An allocation failed. The bytes are then unspecified.
pub fn write_same_compact_levels_range<A: Allocator, B: Allocator>(
    compacter: &mut KeyCompacter<B>,
    settings: Settings,
    key: &[u8],
    count: usize,
    low: &mut Vec<u8, A>,
    high: &mut Vec<u8, A>,
) -> Result<bool, AllocError>
    requires settings { compacter.old.settings ≡ settings }
    ensures same { compacter.new ≡ compacter.old }
    ensures levels { IfOk result (λ found. FindsCompactLevels settings compacter.old.book count key.now found low.new.items high.new.items) }
    ensures found { IfOk result (λ found. found ≡ true →
        HasCompactLevels settings compacter.old.book count key.now low.new.items high.new.items) }
{
    let all = level_total(settings.weighting);
    if !are_some_of(count, all) {
        return Ok(false);
    }
    let end = match levels_end(key, count) {
        Some(end) => end,
        None => return Ok(false),
    };
    low.clear();
    low.extend_from_slice(&key[..end])?;
    push_plain_levels(low, count, all)?;
    push_no_points(low, settings.depth)?;
    if !compacter.write_compact(low, high)? {
        return Ok(false);
    }
    part_ends(low, high, all.saturating_sub(count) as u8)?;
    Ok(true)
}
