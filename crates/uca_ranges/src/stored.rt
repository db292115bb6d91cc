//! Both ends of ranges of stored keys.

ghost use Rattle.std.specs.Prelude.{◌≡◌, [], ◌∷◌, ◌++◌, IfOk, OnOk, None, Some, option_map, if◌then◌else◌};
ghost use Rattle.uca_order.specs.Levels.{level_bytes};
ghost use Rattle.uca_compact.specs.Forms.{AreWeights};
ghost use Rattle.uca_compact.specs.StoredParts.{stored_level};
ghost use Rattle.uca_ranges.specs.Ranges.{levels_low, levels_high, letters_low, letters_high};

use std::alloc::{AllocError, Allocator};

/// Reads the weights of level 1 of a stored key over those that were there, and returns `true`.
///
/// It returns `false` if a single byte is left at the end of a key with one level. The weights are then unspecified.
///
/// # Errors
///
/// An allocation failed. The weights are then unspecified.
pub fn read_letters<A: Allocator>(key: &[u8], letters: &mut Vec<u16, A>) -> Result<bool, AllocError>
    ensures letters { IfOk result (λ found. option_map (λ level. level.weights) (stored_level key.now) ≡ (if found then Some letters.new.items else None)) }
    ensures weights { IfOk result (λ found. AreWeights letters.new.items) }
{
    letters.clear();
    let mut at = 0;
    while at + 1 < key.len() {
        let weight = 256 * u16::from(key[at]) + u16::from(key[at + 1]);
        if weight == 0 {
            return Ok(true);
        }
        letters.push(weight)?;
        at += 2;
    }
    Ok(at == key.len())
}

// Writes weights, two bytes each.
fn push_weights<A: Allocator>(out: &mut Vec<u8, A>, weights: &[u16]) -> Result<(), AllocError>
    ensures { OnOk result (out.new.items ≡ out.old.items ++ level_bytes weights.now) }
{
    for weight in weights {
        out.push((*weight / 256) as u8)?;
        out.push((*weight % 256) as u8)?;
    }
    Ok(())
}

/// Writes both ends of the range of stored keys whose level 1 is these weights, over the bytes that were there.
///
/// # Errors
///
/// An allocation failed. The bytes are then unspecified.
pub fn write_same_letters_range<A: Allocator>(
    letters: &[u16],
    low: &mut Vec<u8, A>,
    high: &mut Vec<u8, A>,
) -> Result<(), AllocError>
    ensures low { OnOk result (low.new.items ≡ levels_low (letters.now ∷ [])) }
    ensures high { OnOk result (high.new.items ≡ levels_high (letters.now ∷ [])) }
{
    low.clear();
    push_weights(low, letters)?;
    high.clear();
    push_weights(high, letters)?;
    high.extend_from_slice(&[0, 1])?;
    Ok(())
}

/// Writes both ends of the range of stored keys whose level 1 begins with these weights, over the bytes that were there.
/// A key is not in the range if the weight after them is FFFF.
///
/// # Errors
///
/// An allocation failed. The bytes are then unspecified.
pub fn write_letters_range<A: Allocator>(
    letters: &[u16],
    low: &mut Vec<u8, A>,
    high: &mut Vec<u8, A>,
) -> Result<(), AllocError>
    ensures low { OnOk result (low.new.items ≡ letters_low letters.now) }
    ensures high { OnOk result (high.new.items ≡ letters_high letters.now) }
{
    low.clear();
    push_weights(low, letters)?;
    high.clear();
    push_weights(high, letters)?;
    high.extend_from_slice(&[0xFF, 0xFF])?;
    Ok(())
}
