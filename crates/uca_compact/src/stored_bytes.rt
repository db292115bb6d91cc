//! Writes the bytes of stored keys.

ghost use Rattle.std.specs.Prelude.{◌≡◌, ◌+◌, ◌*◌, ◌∷◌, ◌++◌, chars, length, take, None, OnOk, IfOk, Some, option_map, if◌then◌else◌};
ghost use Rattle.uca_weights.specs.declared.Depth.TheVariants.{Identical};
ghost use Rattle.uca_order.specs.Depths;
ghost use Rattle.uca_order.specs.Depths.{points_bytes};
ghost use Rattle.uca_order.specs.Levels.{level_bytes};
ghost use Rattle.uca_compact.specs.inside.LevelSteps.{key_end};

use std::alloc::{AllocError, Allocator};
use uca_order::SEPARATOR;
use uca_weights::Depth;

/// Adds a level to a key: its weights, two bytes each.
pub(crate) fn push_weights<A: Allocator>(
    key: &mut Vec<u8, A>,
    weights: &[u16],
) -> Result<(), AllocError>
    ensures { OnOk result (key.new.items ≡ key.old.items ++ level_bytes weights.now) }
{
    let start = key.len();
    key.resize(start + 2 * weights.len(), 0)?;
    put_weights(key.as_mut_slice(), start, weights);
    Ok(())
}

// Writes weights over the bytes from a position on, two bytes each.
fn put_weights(bytes: &mut [u8], start: usize, weights: &[u16])
    requires { length bytes.old ≡ start + 2 * length weights.now }
    ensures { bytes.new ≡ take start bytes.old ++ level_bytes weights.now }
{
    for (number, weight) in weights.iter().enumerate() {
        let at = start + 2 * number;
        bytes[at] = (*weight / 256) as u8;
        bytes[at + 1] = (*weight % 256) as u8;
    }
}

/// Adds a level to a key, after a separator.
pub(crate) fn push_next<A: Allocator>(
    key: &mut Vec<u8, A>,
    weights: &[u16],
) -> Result<(), AllocError>
    ensures { OnOk result (key.new.items ≡ key.old.items ++ (0 ∷ 0 ∷ level_bytes weights.now)) }
{
    key.extend_from_slice(&SEPARATOR)?;
    push_weights(key, weights)
}

// A code point as three bytes, the high one first.
fn point_bytes(point: char) -> [u8; 3]
    ensures { result ≡ Depths.point_bytes point }
{
    let [_, high, middle, low] = u32::from(point).to_be_bytes();
    [high, middle, low]
}

// Adds the code points of a text, three bytes each.
fn push_points<A: Allocator>(key: &mut Vec<u8, A>, text: &str) -> Result<(), AllocError>
    ensures { OnOk result (key.new.items ≡ key.old.items ++ points_bytes (chars text.now)) }
{
    for point in text.chars() {
        key.extend_from_slice(&point_bytes(point))?;
    }
    Ok(())
}

// Adds an identical level to a key: the code points that these bytes are as UTF-8. It returns whether they are UTF-8.
fn push_identical<A: Allocator>(key: &mut Vec<u8, A>, bytes: &[u8]) -> Result<bool, AllocError>
    ensures { IfOk result (λ found. option_map (λ more. key.old.items ++ more) (key_end Identical bytes.now) ≡ (if found then Some key.new.items else None)) }
{
    match str::from_utf8(bytes) {
        Ok(text) => {
            key.extend_from_slice(&SEPARATOR)?;
            push_points(key, text)?;
            Ok(true)
        }
        Err(_) => Ok(false),
    }
}

/// Adds to a key what follows its levels, by the bytes after the levels of a compact key. It returns whether a compact
/// key may end so.
pub(crate) fn push_end<A: Allocator>(
    key: &mut Vec<u8, A>,
    depth: Depth,
    bytes: &[u8],
) -> Result<bool, AllocError>
    ensures { IfOk result (λ found. option_map (λ more. key.old.items ++ more) (key_end depth bytes.now) ≡ (if found then Some key.new.items else None)) }
{
    match depth {
        Depth::Weights => Ok(bytes.is_empty()),
        Depth::Identical => push_identical(key, bytes),
    }
}
