//! Reads the levels and the code points of stored keys.

ghost use Rattle.std.specs.Prelude.{◌≡◌, ◌+◌, ◌<◌, ◌++◌, length, IfNone, IfOk, IfSome, OnOk, if◌then◌else◌, None, Some};
ghost use Rattle.std.specs.Char.{encode_utf8};
ghost use Rattle.std.specs.List.{AllByRecursion};
ghost use Rattle.uca_lanes.specs.Pairs.{pair_at};
ghost use Rattle.uca_compact.specs.LevelBytes.{AreWeightBytes, level_bytes_in, weights_in};
ghost use Rattle.uca_compact.specs.StoredParts.{stored_level, stored_parts, stored_points};
ghost use Rattle.uca_compact.specs.inside.StoredEnds.{level_of, parts_of, points_of, with_points};

use crate::level_bytes::LevelBytes;
use std::alloc::{AllocError, Allocator};
use uca_weights::{Depth, Weighting};

/// A level of a stored key.
#[derive(Clone, Copy)]
pub(crate) struct SplitLevel<'a> {
    /// Its weights.
    pub(crate) level: &'a [u8],
    /// How it ends.
    pub(crate) end: StoredEnd<'a>,
}

/// How a level of a stored key ends.
#[derive(Clone, Copy)]
pub(crate) enum StoredEnd<'a> {
    /// By 00 00, before these bytes.
    Next(&'a [u8]),
    /// With the key.
    Key,
    /// In a single byte.
    Single,
}

/// The weight at this position.
#[inline(always)]
pub(crate) fn weight_at(bytes: &[u8], at: usize) -> u32
    requires { at + 1 < length bytes.now }
    ensures is { result ≡ pair_at bytes.now at }
    ensures small { result < 65536 }
{
    256 * u32::from(bytes[at]) + u32::from(bytes[at + 1])
}

/// The level that these bytes begin with: up to 00 00, or up to their end.
pub(crate) fn split_level(bytes: &[u8]) -> SplitLevel<'_>
    ensures read { stored_level bytes.now ≡ level_of result.end (weights_in result.level.now) }
    ensures weights { AreWeightBytes result.level.now }
{
    let mut at = 0;
    while at + 1 < bytes.len() {
        if bytes[at] == 0 && bytes[at + 1] == 0 {
            return SplitLevel {
                level: &bytes[..at],
                end: StoredEnd::Next(&bytes[at + 2..]),
            };
        }
        at += 2;
    }
    let end = if at == bytes.len() {
        StoredEnd::Key
    } else {
        StoredEnd::Single
    };
    SplitLevel {
        level: &bytes[..at],
        end,
    }
}

/// A stored key.
#[derive(Clone, Copy)]
pub(crate) struct SplitKey<'a> {
    /// Its levels.
    pub(crate) levels: LevelBytes<'a>,
    /// How the last of these ends.
    pub(crate) end: StoredEnd<'a>,
}

/// The levels of a stored key of this weighting. It is `None` if the key has too few.
pub(crate) fn split_key(key: &[u8], weighting: Weighting) -> Option<SplitKey<'_>>
    ensures levels { IfSome result (λ split. AllByRecursion AreWeightBytes (level_bytes_in weighting split.levels)) }
    ensures parts { IfSome result (λ split. (depth : Depth) → stored_parts depth weighting key.now ≡ parts_of weighting split.levels (points_of depth split.end)) }
    ensures none { IfNone result ((depth : Depth) → stored_parts depth weighting key.now ≡ None) }
{
    let first = split_level(key);
    let StoredEnd::Next(rest) = first.end else {
        return None;
    };
    let second = split_level(rest);
    let StoredEnd::Next(rest) = second.end else {
        return None;
    };
    let third = split_level(rest);
    let mut levels = LevelBytes {
        letters: first.level,
        accents: second.level,
        cases: third.level,
        variables: &[],
    };
    match weighting {
        Weighting::NonIgnorable => Some(SplitKey {
            levels,
            end: third.end,
        }),
        Weighting::Shifted => {
            let StoredEnd::Next(rest) = third.end else {
                return None;
            };
            let fourth = split_level(rest);
            levels.variables = fourth.level;
            Some(SplitKey {
                levels,
                end: fourth.end,
            })
        }
    }
}

// Writes a code point as UTF-8.
fn push_point<A: Allocator>(out: &mut Vec<u8, A>, point: char) -> Result<(), AllocError>
    ensures { OnOk result (out.new.items ≡ out.old.items ++ encode_utf8 point) }
{
    let mut room = [0; 4];
    out.extend_from_slice(point.encode_utf8(&mut room).as_bytes())?;
    Ok(())
}

// Writes code points of three bytes each as UTF-8, and returns whether the bytes are such code points. If they are not,
// what was written is unspecified.
#[inline(never)]
fn push_points<A: Allocator>(out: &mut Vec<u8, A>, bytes: &[u8]) -> Result<bool, AllocError>
    ensures { IfOk result (λ found. with_points out.old.items (stored_points bytes.now) ≡ (if found then Some out.new.items else None)) }
{
    let mut at = 0;
    while at + 2 < bytes.len() {
        let number = 65536 * u32::from(bytes[at])
            + 256 * u32::from(bytes[at + 1])
            + u32::from(bytes[at + 2]);
        match char::from_u32(number) {
            Some(point) => push_point(out, point)?,
            None => return Ok(false),
        }
        at += 3;
    }
    Ok(at == bytes.len())
}

/// Writes the code points after the last level of weights, which ends so, and returns whether a key may end so.
#[inline(always)]
pub(crate) fn push_points_after<A: Allocator>(
    out: &mut Vec<u8, A>,
    depth: Depth,
    end: StoredEnd<'_>,
) -> Result<bool, AllocError>
    ensures { IfOk result (λ found. with_points out.old.items (points_of depth end.entry) ≡ (if found then Some out.new.items else None)) }
{
    match (depth, end) {
        (Depth::Weights, StoredEnd::Key) => Ok(true),
        (Depth::Identical, StoredEnd::Next(bytes)) => push_points(out, bytes),
        _ => Ok(false),
    }
}
