//! The sort key of a line of the input (`write_line_key`), its levels alone, or the beginning of it.

ghost use Rattle.std.specs.Prelude.{◌≡◌, ℕ, ◌<◌, ◌^◌, false, IfErr, IfOk, OnOk, chars, length, take};
ghost use Rattle.std.specs.Bool.{OnTrue};
ghost use Rattle.uca_weights.specs.declared.Depth.TheVariants.{Weights};
ghost use Rattle.uca_text.specs.Limits.{IsAccepted};
ghost use Rattle.uca_order.specs.Depths.{read_points};
ghost use Rattle.uca_order.specs.Lengths.{HasShortRows};
ghost use Rattle.uca_key_writer.specs.KeyLevels.{AreLevelsOf};
ghost use Rattle.uca_key_writer.specs.Writers.{collation_by};
ghost use Rattle.uca_run_parts.specs.Input.{cause_of};
ghost use Rattle.uca_order.specs.Keyings.{key_of_bytes, text_of};
ghost use Rattle.uca_key_runs.specs.Keys.{keying_of_writer};
ghost use Rattle.uca_run_parts.specs.Texts.{HasTextCause, is_read};

use std::alloc::Allocator;
use uca_elements::Lookup;
use uca_key_writer::KeyWriter;
use uca_lines::LINE_LIMIT;
use uca_run_parts::faults::InputKind;
use uca_run_parts::input::{InputLines, kind_of_text};

/// Writes the key of the line that was read, over the key that was there.
///
/// # Errors
///
/// Why the line gives no text, or `Memory`.
pub(crate) fn write_line_key<'a, L: Lookup, T: Allocator, A: Allocator>(
    writer: &mut KeyWriter<'a, L, T, A>,
    lines: &InputLines<A>,
) -> Result<(), InputKind>
    ensures key { OnOk result (writer.new.key ≡ key_of_bytes (keying_of_writer L.content writer.old) lines.now.line) }
    ensures clean { (before : ℕ) → before < LINE_LIMIT →
        OnOk result (cause_of (text_of (keying_of_writer L.content writer.old)) before lines.now.line ≡ None) }
    ensures fault { (before : ℕ) → before < LINE_LIMIT →
        IfErr result (HasTextCause (text_of (keying_of_writer L.content writer.old)) before lines.now.line) }
    ensures not_read { is_read result ≡ false }
    ensures short { HasShortRows (collation_by L.content writer.old).rows → OnOk result (length writer.new.key < 2 ^ 40) }
    ensures collation { collation_by L.content writer.new ≡ collation_by L.content writer.old }
    ensures settings { writer.new.settings ≡ writer.old.settings }
{
    match lines.text() {
        Ok(line) => match writer.write(line) {
            Ok(()) => Ok(()),
            Err(fault) => Err(kind_of_text(fault)),
        },
        Err(kind) => Err(kind),
    }
}

/// Writes the levels of the key of the line that was read, over those that were there, and returns `true`. If it returns
/// `false`, call `write_line_key`, which makes the key or says why there is none.
///
/// # Errors
///
/// `Utf8` or `Memory`.
pub(crate) fn write_line_levels<'a, L: Lookup, T: Allocator, A: Allocator>(
    writer: &mut KeyWriter<'a, L, T, A>,
    lines: &InputLines<A>,
) -> Result<bool, InputKind>
    ensures levels { let c = keying_of_writer L.content writer.old in IfOk result (λ written. OnTrue written
        (AreLevelsOf c.settings.weighting (read_points c.collation c.settings.numbers (chars lines.now.line)).elements writer.new.levels)) }
    ensures depth { IfOk result (λ written. OnTrue written (writer.old.settings.depth ≡ Weights)) }
    ensures accepted { IfOk result (λ written. OnTrue written
        (IsAccepted (text_of (keying_of_writer L.content writer.old) lines.now.line))) }
    ensures clean { (before : ℕ) → before < LINE_LIMIT → IfOk result (λ written. OnTrue written
        (cause_of (text_of (keying_of_writer L.content writer.old)) before lines.now.line ≡ None)) }
    ensures fault { (before : ℕ) → before < LINE_LIMIT →
        IfErr result (HasTextCause (text_of (keying_of_writer L.content writer.old)) before lines.now.line) }
    ensures not_read { is_read result ≡ false }
    ensures collation { collation_by L.content writer.new ≡ collation_by L.content writer.old }
    ensures settings { writer.new.settings ≡ writer.old.settings }
{
    match lines.text() {
        Ok(line) => match writer.write_levels(line) {
            Ok(written) => Ok(written),
            Err(_) => Err(InputKind::Memory),
        },
        Err(kind) => Err(kind),
    }
}

/// Writes at least the first sixteen bytes of the key of the line that was read, over the key that was there. A shorter key is
/// written whole.
///
/// # Errors
///
/// Why the line gives no text, or `Memory`.
pub(crate) fn write_line_beginning<'a, L: Lookup, T: Allocator, A: Allocator>(
    writer: &mut KeyWriter<'a, L, T, A>,
    lines: &InputLines<A>,
) -> Result<(), InputKind>
    ensures beginning { OnOk result (take 16 writer.new.key ≡
        take 16 (key_of_bytes (keying_of_writer L.content writer.old) lines.now.line)) }
    ensures clean { (before : ℕ) → before < LINE_LIMIT →
        OnOk result (cause_of (text_of (keying_of_writer L.content writer.old)) before lines.now.line ≡ None) }
    ensures fault { (before : ℕ) → before < LINE_LIMIT →
        IfErr result (HasTextCause (text_of (keying_of_writer L.content writer.old)) before lines.now.line) }
    ensures not_read { is_read result ≡ false }
    ensures collation { collation_by L.content writer.new ≡ collation_by L.content writer.old }
    ensures settings { writer.new.settings ≡ writer.old.settings }
{
    match lines.text() {
        Ok(line) => match writer.write_beginning(line) {
            Ok(()) => Ok(()),
            Err(fault) => Err(kind_of_text(fault)),
        },
        Err(kind) => Err(kind),
    }
}
