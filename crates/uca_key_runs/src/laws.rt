//! What is true of lines and their keys in all runs. The functions at most call the laws of keys that theirs follow
//! from: their contracts are the laws.

ghost use Rattle.uca_run_parts.specs.AffectedRun.{AffectedTextsAreTheOthers};
ghost use Rattle.uca_key_runs.specs.Laws.{LineKeysCompareAsLines, CanonicallyEquivalentLinesHaveOneKeyLine, IdenticalLineKeysAreOfEquivalentLines, KeyOrderIsOne, UntouchedLinesKeepTheirOrder, NumbersOrderLines};

use uca_number_keys::laws::{numbers_order_texts, numeric_texts_read_by_value};
use uca_order::laws::{identical_keys_are_of_equivalent_texts, keys_compare_as_texts};
use uca_tailorings::accepted_tailorings_are_faithful;

/// Between two lines of an input the byte order of their keys is the multilevel order of their texts
/// (UTS #10, sections 1.1 and 7.4). This is so with any table, data file, weighting and depth. The keys are equal
/// exactly if no level differs.
pub fn line_keys_compare_as_lines()
    ensures { LineKeysCompareAsLines }
{
    keys_compare_as_texts();
}

/// Lines whose texts are canonically equivalent (UAX #15) have the same key line.
pub fn canonically_equivalent_lines_have_one_key_line()
    ensures { CanonicallyEquivalentLinesHaveOneKeyLine }
{}

/// With an identical level lines whose texts are not canonically equivalent have different keys.
pub fn identical_line_keys_are_of_equivalent_lines()
    ensures { IdenticalLineKeysAreOfEquivalentLines }
{
    identical_keys_are_of_equivalent_texts();
}

/// The lines of an input have one key order with any table, data file, weighting and depth. It is the
/// rearrangement in which keys never fall and lines of equal keys keep their order. So the text that a run of sort
/// is promised to write is the only one that its definition allows.
pub fn key_order_is_one()
    ensures { KeyOrderIsOne }
{}

/// What an accepted tailoring means for the lines of an input. Take lines without an error in whose texts no target
/// occurs. They compare under the tailored table as under the base, by order and by the level at which they differ, and
/// so do the bytes of their keys. This is so at any depth and under any weighting that is asked for. If the maps change
/// no weight, each such line has the same key and the same key line under both tables.
pub fn untouched_lines_keep_their_order()
    ensures { UntouchedLinesKeepTheirOrder }
{
    accepted_tailorings_are_faithful();
    line_keys_compare_as_lines();
}

/// A run of affected lines prints all lines but those that the rules leave as they are. A target occurs in order in the text
/// of each, and in the text of no other line.
pub fn affected_texts_are_the_others()
    ensures { AffectedTextsAreTheOthers }
{}

/// Lines whose numbers are ordered by value: `file 9` comes before `file 10`. Two lines that do not differ at level 1 before
/// a number are ordered by the values of these numbers, and so are the bytes of their keys. A run takes only a table for
/// which this is true.
pub fn numbers_order_lines()
    ensures { NumbersOrderLines }
{
    numbers_order_texts();
    numeric_texts_read_by_value();
}
