//! Laws of changes. Each is the contract of a function that does nothing.

ghost use Rattle.uca_changes.specs.Laws.{ChangesKeepUnaffectedTexts, TailoringsAreChanges};
ghost use Rattle.uca_changes.specs.Worked.{WorkedChanges};

/// Acceptance is about all texts. Take a text in which no changed text occurs in order, and which has no code point of a
/// changed range. With numbers by value that is to be so of what is read of the text: it has the code of each number in place
/// of it. If a change is accepted:
///
/// - Any two such texts compare under the new table and data file as under the old, by order and level, whatever settings
///   are asked for. They do so too where no weighting is asked for: both tables then say the same one.
/// - The elements of such a text are the images of those that it had. So its stored key can be put through the maps.
/// - Keys of such texts that were put through the maps, or stay, may be stored beside new keys of all other texts. They
///   compare as the texts do under the new table.
///
/// Texts are given before normalization. They are read by any lookups of the two tables.
pub fn changes_keep_unaffected_texts()
    ensures { ChangesKeepUnaffectedTexts }
{}

/// An accepted tailoring is an accepted change of its base. The changed texts are the targets of its relations, and no
/// code point changes.
pub fn tailorings_are_changes()
    ensures { TailoringsAreChanges }
{}

/// Two changes are accepted, and four are not: this was worked out by hand. All begin with a table of `a` and `b`. In the
/// first change `b` moves up for a new letter `c`, which is listed. The second one has no `b`, which is listed. Its new table
/// says `@variable shifted`, as tables without `@variable` mean it. The class of some accents is another one, and their range
/// is listed.
///
/// The conditions reject the first change if `c` is not listed, or if the maps keep the weight of `b`. They reject the second
/// one if the range is not listed, or if the new table says `@variable non-ignorable`.
pub fn worked_changes()
    ensures { WorkedChanges }
{}
