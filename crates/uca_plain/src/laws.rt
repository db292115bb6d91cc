//! What is true of texts that are read code point by code point. The functions do nothing: their contracts are the laws.

ghost use Rattle.uca_plain.specs.Plain.{PlainPointsCutTexts, PlainTextsReadByPoints};

/// A text may be cut before each plain code point: its collation elements are those of the piece before it, and then those
/// of the piece from it on. A plain code point decomposes into a starter and what follows it. By the data file it is a
/// starter too, and no key of the table has it after its first code point.
pub fn plain_points_cut_texts()
    ensures { PlainPointsCutTexts }
{}

/// A text of plain code points has the collation elements of its code points, each read as a text of its own, whatever
/// contractions the table has.
pub fn plain_texts_read_by_points()
    ensures { PlainTextsReadByPoints }
{}
