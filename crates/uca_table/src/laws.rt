//! What is true by the definitions alone.

ghost use Rattle.uca_table.specs.Laws.{CanonicalTextMeansItsTable, CanonicalTextMeansTheSame};
ghost use Rattle.uca_table.specs.Worked.{WorkedLines};

/// The law that the definition of what a line says gives the values that were worked out by hand for some lines.
pub fn worked_lines()
    ensures { WorkedLines }
{}

/// The law that the canonical text of a table, which [`crate::write_table`] writes, means this table and
/// no other.
pub fn canonical_text_means_its_table()
    ensures { CanonicalTextMeansItsTable }
{}

/// The law that the canonical text of the table that a file means is a file that means the same. So what
/// was read can be written, and read again.
pub fn canonical_text_means_the_same()
    ensures { CanonicalTextMeansTheSame }
{}
