//! What is true of lines that are rekeyed. The functions do nothing: their contracts are the laws.

ghost use Rattle.uca_rekey.specs.Laws.{LinesBecomeCompactLines, LinesMoveWithKeys};
ghost use Rattle.uca_rekey.specs.WorkedLines.{WorkedLines};

/// What rekeying means for the lines of a text whose key moves by the maps, as `keys_move_by_maps` of `uca_tailorings` says of
/// texts in which no target occurs. Its old line becomes its new line, at any depth and under any weighting. This is so of the lines that
/// the run of keys prints, and of those with the key before the line.
pub fn lines_move_with_keys()
    ensures { LinesMoveWithKeys }
{}

/// What compacting means for the lines that the runs of keys print of a text of UTF-8, under each table. The line of its key
/// becomes the line that the runs of compact keys print, and no other one. This is so of keys alone, and of those before a
/// row. So lines of compact keys compare as texts do (`compact_keys_compare_as_texts` of `uca_compact`), whichever way they
/// were made.
pub fn lines_become_compact_lines()
    ensures { LinesBecomeCompactLines }
{}

/// The definitions give the new lines of some lines with compact keys, also after a header, and the errors of others, as
/// was worked out by hand.
pub fn worked_lines()
    ensures { WorkedLines }
{}
