//! Laws of the definitions of reading. Each is the contract of a function that does nothing.

ghost use Rattle.std.specs.Prelude.{List, []};
ghost use Rattle.uca_weights.specs.declared.Element.{Element};
ghost use Rattle.uca_elements.specs.Laws.{OneReading, RowsByKey, KeysReadAsRows, IsKeptByAppend, RelatedRowsReadAlike, SameKeysReadByParts, PartsOfTexts, ElementsOfParts};
ghost use Rattle.uca_elements.specs.Cuts.{PartsInPieces, TextsReadInPieces};
ghost use Rattle.uca_elements.specs.WorkedReadings.{WorkedReadings};

use std::marker::Brand;

/// The collation elements of texts are defined twice, and both definitions give the same.
///
/// The first definition is a system of three equations, after step S2 of UTS #10:
///
/// - The empty text has no elements.
/// - A text that no key begins has the implicit weights of its first code point, and then the elements of what follows.
/// - A text that a key begins has the row of the longest such key (S2.1), extended by the non-starters that are
///   removed after it (S2.1.1 to S2.1.3). Then it has the elements of the skipped non-starters and of what follows
///   them.
///
/// The second is a function that computes them. The law says that the function satisfies the equations, and that every
/// function which satisfies them is this one, for all rows and all implicit weights.
pub fn one_reading()
    ensures { OneReading }
{}

/// The rows of a table as a map: a list of code points is a key exactly if some row has it. If no
/// key comes twice, as in every table, it has the elements of that one row.
pub fn rows_by_key()
    ensures { RowsByKey }
{}

/// A text that is a key reads as its row: it is its own longest match, and nothing follows that would extend it.
pub fn keys_read_as_rows()
    ensures { KeysReadAsRows }
{}

/// A relation between lists of elements that holds for two empty lists, and is kept where lists are put
/// together.
///
/// No type can stand for a relation that depends on the values of a program. Use
/// [`same_keys_read_by_parts`] there: the same follows from it for every relation.
pub trait RelatesElements {
    // which lists are related
    ghost related: { List Element → List Element → Type 0 };

    // two empty lists are
    ghost empty: { related [] [] };

    // the relation is kept where lists are put together
    ghost kept: { IsKeptByAppend related };
}

/// Equality, unless the proof of a caller picks another relation.
impl RelatesElements for Brand {
    ghost use Rattle.std.specs.Prelude.{◌≡◌, ◌++◌, refl};
    ghost use Rattle.std.proofs.Common.{ap₂};

    ghost related = { λ es fs. es ≡ fs };

    ghost empty = { refl };

    ghost kept = { λ es fs gs hs first second. ap₂ (λ front rest. front ++ rest) first second };
}

/// Two maps have related rows at each key that occurs in order in a text, and the implicit weights of its
/// code points are related. Then the two readings of the text are related. The relation may be any that holds for empty
/// lists and is kept where lists are put together.
pub fn related_rows_read_alike<R: RelatesElements>()
    ensures { RelatedRowsReadAlike R.related }
{}

/// If two maps have the same keys among those that occur in order in a text, its two readings have the same
/// parts. Each part is the two rows of one such key, or the two implicit weights of one code point of the text.
pub fn same_keys_read_by_parts()
    ensures { SameKeysReadByParts }
{}

/// What a text is matched as, for a set of keys: each part is a key that occurs in order in the text, or a code
/// point of it. The parts depend on no other keys, and a text that is a key is the one part of itself.
pub fn parts_of_texts()
    ensures { PartsOfTexts }
{}

/// The collation elements of a text are those of its parts in turn: the row of each key, and the
/// implicit weights of each other code point.
pub fn elements_of_parts()
    ensures { ElementsOfParts }
{}

/// A text may be cut before a starter that no key has after its first code point. It is matched as its two pieces in
/// turn, and its collation elements are those of the pieces. This holds for every set of keys and all rows.
pub fn texts_read_in_pieces()
    ensures parts { PartsInPieces }
    ensures reading { TextsReadInPieces }
{}

/// The definitions give the elements that were worked out by hand for some texts: letters, accents,
/// code points with implicit weights, contractions, and non-starters that are skipped, blocked or removed.
pub fn worked_readings()
    ensures { WorkedReadings }
{}
