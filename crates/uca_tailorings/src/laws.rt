//! Laws of tailorings. Each is the contract of a function that does nothing.

ghost use Rattle.uca_tailorings.specs.Laws.{AcceptedTailoringsAreFaithful, FaithfulTailoringsKeepUntouchedTexts, KeysMoveByMaps};
ghost use Rattle.uca_tailorings.specs.Worked.{WorkedTailorings};
ghost use Rattle.uca_tailorings.specs.WorkedKeys.{WorkedMovedKeys};

/// Acceptance is about all texts. If a tailoring is accepted:
///
/// - The tailored table is well-formed.
/// - Each relation holds under non-ignorable weighting. Where no element of its anchor and its expansion is variable, it
///   holds under shifted weighting too.
/// - The target of each relation of strength 1 to 3 is next to its anchor.
/// - Any two texts in which no target occurs in order compare as under the base, by order and level, at either depth
///   and under either weighting.
/// - If the maps change no weight, such a text keeps its key.
pub fn accepted_tailorings_are_faithful()
    ensures { AcceptedTailoringsAreFaithful }
{}

/// Two texts in which no target of a faithful tailoring occurs in order are read by lookups of both tables. `compare`
/// returns the same under both. So does `compare_keys` for the keys made under one of them and for those made under the other.
pub fn faithful_tailorings_keep_untouched_texts()
    ensures { FaithfulTailoringsKeepUntouchedTexts }
{}

/// Stored keys after a tailoring. If it is accepted, and no target occurs in order in a text:
///
/// - The elements of the text are the images of those that it had under the base.
/// - So each weight of its key is put through the map of its level. The fourth level goes by the map of level 1.
/// - So a stored key can be mended by the maps alone, with no text and no table. There is no result if a weight has no
///   image, or if the bytes have too few levels, too many, or a single byte at the end. At depth `Identical` there is
///   none either if what follows the weights is not whole code points.
/// - If the maps move none of the weights of the text's elements, the text keeps its key.
///
/// Mended keys, and keys that stay, may be stored beside the keys of all other texts that were made under the tailored
/// table. `compare_keys` returns for them what `compare` returns for their texts under the tailored table.
///
/// For example, let the rule `&a < x` move the primary weight of `b` from 1C48 to 1C49. Then the key
/// `1C48 0000 0020 0000 0002` of `b` becomes `1C49 0000 0020 0000 0002`, and the key of `a` stays. The key of `x` has to
/// be made anew.
pub fn keys_move_by_maps()
    ensures { KeysMoveByMaps }
{}

/// The conditions accept the table `a`, `b` with `x` directly after `a`, as the rule `&a < x` asks: this was worked
/// out by hand. They reject it if `x` has the weight of `b`, comes after `b`, has another weight at level 3, or has no
/// row. They also accept a table of `A`, `a`, `b` and `c` in which `b` moved. Its rules are `&a < x`, `&A << z`,
/// `&[before 1] c < y` and `&a = w / b`. The maps of both are those of proper runs.
pub fn worked_tailorings()
    ensures { WorkedTailorings }
{}

/// The definitions put some stored keys through the maps of a worked tailoring, as was worked out by hand. Some bytes
/// that are no key have no result.
pub fn worked_moved_keys()
    ensures { WorkedMovedKeys }
{}
