//! Laws of plans. Each is the contract of a function that does nothing.

ghost use Rattle.uca_plans.specs.Numbering.{NumbersAreProper};
ghost use Rattle.uca_plans.specs.ListLaws.{BaseWeightsOfElements, NewWeightsStandNearest, NewWeightsTakePlaces, NothingStandsBetween, NumbersRiseAlongLists};
ghost use Rattle.uca_plans.specs.Runs.{RunsSendBaseWeights};
ghost use Rattle.uca_plans.specs.Readings.{OneMoreRow, KeysReadAsTheirRows, DraftsReadByWhatOccurs, DraftsReadAsRows, DraftsComeFromRows};
ghost use Rattle.uca_plans.specs.Keys.{RelationsReadOverAllKeys};
ghost use Rattle.uca_plans.specs.Sizes.{PlansHaveSizedRows};
ghost use Rattle.uca_plans.specs.Room.{RoomIsCounted, NoRoomIsCounted};
ghost use Rattle.uca_plans.specs.PlanLaws.{KeysOfPlans, OneOutcome, RunsAreLongest};
ghost use Rattle.uca_plans.specs.WorkedPlans.{WorkedPlans};

/// The plans of some rules, as they were worked out by hand: new letters, accents and capitals, weights that have to move,
/// expansions, and rejections of most kinds.
pub fn worked_plans()
    ensures { WorkedPlans }
{}

/// If a segment has positions for some members, their numbers are positions of the segment, in the order of the
/// members. No other member's number is between those of neighbours. A base weight keeps its number if there is room.
pub fn numbers_are_proper()
    ensures { NumbersAreProper }
{}

/// The base weights of a level are the weights of its elements that are numbered, and the fixed weight, each once, in
/// rising order.
pub fn base_weights_of_elements()
    ensures { BaseWeightsOfElements }
{}

/// If a list has the anchor's weight and not the new one, the new weight is added on its side of the anchor's. All
/// others keep their order, and the new weight has the same order to each of them as the anchor's.
pub fn new_weights_stand_nearest()
    ensures { NewWeightsStandNearest }
{}

/// Then no weight is between the anchor's and the new one, and the weights that were there keep their
/// order.
pub fn nothing_stands_between()
    ensures { NothingStandsBetween }
{}

/// Each new weight takes one position of one segment: of the low or of the high one. It takes one of the low segment if
/// its anchor's weight is below the fixed one, or is the fixed one and the new weight goes before it.
pub fn new_weights_take_places()
    ensures { NewWeightsTakePlaces }
{}

/// If both segments of a level have room, its numbers rise along its list, the fixed weight keeps its own, and none is
/// above the level's greatest.
pub fn numbers_rise_along_lists()
    ensures { NumbersRiseAlongLists }
{}

/// The runs of a list in rising order rise on both sides, send each base weight to its number, and send nothing else.
pub fn runs_send_base_weights()
    ensures { RunsSendBaseWeights }
{}

/// One more draft row. Then its key has its elements, and every other key has what it had. It replaces the row with its
/// key at its position, or comes after all others. Each key that was there keeps its position.
pub fn one_more_row()
    ensures { OneMoreRow }
{}

/// A text that is the key of a draft row has the elements of that row.
pub fn keys_read_as_their_rows()
    ensures { KeysReadAsTheirRows }
{}

/// Drafts that agree at the keys that occur in order in a text give it the same elements. Rows that come later change
/// nothing for it, unless their target occurs in it.
pub fn drafts_read_by_what_occurs()
    ensures { DraftsReadByWhatOccurs }
{}

/// Numbering and reading may be done in either order: with any numbering, a text that is read under the numbered rows
/// has its draft elements, numbered. Implicit elements have to stay as they are.
pub fn drafts_read_as_rows()
    ensures { DraftsReadAsRows }
{}

/// Each draft element of a text is one of a row, or an implicit one of a code point of the text.
pub fn drafts_come_from_rows()
    ensures { DraftsComeFromRows }
{}

/// All keys may be listed before any relation is read: those of the base, and then those of the targets, although the
/// later ones have no row yet. Each relation's anchor and expansion is read over these keys as over the rows so far.
pub fn relations_read_over_all_keys()
    ensures { RelationsReadOverAllKeys }
{}

/// The rows of a plan keep the limits of every table. Each has 1 to 16 code points and 1 to 32 elements, no key comes
/// twice, and there are at most 200,000 rows.
pub fn plans_have_sized_rows()
    ensures { PlansHaveSizedRows }
{}

/// No run of a list goes on from the one before it on both sides, so no two neighbours could be one run.
pub fn runs_are_longest()
    ensures { RunsAreLongest }
{}

/// The rows of a plan are those of the base, in their order. After them come those of the targets that are not base
/// keys, in the order of the rules.
pub fn keys_of_plans()
    ensures { KeysOfPlans }
{}

/// Rules have one outcome over a base. If there is a plan, they are rejected only for an allocation that fails. All
/// other rejections are the same error.
pub fn one_outcome()
    ensures { OneOutcome }
{}

/// Take a well-formed base, and rules without a relation that is rejected. A level has room exactly if each side of its fixed
/// weight (0, 0020, 0002) has room. A side has room if the base weights that are numbered there and the new weights that go
/// there are together not more than its places. A new weight goes to the side of its anchor's weight. Beside the fixed weight
/// itself it goes low if it is put in before it, and high if after. So the insertions alone tell it.
pub fn room_is_counted()
    ensures { RoomIsCounted }
{}

/// Take a well-formed base and rules. `NoRoom` of a level is the error exactly if no relation is rejected, this level lacks room,
/// and each lower level has room. A level lacks room if one side of its fixed weight has more weights, those of the base and the
/// new ones, than places. Below 0020 there are 31 places, and above it 65,503. Below 0002 there is one, and above it 65,533. At
/// level 1 there are 32,767.
pub fn no_room_is_counted()
    ensures { NoRoomIsCounted }
{}
