//! Laws of changes and of their audits. Each is the contract of a function that does nothing.

ghost use Rattle.uca_editions.specs.AffectedTexts.{AffectedByChangesAreTheOthers};
ghost use Rattle.uca_editions.specs.ChangeRefusals.{RefusedChangesAreNotAccepted};

/// No change is both accepted and rejected: if an audit names a condition and a position, the change is not accepted. So
/// `Ok` is exact, unless an allocation failed.
pub fn refused_changes_are_not_accepted()
    ensures { RefusedChangesAreNotAccepted }
{}

/// Changes affect all texts but those that a change with these texts and ranges leaves as they are. In each of them a changed
/// text occurs in order, or a code point lies in a changed range. In no other text that is so.
pub fn affected_by_changes_are_the_others()
    ensures { AffectedByChangesAreTheOthers }
{}
