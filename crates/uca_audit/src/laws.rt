//! Laws of audits. Each is the contract of a function that does nothing.

ghost use Rattle.uca_audit.specs.Refusals.{RefusedTailoringsAreNotAccepted};

/// No tailoring is both accepted and rejected: if an audit names a condition and a position, the tailoring is not
/// accepted. So `Ok` is exact, unless an allocation failed.
pub fn refused_tailorings_are_not_accepted()
    ensures { RefusedTailoringsAreNotAccepted }
{}
