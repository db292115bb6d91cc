//! That Normalization Form D keeps Unicode scalar values.
#![tactic(auto)]

ghost use Rattle.uca_scalars.specs.Scalars.{NormalFormsHaveScalars};

/// Normalization Form D (UAX #15) of Unicode scalar values has such values alone. The function does nothing: its contract
/// is the law.
pub fn normal_forms_have_scalars()
    ensures { NormalFormsHaveScalars }
{}
