//! `audit`: tests the eleven conditions in their order, and stops at the first that fails. Where all are met, it calls
//! the law of accepted tailorings with the invariants of the five values. So its `Ok` has what the law says.
//!
//! The anchors of all relations are read twice, once for condition 8 and once for 9. A trie of the tailored table is
//! kept from condition 5 on, and one of the base for condition 7 alone. The images of all weights take 0.4 MB from
//! condition 4 on. Conditions 1 to 3 take no memory.

ghost use Rattle.std.specs.Prelude.{◌≡◌, ◌⊎◌, IfErr, OnOk};
ghost use Rattle.std.specs.List.{AllZip};
ghost use Rattle.uca_values.specs.Content.{properties_of};
ghost use Rattle.uca_tailorings.specs.Tailorings.{IsTailoring, IsAccepted};
ghost use Rattle.uca_tailorings.specs.Meaning.{IsFaithful};
ghost use Rattle.uca_tailorings.specs.Inputs.{tailoring_of};
ghost use Rattle.uca_audit.specs.inside.Views.{tailoring_in, IsPlacement};
ghost use Rattle.uca_audit.specs.Refusals.{IsFirstRefusal, IsMemory};
ghost use Rattle.uca_audit.specs.inside.Chaining.{AreTargetsOf, FindsRowsOf, MeetsBelow, Passes};

use crate::base_images::known_weights;
use crate::conditions::anchors::anchors_are_there;
use crate::conditions::placements::Placement;
use crate::conditions::rows::{rows_are_expected, rows_are_unchanged, weights_are_covered};
use crate::conditions::weights::{new_weights_are_fresh, targets_are_nearest};
use crate::conditions::{
    base_is_well_formed, headers_are_same, rows_are_present, tailored_is_well_formed,
    targets_are_placed,
};
use crate::inputs::Inputs;
use crate::targets::Targets;
use crate::{AuditFault, Certificate};
use std::alloc::Allocator;
use uca_elements::{Collator, Lookup};
use uca_images::{Images, know_certificate, know_table};
use uca_match::Trie;
use uca_relations::Rules;
use uca_tailorings::accepted_tailorings_are_faithful;
use uca_values::{Data, Table};

/// Audits a tailoring. It accepts exactly if the eleven conditions are met, and then promises what follows from them.
///
/// # Errors
///
/// The first condition that fails, by its number, and the first position where it does; 12 if an allocation failed.
pub fn audit<A: Allocator + Copy, T: Allocator>(
    alloc: A,
    base: &Table<T>,
    properties: &Data<T>,
    rules: &Rules<T>,
    tailored: &Table<T>,
    certificate: &Certificate<T>,
) -> Result<(), AuditFault>
    // All conditions are met.
    ensures accepted { OnOk result (IsAccepted (tailoring_of base.now (properties_of properties.now) rules.now tailored.now certificate.now)) }

    // So the tailored table is well-formed. Each relation holds under non-ignorable weighting. It holds under shifted
    // weighting too, if no element of its anchor and its expansion is variable. Each target of strength 1 to 3 is next to its
    // anchor. Any two texts in which no target occurs in order compare as under the base, at either depth and under
    // either weighting. If no weight is changed, they keep their keys.
    ensures faithful { OnOk result (IsFaithful (tailoring_of base.now (properties_of properties.now) rules.now tailored.now certificate.now)) }

    ensures refused { IfErr result (λ fault.
        IsFirstRefusal (tailoring_of base.now (properties_of properties.now) rules.now tailored.now certificate.now) fault
        ⊎ IsMemory fault) }
{
    let inputs = Inputs {
        base,
        properties,
        rules,
        tailored,
        certificate,
    };
    audit_inputs(alloc, &inputs)?;
    meaning(&inputs);
    Ok(())
}

// All conditions. What is made for some of them is lent to the functions below: so it is dropped in one place.
fn audit_inputs<A: Allocator + Copy, T: Allocator>(
    alloc: A,
    inputs: &Inputs<T>,
) -> Result<(), AuditFault>
    ensures { Passes (tailoring_in inputs.now) 12 result }
{
    audit_tables(inputs)?;
    let images = Images::new(alloc, inputs.certificate)?;
    audit_images(alloc, inputs, &images)
}

// Conditions 1 to 3.
fn audit_tables<T: Allocator>(inputs: &Inputs<T>) -> Result<(), AuditFault>
    ensures { Passes (tailoring_in inputs.now) 4 result }
{
    base_is_well_formed(inputs)?;
    tailored_is_well_formed(inputs)?;
    headers_are_same(inputs)
}

// Conditions 4 to 11, which look weights up in the images. A lookup of the tailored table serves those from the fifth on.
fn audit_images<A: Allocator + Copy, T: Allocator>(
    alloc: A,
    inputs: &Inputs<T>,
    images: &Images<A, T>,
) -> Result<(), AuditFault>
    requires images { images.now ≡ inputs.now.certificate.now }
    requires met { MeetsBelow (tailoring_in inputs.now) 4 }
    ensures { Passes (tailoring_in inputs.now) 12 result }
{
    weights_are_covered(inputs, images)?;
    let tailored = Trie::new(alloc, inputs.tailored)?;
    audit_lookup(alloc, inputs, images, &tailored)
}

// Conditions 5 to 11, by a lookup of the tailored table.
fn audit_lookup<A: Allocator + Copy, T: Allocator>(
    alloc: A,
    inputs: &Inputs<T>,
    images: &Images<A, T>,
    tailored: &Trie<A>,
) -> Result<(), AuditFault>
    requires images { images.now ≡ inputs.now.certificate.now }
    requires rows { FindsRowsOf (tailoring_in inputs.now).tailored (⟦<Trie<A> as Lookup>⟧.content tailored.now) }
    requires met { MeetsBelow (tailoring_in inputs.now) 5 }
    ensures { Passes (tailoring_in inputs.now) 12 result }
{
    audit_rows(alloc, inputs, images, tailored)?;
    audit_relations(alloc, inputs, images, tailored)
}

// Conditions 5 to 7.
fn audit_rows<A: Allocator + Copy, T: Allocator>(
    alloc: A,
    inputs: &Inputs<T>,
    images: &Images<A, T>,
    tailored: &Trie<A>,
) -> Result<(), AuditFault>
    requires images { images.now ≡ inputs.now.certificate.now }
    requires rows { FindsRowsOf (tailoring_in inputs.now).tailored (⟦<Trie<A> as Lookup>⟧.content tailored.now) }
    requires met { MeetsBelow (tailoring_in inputs.now) 5 }
    ensures { Passes (tailoring_in inputs.now) 8 result }
{
    let targets = Targets::new(alloc, inputs.rules.relations())?;
    audit_table_rows(alloc, inputs, images, tailored, &targets)
}

// Conditions 5 to 7, by a lookup of the targets.
fn audit_table_rows<A: Allocator + Copy, T: Allocator>(
    alloc: A,
    inputs: &Inputs<T>,
    images: &Images<A, T>,
    tailored: &Trie<A>,
    targets: &Targets<A>,
) -> Result<(), AuditFault>
    requires images { images.now ≡ inputs.now.certificate.now }
    requires rows { FindsRowsOf (tailoring_in inputs.now).tailored (⟦<Trie<A> as Lookup>⟧.content tailored.now) }
    requires targets { AreTargetsOf (tailoring_in inputs.now).relations targets.now }
    requires met { MeetsBelow (tailoring_in inputs.now) 5 }
    ensures { Passes (tailoring_in inputs.now) 8 result }
{
    rows_are_unchanged(inputs, tailored, targets, images)?;
    rows_are_present(inputs, tailored)?;
    rows_are_expected(alloc, inputs, targets)
}

// Conditions 8 to 11.
fn audit_relations<A: Allocator + Copy, T: Allocator>(
    alloc: A,
    inputs: &Inputs<T>,
    images: &Images<A, T>,
    tailored: &Trie<A>,
) -> Result<(), AuditFault>
    requires images { images.now ≡ inputs.now.certificate.now }
    requires rows { FindsRowsOf (tailoring_in inputs.now).tailored (⟦<Trie<A> as Lookup>⟧.content tailored.now) }
    requires met { MeetsBelow (tailoring_in inputs.now) 8 }
    ensures { Passes (tailoring_in inputs.now) 12 result }
{
    let table = inputs.tailored;
    let collator = Collator::new(tailored, &table.header, inputs.properties);
    anchors_are_there(alloc, inputs, &collator)?;
    let mut placements = Vec::new(alloc);
    targets_are_placed(alloc, inputs, &collator, &mut placements)?;
    audit_new_weights(alloc, inputs, images, &placements)
}

// Conditions 10 and 11, by where the targets were placed.
fn audit_new_weights<A: Allocator + Copy, T: Allocator>(
    alloc: A,
    inputs: &Inputs<T>,
    images: &Images<A, T>,
    placements: &[Placement],
) -> Result<(), AuditFault>
    requires images { images.now ≡ inputs.now.certificate.now }
    requires placed { AllZip (IsPlacement (tailoring_in inputs.now)) (tailoring_in inputs.now).relations placements.now }
    requires met { MeetsBelow (tailoring_in inputs.now) 10 }
    ensures { Passes (tailoring_in inputs.now) 12 result }
{
    let mut known = known_weights(alloc, inputs, images)?;
    new_weights_are_fresh(alloc, inputs, placements, &known)?;
    targets_are_nearest(inputs, placements, &mut known)
}

// What follows if all conditions are met.
fn meaning<T: Allocator>(inputs: &Inputs<T>)
    requires { IsAccepted (tailoring_in inputs.now) }
    ensures { IsFaithful (tailoring_in inputs.now) }
{
    know(inputs);
    accepted_tailorings_are_faithful();
}

// The arguments' invariants, brought into scope for the proof.
fn know<T: Allocator>(inputs: &Inputs<T>)
    ensures { IsTailoring (tailoring_in inputs.now) }
{
    know_table(inputs.base);
    know_table(inputs.tailored);
    know_certificate(inputs.certificate);
    let _ = inputs.rules.relations();
}
