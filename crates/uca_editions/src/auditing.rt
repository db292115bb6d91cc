//! `audit_change`: tests the nine conditions in their order, and stops at the first that is not met. It judges two
//! tables, two data files, a list of changes and a certificate:
//!
//! ```text
//! old, new, their data files ──────────────> conditions 1 and 2: two well-formed tables
//! headers, changes ─> borders of ranges ───> condition 3: implicit weights by the ranges that are not as they were
//! old, changes, images ────────────────────> condition 4: weights without an image
//! new ─> Trie ─> rows of old, changes ─────> conditions 5 and 6: rows that are no images, or are missing
//! old ─> Trie ─> rows of new, changes ─────> condition 7: rows that are too many
//! data files, changes ─> borders of ranges > condition 8: code points that are not as they were
//! headers ─────────────────────────────────> condition 9: the weighting that both tables say
//! ```
//!
//! Between two borders of ranges nothing changes. So conditions 3 and 8 look at the code points where a range begins or
//! has ended, and at no others.

ghost use Rattle.std.specs.Prelude.{◌≡◌, ◌⊎◌, IfErr, OnOk};
ghost use Rattle.uca_changes.specs.Changes.{IsAcceptedChange};
ghost use Rattle.uca_editions.specs.ChangeInputs.{change_in, MeansUnaffectedTextsStay};
ghost use Rattle.uca_editions.specs.ChangeRefusals.{IsFirstRefusal};

use crate::conditions::audit_conditions;
use crate::{ChangeFault, ChangeInputs};
use std::alloc::Allocator;
use uca_changes::changes_keep_unaffected_texts;
use uca_images::{know_certificate, know_table};

/// Audits a change. It accepts exactly if the nine conditions are met, and then promises what follows from them.
///
/// It takes time in proportion to the two tables, and to the ranges of both data files. A row's key takes n log n steps for n
/// listed texts.
///
/// # Errors
///
/// `NotMet` has the first condition that is not met, in the order of [`ChangeCondition`](crate::ChangeCondition), and the
/// first position where it is not. For a table that is not well-formed that is the row that `uca_check` names, for other
/// conditions the first row of its table or the least code point. `SettingChanged` has no position: its place is `Nowhere`.
/// `Memory` means that an allocation failed.
pub fn audit_change<A: Allocator + Copy, T: Allocator>(
    alloc: A,
    inputs: &ChangeInputs<T>,
) -> Result<(), ChangeFault>
    // All conditions are met.
    ensures accepted { OnOk result (IsAcceptedChange (change_in inputs.now)) }

    // So by any lookups of the two tables, texts that the change leaves as they are compare as before, and their stored keys
    // are put through the maps.
    ensures meaning { OnOk result (MeansUnaffectedTextsStay (change_in inputs.now)) }

    ensures refused { IfErr result (λ fault. IsFirstRefusal (change_in inputs.now) fault ⊎ (fault ≡ ChangeFault.Memory)) }
{
    match audit_conditions(alloc, inputs) {
        Ok(()) => {
            meaning(inputs);
            Ok(())
        }
        Err(fault) => Err(fault),
    }
}

// What follows if all conditions are met.
fn meaning<T: Allocator>(inputs: &ChangeInputs<T>)
    requires { IsAcceptedChange (change_in inputs.now) }
    ensures { MeansUnaffectedTextsStay (change_in inputs.now) }
{
    // The arguments' invariants, brought into scope for the proof.
    know_table(inputs.old);
    know_table(inputs.new);
    know_certificate(inputs.certificate);
    changes_keep_unaffected_texts();
}
