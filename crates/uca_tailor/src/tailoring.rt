//! `tailor`: a tailored table and its certificate.

ghost use Rattle.std.specs.Prelude.{◌↔◌, IsTrue, IfOk, IfErr};
ghost use Rattle.uca_values.specs.Content.{Properties, TableContent, properties_of};
ghost use Rattle.uca_check.specs.WellFormed.{IsWellFormed};
ghost use Rattle.uca_tailorings.specs.Tailorings.{IsAccepted};
ghost use Rattle.uca_tailorings.specs.Meaning.{IsFaithful};
ghost use Rattle.uca_certificates.specs.Certificates.{CertificateContent};
ghost use Rattle.uca_tailorings.specs.Inputs.{tailoring_of};
ghost use Rattle.uca_plans.specs.Tailors.{IsPlanOf, TailorRefuses};

use crate::plan::plan;
use std::alloc::Allocator;
use uca_acceptance::{plans_are_accepted, plans_are_faithful};
use uca_certificates::Certificate;
use uca_check::check;
use uca_plans::{TailorFault, TailorKind};
use uca_relations::Rules;
use uca_values::{Data, Table};

/// Makes a tailored table from a base and rules, and its certificate. The table has the base's header, then its rows in their
/// order, then those of the targets that are not base keys, in the order of the rules. Weights of the base move only
/// where a new weight needs their position. Both take their memory from `alloc`; the base, the data and the rules may
/// have theirs from another allocator.
///
/// # Errors
///
/// `BaseIllFormed` comes first. Then, relation by relation, `Anchor`, `NeedsPrefix`, `Limit` and `ImplicitVariable`; then
/// `NoRoom` for the lowest level that has none. `Memory` may come at any point. Each of the others comes exactly if its
/// cause comes first.
pub fn tailor<A: Allocator + Copy, T: Allocator>(
    alloc: A,
    base: &Table<T>,
    properties: &Data<T>,
    rules: &Rules<T>,
) -> Result<(Table<A>, Certificate<A>), TailorFault>
    // The plan of the definition.
    ensures planned { IfOk result (λ answer. IsPlanOf base.now (properties_of properties.now) rules.now answer.0 answer.1) }

    // An audit accepts it, with all that this means.
    ensures accepted { IfOk result (λ answer. IsAccepted (tailoring_of base.now (properties_of properties.now) rules.now answer.0 answer.1)) }
    ensures faithful { IfOk result (λ answer. IsFaithful (tailoring_of base.now (properties_of properties.now) rules.now answer.0 answer.1)) }

    ensures refused { IfErr result (TailorRefuses base.now (properties_of properties.now) rules.now) }
{
    if !is_well_formed(base, properties) {
        return Err(TailorFault {
            kind: TailorKind::BaseIllFormed,
            relation: 0,
        });
    }
    plans_need_no_audit(base, rules);
    plan(alloc, base, properties, rules)
}

/// A plan over this base is accepted by an audit, with all that this means.
fn plans_need_no_audit<T: Allocator>(base: &Table<T>, rules: &Rules<T>)
    ensures { (points : Properties) (table : TableContent) (certificate : CertificateContent) →
        IsPlanOf base.now points rules.now table certificate →
        IsAccepted (tailoring_of base.now points rules.now table certificate)
        × IsFaithful (tailoring_of base.now points rules.now table certificate) }
{
    // The base is a table, and the rules are rules.
    let header = &base.header;
    let _ = &header.ranges;
    let _ = &base.rows;
    let _ = rules.relations();
    plans_are_accepted();
    plans_are_faithful();
}

/// Whether a table is well-formed.
fn is_well_formed<T: Allocator>(table: &Table<T>, properties: &Data<T>) -> bool
    ensures { IsTrue result ↔ IsWellFormed (properties_of properties.now).class table.now.rows }
{
    check(table, properties).is_ok()
}
