//! The five files that an audit uses.

ghost use Rattle.std.specs.Prelude.{◌≡◌, ◌∷◌, []};
ghost use Rattle.uca_tailorings.specs.Inputs.{tailoring_of};
ghost use Rattle.uca_run_parts.specs.Files.{audit_files, audit_roles};
ghost use Rattle.uca_run_parts.specs.ReadFiles.{ReadsFiles, outcome_files, outcome_of, outcome_roles};
ghost use Rattle.uca_values.specs.Content.{properties_of};

use crate::faults::{Role, RunFault};
use crate::files::{read_certificate_file, read_table_file};
use crate::tailor_files::{TailorFiles, read_files_over};
use std::alloc::{Allocator, Global};
use std::io::Read;
use uca_certificates::Certificate;
use uca_relations::Rules;
use uca_values::{Data, Table};
use uca_weights::Source;

/// What the files of an audit mean.
#[derive(Drop)]
pub struct AuditFiles<A: Allocator = Global> {
    /// The weight table before the tailoring.
    pub base: Table<A>,
    /// The properties of code points.
    pub properties: Data<A>,
    /// The rules.
    pub rules: Rules<A>,
    /// The weight table after the tailoring.
    pub tailored: Table<A>,
    /// The images of the base's weights.
    pub certificate: Certificate<A>,
}

/// Reads the files of an audit, in turn, each to its end or its first error.
///
/// # Errors
///
/// `File` for the first that is rejected.
pub fn read_audit_files<A: Allocator + Copy, B: Read, D: Read, U: Read, T: Read, C: Read>(
    alloc: A,
    global: Global,
    base: &mut Source<B>,
    properties: &mut Source<D>,
    rules: &mut Source<U>,
    tailored: &mut Source<T>,
    certificate: &mut Source<C>,
) -> Result<AuditFiles<A>, RunFault>
    ensures { ReadsFiles audit_files audit_roles (base.old ∷ properties.old ∷ rules.old ∷ tailored.old ∷ certificate.old ∷ [])
        (base.new ∷ properties.new ∷ rules.new ∷ tailored.new ∷ certificate.new ∷ [])
        (λ files. tailoring_of files.base (properties_of files.properties) files.rules files.tailored files.certificate) result }
{
    match read_files_over(alloc, global, Role::Base, base, properties, rules) {
        Ok(given) => match read_outcome(alloc, tailored, certificate) {
            Ok(outcome) => Ok(files_of(given, outcome)),
            Err(fault) => {
                drop(given);
                Err(fault)
            }
        },
        Err(fault) => Err(fault),
    }
}

// The files of an audit, by what the tailoring was made by and what it gave.
fn files_of<A: Allocator>(given: TailorFiles<A>, outcome: Outcome<A>) -> AuditFiles<A>
    ensures { result ≡ record {
      base = given.base;
      properties = given.properties;
      rules = given.rules;
      tailored = outcome.tailored;
      certificate = outcome.certificate;
    } }
{
    AuditFiles {
        base: given.base,
        properties: given.properties,
        rules: given.rules,
        tailored: outcome.tailored,
        certificate: outcome.certificate,
    }
}

// What a tailoring gave.
#[derive(Drop)]
struct Outcome<A: Allocator> {
    tailored: Table<A>,
    certificate: Certificate<A>,
}

// Reads the table after the tailoring, and then the certificate.
fn read_outcome<A: Allocator + Copy, T: Read, C: Read>(
    alloc: A,
    tailored: &mut Source<T>,
    certificate: &mut Source<C>,
) -> Result<Outcome<A>, RunFault>
    ensures { ReadsFiles outcome_files outcome_roles (tailored.old ∷ certificate.old ∷ [])
        (tailored.new ∷ certificate.new ∷ []) (λ files. outcome_of files.tailored files.certificate) result }
{
    match read_table_file(alloc, Role::Tailored, tailored) {
        Ok(tailored) => match read_certificate_file(alloc, certificate) {
            Ok(certificate) => Ok(Outcome {
                tailored,
                certificate,
            }),
            Err(fault) => {
                drop(tailored);
                Err(fault)
            }
        },
        Err(fault) => Err(fault),
    }
}
