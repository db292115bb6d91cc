//! The three files that a tailoring is made by.

ghost use Rattle.std.specs.Prelude.{◌≡◌, ◌⊎◌, ◌∷◌, []};
ghost use Rattle.uca_run_parts.specs.Files.{data_and_rules_roles, rules_over, tailor_content, tailor_files, tailor_roles};
ghost use Rattle.uca_run_parts.specs.ReadFiles.{ReadsFiles};
ghost use Rattle.uca_values.specs.Content.{properties_of};

use crate::faults::{Role, RunFault};
use crate::files::read_table_file;
use crate::rule_file::read_data_and_rules;
use std::alloc::{Allocator, Global};
use std::io::Read;
use uca_relations::Rules;
use uca_values::{Data, Table};
use uca_weights::Source;

/// What the files of a tailoring mean.
#[derive(Drop)]
pub struct TailorFiles<A: Allocator = Global> {
    /// The weight table before the tailoring.
    pub base: Table<A>,
    /// The properties of code points.
    pub properties: Data<A>,
    /// The rules.
    pub rules: Rules<A>,
}

/// Reads the files of a tailoring, in turn, each to its end or its first error.
///
/// # Errors
///
/// `File` for the first that is rejected.
pub fn read_tailor_files<A: Allocator + Copy, B: Read, D: Read, U: Read>(
    alloc: A,
    global: Global,
    base: &mut Source<B>,
    properties: &mut Source<D>,
    rules: &mut Source<U>,
) -> Result<TailorFiles<A>, RunFault>
    ensures { ReadsFiles tailor_files tailor_roles (base.old ∷ properties.old ∷ rules.old ∷ [])
        (base.new ∷ properties.new ∷ rules.new ∷ [])
        (λ files. tailor_content files.base (properties_of files.properties) files.rules) result }
{
    read_files_over(alloc, global, Role::Table, base, properties, rules)
}

/// Reads a table that has this role, the data file and the rules, in turn, each to its end or its first error.
///
/// # Errors
///
/// `File` for the first that is rejected.
pub(crate) fn read_files_over<A: Allocator + Copy, B: Read, D: Read, U: Read>(
    alloc: A,
    global: Global,
    role: Role,
    base: &mut Source<B>,
    properties: &mut Source<D>,
    rules: &mut Source<U>,
) -> Result<TailorFiles<A>, RunFault>
    requires { (role ≡ Role.Table) ⊎ (role ≡ Role.Base) }
    ensures { ReadsFiles (rules_over role) (role ∷ data_and_rules_roles) (base.old ∷ properties.old ∷ rules.old ∷ [])
        (base.new ∷ properties.new ∷ rules.new ∷ [])
        (λ files. tailor_content files.base (properties_of files.properties) files.rules) result }
{
    match read_table_file(alloc, role, base) {
        Ok(base) => match read_data_and_rules(alloc, global, properties, rules) {
            Ok(given) => Ok(TailorFiles {
                base,
                properties: given.properties,
                rules: given.rules,
            }),
            Err(fault) => {
                drop(base);
                Err(fault)
            }
        },
        Err(fault) => Err(fault),
    }
}
