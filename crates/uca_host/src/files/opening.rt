//! The files of a subcommand: they are opened in the order of the arguments, and nothing of them is read.

ghost use Rattle.std.specs.Prelude.{◌∷◌, [], MatchResult};
ghost use Rattle.uca_host.specs.NamedFiles.{AreOpened, DoesNotOpen, audit_files, change_files, edition_files, file_for, file_system, table_and_data};

use crate::files::opens::Opens;
use std::io::Read;
use uca_run_parts::faults::Role;
use uca_weights::Source;
use uca_words::EditionNames;

/// The source of a file, or its role if it does not open.
pub fn open_one<O: Opens>(opener: &mut O, role: Role, name: &str) -> Result<Source<O::File>, Role>
    ensures { MatchResult result
        (λ source. AreOpened (file_system O.calls O.File.remaining O.Made.contents)
        opener.old opener.new (file_for role name.now ∷ []) (source ∷ []))
        (DoesNotOpen (file_system O.calls O.File.remaining O.Made.contents)
        opener.old opener.new (file_for role name.now ∷ [])) }
{
    match opener.open(name) {
        Ok(opened) => Ok(Source::new(opened)),
        Err(_) => Err(role),
    }
}

/// The sources of two files, which are opened in this order, or the role of the first that does not open.
pub fn open_two<O: Opens>(
    opener: &mut O,
    first: Role,
    first_name: &str,
    second: Role,
    second_name: &str,
) -> Result<(Source<O::File>, Source<O::File>), Role>
    ensures { MatchResult result
        (λ files. AreOpened (file_system O.calls O.File.remaining O.Made.contents)
        opener.old opener.new (file_for first first_name.now ∷ file_for second second_name.now ∷ []) (files.0 ∷ files.1 ∷ []))
        (DoesNotOpen (file_system O.calls O.File.remaining O.Made.contents)
        opener.old opener.new (file_for first first_name.now ∷ file_for second second_name.now ∷ [])) }
{
    let Ok(one) = opener.open(first_name) else {
        return Err(first);
    };
    let Ok(other) = opener.open(second_name) else {
        return Err(second);
    };
    Ok((Source::new(one), Source::new(other)))
}

/// The sources of a table file and of a data file, which are opened in this order, or the role of the first that does not
/// open.
pub fn open_files<O: Opens>(
    opener: &mut O,
    table: &str,
    properties: &str,
) -> Result<(Source<O::File>, Source<O::File>), Role>
    ensures { MatchResult result
        (λ files. AreOpened (file_system O.calls O.File.remaining O.Made.contents)
        opener.old opener.new (table_and_data table.now properties.now) (files.0 ∷ files.1 ∷ []))
        (DoesNotOpen (file_system O.calls O.File.remaining O.Made.contents)
        opener.old opener.new (table_and_data table.now properties.now)) }
{
    open_two(opener, Role::Table, table, Role::Data, properties)
}

/// The sources of three files, which are opened in this order, or the role of the first that does not open.
pub fn open_three<O: Opens>(
    opener: &mut O,
    first: Role,
    first_name: &str,
    second: Role,
    second_name: &str,
    third: Role,
    third_name: &str,
) -> Result<(Source<O::File>, Source<O::File>, Source<O::File>), Role>
    ensures { MatchResult result
        (λ files. AreOpened (file_system O.calls O.File.remaining O.Made.contents)
        opener.old opener.new (file_for first first_name.now ∷ file_for second second_name.now ∷ file_for third third_name.now ∷ [])
        (files.0 ∷ files.1 ∷ files.2 ∷ []))
        (DoesNotOpen (file_system O.calls O.File.remaining O.Made.contents)
        opener.old opener.new (file_for first first_name.now ∷ file_for second second_name.now ∷ file_for third third_name.now ∷ [])) }
{
    match open_two(opener, first, first_name, second, second_name) {
        Ok((one, other)) => match open_one(opener, third, third_name) {
            Ok(last) => Ok((one, other, last)),
            Err(role) => Err(role),
        },
        Err(role) => Err(role),
    }
}

/// The sources of the files of `audit`.
#[derive(Drop)]
pub struct OpenedAudit<F: Read + Drop> {
    pub base: Source<F>,
    pub properties: Source<F>,
    pub rules: Source<F>,
    pub tailored: Source<F>,
    pub certificate: Source<F>,
}

/// The sources of the files of `audit`, which are opened in the order of the arguments, or the first that does not open.
pub fn open_audit_files<O: Opens>(
    opener: &mut O,
    base: &str,
    data_file: &str,
    rules: &str,
    tailored: &str,
    certificate: &str,
) -> Result<OpenedAudit<O::File>, Role>
    ensures { MatchResult result
        (λ files. AreOpened (file_system O.calls O.File.remaining O.Made.contents)
        opener.old opener.new (audit_files base.now data_file.now rules.now tailored.now certificate.now)
        (files.base ∷ files.properties ∷ files.rules ∷ files.tailored ∷ files.certificate ∷ []))
        (DoesNotOpen (file_system O.calls O.File.remaining O.Made.contents)
        opener.old opener.new (audit_files base.now data_file.now rules.now tailored.now certificate.now)) }
{
    match open_three(
        opener,
        Role::Base,
        base,
        Role::Data,
        data_file,
        Role::Rules,
        rules,
    ) {
        Ok((base, properties, rules)) => match open_two(
            opener,
            Role::Tailored,
            tailored,
            Role::Certificate,
            certificate,
        ) {
            Ok((tailored, certificate)) => Ok(OpenedAudit {
                base,
                properties,
                rules,
                tailored,
                certificate,
            }),
            Err(role) => Err(role),
        },
        Err(role) => Err(role),
    }
}

/// The sources of two tables and their data files.
#[derive(Drop)]
pub struct OpenedEditions<F: Read + Drop> {
    pub old: Source<F>,
    pub old_data: Source<F>,
    pub new: Source<F>,
    pub new_data: Source<F>,
}

/// The sources of two tables and their data files, which are opened in the order of the arguments, or the first that does
/// not open.
pub fn open_editions<O: Opens>(
    opener: &mut O,
    names: &EditionNames,
) -> Result<OpenedEditions<O::File>, Role>
    ensures { MatchResult result
        (λ files. AreOpened (file_system O.calls O.File.remaining O.Made.contents)
        opener.old opener.new (edition_files names.now) (files.old ∷ files.old_data ∷ files.new ∷ files.new_data ∷ []))
        (DoesNotOpen (file_system O.calls O.File.remaining O.Made.contents) opener.old opener.new (edition_files names.now)) }
{
    match open_two(opener, Role::Old, names.old, Role::OldData, names.old_data) {
        Ok((old, old_data)) => match open_two(
            opener,
            Role::New,
            names.new,
            Role::NewData,
            names.new_data,
        ) {
            Ok((new, new_data)) => Ok(OpenedEditions {
                old,
                old_data,
                new,
                new_data,
            }),
            Err(role) => Err(role),
        },
        Err(role) => Err(role),
    }
}

/// The sources of the files of `audit-changes`.
#[derive(Drop)]
pub struct OpenedChange<F: Read + Drop> {
    pub editions: OpenedEditions<F>,
    pub changes: Source<F>,
    pub certificate: Source<F>,
}

/// The sources of the files of `audit-changes`, which are opened in the order of the arguments, or the first that does not
/// open.
pub fn open_change_files<O: Opens>(
    opener: &mut O,
    names: &EditionNames,
    changes: &str,
    certificate: &str,
) -> Result<OpenedChange<O::File>, Role>
    ensures { MatchResult result
        (λ files. AreOpened (file_system O.calls O.File.remaining O.Made.contents)
        opener.old opener.new (change_files names.now changes.now certificate.now)
        (files.editions.old ∷ files.editions.old_data ∷ files.editions.new ∷ files.editions.new_data ∷ files.changes ∷ files.certificate ∷ []))
        (DoesNotOpen (file_system O.calls O.File.remaining O.Made.contents)
        opener.old opener.new (change_files names.now changes.now certificate.now)) }
{
    match open_editions(opener, names) {
        Ok(editions) => match open_two(
            opener,
            Role::Changes,
            changes,
            Role::Certificate,
            certificate,
        ) {
            Ok((changes, certificate)) => Ok(OpenedChange {
                editions,
                changes,
                certificate,
            }),
            Err(role) => {
                drop(editions);
                Err(role)
            }
        },
        Err(role) => Err(role),
    }
}
