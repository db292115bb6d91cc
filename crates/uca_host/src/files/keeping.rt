//! The file of a certificate: it is none of the files that are read, and it is kept only as a whole.

ghost use Rattle.std.specs.Prelude.{MatchResult, Result, ◌≡◌};
ghost use Rattle.uca_host.specs.NamedFiles.{AreOthers, EndsFile, IsCertificate, IsFirstSame, KeepsCertificate, edition_files, file_system, make_fault_of, tailor_files};

use crate::files::opens::{MakeFault, Opens};
use std::io::Write;
use uca_certificates::{Certificate, write_certificate};
use uca_run_parts::faults::{Role, RunFault};
use uca_weights::{Sink, WriteFault};
use uca_words::EditionNames;

// Whether this name is that of the certificate: the names are equal, or they are of one file.
fn is_certificate<O: Opens>(opener: &mut O, name: &str, certificate: &str) -> bool
    ensures { IsCertificate (file_system O.calls O.File.remaining O.Made.contents)
        opener.old opener.new name.now certificate.now result }
{
    name == certificate || opener.is_same(name, certificate)
}

/// Looks for the certificate among the files that `tailor` reads. An error is the role of the first that it is.
pub fn find_certificate<O: Opens>(
    opener: &mut O,
    table: &str,
    properties: &str,
    rules: &str,
    certificate: &str,
) -> Result<(), Role>
    ensures { MatchResult result
        (λ done. AreOthers (file_system O.calls O.File.remaining O.Made.contents)
        opener.old opener.new (tailor_files table.now properties.now rules.now) certificate.now)
        (IsFirstSame (file_system O.calls O.File.remaining O.Made.contents)
        opener.old opener.new (tailor_files table.now properties.now rules.now) certificate.now) }
{
    if is_certificate(opener, table, certificate) {
        return Err(Role::Table);
    }
    if is_certificate(opener, properties, certificate) {
        return Err(Role::Data);
    }
    if is_certificate(opener, rules, certificate) {
        return Err(Role::Rules);
    }
    Ok(())
}

/// Looks for the certificate among the files that `changes` reads. An error is the role of the first that it is.
pub fn find_certificate_of_editions<O: Opens>(
    opener: &mut O,
    names: &EditionNames,
    certificate: &str,
) -> Result<(), Role>
    ensures { MatchResult result
        (λ done. AreOthers (file_system O.calls O.File.remaining O.Made.contents)
        opener.old opener.new (edition_files names.now) certificate.now)
        (IsFirstSame (file_system O.calls O.File.remaining O.Made.contents)
        opener.old opener.new (edition_files names.now) certificate.now) }
{
    if is_certificate(opener, names.old, certificate) {
        return Err(Role::Old);
    }
    if is_certificate(opener, names.old_data, certificate) {
        return Err(Role::OldData);
    }
    if is_certificate(opener, names.new, certificate) {
        return Err(Role::New);
    }
    if is_certificate(opener, names.new_data, certificate) {
        return Err(Role::NewData);
    }
    Ok(())
}

// The error of a file that cannot be made or kept.
fn fault_of(fault: MakeFault) -> RunFault
    ensures { result ≡ make_fault_of fault }
{
    match fault {
        MakeFault::Write => RunFault::CertificateWrite { written: 0 },
        MakeFault::Memory => RunFault::Memory,
    }
}

// Keeps a file to which a text went out whole, and removes any other.
fn end_file<O: Opens>(
    opener: &mut O,
    file: O::Made,
    name: &str,
    written: Result<(), WriteFault>,
) -> Result<(), RunFault>
    ensures { EndsFile (file_system O.calls O.File.remaining O.Made.contents)
        opener.old opener.new file name.now written result }
{
    match written {
        Ok(()) => opener.keep(file, name).map_err(fault_of),
        Err(WriteFault { written }) => {
            opener.remove(file);
            Err(RunFault::CertificateWrite { written })
        }
    }
}

/// Writes the certificate to a file that is made for this name, and keeps the file if it is whole.
pub fn keep_certificate<O: Opens>(
    opener: &mut O,
    certificate: &Certificate,
    name: &str,
) -> Result<(), RunFault>
    ensures { KeepsCertificate (file_system O.calls O.File.remaining O.Made.contents)
        opener.old opener.new name.now certificate.now result }
{
    let file = match opener.create(name) {
        Ok(file) => file,
        Err(fault) => return Err(fault_of(fault)),
    };
    let mut sink = Sink::new(file);
    let written = write_certificate(certificate, &mut sink);
    end_file(opener, sink.into_inner(), name, written)
}
