//! The file of rules that a run uses, alone or after the data file.

ghost use Rattle.std.specs.Prelude.{◌≡◌, ◌<◌, ◌≤◌, ◌||◌, ◌∷◌, [], ℕ, List, Option, IfOk, IfErr, IfSome, OnOk, MatchBool, length};
ghost use Rattle.std.specs.Io.KnownBytes.{Consumes, IsAtEnd};
ghost use Rattle.uca_values.specs.Content.{properties_of};
ghost use Rattle.uca_rules.specs.Meaning as rule_files;
ghost use Rattle.uca_run_parts.specs.Files.{RefusesRules, data_and_rules, data_and_rules_roles, data_with, is_file_read};
ghost use Rattle.uca_run_parts.specs.ReadFiles.{AreRead, IsNotRead, IsRefused, ReadsFiles, ReadsThat, is_rules_read};

use crate::faults::{FileFault, Role, RunFault};
use crate::files::read_data_file;
use std::alloc::{Allocator, Global};
use std::io::Read;
use uca_relations::Rules;
use uca_rules::read_rules_in;
use uca_values::Data;
use uca_weights::Source;

/// How many bytes are asked for at most: one more than rules may have.
const MOST_BYTES_READ: usize = 1_048_577;

/// How many bytes a read asks for.
const CHUNK: usize = 4096;

/// What the two files mean.
#[derive(Drop)]
pub struct DataAndRules<A: Allocator> {
    /// The properties of code points.
    pub properties: Data<A>,
    /// The rules.
    pub rules: Rules<A>,
}

/// Reads the data file, and then the rules, each to its end or its first error.
///
/// # Errors
///
/// `File` if the data file, or else the rules, are rejected.
pub fn read_data_and_rules<A: Allocator + Copy, D: Read, U: Read>(
    alloc: A,
    global: Global,
    properties: &mut Source<D>,
    rules: &mut Source<U>,
) -> Result<DataAndRules<A>, RunFault>
    ensures { ReadsFiles data_and_rules data_and_rules_roles (properties.old ∷ rules.old ∷ []) (properties.new ∷ rules.new ∷ [])
        (λ files. data_with (properties_of files.properties) files.rules) result }
{
    match read_data_file(alloc, Role::Data, properties) {
        Ok(properties) => match read_rule_file(alloc, global, rules, &properties) {
            Ok(rules) => Ok(DataAndRules { properties, rules }),
            Err(fault) => {
                drop(properties);
                Err(fault)
            }
        },
        Err(fault) => Err(fault),
    }
}

/// Reads the rules, whose texts have the classes of `properties`, to their end or their first error. It reads at most
/// one byte more than rules may have. Texts in Normalization Form D are taken from `global`, all else from `alloc`.
///
/// # Errors
///
/// `File` with the role `Rules`, if they are rejected.
pub fn read_rule_file<A: Allocator + Copy, U: Read>(
    alloc: A,
    global: Global,
    source: &mut Source<U>,
    properties: &Data<A>,
) -> Result<Rules<A>, RunFault>
    ensures means { IfOk result (λ rules. IfSome source.old.remaining (λ bytes. rule_files.Means (properties_of properties.now) bytes rules)) }
    ensures only { ReadsThat source.old.remaining (rule_files.Means (properties_of properties.now)) result }
    ensures refused { IfErr result (IsRefused Role.Rules source.old source.new (RefusesRules (properties_of properties.now))) }
    ensures failed { source.new.failed ≡ (source.old.failed || is_file_read Role.Rules result) }
{
    let role = Role::Rules;
    let bytes = match read_bytes(alloc, source) {
        Ok(bytes) => bytes,
        Err(fault) => return Err(RunFault::File { role, fault }),
    };
    match read_rules_in(alloc, global, &bytes, properties) {
        Ok(rules) => Ok(rules),
        Err(fault) => Err(RunFault::File {
            role,
            fault: FileFault::Rules(fault),
        }),
    }
}

// Reads a source to its end, but at most `MOST_BYTES_READ` bytes.
fn read_bytes<A: Allocator, R: Read>(
    alloc: A,
    source: &mut Source<R>,
) -> Result<Vec<u8, A>, FileFault>
    ensures bytes { IfOk result (λ bytes. AreRead source.old.remaining source.new.remaining bytes.items) }
    ensures refused { IfErr result (IsNotRead source.old.remaining source.new.remaining) }
    ensures failed { source.new.failed ≡ (source.old.failed || is_rules_read result) }
{
    let mut bytes = Vec::new(alloc);
    let mut chunk = [0; CHUNK];
    while bytes.len() < MOST_BYTES_READ {
        if !read_more(source, &mut chunk, &mut bytes)? {
            break;
        }
    }
    Ok(bytes)
}

// Reads bytes after those that were read, and returns whether there were some.
fn read_more<A: Allocator, R: Read>(
    source: &mut Source<R>,
    chunk: &mut [u8; CHUNK],
    bytes: &mut Vec<u8, A>,
) -> Result<bool, FileFault>
    requires room { length bytes.old.items < MOST_BYTES_READ }
    ensures loses { OnOk result ((start : Option (List ℕ)) → Consumes start source.old.remaining bytes.old.items → Consumes start source.new.remaining bytes.new.items) }
    ensures few { OnOk result (length bytes.new.items ≤ MOST_BYTES_READ) }
    ensures more { IfOk result (λ more. MatchBool more (length bytes.old.items < length bytes.new.items) (IsAtEnd source.new.remaining)) }
    ensures refused { IfErr result (λ fault. (start : Option (List ℕ)) → Consumes start source.old.remaining bytes.old.items → IsNotRead start source.new.remaining fault) }
    ensures failed { source.new.failed ≡ (source.old.failed || is_rules_read result) }
{
    let most = CHUNK.min(MOST_BYTES_READ - bytes.len());
    let Ok(count) = source.read(&mut chunk[..most]) else {
        return Err(FileFault::RulesRead);
    };
    match bytes.extend_from_slice(&chunk[..count]) {
        Ok(()) => Ok(count > 0),
        Err(_) => Err(FileFault::RulesMemory),
    }
}
