//! What keys go by, read from a table and a data file.

ghost use Rattle.std.specs.Prelude.{◌≡◌, ◌∷◌, [], true, IfOk, IfErr, MatchResult};
ghost use Rattle.uca_values.specs.Content.{properties_of};
ghost use Rattle.uca_elements.specs.Rows.{rows_of};
ghost use Rattle.uca_match.specs.OwnedCollations.{owned_collation};
ghost use Rattle.uca_order.specs.Lengths.{HasShortRows};
ghost use Rattle.uca_run_parts.specs.Files.{HaveFailed, Over, table_and_data, table_and_data_roles, table_with};
ghost use Rattle.uca_run_parts.specs.EachLine.{ended_before_input};
ghost use Rattle.uca_key_runs.specs.Keys.{IsCollation};
ghost use Rattle.uca_key_runs.specs.inside.Collations.{IsNoCollation};

pub(crate) mod packed_files;

use packed_files::read_packed_files;
use std::alloc::{Allocator, Global};
use std::io::Read;
use uca_elements::Lookup;
use uca_match::{OwnedCollation, Trie};
use uca_number_keys::check_numbers;
use uca_order::laws::rows_are_short;
use uca_run_parts::RunFault;
use uca_values::{Data, Header, PackedTable};
use uca_weights::{Asked, Settings, Source};

/// What keys go by: what texts are read by, and settings.
#[derive(Drop)]
pub(crate) struct ReadCollation<A: Allocator = Global> {
    /// What texts are read by.
    pub(crate) collation: OwnedCollation<A>,
    /// The settings.
    pub(crate) settings: Settings,
}

/// Reads the table, and then the data file, and makes the rows ready to be looked up. The weighting is the one that is
/// asked for, or else that of the table's `@variable`, or else shifted (UTS #10, section 4).
///
/// # Errors
///
/// `File` if the table, or else the data file, is rejected. Then those of `collation_of`.
pub(crate) fn read_collation<A: Allocator + Copy, T: Read, D: Read>(
    alloc: A,
    table: &mut Source<T>,
    properties: &mut Source<D>,
    asked: Asked,
) -> Result<ReadCollation<A>, RunFault>
    ensures read { Over table_and_data (table.old ∷ properties.old ∷ []) (table.new ∷ properties.new ∷ [])
        (λ content. MatchResult result
        (λ read. IsCollation asked (owned_collation read.collation) read.settings content)
        (IsNoCollation asked content)) result }
    ensures short { IfOk result (λ read. HasShortRows (owned_collation read.collation).rows) }
    ensures before_input { IfErr result (λ _. ended_before_input result ≡ true) }
    ensures failed { HaveFailed table_and_data_roles (table.old ∷ properties.old ∷ [])
        (table.new ∷ properties.new ∷ []) result }
{
    match read_packed_files(alloc, table, properties) {
        Ok(files) => collation_of(alloc, files.0, files.1, asked),
        Err(fault) => Err(fault),
    }
}

/// What keys go by under a table and a data file that were read before. It makes the rows ready to be looked up. The weighting is
/// the one that is asked for, or else that of the table's `@variable`, or else shifted (UTS #10, section 4).
///
/// # Errors
///
/// `Digits` if numbers are to be ordered by value, and the table does not order them. Then `Memory` if an allocation fails
/// for the rows.
pub(crate) fn collation_of<A: Allocator + Copy>(
    alloc: A,
    table: PackedTable<A>,
    properties: Data<A>,
    asked: Asked,
) -> Result<ReadCollation<A>, RunFault>
    ensures made { IfOk result (λ read. IsCollation asked (owned_collation read.collation) read.settings
        (table_with table (properties_of properties))) }
    ensures short { IfOk result (λ read. HasShortRows (owned_collation read.collation).rows) }
    ensures refused { IfErr result (IsNoCollation asked (table_with table (properties_of properties))) }
{
    if let Err(fault) = check_numbers(asked.numbers, &table, &properties) {
        drop(table);
        drop(properties);
        return Err(RunFault::Digits { row: fault.row });
    }
    match rows_of_table(alloc, table) {
        Ok((header, rows)) => Ok(ReadCollation {
            settings: asked.settings(header.setting),
            collation: OwnedCollation {
                rows,
                header,
                properties,
            },
        }),
        Err(fault) => {
            drop(properties);
            Err(fault)
        }
    }
}

// The header of a table, and its rows, ready to be looked up.
fn rows_of_table<A: Allocator + Copy>(
    alloc: A,
    table: PackedTable<A>,
) -> Result<(Header<A>, Trie<A>), RunFault>
    ensures header { IfOk result (λ both. both.0 ≡ table.header) }
    ensures rows { IfOk result (λ both. ⟦<Trie<A> as Lookup>⟧.content both.1 ≡ rows_of table.rows) }
    ensures short { IfOk result (λ both. HasShortRows (⟦<Trie<A> as Lookup>⟧.content both.1)) }
    ensures refused { IfErr result (λ fault. fault ≡ RunFault.Memory) }
{
    // The rows keep the limits of a table, so they are short.
    let _ = &table.rows;
    rows_are_short();
    match Trie::of_table(alloc, table) {
        Ok(both) => Ok(both),
        Err(_) => Err(RunFault::Memory),
    }
}
