//! How a collator is made: of a table and a data file that were read, or of the bytes of both.

ghost use Rattle.std.specs.Prelude.{◌≡◌, [], IfOk, IfErr, MatchResult};
ghost use Rattle.uca_values.specs.Content.{TableContent, Properties, properties_of};
ghost use Rattle.uca_match.specs.NumberedKeys.{rows_at};
ghost use Rattle.uca_order.specs.Keyings.{keying, keying_over};
ghost use Rattle.uca_order.specs.Lengths.{HasShortRows};
ghost use Rattle.uca_owned.specs.Owned.{keying_in, key_in};
ghost use Rattle.uca_owned.specs.Opening.{MeanFiles, Opens, IsOpenCause, IsOpenStop};

use crate::OwnedCollator;
use crate::faults::OpenFault;
use crate::files::{data_of, table_of};
use std::alloc::{AllocError, Global};
use std::sync::Arc;
use uca_key_writer::KeyMemory;
use uca_match::{OwnedCollation, Trie};
use uca_number_keys::check_numbers;
use uca_order::laws::rows_are_short;
use uca_text_comparer::TextComparison;
use uca_values::{Data, Header, PackedTable, Table};
use uca_weights::Asked;

// A collator of a header, of rows that are ready to be looked up, and of a data file.
fn collator_of(
    alloc: Global,
    header: Header,
    rows: Trie,
    properties: Data,
    asked: Asked,
) -> Result<OwnedCollator, AllocError>
    requires short { HasShortRows (rows_at rows) }
    ensures keying { IfOk result (λ c. keying_in c ≡ keying_over (rows_at rows) header asked (properties_of properties)) }
    ensures key { IfOk result (λ c. key_in c ≡ []) }
{
    let settings = asked.settings(header.setting);
    let collation = OwnedCollation {
        rows,
        header,
        properties,
    };
    Ok(OwnedCollator {
        collation: Arc::new(alloc, collation)?,
        keys: KeyMemory::new(alloc, alloc, settings),
        comparison: TextComparison::new(alloc, alloc),
        settings,
    })
}

// A collator of a table that was read with its rows in a few lists, and of a data file.
fn packed_collator(
    alloc: Global,
    table: PackedTable,
    properties: Data,
    asked: Asked,
) -> Result<OwnedCollator, AllocError>
    ensures keying { IfOk result (λ c. keying_in c ≡ keying asked table (properties_of properties)) }
    ensures key { IfOk result (λ c. key_in c ≡ []) }
{
    // The rows keep the limits of a table, so they are short.
    let _ = &table.rows;
    rows_are_short();
    let (header, rows) = Trie::of_table(alloc, table)?;
    collator_of(alloc, header, rows, properties, asked)
}

impl OwnedCollator {
    /// A collator of a table and a data file that were read, under the settings that are asked for. If these have no
    /// weighting, it is that of the table's `@variable`, or else shifted (UTS #10, section 4). No key was made yet.
    ///
    /// If numbers are to be ordered by value, the table has to order them: `check_numbers` of `uca_number_keys` tests it, and
    /// this call does not. [`open`](OwnedCollator::open) does.
    ///
    /// # Errors
    ///
    /// An allocation failed.
    pub fn new(
        alloc: Global,
        table: Table,
        properties: Data,
        asked: Asked,
    ) -> Result<OwnedCollator, AllocError>
        ensures keying { IfOk result (λ c. keying_in c ≡ keying asked table (properties_of properties)) }
        ensures key { IfOk result (λ c. key_in c ≡ []) }
    {
        // The rows keep the limits of a table, so they are short.
        rows_are_short();
        let rows = Trie::new(alloc, &table)?;
        let Table { header, .. } = table;
        collator_of(alloc, header, rows, properties, asked)
    }

    /// Reads a table and then a data file from their bytes, and makes a collator of them, as
    /// [`new`](OwnedCollator::new) does. It keeps none of the bytes.
    ///
    /// # Errors
    ///
    /// `Table` if the table is rejected, else `Data` if the data file is, as [`read_table`](uca_table::read_table) and
    /// [`read_data`](uca_table::read_data) say. Both also if an allocation failed while that file was read. Then `Digits` if
    /// numbers are to be ordered by value, and the table does not order them. `Memory` if an allocation failed later.
    pub fn open(
        alloc: Global,
        table: &[u8],
        data_file: &[u8],
        asked: Asked,
    ) -> Result<OwnedCollator, OpenFault>
        ensures found { IfOk result (λ c. Opens asked table.now data_file.now (keying_in c)) }
        ensures only { (meant : TableContent) (properties : Properties) → MeanFiles table.now data_file.now meant properties →
            MatchResult result (λ c. keying_in c ≡ keying asked meant properties) (IsOpenStop asked.numbers meant properties) }
        ensures key { IfOk result (λ c. key_in c ≡ []) }
        ensures fault { IfErr result (IsOpenCause asked.numbers table.now data_file.now) }
    {
        let read = match table_of(alloc, table) {
            Ok(read) => read,
            Err(fault) => return Err(OpenFault::Table(fault)),
        };
        let properties = match data_of(alloc, data_file) {
            Ok(properties) => properties,
            Err(fault) => return Err(OpenFault::Data(fault)),
        };
        match check_numbers(asked.numbers, &read, &properties) {
            Ok(()) => match packed_collator(alloc, read, properties, asked) {
                Ok(collator) => Ok(collator),
                Err(_) => Err(OpenFault::Memory),
            },
            Err(fault) => Err(OpenFault::Digits { row: fault.row }),
        }
    }
}
