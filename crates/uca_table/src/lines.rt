//! A table in the making, which takes the lines of a table file.

ghost use Rattle.std.specs.Prelude.{◌≡◌};
ghost use Rattle.uca_table.specs.Headers.{argument_of};

use crate::headers::{is_version_name, may_follow, read_range, setting};
use crate::keys::RowKeys;
use crate::rows::read_row;
use std::alloc::{Allocator, Global};
use std::marker::Model;
use std::{mem, str};
use uca_lines::fields::{cut_word, line_text, skip_blanks};
use uca_lines::files::{FileForm, LineParser, TABLE_FORM};
use uca_values::limits::MOST_ROWS;
use uca_values::{FaultKind, Header, ImplicitRange, PackedRows, PackedTable, Row};
use uca_weights::Weighting;

/// How many `@implicitweights` lines a table may have.
const MOST_IMPLICIT_RANGES: usize = 256;

/// What the lines of a table file say so far.
#[derive(Drop)]
pub struct TableLines<A: Allocator + Copy = Global> {
    alloc: A,
    version: Option<String<A>>,
    setting: Option<Weighting>,
    ranges: Vec<ImplicitRange, A>,
    rows: PackedRows<A>,
    keys: RowKeys<A>,
    // the lists of the row before, for the next one
    spare: Row<A>,
}

impl<A: Allocator + Copy> Model for TableLines<A> {
    ghost use Rattle.std.specs.Prelude.{string_bytes};
    ghost use Rattle.std.specs.Option.{option_map};
    ghost use Rattle.std.specs.Ordering.{nat_cmp};
    ghost use Rattle.std.specs.Cmp.Lexicographic.{slice_cmp};
    ghost use Rattle.std.specs.BTreeSet.{contains};
    ghost use Rattle.uca_table.specs.TableSoFar.{TableSoFar};
    ghost use Rattle.uca_table.specs.inside.Keeping.{Keeps, kept};

    ghost Value = { TableSoFar };

    ghost view = { λ t. record {
      version = option_map string_bytes t.version;
      setting = t.setting;
      ranges = t.ranges.items;
      rows = t.rows;
    } };

    ghost invariant = { λ t. Keeps (λ k. k.items)
        (kept (λ k. k.items) t.keys.bits.items (contains (λ a b. slice_cmp nat_cmp a.items b.items) t.keys.longer))
        (record {
          version = option_map string_bytes t.version;
          setting = t.setting;
          ranges = t.ranges.items;
          rows = t.rows;
        }) };
}

impl<A: Allocator + Copy> TableLines<A> {
    ghost use Rattle.std.specs.Prelude.{◌≡◌, [], None, Some, MatchOption};
    ghost use Rattle.uca_table.specs.TableLines.{IsUnfinished, Gives};

    /// Nothing is said yet. It takes no memory.
    pub fn new(alloc: A) -> Self
        ensures { result ≡ record { version = None; setting = None; ranges = []; rows = [] } }
    {
        TableLines {
            alloc,
            version: None,
            setting: None,
            ranges: Vec::new(alloc),
            rows: PackedRows::new(alloc),
            keys: RowKeys::new(alloc),
            spare: empty_row(alloc),
        }
    }

    /// The table, or `None` if there was no version.
    pub fn into_table(self) -> Option<PackedTable<A>>
        ensures { MatchOption result (IsUnfinished self) (λ table. Gives self table) }
    {
        let TableLines {
            alloc: _,
            version,
            setting,
            ranges,
            rows,
            keys,
            spare,
        } = self;
        drop(keys);
        drop(spare);
        match version {
            Some(version) => Some(PackedTable {
                header: Header {
                    version,
                    setting,
                    ranges,
                },
                rows,
            }),
            None => None,
        }
    }
}

impl<A: Allocator + Copy> TableLines<A> {
    ghost use Rattle.std.specs.Prelude.{◌≡◌, ◌≢◌, ◌⊎◌, ◌<◌, ◌++◌, [], ◌∷◌, length, Contains, true, false, IsSome, IsTrue, ◌↔◌, OnOk, OnErr, IfErr};
    ghost use Rattle.uca_lines.specs.Fields.{word_of};
    ghost use Rattle.uca_values.specs.Content.{IsEntry, keys_of};
    ghost use Rattle.uca_table.specs.CanonicalWords.{at_version, at_variable, at_ranges};
    ghost use Rattle.uca_table.specs.Rows.{AddCause};
    ghost use Rattle.uca_table.specs.TableLines.{begins_at, IsDue, ForSetting, ForRange, TextCause};
    ghost use Rattle.uca_table.specs.inside.Taking.{TakesText};

    // Takes the text of a line that begins with `@`.
    fn take_header_line(&mut self, text: &[u8]) -> Result<(), FaultKind>
        requires { begins_at text.now ≡ true }
        ensures ok { OnOk result (TakesText self.old text.now self.new) }
        ensures fault { IfErr result (λ kind. (kind ≡ FaultKind.Memory) ⊎ TextCause self.old text.now kind) }
    {
        let (word, _) = cut_word(text);
        if word == b"@version".as_slice() {
            return self.take_version(text);
        }
        if word == b"@variable".as_slice() {
            return self.take_setting(text);
        }
        if word == b"@implicitweights".as_slice() {
            return self.take_range(text);
        }
        Err(FaultKind::Line)
    }

    fn take_version(&mut self, text: &[u8]) -> Result<(), FaultKind>
        requires { word_of text.now ≡ at_version }
        ensures ok { OnOk result (TakesText self.old text.now self.new) }
        ensures fault { IfErr result (λ kind. (kind ≡ FaultKind.Memory) ⊎ TextCause self.old text.now kind) }
    {
        if self.version.is_some() {
            return Err(FaultKind::Order);
        }
        let name = argument(text);
        if !is_version_name(name) {
            return Err(FaultKind::Line);
        }
        let name = str::from_utf8(name).unwrap();
        match String::from_str(self.alloc, name) {
            Ok(version) => {
                self.version = Some(version);
                Ok(())
            }
            Err(error) => Err(error.into()),
        }
    }

    fn is_setting_due(&self) -> bool
        ensures { IsTrue result ↔ IsDue self.now ForSetting }
    {
        self.version.is_some()
            && self.setting.is_none()
            && self.ranges.is_empty()
            && self.rows.len() == 0
    }

    fn is_range_due(&self) -> bool
        ensures { IsTrue result ↔ IsDue self.now ForRange }
    {
        self.version.is_some() && self.rows.len() == 0
    }

    fn take_setting(&mut self, text: &[u8]) -> Result<(), FaultKind>
        requires { word_of text.now ≡ at_variable }
        ensures ok { OnOk result (TakesText self.old text.now self.new) }
        ensures fault { IfErr result (λ kind. (kind ≡ FaultKind.Memory) ⊎ TextCause self.old text.now kind) }
    {
        if !self.is_setting_due() {
            return Err(FaultKind::Order);
        }
        let Some(setting) = setting(argument(text)) else {
            return Err(FaultKind::Line);
        };
        self.setting = Some(setting);
        Ok(())
    }

    fn take_range(&mut self, text: &[u8]) -> Result<(), FaultKind>
        requires { word_of text.now ≡ at_ranges }
        ensures ok { OnOk result (TakesText self.old text.now self.new) }
        ensures fault { IfErr result (λ kind. (kind ≡ FaultKind.Memory) ⊎ TextCause self.old text.now kind) }
    {
        if !self.is_range_due() {
            return Err(FaultKind::Order);
        }
        let (_, rest) = cut_word(text);
        let range = read_range(rest)?;
        if !may_follow(self.ranges.as_slice(), range) {
            return Err(FaultKind::Range);
        }
        if self.ranges.len() >= MOST_IMPLICIT_RANGES {
            return Err(FaultKind::Limit);
        }
        self.ranges.push(range)?;
        Ok(())
    }

    fn take_row(&mut self, text: &[u8]) -> Result<(), FaultKind>
        requires some { text.now ≢ [] }
        requires row { begins_at text.now ≡ false }
        ensures ok { OnOk result (TakesText self.old text.now self.new) }
        ensures fault { IfErr result (λ kind. (kind ≡ FaultKind.Memory) ⊎ TextCause self.old text.now kind) }
    {
        if self.version.is_none() {
            return Err(FaultKind::Order);
        }
        let spare = mem::replace(&mut self.spare, empty_row(self.alloc));
        let row = read_row(spare, text)?;
        let added = self.add_row(&row);
        self.spare = row;
        added
    }

    // Adds a row after the others.
    fn add_row(&mut self, row: &Row<A>) -> Result<(), FaultKind>
        requires entry { IsEntry row.now }
        requires versioned { IsSome self.old.version }
        ensures new { OnOk result (Contains (keys_of self.old.rows) row.now.key → ⊥) }
        ensures few { OnOk result (length self.old.rows < 200000) }
        ensures ok { OnOk result (self.new ≡ record self.old { rows = self.old.rows ++ row.now ∷ [] }) }
        ensures fault { IfErr result (λ kind. (kind ≡ FaultKind.Memory) ⊎ AddCause self.old.rows row.now kind) }
        ensures unchanged { OnErr result (self.new ≡ self.old) }
    {
        if self.keys.contains(&row.key) {
            return Err(FaultKind::DuplicateKey);
        }
        if self.rows.len() >= MOST_ROWS {
            return Err(FaultKind::Limit);
        }
        let before = self.rows.len();
        self.rows.push(&row.key, &row.elements)?;
        match self.keys.insert(self.alloc, &row.key) {
            Ok(()) => Ok(()),
            Err(error) => {
                self.rows.truncate(before);
                Err(error.into())
            }
        }
    }
}

impl<A: Allocator + Copy> TableLines<A> {
    ghost use Rattle.std.specs.Prelude.{◌≡◌, ◌⊎◌, OnOk, IfErr};
    ghost use Rattle.uca_table.specs.TableLines.{Cause};
    ghost use Rattle.uca_table.specs.inside.Taking.{Takes};

    // Takes the next line, without its LF.
    fn take_line(&mut self, line: &[u8]) -> Result<(), FaultKind>
        ensures ok { OnOk result (Takes self.old line.now self.new) }
        ensures fault { IfErr result (λ kind. (kind ≡ FaultKind.Memory) ⊎ Cause self.old line.now kind) }
    {
        let text = line_text(line);
        match text.first() {
            None => {
                // Looked at, so that the proof knows what is always true of the rows.
                let _ = &self.rows;
                Ok(())
            }
            Some(b'@') => self.take_header_line(text),
            Some(_) => self.take_row(text),
        }
    }
}

impl<A: Allocator + Copy> LineParser for TableLines<A> {
    ghost use Rattle.uca_table.specs.TableLines.{Says, Cause};
    ghost use Rattle.uca_lines.specs.declared.files.TheConstants.{TABLE_FORM};
    ghost use Rattle.uca_lines.specs.FileStops.{is_read_kind};

    type Kind = FaultKind;

    ghost form = { TABLE_FORM };

    ghost is_read = { is_read_kind };

    ghost says = { Says };

    ghost cause = { Cause };

    fn form() -> FileForm<FaultKind> {
        TABLE_FORM
    }

    fn take(&mut self, line: &[u8]) -> Result<(), FaultKind> {
        self.take_line(line)
    }
}

// A row with no key and no elements, for lists that take no memory.
fn empty_row<A: Allocator + Copy>(alloc: A) -> Row<A> {
    Row {
        key: Vec::new(alloc),
        elements: Vec::new(alloc),
    }
}

// What follows the first word of a text, without the blanks between them.
fn argument(text: &[u8]) -> &[u8]
    ensures { result.now ≡ argument_of text.now }
{
    let (_, rest) = cut_word(text);
    skip_blanks(rest)
}
