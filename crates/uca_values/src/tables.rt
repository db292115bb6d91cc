//! Tables of collation elements (UTS #10, section 9).

use crate::ImplicitRange;
use std::alloc::{Allocator, Global};
use std::marker::Model;
use uca_weights::{Element, Weighting};

/// The lines of a table file before its rows.
#[derive(Drop)]
pub struct Header<A: Allocator = Global> {
    /// The word after `@version`: 1 to 32 ASCII letters, digits, `.` or `-`.
    pub version: String<A>,
    /// What `@variable` says, if the line is there.
    pub setting: Option<Weighting>,
    /// The `@implicitweights` lines in order, at most 256; no two of them overlap. Of all ranges
    /// with one lead the greatest code point is less than 8000 (hexadecimal) above the least.
    pub ranges: Vec<ImplicitRange, A>,
}

impl<A: Allocator> Model for Header<A> {
    ghost use Rattle.std.specs.Prelude.{string_bytes};
    ghost use Rattle.uca_values.specs.Content.{HeaderContent, IsHeader};

    ghost Value = { HeaderContent };

    ghost view = { λ h. record { version = string_bytes h.version; setting = h.setting; ranges = h.ranges.items } };

    ghost invariant = { λ h. IsHeader (record { version = string_bytes h.version; setting = h.setting; ranges = h.ranges.items }) };
}

/// A row of a table: a key and the collation elements that it maps to.
#[derive(Drop)]
pub struct Row<A: Allocator = Global> {
    /// The code points that are mapped, 1 to 16 in a table.
    pub key: Vec<char, A>,
    /// What they are mapped to, 1 to 32 elements in a table.
    pub elements: Vec<Element, A>,
}

impl<A: Allocator> Model for Row<A> {
    ghost use Rattle.uca_values.specs.Content.{Entry};

    ghost Value = { Entry };

    ghost view = { λ r. record { key = r.key.items; elements = r.elements.items } };
}

/// A table: no key comes twice, and there are at most 200,000 rows.
#[derive(Drop)]
pub struct Table<A: Allocator = Global> {
    /// The lines before the rows.
    pub header: Header<A>,
    /// The rows in file order.
    pub rows: Vec<Row<A>, A>,
}

impl<A: Allocator> Model for Table<A> {
    ghost use Rattle.uca_values.specs.Content.{TableContent, AreRows};

    ghost Value = { TableContent };

    ghost view = { λ t. record { header = t.header; rows = t.rows.items } };

    ghost invariant = { λ t. AreRows t.rows.items };
}
