//! What the invariants of tables and certificates say, brought into scope for a proof. Each function does nothing.

ghost use Rattle.uca_values.specs.Content.{IsHeader, IsTable};
ghost use Rattle.uca_tailorings.specs.Images.{AreRisingMaps};
ghost use Rattle.uca_tailorings.specs.Inputs.{maps_of};

use std::alloc::Allocator;
use uca_certificates::Certificate;
use uca_values::{Header, Table};

/// What a table keeps.
pub fn know_table<T: Allocator>(table: &Table<T>)
    ensures { IsTable table.now }
{
    know_header(&table.header);
    let _ = &table.rows;
}

// What a header keeps.
fn know_header<T: Allocator>(header: &Header<T>)
    ensures { IsHeader header.now }
{
    let _ = &header.ranges;
}

/// What the maps of a certificate keep.
pub fn know_certificate<T: Allocator>(certificate: &Certificate<T>)
    ensures { AreRisingMaps (maps_of certificate.now) }
{
    let _ = certificate.primary.runs();
    let _ = certificate.secondary.runs();
    let _ = certificate.tertiary.runs();
}
