//! For each condition on the rows of texts that are not listed: the first row that fails it.

ghost use Rattle.std.specs.Prelude.{◌↔◌, IsTrue, Contains};
ghost use Rattle.std.specs.List.{AllByRecursion};
ghost use Rattle.uca_check.specs.Searches.{FindsFirstWithout};
ghost use Rattle.uca_elements.specs.Rows.{IsKey};
ghost use Rattle.uca_tailorings.specs.Images.{IsImage, AreImages};
ghost use Rattle.uca_tailorings.specs.Inputs.{maps_of};
ghost use Rattle.uca_tailorings.specs.KeptRows.{IsKeptRow, IsKnownRow};
ghost use Rattle.uca_tailorings.specs.Tailorings.{IsCovered};
ghost use Rattle.uca_images.specs.UnlistedRows.{IsCoveredIfUnlisted, IsPresentIfUnlisted};

use crate::Images;
use std::alloc::Allocator;
use uca_change_files::ChangeList;
use uca_elements::{Lookup, row_of};
use uca_values::Row;
use uca_weights::Element;

/// The first row whose key is not listed and that has a weight without an image, by its index.
pub fn first_uncovered<A: Allocator + Copy, T: Allocator>(
    rows: &[Row<T>],
    listed: &ChangeList<T>,
    images: &Images<A, T>,
) -> Option<usize>
    ensures { FindsFirstWithout (IsCoveredIfUnlisted (maps_of images.now) (Contains listed.now.texts)) rows.now result }
{
    rows.iter()
        .position(|row| !is_covered_row(row, listed, images))
}

/// The first row whose key is not listed, and whose new row is there but is not its image, by its index.
pub fn first_changed<A: Allocator + Copy, T: Allocator, L: Lookup>(
    rows: &[Row<T>],
    listed: &ChangeList<T>,
    images: &Images<A, T>,
    new: &L,
) -> Option<usize>
    ensures { FindsFirstWithout (IsKeptRow (maps_of images.now) (Contains listed.now.texts) (L.content new.now)) rows.now result }
{
    rows.iter()
        .position(|row| !is_kept(row, listed, images, new))
}

/// The first row whose key is not listed and has no new row, by its index.
pub fn first_missing<T: Allocator, L: Lookup>(
    rows: &[Row<T>],
    listed: &ChangeList<T>,
    new: &L,
) -> Option<usize>
    ensures { FindsFirstWithout (IsPresentIfUnlisted (Contains listed.now.texts) (L.content new.now)) rows.now result }
{
    rows.iter().position(|row| !is_present(row, listed, new))
}

/// The first new row whose key has no old row and is not listed, by its index.
pub fn first_unknown<T: Allocator, L: Lookup>(
    rows: &[Row<T>],
    listed: &ChangeList<T>,
    old: &L,
) -> Option<usize>
    ensures { FindsFirstWithout (IsKnownRow (Contains listed.now.texts) (L.content old.now)) rows.now result }
{
    rows.iter().position(|row| !is_known(row, listed, old))
}

// Whether each weight of the row has an image, or its key is listed.
fn is_covered_row<A: Allocator + Copy, T: Allocator>(
    row: &Row<T>,
    listed: &ChangeList<T>,
    images: &Images<A, T>,
) -> bool
    ensures { IsTrue result ↔ IsCoveredIfUnlisted (maps_of images.now) (Contains listed.now.texts) row.now }
{
    are_covered(images, &row.elements) || listed.has_text(&row.key)
}

// Whether the row's key has a new row, or is listed.
fn is_present<T: Allocator, L: Lookup>(row: &Row<T>, listed: &ChangeList<T>, new: &L) -> bool
    ensures { IsTrue result ↔ IsPresentIfUnlisted (Contains listed.now.texts) (L.content new.now) row.now }
{
    is_key(new, &row.key) || listed.has_text(&row.key)
}

// Whether the row's key has an old row, or is listed.
fn is_known<T: Allocator, L: Lookup>(row: &Row<T>, listed: &ChangeList<T>, old: &L) -> bool
    ensures { IsTrue result ↔ IsKnownRow (Contains listed.now.texts) (L.content old.now) row.now }
{
    is_key(old, &row.key) || listed.has_text(&row.key)
}

// Whether the row's key is listed, or has no new row, or its new row is the image of the row.
fn is_kept<A: Allocator + Copy, T: Allocator, L: Lookup>(
    row: &Row<T>,
    listed: &ChangeList<T>,
    images: &Images<A, T>,
    new: &L,
) -> bool
    ensures { IsTrue result ↔ IsKeptRow (maps_of images.now) (Contains listed.now.texts) (L.content new.now) row.now }
{
    match row_of(new, &row.key) {
        None => true,
        Some(elements) => {
            are_images(images, &row.elements, elements) || listed.has_text(&row.key)
        }
    }
}

// Whether the lookup has a row for the code points.
fn is_key<L: Lookup>(lookup: &L, key: &[char]) -> bool
    ensures { IsTrue result ↔ IsKey (L.content lookup.now) key.now }
{
    row_of(lookup, key).is_some()
}

// Whether each weight of the elements has an image at its level.
fn are_covered<A: Allocator + Copy, T: Allocator>(
    images: &Images<A, T>,
    elements: &[Element],
) -> bool
    ensures { IsTrue result ↔ AllByRecursion (IsCovered (maps_of images.now)) elements.now }
{
    for element in elements {
        if !is_covered(images, *element) {
            return false;
        }
    }
    true
}

// Whether each weight of the element has an image at its level.
fn is_covered<A: Allocator + Copy, T: Allocator>(images: &Images<A, T>, element: Element) -> bool
    ensures { IsTrue result ↔ IsCovered (maps_of images.now) element }
{
    images.primary.get(element.primary).is_some()
        && images.secondary.get(element.secondary).is_some()
        && images.tertiary.get(element.tertiary).is_some()
}

/// Whether the new elements are the images of the old ones, in order.
pub fn are_images<A: Allocator + Copy, T: Allocator>(
    images: &Images<A, T>,
    old: &[Element],
    new: &[Element],
) -> bool
    ensures { IsTrue result ↔ AreImages (maps_of images.now) old.now new.now }
{
    if old.len() != new.len() {
        return false;
    }
    for (at, element) in old.iter().enumerate() {
        if !is_image(images, *element, new[at]) {
            return false;
        }
    }
    true
}

/// Whether each weight is put through the map of its level, and the element stays variable or not.
fn is_image<A: Allocator + Copy, T: Allocator>(
    images: &Images<A, T>,
    old: Element,
    new: Element,
) -> bool
    ensures { IsTrue result ↔ IsImage (maps_of images.now) old new }
{
    images.primary.get(old.primary) == Some(new.primary)
        && images.secondary.get(old.secondary) == Some(new.secondary)
        && images.tertiary.get(old.tertiary) == Some(new.tertiary)
        && old.mark == new.mark
}
