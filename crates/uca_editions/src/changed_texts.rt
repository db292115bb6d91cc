//! The texts that change: keys of rows that do not become their images, and keys of one table alone.

ghost use Rattle.std.specs.Prelude.{◌≡◌, map, OnOk};
ghost use Rattle.uca_editions.specs.inside.Everything.{ListsAll, ListsIfItMay, MayListAll};

use crate::Editions;
use std::alloc::{AllocError, Allocator};
use uca_certificates::Certificate;
use uca_change_files::{ChangeList, ChangedText, FaultKind};
use uca_elements::{Lookup, row_of};
use uca_images::{Images, are_images};
use uca_match::Trie;
use uca_values::Row;

/// Lists the texts that change. An error means that it ran out of memory.
pub(crate) fn list_texts<A: Allocator + Copy, L: Lookup>(
    alloc: A,
    list: &mut ChangeList<A>,
    editions: &Editions<A>,
    certificate: &Certificate<A>,
    new: &L,
) -> Result<(), AllocError> {
    let mut keys = Vec::new(alloc);
    match push_keys(alloc, &mut keys, editions, certificate, new) {
        Ok(()) => push_texts(alloc, list, &mut keys),
        Err(error) => Err(error),
    }
}

// Adds the keys of the old rows that do not become their images, and then those that the old table does not have.
fn push_keys<'a, A: Allocator + Copy, L: Lookup>(
    alloc: A,
    keys: &mut Vec<&'a [char], A>,
    editions: &Editions<'a, A>,
    certificate: &Certificate<A>,
    new: &L,
) -> Result<(), AllocError> {
    let images = Images::new(alloc, certificate)?;
    let old = editions.old;
    let pushed = push_changed(keys, &old.rows, Some(&images), new);
    drop(images);
    match pushed {
        Ok(()) => push_new_keys(alloc, keys, editions),
        Err(error) => Err(error),
    }
}

// Adds the keys of those rows that the other table has no row of. If there are images, it adds those of rows whose row of the
// other table is not their image too.
fn push_changed<'a, A: Allocator + Copy, L: Lookup>(
    keys: &mut Vec<&'a [char], A>,
    rows: &'a [Row<A>],
    images: Option<&Images<A, A>>,
    other: &L,
) -> Result<(), AllocError> {
    for row in rows {
        if !is_kept(images, row, other) {
            keys.push(&row.key)?;
        }
    }
    Ok(())
}

// Whether the other table has a row of a row's key, and it is the image of the row if there are images.
fn is_kept<A: Allocator + Copy, L: Lookup>(
    images: Option<&Images<A, A>>,
    row: &Row<A>,
    other: &L,
) -> bool {
    match row_of(other, &row.key) {
        None => false,
        Some(elements) => match images {
            None => true,
            Some(images) => are_images(images, &row.elements, elements),
        },
    }
}

// Adds the keys that the old table does not have.
fn push_new_keys<'a, A: Allocator + Copy>(
    alloc: A,
    keys: &mut Vec<&'a [char], A>,
    editions: &Editions<'a, A>,
) -> Result<(), AllocError> {
    let old = Trie::new(alloc, editions.old)?;
    let new = editions.new;
    let no_images: Option<&'a Images<'a, A, A>> = None;
    let pushed = push_changed(keys, &new.rows, no_images, &old);
    drop(old);
    pushed
}

/// Sorts the texts, and lists them. An error means that it ran out of memory.
pub(crate) fn push_texts<A: Allocator + Copy>(
    alloc: A,
    list: &mut ChangeList<A>,
    texts: &mut [&[char]],
) -> Result<(), AllocError>
    // All are listed, if a list may have them.
    ensures { OnOk result (MayListAll list.old (map (λ t. t.now) texts.old) → ListsAll (map (λ t. t.now) texts.old) list.new) }
{
    texts.sort_unstable();
    for text in texts.iter() {
        push_text(alloc, list, text)?;
    }
    Ok(())
}

// Lists a text. One that is listed already is left out, and so is one that a list cannot have: the audit names its row.
fn push_text<A: Allocator + Copy>(
    alloc: A,
    list: &mut ChangeList<A>,
    text: &[char],
) -> Result<(), AllocError>
    ensures { OnOk result (ListsIfItMay list.old text.now list.new) }
{
    let points = Vec::from_slice(alloc, text)?;
    match list.push_text(ChangedText { points }) {
        Ok(()) => Ok(()),
        Err(kind) => unless_memory(kind),
    }
}

/// Only that memory ran out is an error here.
pub(crate) fn unless_memory(kind: FaultKind) -> Result<(), AllocError>
    ensures { OnOk result (¬ (kind ≡ FaultKind.Memory)) }
{
    match kind {
        FaultKind::Memory => Err(AllocError),
        _ => Ok(()),
    }
}
