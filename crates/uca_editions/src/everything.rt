//! A change of everything: it lists all keys of both tables and all code points. It is proved that an audit rejects
//! such a list only for the tables: they are not well-formed, or say two weightings.

ghost use Rattle.std.specs.Prelude.{◌≡◌, ◌++◌, [], ◌∷◌, map, IfOk, OnOk, Contains};
ghost use Rattle.std.specs.List.{AllByRecursion};
ghost use Rattle.uca_values.specs.Content.{keys_of};
ghost use Rattle.uca_editions.specs.inside.Everything.{ListsAll, ListsEverything, every_point};
ghost use Rattle.uca_editions.specs.Found.{change_by};

use crate::changed_ranges::{LAST_POINT, push_range};
use crate::changed_texts::push_texts;
use crate::levels::least_map;
use crate::{Editions, ListedChanges};
use std::alloc::{AllocError, Allocator};
use uca_certificates::Certificate;
use uca_change_files::ChangeList;
use uca_images::know_table;
use uca_values::Row;
use uca_weights::Level;

/// The change of everything. An error means that it ran out of memory.
pub(crate) fn everything<A: Allocator + Copy>(
    alloc: A,
    editions: &Editions<A>,
) -> Result<ListedChanges<A>, AllocError>
    ensures { IfOk result (λ found. ListsEverything (change_by editions.now found)) }
{
    let certificate = least_certificate(alloc)?;
    let mut list = ChangeList::new(alloc);
    match list_everything(alloc, &mut list, editions) {
        Ok(()) => Ok(ListedChanges { list, certificate }),
        Err(error) => Err(error),
    }
}

// The certificate of the least maps.
fn least_certificate<A: Allocator + Copy>(alloc: A) -> Result<Certificate<A>, AllocError> {
    let primary = least_map(alloc, Level::One)?;
    let secondary = least_map(alloc, Level::Two)?;
    match least_map(alloc, Level::Three) {
        Ok(tertiary) => Ok(Certificate {
            primary,
            secondary,
            tertiary,
        }),
        Err(error) => Err(error),
    }
}

// Lists all keys, and the range of all code points.
fn list_everything<A: Allocator + Copy>(
    alloc: A,
    list: &mut ChangeList<A>,
    editions: &Editions<A>,
) -> Result<(), AllocError>
    requires { list.old ≡ record { texts = []; ranges = [] } }
    ensures old { OnOk result (AllByRecursion (Contains list.new.texts) (keys_of editions.now.old.now.rows)) }
    ensures new { OnOk result (AllByRecursion (Contains list.new.texts) (keys_of editions.now.new.now.rows)) }
    ensures ranges { OnOk result (list.new.ranges ≡ every_point ∷ []) }
{
    match list_keys(alloc, list, editions) {
        Ok(()) => push_range(list, '\0', LAST_POINT),
        Err(error) => Err(error),
    }
}

// Lists all keys of both tables.
fn list_keys<A: Allocator + Copy>(
    alloc: A,
    list: &mut ChangeList<A>,
    editions: &Editions<A>,
) -> Result<(), AllocError>
    requires { list.old ≡ record { texts = []; ranges = [] } }
    ensures { OnOk result (ListsAll (keys_of editions.now.old.now.rows ++ keys_of editions.now.new.now.rows) list.new) }
{
    let old = editions.old;
    let new = editions.new;
    // Their rows keep the limits of tables, brought into scope for the proof.
    know_table(old);
    know_table(new);
    let mut keys = Vec::new(alloc);
    push_all(&mut keys, &old.rows)?;
    push_all(&mut keys, &new.rows)?;
    push_texts(alloc, list, &mut keys)
}

// Adds the keys of all rows.
fn push_all<'a, A: Allocator>(
    keys: &mut Vec<&'a [char], A>,
    rows: &'a [Row<A>],
) -> Result<(), AllocError>
    ensures { OnOk result (map (λ k. k.now) keys.new.items ≡ map (λ k. k.now) keys.old.items ++ keys_of rows.now) }
{
    for row in rows {
        keys.push(&row.key)?;
    }
    Ok(())
}
