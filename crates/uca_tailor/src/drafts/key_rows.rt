//! The row of each key of a tailored table.

ghost use Rattle.std.specs.Prelude.{◌≡◌, ◌≤◌, ℕ, List, length, false, MatchOption, IfOk};
ghost use Rattle.uca_values.specs.Content.{keys_of};
ghost use Rattle.uca_relations.specs.Relations.{AreRules};
ghost use Rattle.uca_elements.specs.Positions.{place_at, AreDistinctKeys};
ghost use Rattle.uca_match.specs.Tries.{positions};
ghost use Rattle.uca_match.specs.NumberedKeys.{points_of};
ghost use Rattle.uca_plans.specs.Keys.{is_among};
ghost use Rattle.uca_tailor.specs.inside.KeyRows.{IsRowOf, AreListed, ArePositions};

use std::alloc::{AllocError, Allocator};
use uca_match::{KeyMap, key_list};
use uca_relations::{Relation, Rules};
use uca_values::Table;
use uca_values::limits::MOST_ROWS;

/// The row of each key. The keys of the base come first, in their order. Then come the targets that are not base
/// keys, in the order of the rules, as far as a table has room for them. So all relations can be read by one map: no
/// text of a relation contains a later target.
///
/// # Errors
///
/// An allocation that fails.
pub(crate) fn rows_of_keys<A: Allocator + Copy, T: Allocator>(
    alloc: A,
    base: &Table<T>,
    rules: &Rules<T>,
) -> Result<KeyMap<A>, AllocError>
    ensures { IfOk result (λ key_rows. ArePositions (keys_of base.now.rows) rules.now (positions key_rows)) }
{
    match listed_keys(alloc, base, rules.relations()) {
        Ok(keys) => KeyMap::new(alloc, &keys),
        Err(error) => Err(error),
    }
}

/// The row of a key, if it has one.
pub(crate) fn row_of_key<A: Allocator>(key_rows: &KeyMap<A>, key: &[char]) -> Option<usize>
    ensures { (keys : List (List ℕ)) → ((k : List ℕ) → positions key_rows.now k ≡ place_at 0 keys k) →
        MatchOption result (is_among keys key.now ≡ false) (IsRowOf keys key.now) }
{
    key_rows.position(key)
}

/// The keys that have rows, in their order.
fn listed_keys<'a, A: Allocator + Copy, T: Allocator>(
    alloc: A,
    base: &'a Table<T>,
    relations: &'a [Relation],
) -> Result<Vec<&'a [char], A>, AllocError>
    requires { AreRules relations.now }
    ensures listed { IfOk result (λ keys. AreListed (keys_of base.now.rows) relations.now (points_of keys.items)) }
    ensures distinct { IfOk result (λ keys. AreDistinctKeys (points_of keys.items)) }
{
    let keys = key_list(alloc, &base.rows)?;
    match KeyMap::new(alloc, &keys) {
        Ok(base_keys) => {
            let all = add_targets(keys, &base_keys, relations);
            drop(base_keys);
            all
        }
        Err(error) => Err(error),
    }
}

/// The keys of a base, and after them the targets that are not among them, as far as a table has room for them.
fn add_targets<'a, A: Allocator>(
    mut keys: Vec<&'a [char], A>,
    base_keys: &KeyMap<A>,
    relations: &'a [Relation],
) -> Result<Vec<&'a [char], A>, AllocError>
    requires few { length (points_of keys.items) ≤ 200000 }
    requires rules { AreRules relations.now }
    requires rows { (key : List ℕ) → positions base_keys.now key ≡ place_at 0 (points_of keys.items) key }
    ensures { IfOk result (λ all. AreListed (points_of keys.entry.items) relations.now (points_of all.items)) }
{
    for relation in relations {
        let target = relation.target.chars();
        if base_keys.position(target).is_some() {
            continue;
        }
        if keys.len() >= MOST_ROWS {
            return Ok(keys);
        }
        keys.push(target)?;
    }
    Ok(keys)
}
