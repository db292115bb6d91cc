//! Reads a row of a table file, such as `0061 ; [.1C47.0020.0002]`, and its key.

ghost use Rattle.std.specs.Prelude.{◌≡◌, ◌⊎◌, IfOk, IfErr};
ghost use Rattle.uca_table.specs.Rows.{IsKey, KeyCause, IsRow, RowTextCause};

use crate::elements::read_elements;
use std::alloc::Allocator;
use uca_lines::fields::{code_point, cut_at, cut_word, skip_blanks};
use uca_values::limits::MOST_CODE_POINTS;
use uca_values::{FaultKind, Row};

/// The row that a text spells: a key, `;` and elements. It gets the lists of `spare`, without what these have.
///
/// # Errors
///
/// Those of the key, then `Line` if there is no `;`, then those of the elements.
pub fn read_row<A: Allocator>(spare: Row<A>, text: &[u8]) -> Result<Row<A>, FaultKind>
    ensures found { IfOk result (λ row. IsRow text.now row) }
    ensures fault { IfErr result (λ kind. (kind ≡ FaultKind.Memory) ⊎ RowTextCause text.now kind) }
{
    let Row { key, elements } = spare;
    let (front, back) = cut_at(text, b';');
    let key = read_key(key, front)?;
    let Some((_, back)) = back.split_first() else {
        return Err(FaultKind::Line);
    };
    match read_elements(elements, back) {
        Ok(elements) => Ok(Row { key, elements }),
        Err(kind) => Err(kind),
    }
}

/// The code points that a text spells, with blanks between them. They are put into `key`, in place of what it has.
///
/// # Errors
///
/// At the first word that is rejected: `CodePoint` if it is not a code point, and `Limit` if it is the
/// seventeenth. `Line` if there is no word, `Memory` if an allocation failed.
pub fn read_key<A: Allocator>(mut key: Vec<char, A>, text: &[u8]) -> Result<Vec<char, A>, FaultKind>
    ensures found { IfOk result (λ key. IsKey text.now key.items) }
    ensures fault { IfErr result (λ kind. (kind ≡ FaultKind.Memory) ⊎ KeyCause text.now kind) }
{
    key.clear();
    let mut rest = skip_blanks(text);
    while !rest.is_empty() {
        let (word, more) = cut_word(rest);
        let Some(point) = code_point(word) else {
            return Err(FaultKind::CodePoint);
        };
        if key.len() == MOST_CODE_POINTS {
            return Err(FaultKind::Limit);
        }
        key.push(point)?;
        rest = skip_blanks(more);
    }
    if key.is_empty() {
        return Err(FaultKind::Line);
    }
    Ok(key)
}
