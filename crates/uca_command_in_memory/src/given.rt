//! Texts that the caller gives in one run of bytes, with a NUL between two of them.

ghost use Rattle.std.specs.Prelude.{◌≡◌, IfOk, map};
ghost use Rattle.uca_command_in_memory.specs.TextLists.{texts_in};

use std::alloc::{AllocError, Global};

/// The texts of a list, without their NULs.
///
/// # Errors
///
/// An allocation failed.
pub fn texts_of(alloc: Global, list: &str) -> Result<Vec<&str>, AllocError>
    ensures { IfOk result (λ found. map (λ text. text.now) found.items ≡ texts_in list.now) }
{
    list.split('\0').collect(alloc)
}
