//! The arguments of the program.

ghost use Rattle.std.specs.Prelude.{◌≡◌, IfOk, map, string_bytes};

use std::alloc::{AllocError, Global};
use std::env;

/// The arguments of the program. The first is its name.
///
/// # Errors
///
/// An allocation failed, or an argument is not UTF-8.
pub fn given_words(rt: &HostRuntime) -> Result<Vec<String>, AllocError> {
    match env::args(rt) {
        Ok(words) => words.collect(rt.alloc()),
        Err(_) => Err(AllocError),
    }
}

/// The arguments, as texts that are lent.
///
/// # Errors
///
/// An allocation failed.
pub fn words_of(alloc: Global, given: &[String]) -> Result<Vec<&str>, AllocError>
    ensures { IfOk result (λ words. map (λ word. word.now) words.items ≡ map (λ text. string_bytes text) given.now) }
{
    let mut words = Vec::with_capacity(alloc, given.len())?;
    for word in given {
        words.push(word.as_str())?;
    }
    Ok(words)
}
