//! What an open collator of C's has.

ghost use Rattle.std.specs.Prelude.{◌≡◌, None, Some, IfOk};
ghost use Rattle.uca_c.specs.OpenCollators.{keying_at};

use std::alloc::{AllocError, Global};
use std::marker::Model;
use uca_books::Book;
use uca_compact::KeyCompacter;
use uca_owned::OwnedCollator;

/// A collator, the book of its compact keys if it has one, and memory for what a call makes.
#[derive(Drop)]
pub struct OpenCollator {
    pub(crate) collator: OwnedCollator,
    // it has the book
    pub(crate) compacter: Option<KeyCompacter>,
    // the bytes that a call makes
    pub(crate) made: Vec<u8>,
}

impl Model for OpenCollator {
    ghost use Rattle.std.specs.Prelude.{◌≡◌, IfSome, option_map};
    ghost use Rattle.uca_c.specs.OpenCollators.{OpenState};

    ghost Value = { OpenState };

    ghost view = { λ c. record { collator = c.collator; book = option_map (λ made_by. made_by.book) c.compacter } };

    ghost invariant = { λ c. IfSome c.compacter (λ made_by. made_by.settings ≡ c.collator.settings) };
}

impl OpenCollator {
    // One whose keys are whole.
    pub(crate) fn new(alloc: Global, collator: OwnedCollator) -> OpenCollator
        ensures { result ≡ record { collator = collator; book = None } }
    {
        OpenCollator {
            collator,
            compacter: None,
            made: Vec::new(alloc),
        }
    }

    // One whose keys are compact, by this book.
    pub(crate) fn with_book(alloc: Global, collator: OwnedCollator, book: Book) -> OpenCollator
        ensures { result ≡ record { collator = collator; book = Some book } }
    {
        let settings = collator.settings();
        OpenCollator {
            collator,
            compacter: Some(KeyCompacter::new(alloc, book, settings)),
            made: Vec::new(alloc),
        }
    }

    // One more with all that this one keys texts by. They share the table and the data file.
    pub(crate) fn share(&self, alloc: Global) -> Result<OpenCollator, AllocError>
        ensures keying { IfOk result (λ shared. keying_at shared ≡ keying_at self.now) }
        ensures book { IfOk result (λ shared. shared.book ≡ self.now.book) }
    {
        let collator = self.collator.share(alloc)?;
        match &self.compacter {
            None => Ok(OpenCollator::new(alloc, collator)),
            Some(compacter) => {
                let book = compacter.book().copied(alloc)?;
                Ok(OpenCollator::with_book(alloc, collator, book))
            }
        }
    }
}
