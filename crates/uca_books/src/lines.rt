//! What the lines of a book list, taken in turn.

ghost use Rattle.std.specs.Prelude.{◌≡◌, ◌⊎◌, ◌∷◌, ℕ, false, List, MatchOption, OnOk, IfErr};
ghost use Rattle.uca_values.specs.declared.faults.FaultKind.{FaultKind};
ghost use Rattle.uca_lines.specs.declared.files.TheConstants.{TABLE_FORM};
ghost use Rattle.uca_lines.specs.FileStops.{is_read_kind};
ghost use Rattle.uca_books.specs.Books.{Letter, Variable};
ghost use Rattle.uca_books.specs.BookTexts.{Says, Cause, IsUnfinished, nothing};
ghost use Rattle.uca_books.specs.inside.Steps.{Gives, Takes, AddsSpelled, RefusesSpelled};

use crate::Book;
use std::alloc::Allocator;
use std::marker::Model;
use uca_lines::fields::weight;
use uca_lines::files::{FileForm, LineParser, TABLE_FORM};
use uca_values::FaultKind;

/// The line before all others.
const HEADER: &[u8] = b"@book 1";

/// What the lines so far say: whether the header was there, and the starts that they list.
#[derive(Drop)]
pub struct BookSoFar<A: Allocator> {
    started: bool,
    book: Book<A>,
}

impl<A: Allocator> Model for BookSoFar<A> {
    ghost use Rattle.uca_books.specs.BookTexts.{Said};

    ghost Value = { Said };

    ghost view = { λ s. record { started = s.started; content = s.book } };
}

impl<A: Allocator + Copy> BookSoFar<A> {
    /// Nothing is said yet. It takes no memory.
    pub fn new(alloc: A) -> BookSoFar<A>
        ensures { result ≡ record { started = false; content = nothing } }
    {
        BookSoFar {
            started: false,
            book: Book::new(alloc),
        }
    }
}

impl<A: Allocator> BookSoFar<A> {
    /// The book that the lines list, if the header was there.
    pub fn into_book(self) -> Option<Book<A>>
        ensures { MatchOption result (IsUnfinished self) (λ book. Gives self book) }
    {
        if self.started { Some(self.book) } else { None }
    }

    // Takes the next line, without its LF.
    fn take_line(&mut self, line: &[u8]) -> Result<(), FaultKind>
        ensures ok { OnOk result (Takes self.old line.now self.new) }
        ensures fault { IfErr result (λ kind. (kind ≡ FaultKind.Memory) ⊎ Cause self.old line.now kind) }
    {
        if !self.started {
            if line != HEADER {
                return Err(FaultKind::Order);
            }
            self.started = true;
            return Ok(());
        }
        if let Some(spelled) = after_level(line, b'1') {
            return add_letter(&mut self.book, spelled);
        }
        if let Some(spelled) = after_level(line, b'4') {
            return add_variable(&mut self.book, spelled);
        }
        Err(FaultKind::Line)
    }
}

impl<A: Allocator> LineParser for BookSoFar<A> {
    type Kind = FaultKind;

    ghost form = { TABLE_FORM };

    ghost is_read = { is_read_kind };

    ghost says = { Says };

    ghost cause = { Cause };

    fn form() -> FileForm<FaultKind> {
        TABLE_FORM
    }

    fn take(&mut self, line: &[u8]) -> Result<(), FaultKind> {
        self.take_line(line)
    }
}

// What follows this digit and a space at the front of a line; `None` if the line begins otherwise.
fn after_level(line: &[u8], level: u8) -> Option<&[u8]>
    ensures { MatchOption result ((rest : List ℕ) → ¬ (line.now ≡ level ∷ 32 ∷ rest)) (λ rest. line.now ≡ level ∷ 32 ∷ rest.now) }
{
    match line {
        [first, b' ', rest @ ..] if *first == level => Some(rest),
        _ => None,
    }
}

// Adds the start of level 1 whose digits these are.
fn add_letter<A: Allocator>(book: &mut Book<A>, spelled: &[u8]) -> Result<(), FaultKind>
    ensures ok { OnOk result (AddsSpelled Letter spelled.now book.old book.new) }
    ensures fault { IfErr result (λ kind. (kind ≡ FaultKind.Memory) ⊎ RefusesSpelled Letter spelled.now book.old kind) }
{
    match weight(spelled) {
        Some(start) => book.push_letter(start),
        None => Err(FaultKind::Weight),
    }
}

// Adds the start of level 4 whose digits these are.
fn add_variable<A: Allocator>(book: &mut Book<A>, spelled: &[u8]) -> Result<(), FaultKind>
    ensures ok { OnOk result (AddsSpelled Variable spelled.now book.old book.new) }
    ensures fault { IfErr result (λ kind. (kind ≡ FaultKind.Memory) ⊎ RefusesSpelled Variable spelled.now book.old kind) }
{
    match weight(spelled) {
        Some(start) => book.push_variable(start),
        None => Err(FaultKind::Weight),
    }
}
