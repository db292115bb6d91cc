//! The weights at which cells begin, in their order.

ghost use Rattle.std.specs.Prelude.{◌≡◌, ◌↔◌, ◌⊎◌, [], IsTrue, OnOk, OnErr, IfOk, IfErr};
ghost use Rattle.uca_values.specs.declared.faults.FaultKind.{FaultKind};
ghost use Rattle.uca_books.specs.Books.{Letter, Variable, IsBook, MayFollow, Adds, Refuses, last_of};

use std::alloc::{AllocError, Allocator, Global};
use std::marker::Model;
use uca_values::FaultKind;

/// The least weight that is written as a start. The first cell of each level begins at 1 by itself.
const LEAST: u16 = 2;

/// The greatest start of level 4: the weight above it is the common one.
const GREATEST_VARIABLE: u16 = 0xFFFE;

/// How many starts level 1 has at most.
const MOST_LETTERS: usize = 245;

/// How many starts level 4 has at most.
const MOST_VARIABLES: usize = 255;

/// Where the cells of weights begin, at level 1 and at level 4. In each level the starts rise. The first cell of each
/// level begins at 1, so it is not among them. Level 1 has at most 245 starts of 2 to FFFF, and level 4 at most 255 of 2
/// to FFFE.
#[derive(Drop)]
pub struct Book<A: Allocator = Global> {
    letters: Vec<u16, A>,
    variables: Vec<u16, A>,
}

impl<A: Allocator> Model for Book<A> {
    ghost use Rattle.uca_books.specs.Books.{BookContent, IsBook};

    ghost Value = { BookContent };

    ghost view = { λ b. record { letters = b.letters.items; variables = b.variables.items } };

    ghost invariant = { λ b. IsBook (record { letters = b.letters.items; variables = b.variables.items }) };
}

impl<A: Allocator + Copy> Book<A> {
    /// The book of one cell a level. It takes no memory.
    pub fn new(alloc: A) -> Book<A>
        ensures { result ≡ record { letters = []; variables = [] } }
    {
        Book {
            letters: Vec::new(alloc),
            variables: Vec::new(alloc),
        }
    }
}

impl<A: Allocator> Book<A> {
    /// A copy of this book, in memory of its own.
    ///
    /// # Errors
    ///
    /// An allocation failed.
    pub fn copied<B: Allocator + Copy>(&self, alloc: B) -> Result<Book<B>, AllocError>
        ensures { IfOk result (λ book. book ≡ self.now) }
    {
        let mut letters = Vec::new(alloc);
        letters.extend_from_slice(&self.letters)?;
        let mut variables = Vec::new(alloc);
        variables.extend_from_slice(&self.variables)?;
        Ok(Book { letters, variables })
    }

    /// Adds a start of level 1 after the others.
    ///
    /// # Errors
    ///
    /// Nothing changes at an error. The first of these is returned:
    ///
    /// - `Weight`: it is 0 or 1.
    /// - `Order`: there is a start of level 4, or the weight is not greater than the start before it.
    /// - `Limit`: level 1 has 245 starts.
    /// - `Memory`: an allocation failed.
    pub fn push_letter(&mut self, weight: u16) -> Result<(), FaultKind>
        ensures ok { OnOk result (Adds self.old (Letter weight) self.new) }
        ensures same { OnErr result (self.new ≡ self.old) }
        ensures fault { IfErr result (λ kind. (kind ≡ FaultKind.Memory) ⊎ Refuses self.old (Letter weight) kind) }
    {
        if weight < LEAST {
            Err(FaultKind::Weight)
        } else if !may_follow(&self.letters, &self.variables, weight) {
            Err(FaultKind::Order)
        } else if self.letters.len() >= MOST_LETTERS {
            Err(FaultKind::Limit)
        } else {
            match self.letters.push(weight) {
                Ok(()) => Ok(()),
                Err(_) => Err(FaultKind::Memory),
            }
        }
    }

    /// Adds a start of level 4 after the others.
    ///
    /// # Errors
    ///
    /// Nothing changes at an error. The first of these is returned:
    ///
    /// - `Weight`: it is 0, 1 or FFFF.
    /// - `Order`: it is not greater than the start of level 4 before it.
    /// - `Limit`: level 4 has 255 starts.
    /// - `Memory`: an allocation failed.
    pub fn push_variable(&mut self, weight: u16) -> Result<(), FaultKind>
        ensures ok { OnOk result (Adds self.old (Variable weight) self.new) }
        ensures same { OnErr result (self.new ≡ self.old) }
        ensures fault { IfErr result (λ kind. (kind ≡ FaultKind.Memory) ⊎ Refuses self.old (Variable weight) kind) }
    {
        if weight < LEAST || weight > GREATEST_VARIABLE {
            Err(FaultKind::Weight)
        } else if weight <= last_start(&self.variables) {
            Err(FaultKind::Order)
        } else if self.variables.len() >= MOST_VARIABLES {
            Err(FaultKind::Limit)
        } else {
            match self.variables.push(weight) {
                Ok(()) => Ok(()),
                Err(_) => Err(FaultKind::Memory),
            }
        }
    }

    /// The starts of level 1, in rising order.
    pub fn letters(&self) -> &[u16]
        ensures value { result.now ≡ self.now.letters }
        ensures book { IsBook self.now }
    {
        &self.letters
    }

    /// The starts of level 4, in rising order.
    pub fn variables(&self) -> &[u16]
        ensures value { result.now ≡ self.now.variables }
        ensures book { IsBook self.now }
    {
        &self.variables
    }
}

// Whether a weight may be a start of level 1 after these, with these of level 4.
fn may_follow(letters: &[u16], variables: &[u16], weight: u16) -> bool
    ensures { IsTrue result ↔ MayFollow (record { letters = letters.now; variables = variables.now }) (Letter weight) }
{
    variables.is_empty() && last_start(letters) < weight
}

// The last of some starts, or 1, where the first cell begins.
fn last_start(starts: &[u16]) -> u16
    ensures { result ≡ last_of 1 starts.now }
{
    match starts.last() {
        None => 1,
        Some(last) => *last,
    }
}
