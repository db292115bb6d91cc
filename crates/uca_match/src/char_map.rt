//! `CharMap`: a number for each code point.
//!
//! A page takes 2 KB. Code points without a number share the first page, and the numbers of the pages of all code
//! points take 8.7 KB. So small tables pay little.
ghost use Rattle.std.specs.Prelude.{◌≡◌, ◌≢◌, ℕ, ◌<◌, ◌/◌, IfOk, OnOk, slice_index_or};
ghost use Rattle.uca_match.specs.CharMaps.{number_in, number_of, ArePages};

use std::alloc::{AllocError, Allocator};
use std::marker::Model;

/// How many code points a page has.
const PAGE: usize = 256;

/// How many pages all code points fill.
const PAGES: usize = 0x1100;

/// A number for each code point. It is 0 until the code point gets another one.
///
/// It takes two loads to find a number, and memory for the pages of 256 code points in which some number is not 0.
#[derive(Drop)]
pub(crate) struct CharMap<A: Allocator> {
    // of each 256 code points in turn, the number of their page; the first page stays full of 0
    pages: Vec<u16, A>,
    // the numbers, 256 for each page
    numbers: Vec<usize, A>,
}

impl<A: Allocator> Model for CharMap<A> {
    ghost use Rattle.uca_match.specs.CharMaps.{Paged, ArePages};

    ghost Value = { Paged };

    ghost view = { λ m. record { pages = m.pages.items; numbers = m.numbers.items } };

    ghost invariant = { λ m. ArePages m.pages.items m.numbers.items };
}

impl<A: Allocator + Copy> CharMap<A> {
    /// The map in which each code point has 0.
    ///
    /// # Errors
    ///
    /// An allocation that fails.
    pub(crate) fn new(alloc: A) -> Result<Self, AllocError>
        ensures { IfOk result (λ charmap. (c : ℕ) → number_of charmap c ≡ 0) }
    {
        let pages = Vec::from_elem(alloc, 0, PAGES)?;
        match Vec::from_elem(alloc, 0, PAGE) {
            Ok(numbers) => Ok(CharMap { pages, numbers }),
            Err(error) => Err(error),
        }
    }
}

impl<A: Allocator> CharMap<A> {
    /// The number of a code point.
    pub(crate) fn get(&self, c: char) -> usize
        ensures { result ≡ number_of self.now c }
    {
        let code = c as usize;
        let page = self.pages[code / PAGE] as usize;
        self.numbers[page * PAGE + code % PAGE]
    }

    /// Gives a code point a number.
    ///
    /// # Errors
    ///
    /// An allocation that fails.
    pub(crate) fn set(&mut self, c: char, number: usize) -> Result<(), AllocError>
        ensures here { OnOk result (number_of self.new c ≡ number) }
        ensures others { OnOk result ((d : ℕ) → d ≢ c → number_of self.new d ≡ number_of self.old d) }
    {
        let code = c as usize;
        match page_at(&mut self.pages, &mut self.numbers, code / PAGE) {
            Ok(page) => {
                self.numbers[page * PAGE + code % PAGE] = number;
                Ok(())
            }
            Err(error) => Err(error),
        }
    }
}

/// The page of some 256 code points. They get one if they have none.
fn page_at<A: Allocator>(
    pages: &mut Vec<u16, A>,
    numbers: &mut Vec<usize, A>,
    at: usize,
) -> Result<usize, AllocError>
    requires pages { ArePages pages.old.items numbers.old.items }
    requires within { at < 0x1100 }
    ensures pages { ArePages pages.new.items numbers.new.items }
    ensures page { IfOk result (λ page. (page ≡ slice_index_or pages.new.items at 0) × (0 < page)) }
    ensures same { (c : ℕ) → number_in pages.new.items numbers.new.items c ≡ number_in pages.old.items numbers.old.items c }
{
    let known = pages[at] as usize;
    if known > 0 {
        return Ok(known);
    }
    let len = numbers.len();
    let page = len / PAGE;
    match numbers.resize(len + PAGE, 0) {
        Ok(()) => {
            pages[at] = page as u16;
            Ok(page)
        }
        Err(error) => Err(error),
    }
}
