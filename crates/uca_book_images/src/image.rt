//! The image of a book under the map of level 1 of a certificate.

ghost use Rattle.std.specs.Prelude.{◌≡◌, ℕ, suc, ◌≤◌, ◌++◌, max, IfOk, OnOk};
ghost use Rattle.uca_weights.specs.Runs.{weight_image};
ghost use Rattle.uca_books.specs.Books.{RiseAfter};
ghost use Rattle.uca_tailorings.specs.Inputs.{maps_of};
ghost use Rattle.uca_book_images.specs.BookImages as book_images;
ghost use Rattle.uca_book_images.specs.BookImages.{last_image, starts_image, book_image};

use std::alloc::{AllocError, Allocator};
use uca_books::Book;
use uca_certificates::Certificate;
use uca_weights::WeightMap;

/// The greatest start of level 1.
const GREATEST_LETTER: u16 = 0xFFFF;

/// The greatest start of level 4: the weight above it is the common one.
const GREATEST_VARIABLE: u16 = 0xFFFE;

/// The image of a book under the map of level 1, which serves level 4 too. A start becomes its image, or, if it has
/// none, the weight after the last image below it. Where that is not greater than the start before it, it becomes the
/// weight after that start. Starts that would be too great are left out, with those after them.
///
/// # Errors
///
/// An allocation failed.
pub fn image_of<A: Allocator + Copy, B: Allocator, T: Allocator>(
    alloc: A,
    certificate: &Certificate<T>,
    book: &Book<B>,
) -> Result<Book<A>, AllocError>
    ensures { IfOk result (λ image. image ≡ book_image (maps_of certificate.now).primary book.now) }
{
    let map = &certificate.primary;
    let letters = images_of(alloc, map, GREATEST_LETTER, book.letters())?;
    let variables = images_of(alloc, map, GREATEST_VARIABLE, book.variables())?;
    book_of(alloc, &letters, &variables)
}

// The images of the starts of a level, which has a greatest start.
fn images_of<A: Allocator + Copy, T: Allocator>(
    alloc: A,
    map: &WeightMap<T>,
    greatest: u16,
    starts: &[u16],
) -> Result<Vec<u16, A>, AllocError>
    requires { RiseAfter 1 starts.now }
    ensures { IfOk result (λ images. images.items ≡ starts_image (weight_image map.now.level map.now.runs) greatest 1 starts.now) }
{
    let mut images = Vec::new(alloc);
    let mut below = 1;
    let mut last = 0;
    let mut before = 1;
    for start in starts {
        last = last_below(map, below, last, *start);
        below = *start;
        let next = greater_start(before, start_image(map, last, *start));
        if next > u32::from(greatest) {
            return Ok(images);
        }
        before = next as u16;
        images.push(before)?;
    }
    Ok(images)
}

// The image of the last weight below `to` that has an image, by that of the last one below `from`.
fn last_below<T: Allocator>(map: &WeightMap<T>, from: u16, last: u16, to: u16) -> u16
    requires up { from ≤ to }
    requires last { last ≡ last_image (weight_image map.now.level map.now.runs) from }
    ensures { result ≡ last_image (weight_image map.now.level map.now.runs) to }
{
    let mut found = last;
    for weight in from..to {
        found = map.get(weight).unwrap_or(found);
    }
    found
}

// What a start becomes by itself, by the last image below it.
fn start_image<T: Allocator>(map: &WeightMap<T>, last: u16, start: u16) -> u32
    requires { last ≡ last_image (weight_image map.now.level map.now.runs) start }
    ensures { result ≡ book_images.start_image (weight_image map.now.level map.now.runs) start }
{
    match map.get(start) {
        Some(image) => u32::from(image),
        None => u32::from(last) + 1,
    }
}

// This start, if it is greater than the one before it. Else the weight after that one.
fn greater_start(before: u16, start: u32) -> u32
    ensures { result ≡ max (suc before) start }
{
    if start > u32::from(before) {
        start
    } else {
        u32::from(before) + 1
    }
}

// The book with these starts of level 1 and of level 4. They are those of a book, so an error is one of memory.
fn book_of<A: Allocator + Copy>(
    alloc: A,
    letters: &[u16],
    variables: &[u16],
) -> Result<Book<A>, AllocError>
    ensures { IfOk result (λ book. book ≡ record { letters = letters.now; variables = variables.now }) }
{
    let mut book = Book::new(alloc);
    add_letters(&mut book, letters)?;
    add_variables(&mut book, variables)?;
    Ok(book)
}

// Adds starts of level 1.
fn add_letters<A: Allocator>(book: &mut Book<A>, starts: &[u16]) -> Result<(), AllocError>
    ensures letters { OnOk result (book.new.letters ≡ book.old.letters ++ starts.now) }
    ensures variables { OnOk result (book.new.variables ≡ book.old.variables) }
{
    for start in starts {
        match book.push_letter(*start) {
            Ok(()) => {}
            Err(_) => return Err(AllocError),
        }
    }
    Ok(())
}

// Adds starts of level 4.
fn add_variables<A: Allocator>(book: &mut Book<A>, starts: &[u16]) -> Result<(), AllocError>
    ensures letters { OnOk result (book.new.letters ≡ book.old.letters) }
    ensures variables { OnOk result (book.new.variables ≡ book.old.variables ++ starts.now) }
{
    for start in starts {
        match book.push_variable(*start) {
            Ok(()) => {}
            Err(_) => return Err(AllocError),
        }
    }
    Ok(())
}
