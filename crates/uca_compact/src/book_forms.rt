//! How the levels of a key are written by a book.

ghost use Rattle.std.specs.Prelude.{◌≡◌, ◌≤◌};
ghost use Rattle.uca_compact.specs.Forms as forms;
ghost use Rattle.uca_compact.specs.Forms.{IsForm};
ghost use Rattle.uca_compact.specs.Programs.{form_of};

use crate::levels::LevelForm;
use std::alloc::Allocator;
use uca_books::Book;

// Where the cells of accents start, after the first one.
static ACCENT_STARTS: [u16; 111] = [
    0x22, 0x23, 0x24, 0x25, 0x26, 0x27, 0x28, 0x29, 0x2A, 0x2B, 0x2C, 0x2D, 0x2E, 0x2F, 0x30, 0x31,
    0x32, 0x33, 0x34, 0x35, 0x36, 0x37, 0x38, 0x39, 0x3A, 0x3B, 0x3C, 0x3D, 0x3E, 0x3F, 0x40, 0x41,
    0x42, 0x43, 0x44, 0x45, 0x46, 0x47, 0x48, 0x49, 0x4A, 0x4B, 0x4C, 0x4D, 0x4E, 0x4F, 0x50, 0x51,
    0x52, 0x53, 0x54, 0x55, 0x56, 0x57, 0x58, 0x59, 0x5A, 0x5B, 0x5C, 0x5D, 0x5E, 0x5F, 0x60, 0x61,
    0x62, 0x63, 0x64, 0x65, 0x66, 0x67, 0x68, 0x69, 0x6A, 0x6B, 0x6C, 0x6D, 0x6E, 0x6F, 0x70, 0x71,
    0x72, 0x73, 0x74, 0x75, 0x76, 0x77, 0x78, 0x79, 0x7A, 0x7B, 0x7C, 0x7D, 0x7E, 0x7F, 0x80, 0x81,
    0x82, 0x83, 0x84, 0x85, 0x86, 0x87, 0x88, 0x89, 0x8A, 0x8B, 0x8C, 0x8D, 0x8E, 0x8F, 0x18F,
];

// Where the cells of cases start, after the first one.
static CASE_STARTS: [u16; 31] = [
    0x4, 0x5, 0x6, 0x7, 0x8, 0x9, 0xA, 0xB, 0xC, 0xD, 0xE, 0xF, 0x10, 0x11, 0x12, 0x13, 0x14, 0x15,
    0x16, 0x17, 0x18, 0x19, 0x1A, 0x1B, 0x1C, 0x1D, 0x1E, 0x1F, 0x20, 0x21, 0x121,
];

// How level 1 is written before so many other levels.
pub(crate) fn letters_form<A: Allocator>(book: &Book<A>, later: u8) -> LevelForm<'_>
    requires { later ≤ 3 }
    ensures form { form_of result ≡ forms.letters_form book.now later }
    ensures is { IsForm (form_of result) }
{
    LevelForm {
        common: 0,
        longest: 1,
        ends: 2 * later + 1,
        lesser: &[],
        greater: book.letters(),
    }
}

// How level 2 is written.
pub(crate) fn accents_form(later: u8) -> LevelForm<'static>
    requires { later ≤ 2 }
    ensures form { form_of result ≡ forms.accents_form later }
    ensures is { IsForm (form_of result) }
{
    LevelForm {
        common: 0x20,
        longest: 20,
        ends: 2 * later + 1,
        lesser: &[],
        greater: &ACCENT_STARTS,
    }
}

// How level 3 is written.
pub(crate) fn cases_form(later: u8) -> LevelForm<'static>
    requires { later ≤ 1 }
    ensures form { form_of result ≡ forms.cases_form later }
    ensures is { IsForm (form_of result) }
{
    LevelForm {
        common: 2,
        longest: 32,
        ends: 2 * later + 1,
        lesser: &[],
        greater: &CASE_STARTS,
    }
}

// How level 4 is written.
pub(crate) fn variables_form<A: Allocator>(book: &Book<A>) -> LevelForm<'_>
    ensures form { form_of result ≡ forms.variables_form book.now 0 }
    ensures is { IsForm (form_of result) }
{
    LevelForm {
        common: 0xFFFF,
        longest: 85,
        ends: 1,
        lesser: book.variables(),
        greater: &[],
    }
}
