//! What is true of whole files if each line has one meaning.

ghost use Rattle.uca_lines.specs.FileMeanings.{IsExact, OneMeaning, NoMeaning};

use crate::files::LineParser;

/// A parser of files that may end too early.
pub trait MayEndEarly: LineParser {
    // a file whose lines say this may not end with them
    ghost is_unfinished: { Self → Type 0 };
}

/// The law that the bytes of a file mean at most one thing, if its lines do.
pub fn one_meaning<T: LineParser>()
    ensures { IsExact T.says T.cause → OneMeaning T.form T.says }
{}

/// The law that bytes with an error mean nothing with which a file may end, if its lines mean at most one
/// thing.
pub fn no_meaning_with_fault<T: MayEndEarly>()
    ensures { IsExact T.says T.cause → NoMeaning T.form T.says T.cause T.is_unfinished }
{}
