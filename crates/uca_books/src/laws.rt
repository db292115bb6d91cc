//! What is true by the definitions alone.

ghost use Rattle.uca_books.specs.Laws.{BytesMeanAtMostOneBook, EachBookHasOneText};
ghost use Rattle.uca_books.specs.Worked.{WorkedBooks};

/// The law that bytes mean at most one book.
pub fn bytes_mean_at_most_one_book()
    ensures { BytesMeanAtMostOneBook }
{}

/// The law that each book has one text.
pub fn each_book_has_one_text()
    ensures { EachBookHasOneText }
{}

/// Two texts are books, and four are none: this was worked out by hand. The books are `@book 1` alone, and one with starts
/// of both levels. The others have a start twice, the first cell, a start of level 1 after one of level 4, and no LF at
/// the end. The law says the line and the kind of each error.
pub fn worked_books()
    ensures { WorkedBooks }
{}
