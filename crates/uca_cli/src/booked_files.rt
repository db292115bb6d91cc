//! A table, a data file and perhaps a book, as `keys` and `fingerprint` open them.

ghost use Rattle.std.specs.Prelude.{◌≡◌, ◌∷◌, MatchResult, IfOk, is_some, option_to_list};
ghost use Rattle.uca_cli.specs.Command.{files_with_book};
ghost use Rattle.uca_host.specs.NamedFiles.{AreOpened, DoesNotOpen, file_system};

use uca_host::Opens;
use uca_host::files::opening::{open_files, open_three};
use uca_run_parts::faults::Role;
use uca_weights::Source;

/// The sources of a table, a data file and a book where one is named. They are opened in this order. Or the role of the first that does
/// not open.
pub(crate) fn open_booked<O: Opens>(
    opener: &mut O,
    table: &str,
    properties: &str,
    book: Option<&str>,
) -> Result<(Source<O::File>, Source<O::File>, Option<Source<O::File>>), Role>
    ensures opened { MatchResult result
        (λ files. AreOpened (file_system O.calls O.File.remaining O.Made.contents)
        opener.old opener.new (files_with_book book.entry table.now properties.now) (files.0 ∷ files.1 ∷ option_to_list files.2))
        (DoesNotOpen (file_system O.calls O.File.remaining O.Made.contents)
        opener.old opener.new (files_with_book book.entry table.now properties.now)) }
    ensures booked { IfOk result (λ files. is_some files.2 ≡ is_some book.entry) }
{
    match book {
        None => match open_files(opener, table, properties) {
            Ok((table, properties)) => Ok((table, properties, None)),
            Err(role) => Err(role),
        },
        Some(book) => match open_three(
            opener,
            Role::Table,
            table,
            Role::Data,
            properties,
            Role::Book,
            book,
        ) {
            Ok((table, properties, book)) => Ok((table, properties, Some(book))),
            Err(role) => Err(role),
        },
    }
}
