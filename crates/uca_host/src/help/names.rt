//! The names of files in the arguments, by what the files are for.

use uca_run_parts::faults::Role;
use uca_words::{AffectedWords, AuditWords, BookImageWords, EditionNames, TailorWords, Words};

// The name of the table or of the data file.
fn of_two<'a>(role: Role, table: &'a str, properties: &'a str) -> Option<&'a str> {
    match role {
        Role::Table => Some(table),
        Role::Data => Some(properties),
        _ => None,
    }
}

// The name of a table, of a data file or of a book.
fn of_booked<'a>(
    role: Role,
    table: &'a str,
    properties: &'a str,
    book: Option<&'a str>,
) -> Option<&'a str> {
    match role {
        Role::Book => book,
        _ => of_two(role, table, properties),
    }
}

fn of_tailor<'a>(role: Role, words: &TailorWords<'a>) -> Option<&'a str> {
    match role {
        Role::Rules => Some(words.rules),
        Role::Certificate => Some(words.certificate),
        _ => of_two(role, words.table, words.properties),
    }
}

fn of_audit<'a>(role: Role, words: &AuditWords<'a>) -> Option<&'a str> {
    match role {
        Role::Base => Some(words.base),
        Role::Data => Some(words.properties),
        Role::Rules => Some(words.rules),
        Role::Tailored => Some(words.tailored),
        Role::Certificate => Some(words.certificate),
        _ => None,
    }
}

fn of_affected<'a>(role: Role, words: &AffectedWords<'a>) -> Option<&'a str> {
    match role {
        Role::Data => Some(words.properties),
        Role::Rules | Role::Changes => Some(words.rules),
        _ => None,
    }
}

fn of_book<'a>(role: Role, words: &BookImageWords<'a>) -> Option<&'a str> {
    match role {
        Role::Certificate => Some(words.certificate),
        Role::Book => Some(words.book),
        _ => None,
    }
}

// The name of a file of two editions, or of another one.
fn of_editions<'a>(
    role: Role,
    names: &EditionNames<'a>,
    changes: Option<&'a str>,
    certificate: &'a str,
) -> Option<&'a str> {
    match role {
        Role::Old => Some(names.old),
        Role::OldData => Some(names.old_data),
        Role::New => Some(names.new),
        Role::NewData => Some(names.new_data),
        Role::Changes => changes,
        Role::Certificate => Some(certificate),
        _ => None,
    }
}

/// The name of the file that is for this, if the arguments name one.
pub fn name_of<'a>(words: &Words<'a>, role: Role) -> Option<&'a str> {
    match words {
        Words::Check(it) => of_two(role, it.table, it.properties),
        Words::Keys(it) => of_booked(role, it.table, it.properties, it.compact),
        Words::Sort(it) => of_two(role, it.table, it.properties),
        Words::Compare(it) => of_two(role, it.table, it.properties),
        Words::Tailor(it) => of_tailor(role, it),
        Words::Audit(it) => of_audit(role, it),
        Words::Affected(it) => of_affected(role, it),
        Words::Changes(it) => of_editions(role, &it.editions, None, it.certificate),
        Words::AuditChanges(it) => {
            of_editions(role, &it.editions, Some(it.changes), it.certificate)
        }
        Words::Rekey(it) => Some(it.certificate),
        Words::Compact(it) => Some(it.book),
        Words::Expand(it) => Some(it.book),
        Words::Book(it) => of_book(role, it),
        Words::Fingerprint(it) => of_booked(role, it.table, it.properties, it.book),
    }
}
