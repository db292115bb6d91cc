//! Sorts a list of words by a table and a data file. `docs/LIBRARY.md` begins with this program.
#![tactic(auto)]

use std::alloc::{AllocError, Global};
use std::{fs, io};
use thiserror::Error;
use uca_collation::{Asked, Depth, KeyFault, Numbers, OpenFault, OwnedCollator};

/// The weighting is the table's, and words that weigh the same have a fixed order too.
const ASKED: Asked = Asked {
    weighting: None,
    depth: Depth::Identical,
    numbers: Numbers::AsText,
};

/// Why there is no sorted list.
#[derive(Debug, Drop, Error)]
enum Failure {
    #[error(transparent)]
    File(#[from] io::Error),
    #[error(transparent)]
    Open(#[from] OpenFault),
    #[error(transparent)]
    Key(#[from] KeyFault),
    #[error("out of memory")]
    Memory(#[from(alloc)] AllocError),
}

/// A word, and the sort key by which it is compared.
#[derive(Drop)]
struct Entry<'a> {
    key: Vec<u8>,
    word: &'a str,
}

fn main(rt: HostRuntime) -> Result<(), Failure> {
    let mut collator = opened(&rt)?;
    print_sorted(&rt, &mut collator, &["c", "\u{E1}", "ba", "A", "b a", "a"])
}

/// A collator of the table and the data file in this folder.
fn opened(rt: &HostRuntime) -> Result<OwnedCollator, Failure> {
    let table = fs::read(rt, "table.txt")?;
    let data = fs::read(rt, "data.txt")?;
    Ok(OwnedCollator::open(rt.alloc(), &table, &data, ASKED)?)
}

/// Prints the words in their order.
fn print_sorted(
    rt: &HostRuntime,
    collator: &mut OwnedCollator,
    words: &[&str],
) -> Result<(), Failure> {
    for entry in &sorted(rt.alloc(), collator, words)? {
        println!(rt; "{}", entry.word)?;
    }
    Ok(())
}

/// The words in their order.
fn sorted<'a>(
    alloc: Global,
    collator: &mut OwnedCollator,
    words: &[&'a str],
) -> Result<Vec<Entry<'a>>, Failure> {
    let mut entries = Vec::new(alloc);
    for word in words {
        collator.make_key(word.as_bytes())?;
        let key = collator.key().to_vec(alloc)?;
        entries.push(Entry { key, word })?;
    }
    entries.sort_by(|left, right| left.key.cmp(&right.key))?;
    Ok(entries)
}
