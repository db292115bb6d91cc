//! Puts the words of a list in order.

use crate::Failure;
use std::alloc::Global;
use uca_collation::{Collate, Collator, Data, Depth, Normal, Table, Trie, Weighting, normal};

/// A word of the list, as it is printed and as it is compared.
#[derive(Drop)]
pub struct Word<'a> {
    pub text: &'a str,
    normal: Normal,
}

/// The words in their order. Texts that weigh the same have a fixed order too.
pub fn sorted_list<'a>(
    alloc: Global,
    table: &Table,
    data: &Data,
    texts: &[&'a str],
) -> Result<Vec<Word<'a>>, Failure> {
    let rows = Trie::new(alloc, table)?;
    let collator = Collator::new(&rows, &table.header, data);
    let mut words = words_of(alloc, data, texts)?;
    words.sort_by(|left, right| {
        collator
            .compare(
                Weighting::Shifted,
                Depth::Identical,
                &left.normal,
                &right.normal,
            )
            .order
    })?;
    Ok(words)
}

/// Each text as a word.
fn words_of<'a>(alloc: Global, data: &Data, texts: &[&'a str]) -> Result<Vec<Word<'a>>, Failure> {
    let mut words = Vec::new(alloc);
    for text in texts {
        let normal = normal(alloc, text, data)?;
        words.push(Word { text, normal })?;
    }
    Ok(words)
}
