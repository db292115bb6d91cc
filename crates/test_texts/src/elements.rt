//! What texts read as: the longest key, the marks that it takes, and implicit weights.

use crate::cases::words_of_case;
use crate::samples::{CLASSES, Check, normal_of, over_both};
use std::alloc::{AllocError, Global};
use std::test::Fail;
use test_kit::{holds, same};
use uca_match::{Collator, Lookup};
use uca_text::Normal;

const CONTRACTIONS: &str = "@version 1\n\
    0061 ; [.0001.0020.0002]\n\
    0301 ; [.0002.0020.0002]\n\
    0300 ; [.0003.0020.0002]\n\
    0323 ; [.0004.0020.0002]\n\
    0061 0301 ; [.0005.0020.0002]\n\
    0061 0301 0300 ; [.0006.0020.0002]\n\
    0062 0061 0062 ; [.0007.0020.0002]\n\
    0062 ; [.0008.0020.0002]\n";

/// The primary weights of the elements of a text that are not 0.
fn primaries<L: Lookup>(
    alloc: Global,
    collator: &Collator<L>,
    text: &Normal,
) -> Result<String, AllocError> {
    let mut weights = String::new(alloc);
    for element in collator.elements(text) {
        if element.primary != 0 {
            write!(weights, " {:04X}", element.primary)?;
        }
    }
    Ok(weights)
}

/// Texts and what they read as, with a space before each weight.
const READ: &str = r" |
0061 | 0001
-- the longest key that begins the text
0062 0061 0062 | 0007
0062 0061 0061 | 0008 0001 0001
0062 0061 | 0008 0001
0061 0301 | 0005
-- a mark that a skipped one does not block is removed, and the skipped one is read after the key
0061 0323 0301 | 0005 0004
0061 0323 0301 0062 | 0005 0004 0008
-- a mark that was removed blocks nothing
0061 0323 0301 0300 | 0006 0004
-- a skipped mark blocks one of its class
0061 0300 0301 | 0001 0003 0002
-- a code point that no row lists gets implicit weights, and takes no marks
4E00 0301 | FBC0 CE00 0002
4E00 10FFFF | FBC0 CE00 FBE1 FFFF";

/// A text, and what it reads as.
fn check_case<L: Lookup>(alloc: Global, collator: &Collator<L>, case: &str) -> Result<(), Fail> {
    if case.starts_with("--") {
        return Ok(());
    }
    let (points, wanted) = words_of_case(case)?;
    let text = normal_of(alloc, points, collator.data)?;
    let found = primaries(alloc, collator, &text);
    drop(text);
    same(&found?, wanted, case)
}

/// Nothing comes after the last element, however often it is asked for.
fn check_end<L: Lookup>(alloc: Global, collator: &Collator<L>) -> Result<(), Fail> {
    let text = normal_of(alloc, "0061", collator.data)?;
    let mut elements = collator.elements(&text);
    let first = elements.next().is_some();
    let second = elements.next().is_some();
    let third = elements.next().is_some();
    drop(text);
    holds(
        [first, second, third] == [true, false, false],
        "one element, and no more",
    )
}

/// The texts of `READ`, and the end of the elements.
#[derive(Clone, Copy)]
struct Read;

impl Check for Read {
    fn check<L: Lookup>(&self, alloc: Global, collator: &Collator<L>) -> Result<(), Fail> {
        for case in READ.lines() {
            check_case(alloc, collator, case)?;
        }
        check_end(alloc, collator)
    }
}

#[test]
fn reads_texts(rt: HostRuntime) -> Result<(), Fail> {
    over_both(rt.alloc(), CONTRACTIONS, CLASSES, &Read)
}
