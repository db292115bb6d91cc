//! Marks of code points: a bit for each, 64 in a word.

ghost use Rattle.std.specs.Prelude.{◌≡◌, ℕ, ◌*◌, ◌<◌, ◌≤◌, true, length};
ghost use Rattle.std.specs.List.{AllByRecursion};
ghost use Rattle.uca_table.specs.inside.Keeping.{has_bit};
ghost use Rattle.uca_editions.specs.inside.Index.{AreMarked, HasAllWords, HasMarks, IsMarked, KeepsMarks, first_of};

use crate::searches::first_point;
use std::alloc::Allocator;
use uca_change_files::{ChangeList, ChangedText, CodePointRange};

/// How many words have a bit for each of the 0x110000 code points.
pub(crate) const MARK_WORDS: usize = 17_408;

/// Whether the code point is marked.
pub(crate) fn is_marked(words: &[u64], point: char) -> bool
    requires { HasAllWords words.now }
    ensures { result ≡ has_bit words.now point }
{
    let code = point as usize;
    (words[code / 64] >> (code % 64)) & 1 == 1
}

/// Marks the first code point of each changed text, and the code points of each changed range.
pub(crate) fn mark_changes<A: Allocator>(words: &mut [u64], list: &ChangeList<A>)
    requires { HasAllWords words.old }
    ensures { AreMarked list.now words.new }
{
    mark_texts(words, list.texts());
    mark_ranges(words, list.ranges());
}

// Marks the first code point of each text.
fn mark_texts<A: Allocator>(words: &mut [u64], texts: &[ChangedText<A>])
    requires { HasAllWords words.old }
    ensures kept { KeepsMarks words.old words.new }
    ensures marked { AllByRecursion (λ text. IsMarked words.new (first_of text)) texts.now }
{
    for text in texts {
        mark(words, first_point(text) as usize);
    }
}

// Marks the code points of each range.
fn mark_ranges(words: &mut [u64], ranges: &[CodePointRange])
    requires { HasAllWords words.old }
    ensures kept { KeepsMarks words.old words.new }
    ensures marked { AllByRecursion (HasMarks words.new) ranges.now }
{
    for range in ranges {
        mark_range(words, *range);
    }
}

// Marks the code points of a range.
fn mark_range(words: &mut [u64], range: CodePointRange)
    requires { HasAllWords words.old }
    ensures kept { KeepsMarks words.old words.new }
    ensures marked { HasMarks words.new range }
{
    for code in range.first as usize..range.last as usize + 1 {
        mark(words, code);
    }
}

// Marks a code point.
fn mark(words: &mut [u64], code: usize)
    requires { code < 64 * length words.old }
    ensures kept { KeepsMarks words.old words.new }
    ensures marked { IsMarked words.new code }
{
    words[code / 64] |= 1 << (code % 64);
}
