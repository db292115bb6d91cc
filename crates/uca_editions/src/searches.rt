//! Looking for a code point among others, and for the changed texts that begin with it.

ghost use Rattle.std.specs.Prelude.{◌≡◌, ◌↔◌, ℕ, ◌<◌, ◌≤◌, List, true, false, length, IsTrue, Contains};
ghost use Rattle.std.specs.List.Sorted.{IsPartitionPoint};
ghost use Rattle.uca_text.specs.Occurring.{OccursInOrder};
ghost use Rattle.uca_change_files.specs.Changes.{AreInOrder, IsBelow};
ghost use Rattle.uca_editions.specs.inside.Index.{first_of};

use std::alloc::Allocator;
use uca_change_files::ChangedText;
use uca_text::occurs_in_order;

/// Whether the code point is one of these. It looks from the last one on.
pub(crate) fn is_among(points: &[char], point: char) -> bool
    ensures { IsTrue result ↔ Contains points.now point }
{
    let mut at = points.len();
    while at > 0 {
        at -= 1;
        if points[at] == point {
            return true;
        }
    }
    false
}

/// Whether a text that begins with the code point occurs in order in the code points. The texts rise.
pub(crate) fn one_occurs<A: Allocator>(
    texts: &[ChangedText<A>],
    first: char,
    points: &[char],
) -> bool
    requires { AreInOrder IsBelow texts.now }
    ensures found { result ≡ true → (text : List ℕ) × Contains texts.now text × OccursInOrder text points.now }
    ensures none { result ≡ false → (text : List ℕ) → Contains texts.now text → first_of text ≡ first → ¬ (OccursInOrder text points.now) }
{
    let place = text_place(texts, first);
    for text in &texts[place..] {
        if first_point(text) != first {
            return false;
        }
        if occurs_in_order(&text.points, points) {
            return true;
        }
    }
    false
}

// The position of the first text that begins with the code point or one above it.
fn text_place<A: Allocator>(texts: &[ChangedText<A>], point: char) -> usize
    requires { AreInOrder IsBelow texts.now }
    ensures bound { result ≤ length texts.now }
    ensures place { IsPartitionPoint (λ text. first_of text < point) (λ text. point ≤ first_of text) texts.now result }
{
    texts.partition_point(|text| first_point(text) < point)
}

/// The first code point of a text, or U+0000 if there is none.
pub(crate) fn first_point<A: Allocator>(text: &ChangedText<A>) -> char
    ensures { result ≡ first_of text.now }
{
    text.points.first().copied().unwrap_or('\0')
}
