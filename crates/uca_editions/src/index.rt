//! `ChangeIndex`: a list of changes, ready to be looked up in texts.
//!
//! It has a bit for each code point that lies in a changed range or begins a changed text. So a code point without a
//! bit takes one look. The texts that begin with a code point are looked for once, from its first place in the line on.
//! What does not occur from there on does not occur later.

ghost use Rattle.std.specs.Prelude.{◌≡◌, ℕ, ◌+◌, ◌<◌, true, false, length, take, IfOk};
ghost use Rattle.uca_editions.specs.AffectedTexts.{is_affected_by};
ghost use Rattle.uca_editions.specs.inside.Index.{IsFree};

use crate::marks::{MARK_WORDS, is_marked, mark_changes};
use crate::searches::{is_among, one_occurs};
use std::alloc::{AllocError, Allocator, Global};
use std::marker::Model;
use uca_change_files::ChangeList;
use uca_changes::Affects;
use uca_text::Normal;

/// A list of changes, ready to be looked up in texts. It has a mark for each code point that lies in a changed range or
/// begins a changed text. So a text without such a code point costs one look a code point. The marks take 139,264 bytes.
#[derive(Drop)]
pub struct ChangeIndex<A: Allocator = Global> {
    list: ChangeList<A>,
    marks: Vec<u64, A>,
}

impl<A: Allocator> Model for ChangeIndex<A> {
    ghost use Rattle.uca_change_files.specs.Changes.{ChangeContent};
    ghost use Rattle.uca_editions.specs.inside.Index.{AreMarked};

    ghost Value = { ChangeContent };

    ghost view = { λ s. s.list };

    ghost invariant = { λ s. AreMarked s.list s.marks.items };
}

impl<A: Allocator> ChangeIndex<A> {
    /// These changes, with their marks.
    ///
    /// # Errors
    ///
    /// An allocation that fails.
    pub fn new(alloc: A, list: ChangeList<A>) -> Result<ChangeIndex<A>, AllocError>
        ensures { IfOk result (λ index. index ≡ list) }
    {
        let mut marks = vec![in alloc; 0; MARK_WORDS]?;
        mark_changes(&mut marks, &list);
        Ok(ChangeIndex { list, marks })
    }

    // Whether the marked code point at a position shows that the text is affected: a changed range has it, or a changed text
    // begins with it and occurs in the text. The texts are looked for where the code point is the first of its kind, since
    // what does not occur from there on does not occur later.
    fn is_hit(&self, points: &[char], at: usize) -> bool
        requires within { at < length points.now }
        requires free { IsFree self.now points.now (take at points.now) }
        ensures hit { result ≡ true → is_affected_by self.now points.now ≡ true }
        ensures free { result ≡ false → IsFree self.now points.now (take (at + 1) points.now) }
    {
        let point = points[at];
        if self.list.has_point(point) {
            return true;
        }
        if is_among(&points[..at], point) {
            return false;
        }
        one_occurs(self.list.texts(), point, &points[at..])
    }
}

/// A text is affected where a changed text occurs in it in order, or a changed range has one of its code points. It takes no
/// memory. A code point without a mark costs one look. Each changed text whose first code point the text has costs at most
/// two ways through the text.
impl<A: Allocator> Affects for ChangeIndex<A> {
    ghost use Rattle.uca_editions.specs.AffectedTexts.{is_affected_by};

    ghost affects = { λ index. is_affected_by index };

    fn affects(&self, text: &Normal) -> bool {
        let points = text.chars();
        for (at, point) in points.iter().enumerate() {
            if is_marked(&self.marks, *point) && self.is_hit(points, at) {
                return true;
            }
        }
        false
    }
}
