//! Texts of relations, read over the rows so far.
//!
//! One map of keys to their positions (`KeyMap`) serves the texts of all relations. It gives what a text is matched
//! as (`Matches`): positions, and code points that no key covers. The law `relations_read_over_all_keys` of
//! `uca_plans` allows for keys that have no row yet.

ghost use Rattle.std.specs.Prelude.{◌≡◌, ◌++◌, ℕ, List, OnOk, map, true};
ghost use Rattle.uca_values.specs.Content.{properties_of};
ghost use Rattle.uca_values.specs.Implicit.{implicit};
ghost use Rattle.uca_elements.specs.Positions.{is_placed};
ghost use Rattle.uca_match.specs.Tries.{positions};
ghost use Rattle.uca_plans.specs.Drafts as drafts;
ghost use Rattle.uca_plans.specs.Keys.{read_over};
ghost use Rattle.uca_tailor.specs.inside.Ready.{ArePositionsWith};
ghost use Rattle.uca_tailor.specs.inside.MatchDrafts.{match_drafts};

use crate::drafts::elements::as_draft;
use crate::drafts::row_drafts::RowDraft;
use crate::drafts::variables::VariableSpan;
use std::alloc::{AllocError, Allocator};
use uca_elements::Match;
use uca_match::{KeyMap, Matches};
use uca_plans::DraftElement;
use uca_text::Normal;
use uca_values::{Data, Table};

/// What texts are read by.
#[derive(Drop)]
pub(crate) struct DraftBasis<'r, A: Allocator, T: Allocator> {
    /// The base, whose header has the ranges for implicit weights.
    pub(crate) base: &'r Table<T>,
    /// The combining classes and the Han ranges of code points.
    pub(crate) properties: &'r Data<T>,
    /// The row of each key.
    pub(crate) key_rows: &'r KeyMap<A>,
    /// The primaries of the base's variable elements.
    pub(crate) variables: Option<VariableSpan>,
}

impl<'r, A: Allocator, T: Allocator> DraftBasis<'r, A, T> {
    /// Puts the elements that a text has over some rows after those of a list. The text is matched against all keys that have
    /// rows.
    ///
    /// # Errors
    ///
    /// An allocation that fails.
    pub(crate) fn read(
        &self,
        rows: &[RowDraft<A>],
        text: &Normal,
        elements: &mut Vec<DraftElement, A>,
    ) -> Result<(), AllocError>
        requires { (more : List (List ℕ)) × ArePositionsWith (positions self.now.key_rows.now) rows.now more }
        ensures { OnOk result (elements.new.items ≡ elements.old.items
            ++ read_over self.now.base.now.header.ranges (properties_of self.now.properties.now)
            (is_placed (positions self.now.key_rows.now)) rows.now text.now) }
    {
        for part in Matches::new(self.key_rows, text) {
            self.append_match(rows, part, elements)?;
        }
        Ok(())
    }

    /// Puts the elements of a part of a text after those of a list: those of the row at a position, or implicit ones.
    fn append_match(
        &self,
        rows: &[RowDraft<A>],
        part: Match<usize>,
        elements: &mut Vec<DraftElement, A>,
    ) -> Result<(), AllocError>
        ensures { OnOk result (elements.new.items ≡ elements.old.items
            ++ match_drafts self.now.base.now.header.ranges (properties_of self.now.properties.now) rows.now part) }
    {
        match part {
            Match::Key(at) => match rows.get(at) {
                Some(row) => row.append_to(elements),
                None => Ok(()),
            },
            Match::Unlisted(point) => self.append_implicit(point, elements),
        }
    }

    /// Puts the implicit elements of a code point after those of a list.
    fn append_implicit(
        &self,
        point: char,
        elements: &mut Vec<DraftElement, A>,
    ) -> Result<(), AllocError>
        ensures { OnOk result (elements.new.items ≡ elements.old.items
            ++ map (drafts.as_draft true) (implicit self.now.base.now.header.ranges (properties_of self.now.properties.now) point)) }
    {
        let base = self.base;
        let [first, second] = base.header.implicit(self.properties, point);
        elements.extend_from_slice(&[as_draft(true, first), as_draft(true, second)])
    }
}
