//! The rows of a tailored table before weights are numbered.

ghost use Rattle.std.specs.Prelude.{◌≡◌, ◌++◌, OnOk, map, false};
ghost use Rattle.uca_plans.specs.Drafts.{as_draft, row_as_draft};
ghost use Rattle.uca_tailor.specs.inside.RowDrafts.{row_elements};

use crate::drafts::elements::as_draft;
use std::alloc::{AllocError, Allocator};
use std::marker::Model;
use uca_plans::DraftElement;
use uca_text::Normal;
use uca_values::Row;
use uca_weights::Element;

/// A row before weights are numbered. It borrows what the base and the rules have of it.
#[derive(Drop)]
pub(crate) struct RowDraft<'a, A: Allocator> {
    key: &'a [char],
    elements: RowElements<'a, A>,
}

impl<'a, A: Allocator> Model for RowDraft<'a, A> {
    ghost use Rattle.uca_plans.specs.Drafts.{DraftRow};

    ghost Value = { DraftRow };

    ghost use Rattle.uca_tailor.specs.inside.RowDrafts.{row_elements};

    ghost view = { λ r. record { key = r.key.now; elements = row_elements r.elements } };
}

/// The elements of a row.
#[derive(Drop)]
pub(crate) enum RowElements<'a, A: Allocator> {
    /// Those of a row of the base, as they are.
    Base(&'a [Element]),
    /// Those of a target.
    Target(Vec<DraftElement, A>),
}

impl<'a, A: Allocator> RowDraft<'a, A> {
    /// A row of the base as it is.
    pub(crate) fn of_base<T: Allocator>(row: &'a Row<T>) -> RowDraft<'a, A>
        ensures { result ≡ row_as_draft row.now }
    {
        RowDraft {
            key: &row.key,
            elements: RowElements::Base(&row.elements),
        }
    }

    /// The row of a target with these elements.
    pub(crate) fn of_target(target: &'a Normal, elements: Vec<DraftElement, A>) -> RowDraft<'a, A>
        ensures { result ≡ record { key = target.now.points; elements = elements.items } }
    {
        RowDraft {
            key: target.chars(),
            elements: RowElements::Target(elements),
        }
    }

    /// The code points.
    pub(crate) fn key(&self) -> &'a [char]
        ensures { result.now ≡ self.now.key }
    {
        self.key
    }

    /// The elements: those of the base, or those of a target.
    pub(crate) fn elements(&self) -> &RowElements<'a, A>
        ensures { row_elements result.now ≡ self.now.elements }
    {
        &self.elements
    }

    /// Puts the elements after those of a list.
    ///
    /// # Errors
    ///
    /// An allocation that fails.
    pub(crate) fn append_to(&self, elements: &mut Vec<DraftElement, A>) -> Result<(), AllocError>
        ensures { OnOk result (elements.new.items ≡ elements.old.items ++ self.now.elements) }
    {
        match &self.elements {
            RowElements::Base(own) => append_as_drafts(own, elements),
            RowElements::Target(own) => elements.extend_from_slice(own),
        }
    }
}

/// Puts elements of the base, with their weights as they are, after those of a list.
fn append_as_drafts<A: Allocator>(
    own: &[Element],
    elements: &mut Vec<DraftElement, A>,
) -> Result<(), AllocError>
    ensures { OnOk result (elements.new.items ≡ elements.old.items ++ map (as_draft false) own.now) }
{
    for element in own {
        elements.push(as_draft(false, *element))?;
    }
    Ok(())
}
