//! WF1: zero weights at a level after one whose weight is not zero.

ghost use Rattle.std.specs.Prelude.{◌↔◌, IsTrue};
ghost use Rattle.uca_weights.specs.Kinds.{IsContinuation};
ghost use Rattle.uca_check.specs.WellFormed.{HasGap, IsLead, MeetsWF1};
ghost use Rattle.uca_check.specs.Searches.{FindsFirstWithout};

use std::alloc::Allocator;
use uca_values::Row;
use uca_weights::Element;

/// The index of the first row that fails WF1.
pub(crate) fn first_failing<A: Allocator>(rows: &[Row<A>]) -> Option<usize>
    ensures { FindsFirstWithout MeetsWF1 rows.now result }
{
    rows.iter().position(|row| !has_no_gap(row))
}

/// Whether each element of the row with a gap is a continuation directly after a lead.
fn has_no_gap<A: Allocator>(row: &Row<A>) -> bool
    ensures { IsTrue result ↔ MeetsWF1 row.now }
{
    let mut after_lead = false;
    for element in &row.elements {
        if !may_stand(*element, after_lead) {
            return false;
        }
        after_lead = is_lead(*element);
    }
    true
}

/// Whether the element has no gap, or is a continuation directly after a lead.
fn may_stand(element: Element, after_lead: bool) -> bool
    ensures { IsTrue result ↔ (HasGap element → IsContinuation element × IsTrue after_lead) }
{
    !has_gap(element) || is_continuation(element) && after_lead
}

fn has_gap(element: Element) -> bool
    ensures { IsTrue result ↔ HasGap element }
{
    element.primary != 0 && element.secondary == 0
        || element.secondary != 0 && element.tertiary == 0
}

fn is_continuation(element: Element) -> bool
    ensures { IsTrue result ↔ IsContinuation element }
{
    element.primary != 0 && element.secondary == 0 && element.tertiary == 0
}

fn is_lead(element: Element) -> bool
    ensures { IsTrue result ↔ IsLead element }
{
    0xFB00 <= element.primary
        && element.primary <= 0xFBFF
        && element.secondary != 0
        && element.tertiary != 0
}
