//! An order of all byte strings.

ghost use Rattle.std.specs.Prelude.{◌≡◌, ◌⊎◌, IfOk, OnErr};
ghost use Rattle.std.specs.Str.{IsUtf8};
ghost use Rattle.uca_values.specs.Content.{properties_of};
ghost use Rattle.uca_order.specs.Keyings.{keying_by};
ghost use Rattle.uca_match.specs.OwnedCollations.{owned_collation};
ghost use Rattle.uca_text_comparer.specs.Heads.{Knows};
ghost use Rattle.uca_owned.specs.Owned.{keying_in, key_in};
ghost use Rattle.uca_owned.specs.Causes.{IsAcceptedText, IsCompareCause, is_memory_fault};
ghost use Rattle.uca_owned.specs.Orders.{IsOrder};

use crate::OwnedCollator;
use crate::comparing::{compare_bytes, judge};
use crate::faults::{CompareFault, KeyFault};
use std::alloc::AllocError;
use std::cmp::Ordering;
use uca_match::OwnedCollation;
use uca_text::TextFault;
use uca_text_comparer::TextComparison;
use uca_weights::Settings;

// Whether an allocation failed.
fn is_memory(fault: KeyFault) -> bool
    ensures { result ≡ is_memory_fault fault }
{
    match fault {
        KeyFault::Utf8 => false,
        KeyFault::Text(TextFault::TooLong) => false,
        KeyFault::Text(TextFault::LongRun(_)) => false,
        KeyFault::Text(TextFault::Memory) => true,
    }
}

// Of two longer texts, it is found out first whether they are the same.
const SHORT: usize = 15;

// The order of two byte strings.
#[inline(always)]
fn order_bytes(
    collation: &OwnedCollation,
    comparison: &mut TextComparison,
    settings: &Settings,
    left: &[u8],
    right: &[u8],
) -> Result<Ordering, AllocError>
    requires { Knows (owned_collation collation.now) comparison.old }
    ensures known { Knows (owned_collation collation.now) comparison.new }
    ensures order { IfOk result (IsOrder (keying_by (owned_collation collation.now) settings.now) left.now right.now) }
    ensures utf8 { OnErr result (IsUtf8 left.now ⊎ IsUtf8 right.now) }
{
    if left.len() > SHORT && left == right {
        return Ok(Ordering::Equal);
    }
    match compare_bytes(collation, comparison, settings, left, right) {
        Ok(pair) => Ok(pair.0),
        Err(fault) => order_rejected(collation, comparison, *settings, left, right, fault),
    }
}

// The order of two byte strings of which one is rejected for this reason.
fn order_rejected(
    collation: &OwnedCollation,
    comparison: &mut TextComparison,
    settings: Settings,
    left: &[u8],
    right: &[u8],
    fault: CompareFault,
) -> Result<Ordering, AllocError>
    requires known { Knows (owned_collation collation.now) comparison.old }
    requires cause { IsCompareCause settings.numbers (properties_of collation.now.properties) left.now right.now fault }
    ensures known { Knows (owned_collation collation.now) comparison.new }
    ensures order { IfOk result (IsOrder (keying_by (owned_collation collation.now) settings) left.now right.now) }
    ensures utf8 { OnErr result (IsUtf8 left.now ⊎ IsUtf8 right.now) }
{
    match fault {
        CompareFault::Left(cause) => {
            if is_memory(cause) {
                return Err(AllocError);
            }
            order_left_rejected(collation, comparison, settings, left, right)
        }
        CompareFault::Right(cause) => {
            if is_memory(cause) {
                return Err(AllocError);
            }
            Ok(Ordering::Less)
        }
    }
}

// The order of two byte strings of which the left one is rejected.
fn order_left_rejected(
    collation: &OwnedCollation,
    comparison: &mut TextComparison,
    settings: Settings,
    left: &[u8],
    right: &[u8],
) -> Result<Ordering, AllocError>
    requires known { Knows (owned_collation collation.now) comparison.old }
    requires rejected { ¬ (IsAcceptedText settings.numbers (properties_of collation.now.properties) left.now) }
    ensures known { Knows (owned_collation collation.now) comparison.new }
    ensures order { IfOk result (IsOrder (keying_by (owned_collation collation.now) settings) left.now right.now) }
    ensures utf8 { OnErr result (IsUtf8 right.now) }
{
    match judge(collation, comparison, settings, right) {
        Ok(()) => Ok(Ordering::Greater),
        Err(fault) => {
            if is_memory(fault) {
                return Err(AllocError);
            }
            Ok(left.cmp(right))
        }
    }
}

impl OwnedCollator {
    /// The order of any two byte strings. Texts that are accepted are in their order, as
    /// [`compare`](OwnedCollator::compare) says. All other bytes come after them, in the order of bytes. The key and the
    /// levels that were made last stay, at an error too.
    ///
    /// # Errors
    ///
    /// An allocation failed. One of the two is UTF-8, or both are.
    pub fn order(&mut self, left: &[u8], right: &[u8]) -> Result<Ordering, AllocError>
        ensures order { IfOk result (IsOrder (keying_in self.old) left.now right.now) }
        ensures utf8 { OnErr result (IsUtf8 left.now ⊎ IsUtf8 right.now) }
        ensures keying { keying_in self.new ≡ keying_in self.old }
        ensures key { key_in self.new ≡ key_in self.old }
        ensures levels { self.new.levels ≡ self.old.levels }
    {
        order_bytes(
            &*self.collation,
            &mut self.comparison,
            &self.settings,
            left,
            right,
        )
    }
}
