//! `TextComparer`: compares texts, pair after pair.

ghost use Rattle.std.specs.Prelude.{◌≡◌, ◌⊎◌, ◌-◌, ◌^◌, chars, min, IfOk, OnOk, IfErr};
ghost use Rattle.uca_text.specs.Texts.{NfdText};
ghost use Rattle.uca_text.specs.Limits.{IsAccepted};
ghost use Rattle.uca_text.specs.Faults.{IsCause};
ghost use Rattle.uca_elements.specs.Collations.{collation_of, elements_of};
ghost use Rattle.uca_order.specs.Depths.{written_text, texts_compared};
ghost use Rattle.uca_order.specs.Fetched.{fetched_left, fetched_right};
ghost use Rattle.uca_text_comparer.specs.Causes.{IsPairCause};
ghost use Rattle.uca_text_comparer.specs.Comparers.{collation_by};

use crate::comparison::TextComparison;
use crate::faults::PairFault;
use std::alloc::{Allocator, Global};
use std::marker::Model;
use uca_comparison::Compared;
use uca_elements::{Collator, Lookup};
use uca_text::TextFault;
use uca_weights::Settings;

/// Compares texts (UTS #10, section 1.1), pair after pair, by one collator and under the same settings. The memory is
/// used again.
#[derive(Drop)]
pub struct TextComparer<'a, L: Lookup, T: Allocator = Global, A: Allocator = Global> {
    collator: Collator<'a, L, T>,
    settings: Settings,
    comparison: TextComparison<A>,
}

impl<'a, L: Lookup, T: Allocator, A: Allocator> Model for TextComparer<'a, L, T, A> {
    ghost use Rattle.uca_elements.specs.Collations.{collation_of};
    ghost use Rattle.uca_plain.specs.PointCache.{AreTrueEntries};
    ghost use Rattle.uca_text_comparer.specs.Comparers.{ComparerState};

    ghost Value = { ComparerState L };

    ghost view = { λ c. record {
      lookup = c.collator.lookup.now;
      ranges = c.collator.header.now.ranges;
      data_file = c.collator.data.now;
      settings = c.settings;
    } };

    ghost invariant = { λ c.
        AreTrueEntries (collation_of L.content c.collator) c.comparison.plain.points.entries.items };
}

impl<'a, L: Lookup, T: Allocator, A: Allocator + Copy> TextComparer<'a, L, T, A> {
    /// It compares under the settings, and takes no memory yet.
    pub fn new(alloc: A, global: Global, collator: Collator<'a, L, T>, settings: Settings) -> Self
        ensures collation { collation_by L.content result ≡ collation_of L.content collator.entry }
        ensures settings { result.settings ≡ settings }
    {
        TextComparer {
            collator,
            settings,
            comparison: TextComparison::new(alloc, global),
        }
    }
}

impl<'a, L: Lookup, T: Allocator, A: Allocator> TextComparer<'a, L, T, A> {
    /// How two texts compare, as [`compare`](uca_comparison::comparison::compare) says of the texts that are read, in
    /// Normalization Form D. With numbers by value these are the texts by value, and at the depth `Identical` the texts
    /// themselves come after their weights.
    ///
    /// # Errors
    ///
    /// Those of [`normal`](uca_text::normal) for the left text that is read, or else for the right one. `Memory` also
    /// if another allocation failed.
    pub fn compare(&mut self, left: &str, right: &str) -> Result<Compared, TextFault>
        ensures compared { let c = collation_by L.content self.old in IfOk result (λ compared.
            let answer = texts_compared c self.old.settings (chars left.now) (chars right.now) in
            (compared.order ≡ answer.order) × (compared.level ≡ answer.level)) }
        ensures fetched { let c = collation_by L.content self.old in IfOk result (λ compared.
            let es = elements_of c (written_text self.old.settings.numbers c.properties (chars left.now)) in
            let fs = elements_of c (written_text self.old.settings.numbers c.properties (chars right.now)) in
            (compared.fetched_left ≡ min (2 ^ 64 - 1) (fetched_left self.old.settings.weighting es fs))
            × (compared.fetched_right ≡ min (2 ^ 64 - 1) (fetched_right self.old.settings.weighting es fs))) }
        ensures accepted { let c = collation_by L.content self.old in OnOk result (
            IsAccepted (written_text self.old.settings.numbers c.properties (chars left.now))
            × IsAccepted (written_text self.old.settings.numbers c.properties (chars right.now))) }
        ensures fault { let c = collation_by L.content self.old in
            let one = written_text self.old.settings.numbers c.properties (chars left.now) in
            let other = written_text self.old.settings.numbers c.properties (chars right.now) in
            IfErr result (λ fault. IsCause one fault ⊎ (IsAccepted one × IsCause other fault)) }
        ensures collation { collation_by L.content self.new ≡ collation_by L.content self.old }
        ensures settings { self.new.settings ≡ self.old.settings }
    {
        match self
            .comparison
            .compare(&self.collator, self.settings, left, right)
        {
            Ok(compared) => Ok(compared),
            Err(fault) => Err(text_fault(fault)),
        }
    }
}

// Why the text is rejected, whichever of the two it is.
fn text_fault(fault: PairFault) -> TextFault
    ensures { (left right : NfdText) → IsPairCause left right fault →
        IsCause left result ⊎ (IsAccepted left × IsCause right result) }
{
    match fault {
        PairFault::Left(fault) => fault,
        PairFault::Right(fault) => fault,
    }
}
