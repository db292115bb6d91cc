//! `TextComparison`: compares texts by any collator and under any settings, with memory that is used again.

ghost use Rattle.std.specs.Prelude.{◌≡◌, ◌-◌, ◌^◌, chars, min, take, IfOk, OnOk, IfErr, IfSome};
ghost use Rattle.uca_values.specs.Content.{Properties};
ghost use Rattle.std.specs.Bool.{OnTrue};
ghost use Rattle.uca_weights.specs.declared.Depth.TheVariants.{Weights};
ghost use Rattle.uca_weights.specs.declared.Numbers.TheVariants.{AsText, ByValue};
ghost use Rattle.uca_text.specs.Limits.{IsAccepted};
ghost use Rattle.uca_elements.specs.Collations.{Collation, collation_of, elements_of};
ghost use Rattle.uca_order.specs.Depths.{written_text, texts_compared};
ghost use Rattle.uca_order.specs.Fetched.{fetched_left, fetched_right};
ghost use Rattle.uca_plain.specs.PointCache.{AreTrueEntries};
ghost use Rattle.uca_text_comparer.specs.Causes.{IsPairCause};
ghost use Rattle.uca_text_comparer.specs.Heads.{HasHeads, Knows};
ghost use Rattle.uca_text_comparer.specs.inside.Beginnings.{AreReadAsText};
ghost use Rattle.uca_text_comparer.specs.inside.Pairs.{ComparesPair, IsPairStop};

use crate::beginnings::{order_at_once, order_rests};
use crate::decided::is_decided;
use crate::faults::PairFault;
use crate::heads::Heads;
use crate::normals::Normals;
use crate::plain_comparison::PlainComparison;
use crate::points::PointLists;
use std::alloc::{AllocError, Allocator, Global};
use std::cmp::Ordering;
use uca_comparison::Compared;
use uca_elements::{Collator, Lookup};
use uca_lanes::shared_len;
use uca_numbers::{WrittenText, has_no_digit};
use uca_weights::{Depth, Numbers, Settings, Weighting};

/// A text of so many bytes is accepted: what is read of it has at most 64 code points in Normalization Form D.
const SHORT_TEXT: usize = 32;

/// Memory for comparing texts. All texts have to be read by one collation: what is known of code points is true of that
/// one alone.
#[derive(Drop)]
pub struct TextComparison<A: Allocator = Global> {
    /// Memory for comparing plain texts, and what is known of the code points of the texts so far.
    pub plain: PlainComparison<A>,
    // the texts of a pair that has to be normalized
    normals: Normals,
    // a pair by value, and the code points of both texts themselves
    left: WrittenText,
    right: WrittenText,
    points: PointLists,
    /// What is known of the first code points at level 1.
    pub heads: Heads,
}

impl<A: Allocator + Copy> TextComparison<A> {
    /// Nothing is known yet, and no memory is taken.
    pub fn new(alloc: A, global: Global) -> TextComparison<A>
        ensures { (c : Collation) → Knows c result }
    {
        TextComparison {
            plain: PlainComparison::new(alloc, global),
            normals: Normals::new(global),
            left: WrittenText::new(global),
            right: WrittenText::new(global),
            points: PointLists::new(global),
            heads: Heads::new(global),
        }
    }
}

impl<A: Allocator> TextComparison<A> {
    /// How two texts compare (UTS #10, section 1.1), as [`compare`](uca_comparison::comparison::compare) says of the
    /// texts that are read, in Normalization Form D. With numbers by value these are the texts by value, and at the
    /// depth `Identical` the texts themselves come after their weights.
    ///
    /// # Errors
    ///
    /// `Left` if the left text that is read is rejected, or else `Right` if the right one is, as
    /// [`normal`](uca_text::normal) says. `Left` with `Memory` also if another allocation failed.
    pub fn compare<L: Lookup, T: Allocator>(
        &mut self,
        collator: &Collator<L, T>,
        settings: Settings,
        left: &str,
        right: &str,
    ) -> Result<Compared, PairFault>
        requires { AreTrueEntries (collation_of L.content collator.now) self.old.plain.points.entries.items }
        ensures known { AreTrueEntries (collation_of L.content collator.now) self.new.plain.points.entries.items }
        ensures heads { self.new.heads ≡ self.old.heads }
        ensures compared { let c = collation_of L.content collator.now in IfOk result (λ compared.
            let answer = texts_compared c settings (chars left.now) (chars right.now) in
            (compared.order ≡ answer.order) × (compared.level ≡ answer.level)) }
        ensures fetched { let c = collation_of L.content collator.now in IfOk result (λ compared.
            let es = elements_of c (written_text settings.numbers c.properties (chars left.now)) in
            let fs = elements_of c (written_text settings.numbers c.properties (chars right.now)) in
            (compared.fetched_left ≡ min (2 ^ 64 - 1) (fetched_left settings.weighting es fs))
            × (compared.fetched_right ≡ min (2 ^ 64 - 1) (fetched_right settings.weighting es fs))) }
        ensures accepted { let c = collation_of L.content collator.now in OnOk result (
            IsAccepted (written_text settings.numbers c.properties (chars left.now))
            × IsAccepted (written_text settings.numbers c.properties (chars right.now))) }
        ensures fault { let c = collation_of L.content collator.now in IfErr result (IsPairCause
            (written_text settings.numbers c.properties (chars left.now))
            (written_text settings.numbers c.properties (chars right.now))) }
    {
        let weighting = settings.weighting;
        let depth = settings.depth;
        match settings.numbers {
            Numbers::AsText => compare_as_text(
                collator,
                weighting,
                depth,
                &mut self.plain,
                &mut self.normals,
                left,
                right,
            ),
            Numbers::ByValue => self.compare_by_value(collator, weighting, depth, left, right),
        }
    }

    /// Finds out about each of the 2,048 code points that UTF-8 writes in one or two bytes, and about each byte. So
    /// [`order_beginnings`](TextComparison::order_beginnings) takes less time after it, under this weighting. That is worth
    /// its time where many texts are compared. Without it [`order_at_once`](TextComparison::order_at_once) has no result. What
    /// it found out under another weighting is forgotten.
    ///
    /// # Errors
    ///
    /// An allocation failed. What was found out before it stays.
    pub fn learn_heads<L: Lookup, T: Allocator>(
        &mut self,
        collator: &Collator<L, T>,
        weighting: Weighting,
    ) -> Result<(), AllocError>
        requires { Knows (collation_of L.content collator.now) self.old }
        ensures known { Knows (collation_of L.content collator.now) self.new }
        ensures learned { OnOk result (HasHeads weighting self.new.heads) }
    {
        self.heads.fill(collator, &mut self.plain.points, weighting)
    }

    /// The order of two texts of at most 32 bytes that differ at level 1 after the code points with which both begin. For
    /// example, `Haus` comes before `hut`. Only code points that come next are looked up: up to the one after the first ones
    /// that have other weights at level 1. There is no result for other texts, and for numbers by value if one of the texts
    /// has a digit. Nor is there one if a code point that is looked up is not known or not plain. Those up to the difference
    /// need a weight at level 1, and those before it no more than one.
    pub fn order_beginnings(&self, settings: Settings, left: &str, right: &str) -> Option<Ordering>
        ensures compared { (c : Collation) → Knows c self.now → IfSome result (λ order.
            let answer = texts_compared c settings (chars left.now) (chars right.now) in
            (answer.order ≡ order) × (answer.level ≡ 1)) }
        ensures accepted { (properties : Properties) → IfSome result (λ _.
            IsAccepted (written_text settings.numbers properties (chars left.now))
            × IsAccepted (written_text settings.numbers properties (chars right.now))) }
    {
        let shared = shared_len(left.as_bytes(), right.as_bytes());
        self.order_after(settings, left, right, shared)
    }

    /// The order of two texts whose first bytes are the same, so many of them, as
    /// [`order_beginnings`](TextComparison::order_beginnings) tells it. If they share a code point more, that is looked up.
    #[inline(always)]
    pub fn order_after(
        &self,
        settings: Settings,
        left: &str,
        right: &str,
        shared: usize,
    ) -> Option<Ordering>
        requires { take shared left.now ≡ take shared right.now }
        ensures compared { (c : Collation) → Knows c self.now → IfSome result (λ order.
            let answer = texts_compared c settings (chars left.now) (chars right.now) in
            (answer.order ≡ order) × (answer.level ≡ 1)) }
        ensures accepted { (properties : Properties) → IfSome result (λ _.
            IsAccepted (written_text settings.numbers properties (chars left.now))
            × IsAccepted (written_text settings.numbers properties (chars right.now))) }
    {
        if left.len() > SHORT_TEXT || right.len() > SHORT_TEXT {
            return None;
        }
        if !are_read_as_text(settings.numbers, left, right) {
            return None;
        }
        order_rests(
            &self.plain.points,
            &self.heads,
            settings.weighting,
            left,
            right,
            shared,
        )
    }

    /// The order of two texts whose first bytes are the same, so many of them, as
    /// [`order_after`](TextComparison::order_after) tells it. It looks at the next byte of each text and the byte after that,
    /// and no more. So there is no result where the next bytes are not two code points of ASCII that differ at level 1. Nor is
    /// there one where a code point of three bytes or more comes after them, with numbers by value, and before
    /// [`learn_heads`](TextComparison::learn_heads) was called under this weighting. No clause says when there is one.
    #[inline(always)]
    pub fn order_at_once(
        &self,
        settings: Settings,
        left: &str,
        right: &str,
        shared: usize,
    ) -> Option<Ordering>
        requires { take shared left.now ≡ take shared right.now }
        ensures compared { (c : Collation) → Knows c self.now → IfSome result (λ order.
            let answer = texts_compared c settings (chars left.now) (chars right.now) in
            (answer.order ≡ order) × (answer.level ≡ 1)) }
        ensures accepted { (properties : Properties) → IfSome result (λ _.
            IsAccepted (written_text settings.numbers properties (chars left.now))
            × IsAccepted (written_text settings.numbers properties (chars right.now))) }
    {
        if left.len() > SHORT_TEXT || right.len() > SHORT_TEXT {
            return None;
        }
        if !is_as_text(settings.numbers) {
            return None;
        }
        order_at_once(&self.heads, settings.weighting, left, right, shared)
    }

    // How two texts compare with numbers by value.
    fn compare_by_value<L: Lookup, T: Allocator>(
        &mut self,
        collator: &Collator<L, T>,
        weighting: Weighting,
        depth: Depth,
        left: &str,
        right: &str,
    ) -> Result<Compared, PairFault>
        requires { AreTrueEntries (collation_of L.content collator.now) self.old.plain.points.entries.items }
        ensures known { AreTrueEntries (collation_of L.content collator.now) self.new.plain.points.entries.items }
        ensures heads { self.new.heads ≡ self.old.heads }
        ensures compared { let c = collation_of L.content collator.now in
            IfOk result (ComparesPair c ByValue weighting depth (chars left.now) (chars right.now)) }
        ensures fault { let c = collation_of L.content collator.now in
            IfErr result (IsPairStop c ByValue (chars left.now) (chars right.now)) }
    {
        if has_no_digit(left) && has_no_digit(right) {
            return compare_as_text(
                collator,
                weighting,
                depth,
                &mut self.plain,
                &mut self.normals,
                left,
                right,
            );
        }
        let compared = self.compare_written(collator, weighting, left, right)?;
        if is_decided(compared.order, depth, left, right) {
            return Ok(compared);
        }
        let (order, level) = self.points.compare(weighting, left, right)?;
        Ok(Compared {
            order,
            level,
            ..compared
        })
    }

    // How two texts compare that are written by value first, at the levels of the weights.
    fn compare_written<L: Lookup, T: Allocator>(
        &mut self,
        collator: &Collator<L, T>,
        weighting: Weighting,
        left: &str,
        right: &str,
    ) -> Result<Compared, PairFault>
        requires { AreTrueEntries (collation_of L.content collator.now) self.old.plain.points.entries.items }
        ensures known { AreTrueEntries (collation_of L.content collator.now) self.new.plain.points.entries.items }
        ensures heads { self.new.heads ≡ self.old.heads }
        ensures compared { let c = collation_of L.content collator.now in
            IfOk result (ComparesPair c ByValue weighting Weights (chars left.now) (chars right.now)) }
        ensures fault { let c = collation_of L.content collator.now in
            IfErr result (IsPairStop c ByValue (chars left.now) (chars right.now)) }
    {
        self.left.renew(left)?;
        self.right.renew(right)?;
        compare_as_text(
            collator,
            weighting,
            Depth::Weights,
            &mut self.plain,
            &mut self.normals,
            self.left.as_str(),
            self.right.as_str(),
        )
    }
}

// Whether texts are read as they are, whatever digits they have.
#[inline(always)]
fn is_as_text(numbers: Numbers) -> bool
    ensures { OnTrue result (numbers ≡ AsText) }
{
    match numbers {
        Numbers::AsText => true,
        Numbers::ByValue => false,
    }
}

// Whether both texts are read as they are, whatever numbers compare by.
fn are_read_as_text(numbers: Numbers, left: &str, right: &str) -> bool
    ensures { OnTrue result (AreReadAsText numbers (chars left.now) (chars right.now)) }
{
    match numbers {
        Numbers::AsText => true,
        Numbers::ByValue => has_no_digit(left) && has_no_digit(right),
    }
}

// How two texts compare as they are.
fn compare_as_text<L: Lookup, T: Allocator, A: Allocator>(
    collator: &Collator<L, T>,
    weighting: Weighting,
    depth: Depth,
    plain: &mut PlainComparison<A>,
    normals: &mut Normals,
    left: &str,
    right: &str,
) -> Result<Compared, PairFault>
    requires { AreTrueEntries (collation_of L.content collator.now) plain.old.points.entries.items }
    ensures known { AreTrueEntries (collation_of L.content collator.now) plain.new.points.entries.items }
    ensures compared { let c = collation_of L.content collator.now in
        IfOk result (ComparesPair c AsText weighting depth (chars left.now) (chars right.now)) }
    ensures fault { let c = collation_of L.content collator.now in
        IfErr result (IsPairStop c AsText (chars left.now) (chars right.now)) }
{
    let found = plain.compare_texts(collator, weighting, depth, left, right)?;
    match found {
        Some(compared) => Ok(compared),
        None => normals.compare(collator, weighting, depth, left, right),
    }
}
