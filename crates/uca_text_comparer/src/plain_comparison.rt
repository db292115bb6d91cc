//! `PlainComparison`: compares texts of plain code points, which are not normalized.

ghost use Rattle.std.specs.Prelude.{◌≡◌, ◌++◌, ◌-◌, ◌^◌, ℕ, List, chars, min, IfOk, IfSome};
ghost use Rattle.std.specs.Bool.{OnTrue};
ghost use Rattle.uca_weights.specs.declared.Element.{Element};
ghost use Rattle.uca_text.specs.Texts.{nfd_text};
ghost use Rattle.uca_text.specs.Limits.{IsAccepted};
ghost use Rattle.uca_elements.specs.Collations.{Collation, collation_of, elements_of};
ghost use Rattle.uca_order.specs.Levels;
ghost use Rattle.uca_order.specs.Depths.{read_text, compared_at};
ghost use Rattle.uca_order.specs.Fetched.{fetched_left, fetched_right};
ghost use Rattle.uca_comparison.specs.inside.Comparisons.{ComparesLevels};
ghost use Rattle.uca_comparison.specs.Walks.{Stands, none_decided};
ghost use Rattle.uca_plain.specs.Plain.{IsPlain, elements_alone};
ghost use Rattle.uca_plain.specs.PointCache.{IsTrueEntry, AreTrueEntries};
ghost use Rattle.uca_text_comparer.specs.inside.Shared.{IsRest, HasCount, HasElements, ComparesTexts, ComparesAccepted};

use crate::decided::{compared_of, is_decided};
use crate::primaries::compare_primaries;
use crate::shared::{Rest, skip_shared};
use std::alloc::{AllocError, Allocator, Global};
use std::cmp::Ordering;
use uca_comparison::comparison::Compared;
use uca_comparison::element_stream::Listed;
use uca_comparison::front::Front;
use uca_comparison::stored::level_count;
use uca_comparison::walk::{Walked, walk_fronts};
use uca_elements::{Collator, Lookup};
use uca_plain::plain::{KnownPoint, PointCache, SHORT_TEXT};
use uca_weights::{Depth, Element, Weighting};

/// Memory for comparing texts of plain code points. All texts have to be read by one collation: what is known of code
/// points is true of that one alone.
#[derive(Drop)]
pub struct PlainComparison<A: Allocator = Global> {
    /// What is known of the code points of the texts so far.
    pub points: PointCache<A>,
    // elements of the two texts
    left: Vec<Element, A>,
    right: Vec<Element, A>,
}

impl<A: Allocator + Copy> PlainComparison<A> {
    /// Nothing is known yet, and no memory is taken.
    pub fn new(alloc: A, global: Global) -> PlainComparison<A>
        ensures { (c : Collation) → AreTrueEntries c result.points.entries.items }
    {
        PlainComparison {
            points: PointCache::new(alloc, global),
            left: Vec::new(alloc),
            right: Vec::new(alloc),
        }
    }
}

impl<A: Allocator> PlainComparison<A> {
    /// How two texts compare as they are, as [`compare`](uca_comparison::comparison::compare) says of both in
    /// Normalization Form D. There is no result if a text has more than 524,288 bytes or a code point that is not
    /// plain. There is none either if one walk over both does not decide, or if their code points have to.
    ///
    /// # Errors
    ///
    /// An allocation failed.
    pub fn compare_texts<L: Lookup, T: Allocator>(
        &mut self,
        collator: &Collator<L, T>,
        weighting: Weighting,
        depth: Depth,
        left: &str,
        right: &str,
    ) -> Result<Option<Compared>, AllocError>
        requires { AreTrueEntries (collation_of L.content collator.now) self.old.points.entries.items }
        ensures known { AreTrueEntries (collation_of L.content collator.now) self.new.points.entries.items }
        ensures compared { let c = collation_of L.content collator.now in IfOk result (λ found. IfSome found (λ compared.
            let answer = compared_at depth weighting
            (read_text c (nfd_text c.properties (chars left.now)))
            (read_text c (nfd_text c.properties (chars right.now))) in
            (compared.order ≡ answer.order) × (compared.level ≡ answer.level))) }
        ensures fetched { let c = collation_of L.content collator.now in IfOk result (λ found. IfSome found (λ compared.
            let es = elements_of c (nfd_text c.properties (chars left.now)) in
            let fs = elements_of c (nfd_text c.properties (chars right.now)) in
            (compared.fetched_left ≡ min (2 ^ 64 - 1) (fetched_left weighting es fs))
            × (compared.fetched_right ≡ min (2 ^ 64 - 1) (fetched_right weighting es fs)))) }
        ensures accepted { let c = collation_of L.content collator.now in IfOk result (λ found. IfSome found (λ _.
            IsAccepted (nfd_text c.properties (chars left.now)) × IsAccepted (nfd_text c.properties (chars right.now)))) }
    {
        let found = self.compare(collator, weighting, left, right)?;
        if let Some(walked) = found
            && is_decided(walked.order, depth, left, right)
        {
            return Ok(Some(compared_of(&walked)));
        }
        Ok(None)
    }

    /// How two texts compare at all levels of the weighting. There is no result if a text has more than 524,288 bytes
    /// or a code point that is not plain, or if one walk over both does not decide.
    pub(crate) fn compare<L: Lookup, T: Allocator>(
        &mut self,
        collator: &Collator<L, T>,
        weighting: Weighting,
        left: &str,
        right: &str,
    ) -> Result<Option<Walked>, AllocError>
        requires { AreTrueEntries (collation_of L.content collator.now) self.old.points.entries.items }
        ensures entries { AreTrueEntries (collation_of L.content collator.now) self.new.points.entries.items }
        ensures compared { let c = collation_of L.content collator.now in
            IfOk result (λ found. IfSome found (ComparesAccepted c weighting (chars left.now) (chars right.now))) }
    {
        if left.len() > SHORT_TEXT || right.len() > SHORT_TEXT {
            return Ok(None);
        }
        if let Some(walked) = compare_same(&self.points, weighting, left, right) {
            return Ok(Some(walked));
        }
        self.compare_after_shared(collator, weighting, left, right)
    }

    // How two texts compare by what follows the code points with which both begin.
    #[inline]
    fn compare_after_shared<L: Lookup, T: Allocator>(
        &mut self,
        collator: &Collator<L, T>,
        weighting: Weighting,
        left: &str,
        right: &str,
    ) -> Result<Option<Walked>, AllocError>
        requires { AreTrueEntries (collation_of L.content collator.now) self.old.points.entries.items }
        ensures entries { AreTrueEntries (collation_of L.content collator.now) self.new.points.entries.items }
        ensures compared { let c = collation_of L.content collator.now in
            IfOk result (λ found. IfSome found (ComparesTexts c weighting (chars left.now) (chars right.now))) }
    {
        let Some(rest) = skip_shared(collator, &mut self.points, left, right)? else {
            return Ok(None);
        };
        match compare_primaries(&self.points, weighting, &rest) {
            Some(walked) => Ok(Some(walked)),
            None => self.compare_rest(collator, weighting, &rest),
        }
    }

    // How two texts compare by all elements that follow what they share.
    fn compare_rest<L: Lookup, T: Allocator>(
        &mut self,
        collator: &Collator<L, T>,
        weighting: Weighting,
        rest: &Rest,
    ) -> Result<Option<Walked>, AllocError>
        requires { AreTrueEntries (collation_of L.content collator.now) self.old.points.entries.items }
        ensures entries { AreTrueEntries (collation_of L.content collator.now) self.new.points.entries.items }
        ensures compared { let c = collation_of L.content collator.now in (xs ys : List ℕ) →
            IsRest c xs ys (chars rest.now.left.now) (chars rest.now.right.now) rest.now.after_variable rest.now.passed →
            IfOk result (λ found. IfSome found (ComparesTexts c weighting xs ys)) }
    {
        if !self.read_rest(collator, rest)? {
            return Ok(None);
        }
        Ok(compare_elements(
            weighting,
            rest.after_variable,
            rest.passed,
            &self.left,
            &self.right,
        ))
    }

    // Reads the elements that follow what two texts share, and returns whether their code points are plain.
    fn read_rest<L: Lookup, T: Allocator>(
        &mut self,
        collator: &Collator<L, T>,
        rest: &Rest,
    ) -> Result<bool, AllocError>
        requires { AreTrueEntries (collation_of L.content collator.now) self.old.points.entries.items }
        ensures entries { AreTrueEntries (collation_of L.content collator.now) self.new.points.entries.items }
        ensures read { let c = collation_of L.content collator.now in IfOk result (λ plain. OnTrue plain (
            HasElements c (chars rest.now.left.now) self.new.left.items × HasElements c (chars rest.now.right.now) self.new.right.items)) }
    {
        if !read_plain(collator, &mut self.points, &mut self.left, rest.left)? {
            return Ok(false);
        }
        read_plain(collator, &mut self.points, &mut self.right, rest.right)
    }
}

// How two texts compare if they are the same, and their code points are in the cache and plain.
fn compare_same<A: Allocator>(
    points: &PointCache<A>,
    weighting: Weighting,
    left: &str,
    right: &str,
) -> Option<Walked>
    ensures { (c : Collation) → AreTrueEntries c points.now.entries.items →
        IfSome result (ComparesTexts c weighting (chars left.now) (chars right.now)) }
{
    if left != right {
        return None;
    }
    let count = count_elements(points, left)?;
    Some(Walked {
        order: Ordering::Equal,
        level: 0,
        last: level_count(weighting, Depth::Weights),
        fetched_left: count,
        fetched_right: count,
    })
}

// How many elements a text has, if its code points are in the cache and plain.
fn count_elements<A: Allocator>(points: &PointCache<A>, text: &str) -> Option<u64>
    ensures { (c : Collation) → AreTrueEntries c points.now.entries.items → IfSome result (HasCount c (chars text.now)) }
{
    let mut count = 0_u64;
    for point in text.chars() {
        let known = points.find(point)?;
        let elements = known.elements()?;
        count = count.saturating_add(elements.len() as u64);
    }
    Some(count)
}

// Replaces the elements by those of a text, and returns whether its code points are plain.
fn read_plain<L: Lookup, T: Allocator, A: Allocator>(
    collator: &Collator<L, T>,
    points: &mut PointCache<A>,
    elements: &mut Vec<Element, A>,
    text: &str,
) -> Result<bool, AllocError>
    requires { AreTrueEntries (collation_of L.content collator.now) points.old.entries.items }
    ensures entries { AreTrueEntries (collation_of L.content collator.now) points.new.entries.items }
    ensures read { let c = collation_of L.content collator.now in
        IfOk result (λ plain. OnTrue plain (HasElements c (chars text.now) elements.new.items)) }
{
    elements.clear();
    for point in text.chars() {
        if !read_next(collator, points, elements, point)? {
            return Ok(false);
        }
    }
    Ok(true)
}

// Adds the elements of a code point, and returns whether it is plain.
fn read_next<L: Lookup, T: Allocator, A: Allocator>(
    collator: &Collator<L, T>,
    points: &mut PointCache<A>,
    elements: &mut Vec<Element, A>,
    point: char,
) -> Result<bool, AllocError>
    requires { AreTrueEntries (collation_of L.content collator.now) points.old.entries.items }
    ensures entries { AreTrueEntries (collation_of L.content collator.now) points.new.entries.items }
    ensures read { let c = collation_of L.content collator.now in IfOk result (λ plain. OnTrue plain (
        IsPlain c point × (elements.new.items ≡ elements.old.items ++ elements_alone c point))) }
{
    match points.find(point) {
        Some(known) => push_elements(elements, known),
        None => {
            let known = points.get(collator, point)?;
            push_elements(elements, &known)
        }
    }
}

// Adds the elements of a code point of which these are known, and returns whether it is plain.
#[inline(always)]
fn push_elements<A: Allocator>(
    elements: &mut Vec<Element, A>,
    known: &KnownPoint,
) -> Result<bool, AllocError>
    ensures { (c : Collation) → IsTrueEntry c known.now → IfOk result (λ plain. OnTrue plain (
        IsPlain c known.now.point × (elements.new.items ≡ elements.old.items ++ elements_alone c known.now.point))) }
{
    let Some(more) = known.elements() else {
        return Ok(false);
    };
    match more {
        [one] => elements.push(*one)?,
        _ => elements.extend_from_slice(more)?,
    }
    Ok(true)
}

// How two texts compare by the elements that follow what they share, unless one walk over both does not decide.
fn compare_elements(
    weighting: Weighting,
    after_variable: bool,
    passed: u64,
    left: &[Element],
    right: &[Element],
) -> Option<Walked>
    ensures { (es fs : List Element) →
        Stands weighting es fs (record { elements = left.now; after_variable = after_variable; passed = passed })
        (record { elements = right.now; after_variable = after_variable; passed = passed }) (none_decided 1 (Levels.level_count weighting)) →
        IfSome result (ComparesLevels weighting es fs) }
{
    let count = level_count(weighting, Depth::Weights);
    let left = Front::after(Listed { elements: left }, after_variable, passed);
    let right = Front::after(Listed { elements: right }, after_variable, passed);
    let walked = walk_fronts(weighting, 1, count, left, right);
    if walked.order == Ordering::Equal && walked.last < count {
        return None;
    }
    Some(walked)
}
