//! `PointCache`: the elements of code points that read alone, kept from text to text.

ghost use Rattle.std.specs.Prelude.{◌≡◌, ◌<◌, ◌≤◌, ◌∷◌, [], true, length, take, IfOk, IfSome};
ghost use Rattle.std.specs.Bool.{OnTrue, MatchBool};
ghost use Rattle.uca_elements.specs.Collations.{Collation, collation_of, elements_of};
ghost use Rattle.uca_plain.specs.Plain.{IsPlain, elements_alone};
ghost use Rattle.uca_plain.specs.Leaves.{IsLeaf, leaf_elements};
ghost use Rattle.uca_plain.specs.PointCache.{IsTrueEntry, IsTrueLeaf, HasTrueDecomposition, AreTrueEntries, counted_on};
ghost use Rattle.uca_plain.specs.declared.plain.KnownPoint.{KnownPoint};

use std::alloc::{AllocError, Allocator, Global};
use uca_elements::{Collator, Lookup};
use uca_text::{Normal, TextFault};
use uca_weights::Element;
use unicode_normalization::Form;
use unicode_normalization::char::{canonical_combining_class, decomposition};

/// A text of so many bytes has at most 1,048,576 code points in Normalization Form D, two for each byte.
pub const SHORT_TEXT: usize = 524_288;

/// How many code points share a page.
const PAGE: usize = 256;

/// How many pages there are for all code points.
const PAGES: usize = 0x1100;

/// What stands for a page that was not made.
const NO_PAGE: u16 = 0xFFFF;

/// How many elements an entry has room for.
const ROOM: usize = 3;

/// The number of elements in an entry that has none to give.
const BOUND: u8 = 4;

/// How many code points one decomposes to at most, in Normalization Form D.
const LONGEST_DECOMPOSITION: u8 = 4;

const NO_ELEMENT: Element = Element {
    primary: 0,
    secondary: 0,
    tertiary: 0,
    mark: false,
};

/// The entry of a code point that is not known yet: it is that of the last code point.
const UNKNOWN: KnownPoint = KnownPoint {
    point: '\u{10FFFF}',
    count: BOUND,
    len: LONGEST_DECOMPOSITION,
    starts: false,
    leaf_count: BOUND,
    elements: [NO_ELEMENT; ROOM],
};

/// What is known of a code point.
#[derive(Clone, Copy)]
pub struct KnownPoint {
    /// The code point.
    pub point: char,
    /// How many elements it has, if it is plain and has at most three. Otherwise 4.
    pub count: u8,
    /// How many code points it decomposes to, or more.
    pub len: u8,
    /// That it decomposes into a starter first. `false` says nothing.
    pub starts: bool,
    /// How many elements it has, if it is a leaf and has at most three: no key is longer and begins with it. Otherwise 4.
    pub leaf_count: u8,
    /// Its elements come first.
    pub elements: [Element; 3],
}

impl KnownPoint {
    // What a code point decomposes to. It has no elements to give.
    fn bound<L: Lookup, T: Allocator>(collator: &Collator<L, T>, point: char) -> KnownPoint
        ensures point { result.point ≡ point }
        ensures count { result.count ≡ 4 }
        ensures leaf_count { result.leaf_count ≡ 4 }
        ensures entry { (c : Collation) → IsTrueEntry c result }
        ensures decomposition { HasTrueDecomposition (collation_of L.content collator.now) result }
    {
        let mut room = [point; 3];
        let points = decomposition(point, Form::Nfd, &mut room);
        let first = points[0];
        KnownPoint {
            point,
            len: points.len() as u8,
            starts: canonical_combining_class(first) == 0 && collator.data.class(first) == 0,
            ..UNKNOWN
        }
    }

    // How many code points a text decomposes to from its last starter on, at most, with this one more. Without it they are
    // `count`.
    fn count_on(&self, count: usize) -> usize
        requires { count ≤ 64 }
        ensures { result ≡ counted_on self.now count }
    {
        let before = if self.starts { 0 } else { count };
        before + usize::from(self.len)
    }

    /// Whether it has no elements to give.
    pub fn is_bound(&self) -> bool
        ensures { MatchBool result (3 < self.now.count) (self.now.count ≤ 3) }
    {
        self.count >= BOUND
    }

    /// All elements, if it is plain.
    #[inline(always)]
    pub fn all_elements(&self) -> &[Element]
        requires { self.now.count ≤ 3 }
        ensures value { result.now ≡ take self.now.count self.now.elements }
        ensures few { length result.now ≤ 3 }
    {
        &self.elements[..usize::from(self.count)]
    }

    /// Whether it is a leaf that has its elements here. It is asked for speed alone.
    #[inline(always)]
    pub fn is_leaf(&self) -> bool {
        self.leaf_count < BOUND
    }

    /// The elements of the code point, if it is a leaf: those that it has wherever it is read by itself in Normalization Form D.
    #[inline(always)]
    pub fn leaf_elements(&self) -> Option<&[Element]>
        ensures leaf { (c : Collation) → IsTrueLeaf c self.now →
            IfSome result (λ elements. IsLeaf c self.now.point × (elements.now ≡ leaf_elements c self.now.point)) }
        ensures few { IfSome result (λ elements. length elements.now ≤ 3) }
    {
        if self.leaf_count < BOUND {
            Some(&self.elements[..usize::from(self.leaf_count)])
        } else {
            None
        }
    }

    /// The elements of the code point, if it is plain.
    pub fn elements(&self) -> Option<&[Element]>
        ensures { (c : Collation) → IsTrueEntry c self.now →
            IfSome result (λ elements. IsPlain c self.now.point × (elements.now ≡ elements_alone c self.now.point)) }
    {
        if self.count < BOUND {
            Some(&self.elements[..usize::from(self.count)])
        } else {
            None
        }
    }
}

/// What is known of the code points of the texts so far, in pages of 256 code points.
#[derive(Drop)]
pub struct PointCache<A: Allocator> {
    // of each page, its position among the pages of entries; there are none before the first code point
    pages: Vec<u16, A>,
    /// The pages, one after another. What they say of a code point is true.
    pub entries: Vec<KnownPoint, A>,
    // lends its memory to the texts of single code points
    text: Normal,
}

impl<A: Allocator + Copy> PointCache<A> {
    /// Nothing is known, and no memory is taken yet.
    #[tactic(auto, unfolding(crate::specs::PointCache::AreTrueEntries))]
    pub fn new(alloc: A, global: Global) -> PointCache<A>
        ensures { (c : Collation) → AreTrueEntries c result.entries.items }
    {
        PointCache {
            pages: Vec::new(alloc),
            entries: Vec::new(alloc),
            text: Normal::new(global),
        }
    }
}

impl<A: Allocator> PointCache<A> {
    /// What is known of a code point, which is found out if it is not known yet.
    pub fn get<L: Lookup, T: Allocator>(
        &mut self,
        collator: &Collator<L, T>,
        point: char,
    ) -> Result<KnownPoint, AllocError>
        requires { AreTrueEntries (collation_of L.content collator.now) self.old.entries.items }
        ensures entries { AreTrueEntries (collation_of L.content collator.now) self.new.entries.items }
        ensures known { IfOk result (λ known. (known.point ≡ point) × IsTrueEntry (collation_of L.content collator.now) known) }
    {
        match self.find(point) {
            Some(known) => Ok(*known),
            None => self.learn(collator, point),
        }
    }

    /// How many code points a text decomposes to from its last starter on, at most, with one more code point. Without it they
    /// are `count`.
    #[inline]
    pub fn count_on<L: Lookup, T: Allocator>(
        &mut self,
        collator: &Collator<L, T>,
        count: usize,
        point: char,
    ) -> Result<usize, AllocError>
        requires entries { AreTrueEntries (collation_of L.content collator.now) self.old.entries.items }
        requires few { count ≤ 64 }
        ensures entries { AreTrueEntries (collation_of L.content collator.now) self.new.entries.items }
        ensures counted { IfOk result (λ more. (known : KnownPoint) × (known.point ≡ point)
            × HasTrueDecomposition (collation_of L.content collator.now) known × (more ≡ counted_on known count)) }
    {
        match self.find(point) {
            Some(known) => Ok(known.count_on(count)),
            None => Ok(self.learn(collator, point)?.count_on(count)),
        }
    }

    /// What is known of a code point, if it is in the cache and has no elements to give.
    #[inline(always)]
    pub fn find_bound(&self, point: char) -> Option<&KnownPoint> {
        let known = self.find(point)?;
        if known.is_bound() { Some(known) } else { None }
    }

    /// Whether a code point is a leaf, which is found out if it is not known yet. It is asked for speed alone.
    #[inline]
    pub fn is_leaf<L: Lookup, T: Allocator>(
        &mut self,
        collator: &Collator<L, T>,
        point: char,
    ) -> Result<bool, AllocError>
        requires { AreTrueEntries (collation_of L.content collator.now) self.old.entries.items }
        ensures { AreTrueEntries (collation_of L.content collator.now) self.new.entries.items }
    {
        match self.find(point) {
            Some(known) => Ok(known.is_leaf()),
            None => Ok(self.learn(collator, point)?.is_leaf()),
        }
    }

    /// The elements of a leaf that is in the cache.
    #[inline(always)]
    pub fn find_leaf(&self, point: char) -> Option<&[Element]>
        ensures leaf { (c : Collation) → AreTrueEntries c self.now.entries.items →
            IfSome result (λ elements. IsLeaf c point × (elements.now ≡ leaf_elements c point)) }
        ensures few { IfSome result (λ elements. length elements.now ≤ 3) }
    {
        self.find(point)?.leaf_elements()
    }

    /// What is known of a code point that is in the cache.
    #[inline(always)]
    pub fn find(&self, point: char) -> Option<&KnownPoint>
        ensures point { IfSome result (λ known. known.now.point ≡ point) }
        ensures entry { (c : Collation) → AreTrueEntries c self.now.entries.items → IfSome result (λ known. IsTrueEntry c known.now) }
        ensures decomposition { (c : Collation) → AreTrueEntries c self.now.entries.items →
            IfSome result (λ known. HasTrueDecomposition c known.now) }
        ensures leaf { (c : Collation) → AreTrueEntries c self.now.entries.items → IfSome result (λ known. IsTrueLeaf c known.now) }
    {
        let code = u32::from(point) as usize;
        // the first page is that of the first code points
        let slot = if code < PAGE {
            code
        } else {
            usize::from(*self.pages.get(code / PAGE)?) * PAGE + code % PAGE
        };
        let known = self.entries.get(slot)?;
        if known.point == point {
            Some(known)
        } else {
            None
        }
    }

    // Finds out about a code point, and keeps it.
    #[cold]
    fn learn<L: Lookup, T: Allocator>(
        &mut self,
        collator: &Collator<L, T>,
        point: char,
    ) -> Result<KnownPoint, AllocError>
        requires { AreTrueEntries (collation_of L.content collator.now) self.old.entries.items }
        ensures entries { AreTrueEntries (collation_of L.content collator.now) self.new.entries.items }
        ensures known { let c = collation_of L.content collator.now in
            IfOk result (λ known. (known.point ≡ point) × IsTrueEntry c known × HasTrueDecomposition c known × IsTrueLeaf c known) }
    {
        let known = read_point(collator, &mut self.text, point)?;
        self.open_page(u32::from(point) as usize / PAGE)?;
        self.keep(known);
        Ok(known)
    }

    // Makes the page with this number, if there is none. The page of the first code points is made before all others.
    fn open_page(&mut self, number: usize) -> Result<(), AllocError>
        ensures { (c : Collation) → AreTrueEntries c self.old.entries.items → AreTrueEntries c self.new.entries.items }
    {
        fill_pages(&mut self.pages)?;
        self.add_page(0)?;
        self.add_page(number)
    }

    // Makes the page with this number after the last one, if there is none.
    fn add_page(&mut self, number: usize) -> Result<(), AllocError>
        ensures { (c : Collation) → AreTrueEntries c self.old.entries.items → AreTrueEntries c self.new.entries.items }
    {
        if number < self.pages.len() && self.pages[number] == NO_PAGE {
            let begin = self.entries.len();
            self.entries.resize(begin + PAGE, UNKNOWN)?;
            self.pages[number] = u16::try_from(begin / PAGE).unwrap_or(NO_PAGE);
        }
        Ok(())
    }

    // Keeps what is known of a code point in its page.
    #[tactic(auto, unfolding(crate::specs::PointCache::AreTrueEntries))]
    fn keep(&mut self, known: KnownPoint)
        ensures { (c : Collation) → AreTrueEntries c self.old.entries.items → IsTrueEntry c known × HasTrueDecomposition c known × IsTrueLeaf c known →
            AreTrueEntries c self.new.entries.items }
    {
        let code = u32::from(known.point) as usize;
        let Some(page) = self.pages.get(code / PAGE) else {
            return;
        };
        let slot = usize::from(*page) * PAGE + code % PAGE;
        if slot < self.entries.len() {
            self.entries[slot] = known;
        }
    }
}

// Makes room for the numbers of all pages, none of which is made yet.
fn fill_pages<A: Allocator>(pages: &mut Vec<u16, A>) -> Result<(), AllocError> {
    if pages.is_empty() {
        pages.resize(PAGES, NO_PAGE)?;
    }
    Ok(())
}

// What is to be known of a code point. The text lends its memory.
fn read_point<L: Lookup, T: Allocator>(
    collator: &Collator<L, T>,
    text: &mut Normal,
    point: char,
) -> Result<KnownPoint, AllocError>
    ensures { let c = collation_of L.content collator.now in
        IfOk result (λ known. (known.point ≡ point) × IsTrueEntry c known × HasTrueDecomposition c known × IsTrueLeaf c known) }
{
    let bound = KnownPoint::bound(collator, point);
    let plain = is_plain(collator, point);
    let leaf = is_leaf(collator, point);
    if !plain && !leaf {
        return Ok(bound);
    }
    let mut room = [0; 4];
    match text.renew(point.encode_utf8(&mut room), collator.data) {
        Ok(()) => Ok(read_entry(collator, text, bound, plain, leaf)),
        Err(TextFault::Memory) => Err(AllocError),
        Err(_) => Ok(bound),
    }
}

// The entry of a code point with this text, where `bound` is without its elements, and it may be plain and a leaf.
fn read_entry<L: Lookup, T: Allocator>(
    collator: &Collator<L, T>,
    text: &Normal,
    bound: KnownPoint,
    plain: bool,
    leaf: bool,
) -> KnownPoint
    requires { bound.count ≡ 4 }
    ensures point { result.point ≡ bound.point }
    ensures len { result.len ≡ bound.len }
    ensures starts { result.starts ≡ bound.starts }
    ensures elements { result.count ≤ 3 → (plain ≡ true)
        × (take result.count result.elements ≡ elements_of (collation_of L.content collator.now) text.now) }
    ensures leaf { result.leaf_count ≤ 3 → (leaf ≡ true) × (text.now.points ≡ bound.point ∷ [])
        × (take result.leaf_count result.elements ≡ elements_of (collation_of L.content collator.now) text.now) }
{
    let known = first_elements(collator, text, bound);
    let as_leaf = leaf && is_alone(text, bound.point);
    KnownPoint {
        count: if plain { known.count } else { BOUND },
        leaf_count: if as_leaf { known.count } else { BOUND },
        ..known
    }
}

// Whether a text is one code point, which is this one.
fn is_alone(text: &Normal, point: char) -> bool
    ensures { OnTrue result (text.now.points ≡ point ∷ []) }
{
    let points = text.chars();
    points.len() == 1 && points[0] == point
}

// Whether no key is longer than a code point and begins with it.
fn is_leaf<L: Lookup, T: Allocator>(collator: &Collator<L, T>, point: char) -> bool
    ensures { OnTrue result (IsLeaf (collation_of L.content collator.now) point) }
{
    let lookup = collator.lookup;
    match lookup.step(lookup.root(), point) {
        Some(node) => !lookup.may_go_on(node),
        None => true,
    }
}

// Whether a code point is plain.
fn is_plain<L: Lookup, T: Allocator>(collator: &Collator<L, T>, point: char) -> bool
    ensures { OnTrue result (IsPlain (collation_of L.content collator.now) point) }
{
    let mut room = [point; 3];
    let first = decomposition(point, Form::Nfd, &mut room)[0];
    canonical_combining_class(first) == 0
        && collator.data.class(first) == 0
        && !collator.lookup.may_follow(first)
}

// The entry of a plain code point with this text, where `bound` is without its elements.
fn first_elements<L: Lookup, T: Allocator>(
    collator: &Collator<L, T>,
    text: &Normal,
    bound: KnownPoint,
) -> KnownPoint
    requires { bound.count ≡ 4 }
    ensures point { result.point ≡ bound.point }
    ensures len { result.len ≡ bound.len }
    ensures starts { result.starts ≡ bound.starts }
    ensures elements { result.count ≤ 3 → take result.count result.elements ≡ elements_of (collation_of L.content collator.now) text.now }
{
    let mut known = KnownPoint { count: 0, ..bound };
    for element in collator.elements(text) {
        if usize::from(known.count) >= ROOM {
            return bound;
        }
        known.elements[usize::from(known.count)] = element;
        known.count += 1;
    }
    known
}
