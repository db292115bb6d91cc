//! `Piece`: a piece of a text, which is cut before each plain code point.
//!
//! A piece with marks is brought to Normalization Form D. A code point there is a leaf if no key is longer and begins
//! with it. A piece of at most 64 leaves reads as they do one by one, so each has the elements that are kept of it.
//! All other pieces with marks go through the tree.

ghost use Rattle.std.specs.Prelude.{◌≡◌, ℕ, [], ◌∷◌, ◌++◌, List, Some, None, chars, map, IfOk, OnOk};
ghost use Rattle.std.specs.Bool.{OnTrue};
ghost use Rattle.unicode_normalization.specs.Forms.{nfd};
ghost use Rattle.uca_weights.specs.declared.Element.{Element};
ghost use Rattle.uca_weights.specs.declared.Weighting.{Weighting};
ghost use Rattle.uca_text.specs.Texts.{nfd_text};
ghost use Rattle.uca_text.specs.Limits.{HasNoLongRun};
ghost use Rattle.uca_elements.specs.Collations.{Collation, collation_of, elements_of};
ghost use Rattle.uca_key_writer.specs.inside.LevelBuffers.{LevelState, HoldsLevels};
ghost use Rattle.uca_key_writer.specs.inside.Pieces.{piece_points, ReadsTo, HasRead};
ghost use Rattle.uca_plain.specs.Plain.{elements_alone};
ghost use Rattle.uca_plain.specs.PointCache.{IsTrueEntry, AreTrueEntries};
ghost use Rattle.uca_key_writer.specs.inside.Readings.{ReadsOn};
ghost use Rattle.uca_key_writer.specs.inside.Stretches.{ReadsMore, ReadsUpTo};

use crate::level_buffers::LevelBuffers;
use crate::stretches::{LEAVES, Stretch, split_bound};
use std::alloc::{AllocError, Allocator, Global};
use uca_elements::{Collator, Lookup};
use uca_plain::plain::{KnownPoint, PointCache};
use uca_text::{Normal, TextFault};
use uca_weights::Weighting;

/// How the reading of a text goes on.
#[derive(Drop)]
pub(crate) enum Reading<'t> {
    /// With what is left of the text.
    GoesOn(&'t str),
    /// Not at all. Either all weights are added, or a piece was rejected: `false`.
    Ended(bool),
}

/// The code points of a text from its last plain one on.
#[derive(Drop)]
pub struct Piece {
    // the piece, where it is one plain code point
    alone: Option<KnownPoint>,
    // otherwise its code points
    text: String,
    // whether these are leaves, which is asked for speed alone
    leaves: bool,
    // lends its memory to their Normalization Form D
    normal: Normal,
}

impl Piece {
    /// The empty piece, which takes no memory.
    pub fn new(global: Global) -> Piece {
        Piece {
            alone: None,
            text: String::new(global),
            leaves: true,
            normal: Normal::new(global),
        }
    }

    /// Makes it empty.
    pub(crate) fn clear(&mut self)
        ensures points { piece_points self.new ≡ [] }
        ensures alone { self.new.alone ≡ None }
    {
        self.alone = None;
        self.text.clear();
        self.leaves = true;
    }

    // Writes out the code point that is the piece alone.
    fn write_out(&mut self) -> Result<(), AllocError>
        ensures points { OnOk result (piece_points self.new ≡ piece_points self.old) }
        ensures alone { OnOk result (self.new.alone ≡ None) }
    {
        let Some(known) = self.alone else {
            return Ok(());
        };
        self.text.clear();
        self.text.push(known.point)?;
        self.leaves = known.is_leaf();
        self.alone = None;
        Ok(())
    }

    /// Makes it this plain code point alone.
    #[inline]
    pub(crate) fn begin(&mut self, known: KnownPoint)
        ensures alone { self.new.alone ≡ Some known }
    {
        self.alone = Some(known);
    }

    /// Goes on by a code point that is not plain, and by those that follow it in the text, as long as they are in the cache and not
    /// plain. Returns what comes after them.
    pub(crate) fn go_on_bound<'t, A: Allocator>(
        &mut self,
        points: &PointCache<A>,
        point: char,
        is_leaf: bool,
        text: &'t str,
    ) -> Result<&'t str, AllocError>
        ensures { (c : Collation) (weighting : Weighting) (xs : List ℕ) (levels : LevelState) → ReadsTo c weighting xs levels self.old →
            IfOk result (λ rest. ReadsMore c weighting (xs ++ point ∷ []) text.now rest.now levels self.new) }
    {
        self.push(point, is_leaf)?;
        let (bound, leaves, rest) = split_bound(points, text);
        self.text.push_str(bound)?;
        self.leaves = self.leaves && leaves;
        Ok(rest)
    }

    // Adds a code point that is not plain.
    fn push(&mut self, point: char, is_leaf: bool) -> Result<(), AllocError>
        ensures points { OnOk result (piece_points self.new ≡ piece_points self.old ++ point ∷ []) }
        ensures alone { OnOk result (self.new.alone ≡ None) }
    {
        self.write_out()?;
        self.text.push(point)?;
        self.leaves = self.leaves && is_leaf;
        Ok(())
    }

    /// Goes on by the next code point of the text. A plain one ends the piece, whose weights are added to the levels, and
    /// begins the next. Returns whether the piece that ended was accepted.
    pub(crate) fn go_on<L: Lookup, T: Allocator, A: Allocator>(
        &mut self,
        levels: &mut LevelBuffers<A>,
        weighting: Weighting,
        collator: &Collator<L, T>,
        points: &mut PointCache<A>,
        point: char,
    ) -> Result<bool, AllocError>
        requires { AreTrueEntries (collation_of L.content collator.now) points.old.entries.items }
        ensures entries { AreTrueEntries (collation_of L.content collator.now) points.new.entries.items }
        ensures read { let c = collation_of L.content collator.now in (xs : List ℕ) → ReadsTo c weighting xs levels.old self.old →
            IfOk result (λ accepted. OnTrue accepted (ReadsTo c weighting (xs ++ point ∷ []) levels.new self.new)) }
    {
        let known = points.get(collator, point)?;
        if known.is_bound() {
            return match self.push(point, known.is_leaf()) {
                Ok(()) => Ok(true),
                Err(error) => Err(error),
            };
        }
        match self.end(levels, weighting, collator, points) {
            Ok(accepted) => {
                self.begin(known);
                Ok(accepted)
            }
            Err(error) => Err(error),
        }
    }

    /// Takes a plain code point and the plain ones of the cache that come next in the text. Their weights are added to the
    /// levels, but not those of the last, which is the piece then. Where they end the text, all weights are added, and the piece is
    /// unspecified.
    #[inline(always)]
    pub(crate) fn go_on_plain<'t, A: Allocator>(
        &mut self,
        levels: &mut LevelBuffers<A>,
        weighting: Weighting,
        points: &PointCache<A>,
        first: &KnownPoint,
        text: &'t str,
    ) -> Result<Reading<'t>, AllocError>
        ensures { (c : Collation) (xs : List ℕ) → AreTrueEntries c points.now.entries.items → ReadsUpTo c weighting xs levels.old first.now →
            IfOk result (ReadsOn c weighting xs text.now levels.new self.new) }
    {
        match levels.push_stretch(weighting, points, first, text) {
            Ok(Stretch::Ended) => Ok(Reading::Ended(true)),
            Ok(Stretch::Stopped(last, rest)) => {
                self.begin(last);
                Ok(Reading::GoesOn(rest))
            }
            Err(error) => Err(error),
        }
    }

    /// Adds the weights of the piece to the levels, and returns whether it is accepted. A piece of leaves is read by what is known
    /// of them.
    pub(crate) fn end<L: Lookup, T: Allocator, A: Allocator>(
        &mut self,
        levels: &mut LevelBuffers<A>,
        weighting: Weighting,
        collator: &Collator<L, T>,
        points: &mut PointCache<A>,
    ) -> Result<bool, AllocError>
        requires { AreTrueEntries (collation_of L.content collator.now) points.old.entries.items }
        ensures entries { AreTrueEntries (collation_of L.content collator.now) points.new.entries.items }
        ensures read { let c = collation_of L.content collator.now in (xs : List ℕ) → ReadsTo c weighting xs levels.old self.old →
            IfOk result (λ accepted. OnTrue accepted (HasRead c weighting xs levels.new)) }
    {
        match &self.alone {
            Some(known) => push_known(levels, weighting, known),
            None if self.text.is_empty() => Ok(true),
            None => push_text(
                levels,
                weighting,
                collator,
                points,
                self.leaves,
                self.text.as_str(),
                &mut self.normal,
            ),
        }
    }
}

// Adds the weights of a plain code point.
fn push_known<A: Allocator>(
    levels: &mut LevelBuffers<A>,
    weighting: Weighting,
    known: &KnownPoint,
) -> Result<bool, AllocError>
    ensures { (c : Collation) (es : List Element) → IsTrueEntry c known.now → HoldsLevels weighting es levels.old →
        IfOk result (λ plain. OnTrue plain (HoldsLevels weighting (es ++ elements_alone c known.now.point) levels.new)) }
{
    let Some(elements) = known.elements() else {
        return Ok(false);
    };
    levels.push_all(weighting, elements)?;
    Ok(true)
}

// Adds the weights of a text, and returns whether it is accepted. Its Normalization Form D is written over the other text, and
// what is known of leaves is used.
fn push_text<L: Lookup, T: Allocator, A: Allocator>(
    levels: &mut LevelBuffers<A>,
    weighting: Weighting,
    collator: &Collator<L, T>,
    points: &mut PointCache<A>,
    leaves: bool,
    text: &str,
    normal: &mut Normal,
) -> Result<bool, AllocError>
    requires { AreTrueEntries (collation_of L.content collator.now) points.old.entries.items }
    ensures entries { AreTrueEntries (collation_of L.content collator.now) points.new.entries.items }
    ensures levels { let c = collation_of L.content collator.now in (es : List Element) → HoldsLevels weighting es levels.old →
        IfOk result (λ accepted. OnTrue accepted (HoldsLevels weighting (es ++ elements_of c (nfd_text c.properties (chars text.now))) levels.new)) }
    ensures runs { let c = collation_of L.content collator.now in
        IfOk result (λ accepted. OnTrue accepted (HasNoLongRun (map c.properties.class (nfd (chars text.now))))) }
{
    match normal.renew(text, collator.data) {
        Ok(()) => push_normal(levels, weighting, collator, points, leaves, normal),
        Err(TextFault::Memory) => Err(AllocError),
        Err(_) => Ok(false),
    }
}

// Adds the weights of a text in Normalization Form D, and returns whether all are added.
fn push_normal<L: Lookup, T: Allocator, A: Allocator>(
    levels: &mut LevelBuffers<A>,
    weighting: Weighting,
    collator: &Collator<L, T>,
    points: &mut PointCache<A>,
    leaves: bool,
    text: &Normal,
) -> Result<bool, AllocError>
    requires classes { text.now.classes ≡ map (collation_of L.content collator.now).properties.class text.now.points }
    requires entries { AreTrueEntries (collation_of L.content collator.now) points.old.entries.items }
    ensures entries { AreTrueEntries (collation_of L.content collator.now) points.new.entries.items }
    ensures levels { (es : List Element) → HoldsLevels weighting es levels.old →
        IfOk result (λ all. OnTrue all (HoldsLevels weighting (es ++ elements_of (collation_of L.content collator.now) text.now) levels.new)) }
{
    let chars = text.chars();
    if chars.len() <= LEAVES && are_leaves(collator, points, leaves, chars)? {
        return levels.push_leaves(weighting, points, chars);
    }
    match push_elements(levels, weighting, collator, text) {
        Ok(()) => Ok(true),
        Err(error) => Err(error),
    }
}

// Whether all code points are leaves. What is not known yet of one is found out.
fn are_leaves<L: Lookup, T: Allocator, A: Allocator>(
    collator: &Collator<L, T>,
    points: &mut PointCache<A>,
    leaves: bool,
    text: &[char],
) -> Result<bool, AllocError>
    requires { AreTrueEntries (collation_of L.content collator.now) points.old.entries.items }
    ensures { AreTrueEntries (collation_of L.content collator.now) points.new.entries.items }
{
    if leaves {
        return Ok(true);
    }
    for point in text {
        match points.is_leaf(collator, *point) {
            Ok(true) => {}
            Ok(false) => return Ok(false),
            Err(error) => return Err(error),
        }
    }
    Ok(true)
}

// Adds the weights of a text in Normalization Form D.
fn push_elements<L: Lookup, T: Allocator, A: Allocator>(
    levels: &mut LevelBuffers<A>,
    weighting: Weighting,
    collator: &Collator<L, T>,
    text: &Normal,
) -> Result<(), AllocError>
    ensures { (es : List Element) → HoldsLevels weighting es levels.old →
        OnOk result (HoldsLevels weighting (es ++ elements_of (collation_of L.content collator.now) text.now) levels.new) }
{
    for element in collator.elements(text) {
        levels.push(weighting, element)?;
    }
    Ok(())
}
