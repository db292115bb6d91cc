//! The levels of a key in the making: a buffer for each level, and one for the key.

ghost use Rattle.std.specs.Prelude.{◌≡◌, ℕ, ◌<◌, ◌≤◌, ◌++◌, ◌∷◌, [], List, length, IfOk, OnOk};
ghost use Rattle.std.specs.Bool.{OnTrue, MatchBool};
ghost use Rattle.std.specs.Iterator.{IsFinite};
ghost use Rattle.std.specs.Iterator.Runs.{WholeRun};
ghost use Rattle.uca_weights.specs.declared.Element.{Element};
ghost use Rattle.uca_elements.specs.Collations.{Collation};
ghost use Rattle.uca_order.specs.Levels.{key_bytes};
ghost use Rattle.uca_order.specs.Depths;
ghost use Rattle.uca_order.specs.Depths.{points_bytes};
ghost use Rattle.uca_plain.specs.Leaves.{points_elements};
ghost use Rattle.uca_key_writer.specs.KeyLevels.{levels_in};
ghost use Rattle.uca_key_writer.specs.inside.LevelBuffers.{HoldsLevels, flattened, four_levels};
ghost use Rattle.uca_plain.specs.PointCache.{AreTrueEntries};
ghost use Rattle.uca_key_writer.specs.inside.Stretches.{ReadsUpTo, StretchReads};

use crate::KeyLevels;
use crate::slots::{Counts, NO_WEIGHTS, make_rooms, put_elements};
use crate::stretches::{LEAVES, STRETCH_SLOTS, Stretch, put_leaves, put_stretch};
use std::alloc::{AllocError, Allocator};
use std::marker::Model;
use uca_order::SEPARATOR;
use uca_plain::plain::{KnownPoint, PointCache};
use uca_weights::{Element, Weighting};

/// How many bytes are the beginning of a key.
const BEGINNING: usize = 16;

/// The levels of the elements that were pushed, and the key that they make.
#[derive(Drop)]
pub(crate) struct LevelBuffers<A: Allocator> {
    // under `Shifted`, whether the nearest element with a primary weight is variable
    after_variable: bool,
    counts: Counts,
    // the weights of each level, two bytes each, and after them slots for more
    primary: Vec<[u8; 2], A>,
    secondary: Vec<[u8; 2], A>,
    tertiary: Vec<[u8; 2], A>,
    quaternary: Vec<[u8; 2], A>,
    // the levels one after another
    key: Vec<u8, A>,
}

impl<A: Allocator> Model for LevelBuffers<A> {
    ghost use Rattle.uca_key_writer.specs.inside.LevelBuffers.{LevelState, levels_of, HasRoom};

    ghost Value = { LevelState };

    ghost view = { λ b. levels_of b.after_variable b.counts b.primary.items b.secondary.items b.tertiary.items b.quaternary.items b.key.items };

    ghost invariant = { λ b. HasRoom 0 b.counts b.primary.items b.secondary.items b.tertiary.items b.quaternary.items };
}

impl<A: Allocator + Copy> LevelBuffers<A> {
    /// Buffers that take no memory yet.
    pub(crate) fn new(alloc: A) -> LevelBuffers<A>
        ensures { result.key ≡ [] }
    {
        LevelBuffers {
            after_variable: false,
            counts: NO_WEIGHTS,
            primary: Vec::new(alloc),
            secondary: Vec::new(alloc),
            tertiary: Vec::new(alloc),
            quaternary: Vec::new(alloc),
            key: Vec::new(alloc),
        }
    }
}

impl<A: Allocator> LevelBuffers<A> {
    /// Writes the key of the elements, over the key that was there.
    ///
    /// # Errors
    ///
    /// An allocation failed. The bytes are then unspecified until the next successful write.
    pub(crate) fn write<I: Iterator<Item = Element> + Drop>(
        &mut self,
        weighting: Weighting,
        elements: I,
    ) -> Result<(), AllocError>
        requires can { I.can_next elements }
        requires finite { IsFinite (I.remaining elements) }
        ensures { OnOk result (WholeRun I.next_gives elements (λ p. self.new.key ≡ key_bytes weighting p.items)) }
    {
        self.clear();
        for element in elements {
            self.push(weighting, element)?;
        }
        self.join(weighting)
    }

    /// Takes all weights out, and keeps the memory.
    pub(crate) fn clear(&mut self)
        ensures { (weighting : Weighting) → HoldsLevels weighting [] self.new }
    {
        self.after_variable = false;
        self.counts = NO_WEIGHTS;
    }

    /// Adds the weights of the next element.
    #[inline]
    pub(crate) fn push(&mut self, weighting: Weighting, element: Element) -> Result<(), AllocError>
        ensures { (es : List Element) → HoldsLevels weighting es self.old →
            OnOk result (HoldsLevels weighting (es ++ element ∷ []) self.new) }
    {
        self.push_all(weighting, &[element])
    }

    /// Adds the weights of the next elements.
    #[inline]
    pub(crate) fn push_all(
        &mut self,
        weighting: Weighting,
        elements: &[Element],
    ) -> Result<(), AllocError>
        ensures { (es : List Element) → HoldsLevels weighting es self.old →
            OnOk result (HoldsLevels weighting (es ++ elements.now) self.new) }
    {
        match weighting {
            Weighting::NonIgnorable => self.push_all_by(Weighting::NonIgnorable, elements),
            Weighting::Shifted => self.push_all_by(Weighting::Shifted, elements),
        }
    }

    // It stands apart so that it is compiled for each weighting.
    #[inline(always)]
    fn push_all_by(&mut self, weighting: Weighting, elements: &[Element]) -> Result<(), AllocError>
        ensures { (es : List Element) → HoldsLevels weighting es self.old →
            OnOk result (HoldsLevels weighting (es ++ elements.now) self.new) }
    {
        make_rooms(
            self.counts,
            elements.len(),
            &mut self.primary,
            &mut self.secondary,
            &mut self.tertiary,
            &mut self.quaternary,
        )?;
        let mut after_variable = self.after_variable;
        self.counts = put_elements(
            weighting,
            elements,
            &mut after_variable,
            self.counts,
            self.primary.as_mut_slice(),
            self.secondary.as_mut_slice(),
            self.tertiary.as_mut_slice(),
            self.quaternary.as_mut_slice(),
        );
        self.after_variable = after_variable;
        Ok(())
    }

    /// Adds the weights of a plain code point and of those that follow it in a text, as [`put_stretch`] puts them.
    #[inline(always)]
    pub(crate) fn push_stretch<'t>(
        &mut self,
        weighting: Weighting,
        points: &PointCache<A>,
        first: &KnownPoint,
        text: &'t str,
    ) -> Result<Stretch<'t>, AllocError>
        ensures { (c : Collation) (xs : List ℕ) → AreTrueEntries c points.now.entries.items → ReadsUpTo c weighting xs self.old first.now →
            IfOk result (λ stretch. StretchReads c weighting xs text.now self.new stretch) }
    {
        if first.is_bound() {
            return Ok(Stretch::Stopped(*first, text));
        }
        match weighting {
            Weighting::NonIgnorable => self.push_stretch_by(
                Weighting::NonIgnorable,
                points,
                first,
                text,
            ),
            Weighting::Shifted => self.push_stretch_by(Weighting::Shifted, points, first, text),
        }
    }

    // It stands apart so that it is compiled for each weighting.
    #[inline(always)]
    fn push_stretch_by<'p, 't>(
        &mut self,
        weighting: Weighting,
        points: &'p PointCache<A>,
        first: &'p KnownPoint,
        text: &'t str,
    ) -> Result<Stretch<'t>, AllocError>
        requires { first.now.count ≤ 3 }
        ensures { (c : Collation) (xs : List ℕ) → AreTrueEntries c points.now.entries.items → ReadsUpTo c weighting xs self.old first.now →
            IfOk result (λ stretch. StretchReads c weighting xs text.now self.new stretch) }
    {
        make_rooms(
            self.counts,
            STRETCH_SLOTS,
            &mut self.primary,
            &mut self.secondary,
            &mut self.tertiary,
            &mut self.quaternary,
        )?;
        let mut after_variable = self.after_variable;
        let (stretch, counts) = put_stretch(
            weighting,
            points,
            first,
            text,
            &mut after_variable,
            self.counts,
            self.primary.as_mut_slice(),
            self.secondary.as_mut_slice(),
            self.tertiary.as_mut_slice(),
            self.quaternary.as_mut_slice(),
        );
        self.after_variable = after_variable;
        self.counts = counts;
        Ok(stretch)
    }

    /// Adds the weights of code points in Normalization Form D, if each is a leaf in the cache. Otherwise `false` is returned, and
    /// the weights are unspecified.
    pub(crate) fn push_leaves(
        &mut self,
        weighting: Weighting,
        points: &PointCache<A>,
        text: &[char],
    ) -> Result<bool, AllocError>
        requires { length text.now ≤ LEAVES }
        ensures { (c : Collation) (es : List Element) → AreTrueEntries c points.now.entries.items → HoldsLevels weighting es self.old →
            IfOk result (λ all. OnTrue all (HoldsLevels weighting (es ++ points_elements c text.now) self.new)) }
    {
        match weighting {
            Weighting::NonIgnorable => self.push_leaves_by(Weighting::NonIgnorable, points, text),
            Weighting::Shifted => self.push_leaves_by(Weighting::Shifted, points, text),
        }
    }

    // It stands apart so that it is compiled for each weighting.
    #[inline(always)]
    fn push_leaves_by(
        &mut self,
        weighting: Weighting,
        points: &PointCache<A>,
        text: &[char],
    ) -> Result<bool, AllocError>
        requires { length text.now ≤ LEAVES }
        ensures { (c : Collation) (es : List Element) → AreTrueEntries c points.now.entries.items → HoldsLevels weighting es self.old →
            IfOk result (λ all. OnTrue all (HoldsLevels weighting (es ++ points_elements c text.now) self.new)) }
    {
        make_rooms(
            self.counts,
            STRETCH_SLOTS,
            &mut self.primary,
            &mut self.secondary,
            &mut self.tertiary,
            &mut self.quaternary,
        )?;
        let mut after_variable = self.after_variable;
        let (all, counts) = put_leaves(
            weighting,
            points,
            text,
            &mut after_variable,
            self.counts,
            self.primary.as_mut_slice(),
            self.secondary.as_mut_slice(),
            self.tertiary.as_mut_slice(),
            self.quaternary.as_mut_slice(),
        );
        self.after_variable = after_variable;
        self.counts = counts;
        Ok(all)
    }

    /// Writes the key of the elements that were pushed, over the key that was there.
    pub(crate) fn join(&mut self, weighting: Weighting) -> Result<(), AllocError>
        ensures { (es : List Element) → HoldsLevels weighting es self.old →
            OnOk result (self.new.key ≡ key_bytes weighting es) }
    {
        self.join_beginning()?;
        push_level(&mut self.key, &self.secondary[..self.counts.secondary])?;
        push_level(&mut self.key, &self.tertiary[..self.counts.tertiary])?;
        match weighting {
            Weighting::NonIgnorable => Ok(()),
            Weighting::Shifted => {
                push_level(&mut self.key, &self.quaternary[..self.counts.quaternary])
            }
        }
    }

    /// Whether there are sixteen bytes at level 1, where a key begins.
    #[inline]
    pub(crate) fn has_beginning(&self) -> bool
        ensures { MatchBool result (BEGINNING ≤ length self.now.primary) (length self.now.primary < BEGINNING) }
    {
        self.primary[..self.counts.primary].as_flattened().len() >= BEGINNING
    }

    /// Writes level 1 of the elements that were pushed, over the key that was there.
    pub(crate) fn join_beginning(&mut self) -> Result<(), AllocError>
        ensures { OnOk result (self.new ≡ record self.old { key = self.old.primary }) }
    {
        self.key.clear();
        self.key
            .extend_from_slice(self.primary[..self.counts.primary].as_flattened())
    }

    /// Appends the identical level to the key: the code points, three bytes each with the high byte first.
    pub(crate) fn push_points(&mut self, points: &[char]) -> Result<(), AllocError>
        ensures { OnOk result (self.new.key ≡ self.old.key ++ (0 ∷ 0 ∷ points_bytes points.now)) }
    {
        self.key.extend_from_slice(&SEPARATOR)?;
        for point in points {
            self.key.extend_from_slice(&point_bytes(*point))?;
        }
        Ok(())
    }

    /// The weights of each level of the elements that were pushed.
    #[inline]
    pub(crate) fn levels(&self) -> KeyLevels<'_>
        ensures { levels_in result ≡ four_levels self.now }
    {
        KeyLevels {
            primary: self.primary[..self.counts.primary].as_flattened(),
            secondary: self.secondary[..self.counts.secondary].as_flattened(),
            tertiary: self.tertiary[..self.counts.tertiary].as_flattened(),
            quaternary: self.quaternary[..self.counts.quaternary].as_flattened(),
        }
    }

    /// The key that was written last.
    pub(crate) fn key(&self) -> &[u8]
        ensures { result.now ≡ self.now.key }
    {
        self.key.as_slice()
    }

    /// The key that was written last, for the caller to keep.
    pub(crate) fn into_key(self) -> Vec<u8, A>
        ensures { result.items ≡ self.key }
    {
        let LevelBuffers { key, .. } = self;
        key
    }
}

// Adds a level to a key, after a separator.
fn push_level<A: Allocator>(key: &mut Vec<u8, A>, level: &[[u8; 2]]) -> Result<(), AllocError>
    ensures { OnOk result (key.new.items ≡ key.old.items ++ (0 ∷ 0 ∷ flattened level.now)) }
{
    key.extend_from_slice(&SEPARATOR)?;
    key.extend_from_slice(level.as_flattened())
}

// A code point as three bytes, the high one first.
fn point_bytes(point: char) -> [u8; 3]
    ensures { result ≡ Depths.point_bytes point }
{
    let [_, high, middle, low] = u32::from(point).to_be_bytes();
    [high, middle, low]
}
