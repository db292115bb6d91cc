//! `KeyBuffer`: memory that is used for one key after another.

ghost use Rattle.std.specs.Prelude.{◌≡◌, ℕ, [], ◌∷◌, ◌++◌, ◌<◌, ◌≤◌, ◌^◌, List, length, take, chars, OnOk, IfOk, IfErr};
ghost use Rattle.std.specs.Bool.{OnTrue};
ghost use Rattle.uca_weights.specs.declared.Depth.TheVariants.{Weights};
ghost use Rattle.uca_text.specs.Texts.{nfd_text};
ghost use Rattle.uca_text.specs.Limits.{IsAccepted};
ghost use Rattle.uca_text.specs.Faults.{IsCause};
ghost use Rattle.uca_elements.specs.Collations.{Collation, collation_of, elements_of};
ghost use Rattle.uca_order.specs.Depths.{read_text, key_at};
ghost use Rattle.uca_order.specs.Lengths.{HasShortRows};
ghost use Rattle.uca_key_writer.specs.KeyLevels.{AreLevelsOf, levels_in};
ghost use Rattle.uca_key_writer.specs.inside.AsItIs.{key_as_it_is};
ghost use Rattle.uca_key_writer.specs.inside.LevelBuffers.{HoldsLevels};
ghost use Rattle.uca_key_writer.specs.inside.Pieces.{ReadsTo, HasRead};
ghost use Rattle.uca_plain.specs.PointCache.{IsTrueEntry, AreTrueEntries};
ghost use Rattle.uca_key_writer.specs.inside.Readings.{ReadsOn};

use crate::KeyLevels;
use crate::beginnings::{has_short_runs, push_beginning};
use crate::level_buffers::LevelBuffers;
use crate::pieces::{Piece, Reading};
use std::alloc::{AllocError, Allocator, Global};
use std::marker::Model;
use uca_elements::{Collator, Lookup};
use uca_plain::plain::{KnownPoint, PointCache, SHORT_TEXT};
use uca_plain::points::{split_first, split_plain};
use uca_text::{Normal, TextFault};
use uca_weights::{Depth, Weighting};

/// Memory for sort keys (UTS #10, section 7.3) of one weighting and depth. Each key that is written replaces the one
/// before, and the memory is used again.
#[derive(Drop)]
pub struct KeyBuffer<A: Allocator = Global> {
    weighting: Weighting,
    depth: Depth,
    levels: LevelBuffers<A>,
}

impl<A: Allocator> Model for KeyBuffer<A> {
    ghost use Rattle.uca_key_writer.specs.Buffers.{KeyState};
    ghost use Rattle.uca_key_writer.specs.inside.LevelBuffers.{four_levels};

    ghost Value = { KeyState };

    ghost view = { λ b. record { weighting = b.weighting; depth = b.depth; key = b.levels.key; levels = four_levels b.levels } };
}

impl<A: Allocator + Copy> KeyBuffer<A> {
    /// A buffer for keys of a weighting and a depth, which takes no memory yet.
    pub fn new(alloc: A, weighting: Weighting, depth: Depth) -> KeyBuffer<A>
        ensures weighting { result.weighting ≡ weighting }
        ensures depth { result.depth ≡ depth }
        ensures empty { result.key ≡ [] }
    {
        KeyBuffer {
            weighting,
            depth,
            levels: LevelBuffers::new(alloc),
        }
    }
}

impl<A: Allocator> KeyBuffer<A> {
    /// Writes the key of a text, over the key that was there.
    ///
    /// # Errors
    ///
    /// An allocation failed. The bytes are then unspecified until the next successful write.
    pub fn write_text<L: Lookup, B: Allocator>(
        &mut self,
        collator: &Collator<L, B>,
        text: &Normal,
    ) -> Result<(), AllocError>
        ensures key { OnOk result (self.new.key ≡ key_at self.old.depth self.old.weighting
            (read_text (collation_of L.content collator.now) text.now)) }
        ensures short { HasShortRows (collation_of L.content collator.now).rows →
            OnOk result (length self.new.key < 2 ^ 40) }
        ensures weighting { self.new.weighting ≡ self.old.weighting }
        ensures depth { self.new.depth ≡ self.old.depth }
    {
        // The text keeps the limits of `Normal`, so its key is short.
        self.write_with(collator, text, text.chars())
    }

    /// Writes the key of a text, over the key that was there. At the depth `Identical` it ends in these code points.
    ///
    /// # Errors
    ///
    /// An allocation failed. The bytes are then unspecified until the next successful write.
    pub(crate) fn write_with<L: Lookup, B: Allocator>(
        &mut self,
        collator: &Collator<L, B>,
        text: &Normal,
        points: &[char],
    ) -> Result<(), AllocError>
        ensures key { OnOk result (self.new.key ≡ key_at self.old.depth self.old.weighting
            (record { elements = elements_of (collation_of L.content collator.now) text.now; points = points.now })) }
        ensures weighting { self.new.weighting ≡ self.old.weighting }
        ensures depth { self.new.depth ≡ self.old.depth }
    {
        self.levels.write(self.weighting, collator.elements(text))?;
        match self.depth {
            Depth::Weights => Ok(()),
            Depth::Identical => self.levels.push_points(points),
        }
    }

    /// Writes the key of a text piece by piece, over the key that was there, and returns `true`. If a piece is rejected, the
    /// text has more than 524,288 bytes or the depth is `Identical`, it returns `false`, and the bytes are unspecified.
    ///
    /// # Errors
    ///
    /// An allocation failed. The bytes are then unspecified until the next successful write.
    pub(crate) fn write_pieces<L: Lookup, T: Allocator>(
        &mut self,
        collator: &Collator<L, T>,
        points: &mut PointCache<A>,
        piece: &mut Piece,
        text: &str,
    ) -> Result<bool, AllocError>
        requires { AreTrueEntries (collation_of L.content collator.now) points.old.entries.items }
        ensures entries { AreTrueEntries (collation_of L.content collator.now) points.new.entries.items }
        ensures key { let c = collation_of L.content collator.now in
            IfOk result (λ accepted. OnTrue accepted
            (self.new.key ≡ key_as_it_is c self.old.weighting self.old.depth (chars text.now))) }
        ensures accepted { let c = collation_of L.content collator.now in
            IfOk result (λ accepted. OnTrue accepted (IsAccepted (nfd_text c.properties (chars text.now)))) }
        ensures short { HasShortRows (collation_of L.content collator.now).rows →
            IfOk result (λ accepted. OnTrue accepted (length self.new.key < 2 ^ 40)) }
        ensures weighting { self.new.weighting ≡ self.old.weighting }
        ensures depth { self.new.depth ≡ self.old.depth }
    {
        match take_pieces(
            &mut self.levels,
            self.weighting,
            self.depth,
            collator,
            points,
            piece,
            text,
        ) {
            Ok(true) => {
                self.levels.join(self.weighting)?;
                Ok(true)
            }
            Ok(false) => Ok(false),
            Err(error) => Err(error),
        }
    }

    /// Writes the levels of the key of a text piece by piece, over those that were there, and returns `true`. They are not
    /// joined: the bytes of the key are then unspecified. If a piece is rejected, the text has more than 524,288 bytes or the
    /// depth is `Identical`, it returns `false`, and the levels are unspecified too.
    ///
    /// # Errors
    ///
    /// An allocation failed. The levels and the bytes are then unspecified.
    pub(crate) fn write_levels<L: Lookup, T: Allocator>(
        &mut self,
        collator: &Collator<L, T>,
        points: &mut PointCache<A>,
        piece: &mut Piece,
        text: &str,
    ) -> Result<bool, AllocError>
        requires { AreTrueEntries (collation_of L.content collator.now) points.old.entries.items }
        ensures entries { AreTrueEntries (collation_of L.content collator.now) points.new.entries.items }
        ensures levels { let c = collation_of L.content collator.now in
            IfOk result (λ written. OnTrue written
            (AreLevelsOf self.old.weighting (elements_of c (nfd_text c.properties (chars text.now))) self.new.levels)) }
        ensures accepted { let c = collation_of L.content collator.now in
            IfOk result (λ written. OnTrue written (IsAccepted (nfd_text c.properties (chars text.now)))) }
        ensures without_points { IfOk result (λ written. OnTrue written (self.old.depth ≡ Weights)) }
        ensures weighting { self.new.weighting ≡ self.old.weighting }
        ensures depth { self.new.depth ≡ self.old.depth }
    {
        take_pieces(
            &mut self.levels,
            self.weighting,
            self.depth,
            collator,
            points,
            piece,
            text,
        )
    }

    /// Writes the key of a text as it is, over the key that was there. This is done piece by piece, or else by its Normalization
    /// Form D, which is written over the other text.
    ///
    /// # Errors
    ///
    /// Those of [`normal`](uca_text::normal), and `Memory` also if an allocation for the key failed. The bytes are then
    /// unspecified until the next successful write.
    pub(crate) fn write_as_is<L: Lookup, T: Allocator>(
        &mut self,
        collator: &Collator<L, T>,
        points: &mut PointCache<A>,
        piece: &mut Piece,
        normal: &mut Normal,
        text: &str,
    ) -> Result<(), TextFault>
        requires { AreTrueEntries (collation_of L.content collator.now) points.old.entries.items }
        ensures entries { AreTrueEntries (collation_of L.content collator.now) points.new.entries.items }
        ensures key { let c = collation_of L.content collator.now in
            OnOk result (self.new.key ≡ key_as_it_is c self.old.weighting self.old.depth (chars text.now)) }
        ensures accepted { let c = collation_of L.content collator.now in OnOk result (IsAccepted (nfd_text c.properties (chars text.now))) }
        ensures fault { let c = collation_of L.content collator.now in IfErr result (IsCause (nfd_text c.properties (chars text.now))) }
        ensures short { HasShortRows (collation_of L.content collator.now).rows → OnOk result (length self.new.key < 2 ^ 40) }
        ensures weighting { self.new.weighting ≡ self.old.weighting }
        ensures depth { self.new.depth ≡ self.old.depth }
    {
        match self.write_pieces(collator, points, piece, text) {
            Ok(true) => Ok(()),
            Ok(false) => {
                normal.renew(text, collator.data)?;
                self.write_text(collator, normal)?;
                Ok(())
            }
            Err(_) => Err(TextFault::Memory),
        }
    }

    /// Writes at least the first sixteen bytes of the key of a text, over the key that was there, and returns `true`. A shorter
    /// key is written whole. If the text is not judged by its pieces, it returns `false`, and the bytes are unspecified.
    ///
    /// # Errors
    ///
    /// An allocation failed. The bytes are then unspecified until the next successful write.
    pub(crate) fn write_beginning<L: Lookup, T: Allocator>(
        &mut self,
        collator: &Collator<L, T>,
        points: &mut PointCache<A>,
        piece: &mut Piece,
        text: &str,
    ) -> Result<bool, AllocError>
        requires { AreTrueEntries (collation_of L.content collator.now) points.old.entries.items }
        ensures entries { AreTrueEntries (collation_of L.content collator.now) points.new.entries.items }
        ensures beginning { let c = collation_of L.content collator.now in
            IfOk result (λ accepted. OnTrue accepted
            (take 16 self.new.key ≡ take 16 (key_as_it_is c self.old.weighting self.old.depth (chars text.now)))) }
        ensures accepted { let c = collation_of L.content collator.now in
            IfOk result (λ accepted. OnTrue accepted (IsAccepted (nfd_text c.properties (chars text.now)))) }
        ensures weighting { self.new.weighting ≡ self.old.weighting }
        ensures depth { self.new.depth ≡ self.old.depth }
    {
        if text.len() > SHORT_TEXT {
            return Ok(false);
        }
        self.levels.clear();
        match push_beginning(
            &mut self.levels,
            self.weighting,
            collator,
            points,
            piece,
            text,
        ) {
            Ok(true) => {}
            Ok(false) => return Ok(false),
            Err(error) => return Err(error),
        }
        if self.levels.has_beginning() {
            self.levels.join_beginning()?;
            return has_short_runs(collator, points, text);
        }
        match self.depth {
            Depth::Identical => Ok(false),
            Depth::Weights => {
                self.levels.join(self.weighting)?;
                Ok(true)
            }
        }
    }

    /// The levels that were written last. A call that writes a key, or the beginning of one, leaves them unspecified.
    pub(crate) fn levels(&self) -> KeyLevels<'_>
        ensures { levels_in result ≡ self.now.levels }
    {
        self.levels.levels()
    }

    /// How far its keys go.
    pub(crate) fn depth(&self) -> Depth
        ensures { result ≡ self.now.depth }
    {
        self.depth
    }

    /// The key that was written last: the weights of each level, two bytes each with the high byte first,
    /// and two bytes 0 between two levels. At the depth `Identical` two bytes 0 more follow, and each code point
    /// of the text in Normalization Form D as three bytes, the high byte first.
    pub fn bytes(&self) -> &[u8]
        ensures { result.now ≡ self.now.key }
    {
        self.levels.key()
    }

    /// The key that was written last, for the caller to keep.
    pub fn into_bytes(self) -> Vec<u8, A>
        ensures { result.items ≡ self.key }
    {
        let KeyBuffer { levels, .. } = self;
        levels.into_key()
    }
}

// Takes the weights of a text to the levels, over those that were there, and returns `true`. If a piece is rejected, the text
// has more than 524,288 bytes or the depth is `Identical`, it returns `false`, and the weights are unspecified.
#[inline(always)]
fn take_pieces<L: Lookup, T: Allocator, A: Allocator>(
    levels: &mut LevelBuffers<A>,
    weighting: Weighting,
    depth: Depth,
    collator: &Collator<L, T>,
    points: &mut PointCache<A>,
    piece: &mut Piece,
    text: &str,
) -> Result<bool, AllocError>
    requires { AreTrueEntries (collation_of L.content collator.now) points.old.entries.items }
    ensures entries { AreTrueEntries (collation_of L.content collator.now) points.new.entries.items }
    ensures read { let c = collation_of L.content collator.now in
        IfOk result (λ accepted. OnTrue accepted (HasRead c weighting (chars text.now) levels.new)) }
    ensures accepted { let c = collation_of L.content collator.now in
        IfOk result (λ accepted. OnTrue accepted (IsAccepted (nfd_text c.properties (chars text.now)))) }
    ensures without_points { IfOk result (λ accepted. OnTrue accepted (depth ≡ Weights)) }
{
    if text.len() > SHORT_TEXT {
        return Ok(false);
    }
    match depth {
        Depth::Identical => Ok(false),
        Depth::Weights => {
            levels.clear();
            push_pieces(levels, weighting, collator, points, piece, text)
        }
    }
}

// Adds the weights of a text to empty levels, piece by piece, and returns whether each piece is accepted.
fn push_pieces<L: Lookup, T: Allocator, A: Allocator>(
    levels: &mut LevelBuffers<A>,
    weighting: Weighting,
    collator: &Collator<L, T>,
    points: &mut PointCache<A>,
    piece: &mut Piece,
    text: &str,
) -> Result<bool, AllocError>
    requires empty { HoldsLevels weighting [] levels.old }
    requires entries { AreTrueEntries (collation_of L.content collator.now) points.old.entries.items }
    ensures entries { AreTrueEntries (collation_of L.content collator.now) points.new.entries.items }
    ensures read { let c = collation_of L.content collator.now in
        IfOk result (λ accepted. OnTrue accepted (HasRead c weighting (chars text.now) levels.new)) }
{
    let mut rest = match begin_pieces(levels, weighting, points, piece, text) {
        Ok(Reading::GoesOn(after)) => after,
        Ok(Reading::Ended(accepted)) => return Ok(accepted),
        Err(error) => return Err(error),
    };
    while let Some((point, more)) = split_first(rest) {
        let known = points.get(collator, point)?;
        if known.is_bound() {
            rest = piece.go_on_bound(points, point, known.is_leaf(), more)?;
            continue;
        }
        match push_plain(levels, weighting, collator, points, piece, known, more) {
            Ok(Reading::GoesOn(after)) => rest = after,
            Ok(Reading::Ended(accepted)) => return Ok(accepted),
            Err(error) => return Err(error),
        }
    }
    piece.end(levels, weighting, collator, points)
}

// Begins by the plain code points of the cache with which a text begins. There is no piece before them. Most texts have no
// other ones.
#[inline(always)]
fn begin_pieces<'t, A: Allocator>(
    levels: &mut LevelBuffers<A>,
    weighting: Weighting,
    points: &PointCache<A>,
    piece: &mut Piece,
    text: &'t str,
) -> Result<Reading<'t>, AllocError>
    requires { HoldsLevels weighting [] levels.old }
    ensures { (c : Collation) → AreTrueEntries c points.now.entries.items →
        IfOk result (ReadsOn c weighting [] text.now levels.new piece.new) }
{
    piece.clear();
    match split_plain(points, text) {
        Some((first, more)) => piece.go_on_plain(levels, weighting, points, first, more),
        None => Ok(Reading::GoesOn(text)),
    }
}

// Ends the piece before a plain code point, and goes on by it and by the plain code points that come next in the text.
#[inline(always)]
fn push_plain<'t, L: Lookup, T: Allocator, A: Allocator>(
    levels: &mut LevelBuffers<A>,
    weighting: Weighting,
    collator: &Collator<L, T>,
    points: &mut PointCache<A>,
    piece: &mut Piece,
    known: KnownPoint,
    text: &'t str,
) -> Result<Reading<'t>, AllocError>
    requires few { known.count ≤ 3 }
    requires entry { IsTrueEntry (collation_of L.content collator.now) known }
    requires entries { AreTrueEntries (collation_of L.content collator.now) points.old.entries.items }
    ensures entries { AreTrueEntries (collation_of L.content collator.now) points.new.entries.items }
    ensures read { let c = collation_of L.content collator.now in (xs : List ℕ) → ReadsTo c weighting xs levels.old piece.old →
        IfOk result (ReadsOn c weighting (xs ++ known.point ∷ []) text.now levels.new piece.new) }
{
    match piece.end(levels, weighting, collator, points) {
        Ok(true) => piece.go_on_plain(levels, weighting, points, &known, text),
        Ok(false) => Ok(Reading::Ended(false)),
        Err(error) => Err(error),
    }
}
