//! Normalizes a text: Normalization Form D, the class of each code point, and the limits.
ghost use Rattle.std.specs.Prelude.{◌≡◌, ◌≤◌, [], chars, length, map, IfOk, IfErr, OnOk, OnErr};
ghost use Rattle.std.specs.List.{AllByRecursion};
ghost use Rattle.std.specs.Char.{IsScalar};
ghost use Rattle.unicode_normalization.specs.Forms.{nfd};
ghost use Rattle.uca_values.specs.Content.{properties_of};
ghost use Rattle.uca_values.specs.Ranges.{class_in};
ghost use Rattle.uca_text.specs.Texts.{nfd_text};
ghost use Rattle.uca_text.specs.Limits.{IsAccepted, IsNormal, HasNoLongRun};
ghost use Rattle.uca_text.specs.Faults.{IsCause};
ghost use Rattle.uca_text.specs.FaultText.{text_fault_text};

use crate::Normal;
use crate::decompositions::decompose;
use std::alloc::{AllocError, AllocFailed, Allocator, Global};
use std::fmt;
use thiserror::Error;
use uca_values::Data;
use uca_weights::Message;

/// How many code points a text may have in Normalization Form D.
const LONGEST_TEXT: usize = 1_048_576;

/// How many non-starters may come in a row.
const LONGEST_RUN: usize = 64;

/// Why a text is rejected.
#[derive(Clone, Copy, Debug, PartialEq, Eq, Error)]
pub enum TextFault {
    /// It has more than 1,048,576 code points in Normalization Form D.
    TooLong,
    /// More than 64 non-starters come in a row. The number is the index, from 0, of the first of them
    /// in Normalization Form D, and the run is the first such run.
    LongRun(u32),
    /// An allocation failed.
    Memory,
}

impl TextFault {
    /// Its text: `TooLong`, `LongRun at 12`.
    pub fn message(&self) -> Message
        ensures text { result ≡ text_fault_text self.now }
        ensures short { length result ≤ 40 }
    {
        match self {
            TextFault::TooLong => Message::of("TooLong"),
            TextFault::LongRun(place) => Message::of("LongRun at ").number((*place).into()),
            TextFault::Memory => Message::of("Memory"),
        }
    }
}

impl fmt::Display for TextFault {
    ghost use Rattle.std.specs.Prelude.{Some};

    ghost output = { λ fault. Some (text_fault_text fault) };

    fn fmt<W: fmt::Write>(&self, f: &mut fmt::Formatter<W>) -> fmt::Result {
        f.write_str(self.message().as_str())
    }
}

impl From<AllocError> for TextFault {
    ghost use Rattle.std.specs.Prelude.{◌≡◌};
    ghost use Rattle.uca_text.specs.declared.normalize.TextFault.TheVariants.{Memory};

    ghost from_gives = { λ _ fault. fault ≡ Memory };

    fn from(_error: AllocError) -> TextFault {
        TextFault::Memory
    }
}

impl<T: Drop> From<AllocFailed<T>> for TextFault {
    ghost use Rattle.std.specs.Prelude.{◌≡◌};
    ghost use Rattle.uca_text.specs.declared.normalize.TextFault.TheVariants.{Memory};

    ghost from_gives = { λ _ fault. fault ≡ Memory };

    fn from(_error: AllocFailed<T>) -> TextFault {
        TextFault::Memory
    }
}

/// The text in Normalization Form D, with the classes that `properties` gives its code points.
///
/// # Errors
///
/// - `TooLong`: the text has more than 1,048,576 code points in Normalization Form D.
/// - `LongRun`: otherwise, more than 64 non-starters come in a row there.
/// - `Memory`: an allocation failed.
pub fn normal<A: Allocator>(
    alloc: Global,
    text: &str,
    properties: &Data<A>,
) -> Result<Normal, TextFault>
    ensures found { IfOk result (λ n. n ≡ nfd_text (properties_of properties.now) (chars text.now)) }
    ensures accepted { IfOk result IsAccepted }
    ensures fault { IfErr result (IsCause (nfd_text (properties_of properties.now) (chars text.now))) }
{
    let mut normal = Normal::new(alloc);
    match normal.renew(text, properties) {
        Ok(()) => Ok(normal),
        Err(fault) => {
            drop(normal);
            Err(fault)
        }
    }
}

impl Normal {
    /// Takes another text in place of this one, as [`normal`] makes it, in the memory that this one has.
    ///
    /// # Errors
    ///
    /// Those of [`normal`]. This text is then empty.
    pub fn renew<A: Allocator>(&mut self, text: &str, properties: &Data<A>) -> Result<(), TextFault>
        ensures found { OnOk result (self.new ≡ nfd_text (properties_of properties.now) (chars text.now)) }
        ensures accepted { IsAccepted self.new }
        ensures fault { IfErr result (IsCause (nfd_text (properties_of properties.now) (chars text.now))) }
        ensures emptied { OnErr result (self.new ≡ record { points = []; classes = [] }) }
    {
        if let Err(fault) = normalize_into(
            &mut self.chars,
            &mut self.spare,
            &mut self.classes,
            text,
            properties,
        ) {
            self.chars.clear();
            self.classes.clear();
            return Err(fault);
        }
        Ok(())
    }
}

/// Replaces the contents of the two lists by the normalized text and its classes. `spare` only lends its memory.
fn normalize_into<A: Allocator>(
    points: &mut Vec<char>,
    spare: &mut Vec<char>,
    classes: &mut Vec<u8>,
    text: &str,
    properties: &Data<A>,
) -> Result<(), TextFault>
    ensures points { OnOk result (points.new.items ≡ nfd (chars text.now)) }
    ensures classes { OnOk result (classes.new.items ≡ map (class_in properties.now.classes) (nfd (chars text.now))) }
    ensures normal { OnOk result (IsNormal (record { points = points.new.items; classes = classes.new.items })) }
    ensures fault { IfErr result (IsCause (nfd_text (properties_of properties.now) (chars text.now))) }
{
    match decompose(points, spare, text) {
        Ok(()) => {
            if points.len() > LONGEST_TEXT {
                return Err(TextFault::TooLong);
            }
            classify(classes, points, properties)
        }
        Err(_) => Err(TextFault::Memory),
    }
}

/// Writes the class of each code point, unless more than 64 non-starters come in a row.
fn classify<A: Allocator>(
    classes: &mut Vec<u8>,
    points: &[char],
    properties: &Data<A>,
) -> Result<(), TextFault>
    requires { length points.now ≤ 1048576 }
    ensures found { OnOk result (classes.new.items ≡ map (class_in properties.now.classes) points.now) }
    ensures short_runs { OnOk result (HasNoLongRun classes.new.items) }
    ensures scalars { OnOk result (AllByRecursion IsScalar points.now) }
    ensures fault { IfErr result (IsCause (record { points = points.now; classes = map (class_in properties.now.classes) points.now })) }
{
    classes.clear();
    classes.reserve(points.len())?;
    let mut run = 0;
    for (place, point) in points.iter().enumerate() {
        let class = properties.class(*point);
        classes.push(class)?;
        if class == 0 {
            run = 0;
        } else if run < LONGEST_RUN {
            run += 1;
        } else {
            return Err(TextFault::LongRun((place - LONGEST_RUN) as u32));
        }
    }
    Ok(())
}
