//! `Normal`: a text in Normalization Form D, which is ready to be collated.

use std::alloc::{AllocError, Global};
use std::fmt;
use std::marker::Model;

/// A text in Normalization Form D (UAX #15), with the canonical combining class of each of its code points.
/// The code points are Unicode scalar values, there are at most 1,048,576 of them, and at most 64
/// non-starters come in a row.
#[derive(Drop)]
pub struct Normal {
    pub(crate) chars: Vec<char>,
    pub(crate) classes: Vec<u8>,
    // Memory for the next text. Its contents do not matter.
    pub(crate) spare: Vec<char>,
}

impl Model for Normal {
    ghost use Rattle.uca_text.specs.Texts.{NfdText};
    ghost use Rattle.uca_text.specs.Limits.{IsNormal};

    ghost Value = { NfdText };

    ghost view = { λ n. record { points = n.chars.items; classes = n.classes.items } };

    ghost invariant = { λ n. IsNormal (record { points = n.chars.items; classes = n.classes.items }) };
}

impl Normal {
    ghost use Rattle.std.specs.Prelude.{◌≡◌, []};
    ghost use Rattle.std.specs.List.{AllByRecursion};
    ghost use Rattle.std.specs.Char.{IsScalar};
    ghost use Rattle.uca_text.specs.Limits.{IsAccepted};

    /// The empty text. It takes no memory.
    pub fn new(alloc: Global) -> Normal
        ensures { result ≡ record { points = []; classes = [] } }
    {
        Normal {
            chars: Vec::new(alloc),
            classes: Vec::new(alloc),
            spare: Vec::new(alloc),
        }
    }

    /// The code points, in Normalization Form D.
    pub fn chars(&self) -> &[char]
        ensures value { result.now ≡ self.now.points }
        ensures accepted { IsAccepted self.now }
        ensures scalars { AllByRecursion IsScalar self.now.points }
    {
        self.chars.as_slice()
    }

    /// The canonical combining class of each code point, 0 to 254.
    pub fn classes(&self) -> &[u8]
        ensures value { result.now ≡ self.now.classes }
        ensures accepted { IsAccepted self.now }
    {
        self.classes.as_slice()
    }
}

/// The copy has the same code points and classes, in memory of its own.
impl Clone for Normal {
    ghost use Rattle.std.specs.Prelude.{◌≡◌};

    ghost is_clone = { λ text copy. copy ≡ text };

    fn clone(&self) -> Result<Normal, AllocError> {
        let alloc = *self.chars.allocator();
        Ok(Normal {
            chars: Vec::from_slice(alloc, &self.chars)?,
            classes: Vec::from_slice(alloc, &self.classes)?,
            spare: Vec::new(alloc),
        })
    }
}

impl fmt::Debug for Normal {
    fn fmt<W: fmt::Write>(&self, f: &mut fmt::Formatter<W>) -> fmt::Result {
        f.debug_struct("Normal")
            .field("chars", &self.chars)
            .field("classes", &self.classes)
            .finish()
    }
}
