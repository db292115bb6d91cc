//! Which texts are affected (`Affects`), and what is read of a text for that (`renew_text`).

ghost use Rattle.std.specs.Prelude.{◌≡◌, ℕ, Bool, List, OnOk, IfErr, chars};
ghost use Rattle.uca_values.specs.Content.{properties_of};
ghost use Rattle.uca_text.specs.Limits.{IsAccepted};
ghost use Rattle.uca_text.specs.Faults.{IsCause};
ghost use Rattle.uca_order.specs.Depths.{written_text};
ghost use Rattle.uca_changes.specs.AffectedTexts.{is_affected};

use std::alloc::Allocator;
use uca_numbers::WrittenText;
use uca_relations::Rules;
use uca_text::{Normal, TextFault};
use uca_values::Data;
use uca_weights::Numbers;

/// What affects some texts and no others.
pub trait Affects {
    ghost affects: { Self → List ℕ → Bool };

    /// Whether it affects a text.
    fn affects(&self, text: &Normal) -> bool
        ensures { result ≡ affects self.now text.now.points };
}

impl<A: Allocator> Affects for Rules<A> {
    ghost affects = { λ rules. is_affected rules };

    // A text is affected if a target of the rules occurs in it.
    fn affects(&self, text: &Normal) -> bool {
        !self.untouched(text)
    }
}

/// Makes the text what is read of a line, in Normalization Form D. With numbers by value that is the line with the code of
/// each number in place of it, and `written` has it.
///
/// # Errors
///
/// Those of [`normal`](uca_text::normal) for what is read.
pub fn renew_text<D: Allocator>(
    text: &mut Normal,
    written: &mut WrittenText,
    line: &str,
    numbers: Numbers,
    properties: &Data<D>,
) -> Result<(), TextFault>
    ensures found { OnOk result (text.new ≡ written_text numbers (properties_of properties.now) (chars line.now)) }
    ensures accepted { OnOk result (IsAccepted text.new) }
    ensures fault { IfErr result (IsCause (written_text numbers (properties_of properties.now) (chars line.now))) }
{
    match numbers {
        Numbers::AsText => text.renew(line, properties),
        Numbers::ByValue => {
            written.renew(line)?;
            text.renew(written.as_str(), properties)
        }
    }
}
