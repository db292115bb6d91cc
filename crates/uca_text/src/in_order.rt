//! Looking for the code points of one list in another, in their order.

ghost use Rattle.std.specs.Prelude.{◌↔◌, IsTrue};
ghost use Rattle.uca_text.specs.Occurring.{OccursInOrder};

/// Whether the part occurs in order in the text. For example, `ac` occurs in order in `abc`, and `ca` does not. All
/// code points of the part have to be in the text, in their order, and others may come between them. An empty part
/// occurs in every text. It takes no memory, and goes through the text once at most.
pub fn occurs_in_order(part: &[char], text: &[char]) -> bool
    ensures { IsTrue result ↔ OccursInOrder part.now text.now }
{
    let mut at = 0;
    for c in text {
        if at == part.len() {
            return true;
        }
        if *c == part[at] {
            at += 1;
        }
    }
    at == part.len()
}
