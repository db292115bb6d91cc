//! Gives an element as its text, such as `[.1C47.0020.0002]`.

ghost use Rattle.std.specs.Prelude.{◌≡◌};
ghost use Rattle.uca_table.specs.CanonicalElements.{mark_byte, element_text};

use uca_lines::fields::four_digits;
use uca_weights::Element;

fn mark_byte(mark: bool) -> u8
    ensures { result ≡ mark_byte mark }
{
    if mark { b'*' } else { b'.' }
}

/// The text of an element: `[.1C47.0020.0002]`.
pub fn element_text(element: Element) -> [u8; 17]
    ensures { result ≡ element_text element }
{
    let mark = mark_byte(element.mark);
    let [p0, p1, p2, p3] = four_digits(element.primary);
    let [s0, s1, s2, s3] = four_digits(element.secondary);
    let [t0, t1, t2, t3] = four_digits(element.tertiary);
    [
        b'[', mark, p0, p1, p2, p3, b'.', s0, s1, s2, s3, b'.', t0, t1, t2, t3, b']',
    ]
}
