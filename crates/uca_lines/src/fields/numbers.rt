//! Reads numbers of a file, such as `1C47`, from their digits, and gives the digits of a number.

ghost use Rattle.std.specs.Prelude.{◌≡◌, ◌-◌, ◌*◌, ◌≤◌, ◌<◌, ◌^◌, ◌%◌, length, IfSome, [], ◌∷◌};
ghost use Rattle.uca_lines.specs.inside.DigitValues.{value_or_more, number_or_more};
ghost use Rattle.uca_lines.specs.Numbers.{hex_of, code_point_of, weight_of, decimal_of, class_of, upper_digit, digits, point_width};

/// The code point that a word of four to six digits stands for; `None` if the word is another text, a
/// surrogate or a number above 10FFFF.
pub fn code_point(word: &[u8]) -> Option<char>
    ensures { result ≡ code_point_of word.now }
{
    if word.len() < 4 || word.len() > 6 {
        return None;
    }
    char::from_u32(hexadecimal(word)?)
}

/// The weight that a word of four digits stands for; `None` if the word is another text.
pub fn weight(word: &[u8]) -> Option<u16>
    ensures { result ≡ weight_of word.now }
{
    if word.len() != 4 {
        return None;
    }
    let number = hexadecimal(word)?;
    Some(number as u16)
}

/// The combining class, 1 to 254, that a word of decimal digits stands for; `None` if the word is
/// another text, begins with 0, or stands for another number.
pub fn class_number(word: &[u8]) -> Option<u8>
    ensures { result ≡ class_of word.now }
{
    if word.len() > 3 || word.first() == Some(&b'0') {
        return None;
    }
    let number = decimal(word)?;
    if number == 0 || number > 254 {
        return None;
    }
    Some(number as u8)
}

/// The byte that two digits stand for; `None` if one of the two is no digit.
#[inline]
pub fn hexadecimal_byte(high: u8, low: u8) -> Option<u8>
    ensures { result ≡ hex_of (high ∷ low ∷ []) }
{
    let number = value(high) * 16 + value(low);
    if number >= NO {
        return None;
    }
    Some(number as u8)
}

// The number that four to six digits stand for.
fn hexadecimal(word: &[u8]) -> Option<u32>
    requires least { 4 ≤ length word.now }
    requires most { length word.now ≤ 6 }
    ensures number { result ≡ hex_of word.now }
    ensures small { IfSome result (λ n. n < 16 ^ length word.now) }
{
    let number = number_or_more(word);
    if number >= NO {
        return None;
    }
    Some(number as u32)
}

// The number that four to six digits stand for, or `NO` or more if a byte is no digit.
fn number_or_more(word: &[u8]) -> u64
    requires least { 4 ≤ length word.now }
    requires most { length word.now ≤ 6 }
    ensures { result ≡ number_or_more 0 word.now }
{
    match word {
        [a, b, c, d] => four_values(*a, *b, *c, *d),
        [a, b, c, d, e] => four_values(*a, *b, *c, *d) * 16 + value(*e),
        [a, b, c, d, e, f] => (four_values(*a, *b, *c, *d) * 16 + value(*e)) * 16 + value(*f),
        _ => NO,
    }
}

fn four_values(a: u8, b: u8, c: u8, d: u8) -> u64
    ensures number { result ≡ number_or_more 0 (a ∷ b ∷ c ∷ d ∷ []) }
    ensures small { result ≤ 0x1111 * NO }
{
    ((value(a) * 16 + value(b)) * 16 + value(c)) * 16 + value(d)
}

// The value of a digit. That of another byte is `NO`.
#[inline]
fn value(byte: u8) -> u64
    ensures value { result ≡ value_or_more byte }
    ensures small { result ≤ NO }
{
    VALUES[byte as usize]
}

// The value of a byte that is no digit: more than any number of six digits.
const NO: u64 = 0x100_0000;

// The value of each byte.
#[rattlefmt::skip]
static VALUES: [u64; 256] = [
    NO, NO, NO, NO, NO, NO, NO, NO, NO, NO, NO, NO, NO, NO, NO, NO,
    NO, NO, NO, NO, NO, NO, NO, NO, NO, NO, NO, NO, NO, NO, NO, NO,
    NO, NO, NO, NO, NO, NO, NO, NO, NO, NO, NO, NO, NO, NO, NO, NO,
    0, 1, 2, 3, 4, 5, 6, 7, 8, 9, NO, NO, NO, NO, NO, NO,
    NO, 10, 11, 12, 13, 14, 15, NO, NO, NO, NO, NO, NO, NO, NO, NO,
    NO, NO, NO, NO, NO, NO, NO, NO, NO, NO, NO, NO, NO, NO, NO, NO,
    NO, NO, NO, NO, NO, NO, NO, NO, NO, NO, NO, NO, NO, NO, NO, NO,
    NO, NO, NO, NO, NO, NO, NO, NO, NO, NO, NO, NO, NO, NO, NO, NO,
    NO, NO, NO, NO, NO, NO, NO, NO, NO, NO, NO, NO, NO, NO, NO, NO,
    NO, NO, NO, NO, NO, NO, NO, NO, NO, NO, NO, NO, NO, NO, NO, NO,
    NO, NO, NO, NO, NO, NO, NO, NO, NO, NO, NO, NO, NO, NO, NO, NO,
    NO, NO, NO, NO, NO, NO, NO, NO, NO, NO, NO, NO, NO, NO, NO, NO,
    NO, NO, NO, NO, NO, NO, NO, NO, NO, NO, NO, NO, NO, NO, NO, NO,
    NO, NO, NO, NO, NO, NO, NO, NO, NO, NO, NO, NO, NO, NO, NO, NO,
    NO, NO, NO, NO, NO, NO, NO, NO, NO, NO, NO, NO, NO, NO, NO, NO,
    NO, NO, NO, NO, NO, NO, NO, NO, NO, NO, NO, NO, NO, NO, NO, NO,
];

// The number that at most three decimal digits stand for.
fn decimal(word: &[u8]) -> Option<u16>
    requires { length word.now ≤ 3 }
    ensures number { result ≡ decimal_of word.now }
    ensures small { IfSome result (λ n. n < 10 ^ length word.now) }
{
    let mut number = 0;
    for byte in word {
        number = number * 10 + decimal_digit(*byte)?;
    }
    Some(number)
}

fn decimal_digit(byte: u8) -> Option<u16>
    ensures { result ≡ decimal_of (byte ∷ []) }
{
    match byte {
        b'0'..=b'9' => Some(u16::from(byte - b'0')),
        _ => None,
    }
}

/// The last six digits of a number.
pub fn six_digits(number: u32) -> [u8; 6]
    ensures { result ≡ digits 6 number }
{
    [
        last_digit(number / 0x10_0000),
        last_digit(number / 0x1_0000),
        last_digit(number / 0x1000),
        last_digit(number / 0x100),
        last_digit(number / 0x10),
        last_digit(number),
    ]
}

/// How many of the six digits of a code point ([`six_digits`]) its text leaves out at the front. The text has four
/// digits, or as many as the code point needs.
#[inline]
pub fn spare_digits(point: char) -> usize
    ensures { result ≡ 6 - point_width point }
{
    if point < '\u{10000}' {
        2
    } else if point < '\u{100000}' {
        1
    } else {
        0
    }
}

/// The digits of a number of 16 bits.
pub fn four_digits(number: u16) -> [u8; 4]
    ensures { result ≡ digits 4 number }
{
    let number = u32::from(number);
    [
        last_digit(number / 0x1000),
        last_digit(number / 0x100),
        last_digit(number / 0x10),
        last_digit(number),
    ]
}

// The last upper-case hexadecimal digit of a number.
fn last_digit(number: u32) -> u8
    ensures { result ≡ upper_digit (number % 16) }
{
    let value = (number % 16) as u8;
    if value < 10 {
        b'0' + value
    } else {
        b'A' + (value - 10)
    }
}
