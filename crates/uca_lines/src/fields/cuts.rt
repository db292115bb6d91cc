//! Texts cut at blanks, at a byte, and at `..`.

ghost use Rattle.std.specs.Prelude.{◌≡◌, ◌==◌, MatchOption, None, Some, length, ◌≤◌};
ghost use Rattle.uca_lines.specs.Fields;

use memchr::memchr;

/// The text up to the first such byte, and the text from that byte on: the second part is empty, or
/// begins with the byte.
pub fn cut_at(text: &[u8], byte: u8) -> (&[u8], &[u8])
    ensures front { result.0.now ≡ Fields.up_to (λ b. b == byte) text.now }
    ensures back { result.1.now ≡ Fields.from_first (λ b. b == byte) text.now }
{
    match memchr(byte, text) {
        Some(at) => text.split_at(at),
        None => text.split_at(text.len()),
    }
}

/// The word at the front of the text, up to the first blank, and what follows it. The word is empty
/// if the text is empty or begins with a blank.
pub fn cut_word(text: &[u8]) -> (&[u8], &[u8])
    ensures word { result.0.now ≡ Fields.word_of text.now }
    ensures rest { result.1.now ≡ Fields.after_word text.now }
{
    for (at, b) in text.iter().enumerate() {
        if is_blank(*b) {
            return text.split_at(at);
        }
    }
    text.split_at(text.len())
}

/// The text without the blanks at its front.
pub fn skip_blanks(mut text: &[u8]) -> &[u8]
    ensures { result.now ≡ Fields.skip_blanks text.entry.now }
{
    while let [b' ' | b'\t', rest @ ..] = text {
        text = rest;
    }
    text
}

/// The text without the blanks at both ends.
pub fn trim(text: &[u8]) -> &[u8]
    ensures { result.now ≡ Fields.trim text.now }
{
    let mut text = skip_blanks(text);
    while let [front @ .., last] = text {
        if !is_blank(*last) {
            break;
        }
        text = front;
    }
    text
}

/// What a line says: without its comment, which begins at its first `#`, and without the blanks at both
/// ends.
pub fn line_text(line: &[u8]) -> &[u8]
    ensures { result.now ≡ Fields.text_of line.now }
{
    let (text, _) = cut_at(line, b'#');
    trim(text)
}

/// The text before and the text after the first `..`, if there is one.
pub fn halves(text: &[u8]) -> Option<(&[u8], &[u8])>
    ensures { MatchOption result (Fields.halves text.now ≡ None)
        (λ h. Fields.halves text.now ≡ Some (h.0.now, h.1.now)) }
{
    for at in 1..text.len() {
        if text[at - 1] == b'.' && text[at] == b'.' {
            return Some((&text[..at - 1], &text[at + 1..]));
        }
    }
    None
}

fn is_blank(byte: u8) -> bool
    ensures { result ≡ Fields.is_blank byte }
{
    byte == b' ' || byte == b'\t'
}
