//! The pieces that texts are made of.

ghost use Rattle.std.specs.Prelude.{◌≡◌, ◌≤◌, IfOk, IsSome, Some, length};
ghost use Rattle.uca_rules.specs.declared.characters.Character.{Character};
ghost use Rattle.uca_rules.specs.Pieces;
ghost use Rattle.uca_rules.specs.inside.Views.{Takes, escaped_piece, one_symbol, slice_view};

use crate::characters::{Character, Symbol, is_white};
use std::alloc::{AllocError, Allocator};

/// Whether a piece may begin with the character. A piece of a starred text may also begin with `-`.
pub(crate) fn begins_piece(starred: bool, c: char) -> bool
    ensures { result ≡ Pieces.begins_piece starred c }
{
    c == '\'' || c == '\\' || is_plain(c) || (starred && c == '-')
}

/// An ASCII letter or digit, or a character from U+0080 on that is not white space.
fn is_plain(c: char) -> bool
    ensures { result ≡ Pieces.is_plain c }
{
    c.is_ascii_digit()
        || c.is_ascii_uppercase()
        || c.is_ascii_lowercase()
        || (c >= '\u{80}' && !is_white(c))
}

/// Writes the only symbol of a piece after the other symbols, and returns the characters after the piece.
fn push_symbol<'a, A: Allocator>(
    symbols: &mut Vec<Symbol, A>,
    symbol: Symbol,
    rest: &'a [Character],
) -> Result<Option<&'a [Character]>, AllocError>
    ensures { IfOk result (λ found. Takes symbols.old.items symbols.new.items (slice_view found) (Some (one_symbol symbol rest.now))) }
{
    symbols.push(symbol)?;
    Ok(Some(rest))
}

/// Takes the piece at the front: its symbols are written after those that are there. Returns the characters after the
/// piece, or `None` if there is no piece.
pub(crate) fn take_piece<'a, A: Allocator>(
    symbols: &mut Vec<Symbol, A>,
    characters: &'a [Character],
    starred: bool,
) -> Result<Option<&'a [Character]>, AllocError>
    ensures { IfOk result (λ found. Takes symbols.old.items symbols.new.items (slice_view found) (Pieces.piece_at starred characters.now)) }
{
    let Some((first, after)) = characters.split_first() else {
        return Ok(None);
    };
    if first.code == '\'' {
        return after_apostrophe(symbols, *first, after);
    }
    if first.code == '\\' {
        return after_backslash(symbols, *first, after);
    }
    if is_plain(first.code) {
        return push_symbol(symbols, Symbol::Literal(*first), after);
    }
    if starred && first.code == '-' {
        return push_symbol(symbols, Symbol::Hyphen(first.place), after);
    }
    Ok(None)
}

/// After an apostrophe: another one, and both stand for an apostrophe, or the inside of quotes.
fn after_apostrophe<'a, A: Allocator>(
    symbols: &mut Vec<Symbol, A>,
    first: Character,
    characters: &'a [Character],
) -> Result<Option<&'a [Character]>, AllocError>
    ensures { IfOk result (λ found. Takes symbols.old.items symbols.new.items (slice_view found) (Pieces.after_apostrophe first characters.now)) }
{
    let Some((second, after)) = characters.split_first() else {
        return Ok(None);
    };
    if second.code == '\'' {
        return push_symbol(symbols, Symbol::Literal(first), after);
    }
    inside_quotes(symbols, characters)
}

/// The inside of quotes, up to the next single apostrophe.
fn inside_quotes<'a, A: Allocator>(
    symbols: &mut Vec<Symbol, A>,
    characters: &'a [Character],
) -> Result<Option<&'a [Character]>, AllocError>
    ensures { IfOk result (λ found. Takes symbols.old.items symbols.new.items (slice_view found) (Pieces.inside_quotes characters.now)) }
{
    let mut at = 0;
    while at < characters.len() {
        let c = characters[at];
        at += 1;
        if c.code == '\'' {
            if at == characters.len() || characters[at].code != '\'' {
                return Ok(Some(&characters[at..]));
            }
            at += 1;
        }
        symbols.push(Symbol::Literal(c))?;
    }
    Ok(None)
}

/// After a backslash: the character that the escape stands for is one symbol.
fn after_backslash<'a, A: Allocator>(
    symbols: &mut Vec<Symbol, A>,
    first: Character,
    characters: &'a [Character],
) -> Result<Option<&'a [Character]>, AllocError>
    ensures { IfOk result (λ found. Takes symbols.old.items symbols.new.items (slice_view found) (Pieces.after_backslash first characters.now)) }
{
    let Some((code, rest)) = escaped(characters) else {
        return Ok(None);
    };
    let place = first.place;
    push_symbol(symbols, Symbol::Literal(Character { code, place }), rest)
}

/// What an escape stands for: `u` and four digits, `U` and eight, or another character, which stands for itself. The
/// characters after it are returned too.
fn escaped(characters: &[Character]) -> Option<(char, &[Character])>
    ensures { (first : Character) → escaped_piece first result ≡ Pieces.after_backslash first characters.now }
{
    let (second, after) = characters.split_first()?;
    match second.code {
        'u' => escaped_number(after, 4),
        'U' => escaped_number(after, 8),
        code => Some((code, after)),
    }
}

/// The code point of an escape with this number of digits, and the characters after it.
fn escaped_number(characters: &[Character], count: usize) -> Option<(char, &[Character])>
    requires { count ≤ 8 }
    ensures { (first : Character) → escaped_piece first result ≡ Pieces.numbered first count characters.now }
{
    let code = numbered(characters, count)?;
    Some((code, &characters[count..]))
}

/// The code point of `count` hexadecimal digits at the front.
fn numbered(characters: &[Character], count: usize) -> Option<char>
    requires { count ≤ 8 }
    ensures number { result ≡ Pieces.number_at count characters.now }
    ensures enough { IsSome result → count ≤ length characters.now }
{
    if characters.len() < count {
        return None;
    }
    let mut value = 0;
    for at in 0..count {
        value = value * 16 + characters[at].code.to_digit(16)?;
    }
    char::from_u32(value)
}
