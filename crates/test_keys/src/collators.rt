//! Keys of texts of many lengths and of many code points, and collators that share a table. A body that says that
//! memory ran out, where none did, meets its contract. So lengths around powers of two and of ten are here, and
//! random ones. So it is with comparisons, and with orders of all byte strings: a text that is rejected has its own
//! error. Orders that are told at once are here too: no clause says when there is one.

use std::alloc::Global;
use std::cmp::Ordering;
use std::test::Fail;
use test_kit::{NUMBER_TABLE, bytes_of, holds, repeated, same_bytes, thirds};
use uca_owned::{CompareFault, KeyFault, OwnedCollator};
use uca_text::TextFault;
use uca_weights::{Asked, Depth, Numbers, Weighting};

const TABLE: &str = "@version 1\n\
    0061 ; [.1C47.0020.0002]\n\
    0062 ; [.1C60.0020.0002]\n";

const DATA: &str = "@data 1\n\
    ccc 0300..0300 230\n";

const MOST_LETTERS: usize = 140_000;

/// Powers of two and of ten, and round numbers.
const AROUND: &[usize] = &[
    1, 2, 4, 8, 10, 16, 32, 64, 100, 128, 256, 512, 1_000, 1_024, 2_048, 4_096, 8_192, 10_000,
    16_384, 32_768, 65_536, 70_000, 100_000, 131_072,
];

/// How many random lengths there are, below 8,192.
const RANDOM_LENGTHS: usize = 300;

/// How many pages of 256 code points a text has. A collator keeps something of each.
const PAGES: &[u32] = &[1, 2, 255, 256, 257, 400, 504];

/// Each of so many parts of a text has some bytes of the key, and there are four bytes between the levels.
fn check_length(
    collator: &mut OwnedCollator,
    text: &[u8],
    count: usize,
    bytes: usize,
) -> Result<(), Fail> {
    collator.make_key(text)?;
    let wanted = count.saturating_mul(bytes).saturating_add(4);
    holds(collator.key().len() == wanted, "the length of a key")
}

/// So many letters.
fn letters_of(letters: &str, count: usize) -> Result<&[u8], Fail> {
    Ok(letters.as_bytes().get(..count).ok_or("too few letters")?)
}

/// A letter has two bytes at each of three levels.
fn check_letters(collator: &mut OwnedCollator, letters: &str, count: usize) -> Result<(), Fail> {
    check_length(collator, letters_of(letters, count)?, count, 6)
}

fn check_around(collator: &mut OwnedCollator, letters: &str) -> Result<(), Fail> {
    for power in AROUND {
        check_letters(collator, letters, power.saturating_sub(1))?;
        check_letters(collator, letters, *power)?;
        check_letters(collator, letters, power.saturating_add(1))?;
    }
    Ok(())
}

fn check_random(collator: &mut OwnedCollator, letters: &str) -> Result<(), Fail> {
    let mut random: u32 = 1;
    for _ in 0..RANDOM_LENGTHS {
        random = random.wrapping_mul(1_664_525).wrapping_add(1_013_904_223);
        check_letters(collator, letters, (random >> 19) as usize)?;
    }
    Ok(())
}

fn check_lengths(collator: &mut OwnedCollator, letters: &str) -> Result<(), Fail> {
    check_around(collator, letters)?;
    check_random(collator, letters)
}

/// The first code point of a page of planes 2 and 3. It is a starter, and has no decomposition and no row.
fn first_of_page(page: u32) -> Result<char, Fail> {
    let start: u32 = if page < 248 { 0x2_0000 } else { 0x2_0800 };
    let code = page.saturating_mul(256).saturating_add(start);
    Ok(char::from_u32(code).ok_or("no code point")?)
}

fn text_of_pages(alloc: Global, pages: u32) -> Result<String, Fail> {
    let mut text = String::new(alloc);
    for page in 0..pages {
        text.push(first_of_page(page)?)?;
    }
    Ok(text)
}

/// Two elements of a code point without a row have four bytes at level 1, and two each at levels 2 and 3.
fn check_pages(alloc: Global, collator: &mut OwnedCollator, pages: u32) -> Result<(), Fail> {
    let text = text_of_pages(alloc, pages)?;
    check_length(collator, text.as_bytes(), pages as usize, 8)
}

/// Each of two collators keeps the key that it made last.
fn check_both(first: &mut OwnedCollator, other: &mut OwnedCollator) -> Result<(), Fail> {
    holds(other.key().is_empty(), "no key was made yet")?;
    first.make_key(b"a")?;
    other.make_key(b"b")?;
    let wanted = b"\x1C\x47\0\0\0\x20\0\0\0\x02".as_slice();
    holds(first.key() == wanted, "the key of the first one")?;
    let wanted = b"\x1C\x60\0\0\0\x20\0\0\0\x02".as_slice();
    holds(other.key() == wanted, "the key of the other one")?;
    let found = other.compare(b"a", b"b")?;
    holds(found == (Ordering::Less, 1), "a comparison")
}

fn check_other(first: &mut OwnedCollator, alloc: Global) -> Result<(), Fail> {
    let mut other = first.share(alloc)?;
    let found = check_both(first, &mut other);
    drop(other);
    found
}

/// Two texts, and the order that the first bytes that differ tell. They tell nothing (`-`) where a text is not UTF-8,
/// begins with the other, has more than 32 bytes or a code point of three. At most eight bytes may come before them.
const AT_ONCE: &str = r"a | b | <
ba | ab | >
ab | aa | >
a | a | -
a | ab | -
 | a | -
a\xFF | b | -
a | b\xFF | -
ab\xE6\x97\xA5 | b | -
aaaaaaaaa | aaaaaaaab | <
aaaaaaaaaa | aaaaaaaaab | -
aaaaaaaaaaaaaaa | b | <
b | aaaaaaaaaaaaaaa | >
aaaaaaaaaaaaaaaa | b | <
b | aaaaaaaaaaaaaaaa | >
aaaaaaaaaaaaaaaaaaaaaaaaaaaaaaaa | b | <
b | aaaaaaaaaaaaaaaaaaaaaaaaaaaaaaaa | >
aaaaaaaaaaaaaaaaaaaaaaaaaaaaaaaaa | b | -
b | aaaaaaaaaaaaaaaaaaaaaaaaaaaaaaaaa | -";

/// The order that a sign stands for. Before a collator knows the weights there is none.
fn order_of(sign: &str, is_known: bool) -> Option<Ordering> {
    match sign {
        "<" if is_known => Some(Ordering::Less),
        ">" if is_known => Some(Ordering::Greater),
        _ => None,
    }
}

fn check_at_once(alloc: Global, collator: &OwnedCollator, is_known: bool) -> Result<(), Fail> {
    for case in AT_ONCE.lines() {
        let (left, right, sign) = thirds(case)?;
        let (left, right) = (bytes_of(alloc, left)?, bytes_of(alloc, right)?);
        let found = collator.order_at_once(&left, &right);
        holds(found == order_of(sign, is_known), case)?;
    }
    Ok(())
}

/// Before two texts were compared by their weights, nothing is told.
fn check_before_and_after(alloc: Global, collator: &mut OwnedCollator) -> Result<(), Fail> {
    check_at_once(alloc, collator, false)?;
    let found = collator.compare(b"a", b"b")?;
    holds(found == (Ordering::Less, 1), "a comparison")?;
    check_at_once(alloc, collator, true)
}

/// Two byte strings and what is said of them: the sign of their order, and the level at which they differ. That is 0
/// where they are equal. In place of it stands which one is rejected, as it is not UTF-8.
const PAIRS: &str = r"a | b | < 1
b | a | > 1
a | a | = 0
 | a | < 1
a | \xFF | < right
\xFF | a | > left
\xFE | \xFF | < left
\xFF | \xFE | > left
\xFF | \xFF | = left
aaaaaaaaaaaaaaaa | aaaaaaaaaaaaaaaa | = 0
aaaaaaaaaaaaaaab | aaaaaaaaaaaaaaaa | > 1
aaaaaaaaaaaaaaaa | \xFF | < right
aaaaaaaaaaaaaaa\xFE | aaaaaaaaaaaaaaa\xFE | = left
aaaaaaaaaaaaaaaaaaaaaaaaaaaaaaaa | aaaaaaaaaaaaaaaaaaaaaaaaaaaaaaaa | = 0
aaaaaaaaaaaaaaaaaaaaaaaaaaaaaaaa | aaaaaaaaaaaaaaaaaaaaaaaaaaaaaaab | < 1
aaaaaaaaaaaaaaaaaaaaaaaaaaaaaaaaa | aaaaaaaaaaaaaaaaaaaaaaaaaaaaaaaaa | = 0
aaaaaaaaaaaaaaaaaaaaaaaaaaaaaaaab | aaaaaaaaaaaaaaaaaaaaaaaaaaaaaaaaa | > 1
\xFF | aaaaaaaaaaaaaaaaaaaaaaaaaaaaaaaaa | > left";

/// Such rows by value: 10 has two digits.
const NUMBER_PAIRS: &str = r"a2 | a10 | < 1
a10 | a2 | > 1
a10 | a10 | = 0
a10 | \xFF | < right";

fn sign_of(order: Ordering) -> &'static str {
    match order {
        Ordering::Less => "<",
        Ordering::Equal => "=",
        Ordering::Greater => ">",
    }
}

/// What a row has after the sign.
fn said_of(found: Result<(Ordering, u8), CompareFault>) -> &'static str {
    match found {
        Ok((_, 0)) => "0",
        Ok((_, 1)) => "1",
        Err(CompareFault::Left(KeyFault::Utf8)) => "left",
        Err(CompareFault::Right(KeyFault::Utf8)) => "right",
        _ => "another answer",
    }
}

fn check_pair(
    collator: &mut OwnedCollator,
    left: &[u8],
    right: &[u8],
    wanted: &str,
) -> Result<(), Fail> {
    let order = collator.order(left, right)?;
    let found = collator.compare(left, right);
    let same = match found {
        Ok(pair) => pair.0 == order,
        Err(_) => true,
    };
    let is_wanted = wanted.starts_with(sign_of(order)) && wanted.ends_with(said_of(found));
    holds(same && is_wanted, wanted)
}

fn check_pairs(alloc: Global, collator: &mut OwnedCollator, pairs: &str) -> Result<(), Fail> {
    for case in pairs.lines() {
        let (left, right, wanted) = thirds(case)?;
        let (left, right) = (bytes_of(alloc, left)?, bytes_of(alloc, right)?);
        check_pair(collator, &left, &right, wanted)?;
    }
    Ok(())
}

/// 70,000 letters, and one more.
fn check_long_pairs(collator: &mut OwnedCollator, letters: &str) -> Result<(), Fail> {
    let long = letters_of(letters, 70_000)?;
    let longer = letters_of(letters, 70_001)?;
    check_pair(collator, long, longer, "< 1")?;
    check_pair(collator, longer, longer, "= 0")?;
    check_pair(collator, b"\xFF", long, "> left")
}

/// 65 marks in a row are rejected at the first of them. Their first byte is CC.
fn check_marks(collator: &mut OwnedCollator, marks: &[u8]) -> Result<(), Fail> {
    let fault = KeyFault::Text(TextFault::LongRun(0));
    holds(collator.make_key(marks) == Err(fault), "a key of marks")?;
    let found = collator.compare(marks, b"a");
    holds(found == Err(CompareFault::Left(fault)), "marks on the left")?;
    let found = collator.compare(b"a", marks);
    holds(
        found == Err(CompareFault::Right(fault)),
        "marks on the right",
    )?;
    holds(
        collator.order(marks, b"a")? == Ordering::Greater,
        "after a text",
    )?;
    holds(
        collator.order(b"a", marks)? == Ordering::Less,
        "a text before",
    )?;
    holds(
        collator.order(marks, b"\xFF")? == Ordering::Less,
        "no texts",
    )
}

/// The levels of the key of `ba`, one letter after the other.
fn check_levels(collator: &mut OwnedCollator) -> Result<(), Fail> {
    holds(collator.make_levels(b"ba")?, "the levels of two letters")?;
    let levels = collator.levels();
    same_bytes(levels.primary, b"\x1C\x60\x1C\x47", "level 1")?;
    same_bytes(levels.secondary, b"\0\x20\0\x20", "level 2")?;
    same_bytes(levels.tertiary, b"\0\x02\0\x02", "level 3")
}

/// The byte FF is in no UTF-8.
fn check_no_levels(collator: &mut OwnedCollator) -> Result<(), Fail> {
    holds(!collator.make_levels(b"a\xFF")?, "levels of no UTF-8")?;
    let found = collator.make_key(b"a\xFF");
    holds(found == Err(KeyFault::Utf8), "a key of no UTF-8")
}

/// An error leaves a collator as it was.
fn check_levels_again(collator: &mut OwnedCollator) -> Result<(), Fail> {
    check_levels(collator)?;
    check_no_levels(collator)?;
    check_levels(collator)
}

/// 518 for each byte, and 8 more, as far as there is room: 35,611,475,045,771,335 is the greatest length with room.
fn check_bounds(collator: &OwnedCollator) -> Result<(), Fail> {
    holds(collator.key_bound(0) == 8, "no byte")?;
    holds(collator.key_bound(100) == 51_808, "a hundred bytes")?;
    let most = 35_611_475_045_771_335;
    holds(
        collator.key_bound(most) == usize::MAX - 77,
        "the most bytes",
    )?;
    holds(collator.key_bound(most + 1) == usize::MAX, "one byte more")
}

fn check_by_text(alloc: Global, collator: &mut OwnedCollator, letters: &str) -> Result<(), Fail> {
    check_bounds(collator)?;
    check_before_and_after(alloc, collator)?;
    check_levels_again(collator)?;
    check_other(collator, alloc)?;
    check_pairs(alloc, collator, PAIRS)?;
    check_long_pairs(collator, letters)?;
    check_marks(collator, repeated(alloc, "\u{300}", 65)?.as_bytes())?;
    check_lengths(collator, letters)
}

/// What a collator is opened for.
#[derive(Clone, Copy)]
enum Trial<'a> {
    /// All checks by text, with so many letters `a`.
    Text(&'a str),
    /// A text of so many pages.
    Pages(u32),
    /// Orders by value.
    Value,
}

fn check(alloc: Global, collator: &mut OwnedCollator, trial: Trial) -> Result<(), Fail> {
    match trial {
        Trial::Text(letters) => check_by_text(alloc, collator, letters),
        Trial::Pages(pages) => check_pages(alloc, collator, pages),
        Trial::Value => check_pairs(alloc, collator, NUMBER_PAIRS),
    }
}

/// Opens a collator and lends it to all checks. One function drops all of them: each more would be long to prove.
fn check_over(alloc: Global, table: &str, numbers: Numbers, trial: Trial) -> Result<(), Fail> {
    let asked = Asked {
        weighting: Some(Weighting::NonIgnorable),
        depth: Depth::Weights,
        numbers,
    };
    let mut collator = OwnedCollator::open(alloc, table.as_bytes(), DATA.as_bytes(), asked)?;
    let found = check(alloc, &mut collator, trial);
    drop(collator);
    found
}

#[test]
fn keys_levels_and_orders(rt: HostRuntime) -> Result<(), Fail> {
    let letters = repeated(rt.alloc(), "a", MOST_LETTERS)?;
    check_over(rt.alloc(), TABLE, Numbers::AsText, Trial::Text(&letters))
}

#[test]
fn texts_of_many_pages(rt: HostRuntime) -> Result<(), Fail> {
    for pages in PAGES {
        check_over(rt.alloc(), TABLE, Numbers::AsText, Trial::Pages(*pages))?;
    }
    Ok(())
}

#[test]
fn orders_by_value(rt: HostRuntime) -> Result<(), Fail> {
    check_over(rt.alloc(), NUMBER_TABLE, Numbers::ByValue, Trial::Value)
}
