//! `TextComparer`: comparison of many texts. Texts of plain code points are not normalized first.
//!
//! Each plain code point with which both texts begin is looked up once (`shared`). Say that at most 32 bytes of each
//! text are left: so few bytes have no run of marks that is too long. If the first elements there differ at level 1,
//! no more is read (`primaries`). Otherwise code points with the same weight at level 1 in both texts are passed, and
//! the next ones are looked at in the same way.
//!
//! If that does not decide, the elements of both rests are walked as `compare` walks them (`plain_comparison`). A
//! pair with a code point that is not plain is normalized first.
//!
//! Of two texts that are the same bytes only the elements are counted, since the result has their number. So each code
//! point is looked up, which also judges the text. Where one is not in the cache or not plain, the text is normalized
//! once (`normals`).
//!
//! With numbers by value, two texts are compared in this way if neither has a digit. Otherwise both are written by
//! value first (`uca_numbers`), and compared so by their weights. At an identical level the code points of the texts
//! themselves come after that (`points`), so `7` and `007` differ there alone.
//!
//! A `TextComparer` keeps its collator. A `TextComparison` does without, for whatever lends one (`comparison`): an owned
//! collator, or the command `uca compare`.
//!
//! Whoever needs no numbers of elements asks `order_beginnings` first. It looks up only the code points that come after
//! what two short texts have in common (`beginnings`). Whoever knows how many bytes they share asks
//! `order_after`. Whoever compares many texts calls `learn_heads` before: one array then has the weights at level 1 of the
//! code points up to U+07FF (`heads`). Another one has a head for each byte. By that the first bytes that differ are looked
//! at first (`firsts`), then code points of ASCII (`ascii`), and then the others. All but these 2,048 are looked up where
//! those of all texts so far are kept (`next`). Whoever asks for the first bytes alone asks `order_at_once`.
#![tactic(auto)]

mod ascii;
mod beginnings;
mod comparison;
mod decided;
mod faults;
mod firsts;
mod heads;
mod itself;
mod next;
mod normals;
mod plain_comparison;
mod points;
mod primaries;
mod shared;
mod text_comparer;

pub use comparison::TextComparison;
pub use faults::PairFault;
pub use heads::{Head, Heads};
pub use plain_comparison::PlainComparison;
pub use text_comparer::TextComparer;
