//! Plain code points: texts of them have the collation elements of their code points, each read alone. Here they are defined, and
//! `PointCache` keeps what is known of code points. Programs use it by `KeyWriter` and `TextComparer` of `uca_key`.
//!
//! - A code point is *plain* if it decomposes into a starter first, and no key has that starter after its first code point. So a
//!   text may be cut before it. Most code points of real texts are plain.
//! - A code point in Normalization Form D is a *leaf* if no longer key begins with it. A text of leaves reads as they do one by one.
//!
//! The table and the data file decide which code points are plain. A contraction that a tailoring adds may end that for a letter,
//! and so may a data file that gives it a class. `plain.rt` has the cache: an entry has the code point itself and room for three
//! elements, and a code point with more counts as bound. So what an entry says is true wherever it lies, and pages need no
//! invariant. Entries are in pages of 256, and a page is made when one of its code points is asked for. A page takes 8 KB, and the
//! cache of an input with every code point 35 MB.
#![tactic(auto)]

pub mod laws;
pub mod plain;
pub mod points;
