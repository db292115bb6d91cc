//! Rules that are read, and the relations that they mean, each with its anchor.

use crate::answers::{check_all, classes, said};
use std::test::Fail;
use test_kit::same;

const RELATIONS: &str = r"-- No relations.
 | nothing
(9)(20)(200E)#x | nothing
-- The anchor is the text of the reset, and then the target before.
&[before 1]a < x < y = z | before a < x; x < y; y = z
&a < b << c <<< d = e &f < g | a < b; b << c; c <<< d; d = e; f < g
&a<b<<c<<<d=e&f<g | a < b; b << c; c <<< d; d = e; f < g
&[before 2]a << x < y &b < z | before a << x; x < y; b < z
&[before 3]a <<< x &[before 1]a < y | before a <<< x; before a < y
-- An expansion is no part of an anchor.
&a < x / b | a < x / b
&a < x / b < y/c | a < x / b; x < y / c
&A = x/\u0301 | A = x / (301.230)
-- A target may occur in order in texts that are themselves targets of earlier relations.
&a < dzs <<< Dzs &b < zs | a < dzs; dzs <<< Dzs; b < zs
&a < bc &d < e / bc &f < c | a < bc; d < e / bc; f < c
-- A target occurs in no shorter text, and in no text in another order.
&a < ba | a < ba
&ab < ba | ab < ba
&ab < cb | ab < cb";

const GAPS: &str = r"-- All white space is skipped between parts.
(9)&(A)a(B) <(C) b(20)(D)<<(85)c(200E)=(200F)d(2028)/(2029)e(20) | a < b; b << c; c = d / e
& [before 1] a < b | before a < b
&[before 1](A)a < b | before a < b
-- A comment ends at U+000A, U+000C, U+000D, U+0085, U+2028 and U+2029, or with the rules.
&a < b #(A)< c #(C)< d #(D)< e #(85)< f #(2028)< g #(2029)< h | a < b; b < c; c < d; d < e; e < f; f < g; g < h
&a < b #(9)< c(B)< d(20)< e(200E)< f(200F)< g(1C)< h(2027)< i | a < b
-- Comments stand between all parts.
#(A)&#!(A)a#'(A)<#\(A)b#&(A)/#(E9)(A)c#(A)<<*##(A)de# | a < b / c; b << d; d << e
&#(A)[before 1]#(A)a < b | before a < b
-- A quoted or escaped number sign begins no comment.
&a < '#'\# < b | a < (23)(23); (23)(23) < b";

const TEXTS: &str =
    r"-- Plain are ASCII letters and digits, and from U+0080 on all that is no white space.
&aA0zZ9 < (AA) | aA0zZ9 < (AA)
&(FEFF) < (A0) < (80)(84)(86)(9F) < (3000) < (200B)(200D)(2010)(2027)(202A) | (FEFF) < (A0); (A0) < (80)(84)(86)(9F); (80)(84)(86)(9F) < (3000); (3000) < (200B)(200D)(2010)(2027)(202A)
&(10FFFF) < (E000) < (D7FF) < (FFFE) | (10FFFF) < (E000); (E000) < (D7FF); (D7FF) < (FFFE)
-- Apostrophes and quotes.
&a<''x | a < (27)x
&a < '''' | a < (27)(27)
&a < '''b' | a < (27)b
&a < 'b''' | a < b(27)
&a < 'b''c' | a < b(27)c
&a < ''b'' | a < (27)b(27)
&a < 'b'c'd'e | a < bcde
&' ' < '&<=/#[-' | (20) < (26)(3C)(3D)(2F)(23)(5B)(2D)
&a < '(A)\u0062\' | a < (A)(5C)u0062(5C)
-- Escapes.
&\u0061 < \U00000062\u00630 | a < bc0
&a < \u00e9\u00E9 | a < e(301.230)e(301.230)
&\U0010FFFF < \U0010fffe | (10FFFF) < (10FFFE)
&\uD7FF < \uE000 < \u0000 | (D7FF) < (E000); (E000) < (0)
&\t < \n < \x0041 < \\ < \' < \- | t < n; n < x0041; x0041 < (5C); (5C) < (27); (27) < (2D)
&\  < \&\<\=\/ < \#\[\* < \(E9) | (20) < (26)(3C)(3D)(2F); (26)(3C)(3D)(2F) < (23)(5B)(2A); (23)(5B)(2A) < e(301.230)
&a < \(A)\(200E) | a < (A)(200E)
-- A text is its Normalization Form D, over all of its pieces.
&(E9) < b(301)(323) | e(301.230) < b(323.220)(301.230)
&a < b'(301)'\u0323 | a < b(323.220)(301.230)
&a < x / (2126)(AC01) | a < x / (3A9)(1100)(1161)(11A8)
-- 16 code points in that form.
&abcdefghijklmnop < 'abcdefghijklmnoq'/abcdefghijklmn(E9) | abcdefghijklmnop < abcdefghijklmnoq / abcdefghijklmne(301.230)
&(AC01)(AC01)(AC01)(AC01)(AC01)a < b | (1100)(1161)(11A8)(1100)(1161)(11A8)(1100)(1161)(11A8)(1100)(1161)(11A8)(1100)(1161)(11A8)a < b";

const STARRED: &str = r"-- A starred text means the plain chain of its characters.
&a <* bcd-gp-s | a < b; b < c; c < d; d < e; e < f; f < g; g < p; p < q; q < r; r < s
&a < b < c < d < e < f < g < p < q < r < s | a < b; b < c; c < d; d < e; e < f; f < g; g < p; p < q; q < r; r < s
&[before 1]a <* xy | before a < x; x < y
&a<<*bc<<<*de=*f<*g | a << b; b << c; c <<< d; d <<< e; e = f; f < g
&a <* b-d << e < f/g | a < b; b < c; c < d; d << e; e < f / g
&[before 2]a <<* x-z &b =* c | before a << x; x << y; y << z; b = c
-- A quoted or escaped hyphen is a character.
&a <* b\-d | a < b; b < (2D); (2D) < d
&a <* b'-'d | a < b; b < (2D); (2D) < d
&a <* 'b-d' | a < b; b < (2D); (2D) < d
-- Ranges may begin and end at any piece.
&z <* 'ab'-d | z < a; a < b; b < c; c < d
&a <* b-'dx' | a < b; b < c; c < d; d < x
&a <* \u0062-\U00000064 | a < b; b < c; c < d
&a <* \!-''\+-\, | a < (21); (21) < (22); (22) < (23); (23) < (24); (24) < (25); (25) < (26); (26) < (27); (27) < (2B); (2B) < (2C)
&a <* b-c(D7FE)-(D7FF)(E000)-(E001) | a < b; b < c; c < (D7FE); (D7FE) < (D7FF); (D7FF) < (E000); (E000) < (E001)
-- Each character is a text of its own, in Normalization Form D.
&b <* (E1)a(301) | b < a(301.230); a(301.230) < a; a < (301.230)
&b <* (E0)-(E2) | b < a(300.230); a(300.230) < a(301.230); a(301.230) < a(302.230)
-- There may be more than 16.
&A <* a-tuvw | A < a; a < b; b < c; c < d; d < e; e < f; f < g; g < h; h < i; i < j; j < k; k < l; l < m; m < n; n < o; o < p; p < q; q < r; r < s; s < t; t < u; u < v; v < w";

#[test]
fn rules_that_are_read(rt: HostRuntime) -> Result<(), Fail> {
    check_all(rt.alloc(), &[RELATIONS, GAPS, TEXTS, STARRED])
}

/// Every kind of statement and piece, with more relations than a vector first has room for.
const EVERY_KIND: &str = r"# every kind
&[before 1]'b c' < \u0078''y\- / 'it''z' <<* p-su = \U000000E9f/g
&a <<< Aé#
&k << ''ab";

const EVERY_KIND_MEANS: &str =
    "before b(20)c < x(27)y(2D) / it(27)z; x(27)y(2D) << p; p << q; q << r; r << s; s << u; \
    u = e(301.230)f / g; a <<< Ae(301.230); k << (27)ab";

/// The reader takes the global allocator alone, so no heap of a test can make it run out of memory.
/// `rt try --test --fail-alloc N` rejects the Nth allocation of each test: then this one ends by `Memory`.
#[test]
fn rules_of_every_kind(rt: HostRuntime) -> Result<(), Fail> {
    let data = classes(rt.alloc())?;
    same(
        &said(rt.alloc(), &data, EVERY_KIND.as_bytes())?,
        EVERY_KIND_MEANS,
        "every kind",
    )
}
