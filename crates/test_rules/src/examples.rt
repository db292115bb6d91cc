//! The rules of `examples/`: the same texts, and the relations that they mean.

use crate::answers::{check_rules, classes};
use std::test::Fail;

const SPANISH: &str =
    "# Spanish, traditional order: the dictionaries of the Real Academia Española before the decision of 1994 of the
# Association of Academies. ch and ll are letters of their own, after c and l; ñ is one after n, then as now.
#
# For a table of all letters, such as allkeys.txt. It leaves out the spellings cH and lL (a lower-case letter before an
# upper-case one), which are read as two letters here.

& N < ñ <<< Ñ
& C < ch <<< Ch <<< CH
& L < ll <<< Ll <<< LL
";

const SPANISH_MEANS: &str =
    "N < n(303.230); n(303.230) <<< N(303.230); C < ch; ch <<< Ch; Ch <<< CH; L < ll; ll <<< Ll; \
    Ll <<< LL";

const SWEDISH: &str =
    "# Swedish: Svenska Akademiens ordlista, from its 13th edition (2006) on. å, ä and ö are letters of their own after z, in
# this order. æ is sorted as ä, ø as ö and ü as y: such letters differ at the second level alone.
#
# For a table of all letters, such as allkeys.txt. It has further letters after z: the click ǀ (U+01C0) begins another group
# of them. The three letters come directly before it. v and w are two letters there, and stay so; in older editions w was
# sorted as v.
#
# It leaves out letters of other languages that CLDR's data for Swedish names too: đ and ð as d, þ as th, ű as ü, ę as ä, ő,
# œ and ô as ö.

& Y << ü <<< Ü
&[before 1] ǀ
    < å <<< Å
    < ä <<< Ä << æ <<< Æ
    < ö <<< Ö << ø <<< Ø
";

const SWEDISH_MEANS: &str =
    "Y << u(308.230); u(308.230) <<< U(308.230); before (1C0) < a(30A.230); a(30A.230) <<< A(30A.230); \
    A(30A.230) < a(308.230); a(308.230) <<< A(308.230); A(308.230) << (E6); (E6) <<< (C6); \
    (C6) < o(308.230); o(308.230) <<< O(308.230); O(308.230) << (F8); (F8) <<< (D8)";

const DANISH: &str =
    "# Danish: Retskrivningsordbogen. æ, ø and å are letters of their own after z, in this order, and aa counts as å. ä is sorted
# as æ, ö as ø and ü as y. Where two words differ in case alone, the upper-case letter comes first: the first rules say so of
# each letter. Without them, and with each lower-case letter before its upper-case one below, it is Norwegian (Bokmålsordboka).
#
# For a table of all letters, such as allkeys.txt. The letters come directly before the click ǀ (U+01C0), after all others that
# such a table has after z.
#
# It leaves out three things. An aa that is two letters, as in a compound word, should be sorted as such, but no rule can see
# that. aA has no rule. Nor have the letters of other languages that CLDR names too, such as đ, ð, þ, ű, ę, ő and œ.

& A <<< a & B <<< b & C <<< c & D <<< d & E <<< e & F <<< f & G <<< g & H <<< h & I <<< i
& J <<< j & K <<< k & L <<< l & M <<< m & N <<< n & O <<< o & P <<< p & Q <<< q & R <<< r
& S <<< s & T <<< t & U <<< u & V <<< v & W <<< w & X <<< x & Y <<< y & Z <<< z

& Y << Ü <<< ü
&[before 1] ǀ
    < Æ <<< æ << Ä <<< ä
    < Ø <<< ø << Ö <<< ö
    < Å <<< AA <<< Aa <<< å <<< aa
";

const DANISH_MEANS: &str =
    "A <<< a; B <<< b; C <<< c; D <<< d; E <<< e; F <<< f; G <<< g; H <<< h; I <<< i; \
    J <<< j; K <<< k; L <<< l; M <<< m; N <<< n; O <<< o; P <<< p; Q <<< q; R <<< r; \
    S <<< s; T <<< t; U <<< u; V <<< v; W <<< w; X <<< x; Y <<< y; Z <<< z; \
    Y << U(308.230); U(308.230) <<< u(308.230); before (1C0) < (C6); (C6) <<< (E6); (E6) << A(308.230); \
    A(308.230) <<< a(308.230); a(308.230) < (D8); (D8) <<< (F8); (F8) << O(308.230); \
    O(308.230) <<< o(308.230); o(308.230) < A(30A.230); A(30A.230) <<< AA; AA <<< Aa; Aa <<< a(30A.230); \
    a(30A.230) <<< aa";

#[test]
fn rules_of_three_alphabets(rt: HostRuntime) -> Result<(), Fail> {
    let data = classes(rt.alloc())?;
    let examples = [
        (SPANISH, SPANISH_MEANS),
        (SWEDISH, SWEDISH_MEANS),
        (DANISH, DANISH_MEANS),
    ];
    for (rules, wanted) in examples {
        check_rules(rt.alloc(), &data, rules, wanted)?;
    }
    Ok(())
}
