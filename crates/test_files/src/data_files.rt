//! Data files: what accepted files say. Those that are rejected are tested with the built program, by `tests/run.py`.

use std::alloc::Global;
use std::test::Fail;
use test_kit::{code_point, data_of, halves, same};
use uca_values::Data;
use uca_weights::Source;

/// Comments of any bytes, blanks at both ends and between words, ranges in falling order.
const ACCEPTED: &[u8] = b"# \xFF\n \t\n\t@data 1 # the header\n\
    core 4E00..9FFF\n\
    ccc 0323..0323 220\n\
    \t ccc\t0300..0314  230 \t# accents\n\
    other 20000..20FFF#\n\
    ccc 0000..0000 1\n\
    ccc 10FFFF..10FFFF 254\n\
    ccc D7FF..E000 9\n\
    ccc 0315..031A 9\n\
    other D000..E001\n\
    core 3007..3007\n";

/// A code point, its class, and whether it is core Han or other Han.
const POINTS: &str = "0 | 1
1 | 0
61 | 0
2FF | 0
300 | 230
314 | 230
315 | 9
31A | 9
31B | 0
322 | 0
323 | 220
324 | 0
3007 | 0 core
4DFF | 0
4E00 | 0 core
9FFF | 0 core
A000 | 0
CFFF | 0
D000 | 0 other
D7FF | 9 other
E000 | 9 other
E001 | 0 other
E002 | 0
1FFFF | 0
20000 | 0 other
20FFF | 0 other
21000 | 0
10FFFE | 0
10FFFF | 254";

fn check_point(alloc: Global, properties: &Data, case: &str) -> Result<(), Fail> {
    let (digits, wanted) = halves(case)?;
    let point = code_point(digits)?;
    let core = if properties.is_core(point) {
        " core"
    } else {
        ""
    };
    let other = if properties.is_other(point) {
        " other"
    } else {
        ""
    };
    let found = format!(in alloc; "{}{core}{other}", properties.class(point))?;
    same(&found, wanted, case)
}

fn check_points(alloc: Global, properties: &Data) -> Result<(), Fail> {
    for case in POINTS.lines() {
        check_point(alloc, properties, case)?;
    }
    Ok(())
}

#[test]
fn properties_at_the_ends_of_ranges(rt: HostRuntime) -> Result<(), Fail> {
    let properties = data_of(rt.alloc(), &mut Source::new(ACCEPTED))?;
    let found = check_points(rt.alloc(), &properties);
    drop(properties);
    found
}
