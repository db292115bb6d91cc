//! The settings of what is asked for.

use std::test::Fail;
use test_kit::holds;
use uca_weights::Weighting::{NonIgnorable, Shifted};
use uca_weights::{Asked, Depth, Numbers, Settings, Weighting};

/// The weighting that is asked for, that of a table, and that of keys.
const WEIGHTINGS: [(Option<Weighting>, Option<Weighting>, Weighting); 6] = [
    (None, None, Shifted),
    (None, Some(NonIgnorable), NonIgnorable),
    (None, Some(Shifted), Shifted),
    (Some(NonIgnorable), None, NonIgnorable),
    (Some(NonIgnorable), Some(Shifted), NonIgnorable),
    (Some(Shifted), Some(NonIgnorable), Shifted),
];

#[test]
fn weighting_is_that_asked_for_or_the_tables_or_shifted(_rt: HostRuntime) -> Result<(), Fail> {
    for (asked, of_table, weighting) in WEIGHTINGS {
        let chosen = Asked::as_text(asked, Depth::Identical).settings(of_table);
        let wanted = Settings {
            weighting,
            depth: Depth::Identical,
            numbers: Numbers::AsText,
        };
        holds(chosen == wanted, "settings of what is asked for")?;
    }
    Ok(())
}
