//! The fingerprint of what texts are keyed by.

ghost use Rattle.std.specs.Prelude.{◌≡◌, IfOk, IfErr, MatchResult};
ghost use Rattle.uca_values.specs.Content.{TableContent, Properties};
ghost use Rattle.uca_order.specs.Keyings.{keying};
ghost use Rattle.uca_owned.specs.Opening.{HasFingerprint, IsOpenCause, IsOpenStop, MeanFiles, fingerprint_by};

use crate::faults::OpenFault;
use crate::files::{data_of, table_of};
use std::alloc::Global;
use uca_fingerprint::fingerprint;
use uca_weights::{Asked, Numbers};

/// The fingerprint of what [`OwnedCollator::open`](crate::OwnedCollator::open) would key texts by, from the same
/// arguments. It names the bytes of both files, the weighting that is asked for or else that of the table, the depth,
/// and how numbers compare. It makes no collator.
///
/// # Errors
///
/// Those of `open` that are of one file: `Table` and `Data`. A table that does not order numbers has a fingerprint too.
pub fn fingerprint_of(
    alloc: Global,
    table: &[u8],
    data_file: &[u8],
    asked: Asked,
) -> Result<[u8; 32], OpenFault>
    ensures found { IfOk result (HasFingerprint asked table.now data_file.now) }
    ensures only { (meant : TableContent) (properties : Properties) → MeanFiles table.now data_file.now meant properties →
        MatchResult result (λ sum. sum ≡ fingerprint_by (keying asked meant properties) table.now data_file.now) (IsOpenStop Numbers.AsText meant properties) }
    ensures fault { IfErr result (IsOpenCause Numbers.AsText table.now data_file.now) }
{
    let read = match table_of(alloc, table) {
        Ok(read) => read,
        Err(fault) => return Err(OpenFault::Table(fault)),
    };
    let settings = asked.settings(read.header.setting);
    drop(read);
    let properties = match data_of(alloc, data_file) {
        Ok(properties) => properties,
        Err(fault) => return Err(OpenFault::Data(fault)),
    };
    drop(properties);
    Ok(fingerprint(settings, table, data_file))
}
