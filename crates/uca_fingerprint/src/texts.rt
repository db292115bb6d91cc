//! The values of the text that a fingerprint is made of.

ghost use Rattle.std.specs.Prelude.{◌≡◌};
ghost use Rattle.ucd_table.specs.declared.version.TheConstants.{UNICODE_VERSION};
ghost use Rattle.uca_fingerprint.specs.Fingerprints.{depth_text, edition, version_text};

use uca_weights::Depth;
use ucd_table::UNICODE_VERSION;

/// The edition of Unicode by which texts are brought to Normalization Form D, as it is written.
pub fn edition() -> &'static str
    ensures { result.now ≡ edition }
{
    "18.0.0"
}

/// The edition of Unicode of the normalization, as three numbers. It is the version of the tables that the normalization uses.
pub fn normalization_version() -> (u8, u8, u8)
    ensures value { result ≡ UNICODE_VERSION }
    ensures edition { version_text result ≡ edition }
{
    UNICODE_VERSION
}

/// The name of a depth.
pub fn depth_name(depth: Depth) -> &'static str
    ensures { result.now ≡ depth_text depth }
{
    match depth {
        Depth::Weights => "weights",
        Depth::Identical => "identical",
    }
}
