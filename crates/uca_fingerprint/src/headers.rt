//! The headers of key lines and of lines of compact keys: a first line that says what made the keys.

ghost use Rattle.std.specs.Prelude.{◌≡◌, ◌≢◌, ◌+◌, ◌≤◌, ◌∷◌, [], ◌++◌, ℕ, List, MatchOption, codes, length};
ghost use Rattle.hex.specs.Hex.{IsBytes, encode_lower};
ghost use Rattle.uca_weights.specs.WeightingText.{weighting_text};
ghost use Rattle.uca_fingerprint.specs.Fingerprints.{depth_text};
ghost use Rattle.uca_fingerprint.specs.KeyHeaders.{compact_header, key_header};

use crate::fingerprints::digits;
use crate::texts::depth_name;
use arrayvec::ArrayVec;
use hex::FromHex;
use std::marker::Model;
use uca_weights::{Depth, Settings, Weighting};

/// A header of key lines: `#uca keys 1 shifted weights` and the digits of a fingerprint. That of lines of compact keys has
/// `#uca compact 1` there. It takes no memory.
#[derive(Drop)]
pub struct KeyHeader {
    line: ArrayVec<u8, 128>,
}

impl Model for KeyHeader {
    ghost use Rattle.std.specs.Prelude.{ℕ, List};

    ghost Value = { List ℕ };

    ghost view = { λ header. header.line.items };
}

impl KeyHeader {
    /// The header of keys that were made under these settings, without its LF. The fingerprint is that of the settings and
    /// the files.
    pub fn new(settings: Settings, fingerprint: &[u8; 32]) -> KeyHeader
        ensures line { result ≡ key_header settings fingerprint.now }
        ensures short { length result ≤ 127 }
    {
        KeyHeader::with_kind(b"#uca keys 1 ", settings, fingerprint)
    }

    /// The header that `new` makes, with an LF at its end.
    pub fn ended(settings: Settings, fingerprint: &[u8; 32]) -> KeyHeader
        ensures { result ≡ key_header settings fingerprint.now ++ 10 ∷ [] }
    {
        KeyHeader::new(settings, fingerprint).then(b"\n")
    }

    /// The header of compact keys, without its LF. The settings are those of their whole keys, and the fingerprint is that
    /// of these and of the book (`compact_fingerprint`).
    pub fn compact(settings: Settings, fingerprint: &[u8; 32]) -> KeyHeader
        ensures line { result ≡ compact_header settings fingerprint.now }
        ensures short { length result ≤ 127 }
    {
        KeyHeader::with_kind(b"#uca compact 1 ", settings, fingerprint)
    }

    /// The header that `compact` makes, with an LF at its end.
    pub fn compact_ended(settings: Settings, fingerprint: &[u8; 32]) -> KeyHeader
        ensures { result ≡ compact_header settings fingerprint.now ++ 10 ∷ [] }
    {
        KeyHeader::compact(settings, fingerprint).then(b"\n")
    }

    /// The bytes of the header.
    pub fn as_bytes(&self) -> &[u8]
        ensures line { result.now ≡ self.now }
        ensures short { length result.now ≤ 128 }
    {
        self.line.as_slice()
    }

    // The header that begins with these bytes, which say the kind of the keys.
    fn with_kind(kind: &[u8], settings: Settings, fingerprint: &[u8; 32]) -> KeyHeader
        requires { length kind.now ≤ 39 }
        ensures line { result
            ≡ kind.now
            ++ weighting_text settings.weighting
            ++ codes " "
            ++ depth_text settings.depth
            ++ codes " "
            ++ encode_lower fingerprint.now }
        ensures short { length result ≤ 127 }
    {
        KeyHeader {
            line: ArrayVec::new(),
        }
        .then(kind)
        .then(name_of(settings.weighting))
        .then(b" ")
        .then(depth_of(settings.depth))
        .then(b" ")
        .then(&digits(fingerprint))
    }

    // The header with more bytes at its end.
    fn then(self, bytes: &[u8]) -> KeyHeader
        requires { length self + length bytes.now ≤ 128 }
        ensures { result ≡ self ++ bytes.now }
    {
        let mut header = self;
        let _ = header.line.try_extend_from_slice(bytes);
        header
    }
}

// The bytes of the name of a weighting.
fn name_of(weighting: Weighting) -> &'static [u8]
    ensures name { result.now ≡ weighting_text weighting }
    ensures short { length result.now ≤ 13 }
{
    weighting.name().as_bytes()
}

// The bytes of the name of a depth.
fn depth_of(depth: Depth) -> &'static [u8]
    ensures name { result.now ≡ depth_text depth }
    ensures short { length result.now ≤ 9 }
{
    depth_name(depth).as_bytes()
}

/// The fingerprint of these 64 lower-case hexadecimal digits, or `None` if the text is something else.
pub fn fingerprint_of_digits(text: &str) -> Option<[u8; 32]>
    ensures { MatchOption result ((sum : List ℕ) → length sum ≡ 32 → IsBytes sum → encode_lower sum ≢ text.now)
        (λ sum. encode_lower sum ≡ text.now) }
{
    match <[u8; 32] as FromHex>::from_hex(text) {
        Ok(sum) => {
            if digits(&sum).as_slice() == text.as_bytes() {
                Some(sum)
            } else {
                None
            }
        }
        Err(_) => None,
    }
}
