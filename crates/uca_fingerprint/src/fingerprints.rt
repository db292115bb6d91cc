//! The fingerprint of what keys are made by.

ghost use Rattle.std.specs.Prelude.{◌≡◌, ℕ, List, ◌++◌};
ghost use Rattle.hex.specs.Hex.{encode_lower};
ghost use Rattle.sha2.specs.Hashers.{Holds256};
ghost use Rattle.sha2.specs.Sha256.{sha256};
ghost use Rattle.uca_fingerprint.specs.Fingerprints.{
  compact_fingerprint,
  compact_fingerprint_text,
  fingerprint,
  fingerprint_text,
  numbers_line,
  value_line,
};

use crate::texts::{depth_name, edition};
use hex::encode_to_slice;
use sha2::{Digest, Sha256};
use uca_weights::{Numbers, Settings};

/// The SHA-256 of the bytes of a file (FIPS 180-4).
pub fn sum(bytes: &[u8]) -> [u8; 32]
    ensures { result ≡ sha256 bytes.now }
{
    Sha256::digest(bytes)
}

// 32 bytes as 64 lower-case hexadecimal digits.
pub(crate) fn digits(bytes: &[u8; 32]) -> [u8; 64]
    ensures { result ≡ encode_lower bytes.now }
{
    let mut digits = [0u8; 64];
    let _ = encode_to_slice(bytes, &mut digits);
    digits
}

// Adds a line to the text that is hashed.
fn add_line(hasher: &mut Sha256, name: &str, value: &[u8])
    ensures { (text : List ℕ) → Holds256 hasher.old text → Holds256 hasher.new (text ++ value_line name.now value.now) }
{
    hasher.update(name);
    hasher.update(value);
    hasher.update(b"\n");
}

// Adds the line of numbers by value, if they are.
fn add_numbers(hasher: &mut Sha256, numbers: Numbers)
    ensures { (text : List ℕ) → Holds256 hasher.old text → Holds256 hasher.new (text ++ numbers_line numbers) }
{
    match numbers {
        Numbers::AsText => {}
        Numbers::ByValue => add_line(hasher, "numbers ", b"by value"),
    }
}

/// The fingerprint of settings and two files, these by the SHA-256 of each: the SHA-256 of a text in six lines. Where
/// numbers are ordered by value, a seventh line comes after that of the depth.
///
/// ```text
/// uca keys 1
/// unicode 18.0.0
/// weighting shifted
/// depth weights
/// numbers by value
/// table 64 lower-case hexadecimal digits
/// data 64 lower-case hexadecimal digits
/// ```
pub fn fingerprint_of_sums(settings: Settings, table: &[u8; 32], data_file: &[u8; 32]) -> [u8; 32]
    ensures { result ≡ sha256 (fingerprint_text settings table.now data_file.now) }
{
    let mut hasher = Sha256::new();
    add_line(&mut hasher, "uca keys ", b"1");
    add_line(&mut hasher, "unicode ", edition().as_bytes());
    add_line(
        &mut hasher,
        "weighting ",
        settings.weighting.name().as_bytes(),
    );
    add_line(&mut hasher, "depth ", depth_name(settings.depth).as_bytes());
    add_numbers(&mut hasher, settings.numbers);
    add_line(&mut hasher, "table ", &digits(table));
    add_line(&mut hasher, "data ", &digits(data_file));
    hasher.finalize()
}

/// The fingerprint of settings, and the bytes of a table and of a data file.
pub fn fingerprint(settings: Settings, table: &[u8], data_file: &[u8]) -> [u8; 32]
    ensures { result ≡ fingerprint settings table.now data_file.now }
{
    fingerprint_of_sums(settings, &sum(table), &sum(data_file))
}

/// The fingerprint of compact keys, by that of their whole keys and the SHA-256 of the book file: the SHA-256 of a text in
/// three lines.
///
/// ```text
/// uca compact keys 1
/// keys 64 lower-case hexadecimal digits
/// book 64 lower-case hexadecimal digits
/// ```
pub fn compact_fingerprint_of_sums(keys: &[u8; 32], book: &[u8; 32]) -> [u8; 32]
    ensures { result ≡ sha256 (compact_fingerprint_text keys.now book.now) }
{
    let mut hasher = Sha256::new();
    add_line(&mut hasher, "uca compact keys ", b"1");
    add_line(&mut hasher, "keys ", &digits(keys));
    add_line(&mut hasher, "book ", &digits(book));
    hasher.finalize()
}

/// The fingerprint of compact keys, by that of their whole keys and the bytes of the book file.
pub fn compact_fingerprint(keys: &[u8; 32], book: &[u8]) -> [u8; 32]
    ensures { result ≡ compact_fingerprint keys.now book.now }
{
    compact_fingerprint_of_sums(keys, &sum(book))
}
