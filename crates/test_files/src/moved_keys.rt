//! Stored keys that are put through the maps of a certificate, worked out by hand.

use std::alloc::Global;
use std::test::Fail;
use test_kit::{holds, is_remark, same_bytes, thirds};
use uca_certificates::{Certificate, read_certificate};
use uca_images::KeyMover;
use uca_weights::{Depth, Numbers, Settings, Source, Weighting};

/// At level 1, 1C48 to 1C4A become 1C60 to 1C62; at level 2, 0024 becomes 0025, and 0025 becomes 0027; at level 3, 0008 becomes
/// 0009. 1C47, 7FFF, 0020 and 0002 stay, and so do 8000 to FFFF at level 1.
const CERTIFICATE: &[u8] =
    b"1 1C47 1C47 0001\n1 1C48 1C60 0003\n1 7FFF 7FFF 0001\n2 0020 0020 0001\n2 0024 0025 0001\n2 0025 0027 0001\n3 0002 0002 0001\n3 0008 0009 0001\n";

/// How keys are made, by the names of the cases.
const WAYS: &[(&str, Weighting, Depth)] = &[
    ("3", Weighting::NonIgnorable, Depth::Weights),
    ("4", Weighting::Shifted, Depth::Weights),
    ("3+", Weighting::NonIgnorable, Depth::Identical),
    ("4+", Weighting::Shifted, Depth::Identical),
];

/// How the key was made, its bytes, and those of the key that it becomes; `-` where there is none.
const CASES: &str = r"-- no weight moves
3 | 1C47 0000 0020 0000 0002 | 1C47 0000 0020 0000 0002
-- at each level, and at all
3 | 1C48 1C47 1C4A 0000 0020 0000 0002 | 1C60 1C47 1C62 0000 0020 0000 0002
3 | 1C47 0000 0020 0024 0025 0000 0002 | 1C47 0000 0020 0025 0027 0000 0002
3 | 1C47 0000 0020 0000 0008 0002 | 1C47 0000 0020 0000 0009 0002
3 | 1C48 1C49 7FFF 0000 0024 0000 0008 | 1C60 1C61 7FFF 0000 0025 0000 0009
-- weights from 8000 up stay at level 1
3 | FB40 CE00 8000 FFFF 0000 0020 0000 0002 | FB40 CE00 8000 FFFF 0000 0020 0000 0002
-- the fourth level goes by the map of level 1
4 | 1C48 0000 0020 0000 0002 0000 FFFF 1C49 | 1C60 0000 0020 0000 0002 0000 FFFF 1C61
4 | 0000 0000 0000 1C48 | 0000 0000 0000 1C60
-- no weights
3 | 0000 0000 | 0000 0000
4 | 0000 0000 0000 | 0000 0000 0000
-- code points stay: U+1C48 and U+0000, then none, and then U+D7FF, U+E000 and U+10FFFF
3+ | 1C48 0000 0020 0000 0002 0000 00 1C48 00 0000 | 1C60 0000 0020 0000 0002 0000 00 1C48 00 0000
4+ | 1C48 0000 0020 0000 0002 0000 FFFF 0000 00 1C48 | 1C60 0000 0020 0000 0002 0000 FFFF 0000 00 1C48
3+ | 0000 0000 0000 | 0000 0000 0000
3+ | 0000 0000 0000 00 D7FF 00 E000 10 FFFF | 0000 0000 0000 00 D7FF 00 E000 10 FFFF
-- the last code point is cut after one byte or two, then the first and the last surrogate, and a number after U+10FFFF
3+ | 0000 0000 0000 1C | -
3+ | 0000 0000 0000 00 1C48 00 | -
3+ | 0000 0000 0000 00 1C48 00 1C | -
4+ | 1C48 0000 0020 0000 0002 0000 FFFF 0000 00 1C | -
3+ | 0000 0000 0000 00 D800 | -
3+ | 0000 0000 0000 00 1C48 00 DFFF | -
3+ | 0000 0000 0000 11 0000 | -
3+ | 0000 0000 0000 FF FFFF | -
-- a key of the other weighting
3+ | 1C48 0000 0020 0000 0002 0000 FFFF 0000 00 1C48 | -
4+ | 1C48 0000 0020 0000 0002 0000 00 1C48 | -
-- a key that is cut
3 | . | -
3 | 1C48 | -
3 | 1C48 0000 0020 | -
4 | 1C48 0000 0020 0000 0002 | -
3+ | 1C48 0000 0020 0000 0002 | -
4+ | 1C48 0000 0020 0000 0002 0000 FFFF | -
-- a single byte at the end
3 | 1C | -
3 | 1C47 0000 0020 0000 0002 00 | -
4+ | 1C47 0000 0020 0000 0002 0000 FF | -
-- a level too many
3 | 1C48 0000 0020 0000 0002 0000 | -
3 | 1C48 0000 0020 0000 0002 0000 FFFF | -
4 | 1C48 0000 0020 0000 0002 0000 FFFF 0000 00 1C48 | -
-- a weight without an image, and one that has an image at another level
3 | 1C46 0000 0020 0000 0002 | -
3 | 1C4B 0000 0020 0000 0002 | -
3 | 1C47 0000 0021 0000 0002 | -
3 | 1C47 0000 1C47 0000 0002 | -
3 | 1C47 0000 8000 0000 0002 | -
3 | 1C47 0000 0020 0000 0020 | -
4 | 1C47 0000 0020 0000 0002 0000 1C46 | -
4 | 1C47 0000 0020 0000 0002 0000 0002 | -";

/// The bytes of words of four digits, and of two.
fn bytes_of(alloc: Global, words: &str) -> Result<Vec<u8>, Fail> {
    let mut bytes = Vec::new(alloc);
    for word in words.split(' ') {
        match word.len() {
            4 => bytes.extend_from_slice(&u16::from_str_radix(word, 16)?.to_be_bytes())?,
            2 => bytes.push(u8::from_str_radix(word, 16)?)?,
            _ => {}
        }
    }
    Ok(bytes)
}

/// The key becomes another, or none: in memory that was used before, and in place.
fn check_key(
    alloc: Global,
    mover: &KeyMover,
    (key, wanted): (&str, &str),
    buffer: &mut Vec<u8>,
) -> Result<(), Fail> {
    let mut bytes = bytes_of(alloc, key)?;
    let moved = bytes_of(alloc, wanted)?;
    let is_found = mover.write_moved(&bytes, buffer)?;
    holds(is_found == (wanted != "-"), key)?;
    holds(mover.move_key(bytes.as_mut_slice()) == is_found, key)?;
    if is_found {
        same_bytes(buffer, &moved, key)?;
        same_bytes(&bytes, &moved, key)?;
    }
    Ok(())
}

/// The keys that were made this way.
fn check_way(alloc: Global, mover: &KeyMover, name: &str) -> Result<(), Fail> {
    let mut buffer = bytes_of(alloc, "1C47 0000")?;
    for case in CASES.lines() {
        if !is_remark(case) {
            let (way, key, wanted) = thirds(case)?;
            if way == name {
                check_key(alloc, mover, (key, wanted), &mut buffer)?;
            }
        }
    }
    Ok(())
}

fn certificate(alloc: Global) -> Result<Certificate, Fail> {
    match read_certificate(alloc, &mut Source::new(CERTIFICATE)) {
        Ok(certificate) => Ok(certificate),
        Err(fault) => Err(Fail::from(fault)),
    }
}

#[test]
fn moved_keys(rt: HostRuntime) -> Result<(), Fail> {
    let alloc = rt.alloc();
    for (name, weighting, depth) in WAYS {
        let settings = Settings {
            weighting: *weighting,
            depth: *depth,
            numbers: Numbers::AsText,
        };
        let mover = KeyMover::new(alloc, certificate(alloc)?, settings)?;
        let found = check_way(alloc, &mover, name);
        drop(mover);
        found?;
    }
    Ok(())
}
