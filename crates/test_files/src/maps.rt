//! Maps of weights by runs, and images.

use std::alloc::Global;
use std::test::Fail;
use test_kit::{is_remark, same, thirds};
use uca_weights::{Level, Run, WeightMap};

/// A level and its runs, weights, and their images; or the run with the first error, and its kind.
const CASES: &str = r"-- consecutive weights with consecutive images
1 0002 0005 0003, 0007 0009 0001 | 0000 0001 0002 0004 0005 0006 0007 0008 7FFF 8000 FFFF | 0000 - 0005 0007 - - 0009 - - 8000 FFFF
2 0001 0001 0020 | 0000 0001 001F 0020 0021 8000 FFFF | 0000 0001 001F 0020 - - -
3 0002 0002 FFFE | 0000 0001 0002 8000 FFFF | 0000 - 0002 8000 FFFF
1 | 0000 0001 8000 | 0000 - 8000
-- faults
1 0002 0005 0000 |  | Empty 0
1 0002 0005 0001, 0000 0000 0000 |  | Empty 1
1 0000 0005 0001 |  | OutOfRange 0
1 0005 0000 0001 |  | OutOfRange 0
1 7FFF 0001 0002 |  | OutOfRange 0
1 0001 7FFF 0002 |  | OutOfRange 0
2 FFFF 0001 0002 |  | OutOfRange 0
3 0001 FFFF 0002 |  | OutOfRange 0
1 0002 0002 0002, 0003 0008 0001 |  | NotRising 1
1 0002 0002 0002, 0008 0003 0001 |  | NotRising 1
1 0002 0002 0001, 0002 8000 0001 |  | OutOfRange 1
2 |  | Fixed 0
2 0020 0021 0001 |  | Fixed 1
2 0021 0021 0001, 0020 0022 0001 |  | NotRising 1
3 0001 0001 0001 |  | Fixed 1
3 0003 0003 0001 |  | Fixed 1";

fn number(word: &str) -> Result<u16, Fail> {
    Ok(u16::from_str_radix(word, 16)?)
}

fn run(words: &str) -> Result<Run, Fail> {
    let (from, rest) = words.split_once(" ").ok_or("a run")?;
    let (to, count) = rest.split_once(" ").ok_or("a run")?;
    Ok(Run {
        from: number(from)?,
        to: number(to)?,
        count: number(count)?,
    })
}

fn level(digit: &str) -> Level {
    match digit {
        "1" => Level::One,
        "2" => Level::Two,
        _ => Level::Three,
    }
}

fn runs(alloc: Global, words: &str) -> Result<Vec<Run>, Fail> {
    let mut runs = Vec::new(alloc);
    for words in words.split(", ") {
        runs.push(run(words)?)?;
    }
    Ok(runs)
}

/// The map of a level and its runs.
fn map(alloc: Global, words: &str) -> Result<Result<WeightMap, String>, Fail> {
    let made = match words.split_once(" ") {
        Some((digit, words)) => WeightMap::from_runs(level(digit), runs(alloc, words)?),
        None => WeightMap::from_runs(level(words), Vec::new(alloc)),
    };
    match made {
        Ok(map) => Ok(Ok(map)),
        Err(fault) => Ok(Err(format!(in alloc; "{fault} {}", fault.run)?)),
    }
}

/// The images of weights, `-` where there is none.
fn images(alloc: Global, map: &WeightMap, weights: &str) -> Result<String, Fail> {
    let mut words = String::new(alloc);
    for weight in weights.split(' ') {
        if !words.is_empty() {
            words.push_str(" ")?;
        }
        match map.get(number(weight)?) {
            Some(image) => words.push_str(&format!(in alloc; "{image:04X}")?)?,
            None => words.push_str("-")?,
        }
    }
    Ok(words)
}

fn check(alloc: Global, case: &str) -> Result<(), Fail> {
    if is_remark(case) {
        return Ok(());
    }
    let (words, weights, wanted) = thirds(case)?;
    match map(alloc, words)? {
        Ok(map) => {
            let found = images(alloc, &map, weights);
            drop(map);
            same(&found?, wanted, case)
        }
        Err(fault) => same(&fault, wanted, case),
    }
}

#[test]
fn maps_of_weights(rt: HostRuntime) -> Result<(), Fail> {
    for case in CASES.lines() {
        check(rt.alloc(), case)?;
    }
    Ok(())
}
