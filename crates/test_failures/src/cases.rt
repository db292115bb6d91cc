//! Cases as text. A case is a block of lines, and an empty line parts it from the next. Its first line is the name of a
//! call; each line after it begins with a word that says what the rest is. Several lines with the same word are joined.
//!
//! - `reads`: the files that are read, in their order, by their roles.
//! - a role: the text of that file, instead of the small one that it has.
//! - `printed`, `file`: what goes out, and what goes out to the file of a certificate.
//! - `end`: what is said of the end.
//! - `asks`: how many allocations it asks for if none fails.
//! - `memory`: what is said of the end where an allocation is rejected, in the order of the allocations. `; ` parts
//!   these; numbers after ` @ ` are the lines or the bytes of one role.
//!
//! Some words have one meaning here. Take the line `memory table line @ 1 2; memory` of a run:
//!
//! - end: what is said of how a call has ended. The line has three ends, and the second is `table line 2: Memory, status 4`.
//! - group: a part between two `; `. The line has two: `table line @ 1 2` stands for two ends, and `memory` for one.
//! - head: what a group has before ` @ `, here `table line`. With each number after it the head makes an end.
//! - `ample`: memory in which no allocation is rejected. What the test itself makes is there.
//! - `good`: how many bytes a stream gives or takes before it fails.

use std::alloc::{AllocError, Global};
use std::test::Fail;
use test_kit::{bytes_of, joined};

/// A table of a letter and an accent.
pub const TABLE: &str = "@version 1\n\
    0061 ; [.1C47.0020.0002]\n\
    0301 ; [.0000.0024.0002]\n";

/// The class of the accent.
pub const DATA: &str = "@data 1\nccc 0301..0301 230\n";

/// Rules of one relation.
pub const RULES: &str = "&a < x";

/// The table with the row that they add.
pub const TAILORED: &str = "@version 1\n\
    0061 ; [.1C47.0020.0002]\n\
    0301 ; [.0000.0024.0002]\n\
    0078 ; [.1C48.0020.0002]\n";

/// The certificate of that tailoring: each weight of the table stays.
pub const CERTIFICATE: &str = "1 1C47 1C47 0001\n\
    2 0020 0020 0001\n\
    2 0024 0024 0001\n\
    3 0002 0002 0001\n";

/// A call, and the files that it reads.
#[derive(Drop)]
pub struct Case<'a> {
    /// The lines of the case.
    pub block: &'a str,
    /// The name of the call.
    pub name: &'a str,
    /// The roles of its files.
    pub roles: &'a str,
    /// Their texts.
    pub texts: Vec<Vec<u8>>,
}

/// The rest of the first line that begins with this word; nothing if there is none.
pub fn field<'a>(block: &'a str, word: &str) -> &'a str {
    for line in block.lines() {
        if let Some((first, rest)) = line.split_once(' ') {
            if first == word {
                return rest;
            }
        }
    }
    ""
}

/// The bytes that the lines with this word stand for.
pub fn bytes(ample: Global, block: &str, word: &str) -> Result<Vec<u8>, AllocError> {
    let mut all = Vec::new(ample);
    for line in block.lines() {
        if let Some((first, rest)) = line.split_once(' ') {
            if first == word {
                all.extend_from_slice(&bytes_of(ample, rest)?)?;
            }
        }
    }
    Ok(all)
}

// The small file of a role.
fn small_file(role: &str) -> &'static str {
    match role {
        "table" | "base" => TABLE,
        "data" => DATA,
        "rules" => RULES,
        "tailored" => TAILORED,
        "certificate" => CERTIFICATE,
        _ => "",
    }
}

// The text of a role.
fn text_of(ample: Global, block: &str, role: &str) -> Result<Vec<u8>, AllocError> {
    let text = bytes(ample, block, role)?;
    if !text.is_empty() {
        return Ok(text);
    }
    Vec::from_slice(ample, small_file(role).as_bytes())
}

fn texts_of(ample: Global, block: &str, roles: &str) -> Result<Vec<Vec<u8>>, AllocError> {
    let mut texts = Vec::new(ample);
    for role in roles.split(' ') {
        texts.push(text_of(ample, block, role)?)?;
    }
    Ok(texts)
}

impl<'a> Case<'a> {
    /// The case of a block.
    pub fn new(ample: Global, block: &'a str) -> Result<Case<'a>, Fail> {
        let name = block.lines().next().ok_or("a case without lines")?;
        let roles = field(block, "reads");
        Ok(Case {
            block,
            name,
            roles,
            texts: texts_of(ample, block, roles)?,
        })
    }

    /// Whether lines go out in turn.
    pub fn prints_lines(&self) -> bool {
        let each = [
            "run keys",
            "run identical keys",
            "run keyed lines",
            "run identical keyed lines",
            "run affected",
        ];
        each.contains(&self.name)
    }

    /// Whether its writers are tried: a call that reads or makes something shows it by a writer that does not fail.
    pub fn is_written(&self) -> bool {
        self.is_run() || self.name.starts_with("write")
    }

    /// Whether it is a whole run, which ends with a status.
    pub fn is_run(&self) -> bool {
        self.name.starts_with("run")
    }

    /// Whether it is rejected for the last line of the file of this role: no more of it is read then, and not its end.
    pub fn is_refused_for(&self, role: &str) -> bool {
        let place = if self.is_run() { role } else { "line " };
        field(self.block, "end").starts_with(place)
    }
}

// Adds an end of these two parts.
fn push_end(
    ample: Global,
    ends: &mut Vec<String>,
    end: &str,
    status: &str,
) -> Result<(), AllocError> {
    let end = joined(ample, &[end, status])?;
    ends.push(end)?;
    Ok(())
}

// Adds the ends of one group: its head with each of the numbers, or the group itself.
fn push_ends(
    ample: Global,
    ends: &mut Vec<String>,
    group: &str,
    status: &str,
) -> Result<(), AllocError> {
    let Some((head, numbers)) = group.split_once(" @ ") else {
        return push_end(ample, ends, group, status);
    };
    for number in numbers.split(' ') {
        let end = format!(in ample; "{head} {number}: Memory")?;
        push_end(ample, ends, &end, status)?;
    }
    Ok(())
}

/// What is said of the ends where an allocation is rejected, in their order.
pub fn refused_ends(ample: Global, case: &Case) -> Result<Vec<String>, AllocError> {
    let status = if case.is_run() { ", status 4" } else { "" };
    let mut ends = Vec::new(ample);
    for line in case.block.lines() {
        if let Some(groups) = line.strip_prefix("memory ") {
            for group in groups.split("; ") {
                push_ends(ample, &mut ends, group, status)?;
            }
        }
    }
    Ok(ends)
}

/// Texts, each as a line.
pub fn lines_of(ample: Global, texts: &[String]) -> Result<String, AllocError> {
    let mut lines = String::new(ample);
    for text in texts {
        lines.push_str(text)?;
        lines.push('\n')?;
    }
    Ok(lines)
}

/// The line that is being read after the first bytes of a text.
pub fn line_after(text: &[u8], good: usize) -> usize {
    let mut line = 1_usize;
    for byte in text.iter().take(good) {
        if *byte == b'\n' {
            line = line.saturating_add(1);
        }
    }
    line
}

/// How many bytes the first lines of a text have.
pub fn length_of_lines(text: &[u8], count: usize) -> usize {
    let mut line = 0_usize;
    let mut length = 0_usize;
    for byte in text {
        if line == count {
            return length;
        }
        length = length.saturating_add(1);
        if *byte == b'\n' {
            line = line.saturating_add(1);
        }
    }
    length
}
