//! `write_help`: the line that follows the line of an error, and says what to do. `write_book_help`: the line that says that compact
//! keys are long.
//!
//! What is proved is that nothing is written, or one line that begins with `help: `. What it says is tested only. `sentences`
//! has what is said of each error, and `names` the name of the file that it is about.

ghost use Rattle.std.specs.Prelude.{◌≡◌, IfOk, IfSome, string_bytes};
ghost use Rattle.uca_host.specs.Help.{Helps, IsHelp, help_line};

mod names;
mod sentences;

use crate::help::names::name_of;
use crate::help::sentences::{LONG_COMPACT_KEYS, advice_on};
use crate::reports::show;
use std::alloc::{AllocError, Global};
use std::io::Write;
use uca_run_parts::KeySizes;
use uca_run_parts::faults::{Role, RunFault};
use uca_weights::Sink;
use uca_words::Words;

/// What a line of help says.
#[derive(Clone, Copy, Drop)]
pub struct Advice {
    /// What the file is for that it is about, and what stands between the name of that file and the sentence.
    pub file: Option<(Role, &'static str)>,
    /// The sentence, without a full stop at its end.
    pub sentence: &'static str,
}

// The name of the file, if its role and the arguments are known, and the sentence.
fn text_of(alloc: Global, advice: &Advice, words: Option<&Words>) -> Result<String, AllocError> {
    let mut text = String::new(alloc);
    if let (Some((role, between)), Some(words)) = (advice.file, words) {
        if let Some(name) = name_of(words, role) {
            text.push_str(name)?;
            text.push_str(between)?;
        }
    }
    text.push_str(advice.sentence)?;
    Ok(text)
}

// The line of help of this text.
fn line_of(alloc: Global, text: &str) -> Result<String, AllocError>
    ensures { IfOk result (λ line. string_bytes line ≡ help_line text.now) }
{
    let mut line = String::from_str(alloc, "help: ")?;
    line.push_str(text)?;
    line.push_str("\n")?;
    Ok(line)
}

// The line of help of this text, which is none if it has an LF, as the name of a file may have.
fn checked_line(alloc: Global, text: &str) -> Result<Option<String>, AllocError>
    ensures { IfOk result (λ found. IfSome found (λ line. IsHelp (string_bytes line))) }
{
    if text.as_bytes().contains(&b'\n') {
        return Ok(None);
    }
    Ok(Some(line_of(alloc, text)?))
}

// The line of help for an error, if there is a way out.
fn help_of(
    alloc: Global,
    fault: &RunFault,
    words: Option<&Words>,
) -> Result<Option<String>, AllocError>
    ensures { IfOk result (λ found. IfSome found (λ line. IsHelp (string_bytes line))) }
{
    let Some(advice) = advice_on(fault) else {
        return Ok(None);
    };
    let text = text_of(alloc, &advice, words)?;
    checked_line(alloc, text.as_str())
}

/// Writes what to do about an error to `err`, after the line of the error, where there is a way out. The names of files are
/// those of the arguments. It writes nothing if `err` has failed, or if an allocation fails.
pub fn write_help<E: Write>(
    alloc: Global,
    fault: &RunFault,
    words: Option<&Words>,
    err: &mut Sink<E>,
)
    ensures { Helps err.old err.new }
{
    if err.failed() {
        return;
    }
    if let Ok(Some(line)) = help_of(alloc, fault, words) {
        show(line.as_str().as_bytes(), err);
    }
}

/// Writes to `err` that compact keys are long, if a book for their table and texts would make shorter ones. It writes nothing if `err` has
/// failed, or if an allocation fails.
pub fn write_book_help<E: Write>(alloc: Global, sizes: &KeySizes, err: &mut Sink<E>)
    ensures { Helps err.old err.new }
{
    if !sizes.are_long() || err.failed() {
        return;
    }
    if let Ok(Some(line)) = checked_line(alloc, LONG_COMPACT_KEYS) {
        show(line.as_str().as_bytes(), err);
    }
}
