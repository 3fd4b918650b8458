//! What is told on standard error beside a status: no part of what `draw` writes.
use crate::asking::{Ask, Waits};
use crate::status::Status;
use draw_pictures::part::WHOLE;
use std::alloc::{AllocError, Global};
use work_nearest::{put_nearest, put_word};

/// The options that there are.
const OPTIONS: [&str; 4] = ["--lines", "--callers", "--help", "--version"];

/// What there is to tell of a status, where `why` is what is wrong with the text that was read.
///
/// # Errors
/// Memory, where it is refused.
pub(crate) fn told(
    alloc: Global,
    status: Status,
    words: &[&str],
    why: Option<String>,
) -> Result<Option<String>, AllocError> {
    let said = match status {
        Status::Ok | Status::Help => return Ok(None),
        Status::Refused { .. } | Status::NoPicture { .. } => return Ok(why),
        Status::Usage => return Ok(Some(wrong_word(alloc, words)?)),
        Status::ReadFault => "a file or standard input could not be read",
        Status::WriteFault => "standard output could not be written to the end",
        Status::Memory => "memory was refused, and nothing was written",
    };
    Ok(Some(said.to_string(alloc)?))
}

/// What is wrong with words that ask for nothing, in a sentence: which of them, and what may stand there.
pub fn wrong_word(alloc: Global, words: &[&str]) -> Result<String, AllocError> {
    let mut said = String::new(alloc);
    match up_to_wrong(words) {
        (ask, Some(word)) => put_wrong(alloc, &mut said, ask, word)?,
        (ask, None) => put_value(&mut said, "no value follows", ask.waits)?,
    }
    Ok(said)
}

/// What words ask for before the first that may not come, and that one.
fn up_to_wrong<'a>(words: &[&'a str]) -> (Ask<'a>, Option<&'a str>) {
    let mut ask = Ask {
        part: WHOLE,
        first: None,
        second: None,
        waits: Waits::ForNone,
    };
    for word in words.iter().skip(1) {
        match ask.take(word) {
            Some(more) => ask = more,
            None => return (ask, Some(*word)),
        }
    }
    (ask, None)
}

/// Appends why this word may not come.
fn put_wrong(alloc: Global, said: &mut String, ask: Ask<'_>, word: &str) -> Result<(), AllocError> {
    put_word(said, word)?;
    if ask.waits.is_waiting() {
        return put_value(said, " is no value of", ask.waits);
    }
    if word == "--lines" || word == "--callers" {
        return said.push_str(" stands twice; here stands each option once at most");
    }
    if word == "--help" || word == "--version" {
        return said.push_str(" isn't alone; here stands no other word beside it");
    }
    if word.starts_with("-") {
        said.push_str(" is no option; here stands ")?;
        return put_nearest(alloc, said, word, &OPTIONS);
    }
    said.push_str(" is a word too many; here stand two files' names at most")
}

/// Appends what is wrong with the value of an option, and which values there may be.
fn put_value(said: &mut String, why: &str, waits: Waits) -> Result<(), AllocError> {
    said.push_str(why)?;
    said.push_str(match waits {
        Waits::ForCallers => " `--callers`; here stands N,N.., each N a caller from 0 to 31",
        _ => " `--lines`; here stands A..B, A from 1 and B from A on",
    })
}
