//! Which word of a command line is wrong, in a sentence.
use crate::command::MOST_TRANSACTIONS;
use std::alloc::{AllocError, Global};
use stm_model::config::MAX_CALLERS;
use work_nearest::{put_nearest, put_word};
use work_profile::numbers::number;
use work_profile::policy::{MOST_ROUND, MOST_STATE, Policy};

/// The first words that a command line may have.
const COMMANDS: [&str; 6] = ["run", "step", "gen", "check", "--help", "--version"];

/// What is wrong with words that ask for nothing, in a sentence: which of them, and what may stand there.
///
/// # Errors
/// Memory, where it is refused.
pub fn wrong_word(alloc: Global, words: &[&str]) -> Result<String, AllocError> {
    let mut said = String::new(alloc);
    let (Some(command), others) = (words.get(1), &words[words.len().min(2)..]) else {
        said.push_str("no command is named; here stands one of ")?;
        put_nearest(alloc, &mut said, "", &COMMANDS)?;
        return Ok(said);
    };
    match *command {
        "run" => put_run(&mut said, others)?,
        "step" => put_files(&mut said, command, others, 1)?,
        "check" => put_files(&mut said, command, others, 2)?,
        "gen" => put_gen(&mut said, others)?,
        _ => {
            put_word(&mut said, command)?;
            said.push_str(" is no command; here stands ")?;
            put_nearest(alloc, &mut said, command, &COMMANDS)?;
        }
    }
    Ok(said)
}

/// Whether a word calls for an option.
fn is_option(word: &str) -> bool {
    word.starts_with('-') && 1 < word.len()
}

/// Appends what is wrong with the words after `run`.
fn put_run(said: &mut String, words: &[&str]) -> Result<(), AllocError> {
    let mut files = 0usize;
    let mut policies = 0usize;
    let mut is_value = false;
    for word in words {
        if is_value {
            is_value = false;
            if !is_policy(word) {
                return put_policy(said, word);
            }
        } else if let Some(value) = word.strip_prefix("--policy=") {
            policies = policies.saturating_add(1);
            if !is_policy(value) {
                return put_policy(said, value);
            }
        } else if *word == "--policy" {
            policies = policies.saturating_add(1);
            is_value = true;
        } else if is_option(word) {
            put_word(said, word)?;
            return said.push_str(
                " is no option of `run`; here stands `--policy P` or a file's name",
            );
        } else {
            files = files.saturating_add(1);
        }
        if 1 < policies {
            put_word(said, word)?;
            return said.push_str(" is a second policy; here stands one at most");
        }
        if 1 < files {
            return put_many(said, word, "one file's name at most");
        }
    }
    said.push_str("no policy follows `--policy`; here stands ")?;
    put_policies(said)
}

fn is_policy(word: &str) -> bool {
    let policy: Result<Policy, _> = word.parse();
    policy.is_ok()
}

fn put_policy(said: &mut String, word: &str) -> Result<(), AllocError> {
    put_word(said, word)?;
    said.push_str(" is no policy; here stands ")?;
    put_policies(said)
}

fn put_policies(said: &mut String) -> Result<(), AllocError> {
    write!(
        said,
        "`fixed`, `expert`, `round:N`, N from 1 to {MOST_ROUND}, or `state:N`, N from 1 to {MOST_STATE}"
    )
}

fn put_many(said: &mut String, word: &str, may: &str) -> Result<(), AllocError> {
    put_word(said, word)?;
    write!(said, " is a word too many; here stands {may}")
}

/// Appends what is wrong with the words after a command that takes so many files.
fn put_files(
    said: &mut String,
    command: &str,
    words: &[&str],
    most: usize,
) -> Result<(), AllocError> {
    let may = if most == 1 {
        "one file's name at most"
    } else {
        "two files' names at most"
    };
    for word in words {
        if is_option(word) {
            put_word(said, word)?;
            return write!(said, " is no option of `{command}`; here stands {may}");
        }
    }
    match words.get(most) {
        Some(word) => put_many(said, word, may),
        None => write!(said, "`{command}` isn't used so; here stands {may}"),
    }
}

/// Appends what is wrong with the words after `gen`.
fn put_gen(said: &mut String, words: &[&str]) -> Result<(), AllocError> {
    let ranges = [
        ("N", 1, u64::from(MOST_TRANSACTIONS)),
        ("T", 1, MAX_CALLERS as u64),
        ("SEED", 0, u64::MAX),
    ];
    for (i, range) in ranges.iter().enumerate() {
        let (name, low, high) = *range;
        let Some(word) = words.get(i) else {
            return write!(
                said,
                "{name} is missing; here stands `gen N T SEED`, {name} from {low} to {high}"
            );
        };
        let why = match number(word) {
            None => " is no number (digits alone, no 0 in front, below 2^64)",
            Some(n) if low <= n && n <= high => continue,
            Some(_) => " is out of its range",
        };
        put_word(said, word)?;
        return write!(said, "{why}; here stands {name} from {low} to {high}");
    }
    match words.get(3) {
        Some(word) => put_many(said, word, "`gen N T SEED`"),
        None => said.push_str("`gen` isn't used so; here stands `gen N T SEED`"),
    }
}
