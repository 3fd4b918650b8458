//! Which word of a command line is wrong, in a sentence.
use crate::plan::{WORDS, WORKLOADS};
use std::alloc::{AllocError, Global};
use stm_model::alg::ALGORITHMS;
use stm_model::config::{MOST_CALLERS, MOST_LOG, MOST_WORDS};
use work_nearest::{put_nearest, put_word};
use work_profile::numbers::number;

/// The numbers that follow the algorithm, with their ranges.
const NUMBERS: [(&str, u64, u64); 3] = [
    ("THREADS", 1, MOST_CALLERS as u64),
    ("COUNT", 1, u32::MAX as u64),
    ("SEED", 0, u64::MAX),
];

/// What is wrong with words that ask for nothing, in a sentence: which of them, and what may stand there.
///
/// # Errors
/// Memory, where it is refused.
pub fn wrong_word(alloc: Global, words: &[&str]) -> Result<String, AllocError> {
    let mut said = String::new(alloc);
    let mut workloads = Vec::new(alloc);
    for workload in WORKLOADS {
        workloads.push(workload.name())?;
    }
    if put_name(
        alloc,
        &mut said,
        "WORKLOAD",
        words.get(1),
        workloads.as_slice(),
    )? {
        return Ok(said);
    }
    let mut algorithms = Vec::new(alloc);
    for alg in ALGORITHMS {
        algorithms.push(alg.name())?;
    }
    if put_name(
        alloc,
        &mut said,
        "ALGORITHM",
        words.get(2),
        algorithms.as_slice(),
    )? {
        return Ok(said);
    }
    for (i, range) in NUMBERS.iter().enumerate() {
        let (name, low, high) = *range;
        if put_number(&mut said, name, words.get(i + 3), low, high)? {
            return Ok(said);
        }
    }
    put_rest(&mut said, &words[words.len().min(6)..])?;
    Ok(said)
}

/// Appends what is wrong with a word that is to be one of these; answers whether something is.
fn put_name(
    alloc: Global,
    said: &mut String,
    name: &str,
    word: Option<&&str>,
    names: &[&str],
) -> Result<bool, AllocError> {
    let Some(word) = word else {
        write!(said, "{name} is missing; here stands one of ")?;
        put_nearest(alloc, said, "", names)?;
        return Ok(true);
    };
    if names.contains(word) {
        return Ok(false);
    }
    put_word(said, word)?;
    write!(said, " is no {name}; here stands ")?;
    put_nearest(alloc, said, word, names)?;
    Ok(true)
}

/// Appends what is wrong with a word that is to be a number of this range; answers whether something is.
fn put_number(
    said: &mut String,
    name: &str,
    word: Option<&&str>,
    low: u64,
    high: u64,
) -> Result<bool, AllocError> {
    let Some(word) = word else {
        write!(
            said,
            "{name} is missing; here stands {name} from {low} to {high}"
        )?;
        return Ok(true);
    };
    let why = match number(word) {
        None => " is no number (digits alone, no 0 in front, below 2^64)",
        Some(n) if low <= n && n <= high => return Ok(false),
        Some(_) => " is out of its range",
    };
    put_word(said, word)?;
    write!(said, "{why}; here stands {name} from {low} to {high}")?;
    Ok(true)
}

/// Appends what is wrong with the words after the seed: `[READS] [words N] [switches N] [conflicts]`.
fn put_rest(said: &mut String, words: &[&str]) -> Result<(), AllocError> {
    let mut at = 0usize;
    if let Some(word) = words.first() {
        if number(word).is_some() {
            if put_number(said, "READS", Some(word), 1, MOST_LOG as u64)? {
                return Ok(());
            }
            at = 1;
        }
    }
    if words.get(at) == Some(&"words") {
        let word = words.get(at + 1);
        if put_number(said, "N", word, WORDS as u64, MOST_WORDS as u64)? {
            return Ok(());
        }
        at += 2;
    }
    if words.get(at) == Some(&"switches") {
        if put_number(said, "N", words.get(at + 1), 1, u64::from(u32::MAX))? {
            return Ok(());
        }
        at += 2;
    }
    if words.get(at) == Some(&"conflicts") {
        at += 1;
    }
    if words.get(at) == Some(&"--time") {
        at += 1;
    }
    match words.get(at) {
        Some(word) => put_word(said, word)?,
        None => said.push_str("the last word")?,
    }
    said.push_str(
        " isn't used so; here stands `SEED [READS] [words N] [switches N] [conflicts] [--time]`",
    )
}
