//! The words of a line, one by one, and the row or the word of the memory that they tell.
ghost use Rattle.std.specs.Prelude.{◌≡◌, ◌∷◌, ◌<◌, ◌≤◌, [], length, drop, IfOk, IfErr};
ghost use Rattle.work_text.specs.Lines.{words_of, number_of};
ghost use Rattle.work_check.specs.Grammar.{words_left, numbers_of, outputs_of, kind_of, row_of, memory_word_of, Tells};
ghost use Rattle.work_check.specs.declared.table.WordsError.TheVariants.{Wrong};

use crate::table::WordsError;
use smallvec::SmallVec;
use std::alloc::Global;
use work_script::lists::Words;
use work_script::report::{Kind, Row};
use work_text::lines;

/// The first word of a line, and the rest from the space on, which is empty where there is none.
pub fn first_word(line: &[u8]) -> (&[u8], &[u8])
    ensures words { words_of line.now ≡ result.0.now ∷ words_left result.1.now }
    ensures shorter { length result.1.now ≤ length line.now }
{
    match lines::find(b' ', line) {
        None => (line, &[]),
        Some(i) => (&line[..i], tail(line, i)),
    }
}

/// What stands from the byte at `i` on.
fn tail(line: &[u8], i: usize) -> &[u8]
    requires { i < length line.now }
    ensures { result.now ≡ drop i line.now }
{
    &line[i..]
}

/// The next word, where there is one, and the rest after it.
pub fn next_word(rest: &[u8]) -> Result<(&[u8], &[u8]), WordsError>
    ensures some { IfOk result (λ n. words_left rest.now ≡ n.0.now ∷ words_left n.1.now) }
    ensures shorter { IfOk result (λ n. length n.1.now < length rest.now) }
    ensures none { IfErr result (λ e. words_left rest.now ≡ []) }
    ensures wrong { IfErr result (λ e. e ≡ Wrong) }
{
    if rest.is_empty() {
        return Err(WordsError::Wrong);
    }
    Ok(first_word(lines::past(rest, 0)))
}

fn number(word: &[u8]) -> Result<u64, WordsError>
    ensures { Tells result (number_of word.now) }
{
    lines::number(word).ok_or(WordsError::Wrong)
}

fn kind(word: &[u8]) -> Result<Kind, WordsError>
    ensures { Tells result (kind_of word.now) }
{
    if lines::is(word, b"W") {
        return Ok(Kind::W);
    }
    if lines::is(word, b"R") {
        return Ok(Kind::R);
    }
    if lines::is(word, b"C") {
        return Ok(Kind::C);
    }
    Err(WordsError::Wrong)
}

/// Words that are numbers, each. Memory may be refused.
fn numbers(alloc: Global, from: &[u8]) -> Result<Words, WordsError>
    ensures { Tells result (numbers_of (words_left from.now)) }
{
    let mut found = SmallVec::new(alloc);
    let mut rest = from;
    while !rest.is_empty() {
        let (word, behind) = first_word(lines::past(rest, 0));
        found.push(number(word)?)?;
        rest = behind;
    }
    Ok(Words::new(found))
}

/// The replies, and after a `!` the emits. Memory may be refused.
fn outputs(alloc: Global, from: &[u8]) -> Result<(Words, Words), WordsError>
    ensures { Tells result (outputs_of (words_left from.now)) }
{
    let mut replies = SmallVec::new(alloc);
    let mut rest = from;
    while !rest.is_empty() {
        let (word, behind) = first_word(lines::past(rest, 0));
        if lines::is(word, b"!") {
            if behind.is_empty() {
                return Err(WordsError::Wrong);
            }
            let emits = numbers(alloc, behind)?;
            return Ok((Words::new(replies), emits));
        }
        replies.push(number(word)?)?;
        rest = behind;
    }
    Ok((Words::new(replies), Words::new(SmallVec::new(alloc))))
}

/// `K place caller seq : r1 r2 ..`, and the emits. Memory may be refused.
pub fn row(alloc: Global, line: &[u8]) -> Result<Row, WordsError>
    ensures { Tells result (row_of (words_of line.now)) }
{
    let (letter, rest) = first_word(line);
    let (place, rest) = next_word(rest)?;
    let (caller, rest) = next_word(rest)?;
    let (seq, rest) = next_word(rest)?;
    let (colon, rest) = next_word(rest)?;
    let kind = kind(letter)?;
    let place = number(place)?;
    let caller = number(caller)? as usize;
    let seq = number(seq)? as usize;
    if !lines::is(colon, b":") {
        return Err(WordsError::Wrong);
    }
    let (replies, emits) = outputs(alloc, rest)?;
    Ok(Row {
        kind,
        place,
        caller,
        seq,
        replies,
        emits,
    })
}

/// `mem a v`.
pub fn memory_word(line: &[u8]) -> Result<(usize, u64), WordsError>
    ensures { Tells result (memory_word_of (words_of line.now)) }
{
    let (name, rest) = first_word(line);
    let (address, rest) = next_word(rest)?;
    let (value, rest) = next_word(rest)?;
    if !rest.is_empty() {
        return Err(WordsError::Wrong);
    }
    if !lines::is(name, b"mem") {
        return Err(WordsError::Wrong);
    }
    let address = number(address)? as usize;
    let value = number(value)?;
    if value == 0 {
        return Err(WordsError::Wrong);
    }
    Ok((address, value))
}
