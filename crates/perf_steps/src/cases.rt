//! Each call of an attempt under each algorithm, brought to where it takes the most steps that it can without another
//! caller's step in the middle of it.
//!
//! A word of moves has the caller's number and what it calls: b `try_begin`, r `read` and w `write` of a word,
//! c `commit`, x `cancel`, p `try_irrevocable`, m `checkpoint`, u `roll_to` mark 1. `0p` while caller 1 is in an
//! attempt answers Busy, and leaves caller 0 the gate, which it has to reopen at its end.
use crate::caller::{Answer, Move, play};
use crate::counting::{begin_count, end_count};
use std::alloc::Global;
use stm_model::alg::Alg;
use stm_model::config::{CLOCK_LIMIT, Config};
use tx_checked::checked_caller::CheckedCaller;
use tx_checked::opening::open;

/// Three callers; logs of three items, a ring of four slots. The bits of word 49345 lie in the last words of the four
/// parts of a filter; words 193, 49152 and 16 have a bit with it each in one of the first three parts, and none in the
/// last: so a check that has read that word loads all 16 words of the slot of who wrote these three, and passes.
const MEMORY: Config = Config {
    words: 49346,
    records: 16,
    ring: 4,
    callers: 3,
    reads: 3,
    writes: 3,
    clock: 0,
    fence: false,
    marks: 8,
};

/// What is counted, the algorithm, whether the clock is at its limit from the start, the moves before, and the one that
/// is counted.
pub type Case = (&'static str, Alg, bool, &'static str, &'static str);

pub const CASES: [Case; 38] = [
    ("CGL try_begin", Alg::Cgl, true, "", "0b"),
    ("CGL read", Alg::Cgl, false, "0b", "0r1"),
    ("CGL write", Alg::Cgl, false, "0b", "0w1"),
    ("CGL commit", Alg::Cgl, false, "0b 0w1", "0c"),
    ("CGL cancel", Alg::Cgl, false, "0b", "0x"),
    ("CGL try_irrevocable", Alg::Cgl, false, "0b", "0p"),
    ("Serial try_begin", Alg::Serial, false, "1b", "0b"),
    ("Serial read", Alg::Serial, false, "0b", "0r1"),
    ("Serial write", Alg::Serial, false, "0b 0w1 0w2 0w3", "0w4"),
    ("Serial commit", Alg::Serial, false, "0b 0w1", "0c"),
    ("Serial cancel", Alg::Serial, false, "0b 0w1 0w2 0w3", "0x"),
    (
        "Serial cancel",
        Alg::Serial,
        false,
        "0b 0m 0w1 0u 0w2 0u 0w3 0u 0w1 0w2 0w3",
        "0x",
    ),
    ("Serial try_irrevocable", Alg::Serial, true, "0b", "0p"),
    ("TML try_begin", Alg::Tml, false, "1b 1w1", "0b"),
    ("TML read", Alg::Tml, false, "0b 1b 0p 1w2", "0r1"),
    ("TML write", Alg::Tml, false, "0b 1b 0p 1w2", "0w1"),
    ("TML commit", Alg::Tml, false, "0b 0p 0w1", "0c"),
    ("TML cancel", Alg::Tml, false, "0b 1b 0p", "0x"),
    ("TML try_irrevocable", Alg::Tml, false, "0b 1b 1w2 1c", "0p"),
    ("OrecLazy try_begin", Alg::OrecLazy, false, "", "0b"),
    (
        "OrecLazy read",
        Alg::OrecLazy,
        false,
        "0b 0r1 0r2 1b 0p 1w2 1w5 1c",
        "0r5",
    ),
    (
        "OrecLazy write",
        Alg::OrecLazy,
        false,
        "0b 0w1 0w2 0w3 1b 0p",
        "0w4",
    ),
    (
        "OrecLazy commit",
        Alg::OrecLazy,
        false,
        "0b 0r1 0r2 0r3 0w4 0w5 0w6 1b 0p 1w4 1c",
        "0c",
    ),
    (
        "OrecLazy cancel",
        Alg::OrecLazy,
        false,
        "0b 0w4 0w5 0w6 1b 0p 1w9 1c 0c",
        "0x",
    ),
    (
        "OrecLazy try_irrevocable",
        Alg::OrecLazy,
        false,
        "0b 0r1 0r2 0r3 0w4 0w5 0w6",
        "0p",
    ),
    ("OrecEager try_begin", Alg::OrecEager, false, "", "0b"),
    (
        "OrecEager read",
        Alg::OrecEager,
        false,
        "0b 0w4 0w5 0w6 0r1 0r2 1b 0p 1w2 1w9 1c",
        "0r9",
    ),
    (
        "OrecEager write",
        Alg::OrecEager,
        false,
        "0b 0w4 0w5 0r1 0r2 0r3 1b 0p 1w3 1w9 1c",
        "0w9",
    ),
    (
        "OrecEager commit",
        Alg::OrecEager,
        false,
        "0b 0w4 0w5 0w6 0r1 0r2 0r3 1b 2b 0p 1w9 1c 0c 2w3 2c 2c",
        "0c",
    ),
    (
        "OrecEager cancel",
        Alg::OrecEager,
        false,
        "0b 0w4 0w5 0w6 1b 0p",
        "0x",
    ),
    (
        "OrecEager cancel",
        Alg::OrecEager,
        false,
        "0b 0m 0w4 0u 0w5 0u 0w6 0u 0w4 0w5 0w6 1b 0p",
        "0x",
    ),
    (
        "OrecEager try_irrevocable",
        Alg::OrecEager,
        false,
        "0b 0w4 0w5 0w6 0r1 0r2 0r3 1b 1w3 1c",
        "0p",
    ),
    ("RingSW try_begin", Alg::RingSw, false, "", "0b"),
    (
        "RingSW read",
        Alg::RingSw,
        false,
        "0b 1b 1w193 1w49152 1w16 1c 1b 1w193 1w49152 1w16 1c 1b 0p 1w49345 1c",
        "0r49345",
    ),
    (
        "RingSW write",
        Alg::RingSw,
        false,
        "0b 0w1 0w2 0w3 1b 0p",
        "0w4",
    ),
    (
        "RingSW commit",
        Alg::RingSw,
        false,
        "0b 0r49345 0w1 0w2 0w3 1b 1w193 1w49152 1w16 1c 1b 1w193 1w49152 1w16 1c 1b 0p 1w193 1w49152 1w16 1c",
        "0c",
    ),
    ("RingSW cancel", Alg::RingSw, false, "0b 1b 0p", "0x"),
    (
        "RingSW try_irrevocable",
        Alg::RingSw,
        false,
        "0b 0r49345 0w1 0w2 0w3 1b 1w193 1w49152 1w16 1c 1b 1w193 1w49152 1w16 1c 1b 1w193 1w49152 1w16 1c",
        "0p",
    ),
];

/// Opens a memory under the algorithm, makes the moves of the case, and counts the last. Answers what that came to;
/// None where no memory is found.
pub fn run(alloc: Global, case: &Case) -> Option<Answer> {
    let (_, alg, is_full, before, counted) = *case;
    let config = Config {
        clock: if is_full { CLOCK_LIMIT } else { 0 },
        ..MEMORY
    };
    match open(alloc, config, alg) {
        Ok(mut callers) => Some(play_all(callers.as_mut_slice(), before, counted)),
        Err(_) => None,
    }
}

/// Makes the moves, and counts the last.
fn play_all(callers: &mut [CheckedCaller], before: &str, counted: &str) -> Answer {
    for word in before.split(' ') {
        make(callers, word.as_bytes());
    }
    begin_count();
    let answer = make(callers, counted.as_bytes());
    end_count();
    answer
}

/// Makes the move of a word.
fn make(callers: &mut [CheckedCaller], word: &[u8]) -> Answer {
    let number = match word.first() {
        Some(digit) => digit.wrapping_sub(b'0'),
        None => return Answer::Misplaced,
    };
    match callers.get_mut(usize::from(number)) {
        Some(caller) => play(caller, parse(word)),
        None => Answer::Misplaced,
    }
}

/// What a word calls.
fn parse(word: &[u8]) -> Move {
    let a = match word.get(2..) {
        Some(digits) => number(digits),
        None => 0,
    };
    match word.get(1) {
        Some(b'b') => Move::Begin,
        Some(b'r') => Move::Read(a),
        Some(b'w') => Move::Write(a),
        Some(b'c') => Move::Commit,
        Some(b'p') => Move::Promote,
        Some(b'm') => Move::Mark,
        Some(b'u') => Move::RollBack,
        _ => Move::Cancel,
    }
}

fn number(digits: &[u8]) -> usize {
    let mut n = 0usize;
    for &digit in digits {
        n = n
            .wrapping_mul(10)
            .wrapping_add(digit.wrapping_sub(b'0') as usize);
    }
    n
}
