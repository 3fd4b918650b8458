//! The callers that move money among words 0 to 7, and look at all words that they may read.

use crate::counts::{Counts, Sight};
use std::sync::Wait;
use stm_answers::answers::{Begin, Commit, Read, Write};
use tx_backoff::Backoff;
use tx_checked::checked_caller::CheckedCaller;
use tx_checked::misuse::Misuse;

/// Looks at all words that the attempt may read. None where that ended the attempt.
fn survey(checked_caller: &mut CheckedCaller) -> Option<Sight> {
    let mut sight = Sight {
        out: false,
        sum: 0,
        weight: 0,
    };
    for a in 0..16usize {
        match checked_caller.read(a) {
            Ok(Read::Value(x)) => {
                sight.sum = sight.sum.wrapping_add(x);
                sight.weight = sight.weight.wrapping_add(weight_of(a).wrapping_mul(x));
            }
            Err(Misuse::Fenced) => sight.out = true,
            _ => return None,
        }
    }
    Some(sight)
}

/// How often a word counts in the weight.
fn weight_of(a: usize) -> u64 {
    if a < 8 { 0 } else { (a - 7) as u64 }
}

fn value(checked_caller: &mut CheckedCaller, a: usize) -> Option<u64> {
    match checked_caller.read(a) {
        Ok(Read::Value(x)) => Some(x),
        _ => None,
    }
}

fn put(checked_caller: &mut CheckedCaller, a: usize, x: u64) -> Option<()> {
    match checked_caller.write(a, x) {
        Ok(Write::Done) => Some(()),
        _ => None,
    }
}

/// Moves one unit from word `from` to word `to`, where the one has it. None where that ended the attempt.
fn transfer(checked_caller: &mut CheckedCaller, from: usize, to: usize) -> Option<()> {
    let rich = value(checked_caller, from)?;
    let poor = value(checked_caller, to)?;
    if from == to || rich == 0 {
        return Some(());
    }
    put(checked_caller, from, rich.wrapping_sub(1))?;
    put(checked_caller, to, poor.wrapping_add(1))
}

/// Commits, again and again where another was faster. Answers whether the attempt took effect; it is over either way.
fn end<R: Wait>(rt: &R, checked_caller: &mut CheckedCaller) -> bool {
    let mut backoff = Backoff::new();
    for _ in rt.forever() {
        match checked_caller.commit() {
            Ok(Commit::Committed { .. } | Commit::ReadOnly { .. }) => return true,
            Ok(Commit::Again { .. }) => backoff.wait(),
            _ => return false,
        }
    }
    unreachable!()
}

/// One attempt: looks, moves one unit, and commits. Answers what it found, where it committed.
pub fn attempt<R: Wait>(
    rt: &R,
    checked_caller: &mut CheckedCaller,
    from: usize,
    to: usize,
) -> Option<Sight> {
    let Ok(Begin::Begun(_)) = checked_caller.begin() else {
        return None;
    };
    let sight = survey(checked_caller)?;
    transfer(checked_caller, from, to)?;
    if end(rt, checked_caller) {
        Some(sight)
    } else {
        None
    }
}

/// Makes attempts, each from another word to another one, until the caller that takes the range is through. It never
/// makes room for that one.
pub fn move_often<R: Wait>(rt: &R, checked_caller: &mut CheckedCaller, counts: &Counts) {
    let mut backoff = Backoff::new();
    let mut i: usize = 0;
    for _ in rt.forever() {
        if counts.is_through() {
            return;
        }
        match attempt(rt, checked_caller, i % 8, i / 8 % 8) {
            Some(sight) => {
                counts.note(sight);
                backoff.reset();
            }
            None => backoff.wait(),
        }
        i = i.wrapping_add(1);
    }
    unreachable!()
}

/// Words 0 to 7 hold money, 100 each, and words 8 to 15 the numbers 1 to 8. Answers whether they do.
pub fn fill<R: Wait>(rt: &R, checked_caller: &mut CheckedCaller) -> bool {
    let Ok(Begin::Begun(_)) = checked_caller.begin() else {
        return false;
    };
    for a in 0..16usize {
        let x = if a < 8 { 100 } else { weight_of(a) };
        if put(checked_caller, a, x).is_none() {
            return false;
        }
    }
    end(rt, checked_caller)
}
