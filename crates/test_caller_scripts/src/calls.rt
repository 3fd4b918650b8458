//! The calls of a caller, by their words.
use std::alloc::{AllocError, Global};
use std::fmt::Debug;
use stm_model::alg::{ALGORITHMS, Alg};
use tx_checked::checked_caller::CheckedCaller;
use tx_checked::misuse::Misuse;

/// The algorithm of this name.
pub(crate) fn algorithm(name: &str) -> Option<Alg> {
    for alg in ALGORITHMS {
        if alg.name() == name {
            return Some(alg);
        }
    }
    None
}

/// A word that is a number.
pub(crate) fn number(word: Option<&str>) -> Option<u64> {
    word?.parse::<u64>().ok()
}

/// What the call of this word and these numbers answers, in words. None where there is no such call.
pub(crate) fn call(
    alloc: Global,
    caller: &mut CheckedCaller,
    word: &str,
    a: Option<&str>,
    b: Option<&str>,
) -> Result<Option<String>, AllocError> {
    let first = number(a).unwrap_or(0);
    let second = number(b).unwrap_or(0);
    let at = first as usize;
    let answer = match word {
        "begin" => said(alloc, caller.begin())?,
        "read" => said(alloc, caller.read(at))?,
        "write" => said(alloc, caller.write(at, second))?,
        "commit" => said(alloc, caller.commit())?,
        "cancel" => said(alloc, caller.cancel())?,
        "irrevocable" => said(alloc, caller.try_irrevocable())?,
        "state" => format!(in alloc; ": {:?}", caller.state())?,
        "reserve" => said(alloc, caller.reserve(alloc, at, second as usize))?,
        _ => return other_call(alloc, caller, word, a, b),
    };
    Ok(Some(answer))
}

/// The same of the calls that few transactions make: those on the algorithm, on marks and on ranges.
fn other_call(
    alloc: Global,
    caller: &mut CheckedCaller,
    word: &str,
    a: Option<&str>,
    b: Option<&str>,
) -> Result<Option<String>, AllocError> {
    let first = number(a).unwrap_or(0);
    let second = number(b).unwrap_or(0);
    let at = first as usize;
    let answer = match word {
        "switch" => match algorithm(a.unwrap_or("")) {
            Some(alg) => said(alloc, caller.switch(alg))?,
            None => return Ok(None),
        },
        "reopen" => said(alloc, caller.reopen())?,
        "checkpoint" => said(alloc, caller.checkpoint())?,
        "roll_to" => said(alloc, caller.roll_to(at))?,
        "drop_marks" => said(alloc, caller.drop_marks(at))?,
        "fence" => said(alloc, caller.fence(at, second as usize))?,
        "direct_read" => said(alloc, caller.direct_read(at))?,
        "direct_write" => said(alloc, caller.direct_write(at, second))?,
        "give_back" => said(alloc, caller.give_back())?,
        "marks" => format!(in alloc; ": {:?}", caller.marks())?,
        "end" => end(alloc, caller, at)?,
        _ => return Ok(None),
    };
    Ok(Some(answer))
}

/// The end of the memory, with room for at most 64 words, and what is in that room then.
fn end(alloc: Global, caller: &mut CheckedCaller, room: usize) -> Result<String, AllocError> {
    let mut words = vec![in alloc; 9u64; room.min(64)]?;
    let mut text = said(alloc, caller.end(&mut words))?;
    text.push_str(format!(in alloc; ", {words:?}")?.as_str())?;
    Ok(text)
}

/// An answer, or why the call was not made.
pub(crate) fn said<T: Debug + Drop>(
    alloc: Global,
    answer: Result<T, Misuse>,
) -> Result<String, AllocError> {
    match answer {
        Ok(answer) => format!(in alloc; ": {answer:?}"),
        Err(misuse) => format!(in alloc; ": misuse {misuse:?}"),
    }
}
