//! A script: its memory, and one line after the other.
use crate::calls::{algorithm, call, number, said};
use std::alloc::{AllocError, Global};
use std::str::SplitWhitespace;
use stm_model::config::Config;
use tx_checked::checked_caller::CheckedCaller;
use tx_checked::opening::open;

/// The callers of the memory that is open, by their numbers; None in the place of one that has left.
#[derive(Drop)]
pub(crate) struct Script {
    callers: Vec<Option<CheckedCaller>>,
}

impl Script {
    /// No memory is open.
    pub(crate) fn new(alloc: Global) -> Script {
        Script {
            callers: Vec::new(alloc),
        }
    }

    /// Does what the line says. Answers what is to be written after it.
    pub(crate) fn play(&mut self, alloc: Global, line: &str) -> Result<String, AllocError> {
        let mut words = line.split_whitespace();
        let first = words.next().unwrap_or("#");
        if first.starts_with('#') {
            return Ok(String::new(alloc));
        }
        if first == "memory" {
            return self.open(alloc, words);
        }
        let n = number(Some(first)).unwrap_or(u64::MAX);
        let word = words.next().unwrap_or("");
        if word == "learn" {
            let from = number(words.next()).unwrap_or(u64::MAX);
            return self.learn(alloc, n as usize, from as usize);
        }
        let Some(place) = self.callers.get_mut(n as usize) else {
            return String::from_str(alloc, ": no such caller");
        };
        if word == "leave" {
            *place = None;
            return Ok(String::new(alloc));
        }
        let Some(caller) = place else {
            return String::from_str(alloc, ": it has left");
        };
        let a = words.next();
        let b = words.next();
        match call(alloc, caller, word, a, b)? {
            Some(answer) => Ok(answer),
            None => String::from_str(alloc, ": no such call"),
        }
    }

    /// Has a caller learn from another.
    fn learn(&mut self, alloc: Global, to: usize, from: usize) -> Result<String, AllocError> {
        let Some(Some(mut teller)) = self.callers.get_mut(from).map(Option::take) else {
            return String::from_str(alloc, ": no such caller");
        };
        let answer = match self.callers.get_mut(to) {
            Some(Some(caller)) => said(alloc, caller.learn(&mut teller)),
            _ => String::from_str(alloc, ": no such caller"),
        };
        if let Some(place) = self.callers.get_mut(from) {
            *place = Some(teller);
        }
        answer
    }

    /// Opens the memory of these sizes.
    fn open(
        &mut self,
        alloc: Global,
        mut words: SplitWhitespace<'_>,
    ) -> Result<String, AllocError> {
        self.callers.clear();
        let mut sizes = [0u64; 7];
        for size in sizes.iter_mut() {
            *size = number(words.next()).unwrap_or(0);
        }
        let config = Config {
            words: sizes[0] as usize,
            records: sizes[1] as usize,
            ring: sizes[2] as usize,
            callers: sizes[3] as usize,
            reads: sizes[4] as usize,
            writes: sizes[5] as usize,
            clock: sizes[6],
            fence: true,
            marks: 8,
        };
        let Some(alg) = algorithm(words.next().unwrap_or("")) else {
            return String::from_str(alloc, ": no such algorithm");
        };
        match open(alloc, config, alg) {
            Ok(checked_callers) => {
                for checked_caller in checked_callers {
                    self.callers.push(Some(checked_caller))?;
                }
                Ok(String::new(alloc))
            }
            Err(refused) => {
                let error = refused.error;
                format!(in alloc; ": {error:?}")
            }
        }
    }
}
