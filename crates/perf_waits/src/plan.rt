//! What the command line asks for.

use stm_tx::{ALGORITHMS, Alg};

#[derive(Clone, Copy, Drop)]
pub struct Plan {
    pub algorithm: Alg,
    pub values: u64,
    /// In microseconds.
    pub pause: u64,
    pub switches: bool,
}

/// The words of the command line, the program's name first.
pub fn plan_of(words: &[&str]) -> Option<Plan> {
    let (algorithm, values, pause, switches) = match words {
        [_, algorithm, values, pause] => (algorithm, values, pause, false),
        [_, algorithm, values, pause, "switches"] => (algorithm, values, pause, true),
        _ => return None,
    };
    Some(Plan {
        algorithm: algorithm_of(algorithm)?,
        values: values.parse().ok()?,
        pause: pause.parse().ok()?,
        switches,
    })
}

fn algorithm_of(word: &str) -> Option<Alg> {
    for alg in ALGORITHMS {
        if alg.name() == word {
            return Some(alg);
        }
    }
    None
}
