//! What an observer is told: each refusal that the tally counts, and the address of the word.

use crate::tx_atomic_tests::{COUNTING, Increment};
use std::alloc::Global;
use std::sync::Wait;
use std::test::Fail;
use stm_model::alg::Alg;
use stm_model::config::Config;
use stm_model::rule::AnyMem;
use stm_rule::refusal::NewError;
use stm_rule::stm::Stm;
use tx_atomic::atomically::atomically;
use tx_atomic::observer::Observer;
use tx_atomic::pace::Pacing;
use tx_atomic::switching::switch_to;
use tx_atomic::tally::{Ended, Tally};

/// Counts what it is told, and keeps the last address.
#[derive(Clone, Copy, Drop, Debug, PartialEq, Eq)]
struct Listener {
    told: Tally,
    at: Option<usize>,
}

impl Observer for Listener {
    ghost use Rattle.std.specs.Prelude.{ℕ, Option};
    ghost use Rattle.tx_atomic.specs.declared.tally.Tally.{Tally};
    ghost use Rattle.tx_atomic.specs.Tallies.{noted};

    ghost Heard = { Tally × Option ℕ };

    ghost heard = { λ l. (l.told, l.at) };

    ghost hears = { λ ended at heard. (noted ended heard.0, at) };

    fn refused(&mut self, ended: Ended, at: Option<usize>) {
        self.told.note(ended);
        self.at = at;
    }
}

fn listening() -> Pacing<Listener> {
    Pacing::observed(Listener {
        told: Tally::new(),
        at: None,
    })
}

/// The third read of an increment finds a log of two items full; then it is made irrevocable, and commits.
fn crowded<R: Wait>(rt: &R, alloc: Global) -> Result<Pacing<Listener>, NewError> {
    let config = Config {
        callers: 1,
        reads: 2,
        ..COUNTING
    };
    let (stm, mut descs) = Stm::new(alloc, config, AnyMem)?;
    let Some(mut desc) = descs.pop() else {
        unreachable!()
    };
    switch_to(rt, &mut desc, &stm, Alg::OrecLazy);
    let mut pace = listening();
    atomically(rt, &mut desc, &stm, &mut pace, &Increment);
    Ok(pace)
}

#[test]
fn a_full_log_is_told_with_its_address(rt: HostRuntime) -> Result<(), Fail> {
    let pace = crowded(&rt, rt.alloc())?;
    assert_eq!(rt; pace.observer.at, Some(2));
    let counted = Tally {
        commits: 0,
        promotions: 0,
        ..pace.tally
    };
    assert_eq!(rt; pace.observer.told, counted);
    assert_eq!(rt; counted.full, 1);
    Ok(())
}
