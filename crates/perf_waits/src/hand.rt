//! Values from one caller to another.
ghost use Rattle.std.specs.Prelude.{◌≡◌, ◌<◌};

use crate::words::{Put, Take};
use std::alloc::Global;
use std::sync::Wait;
use std::thread;
use std::time::{Clock, Duration, Instant};
use stm_tx::{ALGORITHMS, AnyMem};
use tx_jobs::calls::Calls;
use tx_jobs::job::Job;

/// Caller 0 puts the values from 1 on into word 0, after a pause each; caller 1 takes them; any other installs an
/// algorithm for each.
#[derive(Drop)]
pub struct Hand<'a, R> {
    pub rt: &'a R,
    pub alloc: Global,
    pub values: u64,
    pub pause: Duration,
    pub since: Instant,
}

/// Whether all values came, in order, and when each did; the latter only where there were pauses.
#[derive(Drop)]
pub struct Came {
    pub right: bool,
    pub at: Vec<Duration>,
}

impl<'a, R: Wait + Clock> Job<R, AnyMem> for Hand<'a, R> {
    ghost use Rattle.std.specs.Prelude.{◌<◌};

    type Output = Came;

    ghost precondition = { λ job rule words. 0 < words };

    ghost postcondition = { λ job rule words caller answer before after. Unit {0} };

    fn work<C: Calls<R, AnyMem>>(&self, caller: &mut C) -> Came {
        let mut came = Came {
            right: true,
            at: Vec::new(self.alloc),
        };
        for i in 0..self.values {
            if self.pauses(caller.number()) {
                thread::sleep(self.rt, self.pause);
            }
            if !hand_over(caller, i + 1) || !self.noted(&mut came.at) {
                came.right = false;
                return came;
            }
        }
        came
    }
}

impl<'a, R: Wait + Clock> Hand<'a, R> {
    fn pauses(&self, caller: usize) -> bool {
        caller == 0 && !self.pause.is_zero()
    }

    /// Notes when a value came, where there are pauses. False where memory or the clock fails.
    fn noted(&self, at: &mut Vec<Duration>) -> bool {
        if self.pause.is_zero() {
            return true;
        }
        match self.since.elapsed(self.rt) {
            Ok(time) => at.push(time).is_ok(),
            Err(_) => false,
        }
    }
}

fn hand_over<R: Wait, C: Calls<R, AnyMem>>(caller: &mut C, value: u64) -> bool
    requires words { 0 < (C.seat caller.old).words }
    ensures keeps { C.keeps caller.old caller.new }
    ensures same { C.seat caller.new ≡ C.seat caller.old }
{
    match caller.number() {
        0 => caller.until_some(&Put { value }).is_some(),
        1 => caller.until_some(&Take) == Some(value),
        _ => {
            let next = (value % 6) as usize;
            caller.switch_to(ALGORITHMS[next]);
            true
        }
    }
}
