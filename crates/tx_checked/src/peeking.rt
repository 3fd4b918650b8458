//! One word, outside an attempt.
ghost use Rattle.std.specs.Prelude.{◌≡◌, ◌<◌, None, [], false, OnOk, IfErr};
ghost use Rattle.stm_answers.specs.CallerState.{IsRunning, no_log};
ghost use Rattle.tx_checked.specs.CheckedCallers.{IsSameCheckedCaller, IsServed, config_of, known_to};
ghost use Rattle.tx_checked.specs.Misuses.{looking, outside};
ghost use Rattle.tx_checked.specs.Peeking.{HasEndedUnread, HasPeeked, HasReadOnce};
ghost use Rattle.tx_checked.specs.Tells.{Tells};

use crate::calls::Opened;
use crate::checked_caller::CheckedCaller;
use crate::misuse::Misuse;
use stm_answers::answers::Read;
use stm_model::alg::Alg;
use stm_tx::Algorithm;
use stm_tx::serving::{AnyAlgorithm, Calls, Only};

/// What came of a look at a word. What was in the way is written down.
#[derive(Clone, Copy, Drop, Debug, PartialEq, Eq)]
pub enum Peek {
    /// So it was at one moment.
    Value(u64),
    /// It is out of the transactions.
    Fenced,
    /// Another caller has closed the gate.
    Closed,
    /// Another attempt has the lock, or the clock.
    Held,
    /// The clock is at its limit, and the algorithm asks for it.
    ClockFull,
    /// Another transaction came in between.
    Conflict,
    /// The read log has no item, which `open` makes none of.
    Full,
}

impl CheckedCaller {
    /// Looks at the word at `a` outside an attempt, by one that reads this alone. It is fast where the gate names the
    /// algorithm that is expected.
    #[inline(always)]
    #[tactic(auto, using(crate::proofs::PeekLaws::found_closed, crate::proofs::PeekLaws::found_held, crate::proofs::PeekLaws::found_full))]
    pub fn peek_as<A: Algorithm>(&mut self, a: usize) -> Result<Peek, Misuse>
        ensures { Tells (looking a self.old) (HasPeeked a self.old self.new) self.old self.new result }
    {
        self.may_look(a)?;
        match self.open_as::<A>() {
            Opened::Begun(alg) => Ok(read_as::<A>(alg, self, a)),
            Opened::Closed => Ok(Peek::Closed),
            Opened::Held => Ok(Peek::Held),
            Opened::ClockFull => Ok(Peek::ClockFull),
        }
    }

    #[inline(always)]
    fn may_look(&self, a: usize) -> Result<(), Misuse>
        ensures outside { OnOk result (outside self.now ≡ None) }
        ensures inside { OnOk result (a < (config_of self.now).words) }
        ensures fits { OnOk result (looking a self.now ≡ None) }
        ensures wrong { IfErr result (λ e. looking a self.now ≡ Some e) }
    {
        self.is_outside()?;
        if a >= self.stm.config.words {
            return Err(Misuse::Address);
        }
        Ok(())
    }
}

/// Reads the word in an attempt under `alg`, in line where that is the one that was expected.
#[inline(always)]
fn read_as<A: Algorithm>(alg: Alg, caller: &mut CheckedCaller, a: usize) -> Peek
    requires running { IsRunning (known_to caller.old) }
    requires named { (known_to caller.old).alg ≡ alg }
    requires ungranted { (known_to caller.old).granted ≡ false }
    requires blank { (known_to caller.old).log ≡ no_log }
    requires inside { a < (config_of caller.old).words }
    ensures same { IsSameCheckedCaller caller.old caller.new }
    ensures once { HasReadOnce a caller.old caller.new result }
{
    if alg == A::which() {
        read_once(Only::<A>::new(), caller, a)
    } else {
        read_apart(caller, a)
    }
}

#[cold]
#[inline(never)]
fn read_apart(caller: &mut CheckedCaller, a: usize) -> Peek
    requires running { IsRunning (known_to caller.old) }
    requires blank { (known_to caller.old).log ≡ no_log }
    requires inside { a < (config_of caller.old).words }
    ensures same { IsSameCheckedCaller caller.old caller.new }
    ensures once { HasReadOnce a caller.old caller.new result }
{
    read_once(AnyAlgorithm, caller, a)
}

/// Reads the word, and ends the attempt.
#[inline]
fn read_once<C: Calls + Drop>(calls: C, caller: &mut CheckedCaller, a: usize) -> Peek
    requires served { IsServed C.acts_as (known_to caller.old) }
    requires running { IsRunning (known_to caller.old) }
    requires blank { (known_to caller.old).log ≡ no_log }
    requires inside { a < (config_of caller.old).words }
    ensures same { IsSameCheckedCaller caller.old caller.new }
    ensures once { HasReadOnce a caller.old caller.new result }
{
    match caller.read_by(&calls, a) {
        Ok(Read::Value(x)) => {
            end_unread(calls, caller);
            Peek::Value(x)
        }
        Ok(Read::Conflict(_)) => Peek::Conflict,
        Ok(Read::Full { .. }) => Peek::Full,
        Err(_) => {
            end_apart(calls, caller);
            Peek::Fenced
        }
    }
}

/// Ends an attempt that wrote nothing and was not made irrevocable. That is tested,
/// so that no other commit is compiled into it.
#[inline(always)]
fn end_unread<C: Calls + Drop>(calls: C, caller: &mut CheckedCaller)
    requires served { IsServed C.acts_as (known_to caller.old) }
    requires running { IsRunning (known_to caller.old) }
    requires blank { (known_to caller.old).log.writes ≡ [] }
    ensures same { IsSameCheckedCaller caller.old caller.new }
    ensures ended { HasEndedUnread caller.old caller.new }
{
    if caller.desc.local.wrote {
        end_apart(calls, caller);
    } else if caller.desc.local.granted {
        end_apart(calls, caller);
    } else {
        let _ = caller.commit_by(&calls);
    }
}

#[cold]
#[inline(never)]
fn end_apart<C: Calls + Drop>(calls: C, caller: &mut CheckedCaller)
    requires served { IsServed C.acts_as (known_to caller.old) }
    requires running { IsRunning (known_to caller.old) }
    requires blank { (known_to caller.old).log.writes ≡ [] }
    ensures same { IsSameCheckedCaller caller.old caller.new }
    ensures ended { HasEndedUnread caller.old caller.new }
{
    let _ = caller.commit_by(&calls);
}
