//! The calls of an attempt, for a caller with its memory.
ghost use Rattle.std.specs.Prelude.{◌≡◌, true, false, None, OnOk, OnErr, IfErr};
ghost use Rattle.stm_rule.specs.Callers.{IsOf, IsSameCaller};
ghost use Rattle.stm_tx.specs.Descs.{known, number};
ghost use Rattle.stm_answers.specs.Answers.{HoldsClosed};
ghost use Rattle.stm_answers.specs.CallerState.{Grows, IsIdle};
ghost use Rattle.tx_checked.specs.Alone.{IsHeldUp};
ghost use Rattle.tx_checked.specs.declared.errand.Errand.TheVariants.{Switch};
ghost use Rattle.tx_checked.specs.CheckedCallers.{IsServed, known_to};
ghost use Rattle.tx_checked.specs.Misuses.{outside, doing, reopening, inside, running};
ghost use Rattle.tx_checked.specs.Tells.{Tells, HasBegun, HasCommitted, HasCancelled, IsIrrevocable, Switches, HasSwitched, HasReopened};
ghost use Rattle.tx_checked.specs.Opens.{HasOpened, number_found, with_number};

use crate::alone::close_alone;
use crate::checked_caller::CheckedCaller;
use crate::errand::Errand;
use crate::misuse::Misuse;
use crate::phase::CallerPhase;
use crate::refusal::Refusal;
use stm_answers::answers::{Begin, Cancel, Commit, Irrev};
use stm_model::alg::Alg;
use stm_model::rule::AnyMem;
use stm_rule::desc::Desc;
use stm_rule::stm::Stm;
use stm_tx::calls::try_begin_as;
use stm_tx::fencing::fence_seen;
use stm_tx::gate::{install, reopen};
use stm_tx::serving::{AnyAlgorithm, Calls, Only};
use stm_tx::{Algorithm, calls, under};

/// What a begin came to, without what it found.
#[derive(Clone, Copy, Drop)]
pub(crate) enum Opened {
    Begun(Alg),
    Closed,
    Held,
    ClockFull,
}

impl CheckedCaller {
    /// Tries to begin an attempt, as `stm_tx::calls::try_begin` does.
    #[inline(always)]
    #[tactic(auto, using(crate::proofs::BeginLaws::begun_anew))]
    pub fn begin(&mut self) -> Result<Begin, Misuse>
        ensures { Tells (outside self.old) (HasBegun self.old self.new) self.old self.new result }
    {
        self.is_outside()?;
        let opened = self.open();
        Ok(self.with_number(opened))
    }

    /// The same, for who expects this algorithm: where the gate names it, its begin stands in line.
    #[inline(always)]
    #[tactic(auto, using(crate::proofs::BeginLaws::begun_anew))]
    pub fn begin_as<A: Algorithm>(&mut self) -> Result<Begin, Misuse>
        ensures { Tells (outside self.old) (HasBegun self.old self.new) self.old self.new result }
    {
        self.is_outside()?;
        let opened = self.open_as::<A>();
        Ok(self.with_number(opened))
    }

    /// What a begin came to, with the number that it found.
    #[inline(always)]
    fn with_number(&self, opened: Opened) -> Begin
        ensures { result ≡ with_number opened (number_found self.now.refusal) }
    {
        match opened {
            Opened::Begun(alg) => Begin::Begun(alg),
            Opened::Closed => Begin::Closed {
                gate: self.number_found(),
            },
            Opened::Held => Begin::Held {
                word: self.number_found(),
            },
            Opened::ClockFull => Begin::ClockFull {
                clock: self.number_found(),
            },
        }
    }

    #[cold]
    #[inline(never)]
    fn number_found(&self) -> u64
        ensures { result ≡ number_found self.now.refusal }
    {
        match self.refusal {
            Some(Refusal::GateClosed { gate }) => gate,
            Some(Refusal::Held { word }) => word,
            Some(Refusal::ClockFull { clock }) => clock,
            _ => 0,
        }
    }

    /// The same for a caller in no attempt, under the algorithm of its last.
    #[inline(never)]
    fn open(&mut self) -> Opened
        requires idle { outside self.old ≡ None }
        ensures { HasOpened self.old self.new result }
    {
        under!(
            self.desc.local.algorithm,
            open_under(Only::<A>::new(), self)
        )
    }

    /// The number that it finds is written down alone, so that the answer goes by registers.
    #[inline(always)]
    pub(crate) fn open_as<A: Algorithm>(&mut self) -> Opened
        requires idle { outside self.old ≡ None }
        ensures { HasOpened self.old self.new result }
    {
        let stm: &Stm<AnyMem> = &self.stm;
        match try_begin_as::<A, AnyMem>(&mut self.desc, stm) {
            Begin::Begun(alg) => {
                self.counts.begun = self.counts.begun.wrapping_add(1);
                match fence_seen(&self.desc) {
                    None => {
                        self.phase = CallerPhase::Running;
                        self.reach = stm.config.words;
                    }
                    Some(_) => {
                        self.phase = CallerPhase::Beside;
                        self.reach = 0;
                    }
                }
                Opened::Begun(alg)
            }
            Begin::Closed { gate } => {
                self.refusal = Some(Refusal::GateClosed { gate });
                self.counts.refuse(Refusal::GateClosed { gate });
                Opened::Closed
            }
            Begin::Held { word } => {
                self.refusal = Some(Refusal::Held { word });
                self.counts.refuse(Refusal::Held { word });
                Opened::Held
            }
            Begin::ClockFull { clock } => {
                self.refusal = Some(Refusal::ClockFull { clock });
                Opened::ClockFull
            }
        }
    }

    /// Commits the attempt, as `stm_tx::calls::commit` does.
    pub fn commit(&mut self) -> Result<Commit, Misuse>
        ensures { Tells (inside self.old) (HasCommitted self.old self.new) self.old self.new
            result }
    {
        self.commit_by(&AnyAlgorithm)
    }

    /// The same by calls that serve the attempt's algorithm.
    #[inline(always)]
    pub fn commit_by<C: Calls>(&mut self, calls: &C) -> Result<Commit, Misuse>
        requires served { IsServed C.acts_as (known_to self.old) }
        ensures { Tells (inside self.old) (HasCommitted self.old self.new) self.old self.new
            result }
    {
        self.is_inside()?;
        let answer = calls.commit(&mut self.desc, &self.stm).answer;
        match answer {
            Commit::Committed { time } => {
                self.phase = CallerPhase::Idle;
                self.reach = 0;
                self.counts.committed = self.counts.committed.wrapping_add(1);
                self.latest = time;
                Ok(Commit::Committed { time })
            }
            Commit::ReadOnly { time } => {
                self.phase = CallerPhase::Idle;
                self.reach = 0;
                self.counts.read_only = self.counts.read_only.wrapping_add(1);
                Ok(Commit::ReadOnly { time })
            }
            Commit::Conflict(cause) => {
                self.phase = CallerPhase::Idle;
                self.reach = 0;
                self.refusal = Some(Refusal::Conflict(cause));
                self.counts.refuse(Refusal::Conflict(cause));
                Ok(Commit::Conflict(cause))
            }
            Commit::Again { word, had, now } => {
                self.phase = CallerPhase::Committing;
                self.reach = 0;
                self.refusal = Some(Refusal::Again { word, had, now });
                self.counts.refuse(Refusal::Again { word, had, now });
                Ok(Commit::Again { word, had, now })
            }
            Commit::ClockFull { clock } => {
                self.phase = CallerPhase::Idle;
                self.reach = 0;
                self.refusal = Some(Refusal::ClockFull { clock });
                Ok(Commit::ClockFull { clock })
            }
        }
    }

    /// Cancels the attempt, as `stm_tx::calls::cancel` does.
    pub fn cancel(&mut self) -> Result<Cancel, Misuse>
        ensures { Tells (inside self.old) (HasCancelled self.old self.new) self.old self.new
            result }
    {
        self.is_inside()?;
        match calls::cancel(&mut self.desc, &self.stm) {
            Cancel::Cancelled { time } => {
                self.phase = CallerPhase::Idle;
                self.reach = 0;
                Ok(Cancel::Cancelled { time })
            }
            Cancel::Irrevocable => {
                self.refusal = Some(Refusal::Irrevocable);
                Ok(Cancel::Irrevocable)
            }
        }
    }

    /// Tries to make the attempt irrevocable, as `stm_tx::calls::try_irrevocable` does.
    pub fn try_irrevocable(&mut self) -> Result<Irrev, Misuse>
        ensures { Tells (running self.old) (IsIrrevocable self.old self.new) self.old self.new
            result }
    {
        self.is_running()?;
        match calls::try_irrevocable(&mut self.desc, &self.stm) {
            Irrev::Granted => {
                self.counts.promoted = self.counts.promoted.wrapping_add(1);
                Ok(Irrev::Granted)
            }
            Irrev::Busy { caller, status } => {
                self.refusal = Some(Refusal::Busy { caller, status });
                self.counts.refuse(Refusal::Busy { caller, status });
                Ok(Irrev::Busy { caller, status })
            }
            Irrev::Taken { gate } => {
                self.refusal = Some(Refusal::GateClosed { gate });
                self.counts.refuse(Refusal::GateClosed { gate });
                Ok(Irrev::Taken { gate })
            }
            Irrev::Conflict(cause) => {
                self.phase = CallerPhase::Idle;
                self.reach = 0;
                self.refusal = Some(Refusal::Conflict(cause));
                self.counts.refuse(Refusal::Conflict(cause));
                Ok(Irrev::Conflict(cause))
            }
            Irrev::ClockFull { clock } => {
                self.phase = CallerPhase::Idle;
                self.reach = 0;
                self.refusal = Some(Refusal::ClockFull { clock });
                Ok(Irrev::ClockFull { clock })
            }
        }
    }

    /// Installs an algorithm, once no other caller is in an attempt. `Busy` leaves the gate closed: the same call goes
    /// on from there, and `reopen` gives it up.
    pub fn switch(&mut self, alg: Alg) -> Result<Result<(), Refusal>, Misuse>
        ensures { Tells (doing (Switch alg) self.old) (HasSwitched alg self.old self.new) self.old
            self.new result }
    {
        let closing = self.may_do(Errand::Switch(alg))?;
        match install_alone(&mut self.desc, &self.stm, closing, alg) {
            Ok(()) => {
                self.phase = CallerPhase::Idle;
                self.reach = 0;
                Ok(Ok(()))
            }
            Err(refusal) => {
                self.phase = CallerPhase::after(refusal);
                self.errand = Errand::Switch(alg);
                self.reach = 0;
                self.refusal = Some(refusal);
                self.counts.refuse(refusal);
                Ok(Err(refusal))
            }
        }
    }

    /// Gives up the call for which the caller has closed the gate: the gate is open again.
    pub fn reopen(&mut self) -> Result<(), Misuse>
        ensures { Tells (reopening self.old) (HasReopened self.old self.new) self.old self.new
            result }
    {
        self.is_closing()?;
        reopen(&mut self.desc, &self.stm);
        self.phase = CallerPhase::Idle;
        self.reach = 0;
        Ok(())
    }
}

#[inline(always)]
fn open_under<A: Algorithm>(only: Only<A>, caller: &mut CheckedCaller) -> Opened
    requires idle { outside caller.old ≡ None }
    ensures { HasOpened caller.old caller.new result }
{
    let _ = only;
    caller.open_as::<A>()
}

/// Installs an algorithm, and reopens the gate.
fn install_alone(
    desc: &mut Desc<AnyMem>,
    stm: &Stm<AnyMem>,
    closing: bool,
    alg: Alg,
) -> Result<(), Refusal>
    requires stm { IsOf desc.old stm.now }
    requires idle { closing ≡ false → IsIdle (known desc.old) }
    requires closed { closing ≡ true → HoldsClosed (known desc.old) }
    ensures same { IsSameCaller desc.old desc.new }
    ensures idle { OnOk result (IsIdle (known desc.new)) }
    ensures switched { OnOk result (Switches alg (known desc.old) (known desc.new)) }
    ensures grew { Grows (known desc.old) (known desc.new) }
    ensures made { (known desc.new).made ≡ (known desc.old).made }
    ensures rises { OnErr result ((known desc.new).rises ≡ (known desc.old).rises) }
    ensures installs { OnErr result ((known desc.new).installs ≡ (known desc.old).installs) }
    ensures held_up { IfErr result (λ e.
        IsHeldUp stm.now.config (number desc.old) closing e (known desc.old) (known desc.new)) }
{
    close_alone(desc, stm, closing)?;
    install(desc, stm, alg);
    reopen(desc, stm);
    Ok(())
}
