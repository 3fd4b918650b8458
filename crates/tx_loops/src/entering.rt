//! The begin of a loop, and of each of its attempts.
ghost use Rattle.std.specs.Prelude.{◌≡◌, ◌<◌, true, false, None};
ghost use Rattle.stm_answers.specs.CallerState.{IsIdle, IsRunning, no_log};
ghost use Rattle.tx_checked.specs.CheckedCallers.{known_to};
ghost use Rattle.tx_loops.specs.Loops.{AskSays, EnterSays, LengthenSays, MadeNothing, MayRun, OpenSays};
ghost use Rattle.tx_loops.specs.Turns.{IsPause};
ghost use Rattle.tx_loops.specs.Waits.{KeepsWatch};
ghost use Rattle.tx_loops.specs.Watches.{StandsStill};
ghost use Rattle.tx_loops.specs.declared.plan.LogKind.TheVariants.{Reads, Writes};
ghost use Rattle.tx_loops.specs.declared.stage.Stage.TheVariants.{Asking, Free};

use crate::ends::end_blank;
use crate::looping_caller::LoopingCaller;
use crate::plan::LogKind;
use crate::stage::Stage;
use crate::turn::Turn;
use std::alloc::Global;
use stm_answers::answers::{Begin, Irrev};
use stm_model::alg::Alg;
use stm_model::memory::Memory;
use stm_tx::serving::{AnyAlgorithm, Only};
use stm_tx::{Algorithm, under};
use tx_checked::misuse::Misuse;

impl LoopingCaller {
    /// Begins a loop, or its next attempt, or goes on with one that was put off.
    #[tactic(auto, using(crate::proofs::WatchLaws::keeps_still, crate::proofs::WatchLaws::keeps_same))]
    pub fn enter(&mut self, alloc: Global) -> Result<Turn, Misuse>
        ensures says { EnterSays self.old self.new result }
        ensures watch { KeepsWatch self.old self.new }
    {
        match self.stage {
            Stage::Free => {
                if self.plan.wanted > 0 {
                    self.lengthen(alloc)
                } else if self.plan.is_to_announce() {
                    self.open_announced()
                } else {
                    self.open()
                }
            }
            Stage::Asking => Ok(self.ask()),
            Stage::Committing => Ok(self.finish(&AnyAlgorithm)),
            Stage::Direct | Stage::Bound | Stage::Lapsed | Stage::Buffered => Err(
                Misuse::InAttempt,
            ),
        }
    }

    /// Whether `enter` does no more than `open`.
    #[inline(always)]
    pub fn is_ready(&self) -> bool
        ensures free { result ≡ true → self.now.stage ≡ Free }
        ensures simple { result ≡ true → self.now.plan.wanted ≡ 0 }
    {
        match self.stage {
            Stage::Free => self.plan.is_simple(),
            _ => false,
        }
    }

    /// Makes a log longer, as was wanted.
    fn lengthen(&mut self, alloc: Global) -> Result<Turn, Misuse>
        requires free { self.old.stage ≡ Free }
        requires wanted { 0 < self.old.plan.wanted }
        ensures says { LengthenSays self.old self.new result }
        ensures watch { KeepsWatch self.old self.new }
    {
        match self.plan.kind {
            LogKind::Reads => self.lengthen_reads(alloc),
            LogKind::Writes => self.lengthen_writes(alloc),
        }
    }

    #[tactic(auto, using(crate::proofs::EnterLaws::reads_wrong, crate::proofs::WatchLaws::keeps_same, crate::proofs::WatchLaws::keeps_none))]
    fn lengthen_reads(&mut self, alloc: Global) -> Result<Turn, Misuse>
        requires free { self.old.stage ≡ Free }
        requires kind { self.old.plan.kind ≡ Reads }
        requires wanted { 0 < self.old.plan.wanted }
        ensures says { LengthenSays self.old self.new result }
        ensures watch { KeepsWatch self.old self.new }
    {
        let wanted = self.plan.wanted;
        match self.caller.reserve(alloc, wanted, 1)? {
            Ok(()) => {
                self.plan.wanted = 0;
                Ok(Turn::Pause { times: 0 })
            }
            Err(Memory) => Ok(self.give_out()),
        }
    }

    /// The buffer is one of the logs of what is written.
    #[tactic(auto, using(crate::proofs::EnterLaws::writes_wrong, crate::proofs::WatchLaws::keeps_same, crate::proofs::WatchLaws::keeps_none))]
    fn lengthen_writes(&mut self, alloc: Global) -> Result<Turn, Misuse>
        requires free { self.old.stage ≡ Free }
        requires kind { self.old.plan.kind ≡ Writes }
        requires wanted { 0 < self.old.plan.wanted }
        ensures says { LengthenSays self.old self.new result }
        ensures watch { KeepsWatch self.old self.new }
    {
        let wanted = self.plan.wanted;
        match self.caller.reserve(alloc, 1, wanted)? {
            Ok(()) => {}
            Err(Memory) => return Ok(self.give_out()),
        }
        match self.buffer.reserve(alloc, wanted) {
            Ok(()) => {
                self.plan.wanted = 0;
                Ok(Turn::Pause { times: 0 })
            }
            Err(Memory) => Ok(self.give_out()),
        }
    }

    fn give_out(&mut self) -> Turn
        requires free { self.old.stage ≡ Free }
        ensures turn { result ≡ Turn.Memory }
        ensures stage { self.new.stage ≡ Free }
        ensures caller { self.new.caller ≡ self.old.caller }
        ensures watch { self.new.plan.watch ≡ None }
    {
        self.plan_anew();
        Turn::Memory
    }

    /// Announces that its user will wait, before the attempt that finds out whether it has to.
    #[tactic(auto, using(crate::proofs::WatchLaws::open_after, crate::proofs::WatchLaws::keeps_after))]
    fn open_announced(&mut self) -> Result<Turn, Misuse>
        requires free { self.old.stage ≡ Free }
        ensures says { OpenSays self.old self.new result }
        ensures watch { KeepsWatch self.old self.new }
    {
        self.caller.may_leave()?;
        self.announce();
        self.open()
    }

    /// Begins an attempt, under the algorithm of its last.
    fn open(&mut self) -> Result<Turn, Misuse>
        requires free { self.old.stage ≡ Free }
        ensures says { OpenSays self.old self.new result }
        ensures watch { KeepsWatch self.old self.new }
    {
        under!(self.caller.algorithm(), open_under(Only::<A>::new(), self))
    }

    /// The same, for who expects this algorithm.
    #[inline(always)]
    #[tactic(auto, using(crate::proofs::WatchLaws::keeps_still, crate::proofs::WatchLaws::keeps_same, crate::proofs::WatchLaws::keeps_none))]
    pub fn open_as<A: Algorithm>(&mut self) -> Result<Turn, Misuse>
        requires free { self.old.stage ≡ Free }
        ensures says { OpenSays self.old self.new result }
        ensures watch { KeepsWatch self.old self.new }
    {
        match self.caller.begin_as::<A>()? {
            Begin::Begun(alg) => {
                if self.plan.is_urgent() {
                    self.stage = Stage::Asking;
                    Ok(self.ask())
                } else {
                    Ok(self.run(alg))
                }
            }
            Begin::Closed { .. } => Ok(Turn::Pause {
                times: self.plan.wait(),
            }),
            Begin::Held { .. } => Ok(Turn::Pause {
                times: self.plan.wait_for_lock(),
            }),
            Begin::ClockFull { .. } => {
                self.plan_anew();
                Ok(Turn::ClockFull)
            }
        }
    }

    /// Has the body run: on a buffer where what the attempt writes couldn't be taken back.
    #[inline(always)]
    fn run(&mut self, alg: Alg) -> Turn
        requires running { IsRunning (known_to self.old.caller) }
        requires blank { (known_to self.old.caller).log ≡ no_log }
        requires named { (known_to self.old.caller).alg ≡ alg }
        requires ungranted { (known_to self.old.caller).granted ≡ false }
        ensures turn { result ≡ Turn.Run }
        ensures caller { self.new.caller ≡ self.old.caller }
        ensures runs { MayRun self.new }
        ensures plan { self.new.plan ≡ self.old.plan }
    {
        match alg {
            Alg::Cgl | Alg::Tml => self.run_buffered(),
            Alg::OrecLazy | Alg::OrecEager | Alg::RingSw | Alg::Serial => {
                self.stage = Stage::Direct;
                Turn::Run
            }
        }
    }

    /// Has the body run on a buffer.
    #[inline(always)]
    fn run_buffered(&mut self) -> Turn
        requires running { IsRunning (known_to self.old.caller) }
        requires blank { (known_to self.old.caller).log ≡ no_log }
        ensures turn { result ≡ Turn.Run }
        ensures caller { self.new.caller ≡ self.old.caller }
        ensures runs { MayRun self.new }
        ensures plan { self.new.plan ≡ self.old.plan }
    {
        self.buffer.renew();
        self.stage = Stage::Buffered;
        Turn::Run
    }

    /// Asks to be irrevocable.
    #[cold]
    #[inline(never)]
    #[tactic(auto, using(crate::proofs::WatchLaws::still_same))]
    fn ask(&mut self) -> Turn
        requires asking { self.old.stage ≡ Asking }
        ensures says { AskSays self.old.caller self.new result }
        ensures watch { StandsStill self.old.plan.watch self.new.plan.watch }
    {
        let Ok(answer) = self.caller.try_irrevocable() else {
            return self.turn_back();
        };
        match answer {
            Irrev::Granted => self.run_buffered(),
            Irrev::Busy { .. } => Turn::Pause {
                times: self.plan.wait(),
            },
            // its holder waits for this very attempt to end
            Irrev::Taken { .. } => self.turn_back(),
            Irrev::Conflict(_) => {
                self.stage = Stage::Free;
                self.turned_down()
            }
            Irrev::ClockFull { .. } => {
                self.stage = Stage::Free;
                self.turned_down()
            }
        }
    }

    /// Ends the attempt that asks.
    #[tactic(auto, using(crate::proofs::WatchLaws::still_same))]
    fn turn_back(&mut self) -> Turn
        requires asking { self.old.stage ≡ Asking }
        ensures turn { IsPause result }
        ensures nothing { MadeNothing self.old.caller self.new.caller }
        ensures stage { self.new.stage ≡ Free }
        ensures idle { IsIdle (known_to self.new.caller) }
        ensures refusal { self.new.caller.refusal ≡ self.old.caller.refusal }
        ensures watch { StandsStill self.old.plan.watch self.new.plan.watch }
    {
        end_blank(&mut self.caller);
        self.stage = Stage::Free;
        Turn::Pause {
            times: self.plan.wait(),
        }
    }
}

#[inline(never)]
fn open_under<A: Algorithm>(
    only: Only<A>,
    looping_caller: &mut LoopingCaller,
) -> Result<Turn, Misuse>
    requires free { looping_caller.old.stage ≡ Free }
    ensures says { OpenSays looping_caller.old looping_caller.new result }
    ensures watch { KeepsWatch looping_caller.old looping_caller.new }
{
    let _ = only;
    looping_caller.open_as::<A>()
}
