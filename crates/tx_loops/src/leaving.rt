//! The end of a body.
ghost use Rattle.std.specs.Prelude.{◌≡◌, ◌≢◌, true, Ok, IfOk};
ghost use Rattle.stm_tx.specs.Fencing.{fence_seen};
ghost use Rattle.tx_checked.specs.CheckedCallers.{IsServed, config_of, known_to};
ghost use Rattle.tx_loops.specs.Loops.{FinishSays, GivesUp, HasStood, IsOut, LeaveSays, stays_out};
ghost use Rattle.tx_loops.specs.Stages.{is_all_out, is_given_up};
ghost use Rattle.tx_loops.specs.Turns.{GoesOnAfter, IsAfterRefusal};
ghost use Rattle.tx_loops.specs.Waits.{HasLooked};
ghost use Rattle.tx_loops.specs.Watches.{SleepsBy, StandsStill};
ghost use Rattle.tx_loops.specs.declared.stage.Stage.TheVariants.{Bound, Buffered, Free};
ghost use Rattle.tx_loops.specs.declared.turn.How.TheVariants as hows;

use crate::ends::{CommitOutcome, commit_body, end_blank, take_back};
use crate::looping_caller::LoopingCaller;
use crate::stage::Stage;
use crate::storing::store_through;
use crate::turn::{How, Turn};
use stm_bell::stripes::Stripes;
use stm_tx::fencing::fence_seen;
use stm_tx::serving::{AnyAlgorithm, Calls};
use stm_tx::stripes;
use tx_checked::checked_caller::CheckedCaller;
use tx_checked::misuse::Misuse;

impl LoopingCaller {
    /// Ends the attempt of a body that came to this: where it was done it commits, else nothing stands that it wrote,
    /// unless it had said that it can't stop. Of a loop that was put off it gives up what is open.
    pub fn leave(&mut self, how: How) -> Result<Turn, Misuse>
        ensures says { LeaveSays how self.old self.new result }
        ensures looked { IfOk result (HasLooked self.old self.new) }
    {
        match how {
            How::Done => self.leave_done(&AnyAlgorithm),
            _ => self.leave_undone(how),
        }
    }

    /// The same of a body that was done, by calls that serve its algorithm.
    #[inline(always)]
    #[tactic(auto, using(crate::proofs::WatchLaws::finish_looks, crate::proofs::WatchLaws::done_looks, crate::proofs::WatchLaws::refusal_looks))]
    pub fn leave_done<C: Calls>(&mut self, calls: &C) -> Result<Turn, Misuse>
        requires served { IsServed C.acts_as (known_to self.old.caller) }
        ensures says { LeaveSays hows.Done self.old self.new result }
        ensures looked { IfOk result (HasLooked self.old self.new) }
    {
        match self.stage {
            Stage::Direct | Stage::Bound => Ok(self.finish(calls)),
            Stage::Buffered => Ok(self.finish_buffered(calls)),
            Stage::Lapsed => {
                self.stage = Stage::Free;
                Ok(self.turned_down())
            }
            Stage::Free | Stage::Asking | Stage::Committing => Err(Misuse::NoAttempt),
        }
    }

    #[tactic(auto, using(crate::proofs::WatchLaws::irrevocable_looks))]
    fn leave_undone(&mut self, how: How) -> Result<Turn, Misuse>
        requires undone { how ≢ hows.Done }
        ensures says { LeaveSays how self.old self.new result }
        ensures looked { IfOk result (HasLooked self.old self.new) }
    {
        match self.stage {
            Stage::Free => Err(Misuse::NoAttempt),
            Stage::Bound => Ok(self.finish_bound()),
            Stage::Lapsed | Stage::Direct | Stage::Buffered | Stage::Asking | Stage::Committing =>
                Ok(self.give_up(how)),
        }
    }

    /// Commits what the body did.
    #[inline(always)]
    #[tactic(auto, using(crate::proofs::WatchLaws::still_same, crate::proofs::WatchLaws::still_none))]
    pub(crate) fn finish<C: Calls>(&mut self, calls: &C) -> Turn
        requires served { IsServed C.acts_as (known_to self.old.caller) }
        requires running { (known_to self.old.caller).running ≡ true }
        ensures says { FinishSays self.old.caller self.new result }
        ensures watch { StandsStill self.old.plan.watch self.new.plan.watch }
    {
        match commit_body(calls, &mut self.caller) {
            CommitOutcome::Done => {
                self.stage = Stage::Free;
                self.plan_anew();
                Turn::Done
            }
            CommitOutcome::Again => {
                self.stage = Stage::Committing;
                Turn::Pause {
                    times: self.plan.wait(),
                }
            }
            CommitOutcome::Refused => {
                self.stage = Stage::Free;
                self.turned_down()
            }
        }
    }

    /// The same of what lies in the buffer. It is stored only now: the body is done.
    #[inline(always)]
    fn finish_buffered<C: Calls>(&mut self, calls: &C) -> Turn
        requires served { IsServed C.acts_as (known_to self.old.caller) }
        requires buffered { self.old.stage ≡ Buffered }
        ensures { LeaveSays hows.Done self.old self.new (Ok result) }
    {
        if store_through(&mut self.caller, &self.buffer) {
            self.stage = Stage::Lapsed;
            self.finish(calls)
        } else {
            self.stage = Stage::Free;
            self.turned_down()
        }
    }

    /// Commits what a body did that had said that it can't stop, and did.
    fn finish_bound(&mut self) -> Turn
        requires bound { self.old.stage ≡ Bound }
        ensures turn { result ≡ Turn.Irrevocable }
        ensures stands { HasStood self.old self.new }
    {
        commit_body(&AnyAlgorithm, &mut self.caller);
        self.stage = Stage::Free;
        self.plan_anew();
        Turn::Irrevocable
    }

    /// Ends an attempt of which nothing is to stand.
    fn give_up(&mut self, how: How) -> Turn
        requires given { is_given_up self.old.stage ≡ true }
        ensures says { GivesUp how self.old self.new result }
        ensures looked { HasLooked self.old self.new result }
    {
        let stays = stays_out(&self.caller);
        let ran = self.stage.is_running();
        self.end_attempt();
        let turn = self.turn_after(how, stays, ran);
        self.end_at(turn);
        turn
    }

    #[tactic(auto, using(crate::proofs::WatchLaws::awake_looks))]
    fn turn_after(&mut self, how: How, stays: bool, ran: bool) -> Turn
        ensures turn { GoesOnAfter how self.old.caller.refusal stays result }
        ensures sleeps { SleepsBy ran self.old.plan.watch self.new.plan.watch result }
        ensures caller { self.new.caller ≡ self.old.caller }
        ensures stage { self.new.stage ≡ self.old.stage }
    {
        match how {
            How::Retry => self.plan.retry(ran, words_read(&self.caller)),
            _ => self.plan.after(how, self.caller.refusal, stays),
        }
    }

    /// Ends what is open.
    fn end_attempt(&mut self)
        requires given { is_given_up self.old.stage ≡ true }
        ensures out { IsOut self.old self.new }
        ensures refusal { self.new.caller.refusal ≡ self.old.caller.refusal }
        ensures plan { self.new.plan ≡ self.old.plan }
    {
        match self.stage {
            Stage::Direct | Stage::Committing => {
                take_back(&mut self.caller);
                self.stage = Stage::Free;
            }
            Stage::Buffered | Stage::Asking => {
                end_blank(&mut self.caller);
                self.stage = Stage::Free;
            }
            Stage::Free | Stage::Bound | Stage::Lapsed => self.stage = Stage::Free,
        }
    }

    /// What comes after an attempt that has ended by a refusal.
    #[cold]
    #[inline(never)]
    #[tactic(auto, using(crate::proofs::WatchLaws::still_same, crate::proofs::WatchLaws::ends_still))]
    pub(crate) fn turned_down(&mut self) -> Turn
        requires free { self.old.stage ≡ Free }
        ensures turn { IsAfterRefusal self.old.caller.refusal result }
        ensures watch { StandsStill self.old.plan.watch self.new.plan.watch }
        ensures stage { self.new.stage ≡ Free }
        ensures caller { self.new.caller ≡ self.old.caller }
    {
        let turn = self.plan.after_refusal(self.caller.refusal);
        self.end_at(turn);
        turn
    }
}

/// Of the words that its last attempt read.
fn words_read(caller: &CheckedCaller) -> Stripes {
    stripes::read(&caller.desc)
}

/// Whether what is out of the transactions stays out while a body waits for it.
fn stays_out(caller: &CheckedCaller) -> bool
    ensures { result ≡ stays_out caller.now }
{
    caller.range.is_some() || is_all_out(caller)
}

/// Whether all words were out of the transactions as the attempt began, as they are for good once the memory has ended.
fn is_all_out(caller: &CheckedCaller) -> bool
    ensures { result ≡ is_all_out (config_of caller.now).words (fence_seen (known_to caller.now)) }
{
    match fence_seen(&caller.desc) {
        Some((from, count)) => from == 0 && count == caller.stm.config.words,
        None => false,
    }
}
