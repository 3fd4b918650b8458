//! How a caller's user comes to sleep.
ghost use Rattle.std.specs.Prelude.{◌≡◌, true, None};
ghost use Rattle.tx_loops.specs.Waits.{HasLookedSince, WaitSays};
ghost use Rattle.tx_loops.specs.Watches.{EndsWatch, WatchesFrom};

use crate::looping_caller::LoopingCaller;
use crate::plan::Plan;
use crate::turn::Turn;
use crate::watch::Watch;
use stm_bell::stripes::Stripes;
use stm_tx::stripes;
use tx_checked::misuse::Misuse;

impl LoopingCaller {
    /// Announces that its user will wait for what its attempts have read.
    pub(crate) fn announce(&mut self)
        ensures watch { WatchesFrom self.old.caller self.new.plan.watch }
        ensures caller { self.new.caller ≡ self.old.caller }
        ensures stage { self.new.stage ≡ self.old.stage }
    {
        self.withdraw();
        self.plan.touched = true;
        self.plan.watch = Some(Watch::of(&self.caller, self.plan.read));
        self.plan.slept = false;
    }

    /// Ends the wait that was announced.
    pub fn withdraw(&mut self)
        ensures watch { self.new.plan.watch ≡ None }
        ensures caller { self.new.caller ≡ self.old.caller }
        ensures stage { self.new.stage ≡ self.old.stage }
    {
        if let Some(watch) = self.plan.watch.take() {
            self.caller.stm.bell.withdraw(watch.announced);
        }
    }

    /// Has the plan begin anew.
    #[inline(always)]
    pub(crate) fn plan_anew(&mut self)
        ensures watch { self.new.plan.watch ≡ None }
        ensures caller { self.new.caller ≡ self.old.caller }
        ensures stage { self.new.stage ≡ self.old.stage }
    {
        if self.plan.touched {
            self.plan_over();
        }
    }

    #[cold]
    #[inline(never)]
    fn plan_over(&mut self)
        ensures watch { self.new.plan.watch ≡ None }
        ensures caller { self.new.caller ≡ self.old.caller }
        ensures stage { self.new.stage ≡ self.old.stage }
    {
        self.withdraw();
        self.plan = Plan::new();
    }

    /// The same where the loop is over.
    pub(crate) fn end_at(&mut self, turn: Turn)
        ensures watch { EndsWatch turn self.old.plan.watch self.new.plan.watch }
        ensures caller { self.new.caller ≡ self.old.caller }
        ensures stage { self.new.stage ≡ self.old.stage }
    {
        match turn {
            Turn::Run | Turn::Pause { .. } | Turn::Sleep => {}
            Turn::Done
            | Turn::Over
            | Turn::Full
            | Turn::ClockFull
            | Turn::Memory
            | Turn::Irrevocable => self.plan_anew(),
        }
    }

    /// After an attempt that wrote nothing, and found that its user has to wait: true where that was announced before
    /// that attempt, so that the user may sleep by it. False where it is announced now,
    /// and the next attempt is to look.
    pub fn wait(&mut self) -> Result<bool, Misuse>
        ensures { WaitSays self.old self.new result }
    {
        self.is_free()?;
        self.caller.may_leave()?;
        let read = stripes::read(&self.caller.desc);
        if !self.plan.slept && self.has_looked(read) {
            self.plan.slept = true;
            return Ok(true);
        }
        self.plan.read = read;
        self.announce();
        Ok(false)
    }

    /// Whether an attempt has committed and written nothing since a wait for these words was announced.
    fn has_looked(&self, read: Stripes) -> bool
        ensures { result ≡ true → HasLookedSince self.now }
    {
        match &self.plan.watch {
            Some(watch) => {
                watch.read_only != self.caller.counts.read_only && watch.stripes.covers(read)
            }
            None => false,
        }
    }

    /// Wakes all who sleep until a word of the memory is written.
    pub fn wake(&self) {
        self.caller.stm.bell.ring(Stripes::all());
    }
}
