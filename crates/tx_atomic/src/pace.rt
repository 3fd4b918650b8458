//! What a caller waits by, what it counts, and who is told.
ghost use Rattle.std.specs.Prelude.{◌≡◌};

use crate::growth::Growth;
use crate::napping::nap;
use crate::observer::Observer;
use crate::tally::{Ended, Tally};
use std::sync::Wait;
use stm_model::rule::MemRule;
use stm_rule::stm::Stm;
use tx_backoff::{Backoff, Patience};

/// The next pause of a caller, what came of its attempts, and who is told of each that was refused.
#[derive(Clone, Copy, Drop)]
pub struct Pacing<O> {
    pub backoff: Backoff,
    pub tally: Tally,
    pub observer: O,
    /// What an attempt was last refused by.
    pub last: Ended,
    /// How long it spins before it sleeps, where it waits for what it needs.
    pub patience: Patience,
    /// How its logs are lengthened.
    pub growth: Growth,
}

/// An attempt was refused: `last` of its pacing says what by. It stands there and not here, so that an attempt that
/// commits makes no room for it.
#[derive(Clone, Copy, Drop, Debug, PartialEq, Eq)]
pub struct Refused;

/// The pace of a caller that no one observes.
pub type Pace = Pacing<()>;

impl Pacing<()> {
    ghost use Rattle.tx_atomic.specs.Tallies.{none};
    ghost use Rattle.tx_backoff.specs.Pauses.{IsRested};

    pub fn new() -> Pace
        ensures tally { result.tally ≡ none }
        ensures rested { IsRested result.backoff }
        ensures growth { result.growth.most ≡ 0 }
    {
        Pacing::observed(())
    }
}

impl<O> Pacing<O> {
    ghost use Rattle.tx_atomic.specs.Tallies.{none};
    ghost use Rattle.tx_backoff.specs.Pauses.{IsRested};

    /// The pace of a caller whose observer this is. No log of its is lengthened.
    pub fn observed(observer: O) -> Pacing<O>
        ensures tally { result.tally ≡ none }
        ensures observer { result.observer ≡ observer }
        ensures rested { IsRested result.backoff }
        ensures growth { result.growth.most ≡ 0 }
    {
        Pacing {
            backoff: Backoff::new(),
            tally: Tally::new(),
            observer,
            last: Ended::Closed,
            patience: Patience::new(),
            growth: Growth::none(),
        }
    }
}

impl<O: Observer> Pacing<O> {
    ghost use Rattle.std.specs.Prelude.{true, Some, None};
    ghost use Rattle.tx_atomic.specs.Accounts.{account, ended_in, met, promoted_in, told};
    ghost use Rattle.tx_atomic.specs.Tallies.{CommitsStay};
    ghost use Rattle.tx_atomic.specs.declared.tally.Ended.TheVariants.{Again};
    ghost use Rattle.tx_backoff.specs.Pauses.{IsRested};

    /// Tells the observer what an attempt or a call of it was refused by, and where.
    pub fn tell(&mut self, ended: Ended, at: Option<usize>)
        ensures { account O.heard self.new
            ≡ told O.hears (Some ended) at (account O.heard self.old) }
    {
        self.observer.refused(ended, at);
    }

    /// Tells the observer what an attempt was refused by, and where, and keeps it.
    #[cold]
    pub fn refuse(&mut self, ended: Ended, at: Option<usize>) -> Refused
        ensures told { account O.heard self.new
            ≡ told O.hears (Some ended) at (account O.heard self.old) }
        ensures last { self.new.last ≡ ended }
    {
        self.tell(ended, at);
        self.last = ended;
        Refused
    }

    /// Counts what an attempt or a call of it came to, and pauses: longer where a lock was held. Where another has
    /// closed the gate, or a range is out, that may last: the caller sleeps after a while, until the gate is reopened.
    pub fn wait<R: Wait, K: MemRule>(&mut self, rt: &R, stm: &Stm<K>, caller: usize, ended: Ended)
        ensures noted { account O.heard self.new
            ≡ ended_in (Some ended) (account O.heard self.old) }
        ensures commits { CommitsStay self.old.tally self.new.tally }
    {
        self.tally.note(ended);
        match ended {
            Ended::Held => self.backoff.wait_for_lock(),
            Ended::Closed | Ended::Fenced | Ended::Taken => nap(rt, stm, caller, &mut self.backoff),
            _ => self.backoff.wait(),
        }
    }

    /// Tells the observer that another was faster at the commit, counts it, and pauses: shortly, unless that one holds
    /// the lock yet.
    #[cold]
    pub fn wait_at_commit(&mut self, locked: bool)
        ensures noted { account O.heard self.new ≡ met O.hears Again (account O.heard self.old) }
        ensures commits { CommitsStay self.old.tally self.new.tally }
    {
        self.tell(Ended::Again, None);
        self.tally.note(Ended::Again);
        if locked {
            self.backoff.wait();
        } else {
            self.backoff.wait_at_commit();
        }
    }

    /// Counts a commit: the next pause is the shortest.
    pub fn get_on(&mut self)
        ensures counted { account O.heard self.new ≡ ended_in None (account O.heard self.old) }
        ensures rested { IsRested self.new.backoff }
    {
        self.tally.commit();
        self.backoff.reset();
    }

    /// Counts an attempt that was made irrevocable.
    pub fn promote(&mut self)
        ensures { account O.heard self.new ≡ promoted_in true (account O.heard self.old) }
    {
        self.tally.promote();
    }
}
