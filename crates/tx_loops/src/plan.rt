//! What a loop has come to, and when it is to go on. The pauses are the user's to make: they double.
ghost use Rattle.std.specs.Prelude.{◌≡◌, ◌≢◌, ◌≤◌, false, true, is_some, None};
ghost use Rattle.tx_loops.specs.Turns.{GoesOnAfter, IsAfterFull, IsAfterRefusal};
ghost use Rattle.tx_loops.specs.Watches.{SleepsBy};
ghost use Rattle.tx_loops.specs.declared.turn.How.TheVariants as hows;

use crate::turn::{How, Turn};
use crate::watch::Watch;
use stm_bell::stripes::Stripes;
use stm_model::config::MOST_LOG;
use tx_checked::refusal::Refusal;

/// After so many attempts that failed the next ones ask to be irrevocable.
const MOST_FAILED: u32 = 16;

/// So often a body that is to run again does so after a pause, the last times after a yield; then its user sleeps.
const MOST_AWAKE: u32 = 9;

/// The shortest pause, as a power of two of the processor's own short pause, and the longest where another was faster
/// or has closed the gate.
const SHORTEST: u32 = 5;

const LONGEST: u32 = 10;

/// The same where a lock was held: each change of hands costs more than a short transaction.
const SHORTEST_AT_LOCK: u32 = 10;

const LONGEST_AT_LOCK: u32 = 14;

/// The longest where other transactions came in between, again and again.
const LONGEST_AT_CONFLICT: u32 = 16;

/// The log of what was read, or the logs of what is written.
#[derive(Clone, Copy, Drop)]
pub enum LogKind {
    Reads,
    Writes,
}

/// What a loop has come to.
#[derive(Drop)]
pub struct Plan {
    /// Whether anything of it isn't as in `new`.
    pub touched: bool,
    /// How many attempts failed, 16 at most.
    pub failed: u32,
    /// How long a log is to be before the next attempt, or 0; and which.
    pub wanted: usize,
    pub kind: LogKind,
    /// The next pause, as a power of two.
    pub pause: u32,
    /// How often the body answered that it is to run again.
    pub retried: u32,
    /// The words that its attempts had read then.
    pub read: Stripes,
    /// The wait that was announced, before the attempt that is open or is next, and isn't withdrawn.
    pub watch: Option<Watch>,
    /// Whether its user was to sleep by that.
    pub slept: bool,
    ghost fits: { wanted ≤ 1048576 },
    ghost untouched: { touched ≡ false → (wanted ≡ 0) × (watch ≡ None) },
}

impl Plan {
    /// That of a loop which hasn't begun.
    pub(crate) fn new() -> Plan
        ensures wanted { result.wanted ≡ 0 }
        ensures watch { result.watch ≡ None }
    {
        Plan {
            touched: false,
            failed: 0,
            wanted: 0,
            kind: LogKind::Reads,
            pause: SHORTEST,
            retried: 0,
            read: Stripes::none(),
            watch: None,
            slept: false,
        }
    }

    /// Whether there is nothing to do before the next attempt.
    #[inline(always)]
    pub(crate) fn is_simple(&self) -> bool
        ensures { result ≡ true → self.now.wanted ≡ 0 }
    {
        !self.touched
    }

    /// Whether the wait for which the body is to run again is to be announced.
    pub(crate) fn is_to_announce(&self) -> bool {
        self.retried >= MOST_AWAKE
    }

    /// Whether the next attempt is to ask to be irrevocable.
    pub(crate) fn is_urgent(&self) -> bool {
        self.failed >= MOST_FAILED
    }

    /// Another was faster, or has closed the gate: how often to pause.
    pub(crate) fn wait(&mut self) -> u32
        ensures { self.new.watch ≡ self.old.watch }
    {
        self.up_to(LONGEST)
    }

    /// The same where another has the lock.
    pub(crate) fn wait_for_lock(&mut self) -> u32
        ensures { self.new.watch ≡ self.old.watch }
    {
        self.pause = self.pause.max(SHORTEST_AT_LOCK);
        self.up_to(LONGEST_AT_LOCK)
    }

    /// The same after an attempt that failed, which is counted.
    pub(crate) fn fail(&mut self) -> u32
        ensures { self.new.watch ≡ self.old.watch }
    {
        self.failed = MOST_FAILED.min(self.failed.saturating_add(1));
        self.up_to(LONGEST_AT_CONFLICT)
    }

    fn up_to(&mut self, longest: u32) -> u32
        ensures { self.new.watch ≡ self.old.watch }
    {
        self.touched = true;
        let now = self.pause.min(longest).min(LONGEST_AT_CONFLICT);
        self.pause = longest.min(now + 1);
        1 << now
    }

    /// Whether the loop goes on after an attempt that left nothing. `refusal` came in the way last, and `stays` says
    /// whether what is out of the transactions would be met again.
    pub(crate) fn after(&mut self, how: How, refusal: Option<Refusal>, stays: bool) -> Turn
        ensures turn { GoesOnAfter how refusal stays result }
        ensures awake { result ≢ Turn.Sleep }
    {
        match how {
            How::Done | How::Full => self.after_refusal(refusal),
            How::Refused => Turn::Pause { times: self.fail() },
            How::Retry => Turn::Pause { times: self.wait() },
            How::Fenced => {
                if stays {
                    Turn::Over
                } else {
                    Turn::Pause { times: self.wait() }
                }
            }
            How::Stopped => Turn::Over,
        }
    }

    /// The same after a body that is to run again. Its user sleeps where an attempt of it `ran` to the end, before
    /// which that was announced for all words that it `read`.
    pub(crate) fn retry(&mut self, ran: bool, read: Stripes) -> Turn
        ensures turn { GoesOnAfter hows.Retry None false result }
        ensures sleeps { SleepsBy ran self.old.watch self.new.watch result }
        ensures watch { self.new.watch ≡ self.old.watch }
    {
        self.touched = true;
        self.retried = MOST_AWAKE.min(self.retried.saturating_add(1));
        self.read = self.read.with(read);
        if ran && !self.slept && self.watches(read) {
            self.slept = true;
            return Turn::Sleep;
        }
        Turn::Pause { times: self.wait() }
    }

    /// Whether a wait for all of these words is announced.
    pub(crate) fn watches(&self, read: Stripes) -> bool
        ensures { result ≡ true → is_some self.now.watch ≡ true }
    {
        match &self.watch {
            Some(watch) => watch.stripes.covers(read),
            None => false,
        }
    }

    /// The same by what came in the way last.
    pub(crate) fn after_refusal(&mut self, refusal: Option<Refusal>) -> Turn
        ensures turn { IsAfterRefusal refusal result }
        ensures awake { result ≢ Turn.Sleep }
        ensures watch { self.new.watch ≡ self.old.watch }
    {
        match refusal {
            Some(Refusal::ReadsFull { limit }) => self.lengthen(LogKind::Reads, limit),
            Some(Refusal::WritesFull { limit }) => self.lengthen(LogKind::Writes, limit),
            Some(Refusal::ClockFull { .. }) => Turn::ClockFull,
            _ => Turn::Pause { times: self.fail() },
        }
    }

    /// After a full log of this length: the next attempt has one twice as long or, where it is as long as it may be,
    /// asks to be irrevocable, which needs none. Where that was so, there was no room for what the body wrote.
    fn lengthen(&mut self, kind: LogKind, limit: usize) -> Turn
        ensures turn { IsAfterFull limit result }
        ensures awake { result ≢ Turn.Sleep }
        ensures watch { self.new.watch ≡ self.old.watch }
    {
        self.touched = true;
        if limit < MOST_LOG {
            self.wanted = MOST_LOG.min(2 * limit);
            self.kind = kind;
        } else if self.failed < MOST_FAILED {
            self.failed = MOST_FAILED;
        } else {
            return Turn::Full;
        }
        Turn::Pause { times: 0 }
    }
}
