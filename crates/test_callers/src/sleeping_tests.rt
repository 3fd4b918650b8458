//! What no clause says: who wakes a caller that sleeps until it gets a value, and that it comes to its end whatever
//! comes to the memory meanwhile. 31 callers sleep, each until its own word holds something; caller 0 begins once all
//! of them are about to.
ghost use Rattle.std.specs.Prelude.{◌≡◌, ◌<◌, ◌≤◌, All, length, true};
ghost use Rattle.tx_atomic.specs.Callers.{IsReady, IsThrough, AllReady};

use crate::waiting_tests::Put;
use std::alloc::Global;
use std::sync::Wait;
use std::sync::atomic::{AtomicU64, Ordering};
use std::test::Fail;
use std::thread;
use std::thread::Threads;
use std::time::{Clock, Instant};
use stm_answers::answers::{Fence, Give};
use stm_model::access::Access;
use stm_model::alg::{ALGORITHMS, Alg};
use stm_model::config::{CLOCK_LIMIT, Config};
use stm_model::rule::AnyMem;
use stm_model::stop::Stop;
use stm_rule::desc::Desc;
use stm_rule::refusal::NewError;
use stm_rule::rung::Rung;
use stm_rule::stm::Stm;
use stm_tx::fencing::{direct_write, fence, give_back};
use stm_tx::gate::reopen;
use tx_atomic::atomically::atomically;
use tx_atomic::observer::Observer;
use tx_atomic::pace::Pacing;
use tx_atomic::switching::{close_alone, switch_to};
use tx_atomic::tally::Ended;
use tx_atomic::transaction::Transaction;
use tx_atomic::waiting::until_some;
use tx_backoff::{Backoff, Patience};

const SLEEPERS: u64 = 31;

/// The word of each sleeper has its number.
const SIZES: Config = Config {
    words: 32,
    records: 32,
    ring: 16,
    callers: 32,
    reads: 8,
    writes: 8,
    clock: 0,
    fence: true,
    marks: 0,
};

/// A sleeper that nobody wakes looks again after so many milliseconds.
const LONGEST_SLEEP: u64 = 10;

/// What the callers find, counted.
#[derive(Drop)]
struct Counts {
    /// The sleeps that were about to begin, one a value: the sleeper has found its word empty after it announced its
    /// wait.
    asleep: AtomicU64,
    /// Looks that found a word empty.
    empty: AtomicU64,
    /// Looks at a word whose range was out.
    fenced: AtomicU64,
    /// Values that came as they were to.
    right: AtomicU64,
    /// Answers of None: the clock was full.
    full: AtomicU64,
    /// Sleeps that ended.
    wakes: AtomicU64,
    /// Those that another's ring ended in vain.
    futile: AtomicU64,
    /// 1 where caller 0 has done its part.
    done: AtomicU64,
}

impl Counts {
    fn new() -> Counts {
        Counts {
            asleep: AtomicU64::new(0),
            empty: AtomicU64::new(0),
            fenced: AtomicU64::new(0),
            right: AtomicU64::new(0),
            full: AtomicU64::new(0),
            wakes: AtomicU64::new(0),
            futile: AtomicU64::new(0),
            done: AtomicU64::new(0),
        }
    }
}

fn count(counter: &AtomicU64, more: u64) {
    counter.fetch_add(more, Ordering::SeqCst);
}

fn counted(counter: &AtomicU64) -> u64 {
    counter.load(Ordering::SeqCst)
}

/// Waits until a counter has come so far.
fn await_count<R: Wait>(rt: &R, counter: &AtomicU64, least: u64) {
    for _ in rt.forever() {
        if counted(counter) >= least {
            return;
        }
        thread::yield_now();
    }
    unreachable!()
}

/// Answers what a word holds, once it is something, and empties a word; and counts its looks in vain.
#[derive(Drop)]
struct Look<'a> {
    at: usize,
    to: usize,
    /// How many there were for this value, and after how many the caller is about to sleep.
    empty: &'a AtomicU64,
    last: u64,
    counts: &'a Counts,
}

impl<'a> Transaction<AnyMem> for Look<'a> {
    ghost use Rattle.std.specs.Prelude.{◌≡◌, ◌<◌, [], IfNone};

    type Output = Option<u64>;

    ghost precondition = { λ it rule words. it.at < words × it.to < words };

    ghost postcondition = { λ it rule words came log. IfNone came (log.writes ≡ []) };

    fn run<A: Access>(&self, _: &AnyMem, memory: &mut A) -> Result<Option<u64>, Stop> {
        let value = memory.read(self.at)?;
        if value == 0 {
            self.count_empty();
            return Ok(None);
        }
        memory.write(self.to, 0)?;
        Ok(Some(value))
    }
}

impl<'a> Look<'a> {
    fn count_empty(&self) {
        count(self.empty, 1);
        count(&self.counts.empty, 1);
        if counted(self.empty) == self.last {
            count(&self.counts.asleep, 1);
        }
    }
}

/// Counts the looks at a range that is out.
#[derive(Drop)]
struct Listener<'a> {
    counts: &'a Counts,
}

impl<'a> Observer for Listener<'a> {
    ghost heard = { λ _. tt };

    ghost hears = { λ ended at heard. heard };

    fn refused(&mut self, ended: Ended, _at: Option<usize>) {
        if ended == Ended::Fenced {
            count(&self.counts.fenced, 1);
        }
    }
}

/// How many looks come before the first one after which a caller without patience sleeps.
fn looks_before_sleep() -> u64 {
    let mut backoff = Backoff::new();
    for looks in 0..100u64 {
        if backoff.is_to_sleep() {
            return looks;
        }
        backoff.wait_to_sleep(&Patience::none());
    }
    100
}

/// How often a sleeper may have looked since then with nobody waking it: each such sleep takes its whole length.
fn own_looks<R: Clock>(rt: &R, since: Instant) -> u64 {
    match since.elapsed(rt) {
        Ok(time) => u64::try_from(time.as_millis()).unwrap_or(u64::MAX) / LONGEST_SLEEP,
        Err(_) => 0,
    }
}

/// Sleeps until the word at `at` has a value, and empties the one at `to`. Answers whether a value came.
///
/// All looks are commits. Those before the first sleep are known, so the others tell how many sleeps ended: all but the
/// last one in vain. A sleeper that nobody wakes looks again, too, which on a busy machine comes often: so of the
/// sleeps in vain so many are taken off as the whole wait was times as long as such a sleep.
fn sleep_once<'a, R: Wait + Clock>(
    rt: &R,
    desc: &mut Desc<AnyMem>,
    stm: &Stm<AnyMem>,
    pace: &mut Pacing<Listener<'a>>,
    at: usize,
    to: usize,
    value: u64,
    counts: &'a Counts,
) -> bool
    requires ready { IsReady stm.now desc.old }
    requires words { (at < stm.now.config.words) × (to < stm.now.config.words) }
    ensures through { IsThrough desc.old desc.new }
{
    let empty = AtomicU64::new(0);
    let first = looks_before_sleep();
    let look = Look {
        at,
        to,
        empty: &empty,
        last: first.saturating_add(1),
        counts,
    };
    let before = pace.tally.commits;
    let since = Instant::now(rt);
    let came = until_some(rt, desc, stm, pace, &look);
    let own = match since {
        Ok(since) => own_looks(rt, since),
        Err(_) => 0,
    };
    if came.is_none() {
        count(&counts.full, 1);
        return false;
    }
    if came == Some(value) {
        count(&counts.right, 1);
    }
    let looks = pace.tally.commits.saturating_sub(before);
    let wakes = looks.saturating_sub(1).saturating_sub(first);
    count(&counts.wakes, wakes);
    count(&counts.futile, wakes.saturating_sub(1).saturating_sub(own));
    true
}

/// Gets so many values, and sleeps before each.
fn sleep_often<'a, R: Wait + Clock>(
    rt: &R,
    desc: &mut Desc<AnyMem>,
    stm: &Stm<AnyMem>,
    pace: &mut Pacing<Listener<'a>>,
    at: usize,
    to: usize,
    values: u64,
    counts: &'a Counts,
)
    requires ready { IsReady stm.now desc.old }
    requires words { (at < stm.now.config.words) × (to < stm.now.config.words) }
    ensures through { IsThrough desc.old desc.new }
{
    for value in 0..values {
        if !sleep_once(rt, desc, stm, pace, at, to, value + 1, counts) {
            return;
        }
    }
}

/// What caller 0 does while the others sleep.
#[derive(Clone, Copy, Drop, Debug, PartialEq, Eq)]
enum Deed {
    /// Puts a value into one word after the other, once all sleep, and the next ones once they do again.
    Put { values: u64 },
    /// Puts a value into word 0, for which all sleep here. They bring the clock to its limit by what they write then.
    Fill,
    /// Installs one algorithm after the other, and puts values.
    Switch,
    /// Takes words 1 and 2 out of the transactions, writes a value to each there, gives them back, and puts values into
    /// the others.
    Range,
}

impl Deed {
    /// How many values each sleeper gets.
    fn values(self) -> u64 {
        match self {
            Deed::Put { values } => values,
            _ => 1,
        }
    }

    /// The word that a sleeper looks at.
    fn word_of(self, number: usize) -> usize
        requires { number < 32 }
        ensures { result < 32 }
    {
        match self {
            Deed::Fill => 0,
            _ => number,
        }
    }
}

/// Puts a value into the words from the first on.
fn put_all<'a, R: Wait>(
    rt: &R,
    desc: &mut Desc<AnyMem>,
    stm: &Stm<AnyMem>,
    pace: &mut Pacing<Listener<'a>>,
    first: usize,
    value: u64,
)
    requires ready { IsReady stm.now desc.old }
    requires words { 32 ≤ stm.now.config.words }
    ensures through { IsThrough desc.old desc.new }
{
    for at in first..32 {
        atomically(rt, desc, stm, pace, &Put { at, value });
    }
}

fn put_often<'a, R: Wait>(
    rt: &R,
    desc: &mut Desc<AnyMem>,
    stm: &Stm<AnyMem>,
    pace: &mut Pacing<Listener<'a>>,
    values: u64,
    counts: &'a Counts,
)
    requires ready { IsReady stm.now desc.old }
    requires words { 32 ≤ stm.now.config.words }
    ensures through { IsThrough desc.old desc.new }
{
    for i in 0..values {
        await_count(rt, &counts.asleep, SLEEPERS.saturating_mul(i + 1));
        put_all(rt, desc, stm, pace, 1, i + 1);
    }
    count(&counts.done, 1);
}

/// Installs each algorithm three times, each time once as many looks as there are sleepers came after the last.
fn switch_often<R: Wait>(rt: &R, desc: &mut Desc<AnyMem>, stm: &Stm<AnyMem>, counts: &Counts)
    requires ready { IsReady stm.now desc.old }
    ensures through { IsThrough desc.old desc.new }
{
    for i in 0..18usize {
        let looks = counted(&counts.empty);
        switch_to(rt, desc, stm, ALGORITHMS[i % 6]);
        await_count(rt, &counts.empty, looks.saturating_add(SLEEPERS));
    }
    count(&counts.done, 1);
}

/// Wakes who sleeps in a wait that was rung for.
fn wake(stm: &Stm<AnyMem>, rung: Rung<AnyMem>) {
    if rung.heard {
        stm.bell.wake();
    }
}

/// Takes words 1 and 2 out of the transactions, and gives them back with a value each,
/// once sleepers have met the range.
fn take_range<R: Wait>(rt: &R, desc: &mut Desc<AnyMem>, stm: &Stm<AnyMem>, counts: &Counts)
    requires ready { IsReady stm.now desc.old }
    requires words { stm.now.config.words ≡ 32 }
    requires callers { stm.now.config.callers ≡ 32 }
    requires fences { stm.now.config.fence ≡ true }
    ensures through { IsThrough desc.old desc.new }
{
    close_alone(rt, desc, stm);
    match fence(desc, stm, 1, 2) {
        Fence::Fenced => {
            let rung = reopen(desc, stm);
            wake(stm, rung);
            await_count(rt, &counts.fenced, 2);
            direct_write(desc, stm, 1, 1);
            direct_write(desc, stm, 2, 1);
            close_alone(rt, desc, stm);
            let given = give_back(desc, stm);
            let rung = reopen(desc, stm);
            wake(stm, rung);
            if let Give::Committed { .. } = given {
                count(&counts.done, 1);
            }
        }
        Fence::Taken { .. } => {
            reopen(desc, stm);
        }
    }
}

/// Caller 0, once all others sleep.
fn act<'a, R: Wait>(
    rt: &R,
    desc: &mut Desc<AnyMem>,
    stm: &Stm<AnyMem>,
    pace: &mut Pacing<Listener<'a>>,
    deed: Deed,
    counts: &'a Counts,
)
    requires ready { IsReady stm.now desc.old }
    requires words { stm.now.config.words ≡ 32 }
    requires callers { stm.now.config.callers ≡ 32 }
    requires fences { stm.now.config.fence ≡ true }
    ensures through { IsThrough desc.old desc.new }
{
    await_count(rt, &counts.asleep, SLEEPERS);
    match deed {
        Deed::Put { values } => put_often(rt, desc, stm, pace, values, counts),
        Deed::Fill => {
            atomically(rt, desc, stm, pace, &Put { at: 0, value: 1 });
            count(&counts.done, 1);
        }
        Deed::Switch => {
            switch_often(rt, desc, stm, counts);
            put_all(rt, desc, stm, pace, 1, 1);
        }
        Deed::Range => {
            take_range(rt, desc, stm, counts);
            put_all(rt, desc, stm, pace, 3, 1);
        }
    }
}

/// What one caller does.
fn work<R: Wait + Clock>(
    rt: &R,
    number: usize,
    desc: &mut Desc<AnyMem>,
    stm: &Stm<AnyMem>,
    deed: Deed,
    counts: &Counts,
)
    requires ready { IsReady stm.now desc.old }
    requires words { stm.now.config.words ≡ 32 }
    requires callers { stm.now.config.callers ≡ 32 }
    requires fences { stm.now.config.fence ≡ true }
    ensures through { IsThrough desc.old desc.new }
{
    let mut pace = Pacing::observed(Listener { counts });
    pace.patience = Patience::none();
    if number == 0 {
        act(rt, desc, stm, &mut pace, deed, counts);
    } else {
        let to = number % 32;
        let at = deed.word_of(to);
        sleep_often(rt, desc, stm, &mut pace, at, to, deed.values(), counts);
    }
}

/// Has each caller do so, on a thread of its own.
fn work_all<R: Threads + Wait + Clock + Sync>(
    rt: &R,
    descs: &mut [Desc<AnyMem>],
    stm: &Stm<AnyMem>,
    deed: Deed,
    counts: &Counts,
)
    requires ready { All (IsReady stm.now) descs.old }
    requires words { stm.now.config.words ≡ 32 }
    requires callers { stm.now.config.callers ≡ 32 }
    requires fences { stm.now.config.fence ≡ true }
{
    thread::for_each_mut(
        rt,
        descs,
        32,
        &|number, desc| { work(rt, number, desc, stm, deed, counts) },
    );
}

/// Has all do so under an algorithm.
fn serve<R: Threads + Wait + Clock + Sync>(
    rt: &R,
    descs: &mut [Desc<AnyMem>],
    stm: &Stm<AnyMem>,
    alg: Alg,
    deed: Deed,
    counts: &Counts,
)
    requires ready { AllReady stm.now 0 descs.old }
    requires some { 0 < length descs.old }
    requires words { stm.now.config.words ≡ 32 }
    requires callers { stm.now.config.callers ≡ 32 }
    requires fences { stm.now.config.fence ≡ true }
{
    switch_to(rt, &mut descs[0], stm, alg);
    work_all(rt, descs, stm, deed, counts);
}

/// What the callers find under an algorithm, from this clock on.
fn run<R: Threads + Wait + Clock + Sync>(
    rt: &R,
    alloc: Global,
    alg: Alg,
    clock: u64,
    deed: Deed,
) -> Result<Counts, NewError> {
    let config = Config { clock, ..SIZES };
    let (stm, mut descs) = Stm::new(alloc, config, AnyMem)?;
    let counts = Counts::new();
    serve(rt, descs.as_mut_slice(), &stm, alg, deed, &counts);
    Ok(counts)
}

/// Under the algorithms that log reads. Were each sleeper woken by each write, as it is under the others, most sleeps
/// would be in vain.
#[test]
fn each_sleeper_is_woken_by_its_own_word(rt: HostRuntime) -> Result<(), Fail> {
    for alg in [Alg::OrecLazy, Alg::OrecEager, Alg::RingSw] {
        let counts = run(&rt, rt.alloc(), alg, 0, Deed::Put { values: 20 })?;
        let values = counted(&counts.right);
        assert_eq!(rt; values, 20 * SLEEPERS);
        let wakes = counted(&counts.wakes);
        assert!(rt; wakes > values / 2);
        assert!(rt; counted(&counts.futile) <= wakes / 10);
    }
    Ok(())
}

/// Who finds the clock full sleeps no more: the first ones get the value, and the others None.
#[test]
fn each_sleeper_ends_at_a_full_clock(rt: HostRuntime) -> Result<(), Fail> {
    for alg in ALGORITHMS {
        let counts = run(&rt, rt.alloc(), alg, CLOCK_LIMIT - 20, Deed::Fill)?;
        let came = counted(&counts.right);
        assert!(rt; 0 < came);
        assert!(rt; came < 20);
        assert_eq!(rt; came.saturating_add(counted(&counts.full)), SLEEPERS);
    }
    Ok(())
}

#[test]
fn each_sleeper_gets_its_value_after_switches(rt: HostRuntime) -> Result<(), Fail> {
    let counts = run(&rt, rt.alloc(), Alg::OrecLazy, 0, Deed::Switch)?;
    assert_eq!(rt; counted(&counts.done), 1);
    assert_eq!(rt; counted(&counts.right), SLEEPERS);
    Ok(())
}

#[test]
fn each_sleeper_gets_what_a_range_comes_back_with(rt: HostRuntime) -> Result<(), Fail> {
    for alg in ALGORITHMS {
        let counts = run(&rt, rt.alloc(), alg, 0, Deed::Range)?;
        assert_eq!(rt; counted(&counts.done), 1);
        assert_eq!(rt; counted(&counts.right), SLEEPERS);
    }
    Ok(())
}
