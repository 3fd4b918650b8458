//! How often the turnstile is passed, and when.
use std::sync::atomic::{AtomicUsize, Ordering};
use std::test::Fail;
use std::thread;
use test_bench_cases::cases::{header, lines, outcome_through, workload};
use work_bench::Turnstile;
use work_bench::status::Status;

const RUN: &[&str] = &["stm_bench", "run"];

/// Counts how often each of two callers passes, and the passes whose `seq` isn't the count before them.
#[derive(Drop)]
struct Counting {
    first: AtomicUsize,
    second: AtomicUsize,
    astray: AtomicUsize,
}

impl Turnstile for Counting {
    fn pass(&self, caller: usize, seq: usize) {
        let passes = if caller == 0 {
            &self.first
        } else {
            &self.second
        };
        if passes.fetch_add(1, Ordering::SeqCst) != seq {
            self.astray.fetch_add(1, Ordering::SeqCst);
        }
    }
}

#[test]
fn each_attempt_passes_once(rt: HostRuntime) -> Result<(), Fail> {
    let alloc = rt.alloc();
    let mut text = header(alloc, "callers 2")?;
    for _ in 0..50 {
        let round = lines(
            alloc,
            "tx 0 {add 3 1} / tx 1 {add 3 1; read 2} / tx 1 / end",
        )?;
        text.push_str(round.as_str())?;
    }
    text.push_str("done\n")?;
    let counting = Counting {
        first: AtomicUsize::new(0),
        second: AtomicUsize::new(0),
        astray: AtomicUsize::new(0),
    };
    let (status, _) = outcome_through(&rt, alloc, RUN, text.as_str(), &[], 65536, &counting)?;
    assert_eq!(rt; status, Status::Ok);
    assert_eq!(rt; counting.first.load(Ordering::SeqCst), 50);
    assert_eq!(rt; counting.second.load(Ordering::SeqCst), 100);
    assert_eq!(rt; counting.astray.load(Ordering::SeqCst), 0);
    Ok(())
}

/// How often a pass gives way to other threads, so that whoever can be inside with it comes.
const GIVES_WAY: usize = 100000;

/// Counts who is inside `pass`, and how often somebody else was too.
#[derive(Drop)]
struct Meeting {
    inside: AtomicUsize,
    passes: AtomicUsize,
    meetings: AtomicUsize,
}

impl Turnstile for Meeting {
    fn pass(&self, _caller: usize, _seq: usize) {
        self.inside.fetch_add(1, Ordering::SeqCst);
        self.passes.fetch_add(1, Ordering::SeqCst);
        for _ in 0..GIVES_WAY {
            if self.inside.load(Ordering::SeqCst) > 1 {
                self.meetings.fetch_add(1, Ordering::SeqCst);
                break;
            }
            thread::yield_now();
        }
        self.inside.fetch_sub(1, Ordering::SeqCst);
    }
}

/// Under TML an attempt is alone from its first write to its commit. So whoever passes after the write, which
/// here is the last operation, and before the commit meets nobody; at any other place callers meet.
#[test]
fn passes_between_the_last_operation_and_the_commit(rt: HostRuntime) -> Result<(), Fail> {
    let text = workload(
        rt.alloc(),
        "callers 4 / alg TML",
        "tx 0 {add 3 1} / tx 1 {add 3 1} / tx 2 {add 3 1} / tx 3 {add 3 1}",
    )?;
    let meeting = Meeting {
        inside: AtomicUsize::new(0),
        passes: AtomicUsize::new(0),
        meetings: AtomicUsize::new(0),
    };
    let (status, _) = outcome_through(&rt, rt.alloc(), RUN, text.as_str(), &[], 4096, &meeting)?;
    assert_eq!(rt; status, Status::Ok);
    assert_eq!(rt; meeting.passes.load(Ordering::SeqCst), 4);
    assert_eq!(rt; meeting.meetings.load(Ordering::SeqCst), 0);
    Ok(())
}

/// How often a pass looks for the other caller before it gives up.
const PATIENCE: u64 = 1000000000;

/// Caller 0 waits before its first commit until caller 1 is about to commit for the second time, and caller 1 before
/// its first until caller 0 waits. It counts who waited in vain.
#[derive(Drop)]
struct Crossing {
    first: AtomicUsize,
    second: AtomicUsize,
    missed: AtomicUsize,
}

impl Crossing {
    fn wait_for(&self, passes: &AtomicUsize) {
        for _ in 0..PATIENCE {
            if passes.load(Ordering::SeqCst) != 0 {
                return;
            }
            thread::yield_now();
        }
        self.missed.fetch_add(1, Ordering::SeqCst);
    }
}

impl Turnstile for Crossing {
    fn pass(&self, caller: usize, seq: usize) {
        if caller == 0 {
            self.first.fetch_add(1, Ordering::SeqCst);
            self.wait_for(&self.second);
        } else if seq == 0 {
            self.wait_for(&self.first);
        } else {
            self.second.fetch_add(1, Ordering::SeqCst);
        }
    }
}

/// Two attempts are open at once, and one commits in the other's middle.
#[test]
fn commits_inside_another_attempt(rt: HostRuntime) -> Result<(), Fail> {
    for alg in ["OrecLazy", "OrecEager", "RingSW"] {
        let changes = format!(in rt.alloc(); "callers 2 / alg {alg}")?;
        let text = workload(
            rt.alloc(),
            changes.as_str(),
            "tx 0 {write 0 1} / tx 1 {write 1 1} / tx 1 {write 1 2}",
        )?;
        let crossing = Crossing {
            first: AtomicUsize::new(0),
            second: AtomicUsize::new(0),
            missed: AtomicUsize::new(0),
        };
        let (status, held) = outcome_through(
            &rt,
            rt.alloc(),
            RUN,
            text.as_str(),
            &[],
            4096,
            &crossing,
        )?;
        assert_eq!(rt; status, Status::Ok);
        assert_eq!(rt; crossing.missed.load(Ordering::SeqCst), 0);
        assert!(rt; held.ends_with("\nmem 0 1\nmem 1 2\nend\n"));
    }
    Ok(())
}
