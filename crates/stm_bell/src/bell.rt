//! An event count with a bed for each caller. While nobody waits a ring is one load.
//!
//! Who waits announces that, then looks once more whether it has to wait, then sleeps, and withdraws. Who changes words
//! does that before it rings. So where a ring finds nobody who waits for them, each who announces later looks later,
//! and sees the change.
//!
//! A ring ends the waits that don't sleep yet. Who sleeps is woken by a call of the system, which a library without
//! handles, as the one for C, may not reach: so to wake is a call of its own, and no sleep is longer than
//! [`LONGEST_SLEEP`].
ghost use Rattle.std.specs.Prelude.{◌≡◌, ℕ, IfSome};
ghost use Rattle.stm_bell.specs.Bells.{rung_for, waits_for};
ghost use Rattle.stm_bell.specs.Stripes.{Has};

use crate::stripes::Stripes;
use crossbeam_utils::CachePadded;
use std::array;
use std::snapshot::Snapshot;
use std::sync::Wait;
use std::sync::atomic::{AtomicU64, Ordering};
use std::time::Duration;

/// The beds: callers whose numbers differ by as many share one, and wake each other.
const BEDS: usize = 32;

/// A caller that nobody wakes looks again after so many milliseconds.
const LONGEST_SLEEP: u64 = 10;

/// On cache lines of its own, as is each bed, so that a ring takes no line from another.
#[derive(Drop)]
pub struct Bell {
    /// How many wait, in the low 32 bits, and above them the stripes that they wait for;
    /// some may be of waits that are over.
    waiting: CachePadded<AtomicU64>,
    /// The beds that were rung for, a bit each, of which nobody has been woken yet.
    rung: CachePadded<AtomicU64>,
    beds: [Bed; BEDS],
}

/// Where a caller sleeps. The low 32 bits are odd from an announcement on until the next ring for it, and both add 1.
/// While they are odd the high ones are the stripes that are waited for.
#[derive(Drop)]
struct Bed {
    word: CachePadded<AtomicU64>,
}

/// That its maker waits.
#[derive(Drop)]
pub struct Announced {
    bed: usize,
    low: u32,
    stripes: Stripes,
}

impl Announced {
    /// The low 32 bits of the bed's word while the wait is on.
    pub fn low(&self) -> u32 {
        self.low
    }

    /// Of the words that the wait is for.
    pub fn stripes(&self) -> Stripes
        ensures { result ≡ waits_for self.now }
    {
        self.stripes
    }
}

/// That a bell was rung, for proofs alone. Only a bell makes it.
#[derive(Drop)]
pub struct Ring {
    stripes: Snapshot<Stripes>,
}

impl Ring {
    #[inline(always)]
    fn of(stripes: Stripes) -> Ring
        ensures { rung_for result ≡ stripes }
    {
        Ring {
            stripes: Snapshot::of(&stripes),
        }
    }
}

impl Bell {
    pub fn new() -> Bell {
        Bell {
            waiting: CachePadded::new(AtomicU64::new(0)),
            rung: CachePadded::new(AtomicU64::new(0)),
            beds: array::from_fn(|_| Bed::new()),
        }
    }

    /// Where nobody waits a ring for all words is none. One load.
    #[inline(always)]
    pub fn in_silence(&self) -> Option<Ring>
        ensures { IfSome result (λ r. (a : ℕ) → Has a (rung_for r)) }
    {
        if self.waiting.load(Ordering::SeqCst) == 0 {
            return Some(Ring::of(Stripes::all()));
        }
        None
    }

    /// Words of these stripes may have changed: ends each wait for one of them that was announced. Who sleeps in such a
    /// wait is to be woken ([`Bell::wake`]). To be called after the change.
    pub fn ring(&self, stripes: Stripes) -> Ring
        ensures { rung_for result ≡ stripes }
    {
        self.end_waits(stripes);
        Ring::of(stripes)
    }

    fn end_waits(&self, stripes: Stripes) {
        let waited_for = stripes_of(self.waiting.load(Ordering::SeqCst));
        if !waited_for.meet(stripes) {
            return;
        }
        let mut rung: u64 = 0;
        for bed in 0..BEDS {
            if self.beds[bed].ring(stripes) {
                rung |= 1 << bed;
            }
        }
        self.rung.fetch_or(rung, Ordering::SeqCst);
    }

    /// Wakes who sleeps in a bed that was rung for.
    #[cold]
    pub fn wake(&self) {
        let rung = self.rung.swap(0, Ordering::SeqCst);
        for bed in 0..BEDS {
            if (rung >> bed) & 1 == 1 {
                self.beds[bed].word.wake_all();
            }
        }
    }

    /// Where the bits of the beds that were rung for lie: who has no handle, as C, wakes by the system's own call, and
    /// takes the bits away.
    pub fn rung_ptr(&self) -> *mut u64 {
        self.rung.as_ptr()
    }

    /// Where the word of a bed lies.
    pub fn bed_ptr(&self, bed: usize) -> *mut u64 {
        self.beds[bed % BEDS].word.as_ptr()
    }

    /// Announces that the caller of this number waits for words of these stripes. It looks afterwards whether it has to
    /// wait, sleeps only then, and withdraws at last.
    pub fn announce(&self, caller: usize, stripes: Stripes) -> Announced
        ensures { waits_for result ≡ stripes }
    {
        let bed = caller % BEDS;
        let low = self.beds[bed].announce(stripes);
        // first the number: while it isn't 0 nobody takes the stripes back
        self.waiting.fetch_add(1, Ordering::SeqCst);
        self.waiting
            .fetch_or(u64::from(stripes.bits) << 32, Ordering::SeqCst);
        Announced { bed, low, stripes }
    }

    /// The wait is over. The last one takes the stripes back.
    pub fn withdraw(&self, announced: Announced) {
        let _ = announced;
        let found = self.waiting.fetch_sub(1, Ordering::SeqCst);
        if found & 0xffff_ffff == 1 {
            let left = found & 0xffff_ffff_0000_0000;
            let _ = self
                .waiting
                .compare_exchange(left, 0, Ordering::SeqCst, Ordering::SeqCst);
        }
    }

    /// The word by which the announced wait sleeps. Who has no handle, as C, sleeps there by the system's own call,
    /// while its low 32 bits are those that were announced.
    pub fn as_ptr(&self, announced: &Announced) -> *mut u64 {
        self.beds[announced.bed % BEDS].word.as_ptr()
    }

    /// Sleeps until it is woken after a ring since the announcement, or for `LONGEST_SLEEP` milliseconds. It may also
    /// end for no reason.
    pub fn sleep<R: Wait>(&self, rt: &R, announced: &Announced) {
        self.nap(rt, announced, Duration::from_millis(LONGEST_SLEEP));
    }

    /// The same for so long at most.
    pub fn nap<R: Wait>(&self, rt: &R, announced: &Announced, longest: Duration) {
        self.beds[announced.bed % BEDS]
            .word
            .park_timeout(rt, announced.low, longest);
    }
}

impl Bed {
    fn new() -> Bed {
        Bed {
            word: CachePadded::new(AtomicU64::new(0)),
        }
    }

    /// Whether somebody is to be woken.
    fn ring(&self, stripes: Stripes) -> bool {
        let found = self.word.load(Ordering::SeqCst);
        if found % 2 == 0 || !stripes_of(found).meet(stripes) {
            return false;
        }
        // where two ring at once the second leaves it odd: the next ring wakes nobody
        self.word.fetch_add(1, Ordering::SeqCst);
        true
    }

    /// Answers the low 32 bits while the wait is on.
    fn announce(&self, stripes: Stripes) -> u32 {
        let found = self.word.load(Ordering::SeqCst);
        let low = (found & 0xffff_ffff) as u32;
        let odd = low | 1;
        let others = if low == odd { found >> 32 } else { 0 };
        let next = ((others | u64::from(stripes.bits)) << 32) | u64::from(odd);
        match self
            .word
            .compare_exchange(found, next, Ordering::SeqCst, Ordering::SeqCst)
        {
            Ok(_) => odd,
            // it wasn't announced: the word has gone beyond what it was before, and the sleep ends at once
            Err(_) => odd ^ 1,
        }
    }
}

/// The stripes in the high half of a word.
fn stripes_of(word: u64) -> Stripes {
    Stripes {
        bits: (word >> 32) as u32,
    }
}
