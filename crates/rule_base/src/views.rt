//! What a caller knows and owes, by the steps that it took. Lists have the latest item first; no value
//! is made. A flag says whether the fields below it, up to the next flag, mean anything.
use crate::entries::{Cell, Entry, Prefix};
use crate::layout::At;
use std::collections::LinkedList;
use stm_model::alg::Alg;

/// What a caller knows of the history.
pub struct SeenHistory {
    /// Its own entries.
    pub made: LinkedList<Entry>,
    /// The entries with time at most the front.
    pub seen: LinkedList<Entry>,
    pub front: u64,
    /// The lesser of the two prefixes that the last learning joined.
    pub told: Prefix,
    /// All that there was when it loaded the clock at the closing.
    pub whole: Prefix,
}

/// What a step does to its word.
pub enum Act {
    Load,
    Store(u64),
    /// The word wanted, and the word that is stored where it is found.
    Exchange(u64, u64),
    /// A fetch_max.
    Raise(u64),
}

/// A step that was taken: the word, the act, and what a load, an exchange or a fetch_max found there. Nobody is told
/// what the load of a split or a join of seats finds.
pub struct TracedStep {
    pub place: At,
    pub act: Act,
    pub found: Option<u64>,
}

/// What a caller's steps add up to.
pub struct Steps {
    pub step_trace: LinkedList<TracedStep>,
    /// By how much its own steps raised the clock.
    pub rises: u64,
    /// The same when its attempt began.
    pub rises_at_begin: u64,
    /// The algorithms that it installed.
    pub installs: LinkedList<Alg>,
}

/// Where a caller stands between idle, an attempt and a closed gate.
pub enum Phase {
    Idle,
    /// Its status is 1, and it has not yet loaded an open gate.
    Announced,
    /// It found the gate closed, and is to withdraw.
    Turned,
    /// It found the gate open, and is to close it.
    Aiming,
    /// In an attempt.
    In,
    /// It closed the gate.
    Closing,
}

/// What a caller knows of the gate.
pub struct GateView {
    pub phase: Phase,
    /// Its status is 1.
    pub present: bool,
    /// The algorithm of the gate that it loaded last.
    pub algorithm: Alg,
    /// The fence of the gate that it loaded last, 0 for none.
    pub fence: u64,
    /// The open gate word that it loaded to close it.
    pub aim: u64,
    /// It closed the gate, to install or to promote its attempt, and did not reopen it yet.
    pub holds: bool,
    /// The callers that it has seen idle since.
    pub checked: LinkedList<u64>,
    /// It saw all others idle, and loaded the clock since: it is `time`.
    pub quiescent: bool,
    pub time: u64,
    /// BASE is `time`.
    pub rebased: bool,
    /// DONE is `time`.
    pub completed: bool,
    /// The attempt was promoted.
    pub granted: bool,
    /// It gave a fence back by an entry, whose time BASE and DONE are to have.
    pub giving: bool,
}

/// The attempt under way.
pub struct Attempt {
    pub start: u64,
    /// What it read of words that it had not yet written.
    pub reads: LinkedList<Cell>,
    /// What it stored in the heap.
    pub stores: LinkedList<Cell>,
    /// It raised the clock as the gate's holder, by the entry of a promoted attempt, at its end without one, or to
    /// install: BASE and DONE are to have that number.
    pub entered: bool,
}

/// The lock word, under CGL, Serial and RingSW.
pub struct LockView {
    pub taken: bool,
    /// The clock was loaded as the start.
    pub started: bool,
    /// Serial: the clock was loaded before the first write.
    pub clocked: bool,
    /// Serial: what stood in the heap before the first store of each address.
    pub undo: LinkedList<Cell>,
    /// No store can be taken back: from the beginning under CGL, from its grant under Serial.
    pub irrevocable: bool,
}

/// TML.
pub struct TmlView {
    /// The clock was loaded as the start.
    pub inside: bool,
    /// The clock was made odd.
    pub writer: bool,
    /// A word was loaded, and the clock is to be loaded again.
    pub loaded: bool,
    pub from: u64,
    pub value: u64,
}

/// The records that an attempt holds, each with the version that it replaced, and what it owes the heap.
pub struct Ownership {
    /// The clock was loaded as the start.
    pub inside: bool,
    pub eager: bool,
    pub held: LinkedList<Cell>,
    /// The entry is in the history, with this time.
    pub committed: bool,
    pub time: u64,
    /// Own values that lie in the heap before the entry.
    pub in_place: LinkedList<Cell>,
    /// What was there before.
    pub undo: LinkedList<Cell>,
    /// The entry's values that do not yet lie in the heap.
    pub back: LinkedList<Cell>,
    /// The clock was raised above the old versions.
    pub raised: bool,
}

/// A read under way, under the record algorithms.
pub struct Sample {
    /// The record was loaded, with this version.
    pub sampled: bool,
    /// The word was loaded, with this value.
    pub loaded: bool,
    pub from: u64,
    pub version: u64,
    pub value: u64,
}

/// A validation under way, of the reads in `todo`, up to a clock number.
pub struct Validation {
    pub checking: bool,
    pub upto: u64,
    pub todo: LinkedList<Cell>,
}

/// A word of the ring that was loaded: word `index` of the slot of time `time`.
pub struct SlotWord {
    pub time: u64,
    pub index: u64,
    pub value: u64,
}

/// A read and its check, under RingSW.
pub struct RingRead {
    /// DONE was loaded as the start.
    pub inside: bool,
    /// The addresses in the read filter.
    pub watched: LinkedList<Cell>,
    /// A word was loaded, with this value, which memory had there at the time `at`.
    pub loaded: bool,
    pub from: u64,
    pub value: u64,
    pub at: u64,
    /// The clock was loaded as `clock`.
    pub checking: bool,
    pub clock: u64,
    /// The words of the slots of the times from the start to that clock that were loaded so far.
    pub words: LinkedList<SlotWord>,
    /// The clock was loaded again, in time.
    pub sure: bool,
}

/// A commit, under RingSW.
pub struct RingCommit {
    /// How many words of the slot have the filter of the writes.
    pub slotted: u64,
    pub writes: LinkedList<Cell>,
    /// The clock was loaded under the lock, as `clock`.
    pub ticked: bool,
    pub clock: u64,
    /// The entry is in the history.
    pub committed: bool,
    /// DONE was stored.
    pub finished: bool,
    /// The entry's values that do not yet lie in the heap.
    pub back: LinkedList<Cell>,
}

/// The range of words that a caller took out of the transactions, and what it did there.
pub struct FenceView {
    /// It has a fence.
    pub holds: bool,
    /// The fence's number.
    pub number: u64,
    /// All that there was when it came, or was last given back to the memory.
    pub past: Prefix,
    /// What it loaded of words that it had not yet stored.
    pub reads: LinkedList<Cell>,
    /// What it stored.
    pub stores: LinkedList<Cell>,
}

/// What a caller knows and owes: its part in the rule of the shared words.
pub struct View {
    pub history: SeenHistory,
    pub steps: Steps,
    pub gate: GateView,
    pub attempt: Attempt,
    pub lock: LockView,
    pub tml: TmlView,
    pub owned: Ownership,
    pub sample: Sample,
    pub check: Validation,
    pub ring_read: RingRead,
    pub ring_commit: RingCommit,
    pub fence: FenceView,
}
