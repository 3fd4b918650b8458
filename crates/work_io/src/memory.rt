//! A source and a sink in memory, with calls that fail where a test wants them to.
ghost use Rattle.std.specs.Prelude.{◌≡◌, ◌<◌, ◌≤◌, ◌↔◌, ◌⊎◌, ◌-◌, ◌++◌, [], Some, take, drop, min, length, IsTrue, IsErr, IfSome, IfOk, OnOk, OnErr, Contains};
ghost use Rattle.work_io.specs.Ends.{Rose, Took, Gained, next_count};
ghost use Rattle.work_io.specs.Memory.{NothingFits};

use crate::ends::{Failed, Sink, Source};
use std::alloc::{AllocError, Global};
use std::marker::Model;

/// Which calls are to fail, and how many were made and failed so far. Both counts stand still at
/// 2^64 - 1.
#[derive(Debug, Drop)]
struct CallPlan {
    failing: Vec<u64>,
    calls: u64,
    faults: u64,
}

impl CallPlan {
    fn new(failing: Vec<u64>) -> Self
        ensures { result ≡ record { failing = failing; calls = 0; faults = 0 } }
    {
        CallPlan {
            failing,
            calls: 0,
            faults: 0,
        }
    }

    /// Counts a call, and says whether it is one of those that are to fail.
    fn begin_call(&mut self) -> bool
        ensures listed { IsTrue result ↔ Contains self.old.failing.items self.old.calls }
        ensures counted { self.new ≡ record self.old { calls = next_count self.old.calls } }
    {
        let is_listed = self.failing.contains(&self.calls);
        self.calls = self.calls.saturating_add(1);
        is_listed
    }

    fn count_fault(&mut self)
        ensures { self.new ≡ record self.old { faults = next_count self.old.faults } }
    {
        self.faults = self.faults.saturating_add(1);
    }
}

/// A source over bytes in memory, which tells what it has left.
#[derive(Debug, Drop)]
pub struct MemSource {
    bytes: Vec<u8>,
    taken: usize,
    plan: CallPlan,
}

impl Model for MemSource {
    ghost use Rattle.std.specs.Prelude.{◌≤◌, drop, length};
    ghost use Rattle.work_io.specs.Memory.{SourceState};

    ghost Value = { SourceState };

    ghost view = { λ s. record {
      left = drop s.taken s.bytes.items;
      failing = s.plan.failing.items;
      calls = s.plan.calls;
      faults = s.plan.faults;
    } };

    ghost invariant = { λ s. s.taken ≤ length s.bytes.items };
}

impl MemSource {
    /// A source that has these bytes left. Its calls of `take` are numbered from 0, and those
    /// whose numbers stand in `failing` fail.
    pub fn new(bytes: Vec<u8>, failing: Vec<u64>) -> Self
        ensures { result
            ≡ record { left = bytes.items; failing = failing.items; calls = 0; faults = 0 } }
    {
        MemSource {
            bytes,
            taken: 0,
            plan: CallPlan::new(failing),
        }
    }

    /// The bytes that are left.
    pub fn left(&self) -> &[u8]
        ensures { result.now ≡ self.now.left }
    {
        &self.bytes[self.taken..]
    }

    /// How many calls have failed.
    pub fn faults(&self) -> u64
        ensures { result ≡ self.now.faults }
    {
        self.plan.faults
    }
}

impl Source for MemSource {
    ghost left = { λ s. Some s.left };

    ghost faults = { λ s. s.faults };

    /// Takes as much as fits into `buf`.
    ///
    /// # Errors
    /// [`Failed`] exactly where the number of this call stands in the list of those that are to
    /// fail.
    fn take(&mut self, buf: &mut [u8]) -> Result<usize, Failed>
        ensures count { IfOk result (λ k. k ≤ length buf.old) }
        ensures taken { IfOk result (λ k.
            Took (Some self.old.left) (Some self.new.left) (take k buf.new)) }
        ensures end { IfOk result (λ k.
            0 < length buf.old → IfSome (Some self.old.left) (λ all. (k ≡ 0) ↔ (all ≡ []))) }
        ensures calm { OnOk result (self.new.faults ≡ self.old.faults) }
        ensures failed { OnErr result (Some self.new.left ≡ Some self.old.left) }
        ensures cause { OnErr result (Rose self.old.faults self.new.faults) }
        ensures never_falls { self.old.faults ≤ self.new.faults }

        ensures failing { IsErr result ↔ Contains self.old.failing self.old.calls }
        ensures fills { IfOk result (λ k. k ≡ min (length buf.old) (length self.old.left)) }
        ensures after_ok { IfOk result (λ k.
            self.new ≡ record self.old { left = drop k self.old.left; calls = next_count self.old.calls }) }
        ensures after_err { OnErr result (
            self.new ≡ record self.old { calls = next_count self.old.calls; faults = next_count self.old.faults }) }
    {
        if self.plan.begin_call() {
            self.plan.count_fault();
            return Err(Failed);
        }
        let left = &self.bytes[self.taken..];
        let count = buf.len().min(left.len());
        buf[..count].copy_from_slice(&left[..count]);
        self.taken += count;
        Ok(count)
    }
}

/// A sink in memory, which tells what it holds. Its room is fixed from the start.
#[derive(Debug, Drop)]
pub struct MemSink {
    bytes: Vec<u8>,
    room: usize,
    plan: CallPlan,
}

impl Model for MemSink {
    ghost use Rattle.std.specs.Prelude.{◌≤◌, length, vec_capacity};
    ghost use Rattle.work_io.specs.Memory.{SinkState};

    ghost Value = { SinkState };

    ghost view = { λ s. record {
      held = s.bytes.items;
      room = s.room;
      failing = s.plan.failing.items;
      calls = s.plan.calls;
      faults = s.plan.faults;
    } };

    ghost invariant = { λ s. (length s.bytes.items ≤ s.room) × (s.room ≤ vec_capacity s.bytes) };
}

impl MemSink {
    /// An empty sink with room for `room` bytes. Its calls of `put` are numbered from 0, and those
    /// whose numbers stand in `failing` fail.
    ///
    /// # Errors
    /// `AllocError` where the memory for the room isn't there.
    pub fn new(alloc: Global, room: usize, failing: Vec<u64>) -> Result<Self, AllocError>
        ensures { IfOk result (λ s.
            s ≡ record { held = []; room = room; failing = failing.items; calls = 0; faults = 0 }) }
    {
        let bytes = Vec::with_capacity(alloc, room)?;
        Ok(MemSink {
            bytes,
            room,
            plan: CallPlan::new(failing),
        })
    }

    /// The bytes that it holds: at most its room.
    pub fn held(&self) -> &[u8]
        ensures value { result.now ≡ self.now.held }
        ensures within { length self.now.held ≤ self.now.room }
    {
        self.bytes.as_slice()
    }

    /// How many calls have failed.
    pub fn faults(&self) -> u64
        ensures { result ≡ self.now.faults }
    {
        self.plan.faults
    }
}

impl Sink for MemSink {
    ghost held = { λ s. Some s.held };

    ghost faults = { λ s. s.faults };

    /// Appends as much of `piece` as there is room for.
    ///
    /// # Errors
    /// [`Failed`] exactly where the number of this call stands in the list of those that are to
    /// fail, or the sink is full and `piece` isn't empty.
    fn put(&mut self, piece: &[u8]) -> Result<usize, Failed>
        ensures count { IfOk result (λ k. k ≤ length piece.now) }
        ensures gained { IfOk result (λ k.
            Gained (Some self.old.held) (Some self.new.held) (take k piece.now)) }
        ensures some { IfOk result (λ k. 0 < length piece.now → 0 < k) }
        ensures calm { OnOk result (self.new.faults ≡ self.old.faults) }
        ensures failed { OnErr result (Some self.new.held ≡ Some self.old.held) }
        ensures cause { OnErr result (Rose self.old.faults self.new.faults) }
        ensures never_falls { self.old.faults ≤ self.new.faults }

        ensures failing { IsErr result
            ↔ (Contains self.old.failing self.old.calls ⊎ NothingFits self.old piece.now) }
        ensures fits { IfOk result (λ k.
            k ≡ min (length piece.now) (self.old.room - length self.old.held)) }
        ensures after_ok { IfOk result (λ k.
            self.new ≡ record self.old { held = self.old.held ++ take k piece.now; calls = next_count self.old.calls }) }
        ensures after_err { OnErr result (
            self.new ≡ record self.old { calls = next_count self.old.calls; faults = next_count self.old.faults }) }
    {
        let is_listed = self.plan.begin_call();
        let count = piece.len().min(self.room - self.bytes.len());
        if is_listed || (count == 0 && !piece.is_empty()) {
            self.plan.count_fault();
            return Err(Failed);
        }
        self.bytes.extend_from_slice(&piece[..count]).unwrap();
        Ok(count)
    }
}
