//! Sources and sinks of bytes.
ghost use Rattle.std.specs.Prelude.{◌≡◌, ◌<◌, ◌≤◌, ◌↔◌, ℕ, List, [], Option, take, length, IfSome, IfOk, OnOk, OnErr};
ghost use Rattle.work_io.specs.Ends.{Rose, Took, Gained};

/// The one error of a source or a sink: the call failed, and nothing was moved.
#[derive(Clone, Copy, Debug, PartialEq, Eq)]
pub struct Failed;

/// Where bytes come from. It counts its faults, and the count never falls.
///
/// A source may tell what it has left (`left`). One that can't, as standard input, tells nothing,
/// and its contract then speaks of the counts alone.
pub trait Source {
    ghost left: { Self → Option (List ℕ) };

    ghost faults: { Self → ℕ };

    /// Takes at most `buf.len()` bytes off what is left and puts them at the front of `buf`.
    /// Returns how many. The bytes of `buf` after them may have changed.
    ///
    /// 0 on a buffer that isn't empty is the end of the input.
    ///
    /// # Errors
    /// [`Failed`] takes nothing, and comes only where the count of faults rose: it grew, or
    /// stands at 2^64 - 1. What `buf` then holds is left open.
    fn take(&mut self, buf: &mut [u8]) -> Result<usize, Failed>
        ensures count { IfOk result (λ k. k ≤ length buf.old) }
        ensures taken { IfOk result (λ k. Took (left self.old) (left self.new) (take k buf.new)) }
        ensures end { IfOk result (λ k.
            0 < length buf.old → IfSome (left self.old) (λ all. (k ≡ 0) ↔ (all ≡ []))) }
        ensures calm { OnOk result (faults self.new ≡ faults self.old) }

        ensures failed { OnErr result (left self.new ≡ left self.old) }
        ensures cause { OnErr result (Rose (faults self.old) (faults self.new)) }
        ensures never_falls { faults self.old ≤ faults self.new };
}

/// Where bytes go. It counts its faults, and the count never falls.
///
/// A sink may tell what it holds (`held`). One that can't, as standard output, tells nothing, and
/// its contract then speaks of the counts alone.
pub trait Sink {
    ghost held: { Self → Option (List ℕ) };

    ghost faults: { Self → ℕ };

    /// Appends the first bytes of `piece`, as many as the sink takes at once, and returns how
    /// many: at least one, unless `piece` is empty.
    ///
    /// # Errors
    /// [`Failed`] appends nothing, and comes only where the count of faults rose: it grew, or
    /// stands at 2^64 - 1.
    fn put(&mut self, piece: &[u8]) -> Result<usize, Failed>
        ensures count { IfOk result (λ k. k ≤ length piece.now) }
        ensures gained { IfOk result (λ k.
            Gained (held self.old) (held self.new) (take k piece.now)) }
        ensures some { IfOk result (λ k. 0 < length piece.now → 0 < k) }
        ensures calm { OnOk result (faults self.new ≡ faults self.old) }

        ensures failed { OnErr result (held self.new ≡ held self.old) }
        ensures cause { OnErr result (Rose (faults self.old) (faults self.new)) }
        ensures never_falls { faults self.old ≤ faults self.new };
}
