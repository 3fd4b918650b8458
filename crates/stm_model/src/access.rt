//! The access to a memory from within an attempt.
ghost use Rattle.std.specs.Prelude.{◌≡◌, ◌<◌, ◌^◌, ℕ, List, None, Some, Option, IfOk, OnOk, IfErr, OnErr, length};

use crate::stop::Stop;

/// Reads and writes of one attempt.
///
/// Its meaning has four parts: its log (what was read and written so far), a predicate that says which
/// memories are good, its number of words, and `stopped`, which is None or, from then on, the Stop that
/// a call answered. What else a call leaves alone is told by the frame `keeps`.
pub trait Access {
    ghost use Rattle.stm_model.specs.Logs.{Log, IsLog, Reads, Writes, SameMemories, IsExplained, IsReadStop};
    ghost use Rattle.stm_model.specs.declared.stop.Stop.{Stop};

    ghost log: { Self → Log };

    ghost good: { Self → List ℕ → Type 0 };

    ghost words: { Self → ℕ };

    ghost stopped: { Self → Option Stop };

    // a call leads from a value to one that this relates to it
    ghost keeps: { Self → Self → Type 0 };

    /// The word at `a`: the attempt's own last write of it, else the value that it read there before,
    /// else what a good memory has there, which the log gains. An Err ends the attempt.
    fn read(&mut self, a: usize) -> Result<u64, Stop>
        requires going { stopped self.old ≡ None }
        requires within { a < words self.old }
        ensures value { IfOk result (λ v. Reads (log self.old) a v (log self.new)) }
        ensures range { IfOk result (λ v. v < 2 ^ 64) }
        ensures explained { OnOk result
            (IsExplained (good self.new) (words self.new) (log self.new)) }
        ensures goes { OnOk result (stopped self.new ≡ None) }
        ensures stops { IfErr result (λ s. stopped self.new ≡ Some s) }
        ensures cause { IfErr result IsReadStop }
        ensures good { SameMemories (good self.old) (good self.new) }
        ensures words { words self.new ≡ words self.old }
        ensures keeps { keeps self.old self.new };

    /// The word at `a` becomes `v` for this attempt. An Err ends the attempt.
    fn write(&mut self, a: usize, v: u64) -> Result<(), Stop>
        requires going { stopped self.old ≡ None }
        requires within { a < words self.old }
        ensures value { OnOk result (Writes (log self.old) a v (log self.new)) }
        ensures explained { OnOk result
            (IsExplained (good self.new) (words self.new) (log self.new)) }
        ensures goes { OnOk result (stopped self.new ≡ None) }
        ensures stops { IfErr result (λ s. stopped self.new ≡ Some s) }
        ensures good { SameMemories (good self.old) (good self.new) }
        ensures words { words self.new ≡ words self.old }
        ensures keeps { keeps self.old self.new };

    ghost keeps_refl: { (x : Self) → keeps x x };

    ghost keeps_trans: { (x y z : Self) → keeps x y → keeps y z → keeps x z };
    // a log has one item an address in its reads, and one in its writes
    ghost once: { (x : Self) → IsLog (log x) };
}
