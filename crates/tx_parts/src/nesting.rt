//! Marks beside the reads and writes of an attempt.
ghost use Rattle.std.specs.Prelude.{◌≡◌, ◌<◌, ◌+◌, None};
ghost use Rattle.stm_model.specs.Logs.{SameMemories};
ghost use Rattle.stm_model.specs.declared.config.TheConstants.{MOST_MARKS};

use stm_model::access::Access;

/// An access that can be rolled back to a mark. Marks stand one in another, eight at most.
pub trait Nesting: Access {
    ghost use Rattle.std.specs.Prelude.{ℕ, Some};
    ghost use Rattle.stm_model.specs.declared.stop.Stop.{Stop};
    ghost use Rattle.tx_parts.specs.Laying.{ReadsMore};

    // how many marks stand
    ghost depth: { Self → ℕ };

    // a mark was made
    ghost opens: { Self → Self → Type 0 };

    /// Makes a mark at what has been written. It takes no memory, and no step.
    fn mark(&mut self)
        requires going { Self.stopped self.old ≡ None }
        requires shallow { depth self.old < MOST_MARKS }
        ensures log { Self.log self.new ≡ Self.log self.old }
        ensures deeper { depth self.new ≡ depth self.old + 1 }
        ensures goes { Self.stopped self.new ≡ None }
        ensures good { SameMemories (Self.good self.old) (Self.good self.new) }
        ensures words { Self.words self.new ≡ Self.words self.old }
        ensures opens { opens self.old self.new };

    /// Rolls back to the last mark, and drops it: what was written since is as if it had not been, what was read stays
    /// read.
    fn roll_back(&mut self)
        requires going { Self.stopped self.old ≡ None }
        requires marked { 0 < depth self.old }
        ensures reads { (Self.log self.new).reads ≡ (Self.log self.old).reads }
        ensures writes { (x y : Self) → opens x y → Self.keeps y self.old
            → (Self.log self.new).writes ≡ (Self.log x).writes }
        ensures goes { Self.stopped self.new ≡ None }
        ensures good { SameMemories (Self.good self.old) (Self.good self.new) }
        ensures words { Self.words self.new ≡ Self.words self.old }
        ensures keeps { (x y : Self) → opens x y → Self.keeps y self.old → Self.keeps x self.new };

    /// Drops the last mark, and keeps what was written since.
    fn keep(&mut self)
        requires going { Self.stopped self.old ≡ None }
        requires marked { 0 < depth self.old }
        ensures log { Self.log self.new ≡ Self.log self.old }
        ensures goes { Self.stopped self.new ≡ None }
        ensures good { SameMemories (Self.good self.old) (Self.good self.new) }
        ensures words { Self.words self.new ≡ Self.words self.old }
        ensures keeps { (x y : Self) → opens x y → Self.keeps y self.old → Self.keeps x self.new };

    // reads and writes leave the marks alone, and the good memories, and the words; what was read stays read
    ghost keeps_depth: { (x y : Self) → Self.keeps x y → Self.stopped y ≡ None → depth y ≡ depth x };

    ghost keeps_good: { (x y : Self) → Self.keeps x y → SameMemories (Self.good x) (Self.good y) };

    ghost keeps_words: { (x y : Self) → Self.keeps x y → Self.words y ≡ Self.words x };

    ghost keeps_reads: { (x y : Self) → Self.keeps x y → Self.stopped y ≡ None → ReadsMore (Self.log x) (Self.log y) };
    // a mark ends with its attempt
    ghost keeps_stopped: { (x y z : Self) (s : Stop) → opens x y → Self.keeps y z → Self.stopped z ≡ Some s → Self.keeps x z };
}
