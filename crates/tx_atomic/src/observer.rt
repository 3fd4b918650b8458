//! Who is told what a caller's attempts were refused by.
ghost use Rattle.std.specs.Prelude.{◌≡◌};

use crate::tally::Ended;

/// Is told each refusal of a caller's attempts. What it does with it has no effect on what a transaction promises.
/// Contracts see what it knows of what it was told: where that is of no interest it is `Unit`, as for `()`.
pub trait Observer {
    ghost use Rattle.std.specs.Prelude.{ℕ, Option};
    ghost use Rattle.tx_atomic.specs.declared.tally.Ended.{Ended};

    ghost Heard: { Type 0 } = { Unit {0} };

    ghost heard: { Self → Heard };

    // what it knows once it is told this
    ghost hears: { Ended → Option ℕ → Heard → Heard };

    /// Is told, on the caller's own thread, why an attempt ended without a commit, or what a call was refused by after
    /// which the attempt goes on (`Busy`, `Again`): once each, before the caller pauses. An attempt that ended is over,
    /// and has left no trace.
    ///
    /// `at` is the address of the word whose read or write was refused. None where there is none: the attempt didn't
    /// begin, wasn't made irrevocable, or was refused at its commit.
    fn refused(&mut self, ended: Ended, at: Option<usize>)
        ensures { heard self.new ≡ hears ended at (heard self.old) };
}

/// None: nothing is done.
impl Observer for () {
    ghost heard = { λ _. tt };

    ghost hears = { λ ended at heard. heard };

    #[inline]
    fn refused(&mut self, _ended: Ended, _at: Option<usize>) {}
}
