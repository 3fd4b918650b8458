//! Laws of the definitions, each the contract of a function.
ghost use Rattle.stm_model.specs.Statements.{LimitsAre, OverlayIsWritten, WordsAreKept};

use crate::rule::MemRule;

/// For lists with one item an address, laying writes over a memory is writing them one after the other.
pub fn overlay_is_written()
    ensures { OverlayIsWritten }
{}

/// A memory's words stay below 2^64 under every log, so a rule that says no more of them is kept.
pub fn words_are_kept<K: MemRule>()
    ensures { (rule : K) → WordsAreKept (K.good rule) }
{}

/// The limits of a memory, of its logs and of its clock are these numbers.
pub fn limits_are()
    ensures { LimitsAre }
{}
