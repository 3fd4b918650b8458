//! The law of handles, as the contract of a function that does nothing.
ghost use Rattle.rule_base.specs.World.{World};
ghost use Rattle.tx_checked.specs.declared.checked_caller.CheckedCaller.{CheckedCaller};
ghost use Rattle.tx_checked.specs.OneHistory.{HandOutOneHistory, HaveOneHistory, IsMomentOf, TakesAllOf};

/// Handles of one memory have one history. At each moment of the memory, whatever calls its callers make, on whatever
/// threads: the history is legal, each entry is some caller's, what each caller has made is its part of it, what each
/// has seen begins it, and each attempt that took effect has its moment there. As a caller takes words out, as `end`
/// does, all that each caller has made by then is in what it finds, and that begins the one history ever after: so an
/// entry is in the history whose memory `end` hands out, or is later than that.
pub fn handles_have_one_history()
    ensures one { HaveOneHistory }
    ensures taken { (w : World) (m : CheckedCaller) → IsMomentOf w m → TakesAllOf w m }
    ensures handed_out { HandOutOneHistory }
{}
