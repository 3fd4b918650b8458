//! How a worker leaves what it has open: after a schedule, and before the memory is closed.
ghost use Rattle.std.specs.Prelude.{◌≡◌, ◌≤◌, [], true, MatchBool, MatchOption};
ghost use Rattle.stm_rule.specs.Callers.{IsOf, IsSameCaller};
ghost use Rattle.stm_answers.specs.Answers.{KeepsRule};
ghost use Rattle.stm_answers.specs.CallerState.{IsIdle, caller_of, owed};
ghost use Rattle.stm_tx.specs.Descs.{known};
ghost use Rattle.work_trace.specs.Turns.{IsOver};
ghost use Rattle.work_worker.specs.Leavings.{HasNothingOpen, NothingToGiveUp, GaveUp, KeepsMade, MadeIdle};
ghost use Rattle.work_worker.specs.Workers.{Sound, place_of};

use crate::worker::Worker;
use stm_answers::answers::Cancel;
use stm_model::rule::MemRule;
use stm_rule::desc::Desc;
use stm_rule::stm::Stm;
use stm_tx::calls::{cancel, commit};
use stm_tx::gate::reopen;
use work_trace::said::{Phase, Said};

/// Gives up what is open, where that can be: what is said of it. An attempt that can't be cancelled stays
/// open.
pub fn give_up<K: MemRule>(stm: &Stm<K>, w: &mut Worker<K>) -> Option<Said>
    requires { Sound (K.good stm.now.rule) stm.now w.old }
    ensures { MatchOption result (NothingToGiveUp (K.good stm.now.rule) stm.now w.old w.new)
        (λ said. GaveUp (K.good stm.now.rule) stm.now w.old said w.new) }
{
    match w.phase {
        Phase::Between => None,
        Phase::Inside => if w.drop_attempt(stm) {
            Some(Said::Dropped)
        } else {
            None
        },
        Phase::Closing => {
            w.open_again(stm);
            Some(Said::Reopened)
        }
        Phase::Quiet => {
            w.open_again(stm);
            Some(Said::Reopened)
        }
    }
}

/// Leaves the descriptor idle: ends the open attempt without a row, by a commit where it can't be cancelled,
/// or gives the closing up.
pub fn make_idle<K: MemRule>(stm: &Stm<K>, w: &mut Worker<K>)
    requires { Sound (K.good stm.now.rule) stm.now w.old }
    ensures { MadeIdle (K.good stm.now.rule) stm.now w.old w.new }
{
    match w.phase {
        Phase::Between => {}
        Phase::Inside => end_attempt(stm, &mut w.desc),
        Phase::Closing => {
            reopen(&mut w.desc, stm);
        }
        Phase::Quiet => {
            reopen(&mut w.desc, stm);
        }
    }
}

/// An attempt that can't be cancelled is never refused.
fn end_attempt<K: MemRule>(stm: &Stm<K>, desc: &mut Desc<K>)
    requires own { IsOf desc.old stm.now }
    requires runs { (known desc.old).running ≡ true }
    requires keeps { KeepsRule (K.good stm.now.rule) stm.now.config (caller_of desc.old.who.role)
        (known desc.old) }
    ensures same { IsSameCaller desc.old desc.new }
    ensures idle { IsIdle (known desc.new) }
    ensures owes { (known desc.new).rises ≤ owed (known desc.old) }
    ensures keeps { KeepsMade (K.good stm.now.rule) stm.now.config (caller_of desc.old.who.role)
        (known desc.old) (known desc.new) }
{
    match cancel(desc, stm) {
        Cancel::Cancelled { time: _ } => {}
        Cancel::Irrevocable => {
            let _ = commit(desc, stm);
        }
    }
}

/// No attempt and no closing is open.
pub fn has_nothing_open<K: MemRule>(w: &Worker<K>) -> bool
    ensures { MatchBool result (HasNothingOpen (place_of w.now))
        (HasNothingOpen (place_of w.now) → ⊥) }
{
    match w.phase {
        Phase::Between => true,
        Phase::Inside | Phase::Closing | Phase::Quiet => false,
    }
}

/// Nothing is left to the caller.
pub fn is_over<K: MemRule>(w: &Worker<K>) -> bool
    ensures { MatchBool result (IsOver (place_of w.now)) (IsOver (place_of w.now) → ⊥) }
{
    match w.phase {
        Phase::Between => match w.chosen {
            None => w.items_left.is_empty(),
            Some(_) => false,
        },
        Phase::Inside | Phase::Closing | Phase::Quiet => false,
    }
}
