//! Marks in an attempt of OrecEager, to which it can be rolled back until it is irrevocable: the words that it stored
//! in place have the values again that they had at the mark. It keeps the records that it took. Released at once, each
//! would have to be raised above its old version and the clock with it, so an attempt's own roll back would make its
//! reads stale. The undo log keeps its items too: their old values stay right, so a word written again needs no step to
//! save it, and each record has an item that stands for it, which bounds the steps.
ghost use Rattle.stm_rule.specs.Counting.{TakesAtMost};
ghost use Rattle.std.specs.Prelude.{◌≡◌, ℕ, ◌≤◌, ◌-◌, false, length};
ghost use Rattle.stm_model.specs.declared.alg.Alg.TheVariants.{OrecEager};
ghost use Rattle.stm_rule.specs.Callers.{IsOf, IsSameCaller, IsSeatOf};
ghost use Rattle.stm_rule.specs.Kept.{MovesView, view_of};
ghost use Rattle.stm_answers.specs.Answers.{Rolls};
ghost use Rattle.stm_answers.specs.Counting.{AddsAtMost};
ghost use Rattle.stm_answers.specs.CallerState.{IsRunning};
ghost use Rattle.stm_gate.specs.Knowing.{known, number};
ghost use Rattle.alg_orec.specs.EagerNesting.{CanRestoreAfter, RestoresAfter, CanPlaceAgain, PlacesAgain};

use crate::eager_steps::{place, restore};
use stm_answers::answers::Roll;
use stm_logs::undo_log::UndoLog;
use stm_logs::write_log::WriteLog;
use stm_model::rule::MemRule;
use stm_rule::desc::Desc;
use stm_rule::stm::{Stm, Token};

/// Rolls an attempt back that was not promoted: the words that it stored since the mark have the values again that they
/// had there, and their records stay held. One step for each word that it had stored.
pub(crate) fn roll_in_place<K: MemRule>(desc: &mut Desc<K>, stm: &Stm<K>, depth: usize) -> Roll
    requires stm { IsOf desc.old stm.now }
    requires running { IsRunning (known desc.old) }
    requires algorithm { (known desc.old).alg ≡ OrecEager }
    requires revocable { (known desc.old).granted ≡ false }
    requires low { 1 ≤ depth }
    requires high { depth ≤ (known desc.old).depth }
    ensures same { IsSameCaller desc.old desc.new }
    ensures rolls { Rolls (K.good stm.now.rule) stm.now.config (number desc.old) depth result
        (known desc.old) (known desc.new) }
    ensures steps { AddsAtMost (known desc.old).writes_limit (known desc.old) (known desc.new) }
{
    let caller = desc.number;
    let left = desc.local.writes.count_at(depth);
    restore_after(
        &mut desc.seat,
        stm,
        caller,
        &desc.local.undo,
        &desc.local.writes,
        left,
    );
    desc.local.writes.roll_to(depth);
    place_again(&mut desc.seat, stm, caller, &desc.local.writes);
    desc.local.wrote = left > 0;
    desc.local.depth = depth;
    Roll::Rolled
}

/// Stores the old values back of all words that are written but the first `left`, the last first. Their items stay in
/// the undo log. One step for each.
fn restore_after<K: MemRule>(
    seat: &mut Token<K>,
    stm: &Stm<K>,
    caller: usize,
    undo: &UndoLog,
    writes: &WriteLog,
    left: usize,
)
    requires seat { IsSeatOf stm.now caller seat.old }
    requires behind { CanRestoreAfter stm.now.config.words undo.now.items writes.now.items
        (view_of seat.old) }
    ensures same { MovesView seat.old seat.new }
    ensures behind { RestoresAfter left writes.now.items (view_of seat.old) (view_of seat.new) }
    ensures steps { TakesAtMost (length writes.now.items - left) (view_of seat.old)
        (view_of seat.new) }
{
    let mut count = writes.count();
    while count > left {
        count -= 1;
        let (a, _) = writes.item(count);
        if let Some(x) = undo.find(a) {
            restore(stm, seat, caller, a, x);
        }
    }
}

/// Stores the values of the write log in the words that the attempt has stored. One step for each.
fn place_again<K: MemRule>(seat: &mut Token<K>, stm: &Stm<K>, caller: usize, writes: &WriteLog)
    requires seat { IsSeatOf stm.now caller seat.old }
    requires again { CanPlaceAgain stm.now.config.words writes.now.items (view_of seat.old) }
    ensures same { MovesView seat.old seat.new }
    ensures again { PlacesAgain writes.now.items (view_of seat.old) (view_of seat.new) }
    ensures steps { TakesAtMost (length writes.now.items) (view_of seat.old) (view_of seat.new) }
{
    for i in 0..writes.count() {
        let (a, x) = writes.item(i);
        place(stm, seat, caller, a, x);
    }
}
