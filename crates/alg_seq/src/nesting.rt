//! A roll back in place, for an attempt of Serial that is not irrevocable: the words that it stored since a mark have
//! the values again that they had there. It stores every word that is left, also those not written since: no more than
//! a cancel takes, where telling them apart would cost a second journal.
ghost use Rattle.stm_rule.specs.Counting.{TakesAtMost};
ghost use Rattle.stm_answers.specs.Counting.{AddsAtMost};
ghost use Rattle.std.specs.Prelude.{◌≡◌, ℕ, ◌≤◌, ◌-◌, false, length};
ghost use Rattle.stm_model.specs.declared.alg.Alg.TheVariants.{Serial};
ghost use Rattle.stm_rule.specs.Callers.{IsOf, IsSameCaller, IsSeatOf};
ghost use Rattle.stm_rule.specs.Kept.{MovesView, view_of};
ghost use Rattle.stm_answers.specs.Answers.{Rolls};
ghost use Rattle.stm_answers.specs.CallerState.{IsRunning, is_irrevocable};
ghost use Rattle.stm_gate.specs.Knowing.{known, number};
ghost use Rattle.alg_seq.specs.Nesting.{HasOlds, IsStoredBack, CanStoreAgain, IsStoredAgain};

use stm_answers::answers::Roll;
use stm_logs::undo_log::UndoLog;
use stm_logs::write_log::WriteLog;
use stm_model::rule::MemRule;
use stm_rule::desc::Desc;
use stm_rule::stm::{Stm, Token};

/// Rolls an attempt of Serial back: the words that it stored since the mark have the values again that they had there.
pub(crate) fn roll_in_place<K: MemRule>(desc: &mut Desc<K>, stm: &Stm<K>, depth: usize) -> Roll
    requires stm { IsOf desc.old stm.now }
    requires running { IsRunning (known desc.old) }
    requires algorithm { (known desc.old).alg ≡ Serial }
    requires revocable { is_irrevocable (known desc.old) ≡ false }
    requires low { 1 ≤ depth }
    requires high { depth ≤ (known desc.old).depth }
    ensures same { IsSameCaller desc.old desc.new }
    ensures rolls { Rolls (K.good stm.now.rule) stm.now.config (number desc.old) depth result
        (known desc.old) (known desc.new) }
    ensures steps { AddsAtMost (known desc.old).writes_limit (known desc.old) (known desc.new) }
{
    let caller = desc.number;
    let left = desc.local.writes.count_at(depth);
    store_back(
        &mut desc.seat,
        stm,
        caller,
        &desc.local.undo,
        &desc.local.writes,
        left,
    );
    desc.local.writes.roll_to(depth);
    store_again(&mut desc.seat, stm, caller, &desc.local.writes);
    desc.local.wrote = left > 0;
    desc.local.depth = depth;
    Roll::Rolled
}

/// Stores the old values back of all words that the attempt has stored but the first `left`, the last first. Their
/// items stay in the undo log. One step for each.
pub fn store_back<K: MemRule>(
    seat: &mut Token<K>,
    stm: &Stm<K>,
    caller: usize,
    undo: &UndoLog,
    writes: &WriteLog,
    left: usize,
)
    requires seat { IsSeatOf stm.now caller seat.old }
    requires olds { HasOlds stm.now.config.words undo.now.items writes.now.items
        (view_of seat.old) }
    ensures same { MovesView seat.old seat.new }
    ensures back { IsStoredBack left (view_of seat.old) (view_of seat.new) }
    ensures steps { TakesAtMost (length writes.now.items - left) (view_of seat.old)
        (view_of seat.new) }
{
    let mut count = writes.count();
    while count > left {
        count -= 1;
        let (a, _) = writes.item(count);
        if let Some(x) = undo.find(a) {
            stm.store_back(seat, caller, a, x);
        }
    }
}

/// Stores the values of the write log in the words that the attempt has stored. One step for each.
fn store_again<K: MemRule>(seat: &mut Token<K>, stm: &Stm<K>, caller: usize, writes: &WriteLog)
    requires seat { IsSeatOf stm.now caller seat.old }
    requires again { CanStoreAgain stm.now.config.words writes.now.items (view_of seat.old) }
    ensures same { MovesView seat.old seat.new }
    ensures again { IsStoredAgain writes.now.items (view_of seat.old) (view_of seat.new) }
    ensures steps { TakesAtMost (length writes.now.items) (view_of seat.old) (view_of seat.new) }
{
    for i in 0..writes.count() {
        let (a, x) = writes.item(i);
        stm.store_heap(seat, caller, a, x);
    }
}
