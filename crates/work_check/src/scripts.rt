//! The scripts of a workload, caller by caller.
ghost use Rattle.std.specs.Prelude.{◌≡◌, ◌<◌, ◌≤◌, [], ◌∷◌, true, false, Decides, MatchOption, length, drop, IfSome};
ghost use Rattle.work_script.specs.Reports.{scripts_of};
ghost use Rattle.work_script.specs.Scripts.{has_cancel, has_irrev, before_cancel};

use work_script::lists::Script;
use work_script::op::Op;
use work_script::workload::Item;

/// The next script of a caller, from the item `from` on, and the item after it. Goes over the items between.
pub fn next_script(items: &[Item], caller: usize, from: usize) -> Option<(usize, &Script)>
    requires { from ≤ length items.now }
    ensures within { IfSome result (λ next. next.0 ≤ length items.now) }
    ensures script { MatchOption result (scripts_of caller (drop from items.now) ≡ []) (λ next.
        scripts_of caller (drop from items.now)
        ≡ next.1.now ∷ scripts_of caller (drop next.0 items.now)) }
{
    for i in from..items.len() {
        match &items[i] {
            Item::Switch { caller: _, alg: _ } | Item::Reserve { .. } => {}
            Item::Tx {
                caller: own,
                script,
            } => {
                if *own == caller {
                    return Some((i + 1, script));
                }
            }
        }
    }
    None
}

/// Whether a script may be cancelled: no irrev stands before its first cancel.
pub fn may_cancel(ops: &[Op]) -> bool
    ensures { Decides result
        ((has_cancel ops.now ≡ true) × (has_irrev (before_cancel ops.now) ≡ false)) }
{
    for op in ops {
        if op.is_cancel() {
            return true;
        }
        if op.is_irrev() {
            return false;
        }
    }
    false
}
