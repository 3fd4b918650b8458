//! How an attempt of OrecLazy that is alone becomes irrevocable.
ghost use Rattle.std.specs.Prelude.{◌≡◌, ℕ, ◌+◌, false};
ghost use Rattle.stm_model.specs.declared.alg.Alg.TheVariants.{OrecLazy};
ghost use Rattle.stm_rule.specs.Callers.{IsOf, IsSameCaller, IsSeatOf};
ghost use Rattle.stm_rule.specs.Kept.{MovesView, view_of};
ghost use Rattle.stm_rule.specs.Counting.{TakesAtMost};
ghost use Rattle.stm_answers.specs.Counting.{AddsAtMost};
ghost use Rattle.stm_answers.specs.CallerState.{IsRunning, is_irrevocable};
ghost use Rattle.stm_gate.specs.Knowing.{known, number};
ghost use Rattle.stm_gate.specs.Granting.{IsAlone, Grants};
ghost use Rattle.alg_orec.specs.Granting.{CanStoreAll, StoresAll};

use crate::granting::grant_reads;
use crate::lazy_ending::abort;
use stm_answers::answers::Irrev;
use stm_model::rule::MemRule;
use stm_rule::desc::Desc;
use stm_rule::local::Local;
use stm_rule::stm::{Stm, Token};

/// Validates for an attempt that is alone, and stores what it wrote.
pub(crate) fn grant<K: MemRule>(desc: &mut Desc<K>, stm: &Stm<K>) -> Irrev
    requires stm { IsOf desc.old stm.now }
    requires running { IsRunning (known desc.old) }
    requires algorithm { (known desc.old).alg ≡ OrecLazy }
    requires revocable { is_irrevocable (known desc.old) ≡ false }
    requires alone { IsAlone stm.now.config.callers (number desc.old) desc.old.view }
    ensures same { IsSameCaller desc.old desc.new }
    ensures grants { Grants (K.good stm.now.rule) stm.now.config (number desc.old) result
        (known desc.old) (known desc.new) }
    ensures steps { AddsAtMost (4 + (known desc.old).reads_limit + (known desc.old).writes_limit)
        (known desc.old) (known desc.new) }
{
    let caller = desc.number;
    if let Err(refusal) = grant_reads(&mut desc.seat, &mut desc.local, stm, caller) {
        abort(&mut desc.seat, &mut desc.local, stm, caller);
        return refusal;
    }
    store_all(&mut desc.seat, &desc.local, stm, caller);
    desc.local.writes.clear();
    desc.local.granted = true;
    Irrev::Granted
}

/// Stores what was written in the heap, in the order of the first writes. A step for each address.
fn store_all<K: MemRule>(seat: &mut Token<K>, local: &Local, stm: &Stm<K>, caller: usize)
    requires seat { IsSeatOf stm.now caller seat.old }
    requires view { CanStoreAll stm.now.config.words local.now (view_of seat.old) }
    ensures same { MovesView seat.old seat.new }
    ensures stores { StoresAll local.now (view_of seat.old) (view_of seat.new) }
    ensures steps { TakesAtMost local.now.writes.len (view_of seat.old) (view_of seat.new) }
{
    for i in 0..local.writes.count() {
        let (a, x) = local.writes.item(i);
        stm.direct_store(seat, caller, a, x);
    }
}
