//! Another algorithm for a memory, and how a caller comes to be alone with it.
ghost use Rattle.std.specs.Prelude.{◌≡◌, ◌≤◌, ◌+◌, ◌∷◌, ◌++◌, [], true, OnOk, OnErr, IfErr};
ghost use Rattle.stm_model.specs.Algorithms.{install_rise};
ghost use Rattle.stm_rule.specs.Callers.{IsOf, IsSameCaller};
ghost use Rattle.stm_answers.specs.Answers.{HoldsClosed, SeesQuiet};
ghost use Rattle.stm_answers.specs.CallerState.{Grows};
ghost use Rattle.stm_tx.specs.Descs.{known, number};
ghost use Rattle.tx_atomic.specs.Callers.{IsReady, IsThrough};
ghost use Rattle.tx_atomic.specs.Switches.{ComesAlone, IsHindered, SeesLeave, Switches};

use crate::napping::nap;
use crate::waking::wake_for;
use std::sync::Wait;
use stm_answers::answers::{CloseGate, Look};
use stm_model::alg::Alg;
use stm_model::rule::MemRule;
use stm_rule::desc::Desc;
use stm_rule::stm::Stm;
use stm_tx::gate::{close_gate, install, look, reopen};
use tx_backoff::Backoff;

/// Who was in the way of a caller that was to be alone.
#[derive(Clone, Copy, Drop, Debug, PartialEq, Eq)]
pub enum Hindrance {
    /// Another caller has closed the gate: this is its word.
    Taken { gate: u64 },
    /// This caller was in an attempt: its status word.
    Busy { caller: usize, status: u64 },
}

/// Closes the gate, and waits until all others are out of their attempts: none begins from the closing on. The caller
/// is alone then, and holds the gate: it may install an algorithm, take a range out of the transactions or give it
/// back, and is to reopen the gate. Answers how many looks at the others it took, one where none was in an attempt.
pub fn close_alone<R: Wait, K: MemRule>(rt: &R, desc: &mut Desc<K>, stm: &Stm<K>) -> u64
    requires ready { IsReady stm.now desc.old }
    ensures same { IsSameCaller desc.old desc.new }
    ensures closing { HoldsClosed (known desc.new) }
    ensures quiet { SeesQuiet (K.good stm.now.rule) stm.now.config (number desc.new)
        (known desc.new) }
    ensures grew { Grows (known desc.old) (known desc.new) }
    ensures made { (known desc.new).made ≡ (known desc.old).made }
    ensures rises { (known desc.new).rises ≡ (known desc.old).rises }
    ensures installs { (known desc.new).installs ≡ (known desc.old).installs }
    ensures looks { ComesAlone (K.good stm.now.rule) stm.now.config (number desc.old) result
        (known desc.old) (known desc.new) }
{
    let mut backoff = Backoff::new();
    for _ in rt.forever() {
        match close_gate(desc, stm) {
            CloseGate::Closed => return see_others_leave(rt, desc, stm),
            CloseGate::Taken { .. } => nap(rt, stm, desc.number, &mut backoff),
        }
    }
    unreachable!()
}

/// Waits, with the gate closed, until all others were seen out of their attempts, each once.
/// Answers how many looks it took.
fn see_others_leave<R: Wait, K: MemRule>(rt: &R, desc: &mut Desc<K>, stm: &Stm<K>) -> u64
    requires stm { IsOf desc.old stm.now }
    requires closing { HoldsClosed (known desc.old) }
    ensures same { IsSameCaller desc.old desc.new }
    ensures closing { HoldsClosed (known desc.new) }
    ensures quiet { SeesQuiet (K.good stm.now.rule) stm.now.config (number desc.new)
        (known desc.new) }
    ensures grew { Grows (known desc.old) (known desc.new) }
    ensures made { (known desc.new).made ≡ (known desc.old).made }
    ensures rises { (known desc.new).rises ≡ (known desc.old).rises }
    ensures installs { (known desc.new).installs ≡ (known desc.old).installs }
    ensures looks { SeesLeave (K.good stm.now.rule) stm.now.config (number desc.old) result
        (known desc.old) (known desc.new) }
{
    let mut backoff = Backoff::new();
    let mut looks: u64 = 0;
    for _ in rt.forever() {
        looks = looks.saturating_add(1);
        match look(desc, stm) {
            Look::Quiet => return looks,
            Look::Busy { .. } => nap(rt, stm, desc.number, &mut backoff),
        }
    }
    unreachable!()
}

/// Installs an algorithm, once: attempts that begin from then on run under it. Closes the gate for it, and waits while
/// others are in attempts: those go on, and none begins. Answers how many looks at the others it took.
pub fn switch_to<R: Wait, K: MemRule>(rt: &R, desc: &mut Desc<K>, stm: &Stm<K>, alg: Alg) -> u64
    requires ready { IsReady stm.now desc.old }
    ensures through { IsThrough desc.old desc.new }
    ensures grew { Grows (known desc.old) (known desc.new) }
    ensures made { (known desc.new).made ≡ (known desc.old).made }
    ensures rises { ((known desc.old).rises ≤ (known desc.new).rises)
        × ((known desc.new).rises ≤ (known desc.old).rises + install_rise alg) }
    ensures installs { (known desc.new).installs ≡ (known desc.old).installs ++ alg ∷ [] }
    ensures switches { Switches (K.good stm.now.rule) stm.now.config (number desc.old) alg result
        (known desc.old) (known desc.new) }
{
    let looks = close_alone(rt, desc, stm);
    install(desc, stm, alg);
    let rung = reopen(desc, stm);
    wake_for(stm, Some(rung));
    looks
}

/// Installs an algorithm where one look finds all others out of their attempts; else the gate is open as before, and no
/// algorithm was installed. It doesn't wait.
///
/// # Errors
/// Who was in the way.
pub fn switch_at_one_look<K: MemRule>(
    desc: &mut Desc<K>,
    stm: &Stm<K>,
    alg: Alg,
) -> Result<(), Hindrance>
    requires ready { IsReady stm.now desc.old }
    ensures through { IsThrough desc.old desc.new }
    ensures grew { Grows (known desc.old) (known desc.new) }
    ensures made { (known desc.new).made ≡ (known desc.old).made }
    ensures rises { OnOk result (((known desc.old).rises ≤ (known desc.new).rises)
        × ((known desc.new).rises ≤ (known desc.old).rises + install_rise alg)) }
    ensures still { OnErr result ((known desc.new).rises ≡ (known desc.old).rises) }
    ensures installs { OnOk result
        ((known desc.new).installs ≡ (known desc.old).installs ++ alg ∷ []) }
    ensures none { OnErr result ((known desc.new).installs ≡ (known desc.old).installs) }
    ensures hindered { IfErr result (λ e.
        IsHindered (K.good stm.now.rule) stm.now.config (number desc.old) e (known desc.old)
        (known desc.new)) }
{
    match close_gate(desc, stm) {
        CloseGate::Closed => {}
        CloseGate::Taken { gate } => return Err(Hindrance::Taken { gate }),
    }
    match look(desc, stm) {
        Look::Quiet => {
            install(desc, stm, alg);
            reopen(desc, stm);
            Ok(())
        }
        Look::Busy { caller, status } => {
            reopen(desc, stm);
            Err(Hindrance::Busy { caller, status })
        }
    }
}
