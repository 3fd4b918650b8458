//! The memory of a workload, opened: the header's algorithm is installed before any caller begins.
ghost use Rattle.std.specs.Prelude.{◌≡◌, ◌∷◌, [], true, replicate, IfOk};
ghost use Rattle.work_text.specs.Parsed.{HeaderFits};
ghost use Rattle.stm_rule.specs.Callers.{IsOf, IsSameCaller};
ghost use Rattle.stm_answers.specs.Answers.{SeesQuiet};
ghost use Rattle.stm_answers.specs.CallerState.{caller_of};
ghost use Rattle.stm_tx.specs.Descs.{known};
ghost use Rattle.work_driver.specs.Openings.{IsNew, HoldsGate, OpensFor, SameLengths};

use std::alloc::Global;
use std::sync::Wait;
use stm_answers::answers::{CloseGate, Look};
use stm_model::alg::Alg;
use stm_model::memory::Memory;
use stm_model::rule::MemRule;
use stm_rule::desc::Desc;
use stm_rule::stm::Stm;
use stm_tx::gate::{close_gate, install, look, reopen};
use tx_backoff::Backoff;
use work_script::workload::Header;

/// A memory of the header's sizes under this rule, and a descriptor for each caller. Caller 0 has installed the
/// header's algorithm, and nobody has begun.
///
/// # Errors
/// Memory, where it is refused.
pub fn open<R: Wait, K: MemRule + Drop>(
    rt: &R,
    alloc: Global,
    header: &Header,
    rule: K,
) -> Result<(Stm<K>, Vec<Desc<K>>), Memory>
    requires fits { HeaderFits header.now }
    requires good { K.good rule (replicate header.now.words 0) }
    ensures opens { IfOk result (λ r. OpensFor header.now r.0 r.1.items) }
    ensures rule { IfOk result (λ r. r.0.rule ≡ rule) }
{
    let Ok((stm, mut descs)) = Stm::new(alloc, header.config(), rule) else {
        return Err(Memory);
    };
    install_first(rt, &stm, &mut descs[0], header.alg);
    Ok((stm, descs))
}

/// Installs the algorithm.
fn install_first<R: Wait, K: MemRule>(rt: &R, stm: &Stm<K>, desc: &mut Desc<K>, alg: Alg)
    requires own { IsOf desc.old stm.now }
    requires new { IsNew [] (known desc.old) }
    ensures same { IsSameCaller desc.old desc.new }
    ensures new { IsNew (alg ∷ []) (known desc.new) }
    ensures knows { stm.now.config.callers ≡ 1 → (known desc.new).alg ≡ alg }
    ensures lengths { SameLengths (known desc.old) (known desc.new) }
{
    close_until_done(rt, stm, desc);
    look_until_quiet(rt, stm, desc);
    install(desc, stm, alg);
    reopen(desc, stm);
}

/// Closes the gate.
fn close_until_done<R: Wait, K: MemRule>(rt: &R, stm: &Stm<K>, desc: &mut Desc<K>)
    requires own { IsOf desc.old stm.now }
    requires new { IsNew [] (known desc.old) }
    ensures same { IsSameCaller desc.old desc.new }
    ensures closed { HoldsGate (known desc.new) }
    ensures lengths { SameLengths (known desc.old) (known desc.new) }
{
    let mut backoff = Backoff::new();
    for _ in rt.forever() {
        if let CloseGate::Closed = close_gate(desc, stm) {
            return;
        }
        backoff.wait();
    }
    unreachable!()
}

/// Looks until all others were seen idle.
fn look_until_quiet<R: Wait, K: MemRule>(rt: &R, stm: &Stm<K>, desc: &mut Desc<K>)
    requires own { IsOf desc.old stm.now }
    requires closed { HoldsGate (known desc.old) }
    ensures same { IsSameCaller desc.old desc.new }
    ensures closed { HoldsGate (known desc.new) }
    ensures lengths { SameLengths (known desc.old) (known desc.new) }
    ensures quiet { SeesQuiet (K.good stm.now.rule) stm.now.config (caller_of desc.new.who.role)
        (known desc.new) }
{
    let mut backoff = Backoff::new();
    for _ in rt.forever() {
        if let Look::Quiet = look(desc, stm) {
            return;
        }
        backoff.wait();
    }
    unreachable!()
}
