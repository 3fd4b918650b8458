//! How a caller comes to be alone with its memory to take words out of the transactions: not where a range is out
//! already. That the gate's word shows, so nobody is waited for.
ghost use Rattle.std.specs.Prelude.{◌≡◌, ◌≢◌, ℕ, true, false, None, OnOk, IfErr, IfSome};
ghost use Rattle.rule_base.specs.Encodings.{gate_word};
ghost use Rattle.stm_rule.specs.Callers.{IsOf, IsSameCaller};
ghost use Rattle.stm_tx.specs.Descs.{known, number};
ghost use Rattle.stm_answers.specs.Answers.{HoldsClosed, SeesQuiet};
ghost use Rattle.stm_answers.specs.CallerState.{Grows, IsIdle};
ghost use Rattle.tx_checked.specs.Alone.{HasClosedBy, HasLookedBy, IsTakeRefused, LooksAtGate};
ghost use Rattle.tx_checked.specs.Phases.{Any};

use crate::alone::close;
use crate::refusal::Refusal;
use rule_base::words::{fence_of, gate_word, holder_of};
use stm_answers::answers::Look;
use stm_model::rule::AnyMem;
use stm_rule::desc::Desc;
use stm_rule::stm::Stm;
use stm_tx::gate::{look, reopen};

/// Loads the gate, and leaves it as it is.
fn look_at_gate(desc: &mut Desc<AnyMem>, stm: &Stm<AnyMem>) -> u64
    requires stm { IsOf desc.old stm.now }
    requires idle { IsIdle (known desc.old) }
    ensures same { IsSameCaller desc.old desc.new }
    ensures looks { LooksAtGate stm.now.config (number desc.old) result (known desc.old)
        (known desc.new) }
{
    let caller = desc.number;
    stm.announce(&mut desc.seat, caller);
    let gate = stm.load_gate(&mut desc.seat, caller);
    stm.depart(&mut desc.seat, caller);
    gate
}

/// Looks whether the gate is open and names no range, where this caller isn't `closing` it already.
fn see_no_range(desc: &mut Desc<AnyMem>, stm: &Stm<AnyMem>, closing: bool) -> Result<(), Refusal>
    requires stm { IsOf desc.old stm.now }
    requires idle { closing ≡ false → IsIdle (known desc.old) }
    requires closed { closing ≡ true → HoldsClosed (known desc.old) }
    ensures same { IsSameCaller desc.old desc.new }
    ensures idle { closing ≡ false → IsIdle (known desc.new) }
    ensures closed { closing ≡ true → HoldsClosed (known desc.new) }
    ensures grew { Grows (known desc.old) (known desc.new) }
    ensures made { (known desc.new).made ≡ (known desc.old).made }
    ensures rises { (known desc.new).rises ≡ (known desc.old).rises }
    ensures installs { (known desc.new).installs ≡ (known desc.old).installs }
    ensures looked { OnOk result
        (HasLookedBy stm.now.config (number desc.old) closing (known desc.old) (known desc.new)) }
    ensures refused { IfErr result (λ e.
        IsTakeRefused stm.now.config (number desc.old) closing e (known desc.old)
        (known desc.new)) }
{
    if closing {
        return Ok(());
    }
    let gate = look_at_gate(desc, stm);
    if holder_of(gate) != 0 {
        return Err(Refusal::GateClosed { gate });
    }
    if fence_of(gate) != 0 {
        return Err(Refusal::RangeTaken { gate });
    }
    Ok(())
}

/// The word that the closed gate is to have again, where it names a range.
fn range_out(desc: &Desc<AnyMem>) -> Option<u64>
    requires closed { HoldsClosed (known desc.now) }
    ensures none { result ≡ None → (known desc.now).fence ≡ 0 }
    ensures some { IfSome result (λ gate.
        ((known desc.now).fence ≢ 0)
        × (gate ≡ gate_word (known desc.now).fence 0 (known desc.now).alg)) }
{
    let fence = desc.local.fence;
    if fence == 0 {
        return None;
    }
    Some(gate_word(fence, 0, desc.local.algorithm))
}

/// Closes the gate, where this caller isn't `closing` already, and leaves it so where no range is out.
fn close_without_range(
    desc: &mut Desc<AnyMem>,
    stm: &Stm<AnyMem>,
    closing: bool,
) -> Result<(), Refusal>
    requires stm { IsOf desc.old stm.now }
    requires idle { closing ≡ false → IsIdle (known desc.old) }
    requires closed { closing ≡ true → HoldsClosed (known desc.old) }
    ensures same { IsSameCaller desc.old desc.new }
    ensures grew { Grows (known desc.old) (known desc.new) }
    ensures made { (known desc.new).made ≡ (known desc.old).made }
    ensures rises { (known desc.new).rises ≡ (known desc.old).rises }
    ensures installs { (known desc.new).installs ≡ (known desc.old).installs }
    ensures closed { OnOk result (HoldsClosed (known desc.new)) }
    ensures free { OnOk result ((known desc.new).fence ≡ 0) }
    ensures by { OnOk result
        (HasClosedBy stm.now.config (number desc.old) closing (known desc.old) (known desc.new)) }
    ensures refused { IfErr result (λ e.
        IsTakeRefused stm.now.config (number desc.old) closing e (known desc.old)
        (known desc.new)) }
{
    see_no_range(desc, stm, closing)?;
    close(desc, stm, closing)?;
    match range_out(desc) {
        None => Ok(()),
        Some(gate) => {
            reopen(desc, stm);
            Err(Refusal::RangeTaken { gate })
        }
    }
}

/// Closes the gate, where this caller isn't `closing` already and no range is out, and looks once at those that it
/// hasn't seen idle since.
///
/// # Errors
/// `GateClosed` or `RangeTaken`, and the caller is idle; or `Busy`, and it goes on holding the gate.
pub(crate) fn close_alone_for_range(
    desc: &mut Desc<AnyMem>,
    stm: &Stm<AnyMem>,
    closing: bool,
) -> Result<(), Refusal>
    requires stm { IsOf desc.old stm.now }
    requires idle { closing ≡ false → IsIdle (known desc.old) }
    requires closed { closing ≡ true → HoldsClosed (known desc.old) }
    ensures same { IsSameCaller desc.old desc.new }
    ensures grew { Grows (known desc.old) (known desc.new) }
    ensures made { (known desc.new).made ≡ (known desc.old).made }
    ensures rises { (known desc.new).rises ≡ (known desc.old).rises }
    ensures installs { (known desc.new).installs ≡ (known desc.old).installs }
    ensures closed { OnOk result (HoldsClosed (known desc.new)) }
    ensures quiet { OnOk result (SeesQuiet Any stm.now.config (number desc.old) (known desc.new)) }
    ensures free { OnOk result ((known desc.new).fence ≡ 0) }
    ensures refused { IfErr result (λ e.
        IsTakeRefused stm.now.config (number desc.old) closing e (known desc.old)
        (known desc.new)) }
{
    close_without_range(desc, stm, closing)?;
    match look(desc, stm) {
        Look::Quiet => Ok(()),
        Look::Busy { caller, status } => Err(Refusal::Busy { caller, status }),
    }
}
