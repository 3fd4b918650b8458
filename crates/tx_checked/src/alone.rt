//! How a caller comes to be alone with its memory: it closes the gate, and looks until all others are out of their
//! attempts. Where they aren't, the gate stays closed, and the next call goes on from there: reopened after each look,
//! it never came beside two callers in transactions of 1,000 reads.
ghost use Rattle.std.specs.Prelude.{◌≡◌, true, false, OnOk, IfErr};
ghost use Rattle.stm_rule.specs.Callers.{IsOf, IsSameCaller};
ghost use Rattle.stm_tx.specs.Descs.{known, number};
ghost use Rattle.stm_answers.specs.Answers.{HoldsClosed, SeesQuiet};
ghost use Rattle.stm_answers.specs.CallerState.{Grows, IsIdle};
ghost use Rattle.tx_checked.specs.Alone.{HasClosedBy, IsAlone, IsHeldUp};
ghost use Rattle.tx_checked.specs.Phases.{Any};

use crate::refusal::Refusal;
use stm_answers::answers::{CloseGate, Look};
use stm_model::rule::AnyMem;
use stm_rule::desc::Desc;
use stm_rule::stm::Stm;
use stm_tx::gate::{close_gate, look};

/// Closes the gate, where this caller isn't `closing` already, and looks once at those that it hasn't seen idle since.
///
/// # Errors
/// `GateClosed`, and the caller is idle; or `Busy`, and it goes on holding the gate.
pub(crate) fn close_alone(
    desc: &mut Desc<AnyMem>,
    stm: &Stm<AnyMem>,
    closing: bool,
) -> Result<(), Refusal>
    requires stm { IsOf desc.old stm.now }
    requires idle { closing ≡ false → IsIdle (known desc.old) }
    requires closed { closing ≡ true → HoldsClosed (known desc.old) }
    ensures same { IsSameCaller desc.old desc.new }
    ensures grew { Grows (known desc.old) (known desc.new) }
    ensures made { (known desc.new).made ≡ (known desc.old).made }
    ensures rises { (known desc.new).rises ≡ (known desc.old).rises }
    ensures installs { (known desc.new).installs ≡ (known desc.old).installs }
    ensures closed { OnOk result (HoldsClosed (known desc.new)) }
    ensures quiet { OnOk result (SeesQuiet Any stm.now.config (number desc.old) (known desc.new)) }
    ensures alone { OnOk result
        (IsAlone stm.now.config (number desc.old) closing (known desc.old) (known desc.new)) }
    ensures held_up { IfErr result (λ e.
        IsHeldUp stm.now.config (number desc.old) closing e (known desc.old) (known desc.new)) }
{
    close(desc, stm, closing)?;
    match look(desc, stm) {
        Look::Quiet => Ok(()),
        Look::Busy { caller, status } => Err(Refusal::Busy { caller, status }),
    }
}

/// Closes the gate, where this caller isn't `closing` already.
pub(crate) fn close(
    desc: &mut Desc<AnyMem>,
    stm: &Stm<AnyMem>,
    closing: bool,
) -> Result<(), Refusal>
    requires stm { IsOf desc.old stm.now }
    requires idle { closing ≡ false → IsIdle (known desc.old) }
    requires closed { closing ≡ true → HoldsClosed (known desc.old) }
    ensures same { IsSameCaller desc.old desc.new }
    ensures grew { Grows (known desc.old) (known desc.new) }
    ensures made { (known desc.new).made ≡ (known desc.old).made }
    ensures rises { (known desc.new).rises ≡ (known desc.old).rises }
    ensures installs { (known desc.new).installs ≡ (known desc.old).installs }
    ensures closed { OnOk result (HoldsClosed (known desc.new)) }
    ensures by { OnOk result
        (HasClosedBy stm.now.config (number desc.old) closing (known desc.old) (known desc.new)) }
    ensures held_up { IfErr result (λ e.
        IsHeldUp stm.now.config (number desc.old) closing e (known desc.old) (known desc.new)) }
{
    if closing {
        return Ok(());
    }
    match close_gate(desc, stm) {
        CloseGate::Closed => Ok(()),
        CloseGate::Taken { gate } => Err(Refusal::GateClosed { gate }),
    }
}
