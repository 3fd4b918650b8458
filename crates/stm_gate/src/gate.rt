//! Closing the gate, looking at the others, installing an algorithm, reopening. Each call takes a descriptor
//! and its memory. None takes memory, none waits, and all return.
//!
//! A caller stores 1 in its status before it loads the gate. So whoever closes the gate and then finds a
//! status 0 knows that this caller, should it announce later, will load a closed gate and withdraw
//! (Spear, "Lightweight, Robust Adaptivity for Software Transactional Memory", SPAA 2010).
ghost use Rattle.stm_bell.specs.Bells.{rung_for};
ghost use Rattle.stm_bell.specs.Stripes.{Has};
ghost use Rattle.stm_rule.specs.Counting.{TakesAtMost};
ghost use Rattle.stm_answers.specs.Counting.{AddsAtMost};
ghost use Rattle.std.specs.Prelude.{◌≡◌, ℕ, ◌<◌, true, false};
ghost use Rattle.rule_base.specs.InstallSteps.{CanSettle};
ghost use Rattle.rule_base.specs.declared.views.Phase.TheVariants.{Closing};
ghost use Rattle.stm_rule.specs.Callers.{IsOf, IsSameCaller, IsSeatOf};
ghost use Rattle.stm_rule.specs.Kept.{IsSameSeat, view_of};
ghost use Rattle.stm_answers.specs.Answers.{Closes, Looks, Installs, Reopens, HoldsClosed, SeesQuiet};
ghost use Rattle.stm_answers.specs.CallerState.{IsIdle};
ghost use Rattle.stm_gate.specs.Installing.{Settles};
ghost use Rattle.stm_gate.specs.Knowing.{known, number};

use crate::looking::look_on;
use rule_base::words::{alg_of, fence_of, holder_of};
use stm_answers::answers::{CloseGate, Look};
use stm_model::alg::Alg;
use stm_model::rule::MemRule;
use stm_rule::desc::Desc;
use stm_rule::rung::Rung;
use stm_rule::stm::{Stm, Token};

/// Tries to close the gate. It asks for an idle descriptor, and takes four steps at most.
///
/// `Closed` leaves the descriptor closing: attempts that are open go on, and none begins until it
/// reopens the gate. `Taken` comes only where another caller holds the gate, and leaves it idle.
pub fn close_gate<K: MemRule>(desc: &mut Desc<K>, stm: &Stm<K>) -> CloseGate
    requires stm { IsOf desc.old stm.now }
    requires idle { IsIdle (known desc.old) }
    ensures same { IsSameCaller desc.old desc.new }
    ensures closes { Closes (K.good stm.now.rule) stm.now.config (number desc.old) result
        (known desc.old) (known desc.new) }
    ensures steps { AddsAtMost 4 (known desc.old) (known desc.new) }
{
    let caller = desc.number;
    stm.announce(&mut desc.seat, caller);
    let gate = stm.aim(&mut desc.seat, caller);
    if holder_of(gate) != 0 {
        stm.depart(&mut desc.seat, caller);
        return CloseGate::Taken { gate };
    }
    let found = stm.take_gate(&mut desc.seat, caller, gate);
    stm.depart(&mut desc.seat, caller);
    if found != gate {
        return CloseGate::Taken { gate: found };
    }
    desc.local.algorithm = alg_of(gate);
    desc.local.fence = fence_of(gate);
    desc.local.holds = true;
    desc.local.next = 0;
    CloseGate::Closed
}

/// Looks at the other callers that were not yet seen idle since the gate was closed, in ascending order,
/// up to the first that is not idle. It asks for a closing descriptor, leaves it so, and takes one step a
/// caller that it looks at.
pub fn look<K: MemRule>(desc: &mut Desc<K>, stm: &Stm<K>) -> Look
    requires stm { IsOf desc.old stm.now }
    requires closing { HoldsClosed (known desc.old) }
    ensures same { IsSameCaller desc.old desc.new }
    ensures looks { Looks (K.good stm.now.rule) stm.now.config (number desc.old) result
        (known desc.old) (known desc.new) }
    ensures steps { AddsAtMost stm.now.config.callers (known desc.old) (known desc.new) }
{
    look_on(desc, stm)
}

/// Installs an algorithm: from the next begin on, attempts run under it. It asks for a closing descriptor
/// whose last look was quiet, leaves it closing, is always done, and takes five steps at most.
pub fn install<K: MemRule>(desc: &mut Desc<K>, stm: &Stm<K>, alg: Alg)
    requires stm { IsOf desc.old stm.now }
    requires closing { HoldsClosed (known desc.old) }
    requires quiet { SeesQuiet (K.good stm.now.rule) stm.now.config (number desc.old)
        (known desc.old) }
    ensures same { IsSameCaller desc.old desc.new }
    ensures installs { Installs (K.good stm.now.rule) stm.now.config (number desc.old) alg
        (known desc.old) (known desc.new) }
    ensures steps { AddsAtMost 5 (known desc.old) (known desc.new) }
{
    let caller = desc.number;
    let clock = settle_for(&mut desc.seat, stm, caller, alg);
    stm.store_base(&mut desc.seat, caller, clock);
    stm.store_done(&mut desc.seat, caller, clock);
    stm.install(&mut desc.seat, caller, desc.local.fence, alg);
    desc.local.algorithm = alg;
}

/// Loads the clock, at which the algorithm is to begin, and answers it: under TML an odd one is raised first.
fn settle_for<K: MemRule>(seat: &mut Token<K>, stm: &Stm<K>, caller: usize, alg: Alg) -> u64
    requires seat { IsSeatOf stm.now caller seat.old }
    requires caller { caller < stm.now.config.callers }
    requires closing { (view_of seat.old).gate.phase ≡ Closing }
    requires given { (view_of seat.old).gate.giving ≡ false }
    requires quiet { CanSettle stm.now.config.callers caller (view_of seat.old) }
    ensures same { IsSameSeat seat.old seat.new }
    ensures rest { seat.new.me.0 ≡ record seat.old.me.0 { view = view_of seat.new } }
    ensures settles { Settles alg result (view_of seat.old) (view_of seat.new) }
    ensures steps { TakesAtMost 2 (view_of seat.old) (view_of seat.new) }
{
    let clock = stm.settle(seat, caller);
    if clock % 2 == 0 {
        return clock;
    }
    if !alg.begins_even() {
        return clock;
    }
    stm.even_clock(seat, caller, clock + 1);
    clock + 1
}

/// Reopens the gate, under the algorithm that it names. It asks for a closing descriptor, leaves it idle,
/// is always done, and takes one step. It rings the memory's bell, since a range that was written directly may be back:
/// one load while nobody waits, beside the table.
pub fn reopen<K: MemRule>(desc: &mut Desc<K>, stm: &Stm<K>) -> Rung<K>
    requires stm { IsOf desc.old stm.now }
    requires closing { HoldsClosed (known desc.old) }
    ensures same { IsSameCaller desc.old desc.new }
    ensures reopens { Reopens (K.good stm.now.rule) stm.now.config (number desc.old)
        (known desc.old) (known desc.new) }
    ensures steps { AddsAtMost 1 (known desc.old) (known desc.new) }
    ensures rung { result.at.value ≡ desc.new }
    ensures all { (a : ℕ) → Has a (rung_for result.ring) }
{
    let caller = desc.number;
    let fence = desc.local.fence;
    let algorithm = desc.local.algorithm;
    stm.reopen(&mut desc.seat, caller, fence, algorithm);
    desc.local.holds = false;
    Rung::ring_all(desc, stm)
}
