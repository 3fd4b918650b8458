//! Privatization: a caller that is alone with the gate takes a range of words out of the transactions, reads and
//! writes there without one, and gives the range back. Each call takes a descriptor and its memory. None takes
//! memory, none waits, and all return.
//!
//! The gate's word names the range while it is out, and an attempt knows it from the gate that it loaded as it began
//! (Spear, Marathe, Dalessandro and Scott, "Privatization Techniques for Software Transactional Memory", PODC 2007).
//! A range comes and goes only while the gate is closed and nobody is in an attempt, so no clean-up and no doomed
//! attempt of another caller is late.
ghost use Rattle.stm_answers.specs.Counting.{AddsAtMost};
ghost use Rattle.std.specs.Prelude.{◌≡◌, ℕ, ◌<◌, ◌≤◌, ◌+◌, true};
ghost use Rattle.stm_model.specs.Configs.{IsSmall, AreBlocks};
ghost use Rattle.rule_base.specs.Encodings.{fenced};
ghost use Rattle.stm_rule.specs.Callers.{IsOf, IsSameCaller};
ghost use Rattle.stm_answers.specs.Answers.{HoldsClosed, SeesQuiet};
ghost use Rattle.stm_answers.specs.Fences.{Fences, ReadsDirect, WritesDirect, KeepsFenced, Gives};
ghost use Rattle.stm_answers.specs.CallerState.{IsIdle};
ghost use Rattle.stm_gate.specs.Knowing.{known, number};

use rule_base::words::{fence_number, gate_word};
use stm_answers::answers::{Fence, Give};
use stm_model::config::CLOCK_LIMIT;
use stm_model::rule::MemRule;
use stm_rule::desc::Desc;
use stm_rule::stm::Stm;

/// Takes `count` words from `from` out of the transactions. It asks for a memory that takes fences and a closing
/// descriptor whose last look was quiet, leaves it closing, and takes one step. In a memory that isn't small the range
/// is a number of blocks.
///
/// `Taken` comes exactly where a range is out already, and takes no step.
pub fn fence<K: MemRule>(desc: &mut Desc<K>, stm: &Stm<K>, from: usize, count: usize) -> Fence
    requires stm { IsOf desc.old stm.now }
    requires takes { stm.now.config.fence ≡ true }
    requires closing { HoldsClosed (known desc.old) }
    requires quiet { SeesQuiet (K.good stm.now.rule) stm.now.config (number desc.old)
        (known desc.old) }
    requires some { 1 ≤ count }
    requires inside { from + count ≤ stm.now.config.words }
    requires blocks { (IsSmall stm.now.config → ⊥) → AreBlocks from × AreBlocks count }
    ensures same { IsSameCaller desc.old desc.new }
    ensures fences { Fences (K.good stm.now.rule) stm.now.config (number desc.old) from count result
        (known desc.old) (known desc.new) }
    ensures steps { AddsAtMost 1 (known desc.old) (known desc.new) }
{
    let caller = desc.number;
    let algorithm = desc.local.algorithm;
    let held = desc.local.fence;
    if held != 0 {
        let gate = gate_word(held, 1 + caller as u64, algorithm);
        return Fence::Taken { gate };
    }
    stm.fence(&mut desc.seat, caller, from, count, algorithm);
    desc.local.fence = fence_number(caller as u64, from as u64, count as u64);
    Fence::Fenced
}

/// Reads the word at `a` of the caller's range: its last direct write there, else the memory as it took the range. It
/// asks for an idle descriptor, leaves it idle, and takes one step.
pub fn direct_read<K: MemRule>(desc: &mut Desc<K>, stm: &Stm<K>, a: usize) -> u64
    requires stm { IsOf desc.old stm.now }
    requires idle { IsIdle (known desc.old) }
    requires held { (known desc.old).fenced.held ≡ true }
    requires inside { a < stm.now.config.words }
    requires fenced { fenced (known desc.old).fenced.number a ≡ true }
    ensures same { IsSameCaller desc.old desc.new }
    ensures steps { AddsAtMost 1 (known desc.old) (known desc.new) }
    ensures reads { ReadsDirect (K.good stm.now.rule) stm.now.config (number desc.old) a result
        (known desc.old) (known desc.new) }
{
    stm.fence_load(&mut desc.seat, desc.number, a)
}

/// Writes `x` to the word at `a` of the caller's range. It asks for an idle descriptor, leaves it idle, and takes one
/// step.
pub fn direct_write<K: MemRule>(desc: &mut Desc<K>, stm: &Stm<K>, a: usize, x: u64)
    requires stm { IsOf desc.old stm.now }
    requires idle { IsIdle (known desc.old) }
    requires held { (known desc.old).fenced.held ≡ true }
    requires inside { a < stm.now.config.words }
    requires fenced { fenced (known desc.old).fenced.number a ≡ true }
    ensures same { IsSameCaller desc.old desc.new }
    ensures steps { AddsAtMost 1 (known desc.old) (known desc.new) }
    ensures writes { WritesDirect (K.good stm.now.rule) stm.now.config (number desc.old) a x
        (known desc.old) (known desc.new) }
{
    stm.fence_store(&mut desc.seat, desc.number, a, x);
}

/// Gives the caller's range back, with what was written there as one entry of the history. It asks for a closing
/// descriptor whose last look was quiet and, where there were direct writes, that they keep the memory rule. It leaves
/// the descriptor closing.
///
/// `Unchanged` comes exactly where there were no direct writes, and costs one step. `Committed` costs five. `ClockFull`
/// costs one, comes only with the clock at its limit, and leaves the range to the caller.
pub fn give_back<K: MemRule>(desc: &mut Desc<K>, stm: &Stm<K>) -> Give
    requires stm { IsOf desc.old stm.now }
    requires closing { HoldsClosed (known desc.old) }
    requires quiet { SeesQuiet (K.good stm.now.rule) stm.now.config (number desc.old)
        (known desc.old) }
    requires held { (known desc.old).fenced.held ≡ true }
    requires keeps { KeepsFenced (K.good stm.now.rule) stm.now.config (number desc.old)
        (known desc.old) }
    ensures same { IsSameCaller desc.old desc.new }
    ensures gives { Gives (K.good stm.now.rule) stm.now.config (number desc.old) result
        (known desc.old) (known desc.new) }
    ensures steps { AddsAtMost 5 (known desc.old) (known desc.new) }
{
    let caller = desc.number;
    let algorithm = desc.local.algorithm;
    let stored = desc.seat.own_fence().stored;
    if !stored {
        stm.unfence(&mut desc.seat, caller, algorithm);
        desc.local.fence = 0;
        return Give::Unchanged;
    }
    let clock = stm.settle_back(&mut desc.seat, caller, algorithm);
    if clock >= CLOCK_LIMIT {
        return Give::ClockFull { clock };
    }
    let time = clock + algorithm.entry_rise();
    stm.fence_commit(&mut desc.seat, caller, algorithm, time);
    stm.store_base(&mut desc.seat, caller, time);
    stm.store_done(&mut desc.seat, caller, time);
    stm.unfence(&mut desc.seat, caller, algorithm);
    desc.local.fence = 0;
    Give::Committed { time }
}
