//! The calls of the gate, on a range and on notes, and those of marks, each brought to its most steps.
ghost use Rattle.std.specs.Prelude.{◌≡◌, ℕ, ◌≤◌, true};
ghost use Rattle.stm_model.specs.Configs.{IsSmall};
ghost use Rattle.rule_base.specs.Encodings.{fenced};
ghost use Rattle.stm_rule.specs.Callers.{IsOf, IsSameCaller};
ghost use Rattle.stm_answers.specs.Fences.{is_within};
ghost use Rattle.stm_answers.specs.CallerState.{IsIdle};
ghost use Rattle.stm_tx.specs.Descs.{known};
ghost use Rattle.perf_steps.specs.Fresh.{IsFresh};

use crate::counting::{begin_count, end_count};
use crate::opening::{self, Opened};
use std::alloc::Global;
use stm_tx::fencing::{direct_read, direct_write, fence, give_back};
use stm_tx::gate::{close_gate, install, look, reopen};
use stm_tx::{
    Alg, AnyMem, Begin, Check, CloseGate, Config, Desc, Fence, Give, Look, Roll, Stm, Write,
};
use tx_checked::checked_caller::CheckedCaller;
use tx_checked::opening::open;

/// Three callers and logs of three items, at an odd clock, which an install of TML makes even.
const ODD: Config = Config {
    words: 8,
    records: 4,
    ring: 4,
    callers: 3,
    reads: 3,
    writes: 3,
    clock: 1,
    fence: true,
    marks: 8,
};

/// The same without ranges.
const PLAIN: Config = Config {
    fence: false,
    ..ODD
};

/// Counts `close_gate`, `look`, `install` of TML and `reopen`.
fn count_gate(stm: &Stm<AnyMem>, desc: &mut Desc<AnyMem>, alg: Alg) -> bool
    requires desc { IsOf desc.old stm.now }
    requires idle { IsIdle (known desc.old) }
    ensures same { IsSameCaller desc.old desc.new }
    ensures idle { result ≡ true → IsIdle (known desc.new) }
{
    begin_count();
    let closed = close_gate(desc, stm);
    end_count();
    let CloseGate::Closed = closed else {
        return false;
    };
    begin_count();
    let seen = look(desc, stm);
    end_count();
    let Look::Quiet = seen else {
        return false;
    };
    begin_count();
    install(desc, stm, alg);
    end_count();
    begin_count();
    reopen(desc, stm);
    end_count();
    true
}

/// Counts `fence`.
fn count_fence(stm: &Stm<AnyMem>, desc: &mut Desc<AnyMem>) -> bool
    requires stm { IsOf desc.old stm.now }
    requires idle { IsIdle (known desc.old) }
    requires fences { stm.now.config.fence ≡ true }
    requires words { 8 ≤ stm.now.config.words }
    requires small { IsSmall stm.now.config }
    ensures same { IsSameCaller desc.old desc.new }
    ensures idle { IsIdle (known desc.new) }
    ensures held { result ≡ true → (known desc.new).fenced.held ≡ true }
    ensures words { result ≡ true → (a : ℕ)
        → fenced (known desc.new).fenced.number a ≡ is_within 4 2 a }
{
    let CloseGate::Closed = close_gate(desc, stm) else {
        return false;
    };
    let Look::Quiet = look(desc, stm) else {
        reopen(desc, stm);
        return false;
    };
    begin_count();
    let answer = fence(desc, stm, 4, 2);
    end_count();
    match answer {
        Fence::Fenced => {
            reopen(desc, stm);
            true
        }
        Fence::Taken { .. } => {
            reopen(desc, stm);
            false
        }
    }
}

/// Counts `direct_read` and `direct_write`.
fn count_direct(stm: &Stm<AnyMem>, desc: &mut Desc<AnyMem>)
    requires stm { IsOf desc.old stm.now }
    requires idle { IsIdle (known desc.old) }
    requires held { (known desc.old).fenced.held ≡ true }
    requires inside { (a : ℕ) → fenced (known desc.old).fenced.number a ≡ is_within 4 2 a }
    requires words { 8 ≤ stm.now.config.words }
    ensures same { IsSameCaller desc.old desc.new }
    ensures idle { IsIdle (known desc.new) }
    ensures held { (known desc.new).fenced.held ≡ true }
{
    begin_count();
    let _ = direct_read(desc, stm, 4);
    end_count();
    begin_count();
    direct_write(desc, stm, 5, 7);
    end_count();
}

/// Counts `give_back`, where the range was written to.
fn count_give(stm: &Stm<AnyMem>, desc: &mut Desc<AnyMem>) -> bool
    requires stm { IsOf desc.old stm.now }
    requires idle { IsIdle (known desc.old) }
    requires held { (known desc.old).fenced.held ≡ true }
{
    let CloseGate::Closed = close_gate(desc, stm) else {
        return false;
    };
    let Look::Quiet = look(desc, stm) else {
        return false;
    };
    begin_count();
    let give = give_back(desc, stm);
    end_count();
    matches!(give, Give::Committed { .. })
}

/// Counts `tell` and `learn`.
fn count_notes(stm: &Stm<AnyMem>, first: &mut Desc<AnyMem>, second: &mut Desc<AnyMem>)
    requires first { IsOf first.old stm.now }
    requires second { IsOf second.old stm.now }
    requires idle { IsIdle (known first.old) × IsIdle (known second.old) }
    ensures same { IsSameCaller first.old first.new }
    ensures idle { IsIdle (known first.new) }
{
    begin_count();
    let note = first.tell(stm);
    end_count();
    begin_count();
    second.learn(stm, note);
    end_count();
}

/// Counts `checkpoint`, `roll_to` after three writes, and `release`, in an attempt that has just begun. Answers whether
/// each came to something.
fn count_marks(caller: &mut CheckedCaller) -> bool {
    begin_count();
    let marked = caller.checkpoint();
    end_count();
    for a in 1..4 {
        if caller.write(a, 7) != Ok(Write::Done) {
            return false;
        }
    }
    begin_count();
    let rolled = caller.roll_to(1);
    end_count();
    begin_count();
    let dropped = caller.drop_marks(1);
    end_count();
    (marked, rolled, dropped) == (Ok(Check::Marked { depth: 1 }), Ok(Roll::Rolled), Ok(()))
}

/// The names of the calls that `run` counts, in that order.
pub const NAMES: [&str; 13] = [
    "close_gate",
    "look",
    "install",
    "reopen",
    "tell",
    "learn",
    "fence",
    "direct_read",
    "direct_write",
    "give_back",
    "checkpoint",
    "roll_to",
    "release",
];

/// Counts each of these calls once. Answers whether each came to its most steps.
pub fn run(alloc: Global) -> bool {
    match opening::open(alloc, ODD) {
        Some(odd) => count_on_gate(odd) && count_in_attempt(alloc),
        None => false,
    }
}

fn count_on_gate(mut odd: Opened) -> bool
    requires fences { odd.stm.config.fence ≡ true }
    requires words { 8 ≤ odd.stm.config.words }
    requires small { IsSmall odd.stm.config }
    requires first { IsFresh odd.stm odd.first }
    requires second { IsFresh odd.stm odd.second }
{
    let is_gate = count_gate(&odd.stm, &mut odd.first, Alg::Tml);
    if is_gate {
        count_notes(&odd.stm, &mut odd.first, &mut odd.second);
    }
    is_gate && count_range(&odd.stm, &mut odd.first)
}

/// Counts `fence`, `direct_read`, `direct_write` and `give_back`.
fn count_range(stm: &Stm<AnyMem>, desc: &mut Desc<AnyMem>) -> bool
    requires stm { IsOf desc.old stm.now }
    requires idle { IsIdle (known desc.old) }
    requires fences { stm.now.config.fence ≡ true }
    requires words { 8 ≤ stm.now.config.words }
    requires small { IsSmall stm.now.config }
{
    if !count_fence(stm, desc) {
        return false;
    }
    count_direct(stm, desc);
    count_give(stm, desc)
}

fn count_in_attempt(alloc: Global) -> bool {
    let Ok(mut callers) = open(alloc, PLAIN, Alg::Serial) else {
        return false;
    };
    match callers.first_mut() {
        Some(caller) => { caller.begin() == Ok(Begin::Begun(Alg::Serial)) && count_marks(caller) }
        None => false,
    }
}
