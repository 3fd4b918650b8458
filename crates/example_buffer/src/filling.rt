//! The worker: it takes the buffer out of the transactions, fills it by direct writes, and gives it back.
ghost use Rattle.std.specs.Prelude.{◌≡◌, ◌≤◌, ℕ, [], true, false};
ghost use Rattle.nekchhaul.specs.Configs.{IsSmall};
ghost use Rattle.nekchhaul.specs.Encodings.{fenced};
ghost use Rattle.nekchhaul.specs.Handles.{IsOf, IsSameCaller};
ghost use Rattle.nekchhaul.specs.Fences.{is_within};
ghost use Rattle.nekchhaul.specs.CallerState.{IsIdle};
ghost use Rattle.nekchhaul.specs.Descs.{known};
ghost use Rattle.example_buffer.specs.Fillings.{writes_of};

use crate::buffer::Buffer;
use nekchhaul::calls::fencing::{direct_write, fence, give_back};
use nekchhaul::calls::gate::reopen;
use nekchhaul::calls::{Fence, Give};
use nekchhaul::{Desc, Stm, close_alone};
use std::sync::Wait;

/// Fills the buffer with `x`. Answers whether it is back: it isn't where the clock was found at its limit. Readers see
/// the whole of it from then on, and nothing of it before.
pub fn refill<R: Wait>(rt: &R, desc: &mut Desc<Buffer>, stm: &Stm<Buffer>, x: u64) -> bool
    requires stm { IsOf desc.old stm.now }
    requires idle { IsIdle (known desc.old) }
    requires without { (known desc.old).fenced.held ≡ false }
    requires fences { stm.now.config.fence ≡ true }
    requires words { stm.now.config.words ≡ 4 }
    requires small { IsSmall stm.now.config }
    requires one { x ≤ 2 }
    ensures same { IsSameCaller desc.old desc.new }
    ensures idle { IsIdle (known desc.new) }
    ensures back { result ≡ true → (known desc.new).fenced.held ≡ false }
{
    if !take(rt, desc, stm) {
        return true;
    }
    fill(desc, stm, x);
    give(rt, desc, stm, x)
}

/// Takes the buffer. Answers whether it is the caller's; it isn't where another has it.
fn take<R: Wait>(rt: &R, desc: &mut Desc<Buffer>, stm: &Stm<Buffer>) -> bool
    requires stm { IsOf desc.old stm.now }
    requires idle { IsIdle (known desc.old) }
    requires without { (known desc.old).fenced.held ≡ false }
    requires fences { stm.now.config.fence ≡ true }
    requires words { stm.now.config.words ≡ 4 }
    requires small { IsSmall stm.now.config }
    ensures same { IsSameCaller desc.old desc.new }
    ensures idle { IsIdle (known desc.new) }
    ensures held { (known desc.new).fenced.held ≡ result }
    ensures words { result ≡ true → (a : ℕ)
        → fenced (known desc.new).fenced.number a ≡ is_within 0 4 a }
    ensures unwritten { result ≡ true → (known desc.new).fenced.log.writes ≡ [] }
{
    close_alone(rt, desc, stm);
    match fence(desc, stm, 0, 4) {
        Fence::Fenced => {
            reopen(desc, stm);
            true
        }
        Fence::Taken { .. } => {
            reopen(desc, stm);
            false
        }
    }
}

/// Fills the buffer, word by word. Meanwhile it is of two fillings, and nobody else may read it.
fn fill(desc: &mut Desc<Buffer>, stm: &Stm<Buffer>, x: u64)
    requires stm { IsOf desc.old stm.now }
    requires idle { IsIdle (known desc.old) }
    requires held { (known desc.old).fenced.held ≡ true }
    requires inside { (a : ℕ) → fenced (known desc.old).fenced.number a ≡ is_within 0 4 a }
    requires unwritten { (known desc.old).fenced.log.writes ≡ [] }
    requires words { stm.now.config.words ≡ 4 }
    ensures same { IsSameCaller desc.old desc.new }
    ensures idle { IsIdle (known desc.new) }
    ensures held { (known desc.new).fenced.held ≡ true }
    ensures writes { (known desc.new).fenced.log.writes ≡ writes_of x }
{
    direct_write(desc, stm, 0, x);
    direct_write(desc, stm, 1, x);
    direct_write(desc, stm, 2, x);
    direct_write(desc, stm, 3, x);
}

/// Gives the buffer back. Answers whether it is; it isn't where the clock was found at its limit.
fn give<R: Wait>(rt: &R, desc: &mut Desc<Buffer>, stm: &Stm<Buffer>, x: u64) -> bool
    requires stm { IsOf desc.old stm.now }
    requires idle { IsIdle (known desc.old) }
    requires held { (known desc.old).fenced.held ≡ true }
    requires words { stm.now.config.words ≡ 4 }
    requires writes { (known desc.old).fenced.log.writes ≡ writes_of x }
    requires one { x ≤ 2 }
    ensures same { IsSameCaller desc.old desc.new }
    ensures idle { IsIdle (known desc.new) }
    ensures back { result ≡ true → (known desc.new).fenced.held ≡ false }
{
    close_alone(rt, desc, stm);
    match give_back(desc, stm) {
        Give::Committed { .. } | Give::Unchanged => {
            reopen(desc, stm);
            true
        }
        Give::ClockFull { .. } => {
            reopen(desc, stm);
            false
        }
    }
}
