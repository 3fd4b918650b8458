//! Privatization: one caller takes a range of words out of the transactions, reads and writes there directly, and gives
//! it back; and the range as an attempt meets it.
ghost use Rattle.std.specs.Prelude.{◌≡◌, true, not};
ghost use Rattle.rule_base.specs.Encodings.{fenced};
ghost use Rattle.stm_tx.specs.Descs.{known};
ghost use Rattle.stm_tx.specs.Fencing.{fence_seen, range_held};

use rule_base::words::{fence_count, fence_from};
pub use stm_gate::fence::{direct_read, direct_write, fence, give_back};
use stm_model::rule::MemRule;
use stm_rule::desc::Desc;

/// The range that was out of the transactions as the running attempt began, by its first address and how many words it
/// has: the attempt may neither read nor write there. None where there was no such range, or no attempt runs. No step.
pub fn fence_seen<K: MemRule>(desc: &Desc<K>) -> Option<(usize, usize)>
    ensures { result ≡ fence_seen (known desc.now) }
{
    let fence = desc.local.fence;
    if desc.local.running && fence != 0 {
        Some((fence_from(fence) as usize, fence_count(fence) as usize))
    } else {
        None
    }
}

/// The range that this caller has out of the transactions, by its first address and how many words it has: it may read
/// and write there directly, and give it back. No step.
pub fn fenced<K: MemRule>(desc: &Desc<K>) -> Option<(usize, usize)>
    ensures { result ≡ range_held (known desc.now) }
{
    let fence = desc.seat.own_fence().number;
    if fence != 0 {
        Some((fence_from(fence) as usize, fence_count(fence) as usize))
    } else {
        None
    }
}

/// Whether the word at `a` was not out of the transactions as the running attempt began, so that the attempt may read
/// and write there. No step.
pub fn spares<K: MemRule>(desc: &Desc<K>, a: usize) -> bool
    requires running { (known desc.now).running ≡ true }
    ensures { result ≡ not (fenced (known desc.now).fence a) }
{
    let from = fence_from(desc.local.fence) as usize;
    let count = fence_count(desc.local.fence) as usize;
    a < from || a >= from + count
}
