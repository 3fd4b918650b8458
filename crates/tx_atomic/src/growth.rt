//! How a caller's logs are lengthened, between two attempts at a transaction.
ghost use Rattle.std.specs.Prelude.{◌≡◌, ◌≤◌, length, max, true, false};
ghost use Rattle.stm_rule.specs.Callers.{IsSameCaller};
ghost use Rattle.stm_answers.specs.CallerState.{IsIdle};
ghost use Rattle.stm_tx.specs.Descs.{known};
ghost use Rattle.tx_atomic.specs.Lengths.{Lengthens, length_wanted};

use std::alloc::Global;
use stm_model::rule::MemRule;
use stm_rule::desc::Desc;
use stm_rule::local::Local;
use stm_tx::calls::reserve;

/// Where a log that was too short for a transaction gets more room from, and up to which length.
#[derive(Clone, Copy, Drop)]
pub struct Growth {
    alloc: Option<Global>,
    pub most: usize,
    ghost fits: { most ≤ 1048576 },
}

impl Growth {
    /// No log is lengthened.
    pub fn none() -> Growth
        ensures { result.most ≡ 0 }
    {
        Growth {
            alloc: None,
            most: 0,
        }
    }

    /// Each log becomes twice as long where it was too short, up to `most`, at most 1,048,576 items.
    pub fn up_to(alloc: Global, most: usize) -> Growth
        requires { most ≤ 1048576 }
        ensures { result.most ≡ most }
    {
        Growth {
            alloc: Some(alloc),
            most,
        }
    }

    /// Makes each log of the last attempt that had its length twice as long, up to `most`, and answers whether one
    /// became longer. Else, as where memory is refused, nothing changes.
    pub(crate) fn lengthen<K: MemRule>(&self, desc: &mut Desc<K>) -> bool
        requires idle { IsIdle (known desc.old) }
        ensures same { IsSameCaller desc.old desc.new }
        ensures view { desc.new.view ≡ desc.old.view }
        ensures lengthens { result ≡ true → Lengthens self.now.most (known desc.old) (known desc.new) }
        ensures stays { result ≡ false → desc.new ≡ desc.old }
    {
        let Some(alloc) = self.alloc else {
            return false;
        };
        let (reads, writes) = lengths_wanted(&desc.local, self.most);
        if reads <= desc.local.reads.len() && writes <= desc.local.undo.len() {
            return false;
        }
        reserve(alloc, desc, reads, writes).is_ok()
    }
}

/// How long the read log, and the logs of what is written, are to be at least after an attempt: one that had its length
/// twice as long. They keep their items until the next attempt begins.
fn lengths_wanted(local: &Local, most: usize) -> (usize, usize)
    requires { most ≤ 1048576 }
    ensures reads { result.0
        ≡ length_wanted most (length local.now.reads.items) local.now.reads.len }
    ensures writes { result.1
        ≡ length_wanted most (max (length local.now.undo.items) (length local.now.writes.items))
        local.now.undo.len }
{
    let written = local.undo.count().max(local.writes.count());
    (
        length_wanted(local.reads.count(), local.reads.len(), most),
        length_wanted(written, local.undo.len(), most),
    )
}

/// The same of a log that had so many items.
fn length_wanted(count: usize, len: usize, most: usize) -> usize
    requires { most ≤ 1048576 }
    ensures { result ≡ length_wanted most count len }
{
    if count == len {
        (2 * len.min(most)).min(most).max(1)
    } else {
        1
    }
}
