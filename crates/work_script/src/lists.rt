//! Lists of plain values, which contracts see as lists.
ghost use Rattle.std.specs.Prelude.{◌≡◌};

use crate::op::Op;
use smallvec::SmallVec;
use std::marker::Model;

/// A list of words. The one word of a short list lies in it, so that a transaction of one operation needs no
/// memory of its own for what it replies.
#[derive(Drop, Debug)]
pub struct Words {
    items: SmallVec<u64, 1>,
}

impl Model for Words {
    ghost use Rattle.std.specs.Prelude.{ℕ, List};

    ghost Value = { List ℕ };

    ghost view = { λ w. w.items.items };
}

impl Words {
    pub fn new(items: SmallVec<u64, 1>) -> Words
        ensures { result ≡ items.items }
    {
        Words { items }
    }

    pub fn as_slice(&self) -> &[u64]
        ensures { result.now ≡ self.now }
    {
        self.items.as_slice()
    }
}

/// The operations of one transaction, in order. The one operation of a short script lies in it: who holds the item
/// holds the operation, with no load of memory that another processor wrote while the transaction runs.
#[derive(Drop, Debug)]
pub struct Script {
    ops: SmallVec<Op, 1>,
}

impl Model for Script {
    ghost use Rattle.std.specs.Prelude.{List};
    ghost use Rattle.work_script.specs.declared.op.Op.{Op};

    ghost Value = { List Op };

    ghost view = { λ s. s.ops.items };
}

impl Script {
    pub fn new(ops: SmallVec<Op, 1>) -> Script
        ensures { result ≡ ops.items }
    {
        Script { ops }
    }

    pub fn as_slice(&self) -> &[Op]
        ensures { result.now ≡ self.now }
    {
        self.ops.as_slice()
    }
}
