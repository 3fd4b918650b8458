//! Operations.
ghost use Rattle.std.specs.Prelude.{◌≡◌};

use data_regions::region::Structure;
use std::fmt;

/// An operation of a script. Addresses count words from 0; values are below 2^64, and sums wrap there. An operation on
/// a structure has the number of its region first. The default is what an empty place of a list holds.
#[derive(Clone, Copy, Default, Drop, PartialEq, Eq)]
pub enum Op {
    /// `read a`: replies the word at `a`.
    Read(usize),
    /// `write a v`: the word at `a` becomes `v`; replies `v`.
    Write(usize, u64),
    /// `add a k`: the word at `a` becomes its sum with `k`; replies the sum.
    Add(usize, u64),
    /// `move a b k`: where the word at `a` is less than `k` nothing happens, and the reply is 0. Else it
    /// becomes less by `k`, then the word at `b` becomes its sum with `k`; replies 1. `a` and `b` may be one.
    Move(usize, usize, u64),
    /// `emit a`: the word at `a` goes to the emits; replies it. Only an attempt that has asked to be
    /// irrevocable emits.
    Emit(usize),
    /// `irrev`: asks to be irrevocable; replies 1.
    #[default]
    Irrev,
    /// `cancel`: in a cancelled transaction the first one ends the script and replies 1; in one that
    /// commits it replies 0 and the script goes on.
    Cancel,
    /// `count r s k`: adds `k` to stripe `s` of the counter; replies the stripe's new value.
    Count(usize, usize, u64),
    /// `total r`: replies the sum of the counter's stripes.
    Total(usize),
    /// `ladd r k`: puts a key into the list; replies 1 where it was added, 0 where it was there, and 2 where no
    /// cell is free.
    ListInsert(usize, u32),
    /// `ldel r k`: takes a key out of the list; replies 1 where it was there, else 0.
    ListRemove(usize, u32),
    /// `lhas r k`: replies 1 where the key is in the list, else 0.
    ListContains(usize, u32),
    /// `llen r`: replies the number of keys in the list.
    ListLength(usize),
    /// `hadd r k`: as `ladd`, into the hash set.
    HashInsert(usize, u32),
    /// `hdel r k`: as `ldel`, out of the hash set.
    HashRemove(usize, u32),
    /// `hhas r k`: as `lhas`, in the hash set.
    HashContains(usize, u32),
    /// `tadd r k`: as `ladd`, into the tree.
    TreeInsert(usize, u32),
    /// `tdel r k`: as `ldel`, out of the tree.
    TreeRemove(usize, u32),
    /// `thas r k`: as `lhas`, in the tree.
    TreeContains(usize, u32),
    /// `tmin r`: replies the least key of the tree + 1, or 0 where it has none.
    TreeLeast(usize),
    /// `qput r v`: puts a value below 2^32 after the last one of the queue; replies 1 where it was added, and 2
    /// where every cell has one.
    QueuePut(usize, u32),
    /// `qget r`: takes the queue's first value; replies it + 1, or 0 where the queue is empty.
    QueueGet(usize),
    /// `mput r k v`: gives a key of the map with sums the value `v`; replies 1 where the key was added, 0 where its
    /// value was replaced, and 2 where no cell is free.
    MapPut(usize, u32, u64),
    /// `mdel r k`: takes a key and its value out of the map; replies 1 where it was there, else 0.
    MapRemove(usize, u32),
    /// `mget r k`: replies the key's value, or 0 where it is absent.
    MapGet(usize, u32),
    /// `msum r lo hi`: replies the sum of the values of the keys from `lo` to `hi`.
    MapSum(usize, u32, u32),
}

/// The number of the counter's region in version 1 of the workload text.
pub const COUNTER: usize = 0;
/// The number of the list's region there.
pub const LIST: usize = 1;
/// The number of the hash set's region there.
pub const HASH: usize = 2;
/// The number of the tree's region there.
pub const TREE: usize = 3;

/// The operations that take a key alone in version 1 of the workload text, here with the key 0.
pub const KEYED: [Op; 9] = [
    Op::ListInsert(LIST, 0),
    Op::ListRemove(LIST, 0),
    Op::ListContains(LIST, 0),
    Op::HashInsert(HASH, 0),
    Op::HashRemove(HASH, 0),
    Op::HashContains(HASH, 0),
    Op::TreeInsert(TREE, 0),
    Op::TreeRemove(TREE, 0),
    Op::TreeContains(TREE, 0),
];

/// The operations on a structure that take nothing there.
pub const KEYLESS: [Op; 3] = [
    Op::Total(COUNTER),
    Op::ListLength(LIST),
    Op::TreeLeast(TREE),
];

/// The operations that take a region and a key in version 2, here with the region 0 and the key 0.
pub const PLACED_KEYED: [Op; 12] = [
    Op::ListInsert(0, 0),
    Op::ListRemove(0, 0),
    Op::ListContains(0, 0),
    Op::HashInsert(0, 0),
    Op::HashRemove(0, 0),
    Op::HashContains(0, 0),
    Op::TreeInsert(0, 0),
    Op::TreeRemove(0, 0),
    Op::TreeContains(0, 0),
    Op::QueuePut(0, 0),
    Op::MapRemove(0, 0),
    Op::MapGet(0, 0),
];

/// The operations that take a region alone there.
pub const PLACED_KEYLESS: [Op; 4] = [
    Op::Total(0),
    Op::ListLength(0),
    Op::TreeLeast(0),
    Op::QueueGet(0),
];

impl Op {
    ghost use Rattle.work_script.specs.Operations.{is_cancel, is_irrev, op_name, structure_in, with_key, with_region};

    /// The operation with another key, where it takes one alone.
    pub fn with_key(self, key: u32) -> Op
        ensures { result ≡ with_key key self }
    {
        match self {
            Op::ListInsert(region, _) => Op::ListInsert(region, key),
            Op::ListRemove(region, _) => Op::ListRemove(region, key),
            Op::ListContains(region, _) => Op::ListContains(region, key),
            Op::HashInsert(region, _) => Op::HashInsert(region, key),
            Op::HashRemove(region, _) => Op::HashRemove(region, key),
            Op::HashContains(region, _) => Op::HashContains(region, key),
            Op::TreeInsert(region, _) => Op::TreeInsert(region, key),
            Op::TreeRemove(region, _) => Op::TreeRemove(region, key),
            Op::TreeContains(region, _) => Op::TreeContains(region, key),
            Op::QueuePut(region, _) => Op::QueuePut(region, key),
            Op::MapRemove(region, _) => Op::MapRemove(region, key),
            Op::MapGet(region, _) => Op::MapGet(region, key),
            other => other,
        }
    }

    /// The operation on another region, where it works on a structure.
    pub fn with_region(self, region: usize) -> Op
        ensures { result ≡ with_region region self }
    {
        match self {
            Op::Count(_, stripe, amount) => Op::Count(region, stripe, amount),
            Op::Total(_) => Op::Total(region),
            Op::ListInsert(_, key) => Op::ListInsert(region, key),
            Op::ListRemove(_, key) => Op::ListRemove(region, key),
            Op::ListContains(_, key) => Op::ListContains(region, key),
            Op::HashInsert(_, key) => Op::HashInsert(region, key),
            Op::HashRemove(_, key) => Op::HashRemove(region, key),
            Op::HashContains(_, key) => Op::HashContains(region, key),
            Op::TreeInsert(_, key) => Op::TreeInsert(region, key),
            Op::TreeRemove(_, key) => Op::TreeRemove(region, key),
            Op::TreeContains(_, key) => Op::TreeContains(region, key),
            Op::QueuePut(_, key) => Op::QueuePut(region, key),
            Op::MapRemove(_, key) => Op::MapRemove(region, key),
            Op::MapGet(_, key) => Op::MapGet(region, key),
            Op::ListLength(_) => Op::ListLength(region),
            Op::TreeLeast(_) => Op::TreeLeast(region),
            Op::QueueGet(_) => Op::QueueGet(region),
            Op::MapPut(_, key, value) => Op::MapPut(region, key, value),
            Op::MapSum(_, low, high) => Op::MapSum(region, low, high),
            other => other,
        }
    }

    /// The structure that the operation works on, and the number of its region.
    pub fn structure(&self) -> Option<(Structure, usize)>
        ensures { result ≡ structure_in self.now }
    {
        match self {
            Op::Count(region, _, _) | Op::Total(region) => Some((Structure::Counter, *region)),
            Op::ListInsert(region, _)
            | Op::ListRemove(region, _)
            | Op::ListContains(region, _)
            | Op::ListLength(region) => Some((Structure::List, *region)),
            Op::HashInsert(region, _) | Op::HashRemove(region, _) | Op::HashContains(region, _) => {
                Some((Structure::Hash, *region))
            }
            Op::TreeInsert(region, _)
            | Op::TreeRemove(region, _)
            | Op::TreeContains(region, _)
            | Op::TreeLeast(region) => Some((Structure::Tree, *region)),
            Op::QueuePut(region, _) | Op::QueueGet(region) => Some((Structure::Queue, *region)),
            Op::MapPut(region, _, _)
            | Op::MapRemove(region, _)
            | Op::MapGet(region, _)
            | Op::MapSum(region, _, _) => Some((Structure::SumMap, *region)),
            Op::Read(_)
            | Op::Write(_, _)
            | Op::Add(_, _)
            | Op::Move(_, _, _)
            | Op::Emit(_)
            | Op::Irrev
            | Op::Cancel => None,
        }
    }

    /// Whether the operation is `cancel`.
    pub fn is_cancel(&self) -> bool
        ensures { result ≡ is_cancel self.now }
    {
        match self {
            Op::Cancel => true,
            _ => false,
        }
    }

    /// Whether the operation is `irrev`.
    pub fn is_irrev(&self) -> bool
        ensures { result ≡ is_irrev self.now }
    {
        match self {
            Op::Irrev => true,
            _ => false,
        }
    }

    /// Its word, as workloads and traces have it.
    pub fn name(&self) -> &'static str
        ensures { result.now ≡ op_name self.now }
    {
        match self {
            Op::Read(_) => "read",
            Op::Write(_, _) => "write",
            Op::Add(_, _) => "add",
            Op::Move(_, _, _) => "move",
            Op::Emit(_) => "emit",
            Op::Irrev => "irrev",
            Op::Cancel => "cancel",
            Op::Count(_, _, _) => "count",
            Op::Total(_) => "total",
            Op::ListInsert(_, _) => "ladd",
            Op::ListRemove(_, _) => "ldel",
            Op::ListContains(_, _) => "lhas",
            Op::ListLength(_) => "llen",
            Op::HashInsert(_, _) => "hadd",
            Op::HashRemove(_, _) => "hdel",
            Op::HashContains(_, _) => "hhas",
            Op::TreeInsert(_, _) => "tadd",
            Op::TreeRemove(_, _) => "tdel",
            Op::TreeContains(_, _) => "thas",
            Op::TreeLeast(_) => "tmin",
            Op::QueuePut(_, _) => "qput",
            Op::QueueGet(_) => "qget",
            Op::MapPut(_, _, _) => "mput",
            Op::MapRemove(_, _) => "mdel",
            Op::MapGet(_, _) => "mget",
            Op::MapSum(_, _, _) => "msum",
        }
    }
}

impl fmt::Debug for Op {
    fn fmt<W: fmt::Write>(&self, f: &mut fmt::Formatter<W>) -> fmt::Result {
        f.write_str(self.name())
    }
}
