//! Workloads: what callers are to do, and over which memory.
ghost use Rattle.std.specs.Prelude.{◌≡◌};

use crate::lists::Script;
use data_regions::region::Regions;
use std::alloc::Global;
use std::marker::Model;
use stm_model::alg::Alg;
use stm_model::config::{Config, MOST_MARKS};
use stm_model::memory::Memory;
use work_profile::policy::Policy;

/// The greatest number of items of a workload.
pub const MAX_ITEMS: usize = 65_536;
/// The greatest number of operations of a transaction.
pub const MAX_OPS: usize = 4_096;
/// The greatest number of turns of a schedule, in all and in one line.
pub const MAX_TURNS: u64 = 1_000_000;
/// The greatest key.
pub const MAX_KEY: u64 = 4_294_967_295;
/// The greatest number of heap words in version 1.
pub const MAX_WORDS_ONE: usize = 65_536;
/// In version 1 with structures on, the words from this one on are theirs.
pub const STRUCTS_BEGIN: usize = 64;
/// First address after the structures, and so the least number of words where they are on.
pub const STRUCTS_END: usize = 1_024;
/// The stripes of version 1's counter.
pub const STRIPES: usize = 4;
/// The greatest number of regions.
pub const MAX_REGIONS: usize = 16;
/// The greatest number of a counter's stripes.
pub const MAX_STRIPES: u64 = 64;
/// The greatest number of cells of any other structure.
pub const MAX_CELLS: u64 = 4_096;

/// The version of a workload's text.
#[derive(Clone, Copy, Drop, Debug, PartialEq, Eq)]
pub enum Version {
    /// Up to 65,536 words, and four regions at fixed places or none.
    One,
    /// Up to 1,048,576 words, any regions, `reserve`, and a policy.
    Two,
}

/// The sizes and the start of a memory.
#[derive(Drop, Debug)]
pub struct Header {
    /// The version of the text that it is of.
    pub version: Version,
    /// Words of the heap.
    pub words: usize,
    /// Ownership records.
    pub records: usize,
    /// Slots of the ring.
    pub ring: usize,
    pub callers: usize,
    /// Length of each read log.
    pub reads: usize,
    /// Length of each write log and undo log.
    pub writes: usize,
    /// The clock at the start, at most 2^62.
    pub clock: u64,
    /// The algorithm at the start.
    pub alg: Alg,
    /// The words of structures: in version 1 the four regions among the words 64 to 1,023 with structures on, and none
    /// with them off.
    pub regions: Regions,
    /// When caller 0 changes the algorithm besides where the items say so; fixed in version 1.
    pub policy: Policy,
}

impl Header {
    ghost use Rattle.std.specs.Prelude.{IfOk};
    ghost use Rattle.work_script.specs.Reports.{regions_of};
    ghost use Rattle.work_script.specs.Workloads.{config_of};

    /// The sizes and the opening clock of the memory that the header asks for.
    pub fn config(&self) -> Config
        ensures { result ≡ config_of self.now }
    {
        Config {
            words: self.words,
            records: self.records,
            ring: self.ring,
            callers: self.callers,
            reads: self.reads,
            writes: self.writes,
            clock: self.clock,
            fence: false,
            marks: MOST_MARKS,
        }
    }

    /// The regions of the memory that the header asks for, once more.
    ///
    /// # Errors
    /// Memory, where it is refused.
    pub fn regions(&self, alloc: Global) -> Result<Regions, Memory>
        ensures { IfOk result (λ r. r ≡ regions_of self.now) }
    {
        let regions = self.regions.copy(alloc)?;
        Ok(regions)
    }
}

/// One thing that a caller is to do.
#[derive(Drop, Debug)]
pub enum Item {
    Tx {
        caller: usize,
        script: Script,
    },
    Switch {
        caller: usize,
        alg: Alg,
    },
    /// The caller's logs become so long, where they are shorter.
    Reserve {
        caller: usize,
        reads: usize,
        writes: usize,
    },
}

/// What all callers are to do; each takes its own items in this order.
#[derive(Drop, Debug)]
pub struct Items {
    items: Vec<Item>,
}

impl Model for Items {
    ghost use Rattle.std.specs.Prelude.{List};
    ghost use Rattle.work_script.specs.declared.workload.Item.{Item};

    ghost Value = { List Item };

    ghost view = { λ i. i.items.items };
}

impl Items {
    pub fn new(items: Vec<Item>) -> Items
        ensures { result ≡ items.items }
    {
        Items { items }
    }

    pub fn as_slice(&self) -> &[Item]
        ensures { result.now ≡ self.now }
    {
        self.items.as_slice()
    }

    pub fn into_vec(self) -> Vec<Item>
        ensures { result.items ≡ self }
    {
        self.items
    }
}

/// So many turns of one caller.
#[derive(Clone, Copy, Drop, Debug, PartialEq, Eq)]
pub struct Go {
    pub caller: usize,
    pub turns: u32,
}

/// A schedule: whose turns come, in order.
#[derive(Drop, Debug)]
pub struct Gos {
    items: Vec<Go>,
}

impl Model for Gos {
    ghost use Rattle.std.specs.Prelude.{List};
    ghost use Rattle.work_script.specs.declared.workload.Go.{Go};

    ghost Value = { List Go };

    ghost view = { λ g. g.items.items };
}

impl Gos {
    pub fn new(items: Vec<Go>) -> Gos
        ensures { result ≡ items.items }
    {
        Gos { items }
    }

    pub fn as_slice(&self) -> &[Go]
        ensures { result.now ≡ self.now }
    {
        self.items.as_slice()
    }
}

#[derive(Drop, Debug)]
pub struct Workload {
    pub header: Header,
    pub items: Items,
    pub schedule: Gos,
}
