//! Regions and their rule.
ghost use Rattle.std.specs.Prelude.{◌≡◌, ◌+◌, [], ◌∷◌, ◌++◌, not, leb, ltb, IfOk, OnOk};
ghost use Rattle.data_regions.specs.Regions.{version_one, start_of, size_of, is_outside, is_structure, structure_of, region_for};

use data_cells::counter::Counter;
use data_cells::hash::Hash;
use data_cells::list::List;
use data_queue::queue::Queue;
use data_sums::sum_map::SumMap;
use data_tree::tree::Tree;
use std::alloc::{AllocError, Global};
use std::marker::Model;
use stm_model::rule::MemRule;

/// The words that one structure has for itself.
#[derive(Clone, Copy, Drop, Debug, PartialEq, Eq)]
pub enum Region {
    Counter(Counter),
    List(List),
    Hash(Hash),
    Tree(Tree),
    Queue(Queue),
    SumMap(SumMap),
}

/// What a region is for.
#[derive(Clone, Copy, Drop, Debug, PartialEq, Eq)]
pub enum Structure {
    Counter,
    List,
    Hash,
    Tree,
    Queue,
    SumMap,
}

impl Structure {
    /// Whether it is this one.
    pub fn is(self, other: Structure) -> bool
        ensures { result ≡ is_structure self other }
    {
        match (self, other) {
            (Structure::Counter, Structure::Counter) => true,
            (Structure::List, Structure::List) => true,
            (Structure::Hash, Structure::Hash) => true,
            (Structure::Tree, Structure::Tree) => true,
            (Structure::Queue, Structure::Queue) => true,
            (Structure::SumMap, Structure::SumMap) => true,
            _ => false,
        }
    }
}

impl Region {
    /// A structure's region: its first word, and its stripes or cells.
    pub fn new(structure: Structure, at: usize, size: usize) -> Region
        ensures { result ≡ region_for structure at size }
    {
        match structure {
            Structure::Counter => Region::Counter(Counter::new(at, size)),
            Structure::List => Region::List(List::new(at, size)),
            Structure::Hash => Region::Hash(Hash::new(at, size)),
            Structure::Tree => Region::Tree(Tree::new(at, size)),
            Structure::Queue => Region::Queue(Queue::new(at, size)),
            Structure::SumMap => Region::SumMap(SumMap::new(at, size)),
        }
    }

    /// What it is for.
    pub fn structure(&self) -> Structure
        ensures { result ≡ structure_of self.now }
    {
        match self {
            Region::Counter(_) => Structure::Counter,
            Region::List(_) => Structure::List,
            Region::Hash(_) => Structure::Hash,
            Region::Tree(_) => Structure::Tree,
            Region::Queue(_) => Structure::Queue,
            Region::SumMap(_) => Structure::SumMap,
        }
    }

    /// Its first word.
    pub fn start(&self) -> usize
        ensures { result ≡ start_of self.now }
    {
        match self {
            Region::Counter(counter) => counter.at,
            Region::List(list) => list.at,
            Region::Hash(hash) => hash.at,
            Region::Tree(tree) => tree.at,
            Region::Queue(queue) => queue.at,
            Region::SumMap(map) => map.at,
        }
    }

    /// Whether it has more words than that. No sum, since that may not fit.
    fn reaches(&self, offset: usize) -> bool
        ensures { result ≡ ltb offset (size_of self.now) }
    {
        match self {
            Region::Counter(counter) => offset < counter.stripes,
            Region::List(list) => offset < 1 || (offset - 1) / 2 < list.cells,
            Region::Hash(hash) => offset < 16 || (offset - 16) / 2 < hash.cells,
            Region::Tree(tree) => offset < 1 || (offset - 1) / 3 < tree.cells,
            Region::Queue(queue) => offset < 2 || offset - 2 < queue.cells,
            Region::SumMap(map) => offset < 1 || (offset - 1) / 5 < map.cells,
        }
    }

    /// Whether the word at the address is one of its.
    pub fn has(&self, a: usize) -> bool
        ensures { result ≡ not (is_outside a self.now) }
    {
        let start = self.start();
        start <= a && self.reaches(a - start)
    }

    /// Whether it ends at the address or before it.
    pub fn ends_by(&self, a: usize) -> bool
        ensures { result ≡ leb (start_of self.now + size_of self.now) a }
    {
        let start = self.start();
        start <= a && !self.reaches(a - start)
    }
}

/// The regions of a memory, in any number, each at any place and of any size; contracts see a list. A
/// region's number is its place in it, from 0.
///
/// As a rule on memory: each region's structure is well formed. Where there is no region, every memory is
/// good. A caller has to keep regions apart from each other, and plain writes out of them.
#[derive(Drop, Debug)]
pub struct Regions {
    items: Vec<Region>,
}

impl Model for Regions {
    ghost use Rattle.std.specs.Prelude.{List};
    ghost use Rattle.data_regions.specs.declared.region.Region.{Region};

    ghost Value = { List Region };

    ghost view = { λ r. r.items.items };
}

impl MemRule for Regions {
    ghost use Rattle.data_regions.specs.Regions.{AllWellFormed};

    ghost good = { λ regions memory. AllWellFormed regions memory };
}

impl Regions {
    pub fn new(items: Vec<Region>) -> Regions
        ensures { result ≡ items.items }
    {
        Regions { items }
    }

    /// No region. Takes no memory.
    pub fn none(alloc: Global) -> Regions
        ensures { result ≡ [] }
    {
        Regions {
            items: Vec::new(alloc),
        }
    }

    /// The four regions of the workload text's first version, all within the words 64 to 1,023: a counter
    /// of 4 stripes at 64, a list of 32 cells at 128, a hash set of 64 cells at 256, and a tree of 64 cells
    /// at 512.
    ///
    /// # Errors
    /// The memory for the list of regions was refused.
    pub fn version_one(alloc: Global) -> Result<Regions, AllocError>
        ensures { IfOk result (λ r. r ≡ version_one) }
    {
        let items = vec![in alloc;
            Region::Counter(Counter::new(64, 4)),
            Region::List(List::new(128, 32)),
            Region::Hash(Hash::new(256, 64)),
            Region::Tree(Tree::new(512, 64)),
        ]?;
        Ok(Regions { items })
    }

    /// The same regions again. Memory may be refused.
    pub fn copy(&self, alloc: Global) -> Result<Regions, AllocError>
        ensures { IfOk result (λ r. r ≡ self.now) }
    {
        let items = self.items.as_slice().to_vec(alloc)?;
        Ok(Regions { items })
    }

    /// One more region, after the others. Memory may be refused.
    pub fn push(&mut self, region: Region) -> Result<(), AllocError>
        ensures { OnOk result (self.new ≡ self.old ++ region ∷ []) }
    {
        self.items.push(region)?;
        Ok(())
    }

    /// The regions, by number.
    pub fn as_slice(&self) -> &[Region]
        ensures { result.now ≡ self.now }
    {
        self.items.as_slice()
    }
}
