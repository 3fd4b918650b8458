//! Hands out the words of a memory. A layout is a number, how many words it has handed out. So a program's goals are
//! sums that the prover finds; a list would take memory and an error more.
ghost use Rattle.std.specs.Prelude.{◌≡◌, ◌<◌, ◌≤◌, ◌+◌, ◌*◌};
ghost use Rattle.data_layout.specs.Layouts.{Gives};

use crate::records::Records;
use data_cells::counter::Counter;
use data_cells::hash::Hash;
use data_cells::list::List;
use data_places::place::Place;
use data_places::places::Places;
use data_places::word::Word;
use data_queue::queue::Queue;
use data_sums::sum_map::SumMap;
use data_tree::tree::Tree;
use std::marker::Model;

/// The most words that a memory may have, 2^32.
pub const MOST_WORDS: usize = 4_294_967_296;

/// Hands out words from address 0 on, each once. Contracts see it as the number of words that it has handed out.
#[derive(Drop)]
pub struct Layout {
    next: usize,
}

impl Model for Layout {
    ghost use Rattle.std.specs.Prelude.{ℕ};

    ghost Value = { ℕ };

    ghost view = { λ l. l.next };
}

impl Layout {
    /// Nothing is handed out yet.
    pub fn new() -> Layout
        ensures { result ≡ 0 }
    {
        Layout { next: 0 }
    }

    /// Hands out from this address on: the fields of a record.
    pub(crate) fn from(first: usize) -> Layout
        ensures { result ≡ first }
    {
        Layout { next: first }
    }

    /// How many words hold all that was handed out.
    pub fn words(&self) -> usize
        ensures { result ≡ self.now }
    {
        self.next
    }

    /// So many words; returns the address of the first.
    pub fn region(&mut self, words: usize) -> usize
        requires room { self.old + words ≤ MOST_WORDS }
        ensures gives { Gives self.old result words self.new }
    {
        let first = self.next;
        self.next = first + words;
        first
    }

    /// A place.
    pub fn place<T: Word>(&mut self) -> Place<T>
        requires room { self.old < MOST_WORDS }
        ensures gives { Gives self.old result.at 1 self.new }
    {
        Place::new(self.region(1))
    }

    /// So many places in a row.
    pub fn places<T: Word>(&mut self, count: usize) -> Places<T>
        requires room { self.old + count ≤ MOST_WORDS }
        ensures gives { Gives self.old result.first count self.new }
        ensures count { result.count ≡ count }
    {
        Places::new(self.region(count), count)
    }

    /// So many records, of so many words each.
    pub fn records(&mut self, count: usize, words: usize) -> Records
        requires room { self.old + count * words ≤ MOST_WORDS }
        ensures gives { Gives self.old result.first (count * words) self.new }
        ensures count { (result.count ≡ count) × (result.words ≡ words) }
    {
        let first = self.region(count * words);
        Records::new(first, count, words)
    }

    /// A counter with so many stripes.
    pub fn counter(&mut self, stripes: usize) -> Counter
        requires room { self.old + stripes ≤ MOST_WORDS }
        ensures gives { Gives self.old result.at stripes self.new }
        ensures stripes { result.stripes ≡ stripes }
    {
        Counter::new(self.region(stripes), stripes)
    }

    /// A sorted list with so many cells.
    pub fn list(&mut self, cells: usize) -> List
        requires room { self.old + (1 + 2 * cells) ≤ MOST_WORDS }
        ensures gives { Gives self.old result.at (1 + 2 * cells) self.new }
        ensures cells { result.cells ≡ cells }
    {
        List::new(self.region(1 + 2 * cells), cells)
    }

    /// A hash set with so many cells.
    pub fn hash(&mut self, cells: usize) -> Hash
        requires room { self.old + (16 + 2 * cells) ≤ MOST_WORDS }
        ensures gives { Gives self.old result.at (16 + 2 * cells) self.new }
        ensures cells { result.cells ≡ cells }
    {
        Hash::new(self.region(16 + 2 * cells), cells)
    }

    /// A tree with so many cells.
    pub fn tree(&mut self, cells: usize) -> Tree
        requires room { self.old + (1 + 3 * cells) ≤ MOST_WORDS }
        ensures gives { Gives self.old result.at (1 + 3 * cells) self.new }
        ensures cells { result.cells ≡ cells }
    {
        Tree::new(self.region(1 + 3 * cells), cells)
    }

    /// A queue with room for so many values.
    pub fn queue(&mut self, cells: usize) -> Queue
        requires room { self.old + (2 + cells) ≤ MOST_WORDS }
        ensures gives { Gives self.old result.at (2 + cells) self.new }
        ensures cells { result.cells ≡ cells }
    {
        Queue::new(self.region(2 + cells), cells)
    }

    /// A map, by keys in order, with so many cells.
    pub fn sum_map(&mut self, cells: usize) -> SumMap
        requires room { self.old + (1 + 5 * cells) ≤ MOST_WORDS }
        ensures gives { Gives self.old result.at (1 + 5 * cells) self.new }
        ensures cells { result.cells ≡ cells }
    {
        SumMap::new(self.region(1 + 5 * cells), cells)
    }
}
