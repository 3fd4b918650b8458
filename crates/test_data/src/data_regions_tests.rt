//! The words that calls leave in a plain memory of zeros.
ghost use Rattle.std.specs.Prelude.{◌≡◌, ◌<◌, ◌≤◌, ◌+◌, ◌*◌, ◌^◌, List, None, Some, IfOk, OnOk, IfErr, length};
ghost use Rattle.stm_model.specs.Memories.{overlay};
ghost use Rattle.stm_model.specs.Plains.{openings, own_writes};
ghost use Rattle.data_effects.specs.Effects.{Under};
ghost use Rattle.data_cells.specs.Chains.{ChainsFit, IsChains};
ghost use Rattle.data_cells.specs.Counters.{StripesFit};
ghost use Rattle.data_cells.specs.Structures.{list_of, hash_of};
ghost use Rattle.data_tree.specs.Trees.{TreeFits, IsTree};
ghost use Rattle.data_regions.specs.declared.region.Region.{Region};
ghost use Rattle.data_regions.specs.Regions.{AllWellFormed};

use crate::shared;
use data_cells::counter::Counter;
use data_cells::hash::Hash;
use data_cells::list;
use data_effects::insert::Insert;
use data_regions::laws::memories_stay_good;
use data_regions::region::{Region, Regions, Structure};
use data_tree::tree::Tree;
use std::alloc::{AllocError, Global};
use std::test::Fail;
use stm_model::access::Access;
use stm_model::plain::Plain;
use stm_model::stop::Stop;

/// A plain memory of zeros, in which each region is well-formed.
fn zeros(alloc: Global, words: usize) -> Result<Plain, AllocError>
    ensures words { IfOk result (λ p. length p ≡ words) }
    ensures good { IfOk result (λ p.
        (regions : List Region) → AllWellFormed regions (overlay (openings p) (own_writes p))) }
{
    let memory = shared::zeros(alloc, words)?;
    memories_stay_good();
    Ok(memory)
}

/// The words other than 0, as address and value.
fn filled(alloc: Global, memory: &Plain) -> Result<Vec<(usize, u64)>, AllocError> {
    let mut pairs = Vec::new(alloc);
    for (address, word) in memory.words().iter().enumerate() {
        let value = word.value();
        if value != 0 {
            pairs.push((address, value))?;
        }
    }
    Ok(pairs)
}

/// Adds a key twice, asks for it, and counts.
fn adds_twice<A: Access>(
    acc: &mut A,
    keys: &list::List,
    key: u32,
) -> Result<(Insert, Insert, bool, u64), Stop>
    requires going { A.stopped acc.old ≡ None }
    requires within { ChainsFit (list_of keys.now) (A.words acc.old) }
    requires well { Under (A.good acc.old) (A.words acc.old) (A.log acc.old)
        (IsChains (list_of keys.now)) }
{
    let first = keys.insert(acc, key)?;
    let again = keys.insert(acc, key)?;
    let has = keys.contains(acc, key)?;
    let len = keys.len(acc)?;
    Ok((first, again, has, len))
}

/// Adds three keys in turn, and then takes the first out.
fn adds_three<A: Access>(
    acc: &mut A,
    keys: &list::List,
    three: [u32; 3],
) -> Result<(Insert, Insert, Insert, bool), Stop>
    requires going { A.stopped acc.old ≡ None }
    requires within { ChainsFit (list_of keys.now) (A.words acc.old) }
    requires well { Under (A.good acc.old) (A.words acc.old) (A.log acc.old)
        (IsChains (list_of keys.now)) }
{
    let first = keys.insert(acc, three[0])?;
    let second = keys.insert(acc, three[1])?;
    let third = keys.insert(acc, three[2])?;
    let was_there = keys.remove(acc, three[0])?;
    Ok((first, second, third, was_there))
}

/// Adds two keys to a hash set, asks for the first, and takes a third out.
fn hashes<A: Access>(
    acc: &mut A,
    hash: &Hash,
    keys: [u32; 3],
) -> Result<(Insert, Insert, bool, bool), Stop>
    requires going { A.stopped acc.old ≡ None }
    requires within { ChainsFit (hash_of hash.now) (A.words acc.old) }
    requires well { Under (A.good acc.old) (A.words acc.old) (A.log acc.old)
        (IsChains (hash_of hash.now)) }
{
    let first = hash.insert(acc, keys[0])?;
    let second = hash.insert(acc, keys[1])?;
    let has = hash.contains(acc, keys[0])?;
    let was_there = hash.remove(acc, keys[2])?;
    Ok((first, second, has, was_there))
}

/// Adds to a stripe, and sums.
fn counts<A: Access>(
    acc: &mut A,
    counter: &Counter,
    stripe: usize,
    amount: u64,
) -> Result<(u64, u64), Stop>
    requires going { A.stopped acc.old ≡ None }
    requires within { StripesFit counter.now (A.words acc.old) }
    requires stripe { stripe < counter.now.stripes }
{
    let stripe = counter.add(acc, stripe, amount)?;
    let total = counter.total(acc)?;
    Ok((stripe, total))
}

/// Adds four keys, takes the first out, asks for the second, and for the least.
fn takes_out<A: Access>(
    acc: &mut A,
    tree: &Tree,
    keys: [u32; 4],
) -> Result<(Insert, bool, bool, Option<u32>), Stop>
    requires going { A.stopped acc.old ≡ None }
    requires within { TreeFits tree.now (A.words acc.old) }
    requires well { Under (A.good acc.old) (A.words acc.old) (A.log acc.old) (IsTree tree.now) }
{
    tree.insert(acc, keys[0])?;
    tree.insert(acc, keys[1])?;
    tree.insert(acc, keys[2])?;
    let last = tree.insert(acc, keys[3])?;
    let was_there = tree.remove(acc, keys[0])?;
    let has = tree.contains(acc, keys[1])?;
    let least = tree.min(acc)?;
    Ok((last, was_there, has, least))
}

/// The words other than 0 of a memory, as address and value.
type Words = &'static [(usize, u64)];

/// A list at 128 with one key.
const LISTED: Words = &[(128, 1), (129, 6)];

/// A full list at 1, whose third key found no cell, once its first key was taken out.
const REFILLED: Words = &[(1, 2), (4, 5)];

#[test]
fn lists(rt: HostRuntime) -> Result<(), Fail> {
    let alloc = rt.alloc();
    let mut memory = zeros(alloc, 1024)?;
    let replies = adds_twice(&mut memory, &list::List::new(128, 32), 5);
    assert_eq!(rt; replies, Ok((Insert::Added, Insert::Present, true, 1)));
    assert_eq!(rt; filled(alloc, &memory)?.as_slice(), LISTED);

    let mut small = zeros(alloc, 6)?;
    let replies = adds_three(&mut small, &list::List::new(1, 2), [9, 4, 6]);
    assert_eq!(rt;
        replies,
        Ok((Insert::Added, Insert::Added, Insert::NoRoom, true))
    );
    assert_eq!(rt; filled(alloc, &small)?.as_slice(), REFILLED);
    Ok(())
}

/// A hash set at 256 with the keys 17 and 1.
const HASHED: Words = &[(257, 2), (272, 18), (274, 2), (275, 1)];

/// A counter at 64 whose stripe 1 has 5.
const COUNTED: Words = &[(65, 5)];

#[test]
fn hashes_and_counts(rt: HostRuntime) -> Result<(), Fail> {
    let alloc = rt.alloc();
    let mut memory = zeros(alloc, 1024)?;
    let replies = hashes(&mut memory, &Hash::new(256, 64), [17, 1, 2]);
    assert_eq!(rt; replies, Ok((Insert::Added, Insert::Added, true, false)));
    assert_eq!(rt; filled(alloc, &memory)?.as_slice(), HASHED);

    let mut counted = zeros(alloc, 1024)?;
    assert_eq!(rt;
        counts(&mut counted, &Counter::new(64, 4), 1, 5),
        Ok((5, 5))
    );
    assert_eq!(rt; filled(alloc, &counted)?.as_slice(), COUNTED);
    Ok(())
}

/// The words of a tree at 512 after four keys were added and the first, the root, was taken out.
fn tree_words(alloc: Global, keys: [u32; 4]) -> Result<Vec<(usize, u64)>, Fail> {
    let mut memory = zeros(alloc, 1024)?;
    let replies = takes_out(&mut memory, &Tree::new(512, 64), keys);
    if replies != Ok((Insert::Added, true, true, Some(2))) {
        return Ok(Vec::new(alloc));
    }
    Ok(filled(alloc, &memory)?)
}

/// Four keys, and the tree: the least on the root's right is the root's child, or below that.
const TREES: &[([u32; 4], Words)] = &[
    (
        [4, 2, 6, 7],
        &[(512, 1), (513, 7), (514, 2), (515, 4), (516, 3), (522, 8)],
    ),
    (
        [4, 2, 7, 6],
        &[(512, 1), (513, 7), (514, 2), (515, 3), (516, 3), (519, 8)],
    ),
];

#[test]
fn trees(rt: HostRuntime) -> Result<(), Fail> {
    for &(keys, words) in TREES {
        assert_eq!(rt; tree_words(rt.alloc(), keys)?.as_slice(), words);
    }
    Ok(())
}

#[test]
fn regions(rt: HostRuntime) -> Result<(), Fail> {
    let alloc = rt.alloc();
    let regions = Regions::version_one(alloc)?;
    assert_eq!(rt; regions.as_slice().len(), 4);
    assert_eq!(rt; regions.as_slice()[3], Region::Tree(Tree::new(512, 64)));
    assert_eq!(rt; Regions::none(alloc).as_slice().len(), 0);
    let one = vec![in alloc; Region::List(list::List::new(100, 4))]?;
    assert_eq!(rt; Regions::new(one).as_slice().len(), 1);
    Ok(())
}

/// How many words four stripes or cells take.
const SIZES: &[(Structure, usize)] = &[
    (Structure::Counter, 4),
    (Structure::List, 9),
    (Structure::Hash, 24),
    (Structure::Tree, 13),
    (Structure::Queue, 6),
    (Structure::SumMap, 21),
];

/// A structure's region has its words and no other, and ends where they do.
#[test]
fn words_of_regions(rt: HostRuntime) -> Result<(), Fail> {
    let mut regions = Regions::none(rt.alloc());
    for &(structure, words) in SIZES {
        let region = Region::new(structure, 10, 4);
        assert!(rt; region.structure().is(structure));
        assert_eq!(rt; region.start(), 10);
        let has = (
            region.has(9),
            region.has(10),
            region.has(9 + words),
            region.has(10 + words),
        );
        assert_eq!(rt; (structure, has), (structure, (false, true, true, false)));
        assert!(rt; region.ends_by(10 + words) && !region.ends_by(9 + words));
        regions.push(region)?;
    }
    assert!(rt; !Structure::Queue.is(Structure::SumMap));
    assert_eq!(rt; regions.copy(rt.alloc())?.as_slice(), regions.as_slice());
    Ok(())
}
