//! The structures that operations work on, and one operation on them over any access.
ghost use Rattle.std.specs.Prelude.{◌≡◌, ◌<◌, ◌^◌, None, Some, true, IfOk, IfErr};
ghost use Rattle.stm_model.specs.Logs.{IsReadStop};
ghost use Rattle.data_effects.specs.Accesses.{HoldsFor, LeadsOn};
ghost use Rattle.data_regions.specs.Regions.{AllWellFormed};
ghost use Rattle.work_script.specs.Operations.{OpFits, OnlyReads, effect_of, of_structure, structure_kind};
ghost use Rattle.data_regions.specs.declared.region.Structure.TheVariants as structures;
ghost use Rattle.work_script.specs.Accesses.{DoesFor};
ghost use Rattle.work_script.specs.Structures.{counter_in, list_in, hash_in, tree_in, queue_in, sum_map_in, insert_reply, bool_reply, least_reply, put_reply, map_put_reply, value_reply};

use crate::op::Op;
use data_cells::counter::Counter;
use data_cells::hash::Hash;
use data_cells::list::List;
use data_effects::insert::Insert;
use data_queue::queue::{Put, Queue};
use data_regions::region::{Region, Regions};
use data_sums::sum_map::{MapPut, SumMap};
use data_tree::tree::Tree;
use stm_model::access::Access;
use stm_model::stop::Stop;

/// The counter of this number; without stripes where there is none.
fn counter(regions: &Regions, region: usize) -> Counter
    ensures { result ≡ counter_in regions.now region }
{
    match regions.as_slice().get(region) {
        Some(Region::Counter(counter)) => *counter,
        _ => Counter::new(0, 0),
    }
}

/// The list of this number; without cells where there is none.
fn list(regions: &Regions, region: usize) -> List
    ensures { result ≡ list_in regions.now region }
{
    match regions.as_slice().get(region) {
        Some(Region::List(list)) => *list,
        _ => List::new(0, 0),
    }
}

/// The hash set of this number; without cells where there is none.
fn hash(regions: &Regions, region: usize) -> Hash
    ensures { result ≡ hash_in regions.now region }
{
    match regions.as_slice().get(region) {
        Some(Region::Hash(hash)) => *hash,
        _ => Hash::new(0, 0),
    }
}

/// The tree of this number; without cells where there is none.
fn tree(regions: &Regions, region: usize) -> Tree
    ensures { result ≡ tree_in regions.now region }
{
    match regions.as_slice().get(region) {
        Some(Region::Tree(tree)) => *tree,
        _ => Tree::new(0, 0),
    }
}

/// The queue of this number; without cells where there is none.
fn queue(regions: &Regions, region: usize) -> Queue
    ensures { result ≡ queue_in regions.now region }
{
    match regions.as_slice().get(region) {
        Some(Region::Queue(queue)) => *queue,
        _ => Queue::new(0, 0),
    }
}

/// The map with sums of this number; without cells where there is none.
fn sum_map(regions: &Regions, region: usize) -> SumMap
    ensures { result ≡ sum_map_in regions.now region }
{
    match regions.as_slice().get(region) {
        Some(Region::SumMap(sum_map)) => *sum_map,
        _ => SumMap::new(0, 0),
    }
}

/// What an insert replies.
fn insert_reply(insert: Insert) -> u64
    ensures { result ≡ insert_reply insert }
{
    match insert {
        Insert::Added => 1,
        Insert::Present => 0,
        Insert::NoRoom => 2,
    }
}

/// What a removal replies, and a question.
fn bool_reply(answer: bool) -> u64
    ensures { result ≡ bool_reply answer }
{
    if answer { 1 } else { 0 }
}

/// What the question for the least key replies, and a get out of a queue.
fn least_reply(least: Option<u32>) -> u64
    ensures { result ≡ least_reply least }
{
    match least {
        None => 0,
        Some(key) => key as u64 + 1,
    }
}

/// What a put into a queue replies.
fn put_reply(put: Put) -> u64
    ensures { result ≡ put_reply put }
{
    match put {
        Put::Added => 1,
        Put::NoRoom => 2,
    }
}

/// What a put into a map replies.
fn map_put_reply(put: MapPut) -> u64
    ensures { result ≡ map_put_reply put }
{
    match put {
        MapPut::Added => 1,
        MapPut::Replaced => 0,
        MapPut::NoRoom => 2,
    }
}

/// What the question for a value replies.
fn value_reply(value: Option<u64>) -> u64
    ensures { result ≡ value_reply value }
{
    match value {
        None => 0,
        Some(value) => value,
    }
}

/// An operation on a counter.
fn run_on_counter<A: Access>(acc: &mut A, regions: &Regions, op: Op) -> Result<u64, Stop>
    requires kind { structure_kind op ≡ Some structures.Counter }
    requires going { A.stopped acc.old ≡ None }
    requires within { OpFits regions.now (A.words acc.old) op }
    requires well { HoldsFor A.Access acc.old (AllWellFormed regions.now) }
    ensures reply { IfOk result (DoesFor A.Access acc.old acc.new (effect_of regions.now op)) }
    ensures range { IfOk result (λ r. r < 2 ^ 64) }
    ensures cause { OnlyReads op → IfErr result IsReadStop }
    ensures frame { LeadsOn A.Access acc.old acc.new result }
{
    match op {
        Op::Count(r, stripe, amount) => counter(regions, r).add(acc, stripe, amount),
        Op::Total(r) => counter(regions, r).total(acc),
        _ => unreachable!(),
    }
}

/// An operation on a list.
fn run_on_list<A: Access>(acc: &mut A, regions: &Regions, op: Op) -> Result<u64, Stop>
    requires kind { structure_kind op ≡ Some structures.List }
    requires going { A.stopped acc.old ≡ None }
    requires within { OpFits regions.now (A.words acc.old) op }
    requires well { HoldsFor A.Access acc.old (AllWellFormed regions.now) }
    ensures reply { IfOk result (DoesFor A.Access acc.old acc.new (effect_of regions.now op)) }
    ensures range { IfOk result (λ r. r < 2 ^ 64) }
    ensures cause { OnlyReads op → IfErr result IsReadStop }
    ensures frame { LeadsOn A.Access acc.old acc.new result }
{
    match op {
        Op::ListInsert(r, key) => Ok(insert_reply(list(regions, r).insert(acc, key)?)),
        Op::ListRemove(r, key) => Ok(bool_reply(list(regions, r).remove(acc, key)?)),
        Op::ListContains(r, key) => Ok(bool_reply(list(regions, r).contains(acc, key)?)),
        Op::ListLength(r) => list(regions, r).len(acc),
        _ => unreachable!(),
    }
}

/// An operation on a hash set.
fn run_on_hash<A: Access>(acc: &mut A, regions: &Regions, op: Op) -> Result<u64, Stop>
    requires kind { structure_kind op ≡ Some structures.Hash }
    requires going { A.stopped acc.old ≡ None }
    requires within { OpFits regions.now (A.words acc.old) op }
    requires well { HoldsFor A.Access acc.old (AllWellFormed regions.now) }
    ensures reply { IfOk result (DoesFor A.Access acc.old acc.new (effect_of regions.now op)) }
    ensures range { IfOk result (λ r. r < 2 ^ 64) }
    ensures cause { OnlyReads op → IfErr result IsReadStop }
    ensures frame { LeadsOn A.Access acc.old acc.new result }
{
    match op {
        Op::HashInsert(r, key) => Ok(insert_reply(hash(regions, r).insert(acc, key)?)),
        Op::HashRemove(r, key) => Ok(bool_reply(hash(regions, r).remove(acc, key)?)),
        Op::HashContains(r, key) => Ok(bool_reply(hash(regions, r).contains(acc, key)?)),
        _ => unreachable!(),
    }
}

/// An operation on a tree.
fn run_on_tree<A: Access>(acc: &mut A, regions: &Regions, op: Op) -> Result<u64, Stop>
    requires kind { structure_kind op ≡ Some structures.Tree }
    requires going { A.stopped acc.old ≡ None }
    requires within { OpFits regions.now (A.words acc.old) op }
    requires well { HoldsFor A.Access acc.old (AllWellFormed regions.now) }
    ensures reply { IfOk result (DoesFor A.Access acc.old acc.new (effect_of regions.now op)) }
    ensures range { IfOk result (λ r. r < 2 ^ 64) }
    ensures cause { OnlyReads op → IfErr result IsReadStop }
    ensures frame { LeadsOn A.Access acc.old acc.new result }
{
    match op {
        Op::TreeInsert(r, key) => Ok(insert_reply(tree(regions, r).insert(acc, key)?)),
        Op::TreeRemove(r, key) => Ok(bool_reply(tree(regions, r).remove(acc, key)?)),
        Op::TreeContains(r, key) => Ok(bool_reply(tree(regions, r).contains(acc, key)?)),
        Op::TreeLeast(r) => Ok(least_reply(tree(regions, r).min(acc)?)),
        _ => unreachable!(),
    }
}

/// An operation on a queue.
fn run_on_queue<A: Access>(acc: &mut A, regions: &Regions, op: Op) -> Result<u64, Stop>
    requires kind { structure_kind op ≡ Some structures.Queue }
    requires going { A.stopped acc.old ≡ None }
    requires within { OpFits regions.now (A.words acc.old) op }
    requires well { HoldsFor A.Access acc.old (AllWellFormed regions.now) }
    ensures reply { IfOk result (DoesFor A.Access acc.old acc.new (effect_of regions.now op)) }
    ensures range { IfOk result (λ r. r < 2 ^ 64) }
    ensures cause { OnlyReads op → IfErr result IsReadStop }
    ensures frame { LeadsOn A.Access acc.old acc.new result }
{
    match op {
        Op::QueuePut(r, value) => Ok(put_reply(queue(regions, r).put(acc, value)?)),
        Op::QueueGet(r) => Ok(least_reply(queue(regions, r).get(acc)?)),
        _ => unreachable!(),
    }
}

/// An operation on a map with sums.
fn run_on_map<A: Access>(acc: &mut A, regions: &Regions, op: Op) -> Result<u64, Stop>
    requires kind { structure_kind op ≡ Some structures.SumMap }
    requires going { A.stopped acc.old ≡ None }
    requires within { OpFits regions.now (A.words acc.old) op }
    requires well { HoldsFor A.Access acc.old (AllWellFormed regions.now) }
    ensures reply { IfOk result (DoesFor A.Access acc.old acc.new (effect_of regions.now op)) }
    ensures range { IfOk result (λ r. r < 2 ^ 64) }
    ensures cause { OnlyReads op → IfErr result IsReadStop }
    ensures frame { LeadsOn A.Access acc.old acc.new result }
{
    match op {
        Op::MapPut(r, key, value) => Ok(map_put_reply(sum_map(regions, r).put(acc, key, value)?)),
        Op::MapRemove(r, key) => Ok(bool_reply(sum_map(regions, r).remove(acc, key)?)),
        Op::MapGet(r, key) => Ok(value_reply(sum_map(regions, r).get(acc, key)?)),
        Op::MapSum(r, low, high) => sum_map(regions, r).sum(acc, low, high),
        _ => unreachable!(),
    }
}

/// Runs an operation on a structure, and answers its reply.
///
/// # Errors
/// The Stop of the access. Never ClockFull where the operation only reads.
pub fn run_on_structure<A: Access>(acc: &mut A, regions: &Regions, op: Op) -> Result<u64, Stop>
    requires on_structure { of_structure op ≡ true }
    requires going { A.stopped acc.old ≡ None }
    requires within { OpFits regions.now (A.words acc.old) op }
    requires well { HoldsFor A.Access acc.old (AllWellFormed regions.now) }
    ensures reply { IfOk result (DoesFor A.Access acc.old acc.new (effect_of regions.now op)) }
    ensures range { IfOk result (λ r. r < 2 ^ 64) }
    ensures cause { OnlyReads op → IfErr result IsReadStop }
    ensures frame { LeadsOn A.Access acc.old acc.new result }
{
    match op {
        Op::Count(_, _, _) | Op::Total(_) => run_on_counter(acc, regions, op),
        Op::ListInsert(_, _) | Op::ListRemove(_, _) | Op::ListContains(_, _) | Op::ListLength(_) =>
            run_on_list(acc, regions, op),
        Op::HashInsert(_, _) | Op::HashRemove(_, _) | Op::HashContains(_, _) => run_on_hash(
            acc, regions, op,
        ),
        Op::TreeInsert(_, _) | Op::TreeRemove(_, _) | Op::TreeContains(_, _) | Op::TreeLeast(_) =>
            run_on_tree(acc, regions, op),
        Op::QueuePut(_, _) | Op::QueueGet(_) => run_on_queue(acc, regions, op),
        Op::MapPut(_, _, _) | Op::MapRemove(_, _) | Op::MapGet(_, _) | Op::MapSum(_, _, _) =>
            run_on_map(acc, regions, op),
        _ => unreachable!(),
    }
}
