//! Calls over a plain memory, against a plain map: the value of each key, by key.
ghost use Rattle.std.specs.Prelude.{◌≡◌, ◌<◌, ◌≤◌, ◌+◌, ◌*◌, ◌^◌, None, Some, OnOk, IfErr, length};
ghost use Rattle.data_effects.specs.Effects.{Under};
ghost use Rattle.data_sums.specs.Sums.{SumMapFits, IsSumMap};

use crate::shared::{next, zeros};
use data_sums::laws::maps_are_apart;
use data_sums::sum_map::{MapPut, SumMap};
use std::alloc::Global;
use std::test::Fail;
use stm_model::access::Access;
use stm_model::stop::Stop;

/// The sum of the values from the key `lo` to the key `hi`.
fn plain_sum(values: &[Option<u64>], lo: usize, hi: usize) -> u64 {
    let mut sum: u64 = 0;
    for (key, value) in values.iter().enumerate() {
        if lo <= key && key <= hi {
            sum = sum.wrapping_add(value.unwrap_or(0));
        }
    }
    sum
}

/// Puts the value, and answers whether the reply is that of a plain map.
fn put_agrees<A: Access>(
    acc: &mut A,
    map: &SumMap,
    values: &mut [Option<u64>],
    key: usize,
    value: u64,
) -> Result<bool, Stop>
    requires going { A.stopped acc.old ≡ None }
    requires within { SumMapFits map.now (A.words acc.old) }
    requires well { Under (A.good acc.old) (A.words acc.old) (A.log acc.old) (IsSumMap map.now) }
    requires key { (key < length values.old) × (length values.old < 2 ^ 32) }
    ensures going { OnOk result (A.stopped acc.new ≡ None) }
    ensures words { OnOk result (A.words acc.new ≡ A.words acc.old) }
    ensures well { OnOk result
        (Under (A.good acc.new) (A.words acc.new) (A.log acc.new) (IsSumMap map.now)) }
    ensures values { length values.new ≡ length values.old }
{
    let used = values.iter().filter(|value| value.is_some()).count();
    let expected = if values[key].is_some() {
        MapPut::Replaced
    } else if used < map.cells {
        MapPut::Added
    } else {
        MapPut::NoRoom
    };
    let reply = map.put(acc, key as u32, value)?;
    if expected != MapPut::NoRoom {
        values[key] = Some(value);
    }
    Ok(reply == expected)
}

/// Takes the key out, and answers whether the reply is that of a plain map.
fn remove_agrees<A: Access>(
    acc: &mut A,
    map: &SumMap,
    values: &mut [Option<u64>],
    key: usize,
) -> Result<bool, Stop>
    requires going { A.stopped acc.old ≡ None }
    requires within { SumMapFits map.now (A.words acc.old) }
    requires well { Under (A.good acc.old) (A.words acc.old) (A.log acc.old) (IsSumMap map.now) }
    requires key { (key < length values.old) × (length values.old < 2 ^ 32) }
    ensures going { OnOk result (A.stopped acc.new ≡ None) }
    ensures words { OnOk result (A.words acc.new ≡ A.words acc.old) }
    ensures well { OnOk result
        (Under (A.good acc.new) (A.words acc.new) (A.log acc.new) (IsSumMap map.now)) }
    ensures values { length values.new ≡ length values.old }
{
    let expected = values[key].is_some();
    let reply = map.remove(acc, key as u32)?;
    values[key] = None;
    Ok(reply == expected)
}

/// Whether each value, and the sum between each pair of bounds, is that of the plain map.
fn replies_agree<A: Access>(acc: &mut A, map: &SumMap, values: &[Option<u64>]) -> Result<bool, Stop>
    requires going { A.stopped acc.old ≡ None }
    requires within { SumMapFits map.now (A.words acc.old) }
    requires well { Under (A.good acc.old) (A.words acc.old) (A.log acc.old) (IsSumMap map.now) }
    requires few { (0 < length values.now) × (length values.now < 2 ^ 16) }
    ensures going { OnOk result (A.stopped acc.new ≡ None) }
    ensures words { OnOk result (A.words acc.new ≡ A.words acc.old) }
    ensures well { OnOk result
        (Under (A.good acc.new) (A.words acc.new) (A.log acc.new) (IsSumMap map.now)) }
{
    let keys = values.len();
    for pair in 0..keys * keys {
        let lo = pair % keys;
        let hi = pair / keys;
        if map.get(acc, lo as u32)? != values[lo] {
            return Ok(false);
        }
        if map.sum(acc, lo as u32, hi as u32)? != plain_sum(values, lo, hi) {
            return Ok(false);
        }
    }
    Ok(true)
}

/// In which order keys are put.
#[derive(Clone, Copy, Drop, Debug, PartialEq, Eq)]
enum Order {
    Ascending,
    Descending,
    Random,
}

/// The key of a call.
fn key_of(order: Order, call: usize, draw: u64, keys: usize) -> usize
    requires some { 0 < keys }
    ensures { result < keys }
{
    match order {
        Order::Ascending => call % keys,
        Order::Descending => keys - 1 - call % keys,
        Order::Random => (draw >> 33) as usize % keys,
    }
}

/// Makes that many calls, puts of random values, whose sums wrap, and removals where it says so, and then asks for
/// all. Whether all replies are those of a plain map.
fn calls_agree<A: Access>(
    acc: &mut A,
    map: &SumMap,
    values: &mut [Option<u64>],
    order: Order,
    calls: usize,
    removes: bool,
) -> Result<bool, Stop>
    requires going { A.stopped acc.old ≡ None }
    requires within { SumMapFits map.now (A.words acc.old) }
    requires well { Under (A.good acc.old) (A.words acc.old) (A.log acc.old) (IsSumMap map.now) }
    requires few { (0 < length values.old) × (length values.old < 2 ^ 16) }
{
    let mut draw: u64 = 1;
    for call in 0..calls {
        draw = next(draw);
        let key = key_of(order, call, draw, values.len());
        let agrees = if removes && (draw >> 40) % 8 < 3 {
            remove_agrees(acc, map, values, key)?
        } else {
            put_agrees(acc, map, values, key, draw)?
        };
        if !agrees {
            return Ok(false);
        }
    }
    replies_agree(acc, map, values)
}

/// Whether calls on a map of that many cells reply as on a plain one, for twenty keys.
fn is_a_map(
    alloc: Global,
    at: usize,
    cells: usize,
    order: Order,
    calls: usize,
    removes: bool,
) -> Result<bool, Fail>
    requires small { (at < 2 ^ 32) × (cells < 2 ^ 32) }
{
    maps_are_apart();
    let mut memory = zeros(alloc, at + 1 + 5 * cells)?;
    let mut values = vec![in alloc; None; 20]?;
    let replies = calls_agree(
        &mut memory,
        &SumMap::new(at, cells),
        values.as_mut_slice(),
        order,
        calls,
        removes,
    );
    Ok(replies == Ok(true))
}

/// Where a map stands, its cells, in which order keys are put, how many calls, and whether some of them remove.
type Case = (u32, u32, Order, usize, bool);

const CASES: &[Case] = &[
    (0, 0, Order::Random, 3, true),
    (3, 1, Order::Ascending, 20, false),
    (1, 9, Order::Ascending, 30, false),
    (1, 20, Order::Descending, 30, false),
    (2, 13, Order::Random, 60, true),
    (0, 20, Order::Random, 90, false),
    (0, 20, Order::Random, 400, true),
    (5, 20, Order::Ascending, 200, true),
];

#[test]
fn calls_reply_as_on_a_plain_map(rt: HostRuntime) -> Result<(), Fail> {
    for &(at, cells, order, calls, removes) in CASES {
        let agrees = is_a_map(
            rt.alloc(),
            at as usize,
            cells as usize,
            order,
            calls,
            removes,
        )?;
        assert_eq!(rt; (at, cells, order, agrees), (at, cells, order, true));
    }
    Ok(())
}

/// Puts four values, and adds up between the second key and the third.
fn puts_four<A: Access>(
    acc: &mut A,
    map: &SumMap,
    pairs: [(u32, u64); 4],
) -> Result<(MapPut, MapPut, u64), Stop>
    requires going { A.stopped acc.old ≡ None }
    requires within { SumMapFits map.now (A.words acc.old) }
    requires well { Under (A.good acc.old) (A.words acc.old) (A.log acc.old) (IsSumMap map.now) }
{
    map.put(acc, pairs[0].0, pairs[0].1)?;
    map.put(acc, pairs[1].0, pairs[1].1)?;
    let third = map.put(acc, pairs[2].0, pairs[2].1)?;
    let fourth = map.put(acc, pairs[3].0, pairs[3].1)?;
    let sum = map.sum(acc, pairs[1].0, pairs[2].0)?;
    Ok((third, fourth, sum))
}

/// The words of a map at 1: its root, and the cells of the keys 5, 3 and 9, each with its value and the sum below it.
const SUMMED: &[u64] = &[
    0,
    1,
    6,
    2,
    3,
    11,
    30,
    4,
    0,
    0,
    20,
    20,
    10,
    0,
    0,
    u64::MAX,
    u64::MAX,
];

#[test]
fn sums_stand_in_the_cells(rt: HostRuntime) -> Result<(), Fail> {
    maps_are_apart();
    let mut memory = zeros(rt.alloc(), 17)?;
    let pairs = [(5, 10), (3, 20), (9, u64::MAX), (5, 11)];
    let replies = puts_four(&mut memory, &SumMap::new(1, 3), pairs);
    assert_eq!(rt; replies, Ok((MapPut::Added, MapPut::Replaced, 30)));
    let mut words = Vec::new(rt.alloc());
    for word in memory.words() {
        words.push(word.value())?;
    }
    assert_eq!(rt; words.as_slice(), SUMMED);
    Ok(())
}
