//! Calls over a plain memory: random ones, against a plain list of the values, and the words that a few leave.
ghost use Rattle.std.specs.Prelude.{◌≡◌, ◌<◌, ◌≤◌, ◌+◌, ◌*◌, ◌^◌, None, Some, OnOk, IfErr, length};
ghost use Rattle.data_effects.specs.Effects.{Under};
ghost use Rattle.data_queue.specs.Queues.{QueueFits, IsQueue};

use crate::shared::{next, zeros};
use data_queue::laws::queues_are_apart;
use data_queue::queue::{Put, Queue};
use std::alloc::Global;
use std::test::Fail;
use stm_model::access::Access;
use stm_model::stop::Stop;

/// Puts the value in, and answers whether it was added exactly where there was room.
fn put_agrees<A: Access>(acc: &mut A, queue: &Queue, value: u32, room: bool) -> Result<bool, Stop>
    requires going { A.stopped acc.old ≡ None }
    requires within { QueueFits queue.now (A.words acc.old) }
    requires well { Under (A.good acc.old) (A.words acc.old) (A.log acc.old) (IsQueue queue.now) }
    ensures going { OnOk result (A.stopped acc.new ≡ None) }
    ensures words { OnOk result (A.words acc.new ≡ A.words acc.old) }
    ensures well { OnOk result
        (Under (A.good acc.new) (A.words acc.new) (A.log acc.new) (IsQueue queue.now)) }
{
    let reply = queue.put(acc, value)?;
    Ok((reply == Put::Added) == room)
}

/// Takes the first value out, and answers whether it is this.
fn get_agrees<A: Access>(acc: &mut A, queue: &Queue, first: Option<u32>) -> Result<bool, Stop>
    requires going { A.stopped acc.old ≡ None }
    requires within { QueueFits queue.now (A.words acc.old) }
    requires well { Under (A.good acc.old) (A.words acc.old) (A.log acc.old) (IsQueue queue.now) }
    ensures going { OnOk result (A.stopped acc.new ≡ None) }
    ensures words { OnOk result (A.words acc.new ≡ A.words acc.old) }
    ensures well { OnOk result
        (Under (A.good acc.new) (A.words acc.new) (A.log acc.new) (IsQueue queue.now)) }
{
    Ok(queue.get(acc)? == first)
}

/// Random puts and gets, as many as `values` has room for. Whether each reply is that of a plain list: the values
/// from the index `taken` to the index `added`.
fn replies_agree<A: Access>(
    acc: &mut A,
    queue: &Queue,
    seed: u64,
    values: &mut [u32],
) -> Result<bool, Stop>
    requires going { A.stopped acc.old ≡ None }
    requires within { QueueFits queue.now (A.words acc.old) }
    requires well { Under (A.good acc.old) (A.words acc.old) (A.log acc.old) (IsQueue queue.now) }
{
    let mut draw = seed;
    let mut added: usize = 0;
    let mut taken: usize = 0;
    for _call in 0..values.len() {
        draw = next(draw);
        let value = (draw >> 32) as u32;
        let room = added - taken < queue.cells;
        let agrees = if value % 8 < 5 {
            if room {
                values[added] = value;
                added += 1;
            }
            put_agrees(acc, queue, value, room)?
        } else if taken < added {
            taken += 1;
            get_agrees(acc, queue, Some(values[taken - 1]))?
        } else {
            get_agrees(acc, queue, None)?
        };
        if !agrees || queue.len(acc)? != (added - taken) as u64 {
            return Ok(false);
        }
    }
    Ok(true)
}

/// Whether random calls on a queue of that many cells reply as on a plain list.
fn is_a_list(alloc: Global, at: usize, cells: usize) -> Result<bool, Fail>
    requires some { 0 < cells }
    requires small { at + cells < 2 ^ 32 }
{
    queues_are_apart();
    let mut memory = zeros(alloc, at + 2 + cells)?;
    let mut values = vec![in alloc; 0; 2000]?;
    let replies = replies_agree(
        &mut memory,
        &Queue::new(at, cells),
        cells as u64,
        values.as_mut_slice(),
    );
    Ok(replies == Ok(true))
}

#[test]
fn random_calls_reply_as_on_a_list(rt: HostRuntime) -> Result<(), Fail> {
    assert_eq!(rt; is_a_list(rt.alloc(), 0, 1)?, true);
    assert_eq!(rt; is_a_list(rt.alloc(), 3, 2)?, true);
    assert_eq!(rt; is_a_list(rt.alloc(), 1, 3)?, true);
    assert_eq!(rt; is_a_list(rt.alloc(), 9, 17)?, true);
    Ok(())
}

/// Puts three values in, takes two out, and puts two more in. Answers which calls reply as on a list.
fn goes_round<A: Access>(acc: &mut A, queue: &Queue) -> Result<[bool; 7], Stop>
    requires going { A.stopped acc.old ≡ None }
    requires within { QueueFits queue.now (A.words acc.old) }
    requires well { Under (A.good acc.old) (A.words acc.old) (A.log acc.old) (IsQueue queue.now) }
{
    Ok([
        put_agrees(acc, queue, 10, true)?,
        put_agrees(acc, queue, 11, true)?,
        put_agrees(acc, queue, 12, true)?,
        get_agrees(acc, queue, Some(10))?,
        get_agrees(acc, queue, Some(11))?,
        put_agrees(acc, queue, 13, true)?,
        put_agrees(acc, queue, 14, true)?,
    ])
}

/// The words of a queue at 1 that went round: its front is cell 2, and the cells after it are 0 and 1.
const ROUND: &[u64] = &[0, 2, 3, 13, 14, 12, 0];

#[test]
fn the_ring_wraps(rt: HostRuntime) -> Result<(), Fail> {
    queues_are_apart();
    let mut memory = zeros(rt.alloc(), 7)?;
    let replies = goes_round(&mut memory, &Queue::new(1, 3));
    assert_eq!(rt; replies, Ok([true; 7]));
    let mut words = Vec::new(rt.alloc());
    for word in memory.words() {
        words.push(word.value())?;
    }
    assert_eq!(rt; words.as_slice(), ROUND);
    Ok(())
}
