//! A whole small program over the names of this crate alone: two stocks on a shelf that has room for so many
//! pieces.
ghost use Rattle.std.specs.Prelude.{◌≡◌, ◌<◌, true, false};
ghost use Rattle.stm_rule.specs.Callers.{IsOf, IsSameCaller};
ghost use Rattle.stm_answers.specs.CallerState.{IsIdle, IsRunning, no_log};
ghost use Rattle.stm_tx.specs.Descs.{known};

use crate::calls_tests::commit_for_answer;
use std::alloc::Global;
use std::test::Fail;
use stm_tx::calls::{cancel, read, try_begin, try_irrevocable, write};
use stm_tx::{Begin, Commit, Config, Desc, Irrev, MemRule, NewError, Read, Stm, Write, close};

/// The rule that a transaction may rely on, and has to keep: the words 0 and 1 are two stocks, which together
/// are at most `room` pieces.
#[derive(Clone, Copy, Drop, Debug, PartialEq, Eq)]
struct Shelf {
    room: u32,
}

impl MemRule for Shelf {
    ghost use Rattle.std.specs.Prelude.{◌+◌, ◌≤◌, slice_index};

    ghost good = { λ shelf memory. slice_index memory 0 + slice_index memory 1 ≤ shelf.room };
}

/// Begins an attempt, which asks to be irrevocable where `irrevocable` says so. Answers whether it runs; else it is to
/// be tried again.
fn begin(desc: &mut Desc<Shelf>, stm: &Stm<Shelf>, irrevocable: bool) -> bool
    requires stm { IsOf desc.old stm.now }
    requires idle { IsIdle (known desc.old) }
    requires plain { stm.now.config.fence ≡ false }
    ensures same { IsSameCaller desc.old desc.new }
    ensures runs { result ≡ true
        → IsRunning (known desc.new) × ((known desc.new).log ≡ no_log)
        × ((known desc.new).fence ≡ 0) }
    ensures over { result ≡ false → IsIdle (known desc.new) }
{
    let Begin::Begun(_) = try_begin(desc, stm) else {
        return false;
    };
    if !irrevocable {
        return true;
    }
    match try_irrevocable(desc, stm) {
        Irrev::Granted => true,
        Irrev::Busy { .. } | Irrev::Taken { .. } => {
            cancel(desc, stm);
            false
        }
        Irrev::Conflict(_) | Irrev::ClockFull { .. } => false,
    }
}

/// One attempt to put a piece on a stock, 0 or 1. Answers whether there was room for it, or None where it is
/// to be tried again.
fn try_put(
    desc: &mut Desc<Shelf>,
    stm: &Stm<Shelf>,
    stock: usize,
    irrevocable: bool,
) -> Option<bool>
    requires stm { IsOf desc.old stm.now }
    requires idle { IsIdle (known desc.old) }
    requires stock { (stock < 2) × (1 < stm.now.config.words) }
    requires plain { stm.now.config.fence ≡ false }
    ensures same { IsSameCaller desc.old desc.new }
    ensures idle { IsIdle (known desc.new) }
{
    if !begin(desc, stm, irrevocable) {
        return None;
    }
    let Read::Value(left) = read(desc, stm, 0) else {
        return None;
    };
    let Read::Value(right) = read(desc, stm, 1) else {
        return None;
    };
    let room = u64::from(stm.rule.room);
    // the sum can't wrap: what was read is of a memory that the rule calls good
    let has_room = left + right < room;
    if has_room {
        let pieces = if stock == 0 { left } else { right };
        let Write::Done = write(desc, stm, stock, pieces + 1) else {
            return None;
        };
    }
    match commit_for_answer(desc, stm) {
        Commit::Committed { .. } | Commit::ReadOnly { .. } => Some(has_room),
        Commit::Conflict(_) | Commit::ClockFull { .. } => None,
        Commit::Again { .. } => {
            cancel(desc, stm);
            None
        }
    }
}

/// Puts a piece on a stock, in at most so many attempts, the last of which asks to be irrevocable: None where
/// each was in another's way.
fn put(desc: &mut Desc<Shelf>, stm: &Stm<Shelf>, stock: usize, attempts: u32) -> Option<bool>
    requires stm { IsOf desc.old stm.now }
    requires idle { IsIdle (known desc.old) }
    requires stock { (stock < 2) × (1 < stm.now.config.words) }
    requires plain { stm.now.config.fence ≡ false }
    ensures same { IsSameCaller desc.old desc.new }
    ensures idle { IsIdle (known desc.new) }
{
    for attempt in 0..attempts {
        let irrevocable = attempt + 1 == attempts;
        if let Some(had_room) = try_put(desc, stm, stock, irrevocable) {
            return Some(had_room);
        }
    }
    None
}

/// A shelf for three pieces, on which two callers put four. Answers what each put came to, and the stocks.
fn fill(alloc: Global) -> Result<([Option<bool>; 4], Vec<u64>), NewError> {
    let config = Config {
        words: 2,
        records: 1,
        ring: 2,
        callers: 2,
        reads: 8,
        writes: 8,
        clock: 0,
        fence: false,
        marks: 0,
    };
    let (stm, mut descs) = Stm::new(alloc, config, Shelf { room: 3 })?;
    let Some(mut second) = descs.pop() else {
        unreachable!()
    };
    let Some(mut first) = descs.pop() else {
        unreachable!()
    };
    let one = put(&mut first, &stm, 0, 8);
    let two = put(&mut second, &stm, 1, 8);
    let three = put(&mut second, &stm, 1, 8);
    // what caller 1 begins from here on has seen all that caller 0 had
    let note = first.tell(&stm);
    second.learn(&stm, note);
    let four = put(&mut second, &stm, 0, 1);
    descs.push_reserved(first);
    descs.push_reserved(second);
    match close(alloc, stm, descs) {
        Ok((words, _closed)) => Ok(([one, two, three, four], words)),
        Err((_stm, _descs, _memory)) => Err(NewError::Memory),
    }
}

#[test]
fn a_shelf_is_filled(rt: HostRuntime) -> Result<(), Fail> {
    let (puts, stocks) = fill(rt.alloc())?;
    assert_eq!(rt; puts, [Some(true), Some(true), Some(true), Some(false)]);
    assert_eq!(rt; stocks.as_slice(), [1, 2].as_slice());
    Ok(())
}
