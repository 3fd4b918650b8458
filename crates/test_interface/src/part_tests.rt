//! A part of a transaction that is taken back, as a program of a library's user has it.
ghost use Rattle.std.specs.Prelude.{◌≡◌, ◌<◌, IsSome, true, false};
ghost use Rattle.stm_rule.specs.Callers.{IsOf, IsSameCaller, AllOpened};
ghost use Rattle.stm_answers.specs.CallerState.{IsIdle, IsRunning};
ghost use Rattle.stm_tx.specs.Descs.{known};

use crate::calls_tests::{PAIR, switch};
use std::alloc::Global;
use std::test::Fail;
use stm_tx::calls::{commit, read, try_begin, write};
use stm_tx::nesting::{checkpoint, release, roll_to};
use stm_tx::{
    ALGORITHMS, Alg, AnyMem, Begin, Check, Commit, Config, Desc, NewError, Read, Roll, Stm, Write,
};

/// Adds to a word, and answers what it then is, modulo 2^64.
fn add(desc: &mut Desc<AnyMem>, stm: &Stm<AnyMem>, a: usize, n: u64) -> Option<u64>
    requires stm { IsOf desc.old stm.now }
    requires running { IsRunning (known desc.old) }
    requires words { a < stm.now.config.words }
    requires unfenced { (known desc.old).fence ≡ 0 }
    ensures same { IsSameCaller desc.old desc.new }
    ensures runs { IsSome result
        → IsRunning (known desc.new) × ((known desc.new).fence ≡ 0)
        × ((known desc.new).alg ≡ (known desc.old).alg)
        × ((known desc.new).depth ≡ (known desc.old).depth) }
{
    let Read::Value(old) = read(desc, stm, a) else {
        return None;
    };
    let new = old.wrapping_add(n);
    let Write::Done = write(desc, stm, a, new) else {
        return None;
    };
    Some(new)
}

/// Takes a piece off stock 0 and puts it on stock 1, which has room for `room`; where that was full, on stock 2.
/// Answers on which, or None where it is to be tried again.
fn move_piece(desc: &mut Desc<AnyMem>, stm: &Stm<AnyMem>, room: u64) -> Option<usize>
    requires stm { IsOf desc.old stm.now }
    requires running { IsRunning (known desc.old) }
    requires words { 2 < stm.now.config.words }
    requires unfenced { (known desc.old).fence ≡ 0 }
    ensures same { IsSameCaller desc.old desc.new }
    ensures runs { IsSome result → IsRunning (known desc.new) × ((known desc.new).fence ≡ 0) }
{
    let Check::Marked { depth } = checkpoint(desc) else {
        return None;
    };
    add(desc, stm, 0, u64::MAX)?;
    let count = add(desc, stm, 1, 1)?;
    if count <= room {
        release(desc, depth);
        return Some(1);
    }
    let Roll::Rolled = roll_to(desc, stm, depth) else {
        return None;
    };
    add(desc, stm, 0, u64::MAX)?;
    add(desc, stm, 2, 1)?;
    Some(2)
}

/// On which stock a piece was put that was taken off the three of stock 0, how the transaction ended, and the stocks
/// then.
type Moved = (usize, Commit, [u64; 3]);

/// Takes a piece off the three of stock 0, under this algorithm.
fn moves(desc: &mut Desc<AnyMem>, stm: &Stm<AnyMem>, alg: Alg, room: u64) -> Option<Moved>
    requires stm { IsOf desc.old stm.now }
    requires idle { IsIdle (known desc.old) }
    requires words { 2 < stm.now.config.words }
    requires plain { stm.now.config.fence ≡ false }
{
    if !switch(stm, desc, alg) {
        return None;
    }
    let Begin::Begun(_) = try_begin(desc, stm) else {
        return None;
    };
    let Write::Done = write(desc, stm, 0, 3) else {
        return None;
    };
    let stock = move_piece(desc, stm, room)?;
    let Read::Value(left) = read(desc, stm, 0) else {
        return None;
    };
    let Read::Value(middle) = read(desc, stm, 1) else {
        return None;
    };
    let Read::Value(right) = read(desc, stm, 2) else {
        return None;
    };
    Some((stock, commit(desc, stm).answer, [left, middle, right]))
}

/// The same by the first caller of a new memory.
fn one_moves(stm: &Stm<AnyMem>, descs: &mut [Desc<AnyMem>], alg: Alg, room: u64) -> Option<Moved>
    requires opened { AllOpened stm.now 0 descs.old }
    requires words { 2 < stm.now.config.words }
    requires plain { stm.now.config.fence ≡ false }
{
    match descs {
        [desc, ..] => moves(desc, stm, alg, room),
        [] => None,
    }
}

/// In a memory of its own.
fn moved(alloc: Global, alg: Alg, room: u64) -> Result<Option<Moved>, NewError> {
    let (stm, mut descs) = Stm::new(alloc, PAIR, AnyMem)?;
    Ok(one_moves(&stm, descs.as_mut_slice(), alg, room))
}

#[test]
fn a_piece_goes_where_there_is_room(rt: HostRuntime) -> Result<(), Fail> {
    let committed = Commit::Committed { time: 1 };
    let first = [2, 1, 0];
    let second = [2, 0, 1];
    for alg in [Alg::OrecLazy, Alg::OrecEager, Alg::RingSw, Alg::Serial] {
        assert_eq!(rt; moved(rt.alloc(), alg, 1), Ok(Some((1, committed, first))));
        assert_eq!(rt; moved(rt.alloc(), alg, 0), Ok(Some((2, committed, second))));
    }
    Ok(())
}

/// What the first two calls for a mark come to in an attempt under this algorithm.
fn marks_two(desc: &mut Desc<AnyMem>, stm: &Stm<AnyMem>, alg: Alg) -> Option<[Check; 2]>
    requires stm { IsOf desc.old stm.now }
    requires idle { IsIdle (known desc.old) }
{
    if !switch(stm, desc, alg) {
        return None;
    }
    let Begin::Begun(_) = try_begin(desc, stm) else {
        return None;
    };
    let first = checkpoint(desc);
    Some([first, checkpoint(desc)])
}

/// The same in a memory whose attempts may have so many marks.
fn two_marks(alloc: Global, alg: Alg, marks: usize) -> Result<Option<[Check; 2]>, NewError> {
    let (stm, mut descs) = Stm::new(alloc, Config { marks, ..PAIR }, AnyMem)?;
    match descs.as_mut_slice() {
        [desc, ..] => Ok(marks_two(desc, &stm, alg)),
        [] => Ok(None),
    }
}

/// Also where the attempt is irrevocable from its begin on, as under CGL.
#[test]
fn as_many_marks_stand_as_the_memory_says(rt: HostRuntime) -> Result<(), Fail> {
    for alg in ALGORITHMS {
        for (marks, come) in [
            (0, [Check::Deep { limit: 0 }, Check::Deep { limit: 0 }]),
            (1, [Check::Marked { depth: 1 }, Check::Deep { limit: 1 }]),
            (8, [Check::Marked { depth: 1 }, Check::Marked { depth: 2 }]),
        ] {
            assert_eq!(rt; two_marks(rt.alloc(), alg, marks), Ok(Some(come)));
        }
    }
    Ok(())
}
