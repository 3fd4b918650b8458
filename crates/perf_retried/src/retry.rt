//! A memory whose logs are made longer, and which is closed: each is tried again where memory is refused for it, and
//! all has to be as it was then.
ghost use Rattle.std.specs.Prelude.{◌≡◌, ◌<◌, length, true, false, IfSome};
ghost use Rattle.stm_rule.specs.Callers.{AllIdle, IsOf, IsSameCaller};
ghost use Rattle.stm_answers.specs.CallerState.{IsIdle};
ghost use Rattle.stm_tx.specs.Descs.{known};

use std::alloc::Global;
use stm_tx::calls::{commit, read, reserve, try_begin, write};
use stm_tx::gate::{close_gate, install, look, reopen};
use stm_tx::{Alg, AnyMem, Begin, CloseGate, Commit, Config, Desc, Look, Read, Stm, Write, close};

/// One caller with logs of two items.
const SHORT: Config = Config {
    words: 4,
    records: 4,
    ring: 2,
    callers: 1,
    reads: 2,
    writes: 2,
    clock: 0,
    fence: false,
    marks: 0,
};

/// Why there are no words.
#[derive(Clone, Copy, Drop, Debug, PartialEq, Eq)]
pub enum Failure {
    /// The memory couldn't be opened.
    Memory,
    /// Something else than a refusal came, or a refusal changed something.
    Changed,
}

/// Installs OrecLazy, which has both logs. Answers whether the gate was free and the caller alone.
fn switch(stm: &Stm<AnyMem>, desc: &mut Desc<AnyMem>) -> bool
    requires desc { IsOf desc.old stm.now }
    requires idle { IsIdle (known desc.old) }
    ensures same { IsSameCaller desc.old desc.new }
    ensures idle { IsIdle (known desc.new) }
{
    let CloseGate::Closed = close_gate(desc, stm) else {
        return false;
    };
    let Look::Quiet = look(desc, stm) else {
        reopen(desc, stm);
        return false;
    };
    install(desc, stm, Alg::OrecLazy);
    reopen(desc, stm);
    true
}

/// Whether the read log has room for a third word; None where anything else is in the way. An attempt that could read
/// three words commits.
fn has_room_to_read(stm: &Stm<AnyMem>, desc: &mut Desc<AnyMem>) -> Option<bool>
    requires desc { IsOf desc.old stm.now }
    requires idle { IsIdle (known desc.old) }
    requires words { 2 < stm.now.config.words }
    requires plain { stm.now.config.fence ≡ false }
    ensures same { IsSameCaller desc.old desc.new }
    ensures idle { IfSome result (λ _. IsIdle (known desc.new)) }
{
    let Begin::Begun(_) = try_begin(desc, stm) else {
        return None;
    };
    let Read::Value(_) = read(desc, stm, 0) else {
        return None;
    };
    let Read::Value(_) = read(desc, stm, 1) else {
        return None;
    };
    match read(desc, stm, 2) {
        Read::Value(_) => {}
        Read::Full { .. } => return Some(false),
        Read::Conflict(_) => return None,
    }
    match commit(desc, stm).answer {
        Commit::ReadOnly { .. } => Some(true),
        _ => None,
    }
}

/// Whether the write log has room for a third word; None where anything else is in the way. An attempt that could write
/// three words, 5, 6 and 7, commits.
fn has_room_to_write(stm: &Stm<AnyMem>, desc: &mut Desc<AnyMem>) -> Option<bool>
    requires desc { IsOf desc.old stm.now }
    requires idle { IsIdle (known desc.old) }
    requires words { 2 < stm.now.config.words }
    requires plain { stm.now.config.fence ≡ false }
    ensures same { IsSameCaller desc.old desc.new }
    ensures idle { IfSome result (λ _. IsIdle (known desc.new)) }
{
    let Begin::Begun(_) = try_begin(desc, stm) else {
        return None;
    };
    let Write::Done = write(desc, stm, 0, 5) else {
        return None;
    };
    let Write::Done = write(desc, stm, 1, 6) else {
        return None;
    };
    match write(desc, stm, 2, 7) {
        Write::Done => {}
        Write::Full { .. } => return Some(false),
        Write::Conflict(_) | Write::ClockFull { .. } => return None,
    }
    match commit(desc, stm).answer {
        Commit::Committed { .. } => Some(true),
        _ => None,
    }
}

/// Makes the logs longer. A refusal leaves both as long as they were, and then it is tried again. Answers whether all
/// went so.
fn lengthen(alloc: Global, stm: &Stm<AnyMem>, desc: &mut Desc<AnyMem>) -> bool
    requires desc { IsOf desc.old stm.now }
    requires idle { IsIdle (known desc.old) }
    requires words { 2 < stm.now.config.words }
    requires plain { stm.now.config.fence ≡ false }
    ensures same { IsSameCaller desc.old desc.new }
    ensures idle { result ≡ true → IsIdle (known desc.new) }
{
    if reserve(alloc, desc, 8, 8).is_ok() {
        return true;
    }
    let Some(false) = has_room_to_read(stm, desc) else {
        return false;
    };
    let Some(false) = has_room_to_write(stm, desc) else {
        return false;
    };
    reserve(alloc, desc, 8, 8).is_ok()
}

/// Closes the memory, and once more where memory is refused.
fn close_twice(
    alloc: Global,
    stm: Stm<AnyMem>,
    descs: Vec<Desc<AnyMem>>,
) -> Result<Vec<u64>, Failure>
    requires descs { AllIdle stm 0 descs.items }
    requires all { length descs.items ≡ stm.config.callers }
{
    let (stm, descs) = match close(alloc, stm, descs) {
        Ok((words, _closed)) => return Ok(words),
        Err((stm, descs, _memory)) => (stm, descs),
    };
    match close(alloc, stm, descs) {
        Ok((words, _closed)) => Ok(words),
        Err((_stm, _descs, _memory)) => Err(Failure::Changed),
    }
}

/// The words 5, 6, 7 and 0 of a memory that was closed, where at most one allocation is refused after its opening.
pub fn run(alloc: Global) -> Result<Vec<u64>, Failure> {
    let Ok((stm, mut descs)) = Stm::new(alloc, SHORT, AnyMem) else {
        return Err(Failure::Memory);
    };
    let Some(mut desc) = descs.pop() else {
        unreachable!()
    };
    if !switch(&stm, &mut desc) || !lengthen(alloc, &stm, &mut desc) {
        return Err(Failure::Changed);
    }
    let Some(true) = has_room_to_read(&stm, &mut desc) else {
        return Err(Failure::Changed);
    };
    let Some(true) = has_room_to_write(&stm, &mut desc) else {
        return Err(Failure::Changed);
    };
    descs.push_reserved(desc);
    close_twice(alloc, stm, descs)
}
