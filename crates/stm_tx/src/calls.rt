//! The calls of an attempt. Each takes a descriptor and its memory. None but `reserve` takes memory, none waits, and
//! all return. Each adds no more atomic steps than its clause `steps` says: those of an attempt what the table `costs`
//! has for its algorithm, whatever other callers do.
ghost use Rattle.stm_rule.specs.Counting.{TakesAtMost};
ghost use Rattle.stm_answers.specs.Counting.{AddsAtMost};
ghost use Rattle.stm_tx.specs.Costs.{costs};
ghost use Rattle.std.specs.Prelude.{◌≡◌, ℕ, ◌<◌, ◌≤◌, ◌&&◌, true, MatchResult, false};
ghost use Rattle.stm_rule.specs.Callers.{IsOf, IsSameCaller, IsSeatOf};
ghost use Rattle.stm_rule.specs.Kept.{MovesView, view_of};
ghost use Rattle.stm_answers.specs.Answers.{Begins, HasRead, HasWritten, KeepsRule, Commits, Cancels, Irrevs};
ghost use Rattle.stm_answers.specs.CallerState.{IsIdle, IsRunning, is_irrevocable, state_of};
ghost use Rattle.stm_gate.specs.Starts.{CanBegin, Starts};
ghost use Rattle.stm_model.specs.Algorithms.{closes_gate};
ghost use Rattle.rule_base.specs.Encodings.{fenced};
ghost use Rattle.stm_tx.specs.Descs.{Reserves, known, number};
ghost use Rattle.stm_tx.specs.Rings.{HasRung};

use crate::finish::{Finish, commit_by};
use crate::under;
use alg_calls::algorithm::Algorithm;
use alg_seq::cgl::Cgl;
use rule_base::words::{alg_of, fence_of, holder_of};
use std::alloc::Global;
use stm_answers::answers::{Begin, Cancel, Irrev, Read, TxState, Write};
use stm_gate::direct::{direct_load, direct_store};
use stm_model::alg::Alg;
use stm_model::memory::Memory;
use stm_model::rule::MemRule;
use stm_rule::desc::Desc;
use stm_rule::local::Local;
use stm_rule::stm::{Stm, Token};

/// Tries to begin an attempt under the algorithm that the gate names. It asks for an idle descriptor.
///
/// `Begun` leaves the attempt running, with a start not before anything that the caller has seen; all
/// other answers leave the descriptor idle. `Closed` comes only where another caller holds the gate, `Held`
/// only where another caller's attempt has the lock or has made the clock odd, and `ClockFull` only under
/// CGL with the clock at its limit.
///
/// Two steps and the algorithm's, one more where it is refused: `Begun` costs 4 under CGL and Serial, else 3.
pub fn try_begin<K: MemRule>(desc: &mut Desc<K>, stm: &Stm<K>) -> Begin
    requires stm { IsOf desc.old stm.now }
    requires idle { IsIdle (known desc.old) }
    ensures same { IsSameCaller desc.old desc.new }
    ensures begins { Begins (K.good stm.now.rule) stm.now.config (number desc.old) result
        (known desc.old) (known desc.new) }
    ensures steps { AddsAtMost 6 (known desc.old) (known desc.new) }
{
    try_begin_as::<Cgl, K>(desc, stm)
}

/// The same, for who expects this algorithm: where the gate names it, its begin stands in line.
#[inline(always)]
pub fn try_begin_as<A: Algorithm, K: MemRule>(desc: &mut Desc<K>, stm: &Stm<K>) -> Begin
    requires stm { IsOf desc.old stm.now }
    requires idle { IsIdle (known desc.old) }
    ensures same { IsSameCaller desc.old desc.new }
    ensures begins { Begins (K.good stm.now.rule) stm.now.config (number desc.old) result
        (known desc.old) (known desc.new) }
    ensures steps { AddsAtMost 6 (known desc.old) (known desc.new) }
{
    let caller = desc.number;
    stm.announce(&mut desc.seat, caller);
    let gate = stm.load_gate(&mut desc.seat, caller);
    if holder_of(gate) != 0 {
        stm.depart(&mut desc.seat, caller);
        return Begin::Closed { gate };
    }
    let algorithm = alg_of(gate);
    match begin_as::<A, K>(&mut desc.seat, stm, caller, algorithm) {
        Ok(start) => {
            desc.local.fence = fence_of(gate);
            desc.local.begin(algorithm, start);
            Begin::Begun(algorithm)
        }
        Err(refusal) => {
            stm.depart(&mut desc.seat, caller);
            refusal
        }
    }
}

/// The algorithm's part of a begin, in line where it is this one.
#[inline(always)]
fn begin_as<A: Algorithm, K: MemRule>(
    seat: &mut Token<K>,
    stm: &Stm<K>,
    caller: usize,
    algorithm: Alg,
) -> Result<u64, Begin>
    requires seat { IsSeatOf stm.now caller seat.old }
    requires caller { caller < stm.now.config.callers }
    requires view { CanBegin algorithm (view_of seat.old) }
    ensures same { MovesView seat.old seat.new }
    ensures begins { Starts (K.good stm.now.rule) stm.now.config caller algorithm result
        (view_of seat.old) (view_of seat.new) }
    ensures steps { TakesAtMost 3 (view_of seat.old) (view_of seat.new) }
{
    if algorithm == A::which() {
        A::begin(seat, stm, caller)
    } else {
        begin_under(seat, stm, caller, algorithm)
    }
}

#[cold]
#[inline(never)]
fn begin_under<K: MemRule>(
    seat: &mut Token<K>,
    stm: &Stm<K>,
    caller: usize,
    algorithm: Alg,
) -> Result<u64, Begin>
    requires seat { IsSeatOf stm.now caller seat.old }
    requires caller { caller < stm.now.config.callers }
    requires view { CanBegin algorithm (view_of seat.old) }
    ensures same { MovesView seat.old seat.new }
    ensures begins { Starts (K.good stm.now.rule) stm.now.config caller algorithm result
        (view_of seat.old) (view_of seat.new) }
    ensures steps { TakesAtMost 3 (view_of seat.old) (view_of seat.new) }
{
    under!(algorithm, A::begin(seat, stm, caller))
}

/// Reads the word at `a`: the attempt's last write of it, else what it read there before, else the memory at its
/// start. It asks for a running attempt. All answers but a value end the attempt. Under OrecLazy and OrecEager the
/// start moves, and the record of another word refuses it,
/// only where that of `a` was found free and newer than the start.
///
/// One step under CGL and Serial and in an attempt that was promoted; under TML two before the first write, and
/// three or four where the attempt ends. Under OrecLazy and OrecEager none for a word that it wrote or read before,
/// else three, one where it holds the record, and a validation where that is newer than the start: one and one a
/// logged read. Under RingSW none for a word that it wrote, else two, and where the clock has moved two more and at
/// most 16 for each time since the start.
#[inline(always)]
pub fn read<K: MemRule>(desc: &mut Desc<K>, stm: &Stm<K>, a: usize) -> Read
    requires stm { IsOf desc.old stm.now }
    requires running { IsRunning (known desc.old) }
    requires inside { a < stm.now.config.words }
    requires spared { fenced (known desc.old).fence a ≡ false }
    ensures same { IsSameCaller desc.old desc.new }
    ensures read { HasRead (K.good stm.now.rule) stm.now.config (number desc.old) a result
        (known desc.old) (known desc.new) }
    ensures steps { AddsAtMost (costs stm.now.config (known desc.old)).read (known desc.old)
        (known desc.new) }
{
    if is_promoted(desc) {
        return direct_load(desc, stm, a);
    }
    under!(desc.local.algorithm, A::read(desc, stm, a))
}

/// Writes `x` to the word at `a`, for this attempt until it commits. It asks for a running attempt. All answers but
/// `Done` end the attempt. Under OrecEager the start moves, and another word's record refuses it, as for `read`.
///
/// None under OrecLazy and RingSW, whose writes wait for the commit. One under CGL and in an attempt that was
/// promoted; three at most under TML and Serial, and where Serial takes it back two more and one for each word that
/// it wrote.
#[inline(always)]
pub fn write<K: MemRule>(desc: &mut Desc<K>, stm: &Stm<K>, a: usize, x: u64) -> Write
    requires stm { IsOf desc.old stm.now }
    requires running { IsRunning (known desc.old) }
    requires inside { a < stm.now.config.words }
    requires spared { fenced (known desc.old).fence a ≡ false }
    ensures same { IsSameCaller desc.old desc.new }
    ensures write { HasWritten (K.good stm.now.rule) stm.now.config (number desc.old) a x result
        (known desc.old) (known desc.new) }
    ensures steps { AddsAtMost (costs stm.now.config (known desc.old)).write (known desc.old)
        (known desc.new) }
{
    if is_promoted(desc) {
        return direct_store(desc, stm, a, x);
    }
    under!(desc.local.algorithm, A::write(desc, stm, a, x))
}

/// Commits the attempt. An attempt that wrote asks that it keeps the memory rule. Where it has written it rings the
/// memory's bell at last, for each word that it wrote: one load while nobody waits, beside the steps. Where that was
/// `heard`, who has a handle is to wake (`Bell::wake`).
///
/// `Committed` comes only where the attempt wrote, `ReadOnly` only where it did not. All answers but `Again` leave
/// the descriptor idle; after `Again` the attempt is to be committed again or cancelled. Under OrecLazy and OrecEager
/// the start moves, and the record of a word that was only read refuses it, only after an earlier `Again`, or where the
/// record of a word that it wrote was found free and newer than the start.
///
/// Three steps at most under CGL, TML and Serial, five where the attempt was promoted, and one or two where it wrote
/// nothing. Under OrecLazy three for each record and one for each word that it wrote, two, and a validation where
/// such a record was newer than the start and after `Again`; under OrecEager one for each record, and two. Under
/// RingSW 22, one for each word that it wrote, and the check of a read.
#[inline(always)]
pub fn commit<K: MemRule>(desc: &mut Desc<K>, stm: &Stm<K>) -> Finish<K>
    requires stm { IsOf desc.old stm.now }
    requires running { (known desc.old).running ≡ true }
    requires keeps { KeepsRule (K.good stm.now.rule) stm.now.config (number desc.old)
        (known desc.old) }
    ensures same { IsSameCaller desc.old desc.new }
    ensures commits { Commits (K.good stm.now.rule) stm.now.config (number desc.old) result.answer
        (known desc.old) (known desc.new) }
    ensures rung { HasRung result.answer result.rung desc.old desc.new }
    ensures steps { AddsAtMost (costs stm.now.config (known desc.old)).commit (known desc.old)
        (known desc.new) }
{
    let granted = desc.local.granted;
    under!(desc.local.algorithm, commit_by::<A>(desc, stm, granted))
}

/// Ends the attempt without a trace, or answers `Irrevocable` and changes nothing: exactly where `is_irrevocable`.
/// Two steps at most, under Serial one more for each word that it wrote, under OrecLazy one for each record that it
/// holds, and under OrecEager one for each of both, and one.
pub fn cancel<K: MemRule>(desc: &mut Desc<K>, stm: &Stm<K>) -> Cancel
    requires stm { IsOf desc.old stm.now }
    requires running { (known desc.old).running ≡ true }
    ensures same { IsSameCaller desc.old desc.new }
    ensures cancels { Cancels (K.good stm.now.rule) stm.now.config (number desc.old) result
        (known desc.old) (known desc.new) }
    ensures steps { AddsAtMost (costs stm.now.config (known desc.old)).cancel (known desc.old)
        (known desc.new) }
{
    under!(desc.local.algorithm, A::cancel(desc, stm))
}

/// Tries to make the attempt irrevocable: from `Granted` on it can only be committed, and no call of it is refused.
/// `Busy` and `Taken` leave it running, and may be tried again; all other answers end it. No step where it is
/// irrevocable already; one under Serial; else two to close the gate, one for each other caller that it looks at,
/// and the load of the clock; then under OrecLazy and OrecEager one for each logged read, under RingSW the check of
/// a read, and one for each word that it wrote, but under OrecEager.
pub fn try_irrevocable<K: MemRule>(desc: &mut Desc<K>, stm: &Stm<K>) -> Irrev
    requires stm { IsOf desc.old stm.now }
    requires running { IsRunning (known desc.old) }
    ensures same { IsSameCaller desc.old desc.new }
    ensures irrevs { Irrevs (K.good stm.now.rule) stm.now.config (number desc.old) result
        (known desc.old) (known desc.new) }
    ensures steps { AddsAtMost (costs stm.now.config (known desc.old)).irrevocable (known desc.old)
        (known desc.new) }
{
    under!(desc.local.algorithm, A::try_irrevocable(desc, stm))
}

/// Makes the read log `reads` items long and the logs of what is written `writes`, each 1 to 1,048,576, where they are
/// shorter. It asks for an idle descriptor. It takes the room of longer logs beside that of the old ones; where
/// memory is refused all is as before. No step.
pub fn reserve<K: MemRule>(
    alloc: Global,
    desc: &mut Desc<K>,
    reads: usize,
    writes: usize,
) -> Result<(), Memory>
    requires low { (1 ≤ reads) × (1 ≤ writes) }
    requires high { (reads ≤ 1048576) × (writes ≤ 1048576) }
    requires idle { IsIdle (known desc.old) }
    ensures same { IsSameCaller desc.old desc.new }
    ensures view { desc.new.view ≡ desc.old.view }
    ensures reserves { MatchResult result
        (λ _. Reserves reads writes (known desc.old) (known desc.new)) (λ _. desc.new ≡ desc.old) }
{
    if reads <= desc.local.reads.len() && writes <= desc.local.undo.len() {
        return Ok(());
    }
    let Local {
        reads: longer_reads,
        undo,
        writes: longer_writes,
        locks,
        ..
    } = Local::idle(alloc, reads, writes, desc.local.writes.marks_limit())?;
    if desc.local.reads.len() < reads {
        desc.local.reads = longer_reads;
    }
    if desc.local.undo.len() < writes {
        desc.local.undo = undo;
        desc.local.writes = longer_writes;
        desc.local.locks = locks;
    }
    Ok(())
}

/// Where the descriptor stands. No step.
pub fn state<K: MemRule>(desc: &Desc<K>) -> TxState
    ensures { result ≡ state_of (known desc.now) }
{
    if desc.local.running && desc.local.committing {
        TxState::Committing(desc.local.algorithm)
    } else if desc.local.running {
        TxState::Running(desc.local.algorithm)
    } else if desc.local.holds {
        TxState::Closing(desc.local.algorithm)
    } else {
        TxState::Idle
    }
}

/// Whether an attempt is running that can only be committed. No step.
pub fn is_irrevocable<K: MemRule>(desc: &Desc<K>) -> bool
    ensures { result ≡ ((known desc.now).running && is_irrevocable (known desc.now)) }
{
    desc.local.running
        && desc
            .local
            .algorithm
            .irrevocable_under(desc.local.granted, desc.local.wrote)
}

/// Whether the attempt has closed the gate to be alone: it loads and stores the heap since, whatever its algorithm.
#[inline(always)]
fn is_promoted<K: MemRule>(desc: &Desc<K>) -> bool
    requires { (known desc.now).running ≡ true }
    ensures { result ≡ (closes_gate (known desc.now).alg && (known desc.now).granted) }
{
    match desc.local.algorithm {
        Alg::Tml | Alg::OrecLazy | Alg::OrecEager | Alg::RingSw => desc.local.granted,
        Alg::Cgl | Alg::Serial => false,
    }
}

/// Whether this caller has closed the gate. No step.
pub fn holds_gate<K: MemRule>(desc: &Desc<K>) -> bool
    ensures { result ≡ (known desc.now).holds }
{
    desc.local.holds
}

/// The algorithm of the running attempt. No step.
pub fn algorithm<K: MemRule>(desc: &Desc<K>) -> Alg
    requires { (known desc.now).running ≡ true }
    ensures { result ≡ (known desc.now).alg }
{
    desc.local.algorithm
}

/// The start of the running attempt, a clock. No step.
pub fn start<K: MemRule>(desc: &Desc<K>) -> u64
    requires { (known desc.now).running ≡ true }
    ensures { result ≡ (known desc.now).start }
{
    desc.local.start
}
