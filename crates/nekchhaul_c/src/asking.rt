//! What a caller is asked, for C, and how its logs are made longer.
ghost use Rattle.std.specs.Prelude.{◌≡◌};
ghost use Rattle.nekchhaul_c.specs.Codes.{reserved_code};
ghost use Rattle.nekchhaul_c.specs.Says.{Holds, Says};
ghost use Rattle.nekchhaul_c.specs.Shown.{why_of, refusal_shown, cause_shown, shown, state_shown, stand_number, state_algorithm, Shows};
ghost use Rattle.tx_checked.specs.Misuses.{reserving};
ghost use Rattle.tx_checked.specs.Tells.{HasReserved};
ghost use Rattle.tx_loops.specs.Accesses.{Passes};

use crate::handle::Handle;
use crate::status;
use std::alloc::Global;
use stm_answers::answers::TxState;
use stm_model::stop::Cause;
use tx_checked::refusal::Refusal;
use tx_loops::looping_caller::LoopingCaller;

/// The version of this interface: 65,536 times the major number, and the minor one.
#[unsafe(no_mangle)]
pub extern "C" fn nekchhaul_version() -> u32
    ensures { result ≡ 131073 }
{
    131073
}

/// Makes the caller's logs longer.
#[unsafe(no_mangle)]
pub extern "C" fn nekchhaul_reserve(
    alloc: Global,
    caller: &mut Handle,
    reads: usize,
    writes: usize,
) -> u32
    ensures { Holds (result ≡ 16)
        (Says reserved_code (Passes (reserving reads writes) (HasReserved reads writes)) result)
        caller.old.inside caller.new.inside }
{
    if !caller.is_held() {
        return status::NO_CALLER;
    }
    status::of_reserved(caller.looping_caller().reserve(alloc, reads, writes))
}

/// Where a caller stands.
#[repr(C)]
#[derive(Clone, Copy, Drop)]
pub struct State {
    /// How many marks stand.
    pub marks: usize,
    /// 0 in no attempt, 1 in one, 2 in the middle of its commit, 3 with the gate closed for a call that isn't done.
    pub stand: u32,
    /// The algorithm of its attempt, or 0.
    pub algorithm: u32,
    /// 1 where its attempt can only be committed.
    pub irrevocable: u32,
    /// 1 where it has a range out of the transactions, and 2 more where one was out as its attempt began.
    pub range: u32,
}

/// Where the caller stands. `state` is written only where the answer is 0.
#[unsafe(no_mangle)]
pub extern "C" fn nekchhaul_state(caller: &mut Handle, state: &mut State) -> u32
    ensures { Holds ((result ≡ 16) × (state.new ≡ state.old))
        (Shows result (λ m. state.new ≡ state_shown m)) caller.old.inside caller.new.inside }
{
    if !caller.is_held() {
        return status::NO_CALLER;
    }
    *state = state_of(caller.looping_caller());
    status::OK
}

fn state_of(looping_caller: &LoopingCaller) -> State
    ensures { result ≡ state_shown looping_caller.now }
{
    let state = looping_caller.state();
    State {
        marks: looping_caller.marks(),
        stand: stand_of(state),
        algorithm: algorithm_number(state),
        irrevocable: u32::from(looping_caller.is_irrevocable()),
        range: u32::from(looping_caller.caller.range.is_some())
            + 2 * u32::from(looping_caller.is_beside()),
    }
}

fn stand_of(state: TxState) -> u32
    ensures { result ≡ stand_number state }
{
    match state {
        TxState::Idle => 0,
        TxState::Running(_) => 1,
        TxState::Committing(_) => 2,
        TxState::Closing(_) => 3,
    }
}

fn algorithm_number(state: TxState) -> u32
    ensures { result ≡ state_algorithm state }
{
    match state {
        TxState::Idle | TxState::Closing(_) => 0,
        TxState::Running(alg) | TxState::Committing(alg) => alg.number() as u32,
    }
}

/// What came in the way of a caller last.
#[repr(C)]
#[derive(Clone, Copy, Drop)]
pub struct Why {
    /// The status that told of it, or 0 where nothing has.
    pub status: u32,
    /// Of a full log: 1 that of the reads, 2 those of the writes. Of a conflict: 1 the clock moved, 2 a record, 3 a
    /// record moved, 4 the ring's filter, 5 the ring was overrun.
    pub kind: u32,
    /// What was found, in the order of the header's table.
    pub first: u64,
    pub second: u64,
    pub third: u64,
}

/// What came in the way of the caller last. `why` is written only where the answer is 0.
#[unsafe(no_mangle)]
pub extern "C" fn nekchhaul_why(caller: &mut Handle, why: &mut Why) -> u32
    ensures { Holds ((result ≡ 16) × (why.new ≡ why.old))
        (Shows result (λ m. why.new ≡ why_of m.caller.refusal)) caller.old.inside caller.new.inside }
{
    if !caller.is_held() {
        return status::NO_CALLER;
    }
    *why = why_of(caller.looping_caller().caller.refusal);
    status::OK
}

fn why_of(refusal: Option<Refusal>) -> Why
    ensures { result ≡ why_of refusal }
{
    match refusal {
        Some(refusal) => of_refusal(refusal),
        None => told(0, 0, (0, 0, 0)),
    }
}

fn of_refusal(refusal: Refusal) -> Why
    ensures { result ≡ refusal_shown refusal }
{
    match refusal {
        Refusal::Conflict(cause) => of_cause(cause),
        Refusal::GateClosed { gate } => told(status::GATE_CLOSED, 0, (gate, 0, 0)),
        Refusal::Held { word } => told(status::HELD, 0, (word, 0, 0)),
        Refusal::Busy {
            caller,
            status: word,
        } => told(status::BUSY, 0, (caller as u64, word, 0)),
        Refusal::Again { word, had, now } => told(status::AGAIN, 0, (word, had, now)),
        Refusal::ReadsFull { limit } => told(status::LOG_FULL, 1, (limit as u64, 0, 0)),
        Refusal::WritesFull { limit } => told(status::LOG_FULL, 2, (limit as u64, 0, 0)),
        Refusal::ClockFull { clock } => told(status::CLOCK_FULL, 0, (clock, 0, 0)),
        Refusal::Irrevocable => told(status::IRREVOCABLE, 0, (0, 0, 0)),
        Refusal::Deep { limit } => told(status::DEEP, 0, (limit as u64, 0, 0)),
        Refusal::RangeTaken { gate } => told(status::RANGE_TAKEN, 0, (gate, 0, 0)),
    }
}

fn of_cause(cause: Cause) -> Why
    ensures { result ≡ cause_shown cause }
{
    match cause {
        Cause::Clock { had, now } => told(status::CONFLICT, 1, (had, now, 0)),
        Cause::Record { index, word, start } => {
            told(status::CONFLICT, 2, (index as u64, word, start))
        }
        Cause::Moved {
            index,
            before,
            after,
        } => told(status::CONFLICT, 3, (index as u64, before, after)),
        Cause::Filter { time, bits } => told(status::CONFLICT, 4, (time, bits, 0)),
        Cause::Overrun { start, clock } => told(status::CONFLICT, 5, (start, clock, 0)),
    }
}

fn told(status: u32, kind: u32, found: (u64, u64, u64)) -> Why
    ensures { result ≡ shown status kind found.0 found.1 found.2 }
{
    Why {
        status,
        kind,
        first: found.0,
        second: found.1,
        third: found.2,
    }
}
