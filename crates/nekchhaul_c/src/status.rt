//! The numbers by which C learns what a call came to. They are never given another meaning: `capi/include/nekchhaul.h`
//! has them too.
ghost use Rattle.std.specs.Prelude.{◌≡◌};
ghost use Rattle.nekchhaul_c.specs.Codes.{misuse_code, refusal_code, begin_code, begin_value, read_code, read_value, peek_code, write_code, commit_code, cancel_code, grant_code, mark_code, mark_value, roll_code, done_code, word_code, word_value, taken_code, given_code, reserved_code, open_code, turn_code, how_numbered};

use stm_answers::answers::{Begin, Cancel, Check, Commit, Give, Irrev, Read, Roll, Write};
use stm_model::memory::Memory;
use stm_rule::refusal::NewError;
use tx_checked::misuse::Misuse;
use tx_checked::opening::OpenError;
use tx_checked::peeking::Peek;
use tx_checked::refusal::Refusal;
use tx_loops::turn::{How, Turn};

pub(crate) const OK: u32 = 0;

pub(crate) const CONFLICT: u32 = 1;

pub(crate) const GATE_CLOSED: u32 = 2;

pub(crate) const HELD: u32 = 3;

pub(crate) const BUSY: u32 = 4;

pub(crate) const AGAIN: u32 = 5;

pub(crate) const LOG_FULL: u32 = 6;

pub(crate) const CLOCK_FULL: u32 = 7;

pub(crate) const IRREVOCABLE: u32 = 8;

pub(crate) const DEEP: u32 = 9;

pub(crate) const RANGE_TAKEN: u32 = 10;

pub(crate) const NO_CALLER: u32 = 16;

pub(crate) const NO_ATTEMPT: u32 = 17;

pub(crate) const IN_ATTEMPT: u32 = 18;

pub(crate) const COMMITTING: u32 = 19;

pub(crate) const ADDRESS: u32 = 20;

pub(crate) const ALGORITHM: u32 = 21;

pub(crate) const MEMORY: u32 = 23;

pub(crate) const HOLDS_CALLER: u32 = 24;

pub(crate) const FENCED: u32 = 25;

pub(crate) const HOLDS_RANGE: u32 = 26;

pub(crate) const NO_RANGES: u32 = 27;

pub(crate) const NO_RANGE: u32 = 28;

pub(crate) const DEPTH: u32 = 30;

pub(crate) const LOGS: u32 = 31;

pub(crate) const ROOM: u32 = 32;

pub(crate) const SIZE_WORDS: u32 = 33;

pub(crate) const SIZE_RECORDS: u32 = 34;

pub(crate) const SIZE_RING: u32 = 35;

pub(crate) const SIZE_CALLERS: u32 = 36;

pub(crate) const SIZE_LOGS: u32 = 37;

pub(crate) const SIZE_CLOCK: u32 = 38;

pub(crate) const STRANGER: u32 = 39;

pub(crate) const CLOSING: u32 = 40;

pub(crate) const NOT_CLOSING: u32 = 41;

/// What a body answers that is to run again once others have come further.
const RETRY: u32 = 49;

pub(crate) const RUN: u32 = 51;

pub(crate) const PAUSE: u32 = 52;

/// What a body came to that answered so.
pub(crate) fn how_of(number: u32) -> How
    ensures { result ≡ how_numbered number }
{
    match number {
        OK => How::Done,
        CONFLICT | GATE_CLOSED | HELD | BUSY | AGAIN | PAUSE => How::Refused,
        LOG_FULL => How::Full,
        FENCED => How::Fenced,
        RETRY => How::Retry,
        _ => How::Stopped,
    }
}

/// The number of what is to be done next, after a body that answered `how`.
pub(crate) fn of_turn(answer: Result<Turn, Misuse>, how: u32) -> u32
    ensures { result ≡ turn_code how answer }
{
    match answer {
        Ok(Turn::Run) => RUN,
        Ok(Turn::Pause { .. }) => PAUSE,
        Ok(Turn::Sleep) => PAUSE,
        Ok(Turn::Done) => OK,
        Ok(Turn::Over) => how,
        Ok(Turn::Full) => LOG_FULL,
        Ok(Turn::ClockFull) => CLOCK_FULL,
        Ok(Turn::Memory) => MEMORY,
        Ok(Turn::Irrevocable) => IRREVOCABLE,
        Err(misuse) => of_misuse(misuse),
    }
}

pub(crate) fn of_misuse(misuse: Misuse) -> u32
    ensures { result ≡ misuse_code misuse }
{
    match misuse {
        Misuse::NoAttempt => NO_ATTEMPT,
        Misuse::InAttempt => IN_ATTEMPT,
        Misuse::Committing => COMMITTING,
        Misuse::Address => ADDRESS,
        Misuse::Fenced => FENCED,
        Misuse::HoldsRange => HOLDS_RANGE,
        Misuse::NoRanges => NO_RANGES,
        Misuse::NoRange => NO_RANGE,
        Misuse::Depth => DEPTH,
        Misuse::Logs => LOGS,
        Misuse::Room => ROOM,
        Misuse::Stranger => STRANGER,
        Misuse::Closing => CLOSING,
        Misuse::NotClosing => NOT_CLOSING,
    }
}

pub(crate) fn of_refusal(refusal: Refusal) -> u32
    ensures { result ≡ refusal_code refusal }
{
    match refusal {
        Refusal::Conflict(_) => CONFLICT,
        Refusal::GateClosed { .. } => GATE_CLOSED,
        Refusal::Held { .. } => HELD,
        Refusal::Busy { .. } => BUSY,
        Refusal::Again { .. } => AGAIN,
        Refusal::ReadsFull { .. } | Refusal::WritesFull { .. } => LOG_FULL,
        Refusal::ClockFull { .. } => CLOCK_FULL,
        Refusal::Irrevocable => IRREVOCABLE,
        Refusal::Deep { .. } => DEEP,
        Refusal::RangeTaken { .. } => RANGE_TAKEN,
    }
}

#[inline]
pub(crate) fn of_begin(answer: Result<Begin, Misuse>) -> u32
    ensures { result ≡ begin_code answer }
{
    match answer {
        Ok(Begin::Begun(_)) => OK,
        Ok(Begin::Closed { .. }) => GATE_CLOSED,
        Ok(Begin::Held { .. }) => HELD,
        Ok(Begin::ClockFull { .. }) => CLOCK_FULL,
        Err(misuse) => of_misuse(misuse),
    }
}

/// Puts what an attempt runs under: the algorithm's number, and 8 more beside a range.
#[inline]
pub(crate) fn put_under(answer: Result<Begin, Misuse>, beside: bool, under: &mut u32)
    ensures { under.new ≡ begin_value answer beside under.old }
{
    if let Ok(Begin::Begun(alg)) = answer {
        let number = alg.number() as u32;
        if beside {
            *under = number + 8;
        } else {
            *under = number;
        }
    }
}

#[inline]
pub(crate) fn of_read(answer: Result<Read, Misuse>) -> u32
    ensures { result ≡ read_code answer }
{
    match answer {
        Ok(Read::Value(_)) => OK,
        Ok(Read::Conflict(_)) => CONFLICT,
        Ok(Read::Full { .. }) => LOG_FULL,
        Err(misuse) => of_misuse(misuse),
    }
}

/// Writes a word that was read to its place.
#[inline]
pub(crate) fn put_value(answer: Result<Read, Misuse>, value: &mut u64)
    ensures { value.new ≡ read_value answer value.old }
{
    if let Ok(Read::Value(word)) = answer {
        *value = word;
    }
}

pub(crate) fn of_peek(answer: Result<Peek, Misuse>) -> u32
    ensures { result ≡ peek_code answer }
{
    match answer {
        Ok(Peek::Value(_)) => OK,
        Ok(Peek::Fenced) => FENCED,
        Ok(Peek::Closed) => GATE_CLOSED,
        Ok(Peek::Held) => HELD,
        Ok(Peek::ClockFull) => CLOCK_FULL,
        Ok(Peek::Conflict) => CONFLICT,
        Ok(Peek::Full) => LOG_FULL,
        Err(misuse) => of_misuse(misuse),
    }
}

#[inline]
pub(crate) fn of_write(answer: Result<Write, Misuse>) -> u32
    ensures { result ≡ write_code answer }
{
    match answer {
        Ok(Write::Done) => OK,
        Ok(Write::Conflict(_)) => CONFLICT,
        Ok(Write::Full { .. }) => LOG_FULL,
        Ok(Write::ClockFull { .. }) => CLOCK_FULL,
        Err(misuse) => of_misuse(misuse),
    }
}

#[inline]
pub(crate) fn of_commit(answer: Result<Commit, Misuse>) -> u32
    ensures { result ≡ commit_code answer }
{
    match answer {
        Ok(Commit::Committed { .. }) => OK,
        Ok(Commit::ReadOnly { .. }) => OK,
        Ok(Commit::Conflict(_)) => CONFLICT,
        Ok(Commit::Again { .. }) => AGAIN,
        Ok(Commit::ClockFull { .. }) => CLOCK_FULL,
        Err(misuse) => of_misuse(misuse),
    }
}

pub(crate) fn of_cancel(answer: Result<Cancel, Misuse>) -> u32
    ensures { result ≡ cancel_code answer }
{
    match answer {
        Ok(Cancel::Cancelled { .. }) => OK,
        Ok(Cancel::Irrevocable) => IRREVOCABLE,
        Err(misuse) => of_misuse(misuse),
    }
}

pub(crate) fn of_grant(answer: Result<Irrev, Misuse>) -> u32
    ensures { result ≡ grant_code answer }
{
    match answer {
        Ok(Irrev::Granted) => OK,
        Ok(Irrev::Busy { .. }) => BUSY,
        Ok(Irrev::Taken { .. }) => GATE_CLOSED,
        Ok(Irrev::Conflict(_)) => CONFLICT,
        Ok(Irrev::ClockFull { .. }) => CLOCK_FULL,
        Err(misuse) => of_misuse(misuse),
    }
}

pub(crate) fn of_mark(answer: Result<Check, Misuse>) -> u32
    ensures { result ≡ mark_code answer }
{
    match answer {
        Ok(Check::Marked { .. }) => OK,
        Ok(Check::Deep { .. }) => DEEP,
        Err(misuse) => of_misuse(misuse),
    }
}

/// Writes the number of a mark that was made to its place.
pub(crate) fn put_depth(answer: Result<Check, Misuse>, place: &mut usize)
    ensures { place.new ≡ mark_value answer place.old }
{
    if let Ok(Check::Marked { depth }) = answer {
        *place = depth;
    }
}

pub(crate) fn of_roll(answer: Result<Roll, Misuse>) -> u32
    ensures { result ≡ roll_code answer }
{
    match answer {
        Ok(Roll::Rolled) => OK,
        Ok(Roll::Irrevocable) => IRREVOCABLE,
        Err(misuse) => of_misuse(misuse),
    }
}

pub(crate) fn of_done(answer: Result<(), Misuse>) -> u32
    ensures { result ≡ done_code answer }
{
    match answer {
        Ok(()) => OK,
        Err(misuse) => of_misuse(misuse),
    }
}

#[inline]
pub(crate) fn of_word(answer: Result<u64, Misuse>) -> u32
    ensures { result ≡ word_code answer }
{
    match answer {
        Ok(_) => OK,
        Err(misuse) => of_misuse(misuse),
    }
}

/// Writes a word that was read directly to its place.
#[inline]
pub(crate) fn put_word(answer: Result<u64, Misuse>, value: &mut u64)
    ensures { value.new ≡ word_value answer value.old }
{
    if let Ok(found) = answer {
        *value = found;
    }
}

pub(crate) fn of_taken(answer: Result<Result<(), Refusal>, Misuse>) -> u32
    ensures { result ≡ taken_code answer }
{
    match answer {
        Ok(Ok(())) => OK,
        Ok(Err(refusal)) => of_refusal(refusal),
        Err(misuse) => of_misuse(misuse),
    }
}

pub(crate) fn of_given(answer: Result<Result<Give, Refusal>, Misuse>) -> u32
    ensures { result ≡ given_code answer }
{
    match answer {
        Ok(Ok(Give::Committed { .. } | Give::Unchanged)) => OK,
        Ok(Ok(Give::ClockFull { .. })) => CLOCK_FULL,
        Ok(Err(refusal)) => of_refusal(refusal),
        Err(misuse) => of_misuse(misuse),
    }
}

pub(crate) fn of_reserved(answer: Result<Result<(), Memory>, Misuse>) -> u32
    ensures { result ≡ reserved_code answer }
{
    match answer {
        Ok(Ok(())) => OK,
        Ok(Err(Memory)) => MEMORY,
        Err(misuse) => of_misuse(misuse),
    }
}

pub(crate) fn of_open(error: OpenError) -> u32
    ensures { result ≡ open_code error }
{
    match error {
        OpenError::Refused(NewError::Words) => SIZE_WORDS,
        OpenError::Refused(NewError::Records) => SIZE_RECORDS,
        OpenError::Refused(NewError::Ring) => SIZE_RING,
        OpenError::Refused(NewError::Callers) => SIZE_CALLERS,
        // Marks are room in a log, and C has no number of them.
        OpenError::Refused(NewError::Logs | NewError::Marks) => SIZE_LOGS,
        OpenError::Refused(NewError::Clock) => SIZE_CLOCK,
        OpenError::Refused(NewError::Memory) | OpenError::Memory => MEMORY,
        OpenError::Busy(_) => BUSY,
    }
}
