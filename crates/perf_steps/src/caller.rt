//! The calls of a caller, and what they come to in a word.

use stm_answers::answers::{Begin, Cancel, Check, Commit, Irrev, Read, Roll, Write};
use tx_checked::checked_caller::CheckedCaller;
use tx_checked::misuse::Misuse;

/// One call.
#[derive(Clone, Copy, Drop)]
pub enum Move {
    Begin,
    Read(usize),
    Write(usize),
    Commit,
    Cancel,
    Promote,
    Mark,
    /// To the first mark.
    RollBack,
}

/// What a call came to.
#[derive(Clone, Copy, Drop, Debug)]
pub enum Answer {
    Done,
    Conflict,
    Full,
    ClockFull,
    Again,
    Busy,
    /// Another caller has the gate, the lock or the clock.
    Taken,
    Irrevocable,
    /// The caller doesn't stand where it may make this call.
    Misplaced,
}

/// Makes the call, and answers what it came to. It writes 7.
pub fn play(caller: &mut CheckedCaller, step: Move) -> Answer {
    match step {
        Move::Begin => of_begin(caller.begin()),
        Move::Read(a) => of_read(caller.read(a)),
        Move::Write(a) => of_write(caller.write(a, 7)),
        Move::Commit => of_commit(caller.commit()),
        Move::Cancel => of_cancel(caller.cancel()),
        Move::Promote => of_promotion(caller.try_irrevocable()),
        Move::Mark => of_mark(caller.checkpoint()),
        Move::RollBack => of_roll(caller.roll_to(1)),
    }
}

fn of_begin(answer: Result<Begin, Misuse>) -> Answer {
    match answer {
        Ok(Begin::Begun(_)) => Answer::Done,
        Ok(Begin::Closed { .. }) | Ok(Begin::Held { .. }) => Answer::Taken,
        Ok(Begin::ClockFull { .. }) => Answer::ClockFull,
        Err(_) => Answer::Misplaced,
    }
}

fn of_read(answer: Result<Read, Misuse>) -> Answer {
    match answer {
        Ok(Read::Value(_)) => Answer::Done,
        Ok(Read::Conflict(_)) => Answer::Conflict,
        Ok(Read::Full { .. }) => Answer::Full,
        Err(_) => Answer::Misplaced,
    }
}

fn of_write(answer: Result<Write, Misuse>) -> Answer {
    match answer {
        Ok(Write::Done) => Answer::Done,
        Ok(Write::Conflict(_)) => Answer::Conflict,
        Ok(Write::Full { .. }) => Answer::Full,
        Ok(Write::ClockFull { .. }) => Answer::ClockFull,
        Err(_) => Answer::Misplaced,
    }
}

fn of_commit(answer: Result<Commit, Misuse>) -> Answer {
    match answer {
        Ok(Commit::Committed { .. }) | Ok(Commit::ReadOnly { .. }) => Answer::Done,
        Ok(Commit::Conflict(_)) => Answer::Conflict,
        Ok(Commit::Again { .. }) => Answer::Again,
        Ok(Commit::ClockFull { .. }) => Answer::ClockFull,
        Err(_) => Answer::Misplaced,
    }
}

fn of_cancel(answer: Result<Cancel, Misuse>) -> Answer {
    match answer {
        Ok(Cancel::Cancelled { .. }) => Answer::Done,
        Ok(Cancel::Irrevocable) => Answer::Irrevocable,
        Err(_) => Answer::Misplaced,
    }
}

fn of_promotion(answer: Result<Irrev, Misuse>) -> Answer {
    match answer {
        Ok(Irrev::Granted) => Answer::Done,
        Ok(Irrev::Busy { .. }) => Answer::Busy,
        Ok(Irrev::Taken { .. }) => Answer::Taken,
        Ok(Irrev::Conflict(_)) => Answer::Conflict,
        Ok(Irrev::ClockFull { .. }) => Answer::ClockFull,
        Err(_) => Answer::Misplaced,
    }
}

fn of_mark(answer: Result<Check, Misuse>) -> Answer {
    match answer {
        Ok(Check::Marked { .. }) => Answer::Done,
        Ok(Check::Deep { .. }) => Answer::Full,
        Err(_) => Answer::Misplaced,
    }
}

fn of_roll(answer: Result<Roll, Misuse>) -> Answer {
    match answer {
        Ok(Roll::Rolled) => Answer::Done,
        Ok(Roll::Irrevocable) => Answer::Irrevocable,
        Err(_) => Answer::Misplaced,
    }
}
