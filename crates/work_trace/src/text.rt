//! Traces, written as their text.
ghost use Rattle.std.specs.Prelude.{◌≡◌, ◌∷◌, ◌++◌, [], codes, IfOk, OnOk, string_bytes};
ghost use Rattle.std.specs.Fmt.{decimal};
ghost use Rattle.work_trace.specs.declared.said.Said.{Said};
ghost use Rattle.stm_model.specs.Algorithms.{alg_name};
ghost use Rattle.work_trace.specs.Texts.{spaced, cause_bytes, stop_bytes, said_bytes, line_bytes, trace_bytes};

use crate::line::Line;
use crate::said::Said;
use std::alloc::{AllocError, Global};
use stm_answers::answers::{Begin, Cancel, CloseGate, Commit, Irrev, Look};
use stm_model::alg::Alg;
use stm_model::memory::Memory;
use stm_model::stop::{Cause, Stop};
use work_script::op::Op;

/// The text of a trace, a line for each. Memory may be refused.
pub fn trace_text(alloc: Global, lines: &[Line]) -> Result<Vec<u8>, Memory>
    ensures { IfOk result (λ t. t.items ≡ trace_bytes lines.now) }
{
    let mut text = String::new(alloc);
    put_lines(&mut text, lines)?;
    Ok(text.into_bytes())
}

fn put_lines(text: &mut String, lines: &[Line]) -> Result<(), AllocError>
    ensures { OnOk result (string_bytes text.new ≡ string_bytes text.old ++ trace_bytes lines.now) }
{
    for line in lines {
        put_line(text, *line)?;
    }
    Ok(())
}

fn put_line(text: &mut String, line: Line) -> Result<(), AllocError>
    ensures { OnOk result (string_bytes text.new ≡ string_bytes text.old ++ line_bytes line) }
{
    match line {
        Line::Of { caller, said } => {
            write!(text, "{caller}")?;
            put_said(text, said)?;
            text.push_str("\n")
        }
        Line::Finish => text.push_str("finish\n"),
    }
}

/// What a turn says, after the caller: a space and its words. Memory may be refused.
pub fn put_said(text: &mut String, said: Said) -> Result<(), AllocError>
    ensures { OnOk result (string_bytes text.new ≡ string_bytes text.old ++ said_bytes said) }
{
    match said {
        Said::TryBegin(begin) => put_begin(text, begin),
        Said::Reply(op, reply) => put_reply(text, op, reply),
        Said::Stopped(op, stop) => put_stopped(text, op, stop),
        Said::TryCancel(cancel) => put_cancel(text, cancel),
        Said::TryIrrevocable(irrev) => put_irrevocable(text, irrev),
        Said::TryCommit(commit) => put_commit(text, commit),
        Said::TryClose(close) => put_close(text, close),
        Said::Looked(look) => put_look(text, look),
        Said::Installed(alg) => put_alg(text, " install ", alg),
        Said::Reserved { reads, writes } => put_two(text, " reserve", reads as u64, writes as u64),
        Said::Idle => text.push_str(" idle"),
        Said::Dropped => text.push_str(" drop"),
        Said::Reopened => text.push_str(" reopen"),
    }
}

fn put_begin(text: &mut String, begin: Begin) -> Result<(), AllocError>
    ensures { OnOk result
        (string_bytes text.new ≡ string_bytes text.old ++ said_bytes (Said.TryBegin begin)) }
{
    match begin {
        Begin::Begun(alg) => put_alg(text, " begin ", alg),
        Begin::Closed { gate } => put_one(text, " begin closed", gate),
        Begin::Held { word } => put_one(text, " begin held", word),
        Begin::ClockFull { clock } => put_one(text, " begin clockfull", clock),
    }
}

/// `NAME REPLY`.
fn put_reply(text: &mut String, op: Op, reply: u64) -> Result<(), AllocError>
    ensures { OnOk result
        (string_bytes text.new ≡ string_bytes text.old ++ said_bytes (Said.Reply op reply)) }
{
    text.push_str(" ")?;
    put_one(text, op.name(), reply)
}

/// `NAME`, and why the operation ended the attempt.
fn put_stopped(text: &mut String, op: Op, stop: Stop) -> Result<(), AllocError>
    ensures { OnOk result
        (string_bytes text.new ≡ string_bytes text.old ++ said_bytes (Said.Stopped op stop)) }
{
    text.push_str(" ")?;
    text.push_str(op.name())?;
    put_stop(text, stop)
}

/// Why an operation ended the attempt, after its name: a space and its words. Memory may be refused.
pub fn put_stop(text: &mut String, stop: Stop) -> Result<(), AllocError>
    ensures { OnOk result (string_bytes text.new ≡ string_bytes text.old ++ stop_bytes stop) }
{
    match stop {
        Stop::Conflict(cause) => put_cause(text, cause),
        Stop::Full { limit } => put_one(text, " full", limit as u64),
        Stop::ClockFull { clock } => put_one(text, " clockfull", clock),
    }
}

fn put_cause(text: &mut String, cause: Cause) -> Result<(), AllocError>
    ensures { OnOk result (string_bytes text.new ≡ string_bytes text.old ++ cause_bytes cause) }
{
    match cause {
        Cause::Clock { had, now } => put_two(text, " conflict clock", had, now),
        Cause::Record { index, word, start } => {
            put_three(text, " conflict record", index as u64, word, start)
        }
        Cause::Moved {
            index,
            before,
            after,
        } => { put_three(text, " conflict moved", index as u64, before, after) }
        Cause::Filter { time, bits } => put_two(text, " conflict filter", time, bits),
        Cause::Overrun { start, clock } => put_two(text, " conflict overrun", start, clock),
    }
}

fn put_cancel(text: &mut String, cancel: Cancel) -> Result<(), AllocError>
    ensures { OnOk result
        (string_bytes text.new ≡ string_bytes text.old ++ said_bytes (Said.TryCancel cancel)) }
{
    match cancel {
        Cancel::Cancelled { time } => put_one(text, " cancel cancelled", time),
        Cancel::Irrevocable => text.push_str(" cancel irrevocable"),
    }
}

fn put_irrevocable(text: &mut String, irrev: Irrev) -> Result<(), AllocError>
    ensures { OnOk result
        (string_bytes text.new ≡ string_bytes text.old ++ said_bytes (Said.TryIrrevocable irrev)) }
{
    match irrev {
        Irrev::Granted => text.push_str(" irrev granted"),
        Irrev::Busy { caller, status } => put_two(text, " irrev busy", caller as u64, status),
        Irrev::Taken { gate } => put_one(text, " irrev taken", gate),
        Irrev::Conflict(cause) => {
            text.push_str(" irrev")?;
            put_cause(text, cause)
        }
        Irrev::ClockFull { clock } => put_one(text, " irrev clockfull", clock),
    }
}

fn put_commit(text: &mut String, commit: Commit) -> Result<(), AllocError>
    ensures { OnOk result
        (string_bytes text.new ≡ string_bytes text.old ++ said_bytes (Said.TryCommit commit)) }
{
    match commit {
        Commit::Committed { time } => put_one(text, " commit committed", time),
        Commit::ReadOnly { time } => put_one(text, " commit readonly", time),
        Commit::Conflict(cause) => {
            text.push_str(" commit")?;
            put_cause(text, cause)
        }
        Commit::Again { word, had, now } => put_three(text, " commit again", word, had, now),
        Commit::ClockFull { clock } => put_one(text, " commit clockfull", clock),
    }
}

fn put_close(text: &mut String, close: CloseGate) -> Result<(), AllocError>
    ensures { OnOk result
        (string_bytes text.new ≡ string_bytes text.old ++ said_bytes (Said.TryClose close)) }
{
    match close {
        CloseGate::Closed => text.push_str(" close closed"),
        CloseGate::Taken { gate } => put_one(text, " close taken", gate),
    }
}

fn put_look(text: &mut String, look: Look) -> Result<(), AllocError>
    ensures { OnOk result
        (string_bytes text.new ≡ string_bytes text.old ++ said_bytes (Said.Looked look)) }
{
    match look {
        Look::Quiet => text.push_str(" look quiet"),
        Look::Busy { caller, status } => put_two(text, " look busy", caller as u64, status),
    }
}

fn put_alg(text: &mut String, words: &str, alg: Alg) -> Result<(), AllocError>
    ensures { OnOk result
        (string_bytes text.new ≡ string_bytes text.old ++ (words.now ++ alg_name alg)) }
{
    text.push_str(words)?;
    text.push_str(alg.name())
}

/// Words, and a number after them; two; three. Memory may be refused.
pub fn put_one(text: &mut String, words: &str, a: u64) -> Result<(), AllocError>
    ensures { OnOk result
        (string_bytes text.new ≡ string_bytes text.old ++ (words.now ++ spaced (a ∷ []))) }
{
    text.push_str(words)?;
    put_number(text, a)
}

pub fn put_two(text: &mut String, words: &str, a: u64, b: u64) -> Result<(), AllocError>
    ensures { OnOk result
        (string_bytes text.new ≡ string_bytes text.old ++ (words.now ++ spaced (a ∷ b ∷ []))) }
{
    put_one(text, words, a)?;
    put_number(text, b)
}

pub fn put_three(text: &mut String, words: &str, a: u64, b: u64, c: u64) -> Result<(), AllocError>
    ensures { OnOk result
        (string_bytes text.new ≡ string_bytes text.old ++ (words.now ++ spaced (a ∷ b ∷ c ∷ []))) }
{
    put_two(text, words, a, b)?;
    put_number(text, c)
}

fn put_number(text: &mut String, n: u64) -> Result<(), AllocError>
    ensures { OnOk result (string_bytes text.new ≡ string_bytes text.old ++ (32 ∷ decimal n)) }
{
    write!(text, " {n}")
}
