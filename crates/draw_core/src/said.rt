//! The words of a line of a trace, and what they say.
ghost use Rattle.std.specs.Prelude.{◌≡◌, ◌∷◌, ◌<◌, ◌≤◌, [], length, MatchOption};
ghost use Rattle.work_check.specs.Grammar.{words_left};
ghost use Rattle.work_text.specs.Lines.{words_of};
ghost use Rattle.draw_core.specs.Grammar.{is_nil, one_of, two_of, three_of, alg_in, alg_named, op_in, op_named, cause_of, stop_of, begin_of, operation_of, cancel_of, irrev_of, commit_of, close_of, look_of, install_of, reserve_of, plain_of, between_of, said_of, line_of};

use stm_answers::answers::{Begin, Cancel, CloseGate, Commit, Irrev, Look};
use stm_model::alg::{ALGORITHMS, Alg};
use stm_model::config::MAX_CALLERS;
use stm_model::stop::{Cause, Stop};
use work_check::words::first_word;
use work_script::op::{Op, PLACED_KEYED, PLACED_KEYLESS};
use work_text::lines;
use work_trace::line::Line;
use work_trace::said::Said;

/// The operations on plain words and those with three numbers, here with zeros.
/// The others stand in the tables of work_script.
pub const PLAIN: [Op; 8] = [
    Op::Read(0),
    Op::Write(0, 0),
    Op::Add(0, 0),
    Op::Move(0, 0, 0),
    Op::Emit(0),
    Op::Count(0, 0, 0),
    Op::MapPut(0, 0, 0),
    Op::MapSum(0, 0, 0),
];

/// The next word, where there is one, and the rest after it.
fn next_word(rest: &[u8]) -> Option<(&[u8], &[u8])>
    ensures { MatchOption result (words_left rest.now ≡ []) (λ n.
        words_left rest.now ≡ n.0.now ∷ words_left n.1.now) }
{
    if rest.is_empty() {
        return None;
    }
    Some(first_word(lines::past(rest, 0)))
}

/// Whether no word follows.
fn is_last(rest: &[u8]) -> bool
    ensures { result ≡ is_nil (words_left rest.now) }
{
    rest.is_empty()
}

/// A value, where no word follows.
fn alone<T: Copy>(value: T, rest: &[u8]) -> Option<T>
    ensures { result ≡ Rattle.draw_core.specs.Grammar.alone value (words_left rest.now) }
{
    if is_last(rest) { Some(value) } else { None }
}

/// One number and nothing more; two; three.
fn one(rest: &[u8]) -> Option<u64>
    ensures { result ≡ one_of (words_left rest.now) }
{
    let (word, rest) = next_word(rest)?;
    if !is_last(rest) {
        return None;
    }
    lines::number(word)
}

fn two(rest: &[u8]) -> Option<(u64, u64)>
    ensures { result ≡ two_of (words_left rest.now) }
{
    let (word, rest) = next_word(rest)?;
    let a = lines::number(word)?;
    let b = one(rest)?;
    Some((a, b))
}

fn three(rest: &[u8]) -> Option<(u64, u64, u64)>
    ensures { result ≡ three_of (words_left rest.now) }
{
    let (word, rest) = next_word(rest)?;
    let a = lines::number(word)?;
    let (b, c) = two(rest)?;
    Some((a, b, c))
}

/// Of these algorithms the first one of this name.
fn algorithm_in(algs: &[Alg], word: &[u8]) -> Option<Alg>
    ensures { result ≡ alg_in algs.now word.now }
{
    for alg in algs {
        if lines::is(word, alg.name().as_bytes()) {
            return Some(*alg);
        }
    }
    None
}

fn algorithm(word: &[u8]) -> Option<Alg>
    ensures { result ≡ alg_named word.now }
{
    algorithm_in(&ALGORITHMS, word)
}

/// Of these operations the first one of this name.
fn operation_in(ops: &[Op], word: &[u8]) -> Option<Op>
    ensures { result ≡ op_in ops.now word.now }
{
    for op in ops {
        if lines::is(word, op.name().as_bytes()) {
            return Some(*op);
        }
    }
    None
}

/// The operation of this name, with zeros: a trace doesn't tell what an operation works on.
fn operation_named(word: &[u8]) -> Option<Op>
    ensures { result ≡ op_named word.now }
{
    if let Some(op) = operation_in(&PLAIN, word) {
        return Some(op);
    }
    if let Some(op) = operation_in(&PLACED_KEYED, word) {
        return Some(op);
    }
    operation_in(&PLACED_KEYLESS, word)
}

/// The cause, after the word `conflict`.
fn cause(rest: &[u8]) -> Option<Cause>
    ensures { result ≡ cause_of (words_left rest.now) }
{
    let (word, rest) = next_word(rest)?;
    if lines::is(word, b"clock") {
        let (had, now) = two(rest)?;
        return Some(Cause::Clock { had, now });
    }
    if lines::is(word, b"record") {
        let (index, word, start) = three(rest)?;
        return Some(Cause::Record {
            index: index as usize,
            word,
            start,
        });
    }
    if lines::is(word, b"moved") {
        let (index, before, after) = three(rest)?;
        return Some(Cause::Moved {
            index: index as usize,
            before,
            after,
        });
    }
    if lines::is(word, b"filter") {
        let (time, bits) = two(rest)?;
        return Some(Cause::Filter { time, bits });
    }
    if lines::is(word, b"overrun") {
        let (start, clock) = two(rest)?;
        return Some(Cause::Overrun { start, clock });
    }
    None
}

/// Why an operation ended the attempt.
fn stop(rest: &[u8]) -> Option<Stop>
    ensures { result ≡ stop_of (words_left rest.now) }
{
    let (word, rest) = next_word(rest)?;
    if lines::is(word, b"conflict") {
        return Some(Stop::Conflict(cause(rest)?));
    }
    if lines::is(word, b"full") {
        return Some(Stop::Full {
            limit: one(rest)? as usize,
        });
    }
    if lines::is(word, b"clockfull") {
        return Some(Stop::ClockFull { clock: one(rest)? });
    }
    None
}

fn begin(rest: &[u8]) -> Option<Said>
    ensures { result ≡ begin_of (words_left rest.now) }
{
    let (word, rest) = next_word(rest)?;
    if lines::is(word, b"closed") {
        return Some(Said::TryBegin(Begin::Closed { gate: one(rest)? }));
    }
    if lines::is(word, b"held") {
        return Some(Said::TryBegin(Begin::Held { word: one(rest)? }));
    }
    if lines::is(word, b"clockfull") {
        return Some(Said::TryBegin(Begin::ClockFull { clock: one(rest)? }));
    }
    let alg = algorithm(word)?;
    alone(Said::TryBegin(Begin::Begun(alg)), rest)
}

/// The reply of an operation, or why it ended the attempt.
fn operation(op: Op, rest: &[u8]) -> Option<Said>
    ensures { result ≡ operation_of op (words_left rest.now) }
{
    if let Some(reply) = one(rest) {
        return Some(Said::Reply(op, reply));
    }
    Some(Said::Stopped(op, stop(rest)?))
}

fn cancel(rest: &[u8]) -> Option<Said>
    ensures { result ≡ cancel_of (words_left rest.now) }
{
    let (word, rest) = next_word(rest)?;
    if lines::is(word, b"cancelled") {
        return Some(Said::TryCancel(Cancel::Cancelled { time: one(rest)? }));
    }
    if lines::is(word, b"irrevocable") {
        return alone(Said::TryCancel(Cancel::Irrevocable), rest);
    }
    None
}

fn irrevocable(rest: &[u8]) -> Option<Said>
    ensures { result ≡ irrev_of (words_left rest.now) }
{
    let (word, rest) = next_word(rest)?;
    if lines::is(word, b"granted") {
        return alone(Said::TryIrrevocable(Irrev::Granted), rest);
    }
    if lines::is(word, b"busy") {
        let (caller, status) = two(rest)?;
        return Some(Said::TryIrrevocable(Irrev::Busy {
            caller: caller as usize,
            status,
        }));
    }
    if lines::is(word, b"taken") {
        return Some(Said::TryIrrevocable(Irrev::Taken { gate: one(rest)? }));
    }
    if lines::is(word, b"conflict") {
        return Some(Said::TryIrrevocable(Irrev::Conflict(cause(rest)?)));
    }
    if lines::is(word, b"clockfull") {
        return Some(Said::TryIrrevocable(Irrev::ClockFull { clock: one(rest)? }));
    }
    None
}

fn commit(rest: &[u8]) -> Option<Said>
    ensures { result ≡ commit_of (words_left rest.now) }
{
    let (word, rest) = next_word(rest)?;
    if lines::is(word, b"committed") {
        return Some(Said::TryCommit(Commit::Committed { time: one(rest)? }));
    }
    if lines::is(word, b"readonly") {
        return Some(Said::TryCommit(Commit::ReadOnly { time: one(rest)? }));
    }
    if lines::is(word, b"conflict") {
        return Some(Said::TryCommit(Commit::Conflict(cause(rest)?)));
    }
    if lines::is(word, b"again") {
        let (word, had, now) = three(rest)?;
        return Some(Said::TryCommit(Commit::Again { word, had, now }));
    }
    if lines::is(word, b"clockfull") {
        return Some(Said::TryCommit(Commit::ClockFull { clock: one(rest)? }));
    }
    None
}

fn close(rest: &[u8]) -> Option<Said>
    ensures { result ≡ close_of (words_left rest.now) }
{
    let (word, rest) = next_word(rest)?;
    if lines::is(word, b"closed") {
        return alone(Said::TryClose(CloseGate::Closed), rest);
    }
    if lines::is(word, b"taken") {
        return Some(Said::TryClose(CloseGate::Taken { gate: one(rest)? }));
    }
    None
}

fn look(rest: &[u8]) -> Option<Said>
    ensures { result ≡ look_of (words_left rest.now) }
{
    let (word, rest) = next_word(rest)?;
    if lines::is(word, b"quiet") {
        return alone(Said::Looked(Look::Quiet), rest);
    }
    if lines::is(word, b"busy") {
        let (caller, status) = two(rest)?;
        return Some(Said::Looked(Look::Busy {
            caller: caller as usize,
            status,
        }));
    }
    None
}

fn install(rest: &[u8]) -> Option<Said>
    ensures { result ≡ install_of (words_left rest.now) }
{
    let (word, rest) = next_word(rest)?;
    let alg = algorithm(word)?;
    alone(Said::Installed(alg), rest)
}

fn reserve(rest: &[u8]) -> Option<Said>
    ensures { result ≡ reserve_of (words_left rest.now) }
{
    let (reads, writes) = two(rest)?;
    Some(Said::Reserved {
        reads: reads as usize,
        writes: writes as usize,
    })
}

/// A word that says all, or an operation.
fn plain(word: &[u8], rest: &[u8]) -> Option<Said>
    ensures { result ≡ plain_of word.now (words_left rest.now) }
{
    if lines::is(word, b"idle") {
        return alone(Said::Idle, rest);
    }
    if lines::is(word, b"drop") {
        return alone(Said::Dropped, rest);
    }
    if lines::is(word, b"reopen") {
        return alone(Said::Reopened, rest);
    }
    operation(operation_named(word)?, rest)
}

/// A call between two attempts, but for one that begins.
fn between(word: &[u8], rest: &[u8]) -> Option<Said>
    ensures { result ≡ between_of word.now (words_left rest.now) }
{
    if lines::is(word, b"close") {
        return close(rest);
    }
    if lines::is(word, b"look") {
        return look(rest);
    }
    if lines::is(word, b"install") {
        return install(rest);
    }
    if lines::is(word, b"reserve") {
        return reserve(rest);
    }
    plain(word, rest)
}

/// What a turn says, by its words after the caller.
fn said(rest: &[u8]) -> Option<Said>
    ensures { result ≡ said_of (words_left rest.now) }
{
    let (word, rest) = next_word(rest)?;
    if lines::is(word, b"begin") {
        return begin(rest);
    }
    if lines::is(word, b"cancel") {
        return cancel(rest);
    }
    if lines::is(word, b"irrev") {
        return irrevocable(rest);
    }
    if lines::is(word, b"commit") {
        return commit(rest);
    }
    between(word, rest)
}

/// A line of a trace, where these are its bytes. An operation has zeros for what it works on.
pub fn line(bytes: &[u8]) -> Option<Line>
    ensures { result ≡ line_of (words_of bytes.now) }
{
    let (word, rest) = first_word(bytes);
    if lines::is(word, b"finish") {
        return alone(Line::Finish, rest);
    }
    let caller = lines::number(word)?;
    if MAX_CALLERS as u64 <= caller {
        return None;
    }
    let said = said(rest)?;
    Some(Line::Of {
        caller: caller as usize,
        said,
    })
}

/// Whether a line says that the clock is full, as the last one of a text does that a full clock ended.
pub fn is_full_clock(bytes: &[u8]) -> bool
    ensures { result ≡ Rattle.draw_core.specs.Grammar.is_full_clock (words_of bytes.now) }
{
    let (word, rest) = first_word(bytes);
    let Some((next, rest)) = next_word(rest) else {
        return false;
    };
    lines::is(word, b"clock") && lines::is(next, b"full") && one(rest).is_some()
}
