//! The top call.
ghost use Rattle.std.specs.Prelude.{◌≡◌, IfOk, OnErr};
ghost use Rattle.work_bench.specs.Outcomes.{SaidOf, Says, SaysAlone, SaysApart, SaysChecked, SaysRead, Spared, IsOutcome, kept, most_checked, most_read};
ghost use Rattle.work_io.specs.Ends.{TookSome};

use crate::checks::{judge, judge_alone, judge_apart, refused};
use crate::commands::{Saying, report, summarize, trace};
use crate::messages;
use crate::status::Status;
use crate::why::Why;
use std::alloc::Global;
use std::sync::Wait;
use std::thread::Threads;
use stm_model::memory::Memory;
use stm_rule::ending::Closed;
use work_check::checking::{MOST_CHECKED, Part};
use work_cli::command::Command;
use work_cli::help::help_of;
use work_cli::laws::words_ask_once;
use work_cli::reading::read_words;
use work_cli::wrong::wrong_word;
use work_faults::fault::Fault;
use work_faults::laws::codes_are_faults;
use work_faults::workload::workload_fault;
use work_io::ends::{Failed, Sink, Source};
use work_io::whole::{ReadError, put_all, read_all};
use work_profile::policy::Policy;
use work_text::parse::{Mode, ParseError, parse};
use work_worker::turnstile::Turnstile;

/// How many bytes of a text are read: one more than a workload's text may have.
const MOST_READ: usize = 16777217;

/// Does what the words of the command line ask: `words` are the program's name, and `run [--policy P] [FILE]`,
/// `step [FILE]`, `gen N T SEED`, `check [FILE [REPORT]]`, or a call for help.
///
/// `source` is that of FILE, or of standard input where none is named; `report` that of REPORT, which else isn't read.
///
/// `run` and `step` read the workload's text from `source`. `run` runs its transactions on a thread a caller, caller 0
/// under the policy, and writes the report to `sink`, whole once it is made; `step` runs them in the turns of the
/// text's schedule, and writes the trace before the report. `gen` reads nothing: it runs the workload of N
/// transactions, 1 to 50,000, of T callers, 1 to 32, that is drawn from SEED, as `run` does, and writes its summary.
/// `check` reads a workload's text and, after its line `done`, a report, and writes whether the report replays the
/// workload. With FILE alone it writes whether the text is a workload; with REPORT the report, or what `step` wrote, is
/// that of `report`, and lines count in the text that is at fault. Every other end writes one line, under `step` at a
/// full clock after the trace so far, or with `Memory` nothing; see [`Status`].
///
/// `ClockFull`, and `Ok` of every command but `check`, leave in `last` the closed memory of this call's run; every
/// other status leaves `last` as it was, and so does `check`.
///
/// With structures on, the memory's rule is that each of their regions is well formed; with them off there is none.
///
/// `rt` is the runtime value that waiting calls and threads take: a transaction that does not get the memory
/// begins again, for as long as it takes. `turnstile` is passed right before an attempt's first commit; see
/// [`Turnstile`].
///
/// `Usage`, `Refused`, `ReadFault` and `No` leave in `why` what is wrong, in a sentence, and in which of the sources,
/// where memory for it is there.
pub fn bench<R: Threads + Wait + Sync, S: Source, K: Sink, G: Turnstile + Sync>(
    rt: &R,
    alloc: Global,
    words: &[&str],
    source: &mut S,
    report: &mut S,
    sink: &mut K,
    turnstile: &G,
    last: &mut Option<Closed>,
    why: &mut Option<Why>,
) -> Status
    ensures { IsOutcome S.left S.faults source.old source.new report.old report.new words.now K.held
        K.faults sink.old sink.new last.old last.new result }
{
    let Ok(saying) = saying_of_words(rt, alloc, words, source, report, turnstile) else {
        return Status::Memory;
    };
    match put_all(sink, saying.text.as_slice()) {
        Ok(()) => {
            keep(last, saying.closed);
            *why = saying.why;
            saying.status
        }
        Err(Failed) => Status::WriteFault,
    }
}

/// Keeps the closed memory, where there is one.
fn keep(last: &mut Option<Closed>, closed: Option<Closed>)
    ensures { last.new ≡ kept closed last.old }
{
    if let Some(closed) = closed {
        *last = Some(closed);
    }
}

/// What is to be written, made whole before any of it is.
fn saying_of_words<R: Threads + Wait + Sync, S: Source, G: Turnstile + Sync>(
    rt: &R,
    alloc: Global,
    words: &[&str],
    source: &mut S,
    report: &mut S,
    turnstile: &G,
) -> Result<Saying, Memory>
    ensures says { IfOk result (λ s.
        Says S.left S.faults source.old source.new report.old report.new words.now s.status s.closed s.text.items) }
    ensures spared { OnErr result (
        Spared S.left S.faults source.old source.new report.old report.new words.now) }
{
    words_ask_once();
    if let Some(topic) = help_of(words) {
        return Ok(Saying::short(Status::Help, messages::help(alloc, topic)?));
    }
    let Some(command) = read_words(alloc, words)? else {
        return Ok(Saying {
            status: Status::Usage,
            text: messages::usage(alloc)?,
            closed: None,
            why: Why::of(Part::Workload, wrong_word(alloc, words).ok()),
        });
    };
    match command {
        Command::Run { policy } => saying_of_source(
            rt,
            alloc,
            Mode::Run,
            policy,
            source,
            turnstile,
        ),
        Command::Step => saying_of_source(rt, alloc, Mode::Step, Policy::Fixed, source, turnstile),
        Command::Gen {
            transactions,
            callers,
            seed,
        } => summarize(rt, alloc, transactions, callers, seed, turnstile),
        Command::Check => saying_of_check(alloc, source),
        Command::CheckWorkload => saying_of_workload(alloc, source),
        Command::CheckApart => saying_of_both(alloc, source, report),
    }
}

/// What is to be written of the workload and the report that the source has.
fn saying_of_check<S: Source>(alloc: Global, source: &mut S) -> Result<Saying, Memory>
    ensures says { IfOk result (λ s.
        SaysChecked S.left S.faults source.old source.new s.status s.closed s.text.items) }
    ensures lost { OnErr result (TookSome most_checked (S.left source.old) (S.left source.new)) }
    ensures calm { OnErr result (S.faults source.new ≡ S.faults source.old) }
{
    // made before the source is read, so that its fault is never told as want of memory
    let read_fault = messages::read_fault(alloc)?;
    match read_all(alloc, source, MOST_CHECKED) {
        Ok(text) => judge(alloc, text.as_slice()),
        Err(ReadError::Failed) => Ok(Saying::unread(alloc, Part::Workload, read_fault)),
        Err(ReadError::Memory) => Err(Memory),
    }
}

/// What is to be written of the workload alone that the source has, under `check`.
fn saying_of_workload<S: Source>(alloc: Global, source: &mut S) -> Result<Saying, Memory>
    ensures says { IfOk result (λ s.
        SaysAlone S.left S.faults source.old source.new s.status s.closed s.text.items) }
    ensures lost { OnErr result (TookSome most_read (S.left source.old) (S.left source.new)) }
    ensures calm { OnErr result (S.faults source.new ≡ S.faults source.old) }
{
    let read_fault = messages::read_fault(alloc)?;
    match read_all(alloc, source, MOST_READ) {
        Ok(text) => judge_alone(alloc, text.as_slice()),
        Err(ReadError::Failed) => Ok(Saying::unread(alloc, Part::Workload, read_fault)),
        Err(ReadError::Memory) => Err(Memory),
    }
}

/// What is to be written of the workload that a source has, and the report that another has.
fn saying_of_both<S: Source>(
    alloc: Global,
    source: &mut S,
    report: &mut S,
) -> Result<Saying, Memory>
    ensures says { IfOk result (λ s.
        SaysApart S.left S.faults source.old source.new report.old report.new s.status s.closed s.text.items) }
    ensures lost { OnErr result (TookSome most_read (S.left source.old) (S.left source.new)) }
    ensures calm { OnErr result (S.faults source.new ≡ S.faults source.old) }
    ensures second { OnErr result (TookSome most_checked (S.left report.old) (S.left report.new)) }
    ensures second_calm { OnErr result (S.faults report.new ≡ S.faults report.old) }
{
    let read_fault = messages::read_fault(alloc)?;
    let text = match read_all(alloc, source, MOST_READ) {
        Ok(text) => text,
        Err(ReadError::Failed) => return Ok(Saying::unread(alloc, Part::Workload, read_fault)),
        Err(ReadError::Memory) => return Err(Memory),
    };
    match read_all(alloc, report, MOST_CHECKED) {
        Ok(told) => judge_apart(alloc, text.as_slice(), told.as_slice()),
        Err(ReadError::Failed) => Ok(Saying::unread(alloc, Part::Report, read_fault)),
        Err(ReadError::Memory) => Err(Memory),
    }
}

/// What is to be written of the text that the source has.
fn saying_of_source<R: Threads + Wait + Sync, S: Source, G: Turnstile + Sync>(
    rt: &R,
    alloc: Global,
    mode: Mode,
    policy: Policy,
    source: &mut S,
    turnstile: &G,
) -> Result<Saying, Memory>
    ensures says { IfOk result (λ s.
        SaysRead S.left S.faults source.old source.new mode policy s.status s.closed s.text.items) }
    ensures lost { OnErr result (TookSome most_read (S.left source.old) (S.left source.new)) }
    ensures calm { OnErr result (S.faults source.new ≡ S.faults source.old) }
{
    let read_fault = messages::read_fault(alloc)?;
    match read_all(alloc, source, MOST_READ) {
        Ok(text) => saying_of_text(rt, alloc, mode, policy, text.as_slice(), turnstile),
        Err(ReadError::Failed) => Ok(Saying::unread(alloc, Part::Workload, read_fault)),
        Err(ReadError::Memory) => Err(Memory),
    }
}

/// What is to be written of a text that was read.
fn saying_of_text<R: Threads + Wait + Sync, G: Turnstile + Sync>(
    rt: &R,
    alloc: Global,
    mode: Mode,
    policy: Policy,
    text: &[u8],
    turnstile: &G,
) -> Result<Saying, Memory>
    ensures { IfOk result (λ s. SaidOf mode policy text.now s.status s.closed s.text.items) }
{
    codes_are_faults();
    match parse(alloc, text, mode) {
        Ok(workload) => match mode {
            Mode::Run => report(rt, alloc, policy, workload, turnstile),
            Mode::Step => trace(rt, alloc, workload),
        },
        Err(ParseError::Fault { line, code }) => {
            let fault = Fault::of(code);
            let why = workload_fault(alloc, mode, text, line, fault).ok();
            refused(alloc, line, fault, Why::of(Part::Workload, why))
        }
        Err(ParseError::Memory) => Err(Memory),
    }
}
