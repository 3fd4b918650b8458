//! The program: the command line's words, a run, and what it came to.
ghost use Rattle.std.specs.Prelude.{◌≡◌, ℕ, List, map, string_bytes};
ghost use Rattle.std.specs.Process.{exit_status};
ghost use Rattle.perf_core.specs.Endings.{exit_code_of, EndsBy, Exits};
ghost use Rattle.perf_core.specs.Helping.{texts_of};

use crate::ending::Ending;
use crate::help::help_of;
use crate::plan::plan_of;
use crate::report::{Rate, Report};
use crate::run::run;
use crate::wrong::wrong_word;
use std::alloc::{AllocError, AllocGlobal, Global};
use std::env::Env;
use std::io::{self, Eprint, ErrorKind, Print};
use std::process::ExitCode;
use std::sync::Wait;
use std::thread::Threads;
use std::time::Clock;
use work_io::arguments::{arguments, words_in};

/// Runs what the arguments ask for, and answers how it ended as exit status; see [`Ending`]. Standard error says why it
/// isn't 0.
pub fn program<R: Env + AllocGlobal + Print + Eprint + Threads + Wait + Sync + Clock>(
    rt: &R,
) -> ExitCode
    ensures { (words : List (List ℕ)) × Exits words (exit_status result) }
{
    match arguments(rt) {
        Ok(arguments) => answer(rt, arguments.as_slice()),
        // an argument that isn't UTF-8 is a word of no form
        Err(ErrorKind::InvalidData) => answer(rt, &[]),
        Err(_) => refused(rt),
    }
}

/// Ends where memory for the words was refused.
fn refused<R: AllocGlobal + Eprint>(rt: &R) -> ExitCode
    ensures { (words : List (List ℕ)) → Exits words (exit_status result) }
{
    told(rt, Ending::Memory, &[], false)
}

/// Runs what these arguments ask for.
fn answer<R: AllocGlobal + Print + Eprint + Threads + Wait + Sync + Clock>(
    rt: &R,
    arguments: &[String],
) -> ExitCode
    ensures { Exits (map string_bytes arguments.now) (exit_status result) }
{
    let Ok(words) = words_in(rt.alloc(), arguments) else {
        return refused(rt);
    };
    let mut is_closed = false;
    let ending = run_of_words(rt, words.as_slice(), &mut is_closed);
    told(rt, ending, words.as_slice(), is_closed)
}

/// How a run of these words ended, and whether nobody reads standard output any more.
fn run_of_words<R: AllocGlobal + Print + Threads + Wait + Sync + Clock>(
    rt: &R,
    words: &[&str],
    is_closed: &mut bool,
) -> Ending
    ensures { EndsBy (texts_of words.now) result }
{
    if let Some(topic) = help_of(words) {
        let text = topic.text();
        if let Err(error) = println!(rt; "{text}") {
            *is_closed = error.kind() == ErrorKind::BrokenPipe;
            return Ending::WriteFault;
        }
        return Ending::Help;
    }
    let (words, is_timed) = timed(words);
    let Some(plan) = plan_of(words) else {
        return Ending::Usage;
    };
    let Ok(report) = run(rt, rt.alloc(), &plan) else {
        return Ending::Memory;
    };
    if let Err(error) = print(rt, &report, is_timed) {
        *is_closed = error.kind() == ErrorKind::BrokenPipe;
        return Ending::WriteFault;
    }
    Ending::of(report.right)
}

/// The words before a last one `--time`, and whether that is there.
fn timed<'a, 'b>(words: &'a [&'b str]) -> (&'a [&'b str], bool) {
    match words {
        [words @ .., "--time"] => (words, true),
        _ => (words, false),
    }
}

/// Writes what a run came to, and its time where that is asked for.
fn print<R: Print>(rt: &R, report: &Report, is_timed: bool) -> io::Result<()> {
    if is_timed {
        let rate = Rate(report);
        return println!(rt; "{report}\n{rate}");
    }
    println!(rt; "{report}")
}

/// The exit status. Tells on standard error what the ending means, where there is something to tell and memory to say
/// it; not who has closed standard output, and so wants to hear no more.
fn told<R: AllocGlobal + Eprint>(
    rt: &R,
    ending: Ending,
    words: &[&str],
    is_closed: bool,
) -> ExitCode
    ensures { exit_status result ≡ exit_code_of ending }
{
    if is_closed {
        return ExitCode::from(ending.exit_code());
    }
    if let Ok(Some(said)) = said_of(rt.alloc(), ending, words) {
        let _written = eprintln!(rt; "stm_perf: {said}");
    }
    ExitCode::from(ending.exit_code())
}

/// What there is to tell of an ending.
pub fn said_of(
    alloc: Global,
    ending: Ending,
    words: &[&str],
) -> Result<Option<String>, AllocError> {
    let said = match ending {
        Ending::Right | Ending::Help => return Ok(None),
        Ending::Usage => wrong_word(alloc, words)?,
        Ending::WriteFault => "standard output could not be written to the end".to_string(alloc)?,
        Ending::Memory => "memory was refused".to_string(alloc)?,
        Ending::Wrong => "the memory isn't what the transactions leave".to_string(alloc)?,
    };
    Ok(Some(said))
}
