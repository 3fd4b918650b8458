//! The program: `bench` over a runtime's arguments, files, standard input and standard output.
ghost use Rattle.std.specs.Prelude.{◌≡◌, ℕ, List, map, string_bytes};
ghost use Rattle.std.specs.Process.{exit_status};
ghost use Rattle.work_cli.specs.Asking.{texts_of};
ghost use Rattle.work_bench.specs.Exits.{EndsBy, Exits};
ghost use Rattle.work_bench.specs.Statuses.{exit_code_of};

use crate::bench::bench;
use crate::input::Text;
use crate::status::Status;
use crate::telling::told;
use crate::why::Why;
use std::alloc::{AllocGlobal, Global};
use std::env::Env;
use std::fs;
use std::io::{self, Eprint, ErrorKind, Input, Print};
use std::process::ExitCode;
use std::rt::Files;
use std::sync::Wait;
use std::thread::Threads;
use work_cli::reading::{Files as Names, read_files};
use work_io::adapters::{ReadSource, WriteSink};
use work_io::arguments::{arguments, words_in};
use work_io::ends::{Sink, Source};
use work_worker::turnstile::Open;

/// Does what the arguments ask, over the files that they name, standard input and output, and answers the status as
/// exit status. Once all is written, standard error says why, where the status isn't `Ok`.
pub fn program<R: Env + AllocGlobal + Files + Input + Print + Eprint + Threads + Wait + Sync>(
    rt: &R,
) -> ExitCode
    ensures { (words : List (List ℕ)) × EndsBy words (exit_status result) }
{
    match arguments(rt) {
        Ok(words) => answer(rt, words.as_slice()),
        // an argument that isn't UTF-8 is a word of no command
        Err(ErrorKind::InvalidData) => answer(rt, &[]),
        Err(_) => refused(rt),
    }
}

/// The status as exit status.
fn ending(status: Status) -> ExitCode
    ensures { exit_status result ≡ exit_code_of status }
{
    ExitCode::from(status.exit_code())
}

/// Ends where memory for the words was refused.
fn refused<R: AllocGlobal + Eprint>(rt: &R) -> ExitCode
    ensures { (words : List (List ℕ)) → EndsBy words (exit_status result) }
{
    tell(
        rt,
        Status::Memory,
        None,
        &Names {
            first: None,
            report: None,
        },
    );
    ending(Status::Memory)
}

/// The text of a file, or of standard input where none is named. A file that can't be opened can't be read.
fn text_of<R: Files + Input>(rt: &R, name: Option<&str>) -> Text<R::Reader, R::File> {
    match name {
        None => Text::Input(rt.reader()),
        Some(name) => match fs::open(rt, name) {
            Ok(file) => Text::File(file),
            Err(_) => Text::Missing,
        },
    }
}

/// Runs the command over the files that it names, or else standard input, and over standard output.
fn answer<R: AllocGlobal + Files + Input + Print + Eprint + Threads + Wait + Sync>(
    rt: &R,
    arguments: &[String],
) -> ExitCode
    ensures { EndsBy (map string_bytes arguments.now) (exit_status result) }
{
    let Ok(words) = words_in(rt.alloc(), arguments) else {
        return refused(rt);
    };
    let Ok(names) = read_files(rt.alloc(), words.as_slice()) else {
        return refused(rt);
    };
    let mut source = ReadSource::new(text_of(rt, names.first));
    let mut report = ReadSource::new(match names.report {
        Some(name) => text_of(rt, Some(name)),
        None => Text::Missing,
    });
    let mut sink = WriteSink::new(io::writer(rt));
    let mut why = None;
    let (status, code) = exits(
        rt,
        rt.alloc(),
        words.as_slice(),
        &mut source,
        &mut report,
        &mut sink,
        &mut why,
    );
    // who doesn't read on any more wants to hear no more
    if !sink.is_closed() {
        tell(rt, status, why, &names);
    }
    code
}

/// Runs the command over two sources and a sink. The exit status is that of what was read and written.
fn exits<R: Threads + Wait + Sync, S: Source, K: Sink>(
    rt: &R,
    alloc: Global,
    words: &[&str],
    source: &mut S,
    report: &mut S,
    sink: &mut K,
    why: &mut Option<Why>,
) -> (Status, ExitCode)
    ensures is { Exits S.left S.faults source.old source.new report.old report.new words.now K.held
        K.faults sink.old sink.new result.0 (exit_status result.1) }
    ensures ends { EndsBy (texts_of words.now) (exit_status result.1) }
{
    let mut last = None;
    let status = bench(
        rt, alloc, words, source, report, sink, &Open, &mut last, why,
    );
    (status, ending(status))
}

/// Tells on standard error what a status means, where there is something to tell and memory to say it; nothing is known
/// of whether it is read.
fn tell<R: AllocGlobal + Eprint>(rt: &R, status: Status, why: Option<Why>, names: &Names) {
    if let Ok(Some(said)) = told(rt.alloc(), status, why, names) {
        let _written = eprintln!(rt; "stm_bench: {said}");
    }
}
