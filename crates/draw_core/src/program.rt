//! The program: `draw` over a runtime's arguments, files, standard input and output.
ghost use Rattle.std.specs.Prelude.{◌≡◌, ℕ, List, map, string_bytes};
ghost use Rattle.std.specs.Process.{exit_status};
ghost use Rattle.draw_core.specs.Asking.{texts_of};
ghost use Rattle.draw_core.specs.Outcomes.{EndsBy, Exits, exit_code_of};

use crate::asking::{Ask, asked};
use crate::draw::draw;
use crate::input::Text;
use crate::status::Status;
use crate::telling::told;
use std::alloc::{AllocGlobal, Global};
use std::env::Env;
use std::fs;
use std::io::{self, Eprint, ErrorKind, Input, Print};
use std::process::ExitCode;
use std::rt::Files;
use work_io::adapters::{ReadSource, WriteSink};
use work_io::arguments::{arguments, words_in};
use work_io::ends::{Sink, Source};

/// Draws what the files have that the arguments name, or else standard input, to standard output, and answers the
/// status as exit status. Once all is written, standard error says why, where the status isn't `Ok`.
pub fn program<R: Env + AllocGlobal + Files + Input + Print + Eprint>(rt: &R) -> ExitCode
    ensures { (words : List (List ℕ)) × EndsBy words (exit_status result) }
{
    match arguments(rt) {
        Ok(arguments) => answer(rt, arguments.as_slice()),
        // an argument that isn't UTF-8 is a word of no form
        Err(ErrorKind::InvalidData) => answer(rt, &[]),
        Err(_) => refused(rt),
    }
}

/// The status as exit status.
fn ending(status: Status) -> ExitCode
    ensures { exit_status result ≡ exit_code_of status }
{
    ExitCode::from(status.exit_code())
}

/// Ends where memory for the words was refused.
fn refused<R: AllocGlobal + Eprint>(rt: &R) -> ExitCode
    ensures { (words : List (List ℕ)) → EndsBy words (exit_status result) }
{
    tell(rt, Status::Memory, &[], None);
    ending(Status::Memory)
}

/// The text that the words ask for. A file that can't be opened can't be read.
fn text_of<R: Files + Input>(rt: &R, ask: Option<Ask<'_>>) -> Text<R::Reader, R::File> {
    let Some(ask) = ask else {
        return Text::Missing;
    };
    let Some(first) = ask.first else {
        return Text::Input(rt.reader());
    };
    let Ok(file) = fs::open(rt, first) else {
        return Text::Missing;
    };
    let Some(second) = ask.second else {
        return Text::File(file);
    };
    match fs::open(rt, second) {
        Ok(other) => Text::Both(file, other),
        Err(_) => Text::Missing,
    }
}

/// Draws what the arguments ask for.
fn answer<R: AllocGlobal + Files + Input + Print + Eprint>(rt: &R, arguments: &[String]) -> ExitCode
    ensures { EndsBy (map string_bytes arguments.now) (exit_status result) }
{
    match words_in(rt.alloc(), arguments) {
        Ok(words) => answer_words(rt, words.as_slice()),
        Err(_) => refused(rt),
    }
}

/// Draws what the words ask for.
fn answer_words<R: AllocGlobal + Files + Input + Print + Eprint>(rt: &R, words: &[&str]) -> ExitCode
    ensures { EndsBy (texts_of words.now) (exit_status result) }
{
    let mut source = ReadSource::new(text_of(rt, asked(words)));
    let mut sink = WriteSink::new(io::writer(rt));
    let mut why = None;
    let (status, code) = exits(rt.alloc(), words, &mut source, &mut sink, &mut why);
    // who doesn't read on any more wants to hear no more
    if !sink.is_closed() {
        tell(rt, status, words, why);
    }
    code
}

/// Draws over a source and a sink. The exit status is that of what was read and written.
fn exits<S: Source, K: Sink>(
    alloc: Global,
    words: &[&str],
    source: &mut S,
    sink: &mut K,
    why: &mut Option<String>,
) -> (Status, ExitCode)
    ensures is { Exits S.left S.faults source.old source.new (texts_of words.now) K.held K.faults
        sink.old sink.new result.0 (exit_status result.1) }
    ensures ends { EndsBy (texts_of words.now) (exit_status result.1) }
{
    let status = draw(alloc, words, source, sink, why);
    (status, ending(status))
}

/// Tells on standard error what a status means, where there is something to tell and memory to say it; nothing is known
/// of whether it is read.
fn tell<R: AllocGlobal + Eprint>(rt: &R, status: Status, words: &[&str], why: Option<String>) {
    if let Ok(Some(said)) = told(rt.alloc(), status, words, why) {
        let _written = eprintln!(rt; "stm_draw: {said}");
    }
}
