//! Cases of `bench` in short: a workload's header by what it changes, its body in one line, and what is to be
//! said of it.
use std::alloc::Global;
use std::sync::Wait;
use std::test::Fail;
use std::thread::Threads;
use work_bench::bench::bench;
use work_bench::status::Status;
use work_bench::telling::told;
use work_bench::why::Why;
use work_bench::{MemSink, MemSource, Open, Turnstile};
use work_cli::reading::Files;

/// A command line that names no file.
pub const NO_FILES: Files = Files {
    first: None,
    report: None,
};

const HEADER: &str =
    "stm 1\nwords 8\ncallers 1\nrecords 4\nring 4\nreads 256\nwrites 256\nclock 0\nalg CGL\nstructs off\n";

/// The lines of the header that differ from [`HEADER`], the body, and what is to be written. In each ` / `
/// parts two lines, and `tx 0 {read 1; read 2}` stands for the lines `tx 0`, `read 1`, `read 2`, `end`.
pub type Case<'a> = (&'a str, &'a str, &'a str);

/// Asks the command of each case's workload. Fails at the first whose status or text is another.
pub fn check(
    rt: &(impl Threads + Wait + Sync),
    alloc: Global,
    command: &str,
    status: Status,
    cases: &[Case],
) -> Result<(), Fail> {
    for (changes, body, said) in cases {
        let text = workload(alloc, changes, body)?;
        let (ended, held) = outcome(rt, alloc, &["stm_bench", command], text.as_str(), &[], 4096)?;
        if ended != status || held != lines(alloc, said)? {
            let why = format!(in alloc; "{changes}: {body}: {ended:?}, {held}")?;
            return Err(Fail::new(why));
        }
    }
    Ok(())
}

/// The header of version 2 after its line `words`, by the rest of it, and a body: both in one line.
pub fn workload_two(alloc: Global, words: usize, rest: &str, body: &str) -> Result<String, Fail> {
    let mut text = String::new(alloc);
    write!(&mut text, "stm 2\nwords {words}\n")?;
    text.push_str(lines(alloc, rest)?.as_str())?;
    if !body.is_empty() {
        text.push_str(lines(alloc, body)?.as_str())?;
    }
    text.push_str("done\n")?;
    Ok(text)
}

/// The words of a command line: the program's name, and those of this line after it.
pub fn command_line<'a>(alloc: Global, line: &'a str) -> Result<Vec<&'a str>, Fail> {
    let mut words = Vec::new(alloc);
    words.push("stm_bench")?;
    for word in line.split_ascii_whitespace() {
        words.push(word)?;
    }
    Ok(words)
}

/// A header by what it changes.
pub fn header(alloc: Global, changes: &str) -> Result<String, Fail> {
    let mut text = String::new(alloc);
    for line in HEADER.lines() {
        text.push_str(changed(line, changes))?;
        text.push_str("\n")?;
    }
    Ok(text)
}

/// The text of a workload: its header by what it changes, and its body, without `done`.
pub fn workload(alloc: Global, changes: &str, body: &str) -> Result<String, Fail> {
    let mut text = header(alloc, changes)?;
    if !body.is_empty() {
        text.push_str(lines(alloc, body)?.as_str())?;
    }
    text.push_str("done\n")?;
    Ok(text)
}

/// The line that the changes have in this one's place.
fn changed<'a>(line: &'a str, changes: &'a str) -> &'a str {
    for change in changes.split(" / ") {
        if first_word(change) == first_word(line) {
            return change;
        }
    }
    line
}

fn first_word(line: &str) -> &str {
    match line.split_once(' ') {
        Some((word, _)) => word,
        None => line,
    }
}

/// The lines that stand in one, each ended by LF.
pub fn lines(alloc: Global, line: &str) -> Result<String, Fail> {
    let mut text = line
        .replace(alloc, " {", "\n")?
        .replace(alloc, "; ", "\n")?
        .replace(alloc, "}", "\nend")?
        .replace(alloc, " / ", "\n")?;
    text.push_str("\n")?;
    Ok(text)
}

/// What `bench` is asked.
#[derive(Clone, Copy, Drop)]
pub struct Asked<'a> {
    /// The words of the command line.
    pub words: &'a [&'a str],
    pub text: &'a [u8],
    /// The report beside the text.
    pub report: &'a [u8],
    /// The calls at which the source of the text fails.
    pub takes: &'a [u64],
    /// How many bytes the sink has room for.
    pub room: usize,
}

/// What `bench` answers and writes through this turnstile, and what it leaves in `why`.
pub fn ask(
    rt: &(impl Threads + Wait + Sync),
    alloc: Global,
    asked: Asked,
    turnstile: &(impl Turnstile + Sync),
    why: &mut Option<Why>,
) -> Result<(Status, String), Fail> {
    let mut source = MemSource::new(asked.text.to_vec(alloc)?, asked.takes.to_vec(alloc)?);
    let mut report = MemSource::new(asked.report.to_vec(alloc)?, Vec::new(alloc));
    let mut sink = MemSink::new(alloc, asked.room, Vec::new(alloc))?;
    let status = bench(
        rt,
        alloc,
        asked.words,
        &mut source,
        &mut report,
        &mut sink,
        turnstile,
        &mut None,
        why,
    );
    Ok((status, String::from_utf8(sink.held().to_vec(alloc)?)?))
}

/// What `bench` answers and writes over this text, where the source fails at the calls `takes` and the sink
/// has room for `room` bytes.
pub fn outcome(
    rt: &(impl Threads + Wait + Sync),
    alloc: Global,
    words: &[&str],
    text: &str,
    takes: &[u64],
    room: usize,
) -> Result<(Status, String), Fail> {
    outcome_through(rt, alloc, words, text, takes, room, &Open)
}

/// The same through this turnstile.
pub fn outcome_through(
    rt: &(impl Threads + Wait + Sync),
    alloc: Global,
    words: &[&str],
    text: &str,
    takes: &[u64],
    room: usize,
    turnstile: &(impl Turnstile + Sync),
) -> Result<(Status, String), Fail> {
    let asked = Asked {
        words,
        text: text.as_bytes(),
        report: &[],
        takes,
        room,
    };
    ask(rt, alloc, asked, turnstile, &mut None)
}

/// What is told on standard error of such a call.
pub fn told_of(
    rt: &(impl Threads + Wait + Sync),
    alloc: Global,
    words: &[&str],
    text: &str,
    takes: &[u64],
    room: usize,
) -> Result<Option<String>, Fail> {
    let asked = Asked {
        words,
        text: text.as_bytes(),
        report: &[],
        takes,
        room,
    };
    let mut why = None;
    let (status, _) = ask(rt, alloc, asked, &Open, &mut why)?;
    Ok(told(alloc, status, why, &NO_FILES)?)
}

/// What `bench` answers and writes over a text and another of a report.
pub fn outcome_apart(
    rt: &(impl Threads + Wait + Sync),
    alloc: Global,
    words: &[&str],
    text: &str,
    told: &str,
) -> Result<(Status, String), Fail> {
    let asked = Asked {
        words,
        text: text.as_bytes(),
        report: told.as_bytes(),
        takes: &[],
        room: 4096,
    };
    ask(rt, alloc, asked, &Open, &mut None)
}
