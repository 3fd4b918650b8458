//! The fault of a report's text.
ghost use Rattle.std.specs.Prelude.{◌≤◌, ℕ, All, IfOk, take, string_len};
ghost use Rattle.work_faults.specs.Standing.{IsOffered};
ghost use Rattle.work_faults.specs.declared.place.Reader.TheVariants.{Report as OfReport};

use crate::at::At;
use crate::cause::{Cause, LineFault, WordFault, wrong_byte, wrong_count};
use crate::fault::Fault;
use crate::line::FaultyLine;
use crate::offer::likest;
use crate::place::{Place, Reader};
use crate::sentence::too_long;
use crate::workload::workload_fault;
use std::alloc::{AllocError, Global};
use stm_model::memory::Memory;
use work_check::apart::report_in;
use work_check::checking::Part;
use work_check::reading::MAX_REPORT;
use work_check::words::first_word;
use work_forms::offer::Offer;
use work_forms::shown::{first_line, is_ended};
use work_forms::spot::second_word;
use work_forms::words::{is_spaced, words_of};
use work_text::lines;
use work_text::parse::Mode;
use work_text::parting::{count_lines, part_at_done};

/// What may stand on a line of a report.
#[derive(Clone, Copy, Drop)]
enum ReportLine {
    Title,
    /// A row, a word of the memory or `end`.
    Rows,
    /// A word of the memory above this address, or `end`.
    Words { last: u64 },
    /// Nothing.
    After,
}

/// What is wrong with a text that `check` refuses with this line and this fault, of a workload and then a report: the
/// line, what stands on it, why that is wrong, and what may stand there.
///
/// # Errors
/// Memory, where it is refused.
pub fn checked_fault(
    alloc: Global,
    text: &[u8],
    part: Part,
    line: usize,
    fault: Fault,
) -> Result<String, Memory>
    ensures { IfOk result (λ s. string_len s ≤ 200) }
{
    let (head, behind) = part_at_done(text);
    match part {
        Part::Workload => workload_fault(alloc, Mode::Step, head, line, fault),
        Part::Report => told_below(alloc, behind, count_lines(head), line, fault),
    }
}

/// The same of a report in a text of its own, which a trace may stand above.
///
/// # Errors
/// Memory, where it is refused.
pub fn told_fault(alloc: Global, told: &[u8], line: usize, fault: Fault) -> Result<String, Memory>
    ensures { IfOk result (λ s. string_len s ≤ 200) }
{
    let (above, report) = report_in(told);
    told_below(alloc, report, above, line, fault)
}

/// The same of a report that has so many lines above it, which are counted with its own.
fn told_below(
    alloc: Global,
    report: &[u8],
    above: usize,
    line: usize,
    fault: Fault,
) -> Result<String, Memory>
    ensures { IfOk result (λ s. string_len s ≤ 200) }
{
    if let Fault::LongReport = fault {
        return Ok(too_long(alloc, "report", MAX_REPORT, "one")?);
    }
    Ok(report_fault(alloc, report, above, line.saturating_sub(above))?.sentence(alloc)?)
}

/// Where a line of a report stands that has so many lines above it.
pub(crate) fn line_at(above: usize, number: usize) -> At {
    At::below(above, number, "report")
}

/// The fault of a report's line of this number, from 1, where the lines above have none; so many lines stand above the
/// report.
///
/// # Errors
/// Memory, where it is refused.
pub fn report_fault<'a>(
    alloc: Global,
    report: &'a [u8],
    above: usize,
    number: usize,
) -> Result<FaultyLine<'a>, Memory>
    ensures { IfOk result (λ f.
        (n : ℕ) × All (IsOffered OfReport (take n report.now) number) f.offers.items) }
{
    let (next, rest) = place_of(report, number);
    let bytes = first_line(rest);
    let start = report.len().saturating_sub(rest.len());
    let place = Place {
        alloc,
        reader: Reader::Report,
        above: &report[..start],
        line: number,
    };
    let words = words_of(alloc, bytes)?;
    let offers = likest(&place, candidates(alloc, next)?, words.as_slice())?;
    let (cause, word) = cause_of(next, rest, bytes, words.as_slice());
    Ok(FaultyLine {
        at: line_at(above, number),
        bytes: if rest.is_empty() { None } else { Some(bytes) },
        word,
        cause,
        offers,
        nothing: "the end of the text",
    })
}

/// Where a line of a report stands, counted from 1, where the lines above have no fault; and what stands from it on.
fn place_of(report: &[u8], line: usize) -> (ReportLine, &[u8]) {
    let mut place = ReportLine::Title;
    let mut rest = report;
    for _ in 1..line {
        match lines::find(b'\n', rest) {
            Some(i) => {
                place = after(place, first_line(rest));
                rest = lines::past(rest, i);
            }
            None => return (place, &[]),
        }
    }
    (place, rest)
}

/// Where the line after this one stands.
fn after(place: ReportLine, bytes: &[u8]) -> ReportLine {
    let (word, rest) = first_word(bytes);
    match place {
        ReportLine::Title => ReportLine::Rows,
        ReportLine::Rows | ReportLine::Words { .. } => {
            if lines::is(word, b"end") {
                ReportLine::After
            } else if lines::is(word, b"mem") {
                ReportLine::Words {
                    last: lines::number(second_word(rest)).unwrap_or(0),
                }
            } else {
                place
            }
        }
        ReportLine::After => place,
    }
}

/// The forms of a report's line.
fn candidates(alloc: Global, next: ReportLine) -> Result<Vec<Offer>, AllocError> {
    let mut offers = Vec::new(alloc);
    put_candidates(&mut offers, next)?;
    Ok(offers)
}

fn put_candidates(offers: &mut Vec<Offer>, next: ReportLine) -> Result<(), AllocError> {
    match next {
        ReportLine::Title => put(offers, "report 1"),
        ReportLine::Rows => {
            put_rows(offers)?;
            put_word(offers, 0)?;
            put(offers, "end")
        }
        ReportLine::Words { last } => {
            if last < u64::MAX {
                put_word(offers, last + 1)?;
            }
            put(offers, "end")
        }
        ReportLine::After => Ok(()),
    }
}

/// Appends a line without a number.
fn put(offers: &mut Vec<Offer>, line: &'static str) -> Result<(), AllocError> {
    offers.push(Offer::line(*offers.allocator(), line)?)?;
    Ok(())
}

fn put_rows(offers: &mut Vec<Offer>) -> Result<(), AllocError> {
    for kind in ["W", "R", "C"] {
        offers.push(row(*offers.allocator(), kind)?)?;
    }
    Ok(())
}

fn row(alloc: Global, kind: &str) -> Result<Offer, AllocError> {
    let most = u64::MAX;
    let form = format!(in alloc; "`{kind} PLACE CALLER SEQ : REPLIES`, with emits ` ! EMITS` too")?;
    let low = format!(in alloc; "{kind} 0 0 0 :")?;
    let high = format!(in alloc; "{kind} {most} {most} {most} : {most} ! {most}")?;
    Ok(Offer::unnamed(form, low, high))
}

/// Appends a word of the memory at an address from this one on.
fn put_word(offers: &mut Vec<Offer>, least: u64) -> Result<(), AllocError> {
    offers.push(word(*offers.allocator(), least)?)?;
    Ok(())
}

fn word(alloc: Global, least: u64) -> Result<Offer, AllocError> {
    let most = u64::MAX;
    let form = format!(in alloc; "`mem A V`, A from {least} on, V from 1 on, both below 2^64")?;
    let low = format!(in alloc; "mem {least} 1")?;
    let high = format!(in alloc; "mem {most} {most}")?;
    Ok(Offer::unnamed(form, low, high))
}

/// Why a report's line is at fault, and which of its words is.
fn cause_of<'a>(
    next: ReportLine,
    rest: &[u8],
    bytes: &'a [u8],
    words: &[&'a [u8]],
) -> (Cause<'a>, usize) {
    match whole_line(next, rest, bytes, words) {
        Some(cause) => (cause, 0),
        None => by_words(next, words),
    }
}

/// Why a line is at fault as a whole.
fn whole_line<'a>(
    next: ReportLine,
    rest: &[u8],
    bytes: &[u8],
    words: &[&[u8]],
) -> Option<Cause<'a>> {
    if rest.is_empty() {
        return Some(Cause::Line(LineFault::NoEnd));
    }
    if !is_ended(rest) {
        return Some(Cause::Line(LineFault::NoLf));
    }
    if let Some((at, byte)) = wrong_byte(bytes) {
        return Some(Cause::WrongByte { at, byte });
    }
    if let ReportLine::After = next {
        return Some(Cause::Line(LineFault::AfterEnd));
    }
    if bytes.is_empty() {
        return Some(Cause::Line(LineFault::Empty));
    }
    if is_spaced(words) {
        None
    } else {
        Some(Cause::Line(LineFault::Spaces))
    }
}

/// What a line's first word says that it is.
#[derive(Clone, Copy, Drop)]
enum Naming {
    Title,
    Row,
    Word,
    End,
    Other,
}

fn named(word: &[u8]) -> Naming {
    if lines::is(word, b"report") {
        Naming::Title
    } else if lines::is(word, b"mem") {
        Naming::Word
    } else if lines::is(word, b"end") {
        Naming::End
    } else if lines::is(word, b"W") || lines::is(word, b"R") || lines::is(word, b"C") {
        Naming::Row
    } else {
        Naming::Other
    }
}

/// Why a line of words is at fault, and which of them is.
fn by_words<'a>(next: ReportLine, words: &[&'a [u8]]) -> (Cause<'a>, usize) {
    let Some(first) = words.first() else {
        return (Cause::Line(LineFault::Empty), 0);
    };
    match (next, named(first)) {
        (ReportLine::Title, Naming::Title) => wrong_count(words, 2),
        (ReportLine::Title, _) | (_, Naming::Other) => (Cause::word(first, WordFault::NoForm), 0),
        (_, Naming::Title) => (Cause::Line(LineFault::NotFirst), 0),
        (_, Naming::End) => wrong_count(words, 1),
        (ReportLine::Words { last }, Naming::Word) => memory_cause(words, Some(last)),
        (_, Naming::Word) => memory_cause(words, None),
        (ReportLine::Words { .. }, Naming::Row) => (Cause::Line(LineFault::RowBelow), 0),
        (_, Naming::Row) => row_cause(words),
    }
}

/// The same of a word of the memory, where this is the last address above.
fn memory_cause<'a>(words: &[&'a [u8]], last: Option<u64>) -> (Cause<'a>, usize) {
    let [_, address, value] = words else {
        return wrong_count(words, 3);
    };
    let Some(a) = lines::number(address) else {
        return (Cause::word(address, WordFault::NoNumber), 1);
    };
    if lines::number(value).is_none() {
        return (Cause::word(value, WordFault::NoNumber), 2);
    }
    match last {
        Some(last) if a <= last => (
            Cause::NotAbove {
                word: *address,
                last,
            },
            1,
        ),
        _ => (Cause::Line(LineFault::Zero), 2),
    }
}

/// The same of a row.
fn row_cause<'a>(words: &[&'a [u8]]) -> (Cause<'a>, usize) {
    if words.len() < 5 {
        return (Cause::Line(LineFault::TooFew), 0);
    }
    let mut is_behind = false;
    for (i, word) in words.iter().enumerate().skip(1) {
        if let Some(fault) = row_word(i, word, is_behind) {
            return (Cause::word(word, fault), i);
        }
        is_behind = is_behind || (4 < i && lines::is(word, b"!"));
    }
    (
        Cause::Line(LineFault::NoEmit),
        words.len().saturating_sub(1),
    )
}

/// What is wrong with the word of this number in a row, where a `!` stands before it or not.
fn row_word(number: usize, word: &[u8], is_behind: bool) -> Option<WordFault> {
    if number == 4 {
        if lines::is(word, b":") {
            None
        } else {
            Some(WordFault::NotAllowed)
        }
    } else if 4 < number && !is_behind && lines::is(word, b"!") {
        None
    } else if lines::number(word).is_none() {
        Some(WordFault::NoNumber)
    } else {
        None
    }
}
