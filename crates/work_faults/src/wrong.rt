//! A line of a report that doesn't replay its workload, beside what is wanted there.
ghost use Rattle.std.specs.Prelude.{◌≤◌, IfOk, string_len};

use crate::report::line_at;
use crate::sentence::{Parts, put_cut, put_word, told};
use std::alloc::{AllocError, Global};
use stm_model::memory::Memory;
use work_check::apart::report_in;
use work_check::wanted::Wanted;
use work_check::words::first_word;
use work_forms::shown::{first_line, from_line};
use work_forms::spot::second_word;
use work_forms::words::{start_of, words_of};
use work_script::report::{Pairs, Report, Row, Rows};
use work_text::lines;
use work_text::parting::{count_lines, part_at_done};
use work_text::report::report_text;

/// What is wrong with a workload and a report in one text of which `check` says `no` with this line: what stands on it,
/// and what the replay wants there.
///
/// # Errors
/// Memory, where it is refused.
pub fn wrong_line(alloc: Global, text: &[u8], line: usize, wanted: Wanted) -> Result<String, Memory>
    ensures { IfOk result (λ s. string_len s ≤ 200) }
{
    let (head, behind) = part_at_done(text);
    wrong_below(alloc, head, behind, count_lines(head), line, wanted)
}

/// The same of a workload, and of a report in a text of its own, which a trace may stand above.
///
/// # Errors
/// Memory, where it is refused.
pub fn wrong_line_of(
    alloc: Global,
    text: &[u8],
    told: &[u8],
    line: usize,
    wanted: Wanted,
) -> Result<String, Memory>
    ensures { IfOk result (λ s. string_len s ≤ 200) }
{
    let (above, report) = report_in(told);
    wrong_below(alloc, text, report, above, line, wanted)
}

/// The same of a report that has so many lines above it, which are counted with its own.
fn wrong_below(
    alloc: Global,
    text: &[u8],
    report: &[u8],
    above: usize,
    line: usize,
    wanted: Wanted,
) -> Result<String, Memory>
    ensures { IfOk result (λ s. string_len s ≤ 200) }
{
    let number = line.saturating_sub(above);
    let bytes = first_line(from_line(report, number));
    let words = words_of(alloc, bytes)?;
    let mut parts = Parts::of(alloc, line_at(above, number))?;
    let at = put(alloc, &mut parts, text, words.as_slice(), wanted)?;
    let focus = start_of(words.as_slice(), at);
    Ok(told(alloc, &parts, Some(bytes), focus)?)
}

/// Appends what the replay wants; and returns the number of the word that differs.
fn put(
    alloc: Global,
    parts: &mut Parts,
    text: &[u8],
    words: &[&[u8]],
    wanted: Wanted,
) -> Result<usize, Memory> {
    if let Wanted::Row(row) = wanted {
        return put_row(alloc, parts, text, words, row);
    }
    put_wanted(parts, text, words, &wanted)?;
    Ok(0)
}

/// The number that a word of a line is.
fn number_at(words: &[&[u8]], at: usize) -> u64 {
    match words.get(at) {
        Some(word) => lines::number(word).unwrap_or(0),
        None => 0,
    }
}

/// Appends what the replay wants, where that isn't a row that is known.
fn put_wanted(
    parts: &mut Parts,
    text: &[u8],
    words: &[&[u8]],
    wanted: &Wanted,
) -> Result<(), AllocError> {
    match wanted {
        Wanted::Later => parts.put(
            "it doesn't come after the row above it",
            "a row that does: by place, then W before R and C, then by caller, then by number",
        ),
        Wanted::Apart => put_place(parts, number_at(words, 1)),
        Wanted::Next { seq } => put_next(parts, words, *seq),
        Wanted::Over { count } => put_over(parts, number_at(words, 2), *count),
        Wanted::Missing { caller, seq } => put_missing(parts, text, *caller, *seq),
        Wanted::Word { address, value } => put_memory(parts, *address, *value),
        Wanted::End | Wanted::Row(_) => parts.put("no further word isn't 0", "`end`"),
    }
}

/// Appends that a W row stands at this place already.
fn put_place(parts: &mut Parts, place: u64) -> Result<(), AllocError> {
    write!(parts.why, "the W row above it has the place {place} too")?;
    write!(parts.may, "a place above {place}")
}

/// Appends which transaction of a row's caller is next.
fn put_next(parts: &mut Parts, words: &[&[u8]], seq: usize) -> Result<(), AllocError> {
    let caller = number_at(words, 2);
    let own = number_at(words, 3);
    write!(
        parts.why,
        "transaction {seq} of caller {caller} is next, and this is {own}"
    )?;
    write!(parts.may, "the number {seq}")
}

/// Appends that a caller has no more than so many transactions.
fn put_over(parts: &mut Parts, caller: u64, count: usize) -> Result<(), AllocError> {
    write!(
        parts.why,
        "caller {caller} has {count} transactions, and each has its row above"
    )?;
    write!(parts.may, "no row of caller {caller}")
}

/// Appends that this transaction has no row.
fn put_missing(
    parts: &mut Parts,
    text: &[u8],
    caller: usize,
    seq: usize,
) -> Result<(), AllocError> {
    write!(parts.why, "transaction {seq} of caller {caller}")?;
    put_begin(
        &mut parts.why,
        transaction_line(text, caller as u64, seq as u64),
    )?;
    parts.why.push_str(" has no row")?;
    write!(
        parts.may,
        "`K PLACE {caller} {seq} : REPLIES`, K one of W, R, C"
    )
}

/// Appends the line on which a transaction begins.
fn put_begin(said: &mut String, line: Option<usize>) -> Result<(), AllocError> {
    match line {
        Some(line) => write!(said, " (line {line} of the workload)"),
        None => Ok(()),
    }
}

/// Appends that this word of the memory is next.
fn put_memory(parts: &mut Parts, address: usize, value: u64) -> Result<(), AllocError> {
    write!(
        parts.why,
        "the rows leave {value} in the word {address}, which is next"
    )?;
    write!(parts.may, "`mem {address} {value}`")
}

/// Where two rows differ first.
#[derive(Clone, Copy, Drop)]
enum Differing {
    Kind,
    /// The reply of this number, from 1.
    Reply(usize),
    /// The emit of this number, from 1.
    Emit(usize),
}

/// Appends how the row that stands there differs from the one wanted first; and returns the number of that word.
fn put_row(
    alloc: Global,
    parts: &mut Parts,
    text: &[u8],
    words: &[&[u8]],
    row: Row,
) -> Result<usize, Memory> {
    let caller = row.caller as u64;
    let seq = row.seq as u64;
    let report = row_text(alloc, row)?;
    let line = first_line(from_line(report.as_slice(), 2));
    let transaction = transaction_line(text, caller, seq);
    Ok(put_rows(alloc, parts, text, transaction, words, line)?)
}

/// The same of a row's words, and of the line that is wanted, where its transaction begins on this line of the text.
fn put_rows(
    alloc: Global,
    parts: &mut Parts,
    text: &[u8],
    transaction: Option<usize>,
    words: &[&[u8]],
    line: &[u8],
) -> Result<usize, AllocError> {
    let wants = words_of(alloc, line)?;
    let (what, at) = difference(words, wants.as_slice());
    put_difference(&mut parts.why, text, transaction, what)?;
    put_both(&mut parts.why, words.get(at), wants.get(at))?;
    // what stands there is told
    parts.must_show = false;
    put_whole(parts, line)?;
    Ok(at)
}

/// Appends what differs, and the operation that gave it.
fn put_difference(
    why: &mut String,
    text: &[u8],
    transaction: Option<usize>,
    what: Differing,
) -> Result<(), AllocError> {
    let (number, is_emit) = match what {
        Differing::Kind => return why.push_str("its kind"),
        Differing::Reply(number) => (number, false),
        Differing::Emit(number) => (number, true),
    };
    write!(why, "{} {number}", if is_emit { "emit" } else { "reply" })?;
    match transaction {
        Some(line) => put_operation(why, text, line, number, is_emit),
        None => Ok(()),
    }
}

/// Appends both words.
fn put_both(
    why: &mut String,
    stands: Option<&&[u8]>,
    wanted: Option<&&[u8]>,
) -> Result<(), AllocError> {
    why.push_str(": stands ")?;
    put_or_none(why, stands)?;
    why.push_str(", wanted ")?;
    put_or_none(why, wanted)
}

/// Appends the row wanted, where there is room for it.
fn put_whole(parts: &mut Parts, line: &[u8]) -> Result<(), AllocError> {
    if parts.room(56) < line.len() {
        return parts.may.push_str("what is wanted");
    }
    parts.may.push_str("`")?;
    put_cut(&mut parts.may, line, 0, line.len())?;
    parts.may.push_str("`")
}

fn put_or_none(said: &mut String, word: Option<&&[u8]>) -> Result<(), AllocError> {
    match word {
        Some(word) if !lines::is(word, b"!") => put_word(said, word),
        _ => said.push_str("none"),
    }
}

/// A row as a report has it, on the second line.
fn row_text(alloc: Global, row: Row) -> Result<Vec<u8>, Memory> {
    let mut rows = Vec::new(alloc);
    if rows.push(row).is_err() {
        return Err(Memory);
    }
    let report = Report {
        rows: Rows::new(rows),
        memory: Pairs::new(Vec::new(alloc)),
    };
    report_text(alloc, &report)
}

/// The number of the first word that two lines don't share.
fn first_apart(words: &[&[u8]], wants: &[&[u8]]) -> usize {
    for (i, word) in words.iter().enumerate() {
        match wants.get(i) {
            Some(want) => {
                if !lines::is(word, want) {
                    return i;
                }
            }
            None => return i,
        }
    }
    words.len()
}

/// What the first word apart is, and the number of the word to be shown.
fn difference(words: &[&[u8]], wants: &[&[u8]]) -> (Differing, usize) {
    let at = first_apart(words, wants);
    if at < 5 {
        return (Differing::Kind, 0);
    }
    let own = replies_end(words);
    let wanted = replies_end(wants);
    if at < own || at < wanted {
        return (Differing::Reply(at - 4), at);
    }
    // the emits follow the `!`
    let first = own.saturating_add(1);
    let at = at.max(first);
    (Differing::Emit(at.saturating_sub(own)), at)
}

/// Where the replies of a row end.
fn replies_end(words: &[&[u8]]) -> usize {
    for (i, word) in words.iter().enumerate() {
        if lines::is(word, b"!") {
            return i;
        }
    }
    words.len()
}

/// Appends the operation that gave this reply or emit of the transaction that begins on a line, and its line.
fn put_operation(
    said: &mut String,
    text: &[u8],
    line: usize,
    number: usize,
    is_emit: bool,
) -> Result<(), AllocError> {
    match operation(text, line, number, is_emit) {
        Some((at, bytes)) => {
            said.push_str(" (")?;
            put_word(said, bytes)?;
            write!(said, ", line {at} of the workload)")
        }
        None => Ok(()),
    }
}

/// That operation and its line.
fn operation(text: &[u8], line: usize, number: usize, is_emit: bool) -> Option<(usize, &[u8])> {
    let mut at = line.saturating_add(1);
    let mut rest = from_line(text, at);
    let mut left = number;
    for _ in 0..text.len() {
        let bytes = first_line(rest);
        let (word, _) = first_word(bytes);
        if rest.is_empty() || lines::is(word, b"end") {
            return None;
        }
        if !is_emit || lines::is(word, b"emit") {
            left = left.saturating_sub(1);
        }
        if left == 0 {
            return Some((at, bytes));
        }
        rest = from_line(rest, 2);
        at = at.saturating_add(1);
    }
    None
}

/// The line on which a transaction of a caller begins, by its number from 0.
fn transaction_line(text: &[u8], caller: u64, seq: u64) -> Option<usize> {
    let mut rest = text;
    let mut line = 1usize;
    let mut left = seq;
    for _ in 0..text.len() {
        let (word, others) = first_word(first_line(rest));
        if lines::is(word, b"tx") && lines::number(second_word(others)) == Some(caller) {
            if left == 0 {
                return Some(line);
            }
            left -= 1;
        }
        let i = lines::find(b'\n', rest)?;
        rest = lines::past(rest, i);
        line = line.saturating_add(1);
    }
    None
}
