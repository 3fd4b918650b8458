//! Reports, written as their text.
ghost use Rattle.std.specs.Prelude.{◌≡◌, ◌<◌, ◌∷◌, ◌++◌, ℕ, List, All, codes, IfOk, OnOk};
ghost use Rattle.std.specs.Fmt.{decimal};
ghost use Rattle.work_script.specs.declared.report.Row.{Row};
ghost use Rattle.work_text.specs.Pieces.{ArePieces};
ghost use Rattle.work_text.specs.Reports.{spaced, emitted, letter_of, row_line, row_lines, memory_line, memory_lines, report_bytes, IsWord, RowFits, PairFits, ReportFits};

use itoa::write_digits;
use std::alloc::{AllocError, Global};
use std::thread;
use std::thread::Threads;
use stm_model::memory::Memory;
use work_script::report::{Kind, Report, Row};

/// The text of a report. Memory may be refused.
pub fn report_text(alloc: Global, report: &Report) -> Result<Vec<u8>, Memory>
    ensures fits { OnOk result (ReportFits report.now) }
    ensures text { IfOk result (λ t. t.items ≡ report_bytes report.now) }
{
    let mut text = Vec::new(alloc);
    text.extend_from_slice(b"report 1\n")?;
    put_rows(&mut text, report.rows.as_slice())?;
    put_memory(&mut text, report.memory.as_slice())?;
    text.extend_from_slice(b"end\n")?;
    Ok(text)
}

/// The longest number of 64 bits, and a space before it.
const LONGEST: usize = 21;

/// A thread is given at least so many rows, if there are: the lines of fewer take less time than its start.
const FEWEST_ROWS: usize = 1024;

/// The text of a report, as [`report_text`] writes it, with the lines of its rows written by at most `threads` threads
/// side by side. Memory may be refused.
pub fn report_text_by<R: Threads + Sync>(
    rt: &R,
    alloc: Global,
    report: &Report,
    threads: usize,
) -> Result<Vec<u8>, Memory>
    requires { 0 < threads }
    ensures fits { OnOk result (ReportFits report.now) }
    ensures text { IfOk result (λ t. t.items ≡ report_bytes report.now) }
{
    let rows = report.rows.as_slice();
    let size = rows.len().div_ceil(threads).max(FEWEST_ROWS);
    let pieces = thread::map_chunks(
        rt,
        alloc,
        rows,
        size,
        &|_, piece| { rows_text(alloc, piece) },
    )?;
    let mut text = Vec::new(alloc);
    text.extend_from_slice(b"report 1\n")?;
    put_pieces(&mut text, pieces)?;
    put_memory(&mut text, report.memory.as_slice())?;
    text.extend_from_slice(b"end\n")?;
    Ok(text)
}

/// The lines of some of a report's rows.
fn rows_text(alloc: Global, rows: &[Row]) -> Result<Vec<u8>, Memory>
    ensures fits { OnOk result (All RowFits rows.now) }
    ensures text { IfOk result (λ t. t.items ≡ row_lines rows.now) }
{
    let mut text = Vec::new(alloc);
    put_rows(&mut text, rows)?;
    Ok(text)
}

/// The lines of all rows, of which each piece has those of a chunk.
fn put_pieces(text: &mut Vec<u8>, pieces: Vec<Result<Vec<u8>, Memory>>) -> Result<(), Memory>
    ensures fits { (size : ℕ) (rows : List Row) → ArePieces (λ t. t.items) size rows pieces.items
        → OnOk result (All RowFits rows) }
    ensures text { (size : ℕ) (rows : List Row) → ArePieces (λ t. t.items) size rows pieces.items
        → OnOk result (text.new.items ≡ text.old.items ++ row_lines rows) }
{
    for piece in pieces {
        text.extend_from_slice(piece?.as_slice())?;
    }
    Ok(())
}

fn put_rows(text: &mut Vec<u8>, rows: &[Row]) -> Result<(), AllocError>
    ensures fits { OnOk result (All RowFits rows.now) }
    ensures text { OnOk result (text.new.items ≡ text.old.items ++ row_lines rows.now) }
{
    for row in rows {
        put_row(text, row)?;
    }
    Ok(())
}

fn put_memory(text: &mut Vec<u8>, words: &[(usize, u64)]) -> Result<(), AllocError>
    ensures fits { OnOk result (All PairFits words.now) }
    ensures text { OnOk result (text.new.items ≡ text.old.items ++ memory_lines words.now) }
{
    for word in words {
        put_word(text, word.0 as u64, word.1)?;
    }
    Ok(())
}

/// `mem a v`.
fn put_word(text: &mut Vec<u8>, a: u64, v: u64) -> Result<(), AllocError>
    ensures { OnOk result (text.new.items ≡ text.old.items ++ memory_line (a, v)) }
{
    text.extend_from_slice(b"mem")?;
    put_number(text, a)?;
    put_number(text, v)?;
    text.extend_from_slice(b"\n")
}

/// `K place caller seq : r1 r2 ..`, and the emits.
fn put_row(text: &mut Vec<u8>, row: &Row) -> Result<(), AllocError>
    ensures fits { OnOk result (RowFits row.now) }
    ensures text { OnOk result (text.new.items ≡ text.old.items ++ row_line row.now) }
{
    text.extend_from_slice(letter(row.kind))?;
    put_number(text, row.place)?;
    put_number(text, row.caller as u64)?;
    put_number(text, row.seq as u64)?;
    text.extend_from_slice(b" :")?;
    put_numbers(text, row.replies.as_slice())?;
    put_emits(text, row.emits.as_slice())?;
    text.extend_from_slice(b"\n")
}

fn letter(kind: Kind) -> &'static [u8]
    ensures { result.now ≡ letter_of kind }
{
    match kind {
        Kind::W => b"W",
        Kind::R => b"R",
        Kind::C => b"C",
    }
}

fn put_emits(text: &mut Vec<u8>, emits: &[u64]) -> Result<(), AllocError>
    ensures fits { OnOk result (All IsWord emits.now) }
    ensures text { OnOk result (text.new.items ≡ text.old.items ++ emitted emits.now) }
{
    if emits.is_empty() {
        return Ok(());
    }
    text.extend_from_slice(b" !")?;
    put_numbers(text, emits)
}

/// Each after a space.
fn put_numbers(text: &mut Vec<u8>, numbers: &[u64]) -> Result<(), AllocError>
    ensures fits { OnOk result (All IsWord numbers.now) }
    ensures text { OnOk result (text.new.items ≡ text.old.items ++ spaced numbers.now) }
{
    for n in numbers {
        put_number(text, *n)?;
    }
    Ok(())
}

/// A space, and the number after it.
#[inline(always)]
fn put_number(text: &mut Vec<u8>, n: u64) -> Result<(), AllocError>
    ensures { OnOk result (text.new.items ≡ text.old.items ++ (32 ∷ decimal n)) }
{
    let mut word = [b' '; LONGEST];
    let start = write_digits(n, &mut word, LONGEST);
    text.extend_from_slice(&word[start - 1..])
}
