//! Reports, judged.
ghost use Rattle.std.specs.Prelude.{◌≡◌, ◌<◌, ◌≤◌, ◌++◌, ◌∷◌, [], ℕ, List, get_or, None, IfOk, IfSome, IfNone, MatchOption, length, slice_set, ◌+◌, ◌^◌};
ghost use Rattle.stm_model.specs.Plains.{openings};
ghost use Rattle.work_script.specs.Reports.{regions_of, zeros, rows_of, scripts_of};
ghost use Rattle.work_script.specs.Workloads.{ItemsFit};
ghost use Rattle.work_script.specs.declared.report.Row.{Row};
ghost use Rattle.work_script.specs.declared.workload.Workload.{Workload};
ghost use Rattle.work_check.specs.Verdicts.{IsRight, AreRight, AllHaveRows, memory_after, alike, Judges};
ghost use Rattle.work_check.specs.Standing.{StandsAfter, IsNext, wrote_after};
ghost use Rattle.work_check.specs.Wanted.{WantsOf, Wants, word_of};
ghost use Rattle.work_check.specs.declared.wanted.Wanted.TheVariants.{End};

use crate::ledger::Ledger;
use crate::rows::{comes_after, is_apart};
use crate::running::wanted_row;
use crate::scripts::next_script;
use crate::verdict::{Judged, Verdict};
use crate::wanted::Wanted;
use data_regions::laws::memories_stay_good;
use data_regions::region::Regions;
use std::alloc::Global;
use stm_model::memory::Memory;
use work_script::lists::Script;
use work_script::pairs::pairs;
use work_script::report::{Kind, Report, Row};
use work_script::workload::Workload;

/// How far a caller's transactions have come.
#[derive(Clone, Copy, Drop)]
pub struct Cursor {
    /// The item at which the next one is looked for.
    pub item: usize,
    /// How many have their rows.
    pub seq: usize,
}

/// Where a check stands after some rows.
#[derive(Drop)]
pub struct Standing {
    /// The memory that they leave.
    pub ledger: Ledger,
    /// How far each caller has come.
    pub cursors: Vec<Cursor>,
    /// The place of the last W row.
    pub wrote: Option<u64>,
}

/// Where the row is its caller's next: its script, and the item after it.
fn next_of<'a>(
    workload: &'a Workload,
    standing: &Standing,
    above: &[Row],
    row: &Row,
) -> Option<(usize, &'a Script)>
    requires items { ItemsFit (regions_of workload.now.header) workload.now.header
        workload.now.items }
    requires stands { StandsAfter workload.now above.now standing.now }
    ensures some { IfSome result (λ n. IsNext workload.now above.now row.now n.0 n.1.now) }
    ensures none { IfNone result (row.now.seq ≡ length (rows_of row.now.caller above.now)
        → row.now.seq < length (scripts_of row.now.caller workload.now.items) → ⊥) }
{
    if standing.cursors.len() <= row.caller {
        return None;
    }
    let cursor = standing.cursors[row.caller];
    if cursor.seq != row.seq {
        return None;
    }
    next_script(workload.items.as_slice(), row.caller, cursor.item)
}

/// Goes on past a row, whose script has been run: the next item of its caller is `item` or after it.
fn pass(standing: &mut Standing, row: &Row, item: usize)
    requires caller { row.now.caller < length standing.old.cursors.items }
    requires seq { row.now.seq + 1 < 2 ^ 64 }
    ensures ledger { standing.new.ledger ≡ standing.old.ledger }
    ensures cursors { standing.new.cursors.items
        ≡ slice_set standing.old.cursors.items row.now.caller
        (record { item = item; seq = row.now.seq + 1 }) }
    ensures wrote { standing.new.wrote ≡ wrote_after row.now.kind row.now.place standing.old.wrote }
{
    standing.cursors[row.caller] = Cursor {
        item,
        seq: row.seq + 1,
    };
    match row.kind {
        Kind::W => standing.wrote = Some(row.place),
        Kind::R | Kind::C => {}
    }
}

/// What is wanted in the place of a row that isn't its caller's next: the next one, or none where each has its row.
fn wanted_next(workload: &Workload, standing: &Standing, above: &[Row], row: &Row) -> Wanted
    requires items { ItemsFit (regions_of workload.now.header) workload.now.header
        workload.now.items }
    requires stands { StandsAfter workload.now above.now standing.now }
    requires wrong { row.now.seq ≡ length (rows_of row.now.caller above.now)
        → row.now.seq < length (scripts_of row.now.caller workload.now.items) → ⊥ }
    ensures { (m : List ℕ) → WantsOf workload.now above.now m row.now result }
{
    if standing.cursors.len() <= row.caller {
        return Wanted::Over { count: 0 };
    }
    let cursor = standing.cursors[row.caller];
    match next_script(workload.items.as_slice(), row.caller, cursor.item) {
        Some(_) => Wanted::Next { seq: cursor.seq },
        None => Wanted::Over { count: cursor.seq },
    }
}

/// What is wanted in the place of a row that has a fault after the rows above it. Where it has none nothing is; then
/// its script has been run, and the check stands after the row.
///
/// # Errors
/// Memory, where it is refused.
fn wanted_for(
    alloc: Global,
    workload: &Workload,
    regions: &Regions,
    standing: &mut Standing,
    above: &[Row],
    row: &Row,
) -> Result<Option<Wanted>, Memory>
    requires items { ItemsFit (regions_of workload.now.header) workload.now.header
        workload.now.items }
    requires regions { regions.now ≡ regions_of workload.now.header }
    requires count { length above.now + 1 < 2 ^ 64 }
    requires stands { StandsAfter workload.now above.now standing.old }
    ensures wanted { IfOk result (λ o.
        MatchOption o (IsRight workload.now above.now (openings standing.old.ledger) row.now)
        (WantsOf workload.now above.now (openings standing.old.ledger) row.now)) }
    ensures stands { IfOk result (λ o.
        o ≡ None → StandsAfter workload.now (above.now ++ row.now ∷ []) standing.new) }
    ensures memory { IfOk result (λ o.
        o ≡ None
        → openings standing.new.ledger
        ≡ memory_after workload.now (openings standing.old.ledger) row.now) }
{
    if !comes_after(above, row) {
        return Ok(Some(Wanted::Later));
    }
    if !is_apart(standing.wrote, row) {
        return Ok(Some(Wanted::Apart));
    }
    let Some((item, script)) = next_of(workload, standing, above, row) else {
        return Ok(Some(wanted_next(workload, standing, above, row)));
    };
    if let Some(wanted) = wanted_row(alloc, &mut standing.ledger, regions, script, row)? {
        return Ok(Some(Wanted::Row(wanted)));
    }
    pass(standing, row, item);
    Ok(None)
}

/// Where a check stands before the first row.
///
/// # Errors
/// Memory, where it is refused.
fn start(alloc: Global, workload: &Workload) -> Result<Standing, Memory>
    ensures stands { IfOk result (StandsAfter workload.now []) }
    ensures zeros { IfOk result (λ s. openings s.ledger ≡ zeros workload.now.header.words) }
{
    memories_stay_good();
    let ledger = Ledger::new(alloc, workload.header.words)?;
    let first = Cursor { item: 0, seq: 0 };
    let cursors = vec![in alloc; first; workload.header.callers]?;
    Ok(Standing {
        ledger,
        cursors,
        wrote: None,
    })
}

/// The first caller with a transaction that has no row, and the number of that one.
fn missing(workload: &Workload, standing: &Standing, above: &[Row]) -> Option<(usize, usize)>
    requires items { ItemsFit (regions_of workload.now.header) workload.now.header
        workload.now.items }
    requires stands { StandsAfter workload.now above.now standing.now }
    ensures { MatchOption result (AllHaveRows workload.now above.now) (λ t.
        (t.1 ≡ length (rows_of t.0 above.now))
        × (t.1 < length (scripts_of t.0 workload.now.items))) }
{
    let items = workload.items.as_slice();
    for caller in 0..standing.cursors.len() {
        let cursor = standing.cursors[caller];
        if let Some(_) = next_script(items, caller, cursor.item) {
            return Some((caller, cursor.seq));
        }
    }
    None
}

/// Length of the common prefix.
fn alike(told: &[(usize, u64)], left: &[(usize, u64)]) -> usize
    ensures alike { result ≡ alike told.now left.now }
    ensures told { result ≤ length told.now }
    ensures left { result ≤ length left.now }
{
    for i in 0..told.len() {
        if left.len() <= i {
            return i;
        }
        if told[i].0 != left[i].0 {
            return i;
        }
        if told[i].1 != left[i].1 {
            return i;
        }
    }
    told.len()
}

/// The word of the memory on a line after those that are alike, or `end`.
fn wanted_word(left: &[(usize, u64)], same: usize) -> Wanted
    ensures word { same < length left.now → result ≡ word_of (get_or left.now same (0, 0)) }
    ensures end { length left.now ≤ same → result ≡ End }
{
    match left.get(same) {
        Some((address, value)) => Wanted::Word {
            address: *address,
            value: *value,
        },
        None => Wanted::End,
    }
}

/// The verdict, where no row has a fault: the lines after the rows.
///
/// # Errors
/// Memory, where it is refused.
fn judge_end(
    alloc: Global,
    workload: &Workload,
    report: &Report,
    standing: &Standing,
) -> Result<Judged, Memory>
    requires items { ItemsFit (regions_of workload.now.header) workload.now.header
        workload.now.items }
    requires stands { StandsAfter workload.now report.now.rows standing.now }
    requires right { AreRight workload.now [] (zeros workload.now.header.words) report.now.rows
        (openings standing.now.ledger) }
    ensures verdict { IfOk result (λ j. Judges workload.now report.now j.verdict) }
    ensures wanted { IfOk result (λ j. Wants workload.now report.now j.verdict j.wanted) }
{
    let rows = report.rows.as_slice();
    let behind = rows.len() + 2;
    if let Some((caller, seq)) = missing(workload, standing, rows) {
        return Ok(Judged::no(behind, Wanted::Missing { caller, seq }));
    }
    let values = standing.ledger.values(alloc)?;
    let left = pairs(alloc, &values)?;
    let told = report.memory.as_slice();
    let same = alike(told, left.as_slice());
    if same < told.len() {
        return Ok(Judged::no(behind + same, wanted_word(left.as_slice(), same)));
    }
    if same < left.as_slice().len() {
        return Ok(Judged::no(behind + same, wanted_word(left.as_slice(), same)));
    }
    Ok(Judged {
        verdict: Verdict::Yes,
        wanted: None,
    })
}

/// Whether the report replays the workload, and else its first line at fault, counted from the report's first as 1,
/// with what is wanted there. Each row's script is run once, in as many steps as it has; all rows together go over the
/// workload's items once for each caller, and over the memory's words once.
///
/// # Errors
/// Memory, where it is refused.
pub fn replay(alloc: Global, workload: &Workload, report: &Report) -> Result<Judged, Memory>
    requires items { ItemsFit (regions_of workload.now.header) workload.now.header
        workload.now.items }
    ensures verdict { IfOk result (λ j. Judges workload.now report.now j.verdict) }
    ensures wanted { IfOk result (λ j. Wants workload.now report.now j.verdict j.wanted) }
{
    let regions = workload.header.regions(alloc)?;
    let mut standing = start(alloc, workload)?;
    let rows = report.rows.as_slice();
    for i in 0..rows.len() {
        let above = &rows[..i];
        if let Some(wanted) = wanted_for(
            alloc,
            workload,
            &regions,
            &mut standing,
            above,
            &rows[i],
        )? {
            return Ok(Judged::no(i + 2, wanted));
        }
    }
    judge_end(alloc, workload, report, &standing)
}
