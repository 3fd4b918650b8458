//! The script of one row, run.
ghost use Rattle.std.specs.Prelude.{◌≡◌, [], None, Decides, MatchOption, IfOk, OnOk, length};
ghost use Rattle.stm_model.specs.Plains.{openings, own_writes};
ghost use Rattle.data_regions.specs.Regions.{AllWellFormed};
ghost use Rattle.work_script.specs.Operations.{ScriptFits};
ghost use Rattle.work_check.specs.Runs.{CanEnd, WroteAs, ended_as, left_by, told_by, IsAfter};
ghost use Rattle.work_check.specs.Wanted.{IsWantedFor};
ghost use Rattle.work_script.specs.Reports.{RowFits};
ghost use Rattle.work_script.specs.Scripts.{run_row};

use crate::ledger::Ledger;
use crate::scripts::may_cancel;
use data_regions::region::Regions;
use std::alloc::Global;
use stm_model::memory::Memory;
use work_script::interpret::interpret;
use work_script::lists::{Script, Words};
use work_script::replies::Replies;
use work_script::report::{Kind, Row};

/// Whether a transaction that did this script can end so: only one that may be cancelled is.
fn can_end(kind: Kind, script: &Script) -> bool
    ensures { Decides result (CanEnd kind script.now) }
{
    match kind {
        Kind::W | Kind::R => true,
        Kind::C => may_cancel(script.as_slice()),
    }
}

/// Whether one that wrote, or didn't, ends so.
fn wrote_as(kind: Kind, wrote: bool) -> bool
    ensures { Decides result (WroteAs kind wrote) }
{
    match kind {
        Kind::W => wrote,
        Kind::R => !wrote,
        Kind::C => true,
    }
}

/// What a script gave.
#[derive(Drop)]
struct Ran {
    replies: Words,
    emits: Words,
    wrote: bool,
}

impl Ran {
    /// The row of a transaction of this kind that ran so, in the place of another.
    fn into_row(self, kind: Kind, place: &Row) -> Row
        ensures { result ≡ told_by self kind place.now }
    {
        Row {
            kind: ended_as(kind, self.wrote),
            place: place.place,
            caller: place.caller,
            seq: place.seq,
            replies: self.replies,
            emits: self.emits,
        }
    }
}

/// The kind of a row whose transaction wrote, or didn't, where it is cancelled only as this kind is.
fn ended_as(kind: Kind, wrote: bool) -> Kind
    ensures { result ≡ ended_as kind wrote }
{
    match kind {
        Kind::C => Kind::C,
        Kind::W | Kind::R => { if wrote { Kind::W } else { Kind::R } }
    }
}

/// The transaction ends: the memory takes what it wrote, or not where it was cancelled.
fn end(ledger: &mut Ledger, kind: Kind)
    ensures left { openings ledger.new
        ≡ left_by kind (openings ledger.old) (own_writes ledger.old) }
    ensures settled { own_writes ledger.new ≡ [] }
    ensures length { length ledger.new ≡ length ledger.old }
{
    match kind {
        Kind::W | Kind::R => ledger.settle(),
        Kind::C => ledger.forget(),
    }
}

/// Runs a script to the end of a transaction of this kind.
///
/// # Errors
/// Memory, where it is refused.
fn run(
    alloc: Global,
    ledger: &mut Ledger,
    regions: &Regions,
    script: &Script,
    kind: Kind,
) -> Result<Ran, Memory>
    requires settled { own_writes ledger.old ≡ [] }
    requires well { AllWellFormed regions.now (openings ledger.old) }
    requires within { ScriptFits regions.now (length ledger.old) script.now }
    requires ends { CanEnd kind script.now }
    ensures replies { IfOk result (λ r.
        r.replies ≡ (run_row regions.now kind script.now (openings ledger.old)).replies) }
    ensures emits { IfOk result (λ r.
        r.emits ≡ (run_row regions.now kind script.now (openings ledger.old)).emits) }
    ensures wrote { IfOk result (λ r.
        r.wrote ≡ (run_row regions.now kind script.now (openings ledger.old)).wrote) }
    ensures after { OnOk result (IsAfter regions.now script.now kind ledger.old ledger.new) }
{
    ledger.has_words();
    let mut out = Replies::new(alloc, script.as_slice().len())?;
    match interpret(ledger, regions, script, kind, &mut out) {
        Ok(()) => {}
        Err(_) => unreachable!(),
    }
    let wrote = ledger.has_written();
    end(ledger, kind);
    let (replies, emits) = out.into_words();
    Ok(Ran {
        replies,
        emits,
        wrote,
    })
}

/// Whether a row tells what its script gave.
fn is_told(ran: &Ran, row: &Row) -> bool
    ensures { Decides result ((row.now.replies ≡ ran.now.replies) × (row.now.emits ≡ ran.now.emits)
        × WroteAs row.now.kind ran.now.wrote) }
{
    if !wrote_as(row.kind, ran.wrote) {
        return false;
    }
    if row.replies.as_slice() != ran.replies.as_slice() {
        return false;
    }
    row.emits.as_slice() == ran.emits.as_slice()
}

/// The row wanted in the place of one that doesn't tell what its script does on this memory. Where it does there is
/// none, and the memory is then that after the row.
///
/// # Errors
/// Memory, where it is refused.
pub fn wanted_row(
    alloc: Global,
    ledger: &mut Ledger,
    regions: &Regions,
    script: &Script,
    row: &Row,
) -> Result<Option<Row>, Memory>
    requires settled { own_writes ledger.old ≡ [] }
    requires well { AllWellFormed regions.now (openings ledger.old) }
    requires within { ScriptFits regions.now (length ledger.old) script.now }
    ensures wanted { IfOk result (λ o.
        MatchOption o (RowFits regions.now script.now row.now (openings ledger.old))
        (IsWantedFor regions.now script.now (openings ledger.old) row.now)) }
    ensures after { IfOk result (λ o.
        o ≡ None → IsAfter regions.now script.now row.now.kind ledger.old ledger.new) }
{
    if !can_end(row.kind, script) {
        // a transaction that can't be cancelled commits
        let ran = run(alloc, ledger, regions, script, Kind::W)?;
        return Ok(Some(ran.into_row(Kind::W, row)));
    }
    let ran = run(alloc, ledger, regions, script, row.kind)?;
    if is_told(&ran, row) {
        return Ok(None);
    }
    Ok(Some(ran.into_row(row.kind, row)))
}
