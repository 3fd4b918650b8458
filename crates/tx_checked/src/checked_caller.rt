//! A caller with its memory.
ghost use Rattle.std.specs.Prelude.{◌≡◌};
ghost use Rattle.std.specs.Arc.{arc_value};
ghost use Rattle.stm_rule.specs.Callers.{IsOf};
ghost use Rattle.stm_tx.specs.Descs.{known};
ghost use Rattle.tx_checked.specs.Dates.{IsDated};
ghost use Rattle.tx_checked.specs.Phases.{IsInPhase, HasRange, reach_at};

use crate::counts::Counts;
use crate::errand::Errand;
use crate::note_exchange::NoteExchange;
use crate::phase::CallerPhase;
use crate::refusal::Refusal;
use std::alloc::Global;
use std::sync::Arc;
use stm_model::rule::AnyMem;
use stm_rule::desc::Desc;
use stm_rule::stm::Stm;

/// Words that a caller has out of the transactions.
#[derive(Clone, Copy, Drop, Debug, PartialEq, Eq)]
pub struct Range {
    pub from: usize,
    pub count: usize,
}

/// A caller with its share of the memory and of its note exchange, which are freed with the last of them. One that
/// `may_leave` doesn't let go isn't dropped: others would wait for it for ever.
#[derive(Drop)]
pub struct CheckedCaller {
    pub stm: Arc<Stm<AnyMem>, Global>,
    pub note_exchange: Arc<NoteExchange, Global>,
    pub desc: Desc<AnyMem>,
    pub phase: CallerPhase,
    /// The number of words while it stands `Running`, else 0: a word below is read and written without another look.
    pub reach: usize,
    /// What it has closed the gate for, while it stands `Closing`.
    pub errand: Errand,
    pub range: Option<Range>,
    /// What came in the way last.
    pub refusal: Option<Refusal>,
    pub counts: Counts,
    /// The time of the latest entry that it made, 0 while it has made none.
    pub latest: u64,
    pub ghost own: { IsOf desc (arc_value stm) },
    pub ghost exchange_own: { IsOf (arc_value note_exchange).table.shared.key (arc_value stm) },
    pub ghost in_phase: { IsInPhase phase (known desc) },
    pub ghost reaches: { reach ≡ reach_at phase (arc_value stm).config.words },
    pub ghost dated: { IsDated latest (known desc) },
    pub ghost ranged: { HasRange range (arc_value stm).config.words (known desc).fenced },
}
