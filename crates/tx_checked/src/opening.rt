//! The opening of a memory with its callers.
ghost use Rattle.std.specs.Prelude.{◌≡◌, ◌<◌, [], ◌∷◌, All, None, length, IfOk, IfErr, OnOk, OnErr};
ghost use Rattle.std.specs.Arc.{arc_value};
ghost use Rattle.stm_rule.specs.Callers.{AllOpened, IsOf};
ghost use Rattle.stm_rule.specs.Refusals.{first_fault};
ghost use Rattle.tx_atomic.specs.Callers.{IsReady};
ghost use Rattle.tx_checked.specs.Ready.{AreFresh, AreNew, IsUnused, IsNotOpened, IsHinderedFirst, HasMadeNone, descs_in};

use crate::checked_caller::CheckedCaller;
use crate::counts::Counts;
use crate::errand::Errand;
use crate::note_exchange::NoteExchange;
use crate::phase::CallerPhase;
use std::alloc::Global;
use std::sync::Arc;
use stm_model::alg::Alg;
use stm_model::config::Config;
use stm_model::memory::Memory;
use stm_model::rule::AnyMem;
use stm_rule::desc::Desc;
use stm_rule::refusal::NewError;
use stm_rule::stm::Stm;
use thiserror::Error;
use tx_atomic::switching::{Hindrance, switch_at_one_look};

/// Why a memory was not opened as asked.
#[derive(Clone, Copy, Debug, Drop, PartialEq, Eq, Error)]
pub enum OpenError {
    #[error("a number is out of its range, or memory was refused")]
    Refused(NewError),
    #[error("memory was refused")]
    Memory,
    #[error("the algorithm could not be installed")]
    Busy(Hindrance),
}

/// A memory that wasn't opened as asked. At `Busy` it is open, under CGL, and these are its callers; else there are
/// none.
#[derive(Drop)]
pub struct NotOpened {
    pub error: OpenError,
    pub callers: Vec<CheckedCaller>,
}

/// Opens a memory of zeros, under the algorithm, and answers its callers, in order.
///
/// # Errors
/// Those of `Stm::new`. `Busy` where another caller was in the way of the install: nobody else has the memory yet, but
/// the proof of one caller's calls doesn't see that, so the callers are handed out with what the first of them met.
pub fn open(alloc: Global, config: Config, alg: Alg) -> Result<Vec<CheckedCaller>, NotOpened>
    ensures count { IfOk result (λ checked_callers. length checked_callers.items ≡ config.callers) }
    ensures new { IfOk result (λ checked_callers. AreNew config alg checked_callers.items) }
    ensures in_range { OnOk result (first_fault config ≡ None) }
    ensures refused { IfErr result (IsNotOpened config) }
{
    let (stm, mut descs) = match Stm::new(alloc, config, AnyMem) {
        Ok(opened) => opened,
        Err(error) => return Err(NotOpened {
            error: OpenError::Refused(error),
            callers: Vec::new(alloc),
        }),
    };
    let installed = install_first(&stm, &mut descs, alg);
    let Ok(callers) = share(alloc, stm, descs) else {
        return Err(NotOpened {
            error: OpenError::Memory,
            callers: Vec::new(alloc),
        });
    };
    match installed {
        Ok(()) => Ok(callers),
        Err(hindrance) => Err(NotOpened {
            error: OpenError::Busy(hindrance),
            callers,
        }),
    }
}

/// Has the first of the callers install an algorithm.
fn install_first(
    stm: &Stm<AnyMem>,
    descs: &mut Vec<Desc<AnyMem>>,
    alg: Alg,
) -> Result<(), Hindrance>
    requires opened { AllOpened stm.now 0 descs.old.items }
    requires some { 0 < length descs.old.items }
    ensures fresh { OnOk result (AreFresh stm.now (alg ∷ []) descs.new.items) }
    ensures bare { OnErr result (AreFresh stm.now [] descs.new.items) }
    ensures hindered { IfErr result (λ e. IsHinderedFirst stm.now.config e descs.new.items) }
    ensures count { length descs.new.items ≡ length descs.old.items }
{
    switch_at_one_look(&mut descs[0], stm, alg)
}

/// A caller for each descriptor, in their order, with its share of the memory and of a note exchange.
fn share(
    alloc: Global,
    stm: Stm<AnyMem>,
    descs: Vec<Desc<AnyMem>>,
) -> Result<Vec<CheckedCaller>, Memory>
    requires some { 0 < length descs.items }
    requires ready { All (IsReady stm) descs.items }
    requires none { All HasMadeNone descs.items }
    ensures descs { IfOk result (λ checked_callers. descs_in checked_callers.items ≡ descs.items) }
    ensures unused { IfOk result (λ checked_callers.
        All (IsUnused stm) checked_callers.items) }
{
    let note_exchange = NoteExchange::new(alloc, &descs[0], descs.len())?;
    let Ok(stm) = Arc::new(alloc, stm) else {
        return Err(Memory);
    };
    let Ok(note_exchange) = Arc::new(alloc, note_exchange) else {
        return Err(Memory);
    };
    enlist(alloc, &stm, &note_exchange, descs)
}

/// A caller for each descriptor, in their order.
fn enlist(
    alloc: Global,
    stm: &Arc<Stm<AnyMem>, Global>,
    note_exchange: &Arc<NoteExchange, Global>,
    descs: Vec<Desc<AnyMem>>,
) -> Result<Vec<CheckedCaller>, Memory>
    requires note_exchange { IsOf (arc_value note_exchange.now).table.shared.key
        (arc_value stm.now) }
    requires ready { All (IsReady (arc_value stm.now)) descs.items }
    requires none { All HasMadeNone descs.items }
    ensures descs { IfOk result (λ checked_callers. descs_in checked_callers.items ≡ descs.items) }
    ensures unused { IfOk result (λ checked_callers.
        All (IsUnused (arc_value stm.now)) checked_callers.items) }
{
    let mut checked_callers = Vec::with_capacity(alloc, descs.len())?;
    for desc in descs {
        let Ok(shared) = Arc::try_clone(stm) else {
            return Err(Memory);
        };
        let Ok(note_exchange) = Arc::try_clone(note_exchange) else {
            return Err(Memory);
        };
        checked_callers.push_reserved(CheckedCaller {
            stm: shared,
            note_exchange,
            desc,
            phase: CallerPhase::Idle,
            reach: 0,
            errand: Errand::End,
            range: None,
            refusal: None,
            counts: Counts::none(),
            latest: 0,
        });
    }
    Ok(checked_callers)
}
