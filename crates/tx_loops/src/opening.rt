//! The opening of a memory with callers that run loops.
ghost use Rattle.std.specs.Prelude.{◌≡◌, [], All, None, length, IfErr, IfOk, OnOk};
ghost use Rattle.stm_rule.specs.Refusals.{first_fault};
ghost use Rattle.tx_loops.specs.Openings.{AreNewLooping, IsFree, IsNotOpenedLooping, callers_in};

use crate::looping_caller::LoopingCaller;
use crate::plan::Plan;
use crate::stage::Stage;
use std::alloc::Global;
use stm_logs::write_log::WriteLog;
use stm_model::alg::Alg;
use stm_model::config::Config;
use stm_model::memory::Memory;
use tx_checked::checked_caller::CheckedCaller;
use tx_checked::opening::OpenError;

/// A memory that wasn't opened as asked. At `Busy` it is open, under CGL, and these are its callers; else there are
/// none.
#[derive(Drop)]
pub struct NotOpened {
    pub error: OpenError,
    pub callers: Vec<LoopingCaller>,
}

/// Opens a memory of zeros, under the algorithm, and answers its callers, in order. Each has a buffer as long as its
/// logs of writes.
///
/// # Errors
/// Those of `tx_checked::opening::open`.
pub fn open(alloc: Global, config: Config, alg: Alg) -> Result<Vec<LoopingCaller>, NotOpened>
    ensures count { IfOk result (λ looping_callers. length looping_callers.items ≡ config.callers) }
    ensures new { IfOk result (λ looping_callers. AreNewLooping config alg looping_callers.items) }
    ensures in_range { OnOk result (first_fault config ≡ None) }
    ensures refused { IfErr result (IsNotOpenedLooping config) }
{
    match tx_checked::opening::open(alloc, config, alg) {
        Ok(opened) => match with_buffers(alloc, opened) {
            Ok(callers) => Ok(callers),
            Err(Memory) => Err(without_callers(alloc, OpenError::Memory)),
        },
        Err(
            tx_checked::opening::NotOpened {
                error: OpenError::Busy(hindrance),
                callers: hindered,
            },
        ) => match with_buffers(alloc, hindered) {
            Ok(callers) => Err(NotOpened {
                error: OpenError::Busy(hindrance),
                callers,
            }),
            Err(Memory) => Err(without_callers(alloc, OpenError::Memory)),
        },
        Err(refused) => Err(without_callers(alloc, refused.error)),
    }
}

fn without_callers(alloc: Global, error: OpenError) -> NotOpened
    ensures error { result.error ≡ error }
    ensures callers { result.callers.items ≡ [] }
{
    NotOpened {
        error,
        callers: Vec::new(alloc),
    }
}

/// Each caller with a buffer, and in no loop.
fn with_buffers(
    alloc: Global,
    checked_callers: Vec<CheckedCaller>,
) -> Result<Vec<LoopingCaller>, Memory>
    ensures callers { IfOk result (λ looping_callers.
        callers_in looping_callers.items ≡ checked_callers.items) }
    ensures free { IfOk result (λ looping_callers. All IsFree looping_callers.items) }
{
    let mut looping_callers = Vec::new(alloc);
    for caller in checked_callers {
        let config = caller.stm.config;
        let buffer = WriteLog::new(alloc, config.writes, config.marks)?;
        let Ok(()) = looping_callers.push(LoopingCaller {
            caller,
            buffer,
            stage: Stage::Free,
            plan: Plan::new(),
        }) else {
            return Err(Memory);
        };
    }
    Ok(looping_callers)
}
