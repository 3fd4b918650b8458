//! A caller that runs loops.
ghost use Rattle.tx_checked.specs.CheckedCallers.{config_of, known_to};
ghost use Rattle.tx_loops.specs.Stages.{IsAtStage};

use crate::plan::Plan;
use crate::stage::Stage;
use stm_logs::write_log::WriteLog;
use tx_checked::checked_caller::CheckedCaller;

/// A caller with the log of a body's writes, and what its loop has come to.
#[derive(Drop)]
pub struct LoopingCaller {
    pub caller: CheckedCaller,
    /// What a body wrote whose attempt can't be taken back.
    pub buffer: WriteLog,
    pub stage: Stage,
    pub plan: Plan,
    pub ghost at_stage: { IsAtStage stage (known_to caller) (config_of caller).words buffer.items },
}
