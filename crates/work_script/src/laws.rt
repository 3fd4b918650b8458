//! Laws of the definitions, as the contracts of functions.
ghost use Rattle.work_script.specs.Parts.{ReportReplays};
ghost use Rattle.work_script.specs.Statements.{OperationsKeepRegions};

use data_regions::laws::memories_stay_good;
use stm_model::rule::MemRule;

/// An operation that fits leaves each region well formed.
pub fn operations_keep_regions()
    ensures { OperationsKeepRegions }
{
    memories_stay_good();
}

/// What several callers did together, gathered into one legal history and one ordered report, is what one
/// thread does that runs the transactions in the report's order; and the report shows that history.
pub fn report_replays<K: MemRule>(_rule: &K)
    ensures { ReportReplays (K.good _rule.now) }
{}
