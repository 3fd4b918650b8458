//! Laws of the definitions, as the contract of a function.
ghost use Rattle.work_driver.specs.Preparings.{RuleHolds, RuleIsKept};

use data_regions::laws::memories_stay_good;
use work_script::laws::operations_keep_regions;
use work_text::laws::parsed_workloads_fit;

/// Under the rule that the header's regions are well formed, what a run asks of its rule holds of every
/// workload that was parsed.
pub fn regions_are_kept()
    ensures holds { RuleHolds }
    ensures kept { RuleIsKept }
{
    memories_stay_good();
    operations_keep_regions();
    parsed_workloads_fit();
}
