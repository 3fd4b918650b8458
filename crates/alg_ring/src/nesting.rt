//! The filter of what an attempt is to store, which a roll back to a mark makes anew.
ghost use Rattle.alg_ring.specs.Filtering.{IsFilterOf};

use stm_logs::filter::Filter;
use stm_logs::write_log::WriteLog;

/// The filter of the addresses that the log has.
pub(crate) fn filter_of(writes: &WriteLog) -> Filter
    ensures { IsFilterOf result writes.now.items }
{
    let mut filter = Filter::new();
    for i in 0..writes.count() {
        let (a, _) = writes.item(i);
        filter.add(a);
    }
    filter
}
