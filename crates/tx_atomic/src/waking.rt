//! Wakes who sleeps in a wait that was rung for.

use stm_model::rule::MemRule;
use stm_rule::rung::Rung;
use stm_rule::stm::Stm;

/// After a commit, or a reopening. Nothing while nobody waits.
#[inline(always)]
pub(crate) fn wake_for<K: MemRule>(stm: &Stm<K>, rung: Option<Rung<K>>) {
    if let Some(rung) = rung {
        if rung.heard {
            stm.bell.wake();
        }
    }
}
