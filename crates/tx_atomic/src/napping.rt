//! Waits for a gate that another has closed, for a range that is out, and for others to leave their attempts.

use std::sync::Wait;
use stm_bell::stripes::Stripes;
use stm_model::rule::MemRule;
use stm_rule::stm::Stm;
use tx_backoff::Backoff;

/// Pauses; and after about a millisecond sleeps by the memory's bell, for another at most. A reopening rings it, and a
/// commit that wrote; the end of another attempt doesn't, which is why the sleep is no longer.
pub(crate) fn nap<R: Wait, K: MemRule>(rt: &R, stm: &Stm<K>, caller: usize, backoff: &mut Backoff) {
    if let Some(longest) = backoff.wait_or_nap() {
        let announced = stm.bell.announce(caller, Stripes::all());
        stm.bell.nap(rt, &announced, longest);
        stm.bell.withdraw(announced);
    }
}
