//! That a caller has rung the memory's bell. Nothing but a ring makes it, so who has to show one has rung.
ghost use Rattle.std.specs.Prelude.{◌≡◌, ℕ, IfSome};
ghost use Rattle.stm_rule.specs.Callers.{IsOf};
ghost use Rattle.stm_bell.specs.Bells.{rung_for};
ghost use Rattle.stm_bell.specs.Stripes.{Has};

use crate::desc::Desc;
use crate::stm::Stm;
use std::snapshot::Snapshot;
use stm_bell::bell::Ring;
use stm_bell::stripes::Stripes;
use stm_model::rule::MemRule;

/// That a caller rang as it stood then.
#[derive(Drop)]
pub struct Rung<K: MemRule> {
    /// The caller as it rang, for proofs alone: what it did before, it did before the ring.
    pub at: Snapshot<Desc<K>>,
    /// The bell's own word for it, and for which words.
    pub ring: Ring,
    /// Whether somebody waited: then who has a handle wakes it (`wake` of the bell).
    pub heard: bool,
}

impl<K: MemRule> Rung<K> {
    /// Where nobody waits a ring for all words is none. One load, of a word beside the table.
    #[inline(always)]
    pub fn in_silence(desc: &Desc<K>, stm: &Stm<K>) -> Option<Rung<K>>
        requires stm { IsOf desc.now stm.now }
        ensures at { IfSome result (λ r. r.at.value ≡ desc.now) }
        ensures all { IfSome result (λ r. (a : ℕ) → Has a (rung_for r.ring)) }
    {
        match stm.bell.in_silence() {
            Some(ring) => Some(Rung::of(desc, ring, false)),
            None => None,
        }
    }

    /// Rings for words of these stripes.
    pub fn ring(desc: &Desc<K>, stm: &Stm<K>, stripes: Stripes) -> Rung<K>
        requires stm { IsOf desc.now stm.now }
        ensures at { result.at.value ≡ desc.now }
        ensures stripes { rung_for result.ring ≡ stripes }
    {
        Rung::of(desc, stm.bell.ring(stripes), true)
    }

    /// Rings for all words.
    #[inline(always)]
    pub fn ring_all(desc: &Desc<K>, stm: &Stm<K>) -> Rung<K>
        requires stm { IsOf desc.now stm.now }
        ensures at { result.at.value ≡ desc.now }
        ensures all { (a : ℕ) → Has a (rung_for result.ring) }
    {
        match Rung::in_silence(desc, stm) {
            Some(rung) => rung,
            None => Rung::ring(desc, stm, Stripes::all()),
        }
    }

    #[inline(always)]
    fn of(desc: &Desc<K>, ring: Ring, heard: bool) -> Rung<K>
        ensures at { result.at.value ≡ desc.now }
        ensures ring { result.ring ≡ ring }
    {
        Rung {
            at: Snapshot::of(desc),
            ring,
            heard,
        }
    }
}
