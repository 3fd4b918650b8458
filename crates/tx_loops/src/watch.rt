//! A wait that a caller has announced.
ghost use Rattle.std.specs.Prelude.{◌≡◌};

use std::snapshot::Snapshot;
use stm_bell::bell::Announced;
use stm_bell::stripes::Stripes;
use tx_checked::checked_caller::CheckedCaller;

/// A wait for words of some stripes, announced before the attempt that finds out whether its user has to wait: a commit
/// that wrote one of them, and that the attempt didn't see, rings after the announcement.
#[derive(Drop)]
pub struct Watch {
    pub announced: Announced,
    /// While the low 32 bits of its word are so the wait is on.
    pub seen: u32,
    pub stripes: Stripes,
    /// How many of its attempts had committed and written nothing.
    pub read_only: u64,
    /// The caller as it announced it, for proofs alone.
    pub since: Snapshot<CheckedCaller>,
    pub ghost counted: { read_only ≡ since.value.counts.read_only },
}

impl Watch {
    pub(crate) fn of(caller: &CheckedCaller, stripes: Stripes) -> Watch
        ensures { result.since.value ≡ caller.now }
    {
        let announced = caller.stm.bell.announce(caller.desc.number, stripes);
        let seen = announced.low();
        Watch {
            announced,
            seen,
            stripes,
            read_only: caller.counts.read_only,
            since: Snapshot::of(caller),
        }
    }
}
