//! Where a caller stands in its loop.
ghost use Rattle.std.specs.Prelude.{◌≡◌};
ghost use Rattle.tx_loops.specs.Stages.{has_body, is_plain, lapsed};

/// Where a caller stands in its loop, between two calls.
#[derive(Clone, Copy, Drop)]
pub enum Stage {
    /// No body runs: an attempt that is open is none of a loop's.
    Free,
    /// A body runs in an attempt that can be taken back.
    Direct,
    /// A body runs that said that it can't stop.
    Bound,
    /// A body runs whose attempt has ended.
    Lapsed,
    /// A body runs in an attempt that can't be taken back: its writes lie in the buffer.
    Buffered,
    /// No body runs yet: the attempt, which has done nothing, asks to be irrevocable.
    Asking,
    /// The body was done, and another commit was faster than its.
    Committing,
}

impl Stage {
    /// Whether reads and writes go to the attempt as they are.
    #[inline(always)]
    pub(crate) fn is_plain(self) -> bool
        ensures { result ≡ is_plain self }
    {
        match self {
            Stage::Free | Stage::Direct | Stage::Bound | Stage::Lapsed => true,
            Stage::Buffered | Stage::Asking | Stage::Committing => false,
        }
    }

    /// Whether a body runs in an attempt that may be taken back, and hasn't ended.
    pub(crate) fn is_running(self) -> bool
        ensures { result ≡ has_body self }
    {
        match self {
            Stage::Direct | Stage::Buffered => true,
            Stage::Free | Stage::Bound | Stage::Lapsed | Stage::Asking | Stage::Committing => false,
        }
    }

    /// After an attempt that has ended: a body that runs goes on without.
    #[cold]
    pub(crate) fn lapsed(self) -> Stage
        ensures { result ≡ lapsed self }
    {
        match self {
            Stage::Free => Stage::Free,
            Stage::Direct
            | Stage::Bound
            | Stage::Lapsed
            | Stage::Buffered
            | Stage::Asking
            | Stage::Committing => Stage::Lapsed,
        }
    }
}
