//! What a body came to, and what is to be done next.

/// What a body came to.
#[derive(Clone, Copy, Drop)]
pub enum How {
    /// It was done.
    Done,
    /// A call of it was refused, which another attempt may be spared.
    Refused,
    /// A log was full.
    Full,
    /// It met a word that is out of the transactions.
    Fenced,
    /// It is to run again once others have come further.
    Retry,
    /// It stopped, or failed for good.
    Stopped,
}

/// What is to be done next.
#[derive(Clone, Copy, Drop)]
pub enum Turn {
    /// An attempt is open, with nothing in it: the body may run.
    Run,
    /// Pause so often, and enter.
    Pause { times: u32 },
    /// Sleep while the low 32 bits of the memory's bell are the plan's `seen`, and enter: the body is to run again, and
    /// its wait was announced before it ran.
    Sleep,
    /// The body took effect, and the loop is over.
    Done,
    /// The loop is over, with what the body came to.
    Over,
    /// The loop is over: a log of the greatest length was full.
    Full,
    /// The loop is over: the clock is at its limit.
    ClockFull,
    /// The loop is over: memory was refused for longer logs.
    Memory,
    /// The loop is over, and what the body wrote stands: it had said that it can't stop, and did.
    Irrevocable,
}
