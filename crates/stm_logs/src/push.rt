//! The answer of a push, and what a push does at an address that is in the log.

/// The answer of a push.
#[derive(Clone, Copy, Drop, Debug, PartialEq, Eq)]
pub enum Push {
    Done,
    /// The log has its length, `limit` items, and the address is in none. The log is as it was.
    Full { limit: usize },
}

/// What a push does at an address that is in the log.
#[derive(Clone, Copy, Drop, Debug, PartialEq, Eq)]
pub enum Repeat {
    /// The item stays as it is.
    Keep,
    /// The item gets the new value, and stays at its place.
    Replace,
}
