//! What a call was refused for that its user did wrong.

/// Why a call was not made. Nothing has changed.
#[derive(Clone, Copy, Drop, Debug, PartialEq, Eq)]
pub enum Misuse {
    /// It asks for an attempt, and none is open.
    NoAttempt,
    /// It asks for a caller outside attempts, and one is open.
    InAttempt,
    /// The attempt is in the middle of its commit: it can only be committed or cancelled.
    Committing,
    /// The address is not below the number of words; or the range is empty, reaches beyond them, or isn't of whole
    /// blocks where the memory isn't small.
    Address,
    /// The word is out of the transactions: it was so as the attempt began.
    Fenced,
    /// The caller has a range out of the transactions already.
    HoldsRange,
    /// The memory takes no ranges out of the transactions.
    NoRanges,
    /// The word is in no range that the caller has out of the transactions.
    NoRange,
    /// No such mark stands.
    Depth,
    /// The length of a log is out of its range.
    Logs,
    /// There is no room for all words.
    Room,
    /// The two callers are not of one memory.
    Stranger,
    /// The caller has closed the gate for a call that answered `Busy`: only that call with the same arguments goes on,
    /// or `reopen` gives it up.
    Closing,
    /// It asks for a caller that has closed the gate, and this one hasn't.
    NotClosing,
}
