//! The sizes of a memory and of its logs, and their limits: those of the library, `MOST_..`, and those of a workload's
//! header, `MAX_..`, which are smaller.

/// The greatest number of heap words, 2^32.
pub const MOST_WORDS: usize = 4_294_967_296;
/// The greatest number of ownership records, 2^24.
pub const MOST_RECORDS: usize = 16_777_216;
/// The greatest number of ring slots.
pub const MOST_RING: usize = 4_096;
/// The greatest number of callers: a gate word has room for 255.
pub const MOST_CALLERS: usize = 254;
/// The greatest length of a log, 2^20.
pub const MOST_LOG: usize = 1_048_576;
/// The greatest number of marks of an attempt.
pub const MOST_MARKS: usize = 8;
/// In a memory of more words or callers than these, ranges are taken out of the transactions in whole blocks of `BLOCK`
/// words, so that a fence's number fits into a gate word.
pub const SMALL_WORDS: usize = 1_048_576;

pub const SMALL_CALLERS: usize = 62;

pub const BLOCK: usize = 8_192;
/// The greatest number of heap words of a workload.
pub const MAX_WORDS: usize = 1_048_576;
/// The greatest number of ownership records of a workload.
pub const MAX_RECORDS: usize = 4_096;
/// The smallest number of ring slots, and the greatest of a workload.
pub const MIN_RING: usize = 2;

pub const MAX_RING: usize = 64;
/// The greatest number of callers of a workload.
pub const MAX_CALLERS: usize = 32;
/// The greatest length of a log of a workload.
pub const MAX_LOG: usize = 4_096;
/// The clock's limit, 2^62: the clock is at most this at every moment.
pub const CLOCK_LIMIT: u64 = 4_611_686_018_427_387_904;

/// The sizes of a memory and its logs, and the clock at which it opens.
#[derive(Clone, Copy, Drop, Debug, PartialEq, Eq)]
pub struct Config {
    /// Heap words, 1 to `MOST_WORDS`.
    pub words: usize,
    /// Ownership records, 1 to `MOST_RECORDS`.
    pub records: usize,
    /// Ring slots, `MIN_RING` to `MOST_RING`.
    pub ring: usize,
    /// Callers, 1 to `MOST_CALLERS`.
    pub callers: usize,
    /// The length of a read log, 1 to `MOST_LOG`.
    pub reads: usize,
    /// The length of a write or undo log, 1 to `MOST_LOG`.
    pub writes: usize,
    /// The clock at the start, at most `CLOCK_LIMIT`.
    pub clock: u64,
    /// Whether a caller may take a range of words out of the transactions; where it is false, no fence ever stands.
    /// Where it is true, and there are more than `SMALL_WORDS` words or `SMALL_CALLERS` callers,
    /// the words are whole blocks.
    pub fence: bool,
    /// The marks that an attempt may have at once, 0 to `MOST_MARKS`: each has room for a value an item of the write
    /// log, 32 bytes.
    pub marks: usize,
}
