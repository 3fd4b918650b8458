//! The codes of faults in a text, of a workload and of a report that is read. Where a line has several, the lowest
//! counts.

/// The text is longer than 16,777,216 bytes. On line 0, before all others.
pub const LONG: u32 = 1;
/// A workload's line has a byte outside 32 to 126.
pub const BYTES: u32 = 2;
/// The line has no LF; or the text ends before `done`, a report before `end`, on the line after the last.
pub const UNENDED: u32 = 3;
/// A word that isn't allowed here; or too many or too few words or spaces.
pub const WORD: u32 = 4;
/// A number that isn't of the form: decimal, without sign and leading zeros, below 2^64.
pub const NUMBER: u32 = 5;
/// A number out of its range.
pub const RANGE: u32 = 6;
/// No such algorithm, or one that isn't built.
pub const ALG: u32 = 7;
/// In version 1: structures on with fewer than 1,024 words; with them on, a plain address among their words; with them
/// off, an operation on one. In version 2: a region that ends past the heap or begins before the one above it ends; a
/// plain address in a region; an operation whose region is for another structure.
pub const REGION: u32 = 8;
/// An `emit` without an earlier `irrev` in its transaction.
pub const ORDER: u32 = 9;
/// The 65,537th item, the 4,097th operation of a transaction, or turns past 1,000,000 in all.
pub const MANY: u32 = 10;
/// A byte after the `done` line: on the line after it, before all others of that line.
pub const EXTRA: u32 = 11;
/// A line that isn't in the form of a report, as one with a byte outside 32 to 126, or that may not stand here: a `mem`
/// line of value 0 or of an address not above that of the `mem` line before it, a line after `end`.
pub const REPORT: u32 = 12;
/// The report is longer than 134,217,728 bytes. On line 0, before all others.
pub const LONG_REPORT: u32 = 13;
