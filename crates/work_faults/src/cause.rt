//! Why a line of a text is at fault.
use crate::sentence::{may_stand, put_word};
use std::alloc::AllocError;
use work_script::workload::{MAX_ITEMS, MAX_OPS, MAX_TURNS, STRUCTS_END};

/// Why a line is at fault; `word` is the word of the line that is.
#[derive(Clone, Copy, Drop)]
pub(crate) enum Cause<'a> {
    Line(LineFault),
    Word { word: &'a [u8], fault: WordFault },
    /// The text has as many of these as it may have.
    Full(Limit),
    /// Its byte of this number, from 1, is one that no line may have.
    WrongByte { at: usize, byte: u8 },
    Region(RegionFault<'a>),
    /// A word of the memory at an address that isn't above the last one.
    NotAbove { word: &'a [u8], last: u64 },
}

/// What is wrong with a line as a whole.
#[derive(Clone, Copy, Drop)]
pub(crate) enum LineFault {
    /// The text ends above its line `done`, or `end`.
    NoDone,
    NoEnd,
    /// It stands after that line.
    AfterDone,
    AfterEnd,
    NoLf,
    Empty,
    Spaces,
    /// `run` takes no schedule.
    NoSchedule,
    TooFew,
    StructuresOff,
    NoIrrev,
    /// A line that may stand on the first line alone.
    NotFirst,
    /// A row below a word of the memory.
    RowBelow,
    /// A word of the memory that is 0.
    Zero,
    /// No emit follows the `!`.
    NoEmit,
}

/// What is wrong with a word.
#[derive(Clone, Copy, Drop)]
pub(crate) enum WordFault {
    /// No line there begins with it.
    NoForm,
    TooMany,
    NotAllowed,
    NoNumber,
    OutOfRange,
    NoAlgorithm,
    /// An address in a structure's words.
    InStructure,
}

/// What a text has at most so many of.
#[derive(Clone, Copy, Drop)]
pub(crate) enum Limit {
    Items,
    Ops,
    Turns,
}

/// What is wrong with a structure.
#[derive(Clone, Copy, Drop)]
pub(crate) enum RegionFault<'a> {
    /// Structures are to be on, with so many words.
    FewWords {
        words: u64,
    },
    /// A region begins at this word, before the end of the one above.
    BeginsEarly {
        first: u64,
        free: u64,
    },
    /// A region ends past the last of so many words.
    EndsLate {
        words: u64,
    },
    /// The region that the operation names is this structure, of that line.
    Other {
        word: &'a [u8],
        kind: &'static str,
        line: usize,
    },
    /// No region is of the operation's structure.
    Missing {
        kind: &'static str,
    },
}

impl LineFault {
    fn text(self) -> &'static str {
        match self {
            LineFault::NoDone => "the text ends before its line `done`",
            LineFault::NoEnd => "the text ends before its line `end`",
            LineFault::AfterDone => "nothing follows the line `done`",
            LineFault::AfterEnd => "nothing follows the line `end`",
            LineFault::NoLf => "the line has no LF at its end",
            LineFault::Empty => "the line is empty",
            LineFault::Spaces => "one space stands between two words, and none at an end",
            LineFault::NoSchedule => "`run` takes no schedule, `step` does",
            LineFault::TooFew => "it has too few words",
            LineFault::StructuresOff => "structures are off (line 10)",
            LineFault::NoIrrev => "an `emit` comes only after an `irrev` of its transaction",
            LineFault::NotFirst => "it can be the first line alone",
            LineFault::RowBelow => "rows stand above the `mem` lines",
            LineFault::Zero => "words that are 0 aren't told",
            LineFault::NoEmit => "no number follows the `!`",
        }
    }
}

impl WordFault {
    /// What is said before the word, and after it.
    fn around(self) -> (&'static str, &'static str) {
        match self {
            WordFault::NoForm => ("no line here begins with ", ""),
            WordFault::TooMany => ("", " is a word too many"),
            WordFault::NotAllowed => ("", " can't stand there"),
            WordFault::NoNumber => ("", " is no number below 2^64 without a leading 0"),
            WordFault::OutOfRange => ("", " is out of its range"),
            WordFault::NoAlgorithm => ("", " is no algorithm"),
            WordFault::InStructure => ("", " is a structure's word"),
        }
    }
}

impl Limit {
    /// What has so many of which.
    fn around(self) -> (&'static str, u64, &'static str) {
        match self {
            Limit::Items => ("workload", MAX_ITEMS as u64, "items"),
            Limit::Ops => ("transaction", MAX_OPS as u64, "operations"),
            Limit::Turns => ("schedule", MAX_TURNS, "turns in all"),
        }
    }
}

impl<'a> Cause<'a> {
    pub(crate) fn word(word: &'a [u8], fault: WordFault) -> Cause<'a> {
        Cause::Word { word, fault }
    }
}

impl Cause<'_> {
    /// Appends the cause.
    pub(crate) fn put(&self, said: &mut String) -> Result<(), AllocError> {
        match self {
            Cause::Line(fault) => said.push_str(fault.text()),
            Cause::Word { word, fault } => {
                let (before, behind) = fault.around();
                put_of(said, before, word, behind)
            }
            Cause::Full(limit) => {
                let (owner, most, what) = limit.around();
                write!(said, "a {owner} has at most {most} {what}")
            }
            Cause::WrongByte { at, byte } => put_wrong_byte(said, *at, *byte),
            Cause::Region(fault) => fault.put(said),
            Cause::NotAbove { word, last } => {
                put_of(
                    said,
                    "address ",
                    word,
                    " isn't above that of the line before, ",
                )?;
                write!(said, "{last}")
            }
        }
    }
}

impl RegionFault<'_> {
    fn put(&self, said: &mut String) -> Result<(), AllocError> {
        match self {
            RegionFault::FewWords { words } => {
                write!(
                    said,
                    "structures take {STRUCTS_END} words, and line 2 has {words}"
                )
            }
            RegionFault::BeginsEarly { first, free } => {
                write!(
                    said,
                    "it begins at {first}, and the first free word is {free}"
                )
            }
            RegionFault::EndsLate { words } => {
                write!(said, "it ends past the last of the {words} words of line 2")
            }
            RegionFault::Other { word, kind, line } => {
                put_of(said, "region ", word, " is a ")?;
                write!(said, "{kind} (line {line})")
            }
            RegionFault::Missing { kind } => write!(said, "no region is a {kind}"),
        }
    }
}

/// Appends a word between others.
fn put_of(said: &mut String, before: &str, word: &[u8], behind: &str) -> Result<(), AllocError> {
    said.push_str(before)?;
    put_word(said, word)?;
    said.push_str(behind)
}

/// Appends which byte of a line no line may have.
fn put_wrong_byte(said: &mut String, at: usize, byte: u8) -> Result<(), AllocError> {
    let name = match byte {
        b'\t' => ", a tab",
        b'\r' => ", a carriage return",
        _ => "",
    };
    write!(said, "its byte {at} is {byte}{name}, none from 32 to 126")
}

/// The first byte of a line that no line may have, and its number from 1.
pub(crate) fn wrong_byte(bytes: &[u8]) -> Option<(usize, u8)> {
    for (i, byte) in bytes.iter().enumerate() {
        if !may_stand(*byte) {
            return Some((i.saturating_add(1), *byte));
        }
    }
    None
}

/// Why a line is at fault of which the forms have so many words, and which of its words is: the second, where the
/// number is right.
pub(crate) fn wrong_count<'a>(words: &[&'a [u8]], count: usize) -> (Cause<'a>, usize) {
    if words.len() < count {
        return (Cause::Line(LineFault::TooFew), 0);
    }
    if let Some(word) = words.get(count) {
        return (Cause::word(word, WordFault::TooMany), count);
    }
    match (words.first(), words.get(1)) {
        (_, Some(word)) => (Cause::word(word, WordFault::NotAllowed), 1),
        (Some(word), None) => (Cause::word(word, WordFault::NotAllowed), 0),
        (None, None) => (Cause::Line(LineFault::Empty), 0),
    }
}
