//! The faults of texts, by name.
ghost use Rattle.std.specs.Prelude.{◌≡◌, true, codes};
ghost use Rattle.work_faults.specs.Faults.{is_code, number_of, name_of};

use work_text::code;

/// What is wrong with a text, of a workload or of a report. Where a line has several, the first of these counts.
#[derive(Clone, Copy, Drop, Debug, PartialEq, Eq)]
pub enum Fault {
    /// The text is too long to be a workload.
    Long,
    /// A byte that no line may have.
    Bytes,
    /// A line without its LF, or the end of the text above its last line.
    Unended,
    /// A word that isn't allowed, or too many or too few.
    Word,
    /// A number that isn't of the form.
    Number,
    /// A number out of its range.
    Range,
    /// No such algorithm.
    Alg,
    /// A structure that isn't there, or has no room, or an address in one.
    Region,
    /// An `emit` without an earlier `irrev` in its transaction.
    Order,
    /// An item, an operation or a turn too many.
    Many,
    /// A byte after the line `done`.
    Extra,
    /// A line that isn't in the form of a report.
    Report,
    /// The text is too long to be a report.
    LongReport,
}

impl Fault {
    /// The fault that has this number.
    pub fn of(code: u32) -> Fault
        ensures { is_code code ≡ true → number_of result ≡ code }
    {
        match code {
            code::LONG => Fault::Long,
            code::BYTES => Fault::Bytes,
            code::UNENDED => Fault::Unended,
            code::WORD => Fault::Word,
            code::NUMBER => Fault::Number,
            code::RANGE => Fault::Range,
            code::ALG => Fault::Alg,
            code::REGION => Fault::Region,
            code::ORDER => Fault::Order,
            code::MANY => Fault::Many,
            code::EXTRA => Fault::Extra,
            code::REPORT => Fault::Report,
            _ => Fault::LongReport,
        }
    }

    /// Its number, which is told.
    pub fn number(self) -> u32
        ensures { result ≡ number_of self }
    {
        match self {
            Fault::Long => code::LONG,
            Fault::Bytes => code::BYTES,
            Fault::Unended => code::UNENDED,
            Fault::Word => code::WORD,
            Fault::Number => code::NUMBER,
            Fault::Range => code::RANGE,
            Fault::Alg => code::ALG,
            Fault::Region => code::REGION,
            Fault::Order => code::ORDER,
            Fault::Many => code::MANY,
            Fault::Extra => code::EXTRA,
            Fault::Report => code::REPORT,
            Fault::LongReport => code::LONG_REPORT,
        }
    }

    /// Its name, which is told after the number.
    pub fn name(self) -> &'static str
        ensures { result.now ≡ name_of self }
    {
        match self {
            Fault::Long => "long",
            Fault::Bytes => "bytes",
            Fault::Unended => "unended",
            Fault::Word => "word",
            Fault::Number => "number",
            Fault::Range => "range",
            Fault::Alg => "alg",
            Fault::Region => "region",
            Fault::Order => "order",
            Fault::Many => "many",
            Fault::Extra => "extra",
            Fault::Report => "report",
            Fault::LongReport => "longrep",
        }
    }
}
