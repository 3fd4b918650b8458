//! How a call of `draw` ended.
ghost use Rattle.std.specs.Prelude.{◌≡◌};

/// How a call of `draw` ended, and what it wrote by that.
#[derive(Clone, Copy, Drop, Debug, PartialEq, Eq)]
pub enum Status {
    /// The picture.
    Ok,
    /// The help that the words ask for.
    Help,
    /// The usage line: the words ask for nothing.
    Usage,
    /// `refused L`: the text read isn't one that `step` writes, alone or after its workload; `line` is its first line
    /// at fault, counted from 1, or 0 for a text that is too long.
    Refused { line: usize },
    /// `read fault`: the source failed.
    ReadFault,
    /// A prefix of the text that was to be written: the sink failed.
    WriteFault,
    /// Nothing: memory was refused.
    Memory,
    /// `boxes B`: the picture would have so many boxes: more than 2,000 where no lines are named, or else none.
    NoPicture { boxes: usize },
}

impl Status {
    ghost use Rattle.draw_core.specs.Outcomes.{exit_code_of};

    /// The exit status of a program that ends so: 0 for `Ok` and `Help`, then 1 to 5 in the order above, and 7.
    pub fn exit_code(self) -> u8
        ensures { result ≡ exit_code_of self }
    {
        match self {
            Status::Ok | Status::Help => 0,
            Status::Usage => 1,
            Status::Refused { .. } => 2,
            Status::ReadFault => 3,
            Status::WriteFault => 4,
            Status::Memory => 5,
            Status::NoPicture { .. } => 7,
        }
    }
}
