//! What switches beside transactions took.

use std::fmt::{self, Display, Formatter, Write};

/// How often a caller that switched had to look at the others until all were out of their attempts. A count stands
/// still at 2^64 - 1.
#[derive(Clone, Copy, Drop, Debug, PartialEq, Eq)]
pub struct Looks {
    pub switches: u64,
    /// The looks of all switches together, and of the one that took most.
    pub all: u64,
    pub most: u64,
}

impl Looks {
    pub fn new() -> Looks {
        Looks {
            switches: 0,
            all: 0,
            most: 0,
        }
    }

    /// Counts a switch that took so many looks.
    pub fn note(&mut self, looks: u64) {
        self.switches = self.switches.saturating_add(1);
        self.all = self.all.saturating_add(looks);
        self.most = self.most.max(looks);
    }

    /// The counts of both.
    pub fn with(&self, other: &Looks) -> Looks {
        Looks {
            switches: self.switches.saturating_add(other.switches),
            all: self.all.saturating_add(other.all),
            most: self.most.max(other.most),
        }
    }
}

/// A line after a line break; nothing where nobody switched.
impl Display for Looks {
    fn fmt<W: Write>(&self, f: &mut Formatter<W>) -> fmt::Result {
        let Looks {
            switches,
            all,
            most,
        } = *self;
        if switches == 0 {
            return Ok(());
        }
        write!(f, "\nswitches {switches} looks {all} most {most}")
    }
}
