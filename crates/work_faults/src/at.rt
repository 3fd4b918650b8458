//! Where a line stands, in words.
use std::alloc::AllocError;

/// A line's number in its text, and in the part of the text that it is of, where that is another.
#[derive(Clone, Copy, Drop)]
pub(crate) struct At {
    line: usize,
    of: Option<(usize, &'static str)>,
}

impl At {
    pub(crate) fn line(line: usize) -> At {
        At { line, of: None }
    }

    /// The line of this number of a part that has so many lines above it.
    pub(crate) fn below(above: usize, number: usize, part: &'static str) -> At {
        At {
            line: above.saturating_add(number),
            of: if above == 0 {
                None
            } else {
                Some((number, part))
            },
        }
    }

    /// Appends where the line stands.
    pub(crate) fn put(&self, said: &mut String) -> Result<(), AllocError> {
        write!(said, "line {}", self.line)?;
        match self.of {
            Some((number, part)) => write!(said, " ({number} of the {part})"),
            None => Ok(()),
        }
    }
}
