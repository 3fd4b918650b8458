//! Which part of a trace is drawn: some of its lines, of some callers.
ghost use Rattle.std.specs.Prelude.{◌≡◌, ◌≤◌, ◌<◌, replicate, slice_index_or, true, false};
ghost use Rattle.draw_pictures.specs.Shapes.{box_of, boxes_of};
ghost use Rattle.draw_pictures.specs.Parts.{below, counted, has, is_before, is_of, is_own, is_shown, is_within, keeps, lanes_with, with_lane, with_lanes, IsFew, IsUnfit};

use crate::kind::Kind;
use crate::row::Row;

/// The most boxes of a picture for which no lines are named.
pub const MOST_BOXES: usize = 2_000;

/// Lines of a trace, counted from 1.
#[derive(Clone, Copy, Drop)]
pub struct Lines {
    pub first: usize,
    pub last: usize,
}

/// Some callers, all of them below 32.
#[derive(Clone, Copy, Drop)]
pub struct Callers {
    chosen: [bool; 32],
}

impl Callers {
    pub fn none() -> Callers
        ensures { result.chosen ≡ replicate 32 false }
    {
        Callers {
            chosen: [false; 32],
        }
    }

    /// These and one more, if it is below 32.
    pub fn with(self, caller: usize) -> Callers
        ensures { result ≡ with_lane self caller }
    {
        if 32 <= caller {
            return self;
        }
        let mut chosen = self.chosen;
        chosen[caller] = true;
        Callers { chosen }
    }

    pub fn has(self, caller: usize) -> bool
        ensures { result ≡ has self caller }
    {
        caller < 32 && self.chosen[caller]
    }

    /// Whether the caller of this number, which is below 32, is one of them and below this one.
    fn counts(self, number: usize, caller: usize) -> usize
        requires { number < 32 }
        ensures is { result ≡ counted (slice_index_or self.chosen number false) number caller }
        ensures few { result ≤ 1 }
    {
        if number < caller && self.chosen[number] {
            1
        } else {
            0
        }
    }

    /// How many of them are below this one.
    pub fn below(self, caller: usize) -> usize
        ensures is { result ≡ below self.chosen caller }
        ensures few { result ≤ 32 }
    {
        let mut count = 0;
        for i in 0..32 {
            count += self.counts(i, caller);
        }
        count
    }
}

/// The lines and the callers that are drawn: all of them where none are named.
#[derive(Clone, Copy, Drop)]
pub struct Part {
    pub lines: Option<Lines>,
    pub callers: Option<Callers>,
}

/// All that there is.
pub const WHOLE: Part = Part {
    lines: None,
    callers: None,
};

impl Part {
    /// Whether a row comes before the lines.
    pub fn is_after(self, row: Row) -> bool
        ensures { result ≡ is_before self.lines (box_of row).number }
    {
        match self.lines {
            None => false,
            Some(lines) => row.number < lines.first,
        }
    }

    /// Whether a row begins with one of the lines.
    fn is_around(self, row: Row) -> bool
        ensures { result ≡ is_within self.lines (box_of row).number }
    {
        match self.lines {
            None => true,
            Some(lines) => lines.first <= row.number && row.number <= lines.last,
        }
    }

    /// Whether a row is of one of the callers, or of none.
    fn is_of(self, row: Row) -> bool
        ensures { result ≡ is_of self.callers (box_of row) }
    {
        match self.callers {
            None => true,
            Some(callers) => row.kind().is_finish() || callers.has(row.lane()),
        }
    }

    /// Whether a row is one of the part's own.
    pub fn has(self, row: Row) -> bool
        ensures { result ≡ is_own self (box_of row) }
    {
        self.is_around(row) && self.is_of(row)
    }

    /// Whether a row that stands above the part is shown there: the last commit is, whosever it is.
    pub fn shows(self, row: Row) -> bool
        ensures { result ≡ is_shown self (box_of row) }
    {
        row.kind().is_commit() || self.is_of(row)
    }

    /// Whether so many rows are kept to be drawn.
    pub fn keeps(self, rows: usize) -> bool
        ensures { result ≡ keeps self.lines rows }
    {
        self.lines.is_some() || rows <= MOST_BOXES
    }

    /// Whether a picture may have so many rows.
    pub fn fits(self, rows: usize) -> bool
        ensures few { result ≡ true → IsFew self.lines rows }
        ensures unfit { result ≡ false → IsUnfit self.lines rows }
    {
        match self.lines {
            None => rows <= MOST_BOXES,
            Some(_) => 1 <= rows,
        }
    }
}

/// The callers that have lanes: where some are named these, and those of the rows that stand above.
pub fn lanes_with(callers: Option<Callers>, rows: &[Row]) -> Option<Callers>
    ensures { result ≡ lanes_with callers (boxes_of rows.now) }
{
    match callers {
        None => None,
        Some(callers) => Some(with_lanes(callers, rows)),
    }
}

fn with_lanes(callers: Callers, rows: &[Row]) -> Callers
    ensures { result ≡ with_lanes callers (boxes_of rows.now) }
{
    let mut all = callers;
    for row in rows {
        all = all.with(row.lane());
    }
    all
}
