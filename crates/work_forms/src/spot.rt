//! Where a line of a workload stands.
use crate::shown::first_line;
use work_check::words::first_word;
use work_script::workload::Version;
use work_text::lines;

/// What stands on a line.
#[derive(Clone, Copy, Drop)]
pub enum LineKind {
    /// The line of this number of the header, from 1 to 10.
    Head(usize),
    /// A region, of so many that are still to come.
    Region(u64),
    Policy,
    /// An item, `schedule` or `done`.
    Items,
    /// An operation or `end`.
    Ops,
    /// `go` or `done`.
    Turns,
}

/// Where a line stands, and what the header above it has, as far as the ranges of numbers go.
#[derive(Clone, Copy, Drop)]
pub struct Spot {
    pub place: LineKind,
    pub version: Version,
    pub words: u64,
    pub callers: u64,
    /// How many regions the header of version 2 names.
    pub regions: u64,
    /// Whether structures are on in version 1.
    pub structures: bool,
    /// How many turns the schedule has.
    pub turns: u64,
}

impl Spot {
    /// The first line of a text.
    fn opening() -> Spot {
        Spot {
            place: LineKind::Head(1),
            version: Version::One,
            words: 0,
            callers: 0,
            regions: 0,
            structures: false,
            turns: 0,
        }
    }

    /// The line after this one, which has these bytes and no fault.
    fn after(self, line: &[u8]) -> Spot {
        let (first, rest) = first_word(line);
        match self.place {
            LineKind::Head(number) => self.after_head(number, second_word(rest)),
            LineKind::Region(left) => self.at(region_of(left.saturating_sub(1))),
            LineKind::Policy => self.at(LineKind::Items),
            LineKind::Items => self.at(after_item(first)),
            LineKind::Ops => self.at(after_operation(first)),
            LineKind::Turns => self.after_turns(rest),
        }
    }

    /// After turns of a caller; what stands after the first word.
    fn after_turns(self, rest: &[u8]) -> Spot {
        let turns = match next_word(rest) {
            Some((_, rest)) => lines::number(second_word(rest)).unwrap_or(0),
            None => 0,
        };
        Spot {
            turns: self.turns.saturating_add(turns),
            ..self
        }
    }

    fn at(self, place: LineKind) -> Spot {
        Spot { place, ..self }
    }

    /// After a line of the header, of which this is the second word.
    fn after_head(self, number: usize, word: &[u8]) -> Spot {
        let next = self.at(LineKind::Head(number.saturating_add(1)));
        let value = lines::number(word).unwrap_or(0);
        match number {
            1 => Spot {
                version: version_of(word),
                ..next
            },
            2 => Spot {
                words: value,
                ..next
            },
            3 => Spot {
                callers: value,
                ..next
            },
            10 => self.after_header(word, value),
            _ => next,
        }
    }

    /// After the tenth line, with which the header of version 1 ends.
    fn after_header(self, word: &[u8], value: u64) -> Spot {
        match self.version {
            Version::One => Spot {
                structures: lines::is(word, b"on"),
                place: LineKind::Items,
                ..self
            },
            Version::Two => Spot {
                regions: value,
                place: region_of(value),
                ..self
            },
        }
    }
}

/// The second word of a line, of which this stands from the space after the first one on.
pub fn second_word(rest: &[u8]) -> &[u8] {
    if rest.is_empty() {
        return rest;
    }
    let (word, _) = first_word(lines::past(rest, 0));
    word
}

/// The next word and what stands after it, where a space stands before it.
pub(crate) fn next_word(rest: &[u8]) -> Option<(&[u8], &[u8])> {
    if rest.is_empty() {
        return None;
    }
    Some(first_word(lines::past(rest, 0)))
}

fn version_of(word: &[u8]) -> Version {
    if lines::is(word, b"2") {
        Version::Two
    } else {
        Version::One
    }
}

/// Where a line stands with so many regions still to come.
fn region_of(left: u64) -> LineKind {
    if left == 0 {
        LineKind::Policy
    } else {
        LineKind::Region(left)
    }
}

/// Where the line after that of an item stands, by its first word.
fn after_item(word: &[u8]) -> LineKind {
    if lines::is(word, b"tx") {
        LineKind::Ops
    } else if lines::is(word, b"schedule") {
        LineKind::Turns
    } else {
        LineKind::Items
    }
}

/// Where the line after that of an operation stands.
fn after_operation(word: &[u8]) -> LineKind {
    if lines::is(word, b"end") {
        LineKind::Items
    } else {
        LineKind::Ops
    }
}

/// Where a line of a workload stands, counted from 1, where the lines above have no fault; and what stands from it on.
pub fn spot_of(text: &[u8], line: usize) -> (Spot, &[u8]) {
    let mut spot = Spot::opening();
    let mut rest = text;
    for _ in 1..line {
        match lines::find(b'\n', rest) {
            Some(i) => {
                spot = spot.after(first_line(rest));
                rest = lines::past(rest, i);
            }
            None => return (spot, &[]),
        }
    }
    (spot, rest)
}
