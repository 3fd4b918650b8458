//! What the header above a line has: the regions, and the addresses that are in none.
use crate::shown::{first_line, from_line};
use crate::spot::{LineKind, Spot, next_word};
use std::alloc::{AllocError, Global};
use work_check::words::first_word;
use work_script::workload::{MAX_CELLS, MAX_STRIPES, STRUCTS_BEGIN, STRUCTS_END, Version};
use work_text::lines;

/// Numbers from the first one to the second.
pub(crate) type Range = (u64, u64);

/// The first and the last of some ranges.
#[derive(Clone, Copy, Drop)]
pub(crate) struct Span {
    pub(crate) first: Range,
    pub(crate) last: Range,
}

impl Span {
    /// One range, where it has a number.
    pub(crate) fn within(low: u64, high: u64) -> Option<Span> {
        if low <= high {
            Some(Span {
                first: (low, high),
                last: (low, high),
            })
        } else {
            None
        }
    }

    /// The same with one range more behind it, where that has a number.
    fn extended(span: Option<Span>, low: u64, high: u64) -> Option<Span> {
        match (span, Span::within(low, high)) {
            (Some(span), Some(more)) => Some(Span {
                first: span.first,
                last: more.last,
            }),
            (None, more) => more,
            (span, None) => span,
        }
    }

    /// The same with the numbers from one on below another.
    pub(crate) fn with(span: Option<Span>, from: u64, end: u64) -> Option<Span> {
        if from < end {
            Span::extended(span, from, end - 1)
        } else {
            span
        }
    }
}

/// The line on which the first region stands.
const FIRST_REGION: usize = 11;

/// A structure, as a line of a region has it, and how many words one of a size has.
#[derive(Clone, Copy, Drop)]
pub(crate) struct Kind {
    pub(crate) name: &'static str,
    /// Words besides those of the stripes or cells.
    pub(crate) fixed: u64,
    /// Words of a stripe or cell.
    pub(crate) each: u64,
    /// The greatest size.
    pub(crate) most: u64,
}

impl Kind {
    /// The word after the last of one of this size.
    fn end(&self, first: u64, size: u64) -> Option<u64> {
        let cells = size.checked_mul(self.each)?;
        first.checked_add(cells)?.checked_add(self.fixed)
    }
}

const fn structure(name: &'static str, fixed: u64, each: u64, most: u64) -> Kind {
    Kind {
        name,
        fixed,
        each,
        most,
    }
}

pub(crate) fn kinds() -> [Kind; 6] {
    [
        structure("counter", 0, 1, MAX_STRIPES),
        structure("list", 1, 2, MAX_CELLS),
        structure("hash", 16, 2, MAX_CELLS),
        structure("tree", 1, 3, MAX_CELLS),
        structure("queue", 2, 1, MAX_CELLS),
        structure("summap", 1, 5, MAX_CELLS),
    ]
}

/// A region of the header.
#[derive(Clone, Copy, Drop)]
pub struct Extent {
    /// The structure's word.
    pub kind: &'static str,
    pub first: u64,
    pub size: u64,
    /// The word after its last.
    pub end: u64,
    /// Its line.
    pub line: usize,
}

/// What stands above a line, as far as it says what may stand on it.
#[derive(Drop)]
pub struct Known {
    pub spot: Spot,
    pub(crate) regions: Vec<Extent>,
    /// Addresses that are no structure's.
    pub(crate) plain: Option<Span>,
}

impl Known {
    pub fn of(alloc: Global, text: &[u8], spot: Spot) -> Result<Known, AllocError> {
        let regions = regions_above(alloc, text, &spot)?;
        let plain = plain_of(&spot, regions.as_slice());
        Ok(Known {
            spot,
            regions,
            plain,
        })
    }

    /// The first word that no region above has.
    pub fn free(&self) -> u64 {
        match self.regions.last() {
            Some(region) => region.end,
            None => 0,
        }
    }

    /// The region of this number.
    pub fn region(&self, number: u64) -> Option<Extent> {
        let number = usize::try_from(number).ok()?;
        self.regions.get(number).copied()
    }
}

/// The regions that the lines above have.
fn regions_above(alloc: Global, text: &[u8], spot: &Spot) -> Result<Vec<Extent>, AllocError> {
    let count = match spot.place {
        LineKind::Region(left) => spot.regions.saturating_sub(left),
        _ => spot.regions,
    };
    let mut regions = Vec::new(alloc);
    let mut rest = from_line(text, FIRST_REGION);
    for number in 0..count.min(16) {
        let line = FIRST_REGION.saturating_add(number as usize);
        if let Some(extent) = extent_of(first_line(rest), line) {
            regions.push(extent)?;
        }
        rest = from_line(rest, 2);
    }
    Ok(regions)
}

/// The region of a line.
pub fn extent_of(bytes: &[u8], line: usize) -> Option<Extent> {
    let (_, rest) = first_word(bytes);
    let (name, rest) = next_word(rest)?;
    let (first, size) = two_numbers(rest)?;
    let kind = kind_of(name)?;
    let end = kind.end(first, size)?;
    Some(Extent {
        kind: kind.name,
        first,
        size,
        end,
        line,
    })
}

/// The two numbers that follow.
fn two_numbers(rest: &[u8]) -> Option<(u64, u64)> {
    let (first, rest) = next_word(rest)?;
    let (second, _) = next_word(rest)?;
    match (lines::number(first), lines::number(second)) {
        (Some(first), Some(second)) => Some((first, second)),
        _ => None,
    }
}

pub(crate) fn kind_of(name: &[u8]) -> Option<Kind> {
    for kind in kinds() {
        if lines::is(name, kind.name.as_bytes()) {
            return Some(kind);
        }
    }
    None
}

/// The addresses that are no structure's.
fn plain_of(spot: &Spot, regions: &[Extent]) -> Option<Span> {
    let (mut plain, mut from) = if spot.version == Version::One && spot.structures {
        (
            Span::with(None, 0, STRUCTS_BEGIN as u64),
            STRUCTS_END as u64,
        )
    } else {
        (None, 0)
    };
    for region in regions {
        plain = Span::with(plain, from, region.first);
        from = region.end;
    }
    Span::with(plain, from, spot.words)
}
