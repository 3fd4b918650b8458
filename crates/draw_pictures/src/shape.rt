//! The shapes of a picture besides its boxes: what the lines of a trace tell together.
ghost use Rattle.std.specs.Prelude.{◌≡◌, ◌≤◌, ◌<◌, ◌+◌, ◌^◌, length};
ghost use Rattle.stm_model.specs.Algorithms.{closes_gate};
ghost use Rattle.draw_pictures.specs.Shapes.{boxes_of, box_of, meets, is_by, before, more, ended_by, attempt_at, part, closing_at, promotion_at, is_over, lane_at, shape_at};

use crate::kind::Kind;
use crate::row::Row;
use stm_model::alg::Alg;

/// A shape. Lanes are callers; rows count the lines of the trace from 0, and `more` the rows after the first one.
#[derive(Clone, Copy, Drop, PartialEq, Eq)]
pub enum Shape {
    /// The lane of a caller that has lines.
    Lane {
        lane: usize,
    },
    /// The gate, closed by this caller.
    Closed {
        lane: usize,
        from: usize,
        more: usize,
    },
    /// An algorithm was installed.
    Installed {
        row: usize,
        alg: Alg,
    },
    /// An attempt, from its begin to its end, of this kind.
    Attempt {
        lane: usize,
        from: usize,
        more: usize,
        kind: Kind,
    },
    /// The part of an attempt in which it is irrevocable.
    Irrevocable {
        lane: usize,
        from: usize,
        more: usize,
    },
    /// The clock, after a commit.
    Clock {
        row: usize,
        time: u64,
    },
}

/// Shapes of one sort, each at a line; later layers lie on earlier ones.
#[derive(Clone, Copy, Drop)]
pub enum Layer {
    Lanes,
    Closings,
    Installs,
    Attempts,
    Promotions,
    Clocks,
}

/// What is looked for in the lines of a caller.
#[derive(Clone, Copy, Drop)]
enum Sought {
    Any,
    /// The end of an attempt.
    End,
    /// Where it becomes irrevocable.
    Promotion,
    /// Where it has closed the gate to become so.
    Holding,
    /// Where a closing ends.
    Opening,
}

fn meets(sought: Sought, kind: Kind) -> bool
    ensures { result ≡ meets sought kind }
{
    match sought {
        Sought::Any => match kind {
            Kind::Finishes => false,
            _ => true,
        },
        Sought::End => kind.ends_attempt(),
        Sought::Promotion => match kind {
            Kind::Promotes => true,
            _ => false,
        },
        Sought::Holding => kind.is_holding(),
        Sought::Opening => kind.is_opening(),
    }
}

/// Whether a line is this caller's, and what is looked for.
fn is_by(sought: Sought, caller: usize, line: Row) -> bool
    ensures { result ≡ is_by sought caller (box_of line) }
{
    line.lane() == caller && meets(sought, line.kind())
}

/// How many lines come before the first of this caller that is looked for; all where none is.
fn before(sought: Sought, lane: usize, lines: &[Row]) -> usize
    ensures place { result ≡ before sought lane (boxes_of lines.now) }
    ensures within { result ≤ length lines.now }
{
    for (i, line) in lines.iter().enumerate() {
        if is_by(sought, lane, *line) {
            return i;
        }
    }
    lines.len()
}

/// How many rows follow the first, up to and with the line that so many come before.
fn more(k: usize, lines: &[Row]) -> usize
    ensures { result ≡ more k (boxes_of lines.now) }
{
    if k < lines.len() { k + 1 } else { lines.len() }
}

/// The kind of an attempt's end, which is the first of these lines; where it has none, that of its begin.
fn ended_by(alg: Alg, lines: &[Row]) -> Kind
    ensures { result ≡ ended_by alg (boxes_of lines.now) }
{
    if lines.is_empty() {
        Kind::Begins(alg)
    } else {
        lines[0].kind()
    }
}

/// The attempt that begins in this row, where these lines follow.
fn attempt_at(row: usize, lane: usize, alg: Alg, rest: &[Row]) -> Shape
    ensures { result ≡ attempt_at row lane alg (boxes_of rest.now) }
{
    let k = before(Sought::End, lane, rest);
    Shape::Attempt {
        lane,
        from: row,
        more: more(k, rest),
        kind: ended_by(alg, &rest[k..]),
    }
}

/// Whether an attempt becomes irrevocable by closing the gate.
fn closes_gate(alg: Alg) -> bool
    ensures { result ≡ closes_gate alg }
{
    match alg {
        Alg::Tml | Alg::OrecLazy | Alg::OrecEager | Alg::RingSw => true,
        Alg::Cgl | Alg::Serial => false,
    }
}

/// The part of an attempt from its first line that is looked for on: its first row, and how many follow. The attempt
/// begins in this row, and these lines follow.
fn part(sought: Sought, row: usize, lane: usize, rest: &[Row]) -> Option<(usize, usize)>
    requires { row + length rest.now + 1 < 2 ^ 64 }
    ensures { result ≡ part sought row lane (boxes_of rest.now) }
{
    let end = before(Sought::End, lane, rest);
    let inside = &rest[..end];
    let first = before(sought, lane, inside);
    if first < end {
        Some((row + 1 + first, more(end, rest) - (first + 1)))
    } else {
        None
    }
}

/// The gate closed: from the line that closes it, or by an attempt that is to become irrevocable.
fn closing_at(row: usize, lane: usize, kind: Kind, rest: &[Row]) -> Option<Shape>
    requires { row + length rest.now + 1 < 2 ^ 64 }
    ensures { result ≡ closing_at row lane kind (boxes_of rest.now) }
{
    match kind {
        Kind::Closes => Some(Shape::Closed {
            lane,
            from: row,
            more: more(before(Sought::Opening, lane, rest), rest),
        }),
        Kind::Begins(alg) => {
            if !closes_gate(alg) {
                return None;
            }
            let (from, more) = part(Sought::Holding, row, lane, rest)?;
            Some(Shape::Closed { lane, from, more })
        }
        _ => None,
    }
}

/// The part of an attempt in which it is irrevocable: the whole under an algorithm that makes it so at its begin.
fn promotion_at(row: usize, lane: usize, kind: Kind, rest: &[Row]) -> Option<Shape>
    requires { row + length rest.now + 1 < 2 ^ 64 }
    ensures { result ≡ promotion_at row lane kind (boxes_of rest.now) }
{
    match kind {
        Kind::Begins(alg) => {
            if alg.irrevocable_under(false, false) {
                return Some(Shape::Irrevocable {
                    lane,
                    from: row,
                    more: more(before(Sought::End, lane, rest), rest),
                });
            }
            let (from, more) = part(Sought::Promotion, row, lane, rest)?;
            Some(Shape::Irrevocable { lane, from, more })
        }
        _ => None,
    }
}

/// Whether none of these lines is this caller's.
fn is_over(lane: usize, rest: &[Row]) -> bool
    ensures { result ≡ is_over lane (boxes_of rest.now) }
{
    before(Sought::Any, lane, rest) == rest.len()
}

/// The lane of a caller, at its last line.
fn lane_at(line: Row, rest: &[Row]) -> Option<Shape>
    ensures { result ≡ lane_at (box_of line) (boxes_of rest.now) }
{
    let lane = line.lane();
    if meets(Sought::Any, line.kind()) && is_over(lane, rest) {
        Some(Shape::Lane { lane })
    } else {
        None
    }
}

/// The shape of a layer at a line, where these lines follow.
pub fn shape_at(layer: Layer, row: usize, line: Row, rest: &[Row]) -> Option<Shape>
    requires { row + length rest.now + 1 < 2 ^ 64 }
    ensures { result ≡ shape_at layer row (box_of line) (boxes_of rest.now) }
{
    let lane = line.lane();
    let kind = line.kind();
    match layer {
        Layer::Lanes => lane_at(line, rest),
        Layer::Closings => closing_at(row, lane, kind, rest),
        Layer::Promotions => promotion_at(row, lane, kind, rest),
        Layer::Installs => match kind {
            Kind::Installs(alg) => Some(Shape::Installed { row, alg }),
            _ => None,
        },
        Layer::Attempts => match kind {
            Kind::Begins(alg) => Some(attempt_at(row, lane, alg, rest)),
            _ => None,
        },
        Layer::Clocks => match kind {
            Kind::Commits(time) => Some(Shape::Clock { row, time }),
            _ => None,
        },
    }
}
