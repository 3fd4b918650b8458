//! The words on a box.
ghost use Rattle.std.specs.Prelude.{◌≡◌, ◌++◌, IfOk, OnOk, codes, string_bytes};
ghost use Rattle.std.specs.Fmt.{decimal};
ghost use Rattle.work_trace.specs.Texts.{spaced};
ghost use Rattle.draw_pictures.specs.Labels.{deed_bytes, done_bytes, label_of, operands, region_numbers};
ghost use Rattle.draw_pictures.specs.Shapes.{box_of};
ghost use Rattle.draw_pictures.specs.Texts.{said_on};

use crate::row::Row;
use crate::step::{Deed, Step};
use crate::style::ARROW;
use std::alloc::{AllocError, Global};
use work_script::op::Op;
use work_script::workload::Version;
use work_trace::line::Line;
use work_trace::said::Said;
use work_trace::text::{put_one, put_said, put_stop, put_three, put_two};

/// The number of a region, which version 1 leaves to the operation's name.
fn put_region(text: &mut String, deed: Deed) -> Result<(), AllocError>
    ensures { OnOk result (string_bytes text.new
        ≡ string_bytes text.old ++ spaced (region_numbers deed.version deed.op)) }
{
    match deed.version {
        Version::One => Ok(()),
        Version::Two => match deed.op.structure() {
            None => Ok(()),
            Some((_, region)) => put_one(text, "", region as u64),
        },
    }
}

/// The numbers of an operation besides that of a region.
fn put_operands(text: &mut String, op: Op) -> Result<(), AllocError>
    ensures { OnOk result (string_bytes text.new ≡ string_bytes text.old ++ spaced (operands op)) }
{
    match op {
        Op::Irrev
        | Op::Cancel
        | Op::Total(_)
        | Op::ListLength(_)
        | Op::TreeLeast(_)
        | Op::QueueGet(_) => Ok(()),
        Op::Read(a) | Op::Emit(a) => put_one(text, "", a as u64),
        Op::Write(a, v) | Op::Add(a, v) => put_two(text, "", a as u64, v),
        Op::Move(a, b, k) => put_three(text, "", a as u64, b as u64, k),
        Op::Count(_, stripe, k) => put_two(text, "", stripe as u64, k),
        Op::ListInsert(_, key)
        | Op::ListRemove(_, key)
        | Op::ListContains(_, key)
        | Op::HashInsert(_, key)
        | Op::HashRemove(_, key)
        | Op::HashContains(_, key)
        | Op::TreeInsert(_, key)
        | Op::TreeRemove(_, key)
        | Op::TreeContains(_, key)
        | Op::QueuePut(_, key)
        | Op::MapRemove(_, key)
        | Op::MapGet(_, key) => put_one(text, "", key as u64),
        Op::MapPut(_, key, v) => put_two(text, "", key as u64, v),
        Op::MapSum(_, low, high) => put_two(text, "", low as u64, high as u64),
    }
}

/// A space, and an operation as its workload writes it.
pub fn put_deed(text: &mut String, deed: Deed) -> Result<(), AllocError>
    ensures { OnOk result (string_bytes text.new ≡ string_bytes text.old ++ deed_bytes deed) }
{
    text.push_str(" ")?;
    text.push_str(deed.op.name())?;
    put_region(text, deed)?;
    put_operands(text, deed.op)
}

/// What a line says of its caller's operation: what it replied, or why it ended the attempt.
fn put_done(text: &mut String, deed: Deed, said: Said) -> Result<(), AllocError>
    ensures { OnOk result (string_bytes text.new ≡ string_bytes text.old ++ done_bytes deed said) }
{
    match said {
        Said::Reply(_, reply) => {
            put_deed(text, deed)?;
            put_one(text, ARROW, reply)
        }
        Said::Stopped(_, stop) => {
            put_deed(text, deed)?;
            put_stop(text, stop)
        }
        _ => put_said(text, said),
    }
}

/// The words on the box of a line: those after the caller's number.
fn put_label(text: &mut String, step: Step) -> Result<(), AllocError>
    ensures { OnOk result (string_bytes text.new ≡ string_bytes text.old ++ label_of step) }
{
    match step.line {
        Line::Of { said, .. } => match step.deed {
            None => put_said(text, said),
            Some(deed) => put_done(text, deed, said),
        },
        Line::Finish => text.push_str(" finish"),
    }
}

/// The words on the box of a row. Memory may be refused.
pub fn label(alloc: Global, row: Row) -> Result<String, AllocError>
    ensures { IfOk result (λ t. string_bytes t ≡ said_on (box_of row)) }
{
    let mut words = String::new(alloc);
    if row.times <= 1 {
        put_label(&mut words, row.step)?;
        return Ok(words);
    }
    put_times(&mut words, row.times)?;
    Ok(words)
}

/// The words on idle turns that follow each other.
fn put_times(text: &mut String, times: usize) -> Result<(), AllocError>
    ensures { OnOk result (string_bytes text.new
        ≡ string_bytes text.old ++ (codes " idle " ++ (decimal times ++ codes " times"))) }
{
    write!(text, " idle {times} times")
}
