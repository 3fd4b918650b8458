//! How far a caller has come in its scripts.
ghost use Rattle.std.specs.Prelude.{◌≡◌, ◌≤◌, Some, None, MatchOption, IfSome, length, true, false};
ghost use Rattle.draw_core.specs.Turns.{after, begun, done, ended, granted, is_at, is_done, is_next, is_over, next_of, past_next, told_by};
ghost use Rattle.draw_core.specs.Walks.{stand_of};

use crate::turn::{Stage, Turn};
use work_check::scripts::next_script;
use work_script::op::Op;
use work_script::workload::Item;
use work_text::lines;

/// How far a caller has come.
#[derive(Clone, Copy, Drop)]
pub struct Cursor {
    /// The item from which on its first transaction that hasn't ended is looked for.
    pub item: usize,
    /// How many operations of that one's script are done, where an attempt is open.
    pub done: Option<usize>,
}

/// The caller's next operation, and where it stands once that one is done.
pub fn next_op(items: &[Item], caller: usize, cursor: Cursor) -> Option<(Op, Cursor)>
    requires { cursor.item ≤ length items.now }
    ensures op { MatchOption result (next_of (stand_of items.now caller cursor).attempt ≡ None)
        (λ r. next_of (stand_of items.now caller cursor).attempt ≡ Some r.0) }
    ensures past { IfSome result (λ r.
        stand_of items.now caller r.1
        ≡ record (stand_of items.now caller cursor)
        { attempt = past_next (stand_of items.now caller cursor).attempt }) }
    ensures within { IfSome result (λ r. r.1.item ≤ length items.now) }
{
    let done = cursor.done?;
    let (_, script) = next_script(items, caller, cursor.item)?;
    let ops = script.as_slice();
    if ops.len() <= done {
        return None;
    }
    let past = Cursor {
        item: cursor.item,
        done: Some(done + 1),
    };
    Some((ops[done], past))
}

/// The same, where that operation has the name of this one.
fn next_like(items: &[Item], caller: usize, cursor: Cursor, like: Op) -> Option<(Op, Cursor)>
    requires { cursor.item ≤ length items.now }
    ensures op { MatchOption result
        (is_next like (next_of (stand_of items.now caller cursor).attempt) ≡ false) (λ r.
        (is_next like (next_of (stand_of items.now caller cursor).attempt) ≡ true)
        × (next_of (stand_of items.now caller cursor).attempt ≡ Some r.0)) }
    ensures past { IfSome result (λ r.
        stand_of items.now caller r.1 ≡ done (stand_of items.now caller cursor)) }
    ensures within { IfSome result (λ r. r.1.item ≤ length items.now) }
{
    let (op, past) = next_op(items, caller, cursor)?;
    if lines::is(op.name().as_bytes(), like.name().as_bytes()) {
        Some((op, past))
    } else {
        None
    }
}

/// Where the caller stands in a new attempt: none is open, and a transaction is left.
fn begin(items: &[Item], caller: usize, cursor: Cursor) -> Option<Cursor>
    requires { cursor.item ≤ length items.now }
    ensures { MatchOption result (begun (stand_of items.now caller cursor).attempt
        (stand_of items.now caller cursor).scripts ≡ None) (λ c.
        (begun (stand_of items.now caller cursor).attempt (stand_of items.now caller cursor).scripts
        ≡ Some (stand_of items.now caller c)) × (c.item ≡ cursor.item)) }
{
    if cursor.done.is_some() {
        return None;
    }
    let _next = next_script(items, caller, cursor.item)?;
    Some(Cursor {
        item: cursor.item,
        done: Some(0),
    })
}

/// Where the caller stands once its transaction has ended.
fn end(items: &[Item], caller: usize, cursor: Cursor) -> Cursor
    requires { cursor.item ≤ length items.now }
    ensures is { stand_of items.now caller result ≡ ended (stand_of items.now caller cursor) }
    ensures within { result.item ≤ length items.now }
{
    let item = match next_script(items, caller, cursor.item) {
        Some((behind, _)) => behind,
        None => cursor.item,
    };
    Cursor { item, done: None }
}

/// Whether an attempt is open, and every operation of its script done.
fn is_done(items: &[Item], caller: usize, cursor: Cursor) -> bool
    requires { cursor.item ≤ length items.now }
    ensures { result ≡ is_done (stand_of items.now caller cursor).attempt }
{
    cursor.done.is_some() && next_op(items, caller, cursor).is_none()
}

/// Whether no transaction is left to the caller.
pub fn is_over(items: &[Item], caller: usize, cursor: Cursor) -> bool
    requires { cursor.item ≤ length items.now }
    ensures { result ≡ is_over (stand_of items.now caller cursor).scripts }
{
    next_script(items, caller, cursor.item).is_none()
}

/// Whether the caller stands at this stage.
fn is_at(items: &[Item], caller: usize, cursor: Cursor, stage: Stage) -> bool
    requires { cursor.item ≤ length items.now }
    ensures { result ≡ is_at stage (stand_of items.now caller cursor) }
{
    match stage {
        Stage::Before => cursor.done.is_none() && !is_over(items, caller, cursor),
        Stage::Inside => cursor.done.is_some(),
        Stage::Done => is_done(items, caller, cursor),
        Stage::Outside => cursor.done.is_none(),
        Stage::Over => cursor.done.is_none() && is_over(items, caller, cursor),
    }
}

/// Where the caller stands once its attempt is irrevocable.
fn grant(items: &[Item], caller: usize, cursor: Cursor) -> Cursor
    requires { cursor.item ≤ length items.now }
    ensures is { stand_of items.now caller result ≡ granted (stand_of items.now caller cursor) }
    ensures within { result.item ≤ length items.now }
{
    match next_like(items, caller, cursor, Op::Irrev) {
        Some((_, past)) => past,
        None => cursor,
    }
}

/// Where the caller stands after a line that does this, where it may, and the operation that the line tells of.
pub fn after(
    items: &[Item],
    caller: usize,
    cursor: Cursor,
    turn: Turn,
) -> Option<(Cursor, Option<Op>)>
    requires { cursor.item ≤ length items.now }
    ensures is { MatchOption result (after (stand_of items.now caller cursor) turn ≡ None) (λ r.
        after (stand_of items.now caller cursor) turn ≡ Some (stand_of items.now caller r.0)) }
    ensures told { IfSome result (λ r. r.1 ≡ told_by (stand_of items.now caller cursor) turn) }
    ensures within { IfSome result (λ r. r.0.item ≤ length items.now) }
{
    let outside = Cursor {
        item: cursor.item,
        done: None,
    };
    match turn {
        Turn::Begins => Some((begin(items, caller, cursor)?, None)),
        Turn::Does(like) => {
            let (op, past) = next_like(items, caller, cursor, like)?;
            Some((past, Some(op)))
        }
        Turn::Stops(like) => {
            let (op, _) = next_like(items, caller, cursor, like)?;
            Some((outside, Some(op)))
        }
        Turn::Grants => {
            let _open = cursor.done?;
            Some((grant(items, caller, cursor), None))
        }
        Turn::Cancels => {
            let _cancel = next_like(items, caller, cursor, Op::Cancel)?;
            Some((end(items, caller, cursor), None))
        }
        Turn::Commits => {
            if !is_done(items, caller, cursor) {
                return None;
            }
            Some((end(items, caller, cursor), None))
        }
        Turn::Fails(stage) => {
            if !is_at(items, caller, cursor, stage) {
                return None;
            }
            Some((outside, None))
        }
        Turn::Stays(stage) => {
            if !is_at(items, caller, cursor, stage) {
                return None;
            }
            Some((cursor, None))
        }
    }
}
