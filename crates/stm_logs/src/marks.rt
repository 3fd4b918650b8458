//! What a mark of a write log keeps: how many items there were, and what each of these was that was written since.
//! Rolled back, the log has its first items with these values; what came after them is gone.
ghost use Rattle.std.specs.Prelude.{◌≡◌, ◌≤◌, ◌<◌, ◌-◌, [], IfOk, length, get_or, set};
ghost use Rattle.stm_logs.specs.LogStates.{LogState, next_generation};
ghost use Rattle.stm_logs.specs.Marks.{AreBlank, CanMerge, Saves, at_mark, emptied_mark, merged, saved, blank_mark};

use crate::push::Repeat;
use crate::short_log::ShortLog;
use crate::undo_log::UndoLog;
use std::alloc::Global;
use stm_model::memory::Memory;

/// One mark.
#[derive(Drop, Debug)]
pub struct Mark {
    /// How many items the log had.
    pub count: usize,
    /// The value that an item had, for each that was written since: one item an address.
    pub olds: UndoLog,
}

/// Room for `limit` marks of a log of length `len`, 1 to 1,048,576: 32 bytes an item each.
pub(crate) fn blank_marks(alloc: Global, len: usize, limit: usize) -> Result<Vec<Mark>, Memory>
    requires low { 1 ≤ len }
    requires high { len ≤ 1048576 }
    ensures { IfOk result (λ ms. AreBlank len limit ms.items) }
{
    let mut marks = Vec::new(alloc);
    marks.reserve(limit)?;
    for _ in 0..limit {
        marks.push_reserved(Mark {
            count: 0,
            olds: UndoLog::new(alloc, len)?,
        });
    }
    Ok(marks)
}

/// Begins a mark at which the log has `count` items.
pub(crate) fn begin(mark: &mut Mark, count: usize)
    ensures { mark.new
        ≡ record {
          count = count;
          olds = record mark.old.olds
              { items = []; generation = next_generation mark.old.olds.generation; marks = [] };
        } }
{
    mark.count = count;
    mark.olds.clear();
}

/// Keeps what the address has in the log before it is written, unless the mark has its value or the log has none.
#[inline]
pub(crate) fn save(mark: &mut Mark, log: &ShortLog, a: usize)
    requires saves { Saves mark.old log.now.items }
    requires room { log.now.len ≤ mark.old.olds.len }
    ensures { mark.new ≡ saved a log.now.items mark.old }
{
    let _count = log.count();
    if let Some(old) = log.find(a) {
        mark.olds.push(a, old);
    }
}

/// Puts the log back to what it was at the mark.
pub(crate) fn restore(mark: &mut Mark, log: &mut ShortLog)
    requires saves { Saves mark.old log.old.items }
    ensures mark { mark.new ≡ emptied_mark mark.old }
    ensures log { log.new ≡ record log.old { items = at_mark mark.old log.old.items } }
{
    let _count = log.count();
    for i in 0..mark.olds.count() {
        let (a, old) = mark.olds.item(i);
        log.push(a, old, Repeat::Replace);
    }
    log.truncate(mark.count);
    mark.olds.clear();
}

/// Takes mark number `upper`, counted from 0, into the one below it: that has what the items were then.
pub(crate) fn merge(marks: &mut [Mark], upper: usize)
    requires low { 0 < upper }
    requires high { upper < length marks.old }
    requires can { CanMerge (get_or marks.old (upper - 1) blank_mark)
        (get_or marks.old upper blank_mark) }
    ensures { marks.new
        ≡ set marks.old (upper - 1)
        (merged (get_or marks.old (upper - 1) blank_mark) (get_or marks.old upper blank_mark)) }
{
    for i in 0..marks[upper].olds.count() {
        let (a, old) = marks[upper].olds.item(i);
        marks[upper - 1].olds.push(a, old);
    }
}
