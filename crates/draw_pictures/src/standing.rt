//! What still stands of the rows above a page.
ghost use Rattle.std.specs.Prelude.{◌≡◌, ◌++◌, IfOk, OnOk, length, map};
ghost use Rattle.draw_pictures.specs.Shapes.{box_of, boxes_of};
ghost use Rattle.draw_pictures.specs.Standing.{after_row, box_in, ends, in_lane, none_stand, row_in, standing_of, standing_rows, starts};

use crate::row::Row;
use std::alloc::{AllocError, Global};

/// What a row tells that stands.
#[derive(Clone, Copy, Drop)]
pub enum Mark {
    /// An attempt has begun.
    Begun,
    /// It asks to be alone, or was granted it.
    Held,
    /// The gate is closed.
    Closed,
    /// The last commit of all, whose time is the clock.
    Clock,
}

/// The row that stands, of this caller but for the clock's.
#[derive(Clone, Copy, Drop)]
pub struct Slot {
    pub mark: Mark,
    pub lane: usize,
    pub row: Option<Row>,
}

/// Whether a row stands from now on.
fn starts(mark: Mark, own: usize, row: Row) -> bool
    ensures { result ≡ starts mark own (box_of row) }
{
    let kind = row.kind();
    match mark {
        Mark::Begun => row.lane() == own && kind.is_begin(),
        Mark::Held => row.lane() == own && kind.is_holding(),
        Mark::Closed => row.lane() == own && kind.is_closing(),
        Mark::Clock => kind.is_commit(),
    }
}

/// Whether what stood doesn't any more.
fn ends(mark: Mark, own: usize, row: Row) -> bool
    ensures { result ≡ ends mark own (box_of row) }
{
    let kind = row.kind();
    match mark {
        Mark::Begun | Mark::Held => row.lane() == own && kind.ends_attempt(),
        Mark::Closed => row.lane() == own && kind.is_opening(),
        Mark::Clock => false,
    }
}

impl Slot {
    fn of(mark: Mark, lane: usize) -> Slot
        ensures { standing_of result ≡ Rattle.draw_pictures.specs.Standing.of_lane mark lane }
    {
        Slot {
            mark,
            lane,
            row: None,
        }
    }

    /// After one row more.
    fn after(self, row: Row) -> Slot
        ensures { standing_of result ≡ after_row (box_of row) (standing_of self) }
    {
        if starts(self.mark, self.lane, row) {
            return Slot {
                row: Some(row),
                ..self
            };
        }
        if ends(self.mark, self.lane, row) {
            return Slot { row: None, ..self };
        }
        self
    }
}

/// Nothing stands.
pub fn none_stand(alloc: Global) -> Result<Vec<Slot>, AllocError>
    ensures { IfOk result (λ s. map standing_of s.items ≡ none_stand) }
{
    let mut slots = Vec::new(alloc);
    slots.push(Slot::of(Mark::Clock, 0))?;
    for lane in 0..32 {
        put_lane(&mut slots, lane)?;
    }
    Ok(slots)
}

/// The slots of a caller, where nothing stands.
#[tactic(auto, using(std::proofs::lemmas::List::map_push, std::proofs::Common::append_assoc))]
fn put_lane(slots: &mut Vec<Slot>, lane: usize) -> Result<(), AllocError>
    ensures { OnOk result (map standing_of slots.new.items ≡ map standing_of slots.old.items ++ in_lane lane) }
{
    slots.push(Slot::of(Mark::Begun, lane))?;
    slots.push(Slot::of(Mark::Held, lane))?;
    slots.push(Slot::of(Mark::Closed, lane))?;
    Ok(())
}

/// What stands after one row more.
pub fn stand(slots: &mut Vec<Slot>, row: Row)
    ensures { map standing_of slots.new.items ≡ map (after_row (box_of row)) (map standing_of slots.old.items) }
{
    for i in 0..slots.len() {
        slots[i] = slots[i].after(row);
    }
}

/// The rows that stand.
pub fn standing_rows(alloc: Global, slots: &[Slot]) -> Result<Vec<Row>, AllocError>
    ensures { IfOk result (λ r. boxes_of r.items ≡ standing_rows (map standing_of slots.now)) }
{
    let mut rows = Vec::new(alloc);
    for slot in slots {
        put_row(&mut rows, slot.row)?;
    }
    Ok(rows)
}

/// A row, where there is one.
fn put_row(rows: &mut Vec<Row>, row: Option<Row>) -> Result<(), AllocError>
    ensures { OnOk result (boxes_of rows.new.items ≡ boxes_of rows.old.items ++ row_in (box_in row)) }
{
    if let Some(row) = row {
        rows.push(row)?;
    }
    Ok(())
}
