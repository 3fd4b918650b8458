//! The room that a worker has from the start.
ghost use Rattle.std.specs.Prelude.{◌≡◌, ◌++◌, ◌∷◌, [], IfOk, OnOk};
ghost use Rattle.work_worker.specs.Rooms.{IsRoomFor};
ghost use Rattle.work_worker.specs.Workers.{spares};

use std::alloc::{AllocError, Global};
use stm_model::memory::Memory;
use work_profile::profile::Profile;
use work_script::replies::Replies;
use work_script::report::Row;
use work_script::workload::Item;

/// Room for all that a caller's items come to.
#[derive(Drop)]
pub(crate) struct Room {
    /// For the replies of the next transaction.
    pub(crate) out: Replies,
    /// For those of the transactions after it, the last one's first.
    pub(crate) spare: Vec<Replies>,
    pub(crate) rows: Vec<Row>,
    pub(crate) profile: Profile,
}

impl Room {
    /// All of it empty.
    pub(crate) fn new(alloc: Global, items: &[Item]) -> Result<Room, Memory>
        ensures { IfOk result (IsRoomFor items.now) }
    {
        let mut spare = rooms(alloc, items)?;
        let out = match spare.pop() {
            Some(out) => out,
            None => unreachable!(),
        };
        let mut rows = Vec::new(alloc);
        rows.reserve(spare.len())?;
        let profile = Profile::new(alloc)?;
        Ok(Room {
            out,
            spare,
            rows,
            profile,
        })
    }
}

/// Empty room for the replies of each transaction, the last one's first, after an empty one of no room.
fn rooms(alloc: Global, items: &[Item]) -> Result<Vec<Replies>, Memory>
    ensures { IfOk result (λ spare. spare.items ≡ spares items.now) }
{
    let mut spare = Vec::with_capacity(alloc, items.len().saturating_add(1))?;
    push_room(&mut spare, Replies::new(alloc, 0)?)?;
    for done in 0..items.len() {
        if let Item::Tx { caller: _, script } = &items[items.len() - 1 - done] {
            push_room(&mut spare, Replies::new(alloc, script.as_slice().len())?)?;
        }
    }
    Ok(spare)
}

fn push_room(spare: &mut Vec<Replies>, room: Replies) -> Result<(), AllocError>
    ensures { OnOk result (spare.new.items ≡ spare.old.items ++ room ∷ []) }
{
    spare.push(room)?;
    Ok(())
}
