//! A part that is done wholly or not at all.
ghost use Rattle.std.specs.Prelude.{◌≡◌, ◌≤◌, None, IfOk, OnOk, IfErr};
ghost use Rattle.stm_model.specs.Logs.{SameMemories, IsExplained};
ghost use Rattle.data_effects.specs.Accesses.{LeadsOn};
ghost use Rattle.data_effects.specs.Effects.{Under};
ghost use Rattle.stm_model.specs.declared.config.TheConstants.{MOST_MARKS};
ghost use Rattle.tx_parts.specs.Laying.{Comes, Leaves, Left, Shows, IsEmptied};

use crate::lent::Lent;
use crate::overlay::Overlay;
use crate::part::Part;
use stm_logs::write_log::WriteLog;
use stm_model::access::Access;
use stm_model::rule::MemRule;
use stm_model::stop::Stop;

/// What came of a part.
#[derive(Clone, Copy, Drop, Debug, PartialEq, Eq)]
pub enum PartOutcome<T> {
    /// It was done.
    Done(T),
    /// It gave way, and left no trace but what it read.
    GaveWay,
    /// It wrote more words than there was room for, and left no trace but what it read. The log shows them.
    NoRoom { limit: usize },
    /// There was no memory for its log, so it wasn't begun. `wholly`, which is given the log, never answers this.
    NoMemory,
}

/// Does a part wholly or not at all: what it writes lies in `room`, an empty log, until it is done, and only then goes
/// to the memory. So whether it gives way is open also in an attempt that can't be rolled back, and where writes are
/// stored in place. The room is for as many words as the part writes in all, and for `MOST_MARKS` marks. The log is
/// left empty, to be lent again; but where there was no room in it, it is left full of the part's words.
///
/// # Errors
/// The Stop of the access.
pub fn wholly<K: MemRule, P: Part<K>, A: Access>(
    part: &P,
    rule: &K,
    memory: &mut A,
    room: &mut WriteLog,
) -> Result<PartOutcome<P::Output>, Stop>
    requires going { A.stopped memory.old ≡ None }
    requires good { SameMemories (A.good memory.old) (K.good rule.now) }
    requires seen { IsExplained (A.good memory.old) (A.words memory.old) (A.log memory.old) }
    requires sound { Under (K.good rule.now) (A.words memory.old) (A.log memory.old)
        (K.good rule.now) }
    requires precondition { P.precondition part.now rule.now (A.words memory.old) }
    requires shallow { P.depth part.now ≤ MOST_MARKS }
    requires empty { IsEmptied room.old }
    requires deep { MOST_MARKS ≤ room.old.marks_limit }
    ensures comes { IfOk result (λ o.
        Comes (K.good rule.now) (A.words memory.old) room.old.len
        (P.postcondition part.now rule.now (A.words memory.old)) o (A.log memory.old)
        (A.log memory.new)) }
    ensures left { IfOk result (λ o. Leaves (A.words memory.old) o room.new) }
    ensures emptied { IfErr result (λ _. IsEmptied room.new) }
    ensures sizes { (room.new.len ≡ room.old.len) × (room.new.marks_limit ≡ room.old.marks_limit) }
    ensures kept { OnOk result
        (Under (K.good rule.now) (A.words memory.old) (A.log memory.new) (K.good rule.now)) }
    ensures frame { LeadsOn A.Access memory.old memory.new result }
{
    let (came, below) = wholly_over(part, rule, Lent { to: memory }, room);
    let Lent { to: _to } = below;
    came
}

/// The same over an access that is given by value and comes back, beside the answer.
fn wholly_over<K: MemRule, P: Part<K>, A: Access>(
    part: &P,
    rule: &K,
    below: A,
    room: &mut WriteLog,
) -> (Result<PartOutcome<P::Output>, Stop>, A)
    requires going { A.stopped below ≡ None }
    requires good { SameMemories (A.good below) (K.good rule.now) }
    requires seen { IsExplained (A.good below) (A.words below) (A.log below) }
    requires sound { Under (K.good rule.now) (A.words below) (A.log below) (K.good rule.now) }
    requires precondition { P.precondition part.now rule.now (A.words below) }
    requires shallow { P.depth part.now ≤ MOST_MARKS }
    requires empty { IsEmptied room.old }
    requires deep { MOST_MARKS ≤ room.old.marks_limit }
    ensures comes { IfOk result.0 (λ o.
        Comes (K.good rule.now) (A.words below) room.old.len
        (P.postcondition part.now rule.now (A.words below)) o (A.log below) (A.log result.1)) }
    ensures left { IfOk result.0 (λ o. Leaves (A.words below) o room.new) }
    ensures emptied { IfErr result.0 (λ _. IsEmptied room.new) }
    ensures sizes { (room.new.len ≡ room.old.len) × (room.new.marks_limit ≡ room.old.marks_limit) }
    ensures kept { OnOk result.0
        (Under (K.good rule.now) (A.words below) (A.log result.1) (K.good rule.now)) }
    ensures frame { LeadsOn A.Access below result.1 result.0 }
{
    let mut overlay = Overlay {
        below,
        room,
        stopped: None,
        crowded: false,
    };
    let came = run_apart(part, rule, &mut overlay);
    let Overlay { below, room, .. } = overlay;
    give_back(&came, room);
    (came, below)
}

/// Empties the log that was lent, unless it shows that there was no room.
fn give_back<T>(came: &Result<PartOutcome<T>, Stop>, room: &mut WriteLog)
    ensures { Left came.now room.old room.new }
{
    match came {
        Ok(PartOutcome::NoRoom { .. }) => {}
        Ok(PartOutcome::Done(_)) => room.renew(),
        Ok(PartOutcome::GaveWay) => room.renew(),
        Ok(PartOutcome::NoMemory) => room.renew(),
        Err(_) => room.renew(),
    }
}

/// Does the part over an empty log, and writes to the access below where it was done.
///
/// # Errors
/// The Stop of the access.
fn run_apart<K: MemRule, P: Part<K>, A: Access>(
    part: &P,
    rule: &K,
    overlay: &mut Overlay<'_, A>,
) -> Result<PartOutcome<P::Output>, Stop>
    requires going { overlay.old.stopped ≡ None }
    requires good { SameMemories (A.good overlay.old.below) (K.good rule.now) }
    requires sound { Under (K.good rule.now) (A.words overlay.old.below) (A.log overlay.old.below)
        (K.good rule.now) }
    requires seen { IsExplained (A.good overlay.old.below) (A.words overlay.old.below)
        (A.log overlay.old.below) }
    requires precondition { P.precondition part.now rule.now (A.words overlay.old.below) }
    requires shallow { P.depth part.now ≤ MOST_MARKS }
    requires empty { IsEmptied overlay.old.room }
    ensures comes { IfOk result (λ o.
        Comes (K.good rule.now) (A.words overlay.old.below) overlay.old.room.len
        (P.postcondition part.now rule.now (A.words overlay.old.below)) o (A.log overlay.old.below)
        (A.log overlay.new.below)) }
    ensures full { IfOk result (λ o. Shows (A.words overlay.old.below) o overlay.new.room) }
    ensures room { (overlay.new.room.len ≡ overlay.old.room.len)
        × (overlay.new.room.marks_limit ≡ overlay.old.room.marks_limit)
        × (overlay.new.name ≡ overlay.old.name) }
    ensures kept { OnOk result
        (Under (K.good rule.now) (A.words overlay.old.below) (A.log overlay.new.below)
        (K.good rule.now)) }
    ensures frame { LeadsOn A.Access overlay.old.below overlay.new.below result }
{
    let came = part.run(rule, overlay);
    let full = overlay.no_room();
    match came {
        Ok(Some(done)) => {
            overlay.settle()?;
            Ok(PartOutcome::Done(done))
        }
        Ok(None) => Ok(PartOutcome::GaveWay),
        Err(stop) => match full {
            Some(limit) => Ok(PartOutcome::NoRoom { limit }),
            None => Err(stop),
        },
    }
}
