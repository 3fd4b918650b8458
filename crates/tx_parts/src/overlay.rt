//! The writes of a part, kept apart from what lies below until the part is kept.
ghost use Rattle.std.specs.Prelude.{◌≡◌, ◌<◌, None, OnOk, IfSome, IfNone};
ghost use Rattle.stm_model.specs.Logs.{IsExplained};
ghost use Rattle.data_effects.specs.Accesses.{LeadsOn};
ghost use Rattle.stm_logs.specs.LogStates.{firsts};
ghost use Rattle.tx_parts.specs.Laying.{Lays, Within, IsFilled};

use crate::nesting::Nesting;
use std::marker::Model;
use stm_logs::push::Push;
use stm_logs::write_log::WriteLog;
use stm_model::access::Access;
use stm_model::stop::Stop;

/// An access whose writes lie in a log of its own, over those of the access below it, which it only reads. Where the
/// log has its length and one more address is written, it is stopped by `Full`, and the access below could go on.
#[derive(Drop)]
pub struct Overlay<'a, A: Access> {
    pub(crate) below: A,
    pub(crate) room: &'a mut WriteLog,
    pub(crate) stopped: Option<Stop>,
    /// Whether it was stopped for want of room.
    pub(crate) crowded: bool,
}

impl<'a, A: Access> Model for Overlay<'a, A> {
    ghost use Rattle.tx_parts.specs.Laying.{Top, top, Stands};

    ghost Value = { Top A };

    ghost view = { λ s. top s.below s.room.now s.room.ghost_name s.stopped s.crowded };

    // a good memory explains what lies below, and the log's words are words of it
    ghost invariant = { λ s. Stands A.good A.words A.stopped A.log s.below s.room.now s.stopped s.crowded };
}

impl<'a, A: Access> Overlay<'a, A> {
    /// Writes what lies in the log to the access below, in the order of the first writes.
    ///
    /// # Errors
    /// The Stop of the access below.
    pub(crate) fn settle(&mut self) -> Result<(), Stop>
        requires going { self.old.stopped ≡ None }
        ensures lays { OnOk result
            (Lays self.old.room.items (A.log self.old.below) (A.log self.new.below)) }
        ensures frame { LeadsOn A.Access self.old.below self.new.below result }
        ensures room { (self.new.room ≡ self.old.room) × (self.new.name ≡ self.old.name) }
    {
        match write_through(&mut self.below, self.room) {
            Ok(()) => Ok(()),
            Err(stop) => {
                self.stopped = Some(stop);
                Err(stop)
            }
        }
    }

    /// For how many words there was room, where it was stopped for want of more.
    pub(crate) fn no_room(&self) -> Option<usize>
        ensures goes { IfSome result (λ _. A.stopped self.now.below ≡ None) }
        ensures some { IfSome result (λ limit.
            (limit ≡ self.now.room.len) × (limit < A.words self.now.below)
            × IsExplained (A.good self.now.below) (A.words self.now.below) (A.log self.now.below)
            × IsFilled (A.words self.now.below) self.now.room) }
        ensures none { IfNone result (A.stopped self.now.below ≡ self.now.stopped) }
    {
        let _count = self.room.count();
        if self.crowded {
            Some(self.room.len())
        } else {
            None
        }
    }
}

/// Writes all that lies in the log, in the order of the first writes.
///
/// # Errors
/// The Stop of the access.
fn write_through<A: Access>(memory: &mut A, room: &WriteLog) -> Result<(), Stop>
    requires going { A.stopped memory.old ≡ None }
    requires seen { IsExplained (A.good memory.old) (A.words memory.old) (A.log memory.old) }
    requires within { Within (A.words memory.old) (firsts room.now.items) }
    ensures lays { OnOk result (Lays room.now.items (A.log memory.old) (A.log memory.new)) }
    ensures frame { LeadsOn A.Access memory.old memory.new result }
{
    for i in 0..room.count() {
        let (a, v) = room.item(i);
        memory.write(a, v)?;
    }
    Ok(())
}

impl<'a, A: Access> Access for Overlay<'a, A> {
    ghost use Rattle.tx_parts.specs.Laying.{over, OnTop};
    ghost use Rattle.tx_parts.specs.LayingLaws.{over-once, on_top-refl, on_top-trans};

    ghost log = { λ s. over s.room.items (A.log s.below) };

    ghost good = { λ s. A.good s.below };

    ghost words = { λ s. A.words s.below };

    ghost stopped = { λ s. s.stopped };

    ghost keeps = { λ s t. A.keeps s.below t.below × OnTop A.good A.words A.stopped A.log s t };

    ghost keeps_refl = { λ s. (A.keeps_refl s.below, on_top-refl A.good A.words A.stopped A.log s) };

    ghost keeps_trans = { λ s t u a b. (A.keeps_trans s.below t.below u.below a.0 b.0, on_top-trans A.good A.words A.stopped A.log s t u a.1 b.1) };

    ghost once = { λ s. over-once s.room.items (A.log s.below) (A.once s.below) };

    fn read(&mut self, a: usize) -> Result<u64, Stop> {
        let _count = self.room.count();
        if let Some(v) = self.room.find(a) {
            return Ok(v);
        }
        match self.below.read(a) {
            Ok(v) => Ok(v),
            Err(stop) => {
                self.stopped = Some(stop);
                Err(stop)
            }
        }
    }

    fn write(&mut self, a: usize, v: u64) -> Result<(), Stop> {
        let _count = self.room.count();
        match self.room.push(a, v) {
            Push::Done => Ok(()),
            Push::Full { limit } => {
                let stop = Stop::Full { limit };
                self.crowded = true;
                self.stopped = Some(stop);
                Err(stop)
            }
        }
    }
}

impl<'a, A: Access> Nesting for Overlay<'a, A> {
    ghost use Rattle.std.specs.Prelude.{◌≡◌, None, length};
    ghost use Rattle.std.proofs.Common.{ap, subst};
    ghost use Rattle.tx_parts.specs.Laying.{opened};
    ghost use Rattle.tx_parts.specs.LayingLaws.{on_top-opened};

    ghost depth = { λ s. length s.room.marks };

    ghost opens = { λ s t. (t.below ≡ s.below) × (s.stopped ≡ None) × (t.room ≡ opened s.room) × (t.name ≡ s.name) };

    fn mark(&mut self) {
        self.room.mark();
    }

    fn roll_back(&mut self) {
        let depth = self.room.depth();
        self.room.roll_to(depth);
        self.room.release(depth);
    }

    fn keep(&mut self) {
        let depth = self.room.depth();
        self.room.release(depth);
    }

    ghost keeps_depth = { λ s t a e. ap length (a.1.marks e).1 };

    ghost keeps_good = { λ s t a. a.1.same };

    ghost keeps_words = { λ s t a. a.1.still };

    ghost keeps_reads = { λ s t a e. (a.1.marks e).2.0 };

    ghost keeps_stopped = { λ s t u stop o a e. (subst (λ b. A.keeps b u.below) o.0 a.0, on_top-opened A.good A.words A.stopped A.log s t u stop o.0 o.1 (ap (λ q. q.len) o.2) (ap (λ q. q.marks_limit) o.2) o.3 e a.1) };
}
