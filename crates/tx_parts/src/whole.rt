//! A part as a transaction.
ghost use Rattle.stm_model.specs.declared.config.TheConstants.{MOST_MARKS};

use crate::part::Part;
use crate::wholly::{PartOutcome, wholly};
use std::alloc::Global;
use stm_logs::write_log::WriteLog;
use stm_model::access::Access;
use stm_model::config::MOST_MARKS;
use stm_model::rule::MemRule;
use stm_model::stop::Stop;
use tx_transaction::transaction::Transaction;

/// The transaction that is this part, done wholly or not at all.
#[derive(Clone, Copy, Drop)]
pub struct Whole<P> {
    pub part: P,
    /// A word that is read before the part is done: best one that the part reads, since it adds a read else.
    pub first: usize,
    /// For how many words there is room, 1 to 1,048,576: as many as the part writes in all.
    pub room: usize,
    pub alloc: Global,
}

impl<K: MemRule, P: Part<K>> Transaction<K> for Whole<P> {
    ghost use Rattle.std.specs.Prelude.{◌<◌, ◌≤◌};
    ghost use Rattle.tx_parts.specs.Laying.{ComesFirst};

    type Output = PartOutcome<P::Output>;

    ghost precondition = { λ it rule words. P.precondition it.part rule words × (P.depth it.part ≤ MOST_MARKS) × (it.first < words) × (1 ≤ it.room) × (it.room ≤ 1048576) };

    ghost postcondition = { λ it rule words came log. ComesFirst (K.good rule) words it.first it.room (P.postcondition it.part rule words) came log };

    /// `NoMemory` where memory was refused for the part's log.
    fn run<A: Access>(&self, rule: &K, memory: &mut A) -> Result<PartOutcome<P::Output>, Stop> {
        memory.read(self.first)?;
        let Ok(mut room) = WriteLog::new(self.alloc, self.room, MOST_MARKS) else {
            return Ok(PartOutcome::NoMemory);
        };
        wholly(&self.part, rule, memory, &mut room)
    }
}

/// Why a part was neither done nor gave way.
#[derive(Clone, Copy, Drop, Debug, PartialEq, Eq)]
pub enum Undone {
    /// It wrote more words than there was room for.
    NoRoom { limit: usize },
    /// There was no memory for its log.
    NoMemory,
}

/// The same for a caller that waits until the part is done: None where it gives way, as `until_some` asks.
#[derive(Clone, Copy, Drop)]
pub struct Awaited<P> {
    pub whole: Whole<P>,
}

impl<K: MemRule, P: Part<K>> Transaction<K> for Awaited<P> {
    ghost use Rattle.std.specs.Prelude.{◌<◌, ◌≤◌};
    ghost use Rattle.tx_parts.specs.Laying.{ComesAwaited};

    type Output = Option<Result<P::Output, Undone>>;

    ghost precondition = { λ it rule words. P.precondition it.whole.part rule words × (P.depth it.whole.part ≤ MOST_MARKS) × (it.whole.first < words) × (1 ≤ it.whole.room) × (it.whole.room ≤ 1048576) };

    ghost postcondition = { λ it rule words came log. ComesAwaited (K.good rule) words it.whole.first it.whole.room (P.postcondition it.whole.part rule words) came log };

    fn run<A: Access>(
        &self,
        rule: &K,
        memory: &mut A,
    ) -> Result<Option<Result<P::Output, Undone>>, Stop> {
        match self.whole.run(rule, memory)? {
            PartOutcome::Done(done) => Ok(Some(Ok(done))),
            PartOutcome::GaveWay => Ok(None),
            PartOutcome::NoRoom { limit } => Ok(Some(Err(Undone::NoRoom { limit }))),
            PartOutcome::NoMemory => Ok(Some(Err(Undone::NoMemory))),
        }
    }
}
