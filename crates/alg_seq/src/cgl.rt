//! CGL: one coarse-grained lock from begin to commit, beside which every transactional memory is measured. An attempt
//! reads and writes in place, and is irrevocable from its begin on.
//!
//! Invariant (`IsLocked`): while the attempt runs the lock word names its caller, so nobody else stores a heap word or
//! the clock. Its start is the clock, and the heap is the memory at that time under its own stores.

use alg_calls::algorithm::Algorithm;
use stm_answers::answers::{Begin, Cancel, Commit, Irrev, Read, Roll, Write};
use stm_gate::leave::leave;
use stm_model::alg::Alg;
use stm_model::config::CLOCK_LIMIT;
use stm_model::rule::MemRule;
use stm_rule::desc::Desc;
use stm_rule::stm::{Stm, Token};

/// CGL.
pub struct Cgl;

impl Algorithm for Cgl {
    ghost use Rattle.stm_model.specs.declared.alg.Alg.TheVariants.{Cgl};

    ghost alg = { Cgl };

    #[inline(always)]
    fn which() -> Alg {
        Alg::Cgl
    }

    /// Takes the lock and loads the start, which it answers, for a caller that found the gate open. Held and
    /// ClockFull leave the caller where it was, without the lock. Two steps, three where the clock is at its limit.
    fn begin<K: MemRule>(seat: &mut Token<K>, stm: &Stm<K>, caller: usize) -> Result<u64, Begin> {
        let found = stm.take_lock(seat, caller);
        if found != 0 {
            return Err(Begin::Held { word: found });
        }
        let clock = stm.load_start(seat, caller);
        if clock >= CLOCK_LIMIT {
            stm.free_lock(seat, caller);
            return Err(Begin::ClockFull { clock });
        }
        Ok(clock)
    }

    /// Loads the word. One step.
    fn read<K: MemRule>(desc: &mut Desc<K>, stm: &Stm<K>, a: usize) -> Read {
        Read::Value(stm.load_heap(&mut desc.seat, desc.number, a))
    }

    /// Stores the word. One step.
    fn write<K: MemRule>(desc: &mut Desc<K>, stm: &Stm<K>, a: usize, x: u64) -> Write {
        stm.store_heap(&mut desc.seat, desc.number, a, x);
        desc.local.wrote = true;
        Write::Done
    }

    /// Raises the clock where the attempt wrote, and frees the lock. Three steps, two where it wrote nothing.
    fn commit<K: MemRule>(desc: &mut Desc<K>, stm: &Stm<K>) -> Commit {
        let caller = desc.number;
        let start = desc.local.start;
        if !desc.local.wrote {
            stm.free_lock(&mut desc.seat, caller);
            leave(&mut desc.seat, &mut desc.local, stm, caller);
            return Commit::ReadOnly { time: start };
        }
        let time = start + 1;
        stm.store_clock(&mut desc.seat, caller, time);
        stm.free_lock(&mut desc.seat, caller);
        leave(&mut desc.seat, &mut desc.local, stm, caller);
        Commit::Committed { time }
    }

    /// An attempt can't be cancelled: no step.
    fn cancel<K: MemRule>(desc: &mut Desc<K>, stm: &Stm<K>) -> Cancel {
        let _ = stm;
        Cancel::Irrevocable
    }

    /// An attempt is irrevocable from its begin on: no step.
    fn try_irrevocable<K: MemRule>(desc: &mut Desc<K>, stm: &Stm<K>) -> Irrev {
        let _number = desc.number;
        let _ = stm;
        Irrev::Granted
    }

    /// An attempt can't be rolled back: no step.
    fn roll_to<K: MemRule>(desc: &mut Desc<K>, stm: &Stm<K>, depth: usize) -> Roll {
        let _ = stm;
        let _depth = depth;
        Roll::Irrevocable
    }
}
