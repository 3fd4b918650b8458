//! The access over a running attempt.
ghost use Rattle.std.specs.Prelude.{◌≡◌, ◌<◌, is_none, true, false};
ghost use Rattle.std.proofs.Common.{refl, ◌∙◌};
ghost use Rattle.stm_rule.specs.Callers.{IsOf};
ghost use Rattle.stm_tx.specs.Descs.{known, address_of, as_read, as_write, Serves};

use crate::serving::Calls;
use stm_answers::answers::{Read, Write};
use stm_model::access::Access;
use stm_model::rule::MemRule;
use stm_model::stop::Stop;
use stm_rule::desc::Desc;
use stm_rule::stm::Stm;

/// Where and why an attempt was stopped: the address of the read or write that was refused.
#[derive(Clone, Copy, Drop)]
pub struct Halt {
    pub at: usize,
    pub stop: Stop,
}

/// Reads and writes of a running attempt. A value, or that a write was done, is Ok; any other answer is
/// the Stop of the same name, which is kept in `stopped` from then on with the address. The good memories are those of
/// the memory's rule. Its frame says what was known where the attempt was stopped.
#[derive(Drop)]
pub struct Live<'a, K: MemRule, C: Calls> {
    /// By what it reads and writes: it must serve the attempt.
    pub calls: &'a C,
    pub desc: &'a mut Desc<K>,
    pub stm: &'a Stm<K>,
    pub stopped: Option<Halt>,
    pub ghost own: { IsOf desc.now stm.now },
    pub ghost runs: { (known desc.now).running ≡ is_none stopped },
    pub ghost served: { is_none stopped ≡ true → Serves C.acts_as (known desc.now) },
    pub ghost open: { is_none stopped ≡ true → (known desc.now).committing ≡ false },
    pub ghost unfenced: { is_none stopped ≡ true → (known desc.now).fence ≡ 0 },
}

impl<'a, K: MemRule, C: Calls> Access for Live<'a, K, C> {
    ghost use Rattle.stm_tx.specs.Descs.{known, Frames, frames-refl, frames-trans, log-once, stop_of};
    ghost use Rattle.std.proofs.Common.{◌≡◌, refl, ◌∙◌};

    ghost log = { λ s. (known s.desc.now).log };

    ghost good = { λ s. K.good s.stm.now.rule };

    ghost words = { λ s. s.stm.now.config.words };

    ghost stopped = { λ s. stop_of s.stopped };

    ghost keeps = { λ s t. Frames (K.good s.stm.now.rule) s.stm.now.config s.stopped s.desc.now t.stopped t.desc.now × (t.stm ≡ s.stm) × (t.desc.ghost_name ≡ s.desc.ghost_name) };

    ghost keeps_refl = { λ s. (frames-refl (K.good s.stm.now.rule) s.stm.now.config s.stopped s.desc.now, refl, refl) };

    ghost keeps_trans = { λ s t u a b. (frames-trans K.good s.stm.now t.stm.now s.stopped t.stopped u.stopped s.desc.now t.desc.now u.desc.now (λ k. (a.1 k).now) a.0 b.0, b.1 ∙ a.1, b.2 ∙ a.2) };

    ghost once = { λ s. log-once s.desc.now.view s.desc.now.own };

    #[inline(always)]
    fn read(&mut self, a: usize) -> Result<u64, Stop> {
        address_within(self.stm.config.words, a);
        match as_read(self.calls.read(self.desc, self.stm, a)) {
            Ok(value) => Ok(value),
            Err(stop) => {
                self.stopped = Some(Halt { at: a, stop });
                Err(stop)
            }
        }
    }

    #[inline(always)]
    fn write(&mut self, a: usize, v: u64) -> Result<(), Stop> {
        address_within(self.stm.config.words, a);
        match as_write(self.calls.write(self.desc, self.stm, a, v)) {
            Ok(()) => Ok(()),
            Err(stop) => {
                self.stopped = Some(Halt { at: a, stop });
                Err(stop)
            }
        }
    }
}

impl<'a, K: MemRule, C: Calls> Live<'a, K, C> {
    /// The address of the read or write that was refused, None where none was.
    #[inline]
    pub fn address(&self) -> Option<usize>
        ensures { result ≡ address_of self.now.stopped }
    {
        match self.stopped {
            Some(halt) => Some(halt.at),
            None => None,
        }
    }
}

/// Stops a run that nothing has proved where the memory has no word at `a`: the difference is checked there. Else it
/// does nothing, in no time, since nobody reads the difference.
#[inline(always)]
fn address_within(words: usize, a: usize)
    requires { a < words }
{
    let _rest = words - 1 - a;
}

/// The answer of a read as an access gives it.
#[inline(always)]
fn as_read(answer: Read) -> Result<u64, Stop>
    ensures { result ≡ as_read answer }
{
    match answer {
        Read::Value(value) => Ok(value),
        Read::Conflict(cause) => Err(Stop::Conflict(cause)),
        Read::Full { limit } => Err(Stop::Full { limit }),
    }
}

/// The answer of a write as an access gives it.
#[inline(always)]
fn as_write(answer: Write) -> Result<(), Stop>
    ensures { result ≡ as_write answer }
{
    match answer {
        Write::Done => Ok(()),
        Write::Conflict(cause) => Err(Stop::Conflict(cause)),
        Write::Full { limit } => Err(Stop::Full { limit }),
        Write::ClockFull { clock } => Err(Stop::ClockFull { clock }),
    }
}
