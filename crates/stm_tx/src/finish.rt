//! The end of a commit: who has written rings the memory's bell, as the last thing that it does.
//!
//! So no wake-up is lost. All steps on words and bell are sequentially consistent, in one order. Let a commit have
//! written a word that a waiter read, and let s be the odd number that the waiter had announced before it read.
//!
//! 1. Each algorithm keeps one version of a word, and has stored it before its commit returns; the ring comes after.
//! 2. Where the ring's load precedes the announcement, what was stored precedes all that the waiter reads: it sees it.
//! 3. Else the ring finds s or a later number. At s, with a stripe of its own, it adds 1; at a later one somebody did.
//!    The number only rises, and the system compares it and queues the sleeper under the lock that the waking takes
//!    too.
//! 4. Where the ring finds s and no stripe of its own, it is for no word that was announced; and who has read beyond
//!    what it announced doesn't sleep, but announces more and looks again.
//!
//! An announcement whose exchange fails announces nothing, and that sleep ends at once. Where somebody `heard` the
//! ring, who has a handle wakes it (`Bell::wake`), as tx_atomic does: else it looks again after ten milliseconds.
ghost use Rattle.std.specs.Prelude.{◌≡◌, ℕ, ◌&&◌, true, false};
ghost use Rattle.stm_model.specs.Algorithms.{closes_gate};
ghost use Rattle.stm_rule.specs.Callers.{IsOf, IsSameCaller};
ghost use Rattle.stm_tx.specs.Costs.{costs};
ghost use Rattle.stm_tx.specs.Descs.{known, number};
ghost use Rattle.stm_tx.specs.Rings.{HasRung, HasRungAs, IsLogged, RingsAs};
ghost use Rattle.stm_answers.specs.Answers.{Commits, KeepsRule};
ghost use Rattle.stm_answers.specs.Counting.{AddsAtMost};

use crate::stripes::written;
use alg_calls::algorithm::Algorithm;
use stm_answers::answers::Commit;
use stm_bell::stripes::Stripes;
use stm_model::alg::Alg;
use stm_model::rule::MemRule;
use stm_rule::desc::Desc;
use stm_rule::rung::Rung;
use stm_rule::stm::Stm;

/// What a commit came to; and where it wrote, that the caller has rung.
#[derive(Drop)]
pub struct Finish<K: MemRule> {
    pub answer: Commit,
    /// There where the answer is `Committed`.
    pub rung: Option<Rung<K>>,
}

/// Commits an attempt of this algorithm and rings, as `calls::commit` says. `granted` may be false only where it was
/// not promoted.
#[inline(always)]
pub(crate) fn commit_by<A: Algorithm, K: MemRule>(
    desc: &mut Desc<K>,
    stm: &Stm<K>,
    granted: bool,
) -> Finish<K>
    requires stm { IsOf desc.old stm.now }
    requires running { (known desc.old).running ≡ true }
    requires algorithm { (known desc.old).alg ≡ A.alg }
    requires unpromoted { granted ≡ false → (closes_gate A.alg && (known desc.old).granted) ≡ false }
    requires keeps { KeepsRule (K.good stm.now.rule) stm.now.config (number desc.old)
        (known desc.old) }
    ensures same { IsSameCaller desc.old desc.new }
    ensures commits { Commits (K.good stm.now.rule) stm.now.config (number desc.old) result.answer
        (known desc.old) (known desc.new) }
    ensures rung { HasRung result.answer result.rung desc.old desc.new }
    ensures steps { AddsAtMost (costs stm.now.config (known desc.old)).commit (known desc.old)
        (known desc.new) }
{
    let logged = logs_all::<A, K>(desc, granted);
    let answer = A::commit(desc, stm);
    finish_with(desc, stm, answer, logged)
}

/// Whether the write log has all that the attempt has written. It is asked before the commit: afterwards nothing tells.
/// A constant where `granted` is one.
#[inline(always)]
fn logs_all<A: Algorithm, K: MemRule>(desc: &Desc<K>, granted: bool) -> bool
    requires running { (known desc.now).running ≡ true }
    requires algorithm { (known desc.now).alg ≡ A.alg }
    requires unpromoted { granted ≡ false → (closes_gate A.alg && (known desc.now).granted) ≡ false }
    ensures { result ≡ true → IsLogged desc.now }
{
    let _algorithm = desc.local.algorithm;
    match A::which() {
        Alg::OrecLazy | Alg::OrecEager | Alg::RingSw => !granted,
        Alg::Cgl | Alg::Tml | Alg::Serial => false,
    }
}

/// The finish of a commit that came to this, and took its last step.
#[inline(always)]
fn finish_with<K: MemRule>(desc: &Desc<K>, stm: &Stm<K>, answer: Commit, logged: bool) -> Finish<K>
    requires stm { IsOf desc.now stm.now }
    ensures answer { result.answer ≡ answer }
    ensures rung { HasRungAs logged answer result.rung desc.now }
{
    if let Commit::Committed { .. } = answer {
        let rung = Some(ring(desc, stm, logged));
        return Finish { answer, rung };
    }
    Finish { answer, rung: None }
}

/// Rings for the words that the last attempt wrote: one load while nobody waits.
#[inline(always)]
fn ring<K: MemRule>(desc: &Desc<K>, stm: &Stm<K>, logged: bool) -> Rung<K>
    requires stm { IsOf desc.now stm.now }
    ensures { RingsAs logged result desc.now }
{
    match Rung::in_silence(desc, stm) {
        Some(rung) => rung,
        None => ring_aloud(desc, stm, logged),
    }
}

#[cold]
#[inline(never)]
fn ring_aloud<K: MemRule>(desc: &Desc<K>, stm: &Stm<K>, logged: bool) -> Rung<K>
    requires stm { IsOf desc.now stm.now }
    ensures { RingsAs logged result desc.now }
{
    let stripes = if logged {
        written(desc)
    } else {
        Stripes::all()
    };
    Rung::ring(desc, stm, stripes)
}
