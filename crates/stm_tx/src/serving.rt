//! Reads, writes and commits by the algorithms that they serve. Code that is generic in them is compiled once for each
//! algorithm, with direct calls.
ghost use Rattle.std.specs.Prelude.{◌≡◌, ◌<◌, true, false};
ghost use Rattle.rule_base.specs.Encodings.{fenced};
ghost use Rattle.stm_rule.specs.Callers.{IsOf, IsSameCaller};
ghost use Rattle.stm_answers.specs.Answers.{HasRead, HasWritten, KeepsRule, Commits};
ghost use Rattle.stm_answers.specs.Counting.{AddsAtMost};
ghost use Rattle.stm_answers.specs.CallerState.{IsRunning};
ghost use Rattle.stm_tx.specs.Costs.{costs};
ghost use Rattle.stm_tx.specs.Descs.{known, number, Serves};
ghost use Rattle.stm_tx.specs.Rings.{HasRung};

use crate::calls;
use crate::finish::{Finish, commit_by};
use alg_calls::algorithm::Algorithm;
use alg_seq::cgl::Cgl;
use std::marker::PhantomData;
use stm_answers::answers::{Read, Write};
use stm_model::alg::Alg;
use stm_model::rule::MemRule;
use stm_rule::desc::Desc;
use stm_rule::stm::Stm;

/// Reads, writes and commits of the attempts that it serves. What they do, and what they cost, is said at
/// `calls::read`, `calls::write` and `calls::commit`.
pub trait Calls {
    ghost use Rattle.std.specs.Prelude.{Bool};
    ghost use Rattle.stm_model.specs.declared.alg.Alg.{Alg};

    // as what it takes an attempt under this algorithm, granted or not: it serves those that are so
    ghost acts_as: { Alg → Bool → Alg × Bool };

    fn read<K: MemRule>(&self, desc: &mut Desc<K>, stm: &Stm<K>, a: usize) -> Read
        requires stm { IsOf desc.old stm.now }
        requires running { IsRunning (known desc.old) }
        requires served { Serves acts_as (known desc.old) }
        requires inside { a < stm.now.config.words }
        requires spared { fenced (known desc.old).fence a ≡ false }
        ensures same { IsSameCaller desc.old desc.new }
        ensures read { HasRead (K.good stm.now.rule) stm.now.config (number desc.old) a result
            (known desc.old) (known desc.new) }
        ensures steps { AddsAtMost (costs stm.now.config (known desc.old)).read (known desc.old)
            (known desc.new) };

    fn write<K: MemRule>(&self, desc: &mut Desc<K>, stm: &Stm<K>, a: usize, x: u64) -> Write
        requires stm { IsOf desc.old stm.now }
        requires running { IsRunning (known desc.old) }
        requires served { Serves acts_as (known desc.old) }
        requires inside { a < stm.now.config.words }
        requires spared { fenced (known desc.old).fence a ≡ false }
        ensures same { IsSameCaller desc.old desc.new }
        ensures write { HasWritten (K.good stm.now.rule) stm.now.config (number desc.old) a x result
            (known desc.old) (known desc.new) }
        ensures steps { AddsAtMost (costs stm.now.config (known desc.old)).write (known desc.old)
            (known desc.new) };

    fn commit<K: MemRule>(&self, desc: &mut Desc<K>, stm: &Stm<K>) -> Finish<K>
        requires stm { IsOf desc.old stm.now }
        requires running { (known desc.old).running ≡ true }
        requires served { Serves acts_as (known desc.old) }
        requires keeps { KeepsRule (K.good stm.now.rule) stm.now.config (number desc.old)
            (known desc.old) }
        ensures same { IsSameCaller desc.old desc.new }
        ensures commits { Commits (K.good stm.now.rule) stm.now.config (number desc.old) result.answer
            (known desc.old) (known desc.new) }
        ensures rung { HasRung result.answer result.rung desc.old desc.new }
        ensures steps { AddsAtMost (costs stm.now.config (known desc.old)).commit (known desc.old)
            (known desc.new) };
}

/// Serves all, and looks at each call which algorithm the attempt runs under. An access of CGL is one load or store,
/// less than the call that looks the algorithm up, so it stands in line.
#[derive(Clone, Copy, Drop, Debug, PartialEq, Eq)]
pub struct AnyAlgorithm;

impl Calls for AnyAlgorithm {
    ghost acts_as = { λ alg granted. (alg, granted) };

    #[inline(always)]
    fn read<K: MemRule>(&self, desc: &mut Desc<K>, stm: &Stm<K>, a: usize) -> Read {
        match desc.local.algorithm {
            Alg::Cgl => Cgl::read(desc, stm, a),
            _ => calls::read(desc, stm, a),
        }
    }

    #[inline(always)]
    fn write<K: MemRule>(&self, desc: &mut Desc<K>, stm: &Stm<K>, a: usize, x: u64) -> Write {
        match desc.local.algorithm {
            Alg::Cgl => Cgl::write(desc, stm, a, x),
            _ => calls::write(desc, stm, a, x),
        }
    }

    #[inline(always)]
    fn commit<K: MemRule>(&self, desc: &mut Desc<K>, stm: &Stm<K>) -> Finish<K> {
        calls::commit(desc, stm)
    }
}

/// Serves attempts under one algorithm. It looks at each access whether the attempt was made irrevocable in flight.
#[derive(Drop)]
pub struct Under<A: Algorithm> {
    of: PhantomData<A>,
}

impl<A: Algorithm> Under<A> {
    /// The one that there is.
    pub fn new() -> Under<A> {
        Under { of: PhantomData }
    }
}

impl<A: Algorithm> Calls for Under<A> {
    ghost acts_as = { λ alg granted. (A.alg, granted) };

    #[inline(always)]
    fn read<K: MemRule>(&self, desc: &mut Desc<K>, stm: &Stm<K>, a: usize) -> Read {
        if desc.local.granted {
            return calls::read(desc, stm, a);
        }
        A::read(desc, stm, a)
    }

    #[inline(always)]
    fn write<K: MemRule>(&self, desc: &mut Desc<K>, stm: &Stm<K>, a: usize, x: u64) -> Write {
        if desc.local.granted {
            return calls::write(desc, stm, a, x);
        }
        A::write(desc, stm, a, x)
    }

    #[inline(always)]
    fn commit<K: MemRule>(&self, desc: &mut Desc<K>, stm: &Stm<K>) -> Finish<K> {
        let granted = desc.local.granted;
        commit_by::<A, K>(desc, stm, granted)
    }
}

/// Serves attempts under one algorithm that were not made irrevocable in flight, and looks at neither.
#[derive(Drop)]
pub struct Only<A: Algorithm> {
    of: PhantomData<A>,
}

impl<A: Algorithm> Only<A> {
    /// The one that there is.
    pub fn new() -> Only<A> {
        Only { of: PhantomData }
    }
}

impl<A: Algorithm> Calls for Only<A> {
    ghost acts_as = { λ alg granted. (A.alg, false) };

    #[inline(always)]
    fn read<K: MemRule>(&self, desc: &mut Desc<K>, stm: &Stm<K>, a: usize) -> Read {
        A::read(desc, stm, a)
    }

    #[inline(always)]
    fn write<K: MemRule>(&self, desc: &mut Desc<K>, stm: &Stm<K>, a: usize, x: u64) -> Write {
        A::write(desc, stm, a, x)
    }

    #[inline(always)]
    fn commit<K: MemRule>(&self, desc: &mut Desc<K>, stm: &Stm<K>) -> Finish<K> {
        commit_by::<A, K>(desc, stm, false)
    }
}
