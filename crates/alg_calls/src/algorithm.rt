//! The calls of an attempt, which each algorithm gives by a type of its own. A function that is generic in that type is
//! compiled once for each algorithm, with direct calls.
ghost use Rattle.alg_calls.specs.Buffers.{KeepsBuffered};
ghost use Rattle.alg_calls.specs.Costs.{begin_steps, costs_under, roll_steps};
ghost use Rattle.rule_base.specs.Encodings.{fenced};
ghost use Rattle.std.specs.Prelude.{◌≡◌, ℕ, ◌<◌, ◌≤◌, ◌&&◌, false, true};
ghost use Rattle.stm_gate.specs.Knowing.{known, number};
ghost use Rattle.stm_gate.specs.Starts.{CanBegin, Starts};
ghost use Rattle.stm_model.specs.Algorithms.{closes_gate};
ghost use Rattle.stm_rule.specs.Callers.{IsOf, IsSameCaller, IsSeatOf};
ghost use Rattle.stm_rule.specs.Counting.{TakesAtMost};
ghost use Rattle.stm_rule.specs.Kept.{MovesView, view_of};
ghost use Rattle.stm_answers.specs.Answers.{Cancels, Commits, HasRead, HasWritten, Irrevs, KeepsRule, Rolls};
ghost use Rattle.stm_answers.specs.Counting.{AddsAtMost};
ghost use Rattle.stm_answers.specs.CallerState.{IsRunning};

use stm_answers::answers::{Begin, Cancel, Commit, Irrev, Read, Roll, Write};
use stm_model::alg::Alg;
use stm_model::rule::MemRule;
use stm_rule::desc::Desc;
use stm_rule::stm::{Stm, Token};

/// An algorithm. What a call does, and when which answer comes, is said at the calls of stm_tx, which are these under
/// the algorithm that the gate names. None waits, takes memory or fails to return, and none adds more steps than
/// the tables of `specs/Costs.antt` have for the algorithm.
pub trait Algorithm {
    ghost use Rattle.stm_model.specs.declared.alg.Alg.{Alg};

    // whose calls these are
    ghost alg: { Alg };

    /// Its name.
    fn which() -> Alg
        ensures { result ≡ alg };

    /// Begins an attempt of a caller that found the gate open, and answers its start. A refusal leaves the caller where
    /// it was.
    fn begin<K: MemRule>(seat: &mut Token<K>, stm: &Stm<K>, caller: usize) -> Result<u64, Begin>
        requires seat { IsSeatOf stm.now caller seat.old }
        requires caller { caller < stm.now.config.callers }
        requires view { CanBegin alg (view_of seat.old) }
        ensures same { MovesView seat.old seat.new }
        ensures begins { Starts (K.good stm.now.rule) stm.now.config caller alg result
            (view_of seat.old) (view_of seat.new) }
        ensures steps { TakesAtMost (begin_steps alg) (view_of seat.old) (view_of seat.new) };

    /// Reads the word at `a`, in an attempt that was not promoted: one that was reads in place, whatever its algorithm.
    fn read<K: MemRule>(desc: &mut Desc<K>, stm: &Stm<K>, a: usize) -> Read
        requires stm { IsOf desc.old stm.now }
        requires running { IsRunning (known desc.old) }
        requires algorithm { (known desc.old).alg ≡ alg }
        requires unpromoted { (closes_gate alg && (known desc.old).granted) ≡ false }
        requires inside { a < stm.now.config.words }
        requires spared { fenced (known desc.old).fence a ≡ false }
        ensures same { IsSameCaller desc.old desc.new }
        ensures read { HasRead (K.good stm.now.rule) stm.now.config (number desc.old) a result
            (known desc.old) (known desc.new) }
        ensures steps { AddsAtMost (costs_under alg stm.now.config (known desc.old)).read
            (known desc.old) (known desc.new) };

    /// Writes `x` to the word at `a`, for this attempt until it commits. It was not promoted, as for `read`.
    fn write<K: MemRule>(desc: &mut Desc<K>, stm: &Stm<K>, a: usize, x: u64) -> Write
        requires stm { IsOf desc.old stm.now }
        requires running { IsRunning (known desc.old) }
        requires algorithm { (known desc.old).alg ≡ alg }
        requires unpromoted { (closes_gate alg && (known desc.old).granted) ≡ false }
        requires inside { a < stm.now.config.words }
        requires spared { fenced (known desc.old).fence a ≡ false }
        ensures same { IsSameCaller desc.old desc.new }
        ensures write { HasWritten (K.good stm.now.rule) stm.now.config (number desc.old) a x result
            (known desc.old) (known desc.new) }
        ensures steps { AddsAtMost (costs_under alg stm.now.config (known desc.old)).write
            (known desc.old) (known desc.new) };

    /// Commits the attempt. What lay in its write log lies there still after a commit that wrote.
    fn commit<K: MemRule>(desc: &mut Desc<K>, stm: &Stm<K>) -> Commit
        requires stm { IsOf desc.old stm.now }
        requires running { (known desc.old).running ≡ true }
        requires algorithm { (known desc.old).alg ≡ alg }
        requires keeps { KeepsRule (K.good stm.now.rule) stm.now.config (number desc.old)
            (known desc.old) }
        ensures same { IsSameCaller desc.old desc.new }
        ensures commits { Commits (K.good stm.now.rule) stm.now.config (number desc.old) result
            (known desc.old) (known desc.new) }
        ensures buffered { KeepsBuffered result desc.old desc.new }
        ensures steps { AddsAtMost (costs_under alg stm.now.config (known desc.old)).commit
            (known desc.old) (known desc.new) };

    /// Ends the attempt without a trace, or answers `Irrevocable` and changes nothing.
    fn cancel<K: MemRule>(desc: &mut Desc<K>, stm: &Stm<K>) -> Cancel
        requires stm { IsOf desc.old stm.now }
        requires running { (known desc.old).running ≡ true }
        requires algorithm { (known desc.old).alg ≡ alg }
        ensures same { IsSameCaller desc.old desc.new }
        ensures cancels { Cancels (K.good stm.now.rule) stm.now.config (number desc.old) result
            (known desc.old) (known desc.new) }
        ensures steps { AddsAtMost (costs_under alg stm.now.config (known desc.old)).cancel
            (known desc.old) (known desc.new) };

    /// Tries to make the attempt irrevocable.
    fn try_irrevocable<K: MemRule>(desc: &mut Desc<K>, stm: &Stm<K>) -> Irrev
        requires stm { IsOf desc.old stm.now }
        requires running { IsRunning (known desc.old) }
        requires algorithm { (known desc.old).alg ≡ alg }
        ensures same { IsSameCaller desc.old desc.new }
        ensures irrevs { Irrevs (K.good stm.now.rule) stm.now.config (number desc.old) result
            (known desc.old) (known desc.new) }
        ensures steps { AddsAtMost (costs_under alg stm.now.config (known desc.old)).irrevocable
            (known desc.old) (known desc.new) };

    /// Rolls the attempt back to mark `depth`.
    fn roll_to<K: MemRule>(desc: &mut Desc<K>, stm: &Stm<K>, depth: usize) -> Roll
        requires stm { IsOf desc.old stm.now }
        requires running { IsRunning (known desc.old) }
        requires algorithm { (known desc.old).alg ≡ alg }
        requires low { 1 ≤ depth }
        requires high { depth ≤ (known desc.old).depth }
        ensures same { IsSameCaller desc.old desc.new }
        ensures rolls { Rolls (K.good stm.now.rule) stm.now.config (number desc.old) depth result
            (known desc.old) (known desc.new) }
        ensures steps { AddsAtMost (roll_steps alg (known desc.old).writes_limit) (known desc.old)
            (known desc.new) };
}
