//! The end of a memory, for one of its callers.
ghost use Rattle.std.specs.Prelude.{◌≡◌, ℕ, ◌<◌, ◌≤◌, None, Some, [], true, false, length, slice_index, OnOk, IfOk, IfErr};
ghost use Rattle.rule_base.specs.Encodings.{fenced};
ghost use Rattle.stm_model.specs.Configs.{IsSmall, AreBlocks};
ghost use Rattle.stm_model.specs.Histories.{memory_after};
ghost use Rattle.stm_rule.specs.Callers.{IsOf, IsSameCaller};
ghost use Rattle.stm_tx.specs.Descs.{known, number};
ghost use Rattle.stm_answers.specs.Answers.{HoldsClosed};
ghost use Rattle.stm_answers.specs.CallerState.{IsIdle, zeros};
ghost use Rattle.stm_answers.specs.Fences.{StaysBeside};
ghost use Rattle.tx_checked.specs.Endings.{HasEnded};
ghost use Rattle.tx_checked.specs.Errands.{is_closing};
ghost use Rattle.tx_checked.specs.CheckedCallers.{config_of, known_to};
ghost use Rattle.tx_checked.specs.Misuses.{ending};
ghost use Rattle.tx_checked.specs.OneHistory.{IsOfCallers};
ghost use Rattle.tx_checked.specs.Ranges.{GrowsBeside};
ghost use Rattle.tx_checked.specs.Tells.{Tells};

use crate::checked_caller::CheckedCaller;
use crate::errand::Errand;
use crate::misuse::Misuse;
use crate::phase::CallerPhase;
use crate::ranges::take_out;
use crate::refusal::Refusal;
use rule_base::layout::At;
use std::marker::Brand;
use stm_model::rule::AnyMem;
use stm_rule::desc::Desc;
use stm_rule::stm::Stm;
use stm_tx::fencing::direct_read;

/// Reads all words, which are out of the transactions and unchanged since.
fn copy_out(desc: &mut Desc<AnyMem>, stm: &Stm<AnyMem>, words: &mut [u64])
    requires stm { IsOf desc.old stm.now }
    requires idle { IsIdle (known desc.old) }
    requires held { (known desc.old).fenced.held ≡ true }
    requires all { (a : ℕ) → a < stm.now.config.words
        → fenced (known desc.old).fenced.number a ≡ true }
    requires unchanged { (known desc.old).fenced.log.writes ≡ [] }
    requires room { stm.now.config.words ≤ length words.old }
    ensures same { IsSameCaller desc.old desc.new }
    ensures idle { IsIdle (known desc.new) }
    ensures range { (known desc.new).fenced
        ≡ record (known desc.old).fenced { log = (known desc.new).fenced.log } }
    ensures grew { GrowsBeside (known desc.old) (known desc.new) }
    ensures made { (known desc.new).made ≡ (known desc.old).made }
    ensures installs { (known desc.new).installs ≡ (known desc.old).installs }
    ensures beyond { (a : ℕ) → stm.now.config.words ≤ a
        → slice_index words.new a ≡ slice_index words.old a }
    ensures words { (a : ℕ) → a < stm.now.config.words
        → slice_index words.new a
        ≡ slice_index (memory_after (known desc.old).fenced.seen (zeros stm.now.config.words)) a }
{
    for a in 0..stm.config.words {
        words[a] = direct_read(desc, stm, a);
    }
}

/// Loads the clock, which shows that each entry that was found as words were taken out is of a caller of this memory.
fn see_callers(desc: &mut Desc<AnyMem>, stm: &Stm<AnyMem>)
    requires stm { IsOf desc.old stm.now }
    ensures same { IsSameCaller desc.old desc.new }
    ensures stays { StaysBeside (known desc.old) (known desc.new) }
    ensures range { (known desc.new).fenced ≡ (known desc.old).fenced }
    ensures callers { IsOfCallers stm.now.config (number desc.new) (known desc.new).made
        (known desc.new).fenced.seen (known desc.new).fenced.front }
{
    let caller = desc.number;
    stm.load_as::<Brand, usize>(&mut desc.seat, At::Clock, &caller);
}

impl CheckedCaller {
    /// Takes all words out of the transactions for good, once no other caller is in an attempt and where no range is
    /// out, and hands them out: they are the memory after all that was committed. No attempt reads or writes a word
    /// from then on. `Busy` leaves the gate closed: the call goes on from there, and `reopen` gives it up. Where a
    /// range is out nobody is waited for.
    pub fn end(&mut self, words: &mut [u64]) -> Result<Result<(), Refusal>, Misuse>
        ensures tells { Tells (ending (length words.old) self.old)
            (HasEnded self.old self.new words.old words.new) self.old self.new result }
        ensures misuse { IfErr result (λ _. words.new ≡ words.old) }
    {
        let closing = self.may_end(words.len())?;
        let count = self.stm.config.words;
        match take_out(&mut self.desc, &self.stm, closing, 0, count) {
            Ok(()) => {
                self.phase = CallerPhase::Idle;
                self.reach = 0;
                copy_out(&mut self.desc, &self.stm, words);
                see_callers(&mut self.desc, &self.stm);
                Ok(Ok(()))
            }
            Err(refusal) => {
                self.phase = CallerPhase::after(refusal);
                self.errand = Errand::End;
                self.reach = 0;
                self.refusal = Some(refusal);
                self.counts.refuse(refusal);
                Ok(Err(refusal))
            }
        }
    }

    /// Whether it may take all words, and there is room for them:
    /// the answer is whether the gate was closed for it before.
    fn may_end(&self, room: usize) -> Result<bool, Misuse>
        ensures idle { IfOk result (λ closing. closing ≡ false → IsIdle (known_to self.now)) }
        ensures closed { IfOk result (λ closing. closing ≡ true → HoldsClosed (known_to self.now)) }
        ensures is { IfOk result (λ closing. closing ≡ is_closing self.now.phase) }
        ensures takes { OnOk result ((config_of self.now).fence ≡ true) }
        ensures none { OnOk result (self.now.range ≡ None) }
        ensures some { OnOk result (1 ≤ (config_of self.now).words) }
        ensures blocks { OnOk result
            ((IsSmall (config_of self.now) → ⊥)
            → AreBlocks 0 × AreBlocks (config_of self.now).words) }
        ensures room { OnOk result ((config_of self.now).words ≤ room) }
        ensures fits { OnOk result (ending room self.now ≡ None) }
        ensures wrong { IfErr result (λ e. ending room self.now ≡ Some e) }
    {
        let closing = self.may_take_for(Errand::End)?;
        if self.stm.config.words > room {
            return Err(Misuse::Room);
        }
        Ok(closing)
    }
}
