//! Privatization, for a caller with its memory: it takes a range of words out of the transactions, reads and writes
//! there directly, and gives it back.
ghost use Rattle.std.specs.Prelude.{◌≡◌, ◌≤◌, ◌+◌, None, Some, true, false, OnOk, OnErr, IfOk, IfErr};
ghost use Rattle.stm_model.specs.Configs.{IsSmall, AreBlocks};
ghost use Rattle.rule_base.specs.Encodings.{fenced};
ghost use Rattle.stm_rule.specs.Callers.{IsOf, IsSameCaller};
ghost use Rattle.stm_tx.specs.Descs.{known, number};
ghost use Rattle.stm_answers.specs.Answers.{HoldsClosed};
ghost use Rattle.stm_answers.specs.Fences.{is_within};
ghost use Rattle.stm_answers.specs.CallerState.{Grows, IsIdle};
ghost use Rattle.tx_checked.specs.Alone.{IsHeldUp, IsTakeRefused, FindsFullAt};
ghost use Rattle.tx_checked.specs.Errands.{is_closing};
ghost use Rattle.tx_checked.specs.CheckedCallers.{config_of, known_to};
ghost use Rattle.tx_checked.specs.Misuses.{taking, taking_for, giving, in_range, is_small, are_blocks};
ghost use Rattle.tx_checked.specs.Ranges.{GrowsBeside, TakesOut, HasTaken, GivesBack, HasGiven, HasReadDirect, HasWrittenDirect};
ghost use Rattle.tx_checked.specs.Tells.{Tells};

use crate::alone::close_alone;
use crate::alone_for_range::close_alone_for_range;
use crate::checked_caller::{CheckedCaller, Range};
use crate::errand::Errand;
use crate::misuse::Misuse;
use crate::phase::CallerPhase;
use crate::refusal::Refusal;
use stm_answers::answers::{Fence, Give};
use stm_model::config::{BLOCK, Config, SMALL_CALLERS, SMALL_WORDS};
use stm_model::rule::AnyMem;
use stm_rule::desc::Desc;
use stm_rule::stm::Stm;
use stm_tx::fencing;
use stm_tx::gate::reopen;

/// Takes words out of the transactions, and reopens the gate.
pub(crate) fn take_out(
    desc: &mut Desc<AnyMem>,
    stm: &Stm<AnyMem>,
    closing: bool,
    from: usize,
    count: usize,
) -> Result<(), Refusal>
    requires stm { IsOf desc.old stm.now }
    requires idle { closing ≡ false → IsIdle (known desc.old) }
    requires closed { closing ≡ true → HoldsClosed (known desc.old) }
    requires takes { stm.now.config.fence ≡ true }
    requires some { 1 ≤ count }
    requires inside { from + count ≤ stm.now.config.words }
    requires blocks { (IsSmall stm.now.config → ⊥) → AreBlocks from × AreBlocks count }
    ensures same { IsSameCaller desc.old desc.new }
    ensures idle { OnOk result (IsIdle (known desc.new)) }
    ensures grew { OnOk result (GrowsBeside (known desc.old) (known desc.new)) }
    ensures made { (known desc.new).made ≡ (known desc.old).made }
    ensures taken { OnOk result
        (TakesOut stm.now.config from count (known desc.old) (known desc.new)) }
    ensures kept { OnErr result (Grows (known desc.old) (known desc.new)) }
    ensures rises { OnErr result ((known desc.new).rises ≡ (known desc.old).rises) }
    ensures installs { (known desc.new).installs ≡ (known desc.old).installs }
    ensures refused { IfErr result (λ e.
        IsTakeRefused stm.now.config (number desc.old) closing e (known desc.old)
        (known desc.new)) }
{
    close_alone_for_range(desc, stm, closing)?;
    let answer = fencing::fence(desc, stm, from, count);
    reopen(desc, stm);
    match answer {
        Fence::Fenced => Ok(()),
        Fence::Taken { .. } => unreachable!(),
    }
}

/// Whether any range of the memory may be taken out, and not whole blocks alone.
fn is_small(config: &Config) -> bool
    ensures { result ≡ is_small config.now }
{
    config.words <= SMALL_WORDS && config.callers <= SMALL_CALLERS
}

/// Whether the range is a number of blocks.
fn are_blocks(from: usize, count: usize) -> bool
    ensures { result ≡ are_blocks from count }
{
    from % BLOCK == 0 && count % BLOCK == 0
}

impl CheckedCaller {
    /// Takes `count` words from `from` on out of the transactions, for this caller alone, once no other caller is in an
    /// attempt and where no range is out: of one that is, the gate's word tells before anyone is waited for. `Busy`
    /// leaves the gate closed: the same call goes on from there, and `reopen` gives it up.
    pub fn fence(&mut self, from: usize, count: usize) -> Result<Result<(), Refusal>, Misuse>
        ensures { Tells (taking from count self.old) (HasTaken from count self.old self.new)
            self.old self.new result }
    {
        let closing = self.may_take(from, count)?;
        match take_out(&mut self.desc, &self.stm, closing, from, count) {
            Ok(()) => {
                self.phase = CallerPhase::Idle;
                self.reach = 0;
                self.range = Some(Range { from, count });
                Ok(Ok(()))
            }
            Err(refusal) => {
                self.phase = CallerPhase::after(refusal);
                self.errand = Errand::Take { from, count };
                self.reach = 0;
                self.refusal = Some(refusal);
                self.counts.refuse(refusal);
                Ok(Err(refusal))
            }
        }
    }

    /// Whether it may take words for that call: the answer is whether the gate was closed for it before.
    pub(crate) fn may_take_for(&self, errand: Errand) -> Result<bool, Misuse>
        ensures idle { IfOk result (λ closing. closing ≡ false → IsIdle (known_to self.now)) }
        ensures closed { IfOk result (λ closing. closing ≡ true → HoldsClosed (known_to self.now)) }
        ensures is { IfOk result (λ closing. closing ≡ is_closing self.now.phase) }
        ensures takes { OnOk result ((config_of self.now).fence ≡ true) }
        ensures none { OnOk result (self.now.range ≡ None) }
        ensures fits { OnOk result (taking_for errand self.now ≡ None) }
        ensures wrong { IfErr result (λ e. taking_for errand self.now ≡ Some e) }
    {
        let closing = self.may_do(errand)?;
        if !self.stm.config.fence {
            return Err(Misuse::NoRanges);
        }
        if self.range.is_some() {
            return Err(Misuse::HoldsRange);
        }
        Ok(closing)
    }

    /// Whether it may take this range, as above.
    fn may_take(&self, from: usize, count: usize) -> Result<bool, Misuse>
        ensures idle { IfOk result (λ closing. closing ≡ false → IsIdle (known_to self.now)) }
        ensures closed { IfOk result (λ closing. closing ≡ true → HoldsClosed (known_to self.now)) }
        ensures is { IfOk result (λ closing. closing ≡ is_closing self.now.phase) }
        ensures takes { OnOk result ((config_of self.now).fence ≡ true) }
        ensures some { OnOk result (1 ≤ count) }
        ensures within { OnOk result (from + count ≤ (config_of self.now).words) }
        ensures blocks { OnOk result
            ((IsSmall (config_of self.now) → ⊥) → AreBlocks from × AreBlocks count) }
        ensures fits { OnOk result (taking from count self.now ≡ None) }
        ensures wrong { IfErr result (λ e. taking from count self.now ≡ Some e) }
    {
        let closing = self.may_take_for(Errand::Take { from, count })?;
        let words = self.stm.config.words;
        if count == 0 || count > words || from > words - count {
            return Err(Misuse::Address);
        }
        if !is_small(&self.stm.config) && !are_blocks(from, count) {
            return Err(Misuse::Address);
        }
        Ok(closing)
    }

    /// Whether it may give a range back: the answer is whether the gate was closed for it before.
    fn may_give(&self) -> Result<bool, Misuse>
        ensures idle { IfOk result (λ closing. closing ≡ false → IsIdle (known_to self.now)) }
        ensures closed { IfOk result (λ closing. closing ≡ true → HoldsClosed (known_to self.now)) }
        ensures is { IfOk result (λ closing. closing ≡ is_closing self.now.phase) }
        ensures held { OnOk result ((known_to self.now).fenced.held ≡ true) }
        ensures fits { OnOk result (giving self.now ≡ None) }
        ensures wrong { IfErr result (λ e. giving self.now ≡ Some e) }
    {
        let closing = self.may_do(Errand::Give)?;
        match self.range {
            Some(_) => Ok(closing),
            None => Err(Misuse::NoRange),
        }
    }

    /// Its range, where it is in no attempt and the word at `a` is there.
    fn range_of(&self, a: usize) -> Result<Range, Misuse>
        ensures ok { OnOk result (IsIdle (known_to self.now)) }
        ensures some { IfOk result (λ r. self.now.range ≡ Some r) }
        ensures within { IfOk result (λ r. is_within r.from r.count a ≡ true) }
        ensures fits { OnOk result (in_range a self.now ≡ None) }
        ensures wrong { IfErr result (λ e. in_range a self.now ≡ Some e) }
    {
        self.is_outside()?;
        let Some(range) = self.range else {
            return Err(Misuse::NoRange);
        };
        if a < range.from || a - range.from >= range.count {
            return Err(Misuse::NoRange);
        }
        Ok(range)
    }

    /// Reads the word at `a` of its range, as `stm_tx::fencing::direct_read` does.
    pub fn direct_read(&mut self, a: usize) -> Result<u64, Misuse>
        ensures { Tells (in_range a self.old) (HasReadDirect a self.old self.new) self.old self.new
            result }
    {
        self.range_of(a)?;
        Ok(fencing::direct_read(&mut self.desc, &self.stm, a))
    }

    /// Writes `x` to the word at `a` of its range, as `stm_tx::fencing::direct_write` does.
    pub fn direct_write(&mut self, a: usize, x: u64) -> Result<(), Misuse>
        ensures { Tells (in_range a self.old) (HasWrittenDirect a x self.old self.new) self.old
            self.new result }
    {
        self.range_of(a)?;
        fencing::direct_write(&mut self.desc, &self.stm, a, x);
        Ok(())
    }

    /// Gives its range back, once no other caller is in an attempt, with what it wrote there as one entry of the
    /// history. `Busy` leaves the gate closed: the same call goes on from there, and `reopen` gives it up. A clock at
    /// its limit leaves the range to the caller: nothing more is committed to this memory, so what it and the others
    /// read from then on is the memory's last.
    pub fn give_back(&mut self) -> Result<Result<Give, Refusal>, Misuse>
        ensures { Tells (giving self.old) (HasGiven self.old self.new) self.old self.new result }
    {
        let closing = self.may_give()?;
        match put_back(&mut self.desc, &self.stm, closing) {
            Ok(Give::Committed { time }) => {
                self.phase = CallerPhase::Idle;
                self.reach = 0;
                self.range = None;
                self.latest = time;
                Ok(Ok(Give::Committed { time }))
            }
            Ok(Give::Unchanged) => {
                self.phase = CallerPhase::Idle;
                self.reach = 0;
                self.range = None;
                Ok(Ok(Give::Unchanged))
            }
            Ok(Give::ClockFull { clock }) => {
                self.phase = CallerPhase::Idle;
                self.reach = 0;
                self.refusal = Some(Refusal::ClockFull { clock });
                Ok(Ok(Give::ClockFull { clock }))
            }
            Err(refusal) => {
                self.phase = CallerPhase::after(refusal);
                self.errand = Errand::Give;
                self.reach = 0;
                self.refusal = Some(refusal);
                self.counts.refuse(refusal);
                Ok(Err(refusal))
            }
        }
    }
}

/// Gives a caller's range back, and reopens the gate.
fn put_back(desc: &mut Desc<AnyMem>, stm: &Stm<AnyMem>, closing: bool) -> Result<Give, Refusal>
    requires stm { IsOf desc.old stm.now }
    requires idle { closing ≡ false → IsIdle (known desc.old) }
    requires closed { closing ≡ true → HoldsClosed (known desc.old) }
    requires held { (known desc.old).fenced.held ≡ true }
    ensures same { IsSameCaller desc.old desc.new }
    ensures idle { OnOk result (IsIdle (known desc.new)) }
    ensures grew { OnOk result (GrowsBeside (known desc.old) (known desc.new)) }
    ensures given { IfOk result (λ r.
        GivesBack stm.now.config (number desc.old) r (known desc.old) (known desc.new)) }
    ensures full { IfOk result (λ r.
        FindsFullAt stm.now.config (number desc.old) closing r (known desc.old) (known desc.new)) }
    ensures kept { OnErr result (Grows (known desc.old) (known desc.new)) }
    ensures made { OnErr result ((known desc.new).made ≡ (known desc.old).made) }
    ensures rises { OnErr result ((known desc.new).rises ≡ (known desc.old).rises) }
    ensures installs { (known desc.new).installs ≡ (known desc.old).installs }
    ensures held_up { IfErr result (λ e.
        IsHeldUp stm.now.config (number desc.old) closing e (known desc.old) (known desc.new)) }
{
    close_alone(desc, stm, closing)?;
    let answer = fencing::give_back(desc, stm);
    reopen(desc, stm);
    Ok(answer)
}
