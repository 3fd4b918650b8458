//! A caller's worker: one call a turn.
ghost use Rattle.std.specs.Prelude.{◌≡◌, ◌⊎◌, ◌++◌, ◌∷◌, [], true, false, None, MatchBool, MatchResult, IfOk, IfErr, OnOk, MatchOption};
ghost use Rattle.stm_model.specs.Logs.{IsExplained};
ghost use Rattle.data_effects.specs.Effects.{Under};
ghost use Rattle.data_regions.specs.Regions.{AllWellFormed};
ghost use Rattle.work_script.specs.declared.op.Op.{Op};
ghost use Rattle.work_script.specs.Operations.{OpFits, emits_of};
ghost use Rattle.work_script.specs.Outputs.{HasRoom};
ghost use Rattle.work_script.specs.ScriptLaws.{GaveOver, ran_one};
ghost use Rattle.stm_rule.specs.Callers.{IsOf, IsSameCaller};
ghost use Rattle.stm_tx.specs.Descs.{known};
ghost use Rattle.stm_answers.specs.CallerState.{IsRunning, caller_of, is_irrevocable};
ghost use Rattle.stm_answers.specs.CallerStateLaws.{Carries};
ghost use Rattle.work_trace.specs.Adapting.{asked_by, no_profile, other_than, outcome_of};
ghost use Rattle.work_trace.specs.Places.{script_at, rest_of, writes, is_forced, irrevocable};
ghost use Rattle.work_trace.specs.Turns.{BeforeTx, BeforeSwitch, MustSwitch, MustSwitchTo, SwitchesTo, Next, Comes, Lengthens, MaySay, MayWind, is_call};
ghost use Rattle.work_worker.specs.Tellings.{StoppedBy, OnlyCalls};
ghost use Rattle.work_worker.specs.Workers.{Sound, Starved, Turned, Refused, Roomy, WroteRow, EndsWith, IsCounted, IsFreshWorker, DoneIrrev, adapted, gave_up, gave_up_as, made_way, stopped_by, place_of};

use crate::room::Room;
use crate::turnstile::Turnstile;
use data_regions::region::Regions;
use std::alloc::Global;
use std::mem;
use stm_answers::answers::{Begin, Cancel, CloseGate, Commit, Irrev, Look};
use stm_model::alg::Alg;
use stm_model::memory::Memory;
use stm_model::rule::MemRule;
use stm_model::stop::Stop;
use stm_rule::desc::Desc;
use stm_rule::stm::Stm;
use stm_tx::calls::{cancel, commit, is_irrevocable, reserve, try_begin, try_irrevocable};
use stm_tx::gate::{close_gate, install, look, reopen};
use stm_tx::live::Live;
use stm_tx::serving::AnyAlgorithm;
use work_profile::choosing::choose;
use work_profile::outcome::Outcome;
use work_profile::policy::Policy;
use work_profile::profile::Profile;
use work_script::interpret::perform;
use work_script::op::Op;
use work_script::replies::Replies;
use work_script::report::{Kind, Row};
use work_script::workload::Item;
use work_trace::said::{Phase, Said};

/// A caller: what it has still to do, its open attempt, and the rows of its transactions that have ended.
///
/// The room for all rows and replies is there from the start, so that no turn takes memory but that of a `reserve`.
#[derive(Drop)]
pub struct Worker<'a, K: MemRule> {
    pub desc: Desc<K>,
    /// All that the caller is to do.
    pub all: &'a [Item],
    /// What it has still to do, an open transaction or switch first.
    pub items_left: &'a [Item],
    /// How many attempts of the next transaction another caller was in the way of: 16 at most.
    pub failed: usize,
    /// Whether the next transaction's attempts must become irrevocable before their first operation.
    pub must: bool,
    pub phase: Phase,
    /// The algorithm of the last attempt.
    pub alg: Alg,
    /// The operations of the open attempt that are still to come.
    pub operations_left: &'a [Op],
    /// What the open attempt has replied, with the room of the next transaction's script.
    pub out: Replies,
    /// Whether the last attempt wrote.
    pub wrote: bool,
    /// Whether the last attempt was granted to be irrevocable.
    pub granted: bool,
    /// Whether the last attempt has passed the turnstile.
    pub passed: bool,
    /// The regions of the memory.
    pub regions: &'a Regions,
    pub rows: Vec<Row>,
    /// Empty room for the replies of the transactions after the next one, the last one's first.
    pub spare: Vec<Replies>,
    /// When the caller switches besides where its items say so.
    pub policy: Policy,
    /// What its attempts came to since it last switched by its policy.
    pub profile: Profile,
    /// The switch that its policy asks for: it comes before the next item.
    pub chosen: Option<Alg>,
}

/// After so many attempts of a transaction that another caller was in the way of, the next one must become
/// irrevocable.
const MOST_FAILED: usize = 16;

/// All but the first.
fn tail<T>(items: &[T]) -> &[T]
    ensures { result.now ≡ rest_of items.now }
{
    match items.split_first() {
        Some((_, others)) => others,
        None => items,
    }
}

/// The algorithm of the switch that is to be done: the one that was chosen, or else the next item's.
fn target(chosen: Option<Alg>, items: &[Item]) -> Alg
    requires here { MustSwitch chosen items.now }
    ensures { MustSwitchTo result chosen items.now }
{
    match chosen {
        Some(alg) => alg,
        None => next_target(items),
    }
}

/// The algorithm of the switch that is the next item.
fn next_target(items: &[Item]) -> Alg
    requires here { BeforeSwitch items.now }
    ensures { SwitchesTo result items.now }
{
    match items.first() {
        Some(Item::Switch { caller: _, alg }) => *alg,
        Some(Item::Tx { .. }) => unreachable!(),
        Some(Item::Reserve { .. }) => unreachable!(),
        None => unreachable!(),
    }
}

/// What the attempt came to whose transaction has a row of this kind.
fn outcome_of(kind: Kind) -> Outcome
    ensures { result ≡ outcome_of kind }
{
    match kind {
        Kind::W => Outcome::Committed,
        Kind::R => Outcome::ReadOnly,
        Kind::C => Outcome::Cancelled,
    }
}

/// The algorithm to switch to, where it is another one.
fn other_than(alg: Alg, next: Alg) -> Option<Alg>
    ensures { result ≡ other_than alg next }
{
    if next.number() == alg.number() {
        None
    } else {
        Some(next)
    }
}

/// Whether an operation that replied this wrote.
fn writes(op: Op, reply: u64) -> bool
    ensures { result ≡ writes op reply }
{
    match op {
        Op::Write(_, _) | Op::Add(_, _) | Op::Count(_, _, _) => true,
        Op::QueueGet(_) => reply != 0,
        Op::MapPut(_, _, _) => reply != 2,
        Op::Move(_, _, _)
        | Op::ListInsert(_, _)
        | Op::ListRemove(_, _)
        | Op::HashInsert(_, _)
        | Op::HashRemove(_, _)
        | Op::TreeInsert(_, _)
        | Op::TreeRemove(_, _)
        | Op::QueuePut(_, _)
        | Op::MapRemove(_, _) => reply == 1,
        Op::Read(_)
        | Op::Emit(_)
        | Op::Irrev
        | Op::Cancel
        | Op::Total(_)
        | Op::ListContains(_, _)
        | Op::ListLength(_)
        | Op::HashContains(_, _)
        | Op::TreeContains(_, _)
        | Op::TreeLeast(_)
        | Op::MapGet(_, _)
        | Op::MapSum(_, _, _) => false,
    }
}

/// One operation of a running attempt, on its memory.
fn operate<K: MemRule>(
    stm: &Stm<K>,
    desc: &mut Desc<K>,
    regions: &Regions,
    op: Op,
    out: &mut Replies,
) -> Result<u64, Stop>
    requires own { IsOf desc.old stm.now }
    requires runs { IsRunning (known desc.old) }
    requires unfenced { (known desc.old).fence ≡ 0 }
    requires fits { OpFits regions.now stm.now.config.words op }
    requires well { Under (K.good stm.now.rule) stm.now.config.words (known desc.old).log
        (AllWellFormed regions.now) }
    requires room { HasRoom out.old 1 }
    ensures same { IsSameCaller desc.old desc.new }
    ensures goes { OnOk result
        (Carries (known desc.old) (known desc.new) × IsRunning (known desc.new)) }
    ensures stopped { IfErr result (λ stop.
        StoppedBy (K.good stm.now.rule) stm.now.config (caller_of desc.old.who.role) op stop
        (known desc.old) (known desc.new)) }
    ensures gave { OnOk result (GaveOver (K.good stm.now.rule) stm.now.config.words
        (ran_one regions.now op) (known desc.old).log out.old (known desc.new).log out.new) }
    ensures told { IfOk result (λ r.
        out.new
        ≡ record out.old
        { replies = out.old.replies ++ r ∷ []; emits = out.old.emits ++ emits_of op r }) }
    ensures untold { IfErr result (λ stop. out.new ≡ out.old) }
    ensures explained { OnOk result (IsExplained (K.good stm.now.rule) stm.now.config.words
        (known desc.old).log
        → IsExplained (K.good stm.now.rule) stm.now.config.words (known desc.new).log) }
    ensures kept { out.new.room ≡ out.old.room }
{
    let mut live = Live {
        calls: &AnyAlgorithm,
        desc,
        stm,
        stopped: None,
    };
    perform(&mut live, regions, &op, out)
}

impl<'a, K: MemRule> Worker<'a, K> {
    /// A worker that has done nothing, with room for all its rows and replies; `alg` is the memory's
    /// algorithm at the start.
    ///
    /// # Errors
    /// Memory, where it is refused.
    pub fn new(
        alloc: Global,
        desc: Desc<K>,
        items: &'a [Item],
        regions: &'a Regions,
        alg: Alg,
        policy: Policy,
    ) -> Result<Worker<'a, K>, Memory>
        ensures { IfOk result (IsFreshWorker desc items.now regions.now alg policy) }
    {
        // made apart, so that the descriptor is there at one early exit alone
        let room = Room::new(alloc, items)?;
        Ok(Worker {
            desc,
            all: items,
            items_left: items,
            failed: 0,
            must: false,
            phase: Phase::Between,
            alg,
            operations_left: &[],
            out: room.out,
            wrote: false,
            granted: false,
            passed: false,
            regions,
            rows: room.rows,
            spare: room.spare,
            policy,
            profile: room.profile,
            chosen: None,
        })
    }

    /// Makes the caller's next call, and says its answer.
    ///
    /// # Errors
    /// The item `reserve` is next, and memory for longer logs was refused: then all is as it was.
    pub fn turn<G: Turnstile>(
        &mut self,
        alloc: Global,
        stm: &Stm<K>,
        turnstile: &G,
    ) -> Result<Said, Memory>
        requires sound { Sound (K.good stm.now.rule) stm.now self.old }
        ensures turned { MatchResult result
            (λ said. Turned (K.good stm.now.rule) stm.now MaySay self.old said self.new) (λ _.
            Starved (K.good stm.now.rule) stm.now self.old self.new) }
    {
        let Some((op, later)) = self.next_operation() else {
            return self.other_call(alloc, stm, turnstile);
        };
        let reply = match self.operation(stm, op, later) {
            Ok(reply) => reply,
            Err(stop) => return Ok(Said::Stopped(op, stop)),
        };
        Ok(Said::Reply(op, reply))
    }

    /// The operation that is the next call, and those after it: the next one of the open attempt, where that is no
    /// cancel and no irrev and need not wait until the attempt is irrevocable.
    #[inline(always)]
    fn next_operation(&self) -> Option<(Op, &'a [Op])>
        requires running { self.now.phase ≡ Phase.Inside → (known self.now.desc).running ≡ true }
        requires told { self.now.phase ≡ Phase.Inside
            → irrevocable (place_of self.now) ≡ is_irrevocable (known self.now.desc) }
        ensures { MatchOption result (OnlyCalls (place_of self.now)) (λ next.
            Comes next.0 (place_of self.now) × (is_call next.0 ≡ false)
            × (next.1.now ≡ rest_of self.now.operations_left.now)) }
    {
        match self.phase {
            Phase::Inside => {}
            _ => return None,
        }
        if self.is_forced() {
            return None;
        }
        match self.operations_left.split_first() {
            None => None,
            Some((Op::Cancel, _)) => None,
            Some((Op::Irrev, _)) => None,
            Some((op, later)) => Some((*op, later)),
        }
    }

    /// The next call, where it is no operation on the memory. Inlined so that no stack is reserved for an answer until
    /// the call is chosen.
    #[inline(always)]
    fn other_call<G: Turnstile>(
        &mut self,
        alloc: Global,
        stm: &Stm<K>,
        turnstile: &G,
    ) -> Result<Said, Memory>
        requires sound { Sound (K.good stm.now.rule) stm.now self.old }
        requires call { OnlyCalls (place_of self.old) }
        ensures turned { MatchResult result
            (λ said. Turned (K.good stm.now.rule) stm.now MaySay self.old said self.new) (λ _.
            Starved (K.good stm.now.rule) stm.now self.old self.new) }
    {
        self.call(alloc, stm, turnstile)
    }

    /// The same, by a call of its own.
    #[inline(never)]
    fn call<G: Turnstile>(
        &mut self,
        alloc: Global,
        stm: &Stm<K>,
        turnstile: &G,
    ) -> Result<Said, Memory>
        requires sound { Sound (K.good stm.now.rule) stm.now self.old }
        requires call { OnlyCalls (place_of self.old) }
        ensures turned { MatchResult result
            (λ said. Turned (K.good stm.now.rule) stm.now MaySay self.old said self.new) (λ _.
            Starved (K.good stm.now.rule) stm.now self.old self.new) }
    {
        match self.phase {
            Phase::Between => match self.chosen {
                Some(_) => Ok(Said::TryClose(self.close(stm))),
                None => self.next_item(alloc, stm),
            },
            Phase::Inside => Ok(self.go_on(stm, turnstile)),
            Phase::Closing => Ok(Said::Looked(self.look(stm))),
            Phase::Quiet => {
                let alg = target(self.chosen, self.items_left);
                self.install(stm, alg);
                Ok(Said::Installed(alg))
            }
        }
    }

    /// The first call of the next item.
    fn next_item(&mut self, alloc: Global, stm: &Stm<K>) -> Result<Said, Memory>
        requires sound { Sound (K.good stm.now.rule) stm.now self.old }
        requires between { self.old.phase ≡ Phase.Between }
        requires unasked { self.old.chosen ≡ None }
        ensures turned { MatchResult result
            (λ said. Turned (K.good stm.now.rule) stm.now MaySay self.old said self.new) (λ _.
            Starved (K.good stm.now.rule) stm.now self.old self.new) }
    {
        let items = self.items_left;
        match items.first() {
            None => Ok(Said::Idle),
            Some(Item::Tx { caller: _, script }) => {
                Ok(Said::TryBegin(self.begin(stm, script.as_slice())))
            }
            Some(Item::Switch { caller: _, alg: _ }) => Ok(Said::TryClose(self.close(stm))),
            Some(
                Item::Reserve {
                    caller: _,
                    reads,
                    writes,
                },
            ) => {
                let (reads, writes) = (*reads, *writes);
                self.lengthen(alloc, stm, reads, writes)?;
                Ok(Said::Reserved { reads, writes })
            }
        }
    }

    /// Makes the logs so long, where they are shorter.
    fn lengthen(
        &mut self,
        alloc: Global,
        _stm: &Stm<K>,
        reads: usize,
        writes: usize,
    ) -> Result<(), Memory>
        requires sound { Sound (K.good _stm.now.rule) _stm.now self.old }
        requires between { self.old.phase ≡ Phase.Between }
        requires unasked { self.old.chosen ≡ None }
        requires here { Lengthens reads writes self.old.items_left.now }
        ensures turned { MatchResult result (λ _.
            Turned (K.good _stm.now.rule) _stm.now MaySay self.old (Said.Reserved reads writes)
            self.new) (λ _. Starved (K.good _stm.now.rule) _stm.now self.old self.new) }
    {
        reserve(alloc, &mut self.desc, reads, writes)?;
        self.items_left = tail(self.items_left);
        Ok(())
    }

    /// The next call of the open attempt: before anything else it becomes irrevocable where it must.
    fn go_on<G: Turnstile>(&mut self, stm: &Stm<K>, turnstile: &G) -> Said
        requires sound { Sound (K.good stm.now.rule) stm.now self.old }
        requires inside { self.old.phase ≡ Phase.Inside }
        requires call { OnlyCalls (place_of self.old) }
        ensures turned { Turned (K.good stm.now.rule) stm.now MaySay self.old result self.new }
    {
        if self.is_forced() {
            return Said::TryIrrevocable(self.try_irrevocable(stm, true));
        }
        let operations = self.operations_left;
        match operations.first() {
            None => Said::TryCommit(self.commit(stm, turnstile)),
            Some(Op::Cancel) => Said::TryCancel(self.cancel(stm)),
            Some(Op::Irrev) => Said::TryIrrevocable(self.try_irrevocable(stm, false)),
            Some(_) => unreachable!(),
        }
    }

    /// Whether the open attempt must become irrevocable before it goes on.
    fn is_forced(&self) -> bool
        requires running { (known self.now.desc).running ≡ true }
        requires told { irrevocable (place_of self.now) ≡ is_irrevocable (known self.now.desc) }
        ensures { result ≡ is_forced (place_of self.now) }
    {
        self.must && !is_irrevocable(&self.desc)
    }

    /// Begins the next transaction, whose operations are `script`.
    fn begin(&mut self, stm: &Stm<K>, script: &'a [Op]) -> Begin
        requires sound { Sound (K.good stm.now.rule) stm.now self.old }
        requires between { self.old.phase ≡ Phase.Between }
        requires here { BeforeTx self.old.items_left.now }
        requires unasked { self.old.chosen ≡ None }
        requires script { script.now ≡ script_at self.old.items_left.now }
        ensures turned { Turned (K.good stm.now.rule) stm.now MaySay self.old (Said.TryBegin result)
            self.new }
    {
        match try_begin(&mut self.desc, stm) {
            Begin::Begun(alg) => {
                self.phase = Phase::Inside;
                self.alg = alg;
                self.operations_left = script;
                self.out.clear();
                self.wrote = false;
                self.granted = false;
                self.passed = false;
                Begin::Begun(alg)
            }
            Begin::Closed { gate } => Begin::Closed { gate },
            Begin::Held { word } => Begin::Held { word },
            Begin::ClockFull { clock } => Begin::ClockFull { clock },
        }
    }

    /// The next operation of the open attempt, other than a cancel or an irrev: its reply, or why it ended the
    /// attempt.
    #[inline(always)]
    fn operation(&mut self, stm: &Stm<K>, op: Op, later: &'a [Op]) -> Result<u64, Stop>
        requires sound { Sound (K.good stm.now.rule) stm.now self.old }
        requires comes { Comes op (place_of self.old) }
        requires plain { is_call op ≡ false }
        requires later { later.now ≡ rest_of self.old.operations_left.now }
        ensures turned { MatchResult result (λ reply.
            Turned (K.good stm.now.rule) stm.now MaySay self.old (Said.Reply op reply) self.new)
            (λ stop.
            Turned (K.good stm.now.rule) stm.now MaySay self.old (Said.Stopped op stop) self.new) }
    {
        match operate(stm, &mut self.desc, self.regions, op, &mut self.out) {
            Ok(reply) => {
                self.operations_left = later;
                self.wrote = self.wrote | writes(op, reply);
                Ok(reply)
            }
            Err(stop) => {
                self.stop(stop);
                Err(stop)
            }
        }
    }

    /// Cancels the open attempt, or where it can't be, goes on.
    fn cancel(&mut self, stm: &Stm<K>) -> Cancel
        requires sound { Sound (K.good stm.now.rule) stm.now self.old }
        requires comes { Comes Op.Cancel (place_of self.old) }
        ensures turned { Turned (K.good stm.now.rule) stm.now MaySay self.old
            (Said.TryCancel result) self.new }
    {
        match cancel(&mut self.desc, stm) {
            Cancel::Cancelled { time } => {
                self.out.reply(1);
                self.end(Kind::C, time);
                Cancel::Cancelled { time }
            }
            Cancel::Irrevocable => {
                self.out.reply(0);
                self.operations_left = tail(self.operations_left);
                Cancel::Irrevocable
            }
        }
    }

    /// Asks that the open attempt becomes irrevocable: because it must (`forced`), or by the operation `irrev`,
    /// which then is done. Where another caller has the gate the attempt is cancelled, to begin anew.
    fn try_irrevocable(&mut self, stm: &Stm<K>, forced: bool) -> Irrev
        requires sound { Sound (K.good stm.now.rule) stm.now self.old }
        requires inside { self.old.phase ≡ Phase.Inside }
        requires forced { forced ≡ is_forced (place_of self.old) }
        requires asked { forced ≡ false → Next Op.Irrev self.old.operations_left.now }
        ensures turned { Turned (K.good stm.now.rule) stm.now MaySay self.old
            (Said.TryIrrevocable result) self.new }
    {
        match try_irrevocable(&mut self.desc, stm) {
            Irrev::Granted => {
                self.take_grant(forced);
                Irrev::Granted
            }
            Irrev::Busy { caller, status } => Irrev::Busy { caller, status },
            Irrev::Taken { gate } => {
                cancel(&mut self.desc, stm);
                self.make_way(Outcome::Cancelled);
                Irrev::Taken { gate }
            }
            Irrev::Conflict(cause) => {
                self.make_way(Outcome::Conflict);
                Irrev::Conflict(cause)
            }
            Irrev::ClockFull { clock } => {
                self.give_up();
                Irrev::ClockFull { clock }
            }
        }
    }

    /// The open attempt is irrevocable now: where `irrev` asked for it, that operation is done.
    fn take_grant(&mut self, forced: bool)
        requires { forced ≡ false → HasRoom self.old.out 1 }
        ensures { MatchBool forced (self.new ≡ record self.old { granted = true })
            (DoneIrrev self.old self.new) }
    {
        if forced {
            self.granted = true;
        } else {
            self.out.reply(1);
            self.operations_left = tail(self.operations_left);
            self.granted = true;
        }
    }

    /// Commits the open attempt, all of whose operations are done.
    fn commit<G: Turnstile>(&mut self, stm: &Stm<K>, turnstile: &G) -> Commit
        requires sound { Sound (K.good stm.now.rule) stm.now self.old }
        requires inside { self.old.phase ≡ Phase.Inside }
        requires unforced { is_forced (place_of self.old) ≡ false }
        requires over { self.old.operations_left.now ≡ [] }
        ensures turned { Turned (K.good stm.now.rule) stm.now MaySay self.old
            (Said.TryCommit result) self.new }
    {
        self.pass(turnstile);
        self.passed = true;
        let answer = commit(&mut self.desc, stm).answer;
        match answer {
            Commit::Committed { time } => {
                self.end(Kind::W, time);
                Commit::Committed { time }
            }
            Commit::ReadOnly { time } => {
                self.end(Kind::R, time);
                Commit::ReadOnly { time }
            }
            Commit::Again { word, had, now } => Commit::Again { word, had, now },
            Commit::Conflict(cause) => {
                self.make_way(Outcome::Conflict);
                Commit::Conflict(cause)
            }
            Commit::ClockFull { clock } => {
                self.give_up();
                Commit::ClockFull { clock }
            }
        }
    }

    /// Passes the turnstile, once an attempt.
    fn pass<G: Turnstile>(&self, turnstile: &G) {
        if !self.passed {
            turnstile.pass(self.desc.number, self.rows.len());
        }
    }

    /// Tries to close the gate for the switch that is to be done.
    fn close(&mut self, stm: &Stm<K>) -> CloseGate
        requires sound { Sound (K.good stm.now.rule) stm.now self.old }
        requires between { self.old.phase ≡ Phase.Between }
        requires here { MustSwitch self.old.chosen self.old.items_left.now }
        ensures turned { Turned (K.good stm.now.rule) stm.now MaySay self.old (Said.TryClose result)
            self.new }
    {
        match close_gate(&mut self.desc, stm) {
            CloseGate::Closed => {
                self.phase = Phase::Closing;
                CloseGate::Closed
            }
            CloseGate::Taken { gate } => CloseGate::Taken { gate },
        }
    }

    /// Looks whether the others are idle.
    fn look(&mut self, stm: &Stm<K>) -> Look
        requires sound { Sound (K.good stm.now.rule) stm.now self.old }
        requires closing { self.old.phase ≡ Phase.Closing }
        ensures turned { Turned (K.good stm.now.rule) stm.now MaySay self.old (Said.Looked result)
            self.new }
    {
        match look(&mut self.desc, stm) {
            Look::Quiet => {
                self.phase = Phase::Quiet;
                Look::Quiet
            }
            Look::Busy { caller, status } => Look::Busy { caller, status },
        }
    }

    /// Installs the algorithm, and opens the gate again. A switch that the policy asked for is none of the items,
    /// and after it the profile begins anew.
    fn install(&mut self, stm: &Stm<K>, alg: Alg)
        requires sound { Sound (K.good stm.now.rule) stm.now self.old }
        requires quiet { self.old.phase ≡ Phase.Quiet }
        requires to { MustSwitchTo alg self.old.chosen self.old.items_left.now }
        ensures turned { Turned (K.good stm.now.rule) stm.now MaySay self.old (Said.Installed alg)
            self.new }
    {
        install(&mut self.desc, stm, alg);
        reopen(&mut self.desc, stm);
        self.phase = Phase::Between;
        match self.chosen {
            None => self.items_left = tail(self.items_left),
            Some(_) => self.begin_anew(),
        }
    }

    /// What the policy asked for is done, and is forgotten with what it went by.
    fn begin_anew(&mut self)
        ensures { self.new ≡ record self.old { profile = no_profile; chosen = None } }
    {
        self.profile.clear();
        self.chosen = None;
    }

    /// Ends the open transaction by its row, and asks the policy.
    fn end(&mut self, kind: Kind, place: u64)
        requires roomy { Roomy self.old }
        requires here { BeforeTx self.old.items_left.now }
        ensures ends { EndsWith kind place self.old self.new }
    {
        self.write_row(kind, place);
        self.adapt(outcome_of(kind));
    }

    /// Writes the row of the open transaction, whose attempt has ended.
    fn write_row(&mut self, kind: Kind, place: u64)
        requires roomy { Roomy self.old }
        requires here { BeforeTx self.old.items_left.now }
        ensures wrote { WroteRow kind place self.old self.new }
    {
        let seq = self.rows.len();
        let caller = self.desc.number;
        let fresh = match self.spare.pop() {
            Some(fresh) => fresh,
            None => unreachable!(),
        };
        let (replies, emits) = mem::replace(&mut self.out, fresh).into_words();
        self.rows.push_reserved(Row {
            kind,
            place,
            caller,
            seq,
            replies,
            emits,
        });
        self.items_left = tail(self.items_left);
        self.failed = 0;
        self.must = false;
        self.phase = Phase::Between;
    }

    /// Notes what the last attempt of a transaction came to, and asks the policy for a switch.
    fn adapt(&mut self, outcome: Outcome)
        ensures { self.new ≡ adapted outcome self.old }
    {
        self.profile.note(outcome);
        self.chosen = self.asked();
    }

    /// The switch that the policy asks for after a transaction: to another algorithm than that of its last
    /// attempt.
    fn asked(&self) -> Option<Alg>
        ensures { result ≡ asked_by self.now.policy self.now.profile self.now.alg }
    {
        other_than(self.alg, choose(self.policy, &self.profile, self.alg))
    }

    /// The attempt has ended without a row, by this stop. A retry would overflow the same log, so after a full one the
    /// next attempt must become irrevocable.
    #[inline(never)]
    fn stop(&mut self, stop: Stop)
        requires { IsCounted self.old.failed self.old.must }
        ensures { self.new ≡ stopped_by stop self.old }
    {
        match stop {
            Stop::Conflict(_) => self.make_way(Outcome::Conflict),
            Stop::Full { .. } => {
                self.give_up_as(Outcome::Full);
                self.must = true;
            }
            Stop::ClockFull { .. } => self.give_up(),
        }
    }

    /// The attempt has ended without a row, since another caller was in its way. After so many the next one must
    /// become irrevocable.
    fn make_way(&mut self, outcome: Outcome)
        requires { IsCounted self.old.failed self.old.must }
        ensures { self.new ≡ made_way outcome self.old }
    {
        self.give_up_as(outcome);
        if !self.must {
            self.failed += 1;
            self.must = self.failed >= MOST_FAILED;
        }
    }

    /// The attempt has ended without a row, and came to this.
    fn give_up_as(&mut self, outcome: Outcome)
        ensures { self.new ≡ gave_up_as outcome self.old }
    {
        self.give_up();
        self.profile.note(outcome);
    }

    /// The attempt has ended without a row: its script is still to do.
    fn give_up(&mut self)
        ensures { self.new ≡ gave_up self.old }
    {
        self.phase = Phase::Between;
        self.out.clear();
    }

    /// Once the schedule is over: cancels the open attempt, and returns whether it could be; else nothing
    /// has changed.
    pub(crate) fn drop_attempt(&mut self, stm: &Stm<K>) -> bool
        requires sound { Sound (K.good stm.now.rule) stm.now self.old }
        requires inside { self.old.phase ≡ Phase.Inside }
        ensures { MatchBool result
            (Turned (K.good stm.now.rule) stm.now MayWind self.old Said.Dropped self.new)
            (Refused (K.good stm.now.rule) stm.now self.old self.new) }
    {
        match cancel(&mut self.desc, stm) {
            Cancel::Cancelled { time: _ } => {
                self.give_up_as(Outcome::Cancelled);
                true
            }
            Cancel::Irrevocable => false,
        }
    }

    /// Once the schedule is over: gives the closing up, and opens the gate again.
    pub(crate) fn open_again(&mut self, stm: &Stm<K>)
        requires sound { Sound (K.good stm.now.rule) stm.now self.old }
        requires closing { (self.old.phase ≡ Phase.Closing) ⊎ (self.old.phase ≡ Phase.Quiet) }
        ensures turned { Turned (K.good stm.now.rule) stm.now MayWind self.old Said.Reopened
            self.new }
    {
        reopen(&mut self.desc, stm);
        self.phase = Phase::Between;
    }
}
