//! The loop of a transaction, for C.
ghost use Rattle.std.specs.Prelude.{◌≡◌};
ghost use Rattle.nekchhaul_c.specs.Codes.{how_numbered};
ghost use Rattle.nekchhaul_c.specs.Says.{Holds, EnterTells, LeaveTells, PutsTurn, TurnSays};
ghost use Rattle.tx_checked.specs.CheckedCallers.{IsServed, known_to};
ghost use Rattle.tx_loops.specs.declared.stage.Stage.TheVariants.{Free};

use crate::handle::Handle;
use crate::pause::Pause;
use crate::status;
use std::alloc::Global;
use stm_model::alg::Alg;
use stm_tx::serving::{Calls, Only, Under};
use stm_tx::{Algorithm, Cgl, OrecEager, OrecLazy, RingSw, Serial, Tml, under};
use tx_checked::misuse::Misuse;
use tx_loops::looping_caller::LoopingCaller;
use tx_loops::stage::Stage;
use tx_loops::turn::Turn;

/// Says whether a body may run. `pause` is written only where the answer is PAUSE.
#[unsafe(no_mangle)]
pub extern "C" fn nekchhaul_enter(alloc: Global, caller: &mut Handle, pause: &mut Pause) -> u32
    ensures { Holds ((result ≡ 16) × (pause.new ≡ pause.old))
        (TurnSays 0 pause.old pause.new EnterTells result) caller.old.inside caller.new.inside }
{
    if !caller.is_held() {
        return status::NO_CALLER;
    }
    let looping_caller = caller.looping_caller();
    if looping_caller.is_ready() {
        return under!(
            looping_caller.algorithm(),
            open(Only::<A>::new(), looping_caller, pause)
        );
    }
    enter_apart(alloc, looping_caller, pause)
}

/// It is compiled once for each algorithm, of which the caller's last attempt tells which to expect.
#[inline(never)]
fn open<A: Algorithm>(only: Only<A>, looping_caller: &mut LoopingCaller, pause: &mut Pause) -> u32
    requires free { looping_caller.old.stage ≡ Free }
    requires simple { looping_caller.old.plan.wanted ≡ 0 }
    ensures { TurnSays 0 pause.old pause.new EnterTells result looping_caller.old
        looping_caller.new }
{
    let _ = only;
    match looping_caller.open_as::<A>() {
        Ok(Turn::Run) => status::RUN,
        turn => told(turn, status::OK, looping_caller, pause),
    }
}

#[cold]
#[inline(never)]
fn enter_apart(alloc: Global, looping_caller: &mut LoopingCaller, pause: &mut Pause) -> u32
    ensures { TurnSays 0 pause.old pause.new EnterTells result looping_caller.old
        looping_caller.new }
{
    let turn = looping_caller.enter(alloc);
    told(turn, status::OK, looping_caller, pause)
}

/// Ends the attempt of a body that answered `how`. `pause` is written only where the answer is PAUSE.
#[unsafe(no_mangle)]
pub extern "C" fn nekchhaul_leave(caller: &mut Handle, how: u32, pause: &mut Pause) -> u32
    ensures { Holds ((result ≡ 16) × (pause.new ≡ pause.old))
        (TurnSays how pause.old pause.new (LeaveTells (how_numbered how)) result) caller.old.inside
        caller.new.inside }
{
    if !caller.is_held() {
        return status::NO_CALLER;
    }
    let looping_caller = caller.looping_caller();
    if how != status::OK {
        return leave_undone(looping_caller, how, pause);
    }
    leave_with_all(looping_caller, how, pause)
}

#[inline(always)]
#[tactic(auto, using(crate::proofs::Leaving::done_tells))]
fn leave_with_all(looping_caller: &mut LoopingCaller, how: u32, pause: &mut Pause) -> u32
    requires done { how ≡ 0 }
    ensures { TurnSays how pause.old pause.new (LeaveTells (how_numbered how)) result
        looping_caller.old looping_caller.new }
{
    let _ = how;
    match looping_caller.algorithm() {
        Alg::Cgl => commit_apart(Under::<Cgl>::new(), looping_caller, pause),
        Alg::Tml => leave_done(Under::<Tml>::new(), looping_caller, pause),
        Alg::OrecLazy => leave_done(Under::<OrecLazy>::new(), looping_caller, pause),
        Alg::OrecEager => leave_done(Under::<OrecEager>::new(), looping_caller, pause),
        Alg::RingSw => leave_done(Under::<RingSw>::new(), looping_caller, pause),
        Alg::Serial => commit_apart(Under::<Serial>::new(), looping_caller, pause),
    }
}

#[cold]
#[inline(never)]
fn leave_undone(looping_caller: &mut LoopingCaller, how: u32, pause: &mut Pause) -> u32
    ensures { TurnSays how pause.old pause.new (LeaveTells (how_numbered how)) result
        looping_caller.old looping_caller.new }
{
    let turn = looping_caller.leave(status::how_of(how));
    told(turn, how, looping_caller, pause)
}

/// Commits what was only read, or leaves it to `commit_apart`. These are tests one by one: so the commit of writes
/// isn't compiled in.
#[inline(never)]
fn leave_done<C: Calls + Drop>(
    calls: C,
    looping_caller: &mut LoopingCaller,
    pause: &mut Pause,
) -> u32
    requires served { IsServed C.acts_as (known_to looping_caller.old.caller) }
    ensures { TurnSays 0 pause.old pause.new (LeaveTells (how_numbered 0)) result
        looping_caller.old looping_caller.new }
{
    if looping_caller.caller.desc.local.wrote {
        return commit_apart(calls, looping_caller, pause);
    }
    if looping_caller.caller.desc.local.granted {
        return commit_apart(calls, looping_caller, pause);
    }
    match looping_caller.stage {
        Stage::Direct => commit(calls, looping_caller, pause),
        Stage::Buffered => {
            if looping_caller.buffer.count() != 0 {
                return commit_apart(calls, looping_caller, pause);
            }
            commit(calls, looping_caller, pause)
        }
        _ => commit_apart(calls, looping_caller, pause),
    }
}

/// The same of all, which saves more registers.
#[inline(never)]
fn commit_apart<C: Calls + Drop>(
    calls: C,
    looping_caller: &mut LoopingCaller,
    pause: &mut Pause,
) -> u32
    requires served { IsServed C.acts_as (known_to looping_caller.old.caller) }
    ensures { TurnSays 0 pause.old pause.new (LeaveTells (how_numbered 0)) result
        looping_caller.old looping_caller.new }
{
    commit(calls, looping_caller, pause)
}

#[inline(always)]
fn commit<C: Calls + Drop>(calls: C, looping_caller: &mut LoopingCaller, pause: &mut Pause) -> u32
    requires served { IsServed C.acts_as (known_to looping_caller.old.caller) }
    ensures { TurnSays 0 pause.old pause.new (LeaveTells (how_numbered 0)) result
        looping_caller.old looping_caller.new }
{
    match looping_caller.leave_done(&calls) {
        Ok(Turn::Done) => status::OK,
        turn => told(turn, status::OK, looping_caller, pause),
    }
}

/// What is to be done next, where that is neither the body nor nothing. Apart, for the sake of those.
#[cold]
#[inline(never)]
fn told(
    turn: Result<Turn, Misuse>,
    how: u32,
    looping_caller: &LoopingCaller,
    pause: &mut Pause,
) -> u32
    ensures { PutsTurn how turn looping_caller.now pause.old pause.new result }
{
    match turn {
        Ok(Turn::Pause { times }) => *pause = Pause::of(times),
        Ok(Turn::Sleep) => *pause = Pause::by_watch(looping_caller),
        _ => {}
    }
    status::of_turn(turn, how)
}
