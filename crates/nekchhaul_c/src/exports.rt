//! The begin and the ends of an attempt, and the gate, for C.
ghost use Rattle.std.specs.Prelude.{◌≡◌};
ghost use Rattle.nekchhaul_c.specs.Codes.{begin_code, commit_code, cancel_code, grant_code, done_code};
ghost use Rattle.nekchhaul_c.specs.Says.{BeginSays, Holds, LetsGo, Says, SwitchSays, algorithm_numbered};
ghost use Rattle.tx_checked.specs.CheckedCallers.{IsServed, known_to};
ghost use Rattle.tx_checked.specs.Misuses.{outside, reopening, inside};
ghost use Rattle.tx_checked.specs.Tells.{HasBegun, HasCommitted, HasCancelled, HasReopened};
ghost use Rattle.tx_loops.specs.Accesses.{GrantSays, Passes, PassesFree};

use crate::handle::Handle;
use crate::status;
use std::alloc::Global;
use stm_model::alg::Alg;
use stm_tx::serving::{Calls, Under};
use stm_tx::{Cgl, under};
use tx_loops::looping_caller::LoopingCaller;

/// Tries to begin an attempt.
#[unsafe(no_mangle)]
pub extern "C" fn nekchhaul_begin(caller: &mut Handle) -> u32
    ensures { Holds (result ≡ 16) (Says begin_code (PassesFree outside HasBegun) result) caller.old.inside
        caller.new.inside }
{
    let mut under = 0;
    nekchhaul_begin_under(caller, &mut under)
}

/// Tries to begin an attempt, and tells under which algorithm, and whether a range was out of the transactions. `under`
/// is written only where the answer is 0.
#[unsafe(no_mangle)]
pub extern "C" fn nekchhaul_begin_under(caller: &mut Handle, under: &mut u32) -> u32
    ensures { Holds ((result ≡ 16) × (under.new ≡ under.old)) (BeginSays under.old under.new result)
        caller.old.inside caller.new.inside }
{
    if !caller.is_held() {
        return status::NO_CALLER;
    }
    begin(caller.looping_caller(), under)
}

#[inline(always)]
fn begin(looping_caller: &mut LoopingCaller, under: &mut u32) -> u32
    ensures { BeginSays under.old under.new result looping_caller.old looping_caller.new }
{
    let begun = looping_caller.begin();
    status::put_under(begun, looping_caller.is_beside(), under);
    status::of_begin(begun)
}

/// Commits the attempt.
#[unsafe(no_mangle)]
pub extern "C" fn nekchhaul_commit(caller: &mut Handle) -> u32
    ensures { Holds (result ≡ 16) (Says commit_code (PassesFree inside HasCommitted) result) caller.old.inside
        caller.new.inside }
{
    if !caller.is_held() {
        return status::NO_CALLER;
    }
    let looping_caller = caller.looping_caller();
    match looping_caller.algorithm() {
        Alg::Cgl => commit(Under::<Cgl>::new(), looping_caller),
        _ => commit_apart(looping_caller),
    }
}

/// Apart, so that CGL's commit is found by one comparison.
#[inline(never)]
fn commit_apart(looping_caller: &mut LoopingCaller) -> u32
    ensures { Says commit_code (PassesFree inside HasCommitted) result looping_caller.old looping_caller.new }
{
    under!(
        looping_caller.algorithm(),
        commit_under(Under::<A>::new(), looping_caller)
    )
}

#[inline(always)]
fn commit<C: Calls + Drop>(calls: C, looping_caller: &mut LoopingCaller) -> u32
    requires served { IsServed C.acts_as (known_to looping_caller.old.caller) }
    ensures { Says commit_code (PassesFree inside HasCommitted) result looping_caller.old looping_caller.new }
{
    status::of_commit(looping_caller.commit_by(&calls))
}

/// Apart, so that each saves the registers that it needs.
#[inline(never)]
fn commit_under<C: Calls + Drop>(calls: C, looping_caller: &mut LoopingCaller) -> u32
    requires served { IsServed C.acts_as (known_to looping_caller.old.caller) }
    ensures { Says commit_code (PassesFree inside HasCommitted) result looping_caller.old looping_caller.new }
{
    commit(calls, looping_caller)
}

/// Cancels the attempt.
#[unsafe(no_mangle)]
pub extern "C" fn nekchhaul_cancel(caller: &mut Handle) -> u32
    ensures { Holds (result ≡ 16) (Says cancel_code (PassesFree inside HasCancelled) result) caller.old.inside
        caller.new.inside }
{
    if !caller.is_held() {
        return status::NO_CALLER;
    }
    status::of_cancel(caller.looping_caller().cancel())
}

/// Tries to make the attempt irrevocable.
#[unsafe(no_mangle)]
pub extern "C" fn nekchhaul_become_irrevocable(caller: &mut Handle) -> u32
    ensures { Holds (result ≡ 16) (Says grant_code GrantSays result) caller.old.inside
        caller.new.inside }
{
    if !caller.is_held() {
        return status::NO_CALLER;
    }
    status::of_grant(caller.looping_caller().try_irrevocable())
}

/// Installs an algorithm, by its number, once no other caller is in an attempt.
#[unsafe(no_mangle)]
pub extern "C" fn nekchhaul_switch(caller: &mut Handle, algorithm: u32) -> u32
    ensures { Holds (result ≡ 16) (SwitchSays (algorithm_numbered algorithm) result)
        caller.old.inside caller.new.inside }
{
    if !caller.is_held() {
        return status::NO_CALLER;
    }
    let Some(alg) = algorithm_by_number(algorithm) else {
        return status::ALGORITHM;
    };
    status::of_taken(caller.looping_caller().switch(alg))
}

/// Gives up the call for which the caller has closed the gate.
#[unsafe(no_mangle)]
pub extern "C" fn nekchhaul_reopen(caller: &mut Handle) -> u32
    ensures { Holds (result ≡ 16) (Says done_code (Passes reopening HasReopened) result) caller.old.inside
        caller.new.inside }
{
    if !caller.is_held() {
        return status::NO_CALLER;
    }
    status::of_done(caller.looping_caller().reopen())
}

/// The algorithm of that number.
pub(crate) fn algorithm_by_number(number: u32) -> Option<Alg>
    ensures { result ≡ algorithm_numbered number }
{
    match number {
        0 => Some(Alg::Cgl),
        1 => Some(Alg::Tml),
        2 => Some(Alg::OrecLazy),
        3 => Some(Alg::OrecEager),
        4 => Some(Alg::RingSw),
        5 => Some(Alg::Serial),
        _ => None,
    }
}

/// Lets a caller go that is in no attempt, hasn't closed the gate and has no range out. The memory goes with the last
/// of its callers.
#[unsafe(no_mangle)]
pub extern "C" fn nekchhaul_release(alloc: Global, caller: &mut Handle) -> u32
    ensures { LetsGo result caller.old.inside caller.new.inside }
{
    let Some(mut looping_caller) = caller.take(alloc) else {
        return status::NO_CALLER;
    };
    match looping_caller.may_leave() {
        Ok(()) => {
            looping_caller.withdraw();
            drop(looping_caller);
            status::OK
        }
        Err(misuse) => {
            caller.hold(looping_caller);
            status::of_misuse(misuse)
        }
    }
}
