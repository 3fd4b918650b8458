//! One word outside an attempt, for C.
ghost use Rattle.std.specs.Prelude.{◌≡◌, None};
ghost use Rattle.nekchhaul_c.specs.Codes.{peek_code, peek_value};
ghost use Rattle.nekchhaul_c.specs.Says.{Holds, SaysWord};
ghost use Rattle.tx_checked.specs.Misuses.{looking};
ghost use Rattle.tx_checked.specs.Peeking.{HasPeeked};
ghost use Rattle.tx_loops.specs.Accesses.{PassesFree, free_misuse};

use crate::handle::Handle;
use crate::status;
use stm_tx::serving::Only;
use stm_tx::{Algorithm, under};
use tx_checked::peeking::Peek;
use tx_loops::looping_caller::LoopingCaller;

/// Looks at a word outside an attempt. `value` is written only where the answer is 0.
#[unsafe(no_mangle)]
pub extern "C" fn nekchhaul_peek(caller: &mut Handle, address: usize, value: &mut u64) -> u32
    ensures { Holds ((result ≡ 16) × (value.new ≡ value.old))
        (SaysWord peek_code peek_value value.old value.new
        (PassesFree (looking address) (HasPeeked address)) result) caller.old.inside caller.new.inside }
{
    if !caller.is_held() {
        return status::NO_CALLER;
    }
    peek_outside(caller.looping_caller(), address, value)
}

#[inline(always)]
fn peek_outside(looping_caller: &mut LoopingCaller, address: usize, value: &mut u64) -> u32
    ensures { SaysWord peek_code peek_value value.old value.new
        (PassesFree (looking address) (HasPeeked address)) result looping_caller.old looping_caller.new }
{
    if let Err(misuse) = looping_caller.is_free() {
        return status::of_misuse(misuse);
    }
    under!(
        looping_caller.algorithm(),
        peek(Only::<A>::new(), looping_caller, address, value)
    )
}

/// It is compiled once for each algorithm, of which the caller's last attempt tells which to expect.
#[inline(never)]
fn peek<A: Algorithm>(
    only: Only<A>,
    looping_caller: &mut LoopingCaller,
    address: usize,
    value: &mut u64,
) -> u32
    requires free { free_misuse looping_caller.old.stage ≡ None }
    ensures { SaysWord peek_code peek_value value.old value.new
        (PassesFree (looking address) (HasPeeked address)) result looping_caller.old looping_caller.new }
{
    let _ = only;
    match looping_caller.peek_as::<A>(address) {
        Ok(Peek::Value(word)) => {
            *value = word;
            status::OK
        }
        refused => status::of_peek(refused),
    }
}
