//! Many reads in one call, for C.
ghost use Rattle.std.specs.Prelude.{◌≡◌, ◌≤◌, length, take};
ghost use Rattle.nekchhaul_c.specs.Reads.{ReadManySays, ReadsInTurn};
ghost use Rattle.nekchhaul_c.specs.Says.{Holds};
ghost use Rattle.tx_checked.specs.CheckedCallers.{IsSameCheckedCaller, IsServed, known_to};

use crate::handle::Handle;
use crate::status;
use stm_answers::answers::Read;
use stm_tx::serving::{Calls, Under};
use stm_tx::under;
use tx_loops::looping_caller::LoopingCaller;

/// Reads the words at these addresses, in turn, up to the first that is refused.
#[unsafe(no_mangle)]
pub extern "C" fn nekchhaul_read_many(
    caller: &mut Handle,
    addresses: &[usize],
    values: &mut [u64],
) -> u32
    ensures { Holds ((result ≡ 16) × (values.new ≡ values.old))
        (ReadManySays addresses.now values.old values.new result) caller.old.inside
        caller.new.inside }
{
    if !caller.is_held() {
        return status::NO_CALLER;
    }
    read_or_no_room(caller.looping_caller(), addresses, values)
}

fn read_or_no_room(
    looping_caller: &mut LoopingCaller,
    addresses: &[usize],
    values: &mut [u64],
) -> u32
    ensures { ReadManySays addresses.now values.old values.new result looping_caller.old
        looping_caller.new }
{
    if values.len() < addresses.len() {
        return status::ROOM;
    }
    under!(
        looping_caller.algorithm(),
        read_each(Under::<A>::new(), looping_caller, addresses, values)
    )
}

/// It is compiled once for each algorithm, which so is looked up once, and not at each word.
#[inline(never)]
fn read_each<C: Calls + Drop>(
    calls: C,
    looping_caller: &mut LoopingCaller,
    addresses: &[usize],
    values: &mut [u64],
) -> u32
    requires served { IsServed C.acts_as (known_to looping_caller.old.caller) }
    requires room { length addresses.now ≤ length values.old }
    ensures { ReadManySays addresses.now values.old values.new result looping_caller.old
        looping_caller.new }
{
    for i in 0..addresses.len() {
        match looping_caller.read_by(&calls, addresses[i]) {
            Ok(Read::Value(word)) => values[i] = word,
            Ok(Read::Conflict(_)) => return status::CONFLICT,
            Ok(Read::Full { .. }) => return status::LOG_FULL,
            Err(misuse) => return status::of_misuse(misuse),
        }
    }
    status::OK
}
