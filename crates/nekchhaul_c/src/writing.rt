//! Many writes in one call, for C.
ghost use Rattle.std.specs.Prelude.{◌≡◌, ◌≤◌, length, take};
ghost use Rattle.nekchhaul_c.specs.Writes.{WriteManySays, WritesInTurn};
ghost use Rattle.nekchhaul_c.specs.Says.{Holds};
ghost use Rattle.tx_checked.specs.CheckedCallers.{IsSameCheckedCaller};

use crate::handle::Handle;
use crate::status;
use tx_loops::looping_caller::LoopingCaller;

/// Writes these values to the words at these addresses, in turn, up to the first that is refused. `taken` is how many
/// were written.
#[unsafe(no_mangle)]
pub extern "C" fn nekchhaul_write_many(
    caller: &mut Handle,
    addresses: &[usize],
    values: &[u64],
    taken: &mut usize,
) -> u32
    ensures { Holds ((result ≡ 16) × (taken.new ≡ taken.old))
        (WriteManySays addresses.now values.now taken.new result) caller.old.inside
        caller.new.inside }
{
    if !caller.is_held() {
        return status::NO_CALLER;
    }
    write_or_too_few(caller.looping_caller(), addresses, values, taken)
}

fn write_or_too_few(
    looping_caller: &mut LoopingCaller,
    addresses: &[usize],
    values: &[u64],
    taken: &mut usize,
) -> u32
    ensures { WriteManySays addresses.now values.now taken.new result looping_caller.old
        looping_caller.new }
{
    if values.len() < addresses.len() {
        *taken = 0;
        return status::ROOM;
    }
    write_each(looping_caller, addresses, values, taken)
}

fn write_each(
    looping_caller: &mut LoopingCaller,
    addresses: &[usize],
    values: &[u64],
    taken: &mut usize,
) -> u32
    requires enough { length addresses.now ≤ length values.now }
    ensures { WriteManySays addresses.now values.now taken.new result looping_caller.old
        looping_caller.new }
{
    for i in 0..addresses.len() {
        let number = status::of_write(looping_caller.write(addresses[i], values[i]));
        if number != status::OK {
            *taken = i;
            return number;
        }
    }
    *taken = addresses.len();
    status::OK
}
