//! Marks, for C.
ghost use Rattle.std.specs.Prelude.{◌≡◌};
ghost use Rattle.nekchhaul_c.specs.Codes.{mark_code, mark_value, roll_code, done_code};
ghost use Rattle.nekchhaul_c.specs.Says.{Holds, Says, SaysWord};
ghost use Rattle.tx_loops.specs.Accesses.{DropSays, MarkSays, RollSays};

use crate::handle::Handle;
use crate::status;

/// Marks what the attempt has written. `depth` is written only where the answer is 0.
#[unsafe(no_mangle)]
pub extern "C" fn nekchhaul_checkpoint(caller: &mut Handle, depth: &mut usize) -> u32
    ensures { Holds ((result ≡ 16) × (depth.new ≡ depth.old))
        (SaysWord mark_code mark_value depth.old depth.new MarkSays result)
        caller.old.inside caller.new.inside }
{
    if !caller.is_held() {
        return status::NO_CALLER;
    }
    let mark = caller.looping_caller().checkpoint();
    status::put_depth(mark, depth);
    status::of_mark(mark)
}

/// Rolls the attempt back to a mark.
#[unsafe(no_mangle)]
pub extern "C" fn nekchhaul_roll_to(caller: &mut Handle, depth: usize) -> u32
    ensures { Holds (result ≡ 16) (Says roll_code (RollSays depth) result)
        caller.old.inside caller.new.inside }
{
    if !caller.is_held() {
        return status::NO_CALLER;
    }
    status::of_roll(caller.looping_caller().roll_to(depth))
}

/// Drops the marks from one on.
#[unsafe(no_mangle)]
pub extern "C" fn nekchhaul_drop_marks(caller: &mut Handle, depth: usize) -> u32
    ensures { Holds (result ≡ 16) (Says done_code (DropSays depth) result)
        caller.old.inside caller.new.inside }
{
    if !caller.is_held() {
        return status::NO_CALLER;
    }
    status::of_done(caller.looping_caller().drop_marks(depth))
}
