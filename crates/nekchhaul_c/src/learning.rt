//! What one caller tells another, for C.
ghost use Rattle.nekchhaul_c.specs.Says.{LearnSays};

use crate::handle::Handle;
use crate::status;

/// Has the first caller take in what the second has seen, where both are of one memory. They are two: `nekchhaul_learn`
/// of the header sees to it.
#[unsafe(no_mangle)]
pub extern "C" fn nekchhaul_learn_of_another(to: &mut Handle, from: &mut Handle) -> u32
    ensures { LearnSays result to.old.inside to.new.inside from.old.inside from.new.inside }
{
    if !to.is_held() || !from.is_held() {
        return status::NO_CALLER;
    }
    status::of_done(to.looping_caller().learn(from.looping_caller()))
}
