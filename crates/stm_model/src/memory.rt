//! Want of memory.
use std::alloc::AllocError;

/// Memory was refused.
#[derive(Clone, Copy, Drop, Debug, PartialEq, Eq)]
pub struct Memory;

impl From<AllocError> for Memory {
    ghost use Rattle.std.specs.Prelude.{◌≡◌};
    ghost use Rattle.stm_model.specs.declared.memory.Memory.{Memory};

    ghost from_gives = { λ e r. Unit {0} };

    fn from(_: AllocError) -> Memory {
        Memory
    }
}
