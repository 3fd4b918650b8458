//! What a caller's calls came to, counted, for C.
ghost use Rattle.std.specs.Prelude.{◌≡◌};
ghost use Rattle.nekchhaul_c.specs.Says.{Holds};
ghost use Rattle.nekchhaul_c.specs.Shown.{Shows};

use crate::handle::Handle;
use crate::status;
use tx_checked::counts::Counts;

/// What the caller's calls came to, counted. `counts` is written only where the answer is 0.
#[unsafe(no_mangle)]
pub extern "C" fn nekchhaul_counts(caller: &mut Handle, counts: &mut Counts) -> u32
    ensures { Holds ((result ≡ 16) × (counts.new ≡ counts.old))
        (Shows result (λ m. counts.new ≡ m.caller.counts)) caller.old.inside caller.new.inside }
{
    if !caller.is_held() {
        return status::NO_CALLER;
    }
    *counts = caller.looping_caller().caller.counts;
    status::OK
}
