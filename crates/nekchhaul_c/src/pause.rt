//! How C pauses and sleeps: by itself, since a library may not wait.
ghost use Rattle.std.specs.Prelude.{◌≡◌};
ghost use Rattle.nekchhaul_c.specs.Says.{Holds, PutsSleep, WaitTells};
ghost use Rattle.nekchhaul_c.specs.Shown.{Shows};

use crate::handle::Handle;
use crate::status;
use tx_loops::looping_caller::LoopingCaller;

/// How long to pause.
#[repr(C)]
#[derive(Clone, Copy, Drop)]
pub struct Pause {
    /// So often the processor's short pause.
    pub times: u32,
    /// Where that isn't 0, sleep instead, while the low 32 bits of the word at `at` are so.
    pub seen: u32,
    pub at: *mut u64,
}

impl Pause {
    pub(crate) fn of(times: u32) -> Pause
        ensures times { result.times ≡ times }
        ensures seen { result.seen ≡ 0 }
    {
        Pause {
            times,
            seen: 0,
            at: std::ptr::null_mut(),
        }
    }

    /// With a bed's word, to be woken.
    fn at_bed(looping_caller: &LoopingCaller, bed: u32) -> Pause
        ensures times { result.times ≡ 0 }
        ensures seen { result.seen ≡ 0 }
    {
        let bell = &looping_caller.caller.stm.bell;
        let at = if bed == RUNG {
            bell.rung_ptr()
        } else {
            bell.bed_ptr(bed as usize)
        };
        Pause {
            times: 0,
            seen: 0,
            at,
        }
    }

    /// By the wait that was announced.
    pub(crate) fn by_watch(looping_caller: &LoopingCaller) -> Pause
        ensures { PutsSleep looping_caller.now.plan.watch result }
    {
        match &looping_caller.plan.watch {
            Some(watch) => Pause {
                times: 0,
                seen: watch.seen,
                at: looping_caller.caller.stm.bell.as_ptr(&watch.announced),
            },
            None => Pause::of(0),
        }
    }
}

/// Announces that the caller's user will wait, for the next attempt to look whether it has to; or answers PAUSE where
/// that was announced before an attempt which has looked. `pause` is written only where the answer is PAUSE.
#[unsafe(no_mangle)]
pub extern "C" fn nekchhaul_announce(caller: &mut Handle, pause: &mut Pause) -> u32
    ensures { Holds ((result ≡ 16) × (pause.new ≡ pause.old)) (WaitTells pause.old pause.new result)
        caller.old.inside caller.new.inside }
{
    if !caller.is_held() {
        return status::NO_CALLER;
    }
    let looping_caller = caller.looping_caller();
    match looping_caller.wait() {
        Ok(true) => {
            *pause = Pause::by_watch(looping_caller);
            status::PAUSE
        }
        Ok(false) => status::OK,
        Err(misuse) => status::of_misuse(misuse),
    }
}

/// Wakes all who sleep until a word of the caller's memory is written.
#[unsafe(no_mangle)]
pub extern "C" fn nekchhaul_ring(caller: &mut Handle) -> u32
    ensures { Holds (result ≡ 16) (Shows result (λ m. Unit {0})) caller.old.inside
        caller.new.inside }
{
    if !caller.is_held() {
        return status::NO_CALLER;
    }
    caller.looping_caller().wake();
    status::OK
}

/// The bed that is the word of the beds which were rung for, a bit each.
const RUNG: u32 = 32;

/// Where a bed lies, for who wakes: `bell` is written only where the answer is 0.
#[unsafe(no_mangle)]
pub extern "C" fn nekchhaul_bell(caller: &mut Handle, bed: u32, bell: &mut Pause) -> u32
    ensures { Holds ((result ≡ 16) × (bell.new ≡ bell.old))
        (Shows result (λ m. (bell.new.times ≡ 0) × (bell.new.seen ≡ 0))) caller.old.inside
        caller.new.inside }
{
    if !caller.is_held() {
        return status::NO_CALLER;
    }
    *bell = Pause::at_bed(caller.looping_caller(), bed);
    status::OK
}
