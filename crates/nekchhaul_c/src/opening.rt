//! The opening of a memory, for C.
ghost use Rattle.std.specs.Prelude.{◌≡◌, ◌≢◌, ◌≤◌, All, length, true, false, IfOk, OnOk, OnErr};
ghost use Rattle.nekchhaul_c.specs.Opens.{insides, NoneHeld, EachHolds, HoldHindered, HoldNewUnder, IsOpenRefusal, config_for, values_in};
ghost use Rattle.nekchhaul_c.specs.Says.{algorithm_numbered};

use crate::exports::algorithm_by_number;
use crate::handle::Handle;
use crate::status;
use std::alloc::Global;
use stm_model::alg::Alg;
use stm_model::config::{Config, MOST_MARKS};
use stm_model::memory::Memory;
use tx_checked::opening::OpenError;
use tx_loops::looping_caller::LoopingCaller;
use tx_loops::opening::{NotOpened, open};

/// The sizes of a memory, as C gives them.
#[repr(C)]
#[derive(Clone, Copy, Drop)]
pub struct Sizes {
    pub words: usize,
    pub records: usize,
    pub ring: usize,
    pub reads: usize,
    pub writes: usize,
    pub clock: u64,
}

/// Opens a memory under an algorithm, with a caller for each place of `callers`. At BUSY another caller was in the way
/// of the install, and the memory is open under CGL; where it is refused otherwise, no handle changes.
#[unsafe(no_mangle)]
pub extern "C" fn nekchhaul_open(
    alloc: Global,
    sizes: &Sizes,
    algorithm: u32,
    callers: &mut [Handle],
) -> u32
    ensures empty { result ≡ 0 → NoneHeld callers.old }
    ensures new { result ≡ 0
        → HoldNewUnder (algorithm_numbered algorithm) (config_for sizes.now (length callers.old))
        callers.new }
    ensures hindered { result ≡ 4
        → NoneHeld callers.old
        × HoldHindered (config_for sizes.now (length callers.old)) callers.new }
    ensures refused { result ≢ 0
        → result ≢ 4
        → IsOpenRefusal algorithm (config_for sizes.now (length callers.old)) callers.old result }
    ensures kept { result ≢ 0 → result ≢ 4 → insides callers.new ≡ insides callers.old }
{
    let Some(alg) = algorithm_by_number(algorithm) else {
        return status::ALGORITHM;
    };
    if holds_one(callers) {
        return status::HOLDS_CALLER;
    }
    let config = Config {
        words: sizes.words,
        records: sizes.records,
        ring: sizes.ring,
        callers: callers.len(),
        reads: sizes.reads,
        writes: sizes.writes,
        clock: sizes.clock,
        fence: true,
        marks: MOST_MARKS,
    };
    match open(alloc, config, alg) {
        Ok(opened) => match hold_each(alloc, opened, callers) {
            Ok(()) => status::OK,
            Err(Memory) => status::MEMORY,
        },
        Err(
            NotOpened {
                error: OpenError::Busy(_),
                callers: hindered,
            },
        ) => match hold_each(alloc, hindered, callers) {
            Ok(()) => status::BUSY,
            Err(Memory) => status::MEMORY,
        },
        Err(refused) => status::of_open(refused.error),
    }
}

/// Whether a handle holds a caller, which would be forgotten.
fn holds_one(callers: &mut [Handle]) -> bool
    ensures kept { insides callers.new ≡ insides callers.old }
    ensures count { length callers.new ≡ length callers.old }
    ensures none { result ≡ false → NoneHeld callers.old }
    ensures some { result ≡ true → NoneHeld callers.old → ⊥ }
{
    for i in 0..callers.len() {
        if callers[i].is_held() {
            return true;
        }
    }
    false
}

/// Gives each handle its caller, or none where there is no memory for that.
fn hold_each(
    alloc: Global,
    looping_callers: Vec<LoopingCaller>,
    callers: &mut [Handle],
) -> Result<(), Memory>
    requires count { length looping_callers.items ≡ length callers.old }
    ensures held { OnOk result (EachHolds looping_callers.items callers.new) }
    ensures count { length callers.new ≡ length callers.old }
    ensures kept { OnErr result (callers.new ≡ callers.old) }
{
    let boxes = boxed(alloc, looping_callers)?;
    deal(boxes, callers);
    Ok(())
}

/// Each caller on the heap.
fn boxed(
    alloc: Global,
    looping_callers: Vec<LoopingCaller>,
) -> Result<Vec<Box<LoopingCaller>>, Memory>
    ensures { IfOk result (λ boxes. values_in boxes.items ≡ looping_callers.items) }
{
    let mut boxes = Vec::new(alloc);
    for looping_caller in looping_callers {
        let Ok(looping_caller) = Box::new(alloc, looping_caller) else {
            return Err(Memory);
        };
        let Ok(()) = boxes.push(looping_caller) else {
            return Err(Memory);
        };
    }
    Ok(boxes)
}

/// Gives each handle its caller.
fn deal(mut looping_callers: Vec<Box<LoopingCaller>>, callers: &mut [Handle])
    requires count { length looping_callers.items ≡ length callers.old }
    ensures held { EachHolds (values_in looping_callers.items) callers.new }
    ensures count { length callers.new ≡ length callers.old }
{
    while let Some(looping_caller) = looping_callers.pop() {
        callers[looping_callers.len()].hold(looping_caller);
    }
}
