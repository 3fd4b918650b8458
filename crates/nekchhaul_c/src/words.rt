//! The reads and writes of an attempt, for C. CGL's, which are one step, stand in line in the exports, which so save no
//! registers; those of the others are functions of their own, by the algorithm.
ghost use Rattle.std.specs.Prelude.{◌≡◌, true, false};
ghost use Rattle.nekchhaul_c.specs.Codes.{read_code, read_value, write_code};
ghost use Rattle.nekchhaul_c.specs.Says.{Holds, Says, SaysWord};
ghost use Rattle.tx_checked.specs.CheckedCallers.{IsServed, known_to};
ghost use Rattle.tx_loops.specs.Accesses.{ReadSays, WriteSays};
ghost use Rattle.tx_loops.specs.Stages.{is_plain};
ghost use Rattle.tx_loops.specs.declared.stage.Stage.TheVariants.{Buffered, Direct};

use crate::handle::Handle;
use crate::status;
use stm_answers::answers::{Read, Write};
use stm_model::alg::Alg;
use stm_tx::serving::{Calls, Only, Under};
use stm_tx::{Algorithm, Cgl, OrecEager, OrecLazy, RingSw, Serial, Tml, under};
use tx_loops::looping_caller::LoopingCaller;

/// Reads a word. `value` is written only where the answer is 0.
#[unsafe(no_mangle)]
pub extern "C" fn nekchhaul_read(caller: &mut Handle, address: usize, value: &mut u64) -> u32
    ensures { Holds ((result ≡ 16) × (value.new ≡ value.old))
        (SaysWord read_code read_value value.old value.new (ReadSays address) result) caller.old.inside caller.new.inside }
{
    if !caller.is_held() {
        return status::NO_CALLER;
    }
    let looping_caller = caller.looping_caller();
    match looping_caller.algorithm() {
        Alg::Cgl => {
            if looping_caller.is_straight() {
                read(Under::<Cgl>::new(), looping_caller, address, value)
            } else {
                read_apart(Under::<Cgl>::new(), looping_caller, address, value)
            }
        }
        Alg::Tml => read_apart(Under::<Tml>::new(), looping_caller, address, value),
        Alg::OrecLazy => read_direct(Only::<OrecLazy>::new(), looping_caller, address, value),
        Alg::OrecEager => read_direct(Only::<OrecEager>::new(), looping_caller, address, value),
        Alg::RingSw => read_direct(Only::<RingSw>::new(), looping_caller, address, value),
        Alg::Serial => read_direct(Only::<Serial>::new(), looping_caller, address, value),
    }
}

#[inline(always)]
fn read<C: Calls + Drop>(
    calls: C,
    looping_caller: &mut LoopingCaller,
    address: usize,
    value: &mut u64,
) -> u32
    requires served { IsServed C.acts_as (known_to looping_caller.old.caller) }
    ensures { SaysWord read_code read_value value.old value.new (ReadSays address) result looping_caller.old looping_caller.new }
{
    match looping_caller.read_by(&calls, address) {
        Ok(Read::Value(word)) => {
            *value = word;
            status::OK
        }
        refused => status::of_read(refused),
    }
}

/// In a body it is known that the attempt can be taken back.
#[inline(never)]
fn read_direct<A: Algorithm>(
    only: Only<A>,
    looping_caller: &mut LoopingCaller,
    address: usize,
    value: &mut u64,
) -> u32
    requires named { (known_to looping_caller.old.caller).running ≡ true
        → (known_to looping_caller.old.caller).alg ≡ A.alg }
    ensures { SaysWord read_code read_value value.old value.new (ReadSays address) result looping_caller.old looping_caller.new }
{
    if looping_caller.is_direct() {
        return read(only, looping_caller, address, value);
    }
    read_apart(Under::<A>::new(), looping_caller, address, value)
}

#[inline(never)]
fn read_apart<C: Calls + Drop>(
    calls: C,
    looping_caller: &mut LoopingCaller,
    address: usize,
    value: &mut u64,
) -> u32
    requires served { IsServed C.acts_as (known_to looping_caller.old.caller) }
    ensures { SaysWord read_code read_value value.old value.new (ReadSays address) result looping_caller.old looping_caller.new }
{
    read(calls, looping_caller, address, value)
}

/// Writes a word.
#[unsafe(no_mangle)]
pub extern "C" fn nekchhaul_write(caller: &mut Handle, address: usize, value: u64) -> u32
    ensures { Holds (result ≡ 16)
        (Says write_code (WriteSays address value) result) caller.old.inside
        caller.new.inside }
{
    if !caller.is_held() {
        return status::NO_CALLER;
    }
    let looping_caller = caller.looping_caller();
    if looping_caller.is_direct() {
        return under!(
            looping_caller.algorithm(),
            write_direct(Only::<A>::new(), looping_caller, address, value)
        );
    }
    if looping_caller.is_buffered() {
        return write_into(looping_caller, address, value);
    }
    if !looping_caller.is_plain() {
        return write_away(looping_caller, address, value);
    }
    under!(
        looping_caller.algorithm(),
        write_apart(Under::<A>::new(), looping_caller, address, value)
    )
}

/// In a body it is known that the attempt can be taken back.
#[inline(never)]
fn write_direct<A: Algorithm>(
    only: Only<A>,
    looping_caller: &mut LoopingCaller,
    address: usize,
    value: u64,
) -> u32
    requires named { (known_to looping_caller.old.caller).running ≡ true
        → (known_to looping_caller.old.caller).alg ≡ A.alg }
    requires direct { looping_caller.old.stage ≡ Direct }
    requires revocable { (known_to looping_caller.old.caller).granted ≡ false }
    ensures { Says write_code (WriteSays address value) result
        looping_caller.old looping_caller.new }
{
    write(only, looping_caller, address, value)
}

#[inline(always)]
fn write<C: Calls + Drop>(
    calls: C,
    looping_caller: &mut LoopingCaller,
    address: usize,
    value: u64,
) -> u32
    requires served { IsServed C.acts_as (known_to looping_caller.old.caller) }
    requires plain { is_plain looping_caller.old.stage ≡ true }
    ensures { Says write_code (WriteSays address value) result
        looping_caller.old looping_caller.new }
{
    match looping_caller.write_plain_by(&calls, address, value) {
        Ok(Write::Done) => status::OK,
        refused => status::of_write(refused),
    }
}

/// Where no body runs.
#[cold]
#[inline(never)]
fn write_away(looping_caller: &mut LoopingCaller, address: usize, value: u64) -> u32
    requires away { is_plain looping_caller.old.stage ≡ false }
    ensures { Says write_code (WriteSays address value) result
        looping_caller.old looping_caller.new }
{
    status::of_write(looping_caller.write_apart(address, value))
}

#[inline(never)]
fn write_into(looping_caller: &mut LoopingCaller, address: usize, value: u64) -> u32
    requires buffered { looping_caller.old.stage ≡ Buffered }
    ensures { Says write_code (WriteSays address value) result
        looping_caller.old looping_caller.new }
{
    status::of_write(looping_caller.write_into(address, value))
}

#[inline(never)]
fn write_apart<C: Calls + Drop>(
    calls: C,
    looping_caller: &mut LoopingCaller,
    address: usize,
    value: u64,
) -> u32
    requires served { IsServed C.acts_as (known_to looping_caller.old.caller) }
    requires plain { is_plain looping_caller.old.stage ≡ true }
    ensures { Says write_code (WriteSays address value) result
        looping_caller.old looping_caller.new }
{
    write(calls, looping_caller, address, value)
}
