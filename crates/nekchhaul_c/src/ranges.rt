//! Ranges of words out of the transactions, and the end of a memory, for C.
ghost use Rattle.std.specs.Prelude.{◌≡◌, length, OnOk};
ghost use Rattle.nekchhaul_c.specs.Codes.{taken_code, given_code, word_code, word_value, done_code};
ghost use Rattle.nekchhaul_c.specs.Says.{Holds, Says, SaysWord, EndSays};
ghost use Rattle.tx_checked.specs.Misuses.{taking, giving, in_range};
ghost use Rattle.tx_checked.specs.Ranges.{HasTaken, HasGiven, HasReadDirect, HasWrittenDirect};
ghost use Rattle.tx_loops.specs.Accesses.{Passes};

use crate::handle::Handle;
use crate::status;

/// Takes a range of words out of the transactions.
#[unsafe(no_mangle)]
pub extern "C" fn nekchhaul_fence(caller: &mut Handle, from: usize, count: usize) -> u32
    ensures { Holds (result ≡ 16) (Says taken_code (Passes (taking from count) (HasTaken from count)) result)
        caller.old.inside caller.new.inside }
{
    if !caller.is_held() {
        return status::NO_CALLER;
    }
    status::of_taken(caller.looping_caller().fence(from, count))
}

/// Reads a word of the caller's range. `value` is written only where the answer is 0.
#[unsafe(no_mangle)]
pub extern "C" fn nekchhaul_direct_read(caller: &mut Handle, address: usize, value: &mut u64) -> u32
    ensures { Holds ((result ≡ 16) × (value.new ≡ value.old))
        (SaysWord word_code word_value value.old value.new
        (Passes (in_range address) (HasReadDirect address)) result) caller.old.inside caller.new.inside }
{
    if !caller.is_held() {
        return status::NO_CALLER;
    }
    let word = caller.looping_caller().direct_read(address);
    status::put_word(word, value);
    status::of_word(word)
}

/// Writes a word of the caller's range.
#[unsafe(no_mangle)]
pub extern "C" fn nekchhaul_direct_write(caller: &mut Handle, address: usize, value: u64) -> u32
    ensures { Holds (result ≡ 16)
        (Says done_code (Passes (in_range address) (HasWrittenDirect address value)) result)
        caller.old.inside caller.new.inside }
{
    if !caller.is_held() {
        return status::NO_CALLER;
    }
    status::of_done(caller.looping_caller().direct_write(address, value))
}

/// Gives the caller's range back.
#[unsafe(no_mangle)]
pub extern "C" fn nekchhaul_give_back(caller: &mut Handle) -> u32
    ensures { Holds (result ≡ 16) (Says given_code (Passes giving HasGiven) result) caller.old.inside
        caller.new.inside }
{
    if !caller.is_held() {
        return status::NO_CALLER;
    }
    status::of_given(caller.looping_caller().give_back())
}

/// Takes all words out of the transactions for good, and hands them out.
#[unsafe(no_mangle)]
pub extern "C" fn nekchhaul_close(caller: &mut Handle, words: &mut [u64]) -> u32
    ensures { Holds ((result ≡ 16) × (words.new ≡ words.old)) (EndSays words.old words.new result)
        caller.old.inside caller.new.inside }
{
    if !caller.is_held() {
        return status::NO_CALLER;
    }
    status::of_taken(caller.looping_caller().end(words))
}
