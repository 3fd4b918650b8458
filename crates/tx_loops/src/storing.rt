//! How a buffer's writes reach the attempt.
ghost use Rattle.std.specs.Prelude.{◌≡◌, ◌≤◌, true, false, []};
ghost use Rattle.stm_answers.specs.CallerState.{IsIdle, IsRunning, is_irrevocable};
ghost use Rattle.tx_checked.specs.CheckedCallers.{config_of, known_to};
ghost use Rattle.tx_loops.specs.Ends.{is_written};
ghost use Rattle.tx_loops.specs.Loops.{EndsBy, HindersStoring, MadeNothing};
ghost use Rattle.stm_model.specs.Memories.{Once};
ghost use Rattle.tx_loops.specs.Stages.{EachSpared};
ghost use Rattle.tx_parts.specs.Laying.{Lays};

use stm_answers::answers::Write;
use stm_logs::write_log::WriteLog;
use tx_checked::checked_caller::CheckedCaller;
use tx_checked::misuse::Misuse;

/// Writes all that lies in the log, in the order of the first writes. False where the attempt has ended, and nothing
/// stands. Of an empty log it is a test.
#[inline(always)]
pub(crate) fn store_through(caller: &mut CheckedCaller, buffer: &WriteLog) -> bool
    requires running { IsRunning (known_to caller.old) }
    requires spared { EachSpared (config_of caller.old).words (known_to caller.old).fence
        buffer.now.items }
    ensures nothing { MadeNothing caller.old caller.new }
    ensures runs { result ≡ true → IsRunning (known_to caller.new) }
    ensures lays { result ≡ true
        → Lays buffer.now.items (known_to caller.old).log (known_to caller.new).log }
    ensures once { Once buffer.now.items }
    ensures later { result ≡ true → (known_to caller.old).start ≤ (known_to caller.new).start }
    ensures irrevocable { result ≡ true
        → is_irrevocable (known_to caller.old) ≡ true
        → is_irrevocable (known_to caller.new) ≡ true }
    ensures alg { result ≡ true → (known_to caller.new).alg ≡ (known_to caller.old).alg }
    ensures granted { result ≡ true
        → (known_to caller.new).granted ≡ (known_to caller.old).granted }
    ensures ended { result ≡ false
        → IsIdle (known_to caller.new) × (is_irrevocable (known_to caller.old) ≡ false) }
    ensures hindered { result ≡ false
        → EndsBy (HindersStoring buffer.now.items caller.old caller.new) caller.new }
{
    if buffer.count() == 0 {
        return true;
    }
    store_each(caller, buffer)
}

#[inline(never)]
fn store_each(caller: &mut CheckedCaller, buffer: &WriteLog) -> bool
    requires running { IsRunning (known_to caller.old) }
    requires spared { EachSpared (config_of caller.old).words (known_to caller.old).fence
        buffer.now.items }
    ensures nothing { MadeNothing caller.old caller.new }
    ensures runs { result ≡ true → IsRunning (known_to caller.new) }
    ensures lays { result ≡ true
        → Lays buffer.now.items (known_to caller.old).log (known_to caller.new).log }
    ensures once { Once buffer.now.items }
    ensures later { result ≡ true → (known_to caller.old).start ≤ (known_to caller.new).start }
    ensures irrevocable { result ≡ true
        → is_irrevocable (known_to caller.old) ≡ true
        → is_irrevocable (known_to caller.new) ≡ true }
    ensures alg { result ≡ true → (known_to caller.new).alg ≡ (known_to caller.old).alg }
    ensures granted { result ≡ true
        → (known_to caller.new).granted ≡ (known_to caller.old).granted }
    ensures ended { result ≡ false
        → IsIdle (known_to caller.new) × (is_irrevocable (known_to caller.old) ≡ false) }
    ensures hindered { result ≡ false
        → EndsBy (HindersStoring buffer.now.items caller.old caller.new) caller.new }
{
    for i in 0..buffer.count() {
        let (a, x) = buffer.item(i);
        let written = was_written(caller.write(a, x));
        if !written {
            return false;
        }
    }
    true
}

fn was_written(answer: Result<Write, Misuse>) -> bool
    ensures { result ≡ is_written answer }
{
    match answer {
        Ok(Write::Done) => true,
        Ok(Write::Conflict(_)) => false,
        Ok(Write::Full { .. }) => false,
        Ok(Write::ClockFull { .. }) => false,
        Err(_) => false,
    }
}
