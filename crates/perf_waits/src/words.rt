//! One word: a value is put into it, and taken.

use stm_tx::{Access, AnyMem, Stop};
use tx_transaction::transaction::Transaction;

/// Puts a value into word 0, once that is empty: 0.
#[derive(Drop)]
pub struct Put {
    pub value: u64,
}

impl Transaction<AnyMem> for Put {
    ghost use Rattle.std.specs.Prelude.{◌≡◌, ◌<◌, [], IfNone};

    type Output = Option<()>;

    ghost precondition = { λ it rule words. 0 < words };

    ghost postcondition = { λ it rule words came log. IfNone came (log.writes ≡ []) };

    fn run<A: Access>(&self, _: &AnyMem, memory: &mut A) -> Result<Option<()>, Stop> {
        if memory.read(0)? != 0 {
            return Ok(None);
        }
        memory.write(0, self.value)?;
        Ok(Some(()))
    }
}

/// Takes what word 0 holds, once it is something.
#[derive(Drop)]
pub struct Take;

impl Transaction<AnyMem> for Take {
    ghost use Rattle.std.specs.Prelude.{◌≡◌, ◌<◌, [], IfNone};

    type Output = Option<u64>;

    ghost precondition = { λ it rule words. 0 < words };

    ghost postcondition = { λ it rule words came log. IfNone came (log.writes ≡ []) };

    fn run<A: Access>(&self, _: &AnyMem, memory: &mut A) -> Result<Option<u64>, Stop> {
        let value = memory.read(0)?;
        if value == 0 {
            return Ok(None);
        }
        memory.write(0, 0)?;
        Ok(Some(value))
    }
}
