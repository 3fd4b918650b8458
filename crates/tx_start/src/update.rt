//! The smallest transactions: places become what a function makes of their values.

use data_places::place::Place;
use data_places::word::Word;
use stm_tx::{Access, AnyMem, Stop};
use tx_atomic::transaction::Transaction;

/// The place's value becomes what `by` makes of it, and that is the answer.
#[derive(Drop)]
pub struct Update<T, F> {
    pub place: Place<T>,
    pub by: F,
}

impl<T: Word, F: Fn(T) -> T> Transaction<AnyMem> for Update<T, F> {
    ghost use Rattle.std.specs.Prelude.{◌<◌};
    ghost use Rattle.stm_answers.specs.CallerState.{no_log};
    ghost use Rattle.data_places.specs.Codes.{Updates};

    type Output = T;

    ghost precondition = { λ it rule words. (it.place.at < words) × F.IsAlwaysCallable it.by };

    // the place was read and written, and nothing else; its new value, the answer, is what `by` made of the one before
    ghost postcondition = { λ it rule words value log. Updates T.fits T.code (F.post it.by) it.place.at no_log value log };

    fn run<A: Access>(&self, _: &AnyMem, memory: &mut A) -> Result<T, Stop> {
        let value = (self.by)(self.place.get(memory)?);
        self.place.set(memory, value)?;
        Ok(value)
    }
}
