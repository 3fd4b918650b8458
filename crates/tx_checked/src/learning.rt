//! What one caller tells another, each with its memory.
ghost use Rattle.tx_checked.specs.Learning.{TellsSameMemory, IsAsked, meeting, HasLearned};

use crate::checked_caller::CheckedCaller;
use crate::misuse::Misuse;
use crate::note_exchange::Letter;

impl CheckedCaller {
    /// Takes in what `from` has seen, as `stm_tx::Desc::learn` does with a note of it. `from` is as it was, but for the
    /// step that a note takes.
    ///
    /// `from` lays the note into the note exchange of its memory, and this caller looks for it in the note exchange of
    /// its own. What it finds there is a note of its memory, whose front isn't before any entry that `from` has made.
    /// Where it finds none, the answer is `Misuse::Stranger`: the two are not of one memory.
    pub fn learn(&mut self, from: &mut CheckedCaller) -> Result<(), Misuse>
        ensures tells { TellsSameMemory (meeting self.old from.old)
            (HasLearned self.old from.old self.new) self.old self.new result }
        ensures from { IsAsked (meeting self.old from.old) from.old from.new }
    {
        self.is_outside()?;
        from.is_outside()?;
        let place = from.desc.number;
        let caller = self.desc.number;
        let latest = from.latest;
        let note = from.desc.tell(&from.stm);
        from.note_exchange
            .lay(place, caller, Letter { note, latest });
        match self.note_exchange.take(place, caller, latest) {
            Some(note) => {
                self.desc.learn(&self.stm, note);
                Ok(())
            }
            None => {
                from.note_exchange.take(place, caller, latest);
                Err(Misuse::Stranger)
            }
        }
    }
}
