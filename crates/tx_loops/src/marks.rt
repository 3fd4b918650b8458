//! Closed nesting by marks, for a caller that may be in a loop.
ghost use Rattle.std.specs.Prelude.{◌≡◌, OnOk, IfErr, None, Some};
ghost use Rattle.tx_loops.specs.Accesses.{DropSays, MarkSays, RollSays, buffer_mark, irrevocable_at, marks_at};

use crate::looping_caller::LoopingCaller;
use crate::stage::Stage;
use stm_answers::answers::{Check, Roll};
use tx_checked::misuse::Misuse;
use tx_checked::refusal::Refusal;

impl LoopingCaller {
    /// Makes a mark at what has been written: of a body with a buffer, in that.
    pub fn checkpoint(&mut self) -> Result<Check, Misuse>
        ensures { MarkSays self.old self.new result }
    {
        match self.stage {
            Stage::Buffered => {
                let limit = self.buffer.marks_limit();
                if self.buffer.depth() >= limit {
                    self.caller.refusal = Some(Refusal::Deep { limit });
                    return Ok(Check::Deep { limit });
                }
                self.buffer.mark();
                Ok(Check::Marked {
                    depth: self.buffer.depth(),
                })
            }
            Stage::Asking | Stage::Committing => Err(Misuse::Committing),
            Stage::Free | Stage::Direct | Stage::Bound | Stage::Lapsed => self.caller.checkpoint(),
        }
    }

    /// Whether mark `depth` stands in the buffer.
    fn is_at_mark(&self, depth: usize) -> Result<(), Misuse>
        ensures fits { OnOk result (buffer_mark depth self.now ≡ None) }
        ensures wrong { IfErr result (λ e. buffer_mark depth self.now ≡ Some e) }
    {
        if depth == 0 || depth > self.buffer.depth() {
            return Err(Misuse::Depth);
        }
        Ok(())
    }

    /// Rolls back to mark `depth`.
    pub fn roll_to(&mut self, depth: usize) -> Result<Roll, Misuse>
        ensures { RollSays depth self.old self.new result }
    {
        match self.stage {
            Stage::Buffered => {
                self.is_at_mark(depth)?;
                self.buffer.roll_to(depth);
                Ok(Roll::Rolled)
            }
            Stage::Asking | Stage::Committing => Err(Misuse::Committing),
            Stage::Free | Stage::Direct | Stage::Bound | Stage::Lapsed => {
                self.caller.roll_to(depth)
            }
        }
    }

    /// Drops the marks from `depth` on.
    pub fn drop_marks(&mut self, depth: usize) -> Result<(), Misuse>
        ensures { DropSays depth self.old self.new result }
    {
        match self.stage {
            Stage::Buffered => {
                self.is_at_mark(depth)?;
                self.buffer.release(depth);
                Ok(())
            }
            Stage::Asking | Stage::Committing => Err(Misuse::Committing),
            Stage::Free | Stage::Direct | Stage::Bound | Stage::Lapsed => {
                self.caller.drop_marks(depth)
            }
        }
    }

    /// How many marks stand.
    pub fn marks(&self) -> usize
        ensures { result ≡ marks_at self.now.stage self.now }
    {
        match self.stage {
            Stage::Buffered => self.buffer.depth(),
            _ => self.caller.marks(),
        }
    }

    /// Whether what the attempt writes can't be taken back.
    pub fn is_irrevocable(&self) -> bool
        ensures { result ≡ irrevocable_at self.now.stage self.now }
    {
        match self.stage {
            Stage::Buffered => false,
            _ => self.caller.is_irrevocable(),
        }
    }
}
