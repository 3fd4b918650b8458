//! A function for each kind of step of learning and of closing. Each costs
//! one atomic step, and takes no memory.
ghost use Rattle.std.specs.Prelude.{ℕ, ◌≡◌};
ghost use Rattle.stm_rule.specs.Callers.{IsSeatOf};
ghost use Rattle.stm_rule.specs.Kept.{good_of, SeatTells, IsSameSeat, view_of};
ghost use Rattle.stm_rule.specs.NoteSteps.{hear, Hears, load_end, CanLoadEnd, Ends};

use crate::stm::{Stm, Token};
use rule_base::layout::At;
use std::marker::Brand;
use stm_model::rule::MemRule;

impl<K: MemRule> Stm<K> {
    /// Loads the clock after learning, and answers it.
    pub(crate) fn hear(&self, seat: &mut Token<K>, caller: usize) -> u64
        requires { IsSeatOf self.now caller seat.old }
        ensures same { IsSameSeat seat.old seat.new }
        ensures step { SeatTells hear Hears seat.old.me.0 result seat.new.me.0 }
    {
        self.load_as::<Brand, usize>(seat, At::Clock, &caller)
    }

    /// Loads the clock before closing, and answers it.
    pub(crate) fn load_end(&self, seat: &mut Token<K>, caller: usize) -> u64
        requires seat { IsSeatOf self.now caller seat.old }
        requires view { CanLoadEnd (view_of seat.old) }
        ensures same { IsSameSeat seat.old seat.new }
        ensures step { SeatTells load_end
            (Ends (good_of K.good self.now.config self.now.rule) self.now.config) seat.old.me.0
            result seat.new.me.0 }
    {
        self.load_as::<Brand, usize>(seat, At::Clock, &caller)
    }
}
