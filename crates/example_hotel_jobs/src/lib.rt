//! Guests check in, are handed a second key, move and check out, on threads of their own, while one caller audits the
//! keys. It stands on no engine: `example_hotel` runs it.
#![tactic(auto)]

pub mod hotel;

use crate::hotel::{Audit, CheckIn, CheckOut, HandKey, Hotel, Move};
use std::sync::Wait;
use tx_jobs::calls::Calls;
use tx_jobs::rounds::Round;

/// A guest's stay, one a round: each caller is a guest. It waits until the first room is free, and takes a second if
/// that is free too; then it leaves. Caller 0 audits.
#[derive(Drop)]
pub struct Stay;

impl<R: Wait> Round<R, Hotel> for Stay {
    ghost use Rattle.std.specs.Prelude.{◌≡◌};

    ghost precondition = { λ stay hotel words. words ≡ 18 };

    fn round<C: Calls<R, Hotel>>(&self, caller: &mut C, round: usize) -> Option<()> {
        let guest = caller.number() as u64;
        if guest == 0 {
            caller.run(&Audit)?;
            return Some(());
        }
        let from = round % 8;
        let to = (from + 3) % 8;
        if !caller.until_some(&CheckIn { guest, room: from })? {
            return Some(());
        }
        caller.run(&HandKey { room: from })?;
        let moved = caller.run(&Move { from, to })?;
        let room = if moved { to } else { from };
        caller.run(&CheckOut { room })?;
        Some(())
    }
}
