//! What these tests share: a plain memory of zeros, and numbers that look random.
ghost use Rattle.std.specs.Prelude.{◌≡◌, IfOk, length, replicate};
ghost use Rattle.stm_model.specs.Memories.{overlay};
ghost use Rattle.stm_model.specs.Plains.{openings, own_writes};

use std::alloc::{AllocError, Global};
use stm_model::plain::{Plain, PlainWord};

/// A plain memory of zeros.
pub(crate) fn zeros(alloc: Global, words: usize) -> Result<Plain, AllocError>
    ensures words { IfOk result (λ p. length p ≡ words) }
    ensures zeros { IfOk result (λ p. overlay (openings p) (own_writes p) ≡ replicate words 0) }
{
    let word = PlainWord {
        opening: 0,
        own: None,
    };
    Ok(Plain::new(vec![in alloc; word; words]?))
}

/// The next of a chain of numbers, whose high bits look random.
pub(crate) fn next(draw: u64) -> u64 {
    draw.wrapping_mul(6364136223846793005)
        .wrapping_add(1442695040888963407)
}
