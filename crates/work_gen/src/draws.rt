//! Draws from a generator.
ghost use Rattle.std.specs.Prelude.{◌≡◌, ◌+◌, ◌%◌, ◌<◌, ℕ};
ghost use Rattle.work_gen.specs.Draws.{drawn, generator_at};

use rand_core::SeedableRng;
use rand_core::utils::NextWord;
use rand_pcg::Pcg32;

/// The generator of a seed.
pub fn seeded(seed: u64) -> Pcg32
    ensures { result ≡ generator_at seed 0 }
{
    Pcg32::seed_from_u64(seed)
}

/// The next draw, modulo `below`.
pub fn draw(draws: &mut Pcg32, below: u32) -> u32
    requires { 0 < below }
    ensures { (seed k : ℕ) → draws.old ≡ generator_at seed k
        → (result ≡ drawn seed k % below) × (draws.new ≡ generator_at seed (k + 1)) }
{
    draws.next_word() % below
}
