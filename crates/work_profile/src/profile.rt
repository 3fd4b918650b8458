//! Profiles: the outcomes of a caller's last attempts.
ghost use Rattle.std.specs.Prelude.{◌≡◌, ℕ, List, [], ◌∷◌, ◌++◌, length, IfOk, IsTrue, ◌↔◌, ◌≤◌};
ghost use Rattle.work_profile.specs.declared.outcome.Outcome.{Outcome};
ghost use Rattle.work_profile.specs.Profiles.{profile_of, with_outcome, conflicts, full_logs, commits};

use crate::outcome::Outcome;
use circular_buffer::HeapCircularBuffer;
use std::alloc::Global;
use std::marker::Model;
use stm_model::memory::Memory;

/// How many outcomes a profile keeps.
pub const WINDOW: usize = 16;
/// How far a profile counts the attempts since its last clear.
pub const MOST_SINCE: u32 = 65_536;

/// The last outcomes since the last clear, [`WINDOW`] at most, and how many there were, as far as
/// [`MOST_SINCE`].
#[derive(Drop)]
pub struct Profile {
    window: HeapCircularBuffer<Outcome>,
    since: u32,
}

impl Model for Profile {
    ghost use Rattle.std.specs.Prelude.{◌≡◌, ◌≤◌};
    ghost use Rattle.work_profile.specs.Profiles.{Noted};
    ghost use Rattle.work_profile.specs.declared.profile.TheConstants.{WINDOW, MOST_SINCE};

    ghost Value = { Noted };

    ghost view = { λ p. record { window = p.window.items; since = p.since } };

    ghost invariant = { λ p. (p.window.capacity ≡ WINDOW) × (p.since ≤ MOST_SINCE) };
}

impl Profile {
    /// A profile of no attempt. Memory may be refused.
    pub fn new(alloc: Global) -> Result<Profile, Memory>
        ensures { IfOk result (λ p. p ≡ profile_of []) }
    {
        let window = HeapCircularBuffer::with_capacity(alloc, WINDOW)?;
        Ok(Profile { window, since: 0 })
    }

    /// Notes what one more attempt came to.
    pub fn note(&mut self, outcome: Outcome)
        ensures one_more { self.new ≡ with_outcome self.old outcome }
        ensures since_clear { (outcomes : List Outcome) → self.old ≡ profile_of outcomes
            → self.new ≡ profile_of (outcomes ++ outcome ∷ []) }
    {
        self.window.push_back(outcome);
        if self.since < MOST_SINCE {
            self.since += 1;
        }
    }

    /// Forgets all attempts.
    pub fn clear(&mut self)
        ensures { self.new ≡ profile_of [] }
    {
        self.window.clear();
        self.since = 0;
    }

    /// How many attempts were noted since the last clear, as far as [`MOST_SINCE`].
    pub fn since(&self) -> u32
        ensures { result ≡ self.now.since }
    {
        self.since
    }

    /// Whether [`WINDOW`] attempts were noted since the last clear.
    pub fn is_full(&self) -> bool
        ensures { IsTrue result ↔ (WINDOW ≤ length self.now.window) }
    {
        self.window.len() >= WINDOW
    }

    /// How many of the last outcomes are conflicts.
    pub fn conflicts(&self) -> usize
        ensures { result ≡ conflicts self.now.window }
    {
        self.window.iter().filter(|o| o.is_conflict()).count()
    }

    /// How many of the last outcomes are full logs.
    pub fn full_logs(&self) -> usize
        ensures { result ≡ full_logs self.now.window }
    {
        self.window.iter().filter(|o| o.is_full()).count()
    }

    /// How many of the last attempts committed what they wrote.
    pub fn commits(&self) -> usize
        ensures { result ≡ commits self.now.window }
    {
        self.window.iter().filter(|o| o.is_commit()).count()
    }
}
