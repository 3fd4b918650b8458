//! Policies: when a caller changes the algorithm.
ghost use Rattle.std.specs.Prelude.{◌≡◌, ◌≢◌, ◌++◌, ◌∷◌, codes, MatchOption};
ghost use Rattle.work_profile.specs.declared.policy.Policy.{Policy};
ghost use Rattle.work_profile.specs.Policies.{ruling};
ghost use Rattle.work_profile.specs.PolicyWords.{IsNoneNumbered, IsWordOf, Reads};

use crate::numbers::number_up_to;
use std::str::FromStr;
use thiserror::Error;

/// The greatest number after `round:`.
pub const MOST_ROUND: u32 = 65_536;
/// The greatest number after `state:`.
pub const MOST_STATE: u32 = 16;

/// When a caller changes the algorithm, and to which; see [`choose`](crate::choosing::choose).
#[derive(Clone, Copy, Drop, Debug, PartialEq, Eq)]
pub enum Policy {
    /// Never.
    Fixed,
    /// After so many attempts, 1 to [`MOST_ROUND`], to the next in the cycle of the algorithms.
    Round(u32),
    /// By how many of the last attempts met a conflict or a full log, and how many wrote.
    Expert,
    /// To the next stricter algorithm at so many conflicts in the last attempts, 1 to [`MOST_STATE`], and
    /// back at none.
    State(u32),
}

impl Policy {
    /// This policy, or the text's where it is fixed.
    pub fn ruling(self, text: Policy) -> Policy
        ensures { result ≡ ruling self text }
    {
        match self {
            Policy::Fixed => text,
            other => other,
        }
    }
}

/// The word is no policy's.
#[derive(Clone, Copy, Drop, Debug, PartialEq, Eq, Error)]
#[error("no policy")]
pub struct NoPolicy;

/// Reads `fixed`, `round:n`, `expert` or `state:n`.
impl FromStr for Policy {
    type Err = NoPolicy;

    ghost from_str_gives = { Reads };

    fn from_str(word: &str) -> Result<Policy, NoPolicy> {
        match read(word) {
            Some(policy) => Ok(policy),
            None => Err(NoPolicy),
        }
    }
}

/// The policy of a word.
fn read(word: &str) -> Option<Policy>
    ensures { MatchOption result ((policy : Policy) → IsWordOf word.now policy → ⊥)
        (IsWordOf word.now) }
{
    match word.split_once(':') {
        Some((name, digits)) => numbered(name, digits),
        None => named(word),
    }
}

/// The policy of a word without a colon.
fn named(word: &str) -> Option<Policy>
    ensures { MatchOption result ((word.now ≢ codes "fixed") × (word.now ≢ codes "expert"))
        (IsWordOf word.now) }
{
    match word {
        "fixed" => Some(Policy::Fixed),
        "expert" => Some(Policy::Expert),
        _ => None,
    }
}

/// The policy of a name and of the number after its colon.
fn numbered(name: &str, digits: &str) -> Option<Policy>
    ensures { MatchOption result (IsNoneNumbered name.now digits.now)
        (IsWordOf (name.now ++ 58 ∷ digits.now)) }
{
    match name {
        "round" => Some(Policy::Round(number_up_to(MOST_ROUND, digits)?)),
        "state" => Some(Policy::State(number_up_to(MOST_STATE, digits)?)),
        _ => None,
    }
}
