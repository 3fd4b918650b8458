//! What an attempt came to.
ghost use Rattle.std.specs.Prelude.{◌≡◌};

/// What an attempt of a transaction came to, as a profile notes it.
#[derive(Clone, Copy, Drop, Debug, PartialEq, Eq)]
pub enum Outcome {
    /// It committed what it wrote.
    Committed,
    /// It committed, and had written nothing.
    ReadOnly,
    /// It was cancelled: by its script, or since another caller held the gate.
    Cancelled,
    /// Another transaction stood in its way.
    Conflict,
    /// One of its logs was full.
    Full,
}

impl Outcome {
    ghost use Rattle.work_profile.specs.Profiles.{is_commit, is_conflict, is_full};

    pub fn is_conflict(&self) -> bool
        ensures { result ≡ is_conflict self.now }
    {
        match self {
            Outcome::Conflict => true,
            Outcome::Committed | Outcome::ReadOnly | Outcome::Cancelled | Outcome::Full => false,
        }
    }

    pub fn is_full(&self) -> bool
        ensures { result ≡ is_full self.now }
    {
        match self {
            Outcome::Full => true,
            Outcome::Committed | Outcome::ReadOnly | Outcome::Cancelled | Outcome::Conflict => {
                false
            }
        }
    }

    /// Whether it committed what it wrote.
    pub fn is_commit(&self) -> bool
        ensures { result ≡ is_commit self.now }
    {
        match self {
            Outcome::Committed => true,
            Outcome::ReadOnly | Outcome::Cancelled | Outcome::Conflict | Outcome::Full => false,
        }
    }
}
