//! What a caller closes the gate for.
ghost use Rattle.std.specs.Prelude.{◌≡◌};
ghost use Rattle.tx_checked.specs.Errands.{same_errand};

use stm_model::alg::Alg;

/// A call that must be alone with the memory, with its arguments.
#[derive(Clone, Copy, Drop, Debug, PartialEq, Eq)]
pub enum Errand {
    /// `switch`
    Switch(Alg),
    /// `fence`
    Take { from: usize, count: usize },
    /// `give_back`
    Give,
    /// `end`
    End,
}

impl Errand {
    /// Whether it is the same call with the same arguments.
    pub(crate) fn is_same(self, other: Errand) -> bool
        ensures { result ≡ same_errand self other }
    {
        match self {
            Errand::Switch(alg) => match other {
                Errand::Switch(asked) => alg.number() == asked.number(),
                Errand::Take { .. } | Errand::Give | Errand::End => false,
            },
            Errand::Take { from, count } => match other {
                Errand::Take {
                    from: low,
                    count: many,
                } => from == low && count == many,
                Errand::Switch(_) | Errand::Give | Errand::End => false,
            },
            Errand::Give => match other {
                Errand::Give => true,
                Errand::Switch(_) | Errand::Take { .. } | Errand::End => false,
            },
            Errand::End => match other {
                Errand::End => true,
                Errand::Switch(_) | Errand::Take { .. } | Errand::Give => false,
            },
        }
    }
}
