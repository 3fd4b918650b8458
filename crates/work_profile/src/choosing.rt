//! The choice of an algorithm.
ghost use Rattle.std.specs.Prelude.{◌≡◌};
ghost use Rattle.work_profile.specs.Policies.{next_in_cycle, to_right, to_left, ByExpert, ByState, Chooses};

use crate::policy::Policy;
use crate::profile::Profile;
use stm_model::alg::Alg;

/// The algorithm that the policy chooses by the profile while `alg` runs: `alg` itself where it is to stay.
pub fn choose(policy: Policy, profile: &Profile, alg: Alg) -> Alg
    ensures { Chooses policy profile.now alg result }
{
    match policy {
        Policy::Fixed => alg,
        Policy::Round(n) => {
            if profile.since() >= n {
                next_in_cycle(alg)
            } else {
                alg
            }
        }
        Policy::Expert => {
            if profile.is_full() {
                by_expert(profile.conflicts(), profile.full_logs(), profile.commits())
            } else {
                alg
            }
        }
        Policy::State(n) => {
            if profile.is_full() {
                by_state(n, profile.conflicts(), alg)
            } else {
                alg
            }
        }
    }
}

/// The next algorithm in the cycle CGL, TML, OrecLazy, OrecEager, RingSW, Serial.
pub fn next_in_cycle(alg: Alg) -> Alg
    ensures { result ≡ next_in_cycle alg }
{
    match alg {
        Alg::Cgl => Alg::Tml,
        Alg::Tml => Alg::OrecLazy,
        Alg::OrecLazy => Alg::OrecEager,
        Alg::OrecEager => Alg::RingSw,
        Alg::RingSw => Alg::Serial,
        Alg::Serial => Alg::Cgl,
    }
}

/// What the expert's table says of a full window.
fn by_expert(conflicts: usize, full_logs: usize, commits: usize) -> Alg
    ensures { ByExpert conflicts full_logs commits result }
{
    if full_logs >= 1 {
        Alg::Cgl
    } else if conflicts >= 12 {
        Alg::Serial
    } else if commits == 0 {
        Alg::Tml
    } else if conflicts >= 4 {
        Alg::OrecLazy
    } else if conflicts >= 1 {
        Alg::RingSw
    } else {
        Alg::OrecEager
    }
}

/// A step toward the lock at `n` conflicts of a full window, back where there is none.
fn by_state(n: u32, conflicts: usize, alg: Alg) -> Alg
    ensures { ByState n conflicts alg result }
{
    if conflicts >= n as usize {
        to_right(alg)
    } else if conflicts == 0 {
        to_left(alg)
    } else {
        alg
    }
}

/// The neighbour that lets less run side by side; CGL has none.
fn to_right(alg: Alg) -> Alg
    ensures { result ≡ to_right alg }
{
    match alg {
        Alg::RingSw => Alg::OrecLazy,
        Alg::OrecLazy => Alg::OrecEager,
        Alg::OrecEager => Alg::Tml,
        Alg::Tml => Alg::Serial,
        Alg::Serial | Alg::Cgl => Alg::Cgl,
    }
}

/// The neighbour that lets more run side by side; RingSW has none.
fn to_left(alg: Alg) -> Alg
    ensures { result ≡ to_left alg }
{
    match alg {
        Alg::RingSw | Alg::OrecLazy => Alg::RingSw,
        Alg::OrecEager => Alg::OrecLazy,
        Alg::Tml => Alg::OrecEager,
        Alg::Serial => Alg::Tml,
        Alg::Cgl => Alg::Serial,
    }
}
