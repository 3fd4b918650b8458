//! The policy table at its edges, and the words of the policies.
use std::alloc::Global;
use std::process::Abort;
use std::test::Fail;
use stm_model::alg::{ALGORITHMS, Alg};
use stm_model::memory::Memory;
use work_profile::choosing::{choose, next_in_cycle};
use work_profile::outcome::Outcome;
use work_profile::policy::Policy;
use work_profile::profile::{MOST_SINCE, Profile, WINDOW};

/// Notes an outcome so many times.
fn note_all(profile: &mut Profile, outcome: Outcome, times: usize) {
    for _ in 0..times {
        profile.note(outcome);
    }
}

/// A profile of so many conflicts, full logs, commits that wrote, and commits that read alone.
fn noted(alloc: Global, counts: [usize; 4]) -> Result<Profile, Memory> {
    let mut profile = Profile::new(alloc)?;
    note_all(&mut profile, Outcome::Conflict, counts[0]);
    note_all(&mut profile, Outcome::Full, counts[1]);
    note_all(&mut profile, Outcome::Committed, counts[2]);
    note_all(&mut profile, Outcome::ReadOnly, counts[3]);
    Ok(profile)
}

/// Checks a profile of 15 conflicts.
fn check_moves(rt: &impl Abort, profile: &mut Profile) {
    let state = Policy::State(12);
    assert_eq!(rt; choose(state, profile, Alg::OrecLazy), Alg::OrecLazy);
    profile.note(Outcome::Conflict);
    assert_eq!(rt; choose(state, profile, Alg::OrecLazy), Alg::OrecEager);
    profile.clear();
    assert_eq!(rt; choose(state, profile, Alg::OrecLazy), Alg::OrecLazy);
}

#[test]
fn fifteen_conflicts_stay_and_one_more_moves(rt: HostRuntime) -> Result<(), Fail> {
    check_moves(&rt, &mut noted(rt.alloc(), [15, 0, 0, 0])?);
    Ok(())
}

/// The algorithm that the policy chooses after attempts of these counts.
fn chosen(alloc: Global, policy: Policy, counts: [usize; 4], alg: Alg) -> Result<Alg, Memory> {
    let profile = noted(alloc, counts)?;
    Ok(choose(policy, &profile, alg))
}

/// Each line of the expert's table at its edges.
const EXPERT: &[([usize; 4], Alg)] = &[
    ([15, 0, 0, 0], Alg::OrecLazy),
    ([0, 1, 15, 0], Alg::Cgl),
    ([15, 1, 0, 0], Alg::Cgl),
    ([12, 0, 0, 4], Alg::Serial),
    ([12, 0, 4, 0], Alg::Serial),
    ([11, 0, 0, 5], Alg::Tml),
    ([0, 0, 0, 16], Alg::Tml),
    ([11, 0, 1, 4], Alg::OrecLazy),
    ([4, 0, 12, 0], Alg::OrecLazy),
    ([3, 0, 13, 0], Alg::RingSw),
    ([1, 0, 15, 0], Alg::RingSw),
    ([0, 0, 1, 15], Alg::OrecEager),
];

#[test]
fn the_expert_goes_by_the_first_line_that_holds(rt: HostRuntime) -> Result<(), Fail> {
    for (counts, wanted) in EXPERT {
        let choice = chosen(rt.alloc(), Policy::Expert, *counts, Alg::OrecLazy)?;
        assert_eq!(rt; (counts, choice), (counts, *wanted));
    }
    Ok(())
}

/// Each move of the state policy: an algorithm, its neighbours, and that both ends stay.
const MOVES: &[(Alg, Alg, Alg)] = &[
    (Alg::RingSw, Alg::RingSw, Alg::OrecLazy),
    (Alg::OrecLazy, Alg::RingSw, Alg::OrecEager),
    (Alg::OrecEager, Alg::OrecLazy, Alg::Tml),
    (Alg::Tml, Alg::OrecEager, Alg::Serial),
    (Alg::Serial, Alg::Tml, Alg::Cgl),
    (Alg::Cgl, Alg::Serial, Alg::Cgl),
];

#[test]
fn the_state_policy_moves_one_place(rt: HostRuntime) -> Result<(), Fail> {
    for (alg, left, right) in MOVES {
        let policy = Policy::State(5);
        let none = chosen(rt.alloc(), policy, [0, 8, 4, 4], *alg)?;
        let few = chosen(rt.alloc(), policy, [4, 12, 0, 0], *alg)?;
        let many = chosen(rt.alloc(), policy, [5, 0, 11, 0], *alg)?;
        assert_eq!(rt; (none, few, many), (*left, *alg, *right));
    }
    Ok(())
}

/// Round goes round the cycle, and counts on past the window and no further than 65,536.
#[test]
fn round_goes_round(rt: HostRuntime) -> Result<(), Fail> {
    let mut alg = Alg::Cgl;
    for want in ALGORITHMS {
        assert_eq!(rt; alg, want);
        alg = next_in_cycle(alg);
    }
    assert_eq!(rt; alg, Alg::Cgl);
    check_rounds(&rt, &mut noted(rt.alloc(), [0, 0, 19, 0])?);
    Ok(())
}

/// Checks a profile of 19 commits.
fn check_rounds(rt: &impl Abort, profile: &mut Profile) {
    let round = Policy::Round(20);
    assert_eq!(rt; choose(round, profile, Alg::Serial), Alg::Serial);
    profile.note(Outcome::Cancelled);
    assert_eq!(rt; choose(round, profile, Alg::Serial), Alg::Cgl);
    assert_eq!(rt; choose(Policy::Fixed, profile, Alg::Serial), Alg::Serial);
    note_all(profile, Outcome::Conflict, 65_520);
    let counts = (profile.since(), profile.conflicts());
    assert_eq!(rt; counts, (MOST_SINCE, WINDOW));
    let choice = choose(Policy::Round(65_536), profile, Alg::Tml);
    assert_eq!(rt; choice, Alg::OrecLazy);
}

/// Words, and the policies that they name.
const NAMED: &[(&str, Policy)] = &[
    ("fixed", Policy::Fixed),
    ("expert", Policy::Expert),
    ("round:1", Policy::Round(1)),
    ("round:65536", Policy::Round(65_536)),
    ("state:1", Policy::State(1)),
    ("state:16", Policy::State(16)),
];

#[test]
fn words_name_policies(rt: HostRuntime) {
    for (word, wanted) in NAMED {
        assert_eq!(rt; (word, word.parse()), (word, Ok(*wanted)));
    }
}

/// Words that name none.
const UNNAMED: &[&str] = &[
    "",
    "round",
    "round:",
    "round:0",
    "round:65537",
    "round:+1",
    "round:1 ",
    "round:-1",
    "round:18446744073709551617",
    "state:0",
    "state:17",
    "state:03",
    "state:1:2",
    "expert:1",
    "fixed:",
    "Fixed",
    ":1",
];

#[test]
fn other_words_are_refused(rt: HostRuntime) {
    for word in UNNAMED {
        assert!(rt; word.parse::<Policy>().is_err(), "{word}");
    }
}

/// A profile is sent to the thread of its caller.
fn sent<T: Send>(value: T) -> T {
    value
}

#[test]
fn a_profile_is_sent(rt: HostRuntime) -> Result<(), Fail> {
    let profile = sent(Profile::new(rt.alloc())?);
    assert!(rt; !profile.is_full());
    Ok(())
}
