//! What no clause says: that a memory is opened and closed at all, and which number is refused first.
ghost use Rattle.std.specs.Prelude.{◌≡◌};
ghost use Rattle.rule_base.specs.declared.views.Phase.TheVariants.{Idle};
ghost use Rattle.stm_rule.specs.Callers.{IsOf};

use rule_base::laws::models_agree;
use rule_seq::laws::{cgl_commits, cgl_keeps_along, cgl_opens};
use std::alloc::Global;
use std::test::Fail;
use stm_model::config::{CLOCK_LIMIT, Config};
use stm_model::rule::AnyMem;
use stm_rule::closing::close;
use stm_rule::desc::Desc;
use stm_rule::laws::{
    core_checks, core_commits, core_installs, core_keeps_along, core_opens, core_promotes,
    core_records, core_rings, core_stamps, one_irrevocable, quiet_is_rest,
};
use stm_rule::refusal::NewError;
use stm_rule::stm::Stm;

const SMALL: Config = Config {
    words: 8,
    records: 4,
    ring: 4,
    callers: 1,
    reads: 256,
    writes: 256,
    clock: 0,
    fence: false,
    marks: 8,
};

/// What refuses a configuration, if anything does.
fn refusal(alloc: Global, config: Config) -> Option<NewError> {
    match Stm::new(alloc, config, AnyMem) {
        Ok((_stm, _descs)) => None,
        Err(error) => Some(error),
    }
}

/// Opens a memory and closes it again; where closing is refused for memory, once more.
fn open_and_close(alloc: Global, config: Config) -> Result<Vec<u64>, NewError> {
    let (stm, descs) = Stm::new(alloc, config, AnyMem)?;
    let (words, closed) = match close(alloc, stm, descs) {
        Ok(ended) => ended,
        Err((stm, descs, _memory)) => match close(alloc, stm, descs) {
            Ok(ended) => ended,
            Err((_stm, _descs, _memory)) => return Err(NewError::Memory),
        },
    };
    let _closed = cross(&config.words, closed);
    Ok(words)
}

/// A memory is shared between threads; descriptors, notes and the evidence of a closing are sent.
fn cross<S: Sync, T: Send>(shared: &S, sent: T) -> T
    ensures { result ≡ sent }
{
    let _ = shared;
    sent
}

/// Caller 0 tells, and caller 1 learns. Answers their numbers.
fn tells(stm: &Stm<AnyMem>, first: &mut Desc<AnyMem>, second: &mut Desc<AnyMem>) -> (usize, usize)
    requires first { IsOf first.old stm.now }
    requires second { IsOf second.old stm.now }
    requires idle { (first.old.view.gate.phase ≡ Idle) × (second.old.view.gate.phase ≡ Idle) }
{
    let note = cross(stm, first.tell(stm));
    let second = cross(stm, second);
    second.learn(stm, note);
    (first.number, second.number)
}

/// The same in a memory of two callers.
fn tell_and_learn(alloc: Global) -> Result<Option<(usize, usize)>, NewError> {
    let config = Config {
        callers: 2,
        ..SMALL
    };
    let (stm, mut descs) = Stm::new(alloc, config, AnyMem)?;
    let Some(mut second) = descs.pop() else {
        return Ok(None);
    };
    let Some(mut first) = descs.pop() else {
        return Ok(None);
    };
    Ok(Some(tells(&stm, &mut first, &mut second)))
}

/// Configurations with one number or more out of its range, and the one that is named.
const REFUSED: &[(Config, NewError)] = &[
    (
        Config {
            words: 0,
            records: 0,
            ..SMALL
        },
        NewError::Words,
    ),
    (
        Config {
            words: 4_294_967_297,
            ..SMALL
        },
        NewError::Words,
    ),
    (
        Config {
            records: 0,
            ring: 1,
            ..SMALL
        },
        NewError::Records,
    ),
    (
        Config {
            records: 16_777_217,
            ..SMALL
        },
        NewError::Records,
    ),
    (Config { ring: 1, ..SMALL }, NewError::Ring),
    (
        Config {
            ring: 4_097,
            callers: 0,
            ..SMALL
        },
        NewError::Ring,
    ),
    (
        Config {
            callers: 0,
            reads: 0,
            ..SMALL
        },
        NewError::Callers,
    ),
    (
        Config {
            callers: 255,
            ..SMALL
        },
        NewError::Callers,
    ),
    (Config { reads: 0, ..SMALL }, NewError::Logs),
    (
        Config {
            writes: 1_048_577,
            clock: CLOCK_LIMIT + 1,
            ..SMALL
        },
        NewError::Logs,
    ),
    (
        Config {
            clock: CLOCK_LIMIT + 1,
            marks: 9,
            ..SMALL
        },
        NewError::Clock,
    ),
    (Config { marks: 9, ..SMALL }, NewError::Marks),
];

#[test]
fn the_first_number_out_of_range_is_refused(rt: HostRuntime) {
    for (config, error) in REFUSED {
        assert_eq!(rt; refusal(rt.alloc(), *config), Some(*error));
    }
}

#[test]
fn an_attempt_may_have_no_mark_or_up_to_eight(rt: HostRuntime) {
    for marks in [0, 1, 8] {
        assert_eq!(rt; refusal(rt.alloc(), Config { marks, ..SMALL }), None);
    }
}

#[test]
fn a_clock_may_open_at_its_limit(rt: HostRuntime) {
    let config = Config {
        clock: CLOCK_LIMIT,
        ..SMALL
    };
    assert_eq!(rt; refusal(rt.alloc(), config), None);
}

#[test]
fn a_memory_opens_and_closes(rt: HostRuntime) -> Result<(), Fail> {
    let words = open_and_close(rt.alloc(), SMALL)?;
    assert_eq!(rt; words.as_slice(), [0; 8].as_slice());
    assert_eq!(rt; tell_and_learn(rt.alloc()), Ok(Some((0, 1))));
    let words = open_and_close(
        rt.alloc(),
        Config {
            callers: 32,
            words: 1,
            ..SMALL
        },
    )?;
    assert_eq!(rt; words.as_slice(), [0].as_slice());
    Ok(())
}

#[test]
fn the_laws_are_of_every_rule() {
    models_agree::<AnyMem>();
    cgl_keeps_along::<AnyMem>();
    cgl_opens::<AnyMem>();
    cgl_commits::<AnyMem>();
    core_keeps_along::<AnyMem>();
    core_opens::<AnyMem>();
    core_commits::<AnyMem>();
    quiet_is_rest::<AnyMem>();
    core_installs::<AnyMem>();
    one_irrevocable::<AnyMem>();
    core_promotes::<AnyMem>();
    core_rings::<AnyMem>();
    core_checks::<AnyMem>();
    core_records::<AnyMem>();
    core_stamps::<AnyMem>();
}
