//! A memory of three callers, for the calls that a `CheckedCaller` makes several of in one, or none.
ghost use Rattle.std.specs.Prelude.{◌≡◌, IfSome};
ghost use Rattle.stm_rule.specs.Callers.{AllOpened};
ghost use Rattle.perf_steps.specs.Fresh.{IsFresh};

use std::alloc::Global;
use stm_tx::{AnyMem, Config, Desc, Stm};

#[derive(Drop)]
pub struct Opened {
    pub stm: Stm<AnyMem>,
    pub first: Desc<AnyMem>,
    pub second: Desc<AnyMem>,
    pub third: Desc<AnyMem>,
}

/// The descriptors of its callers.
#[derive(Drop)]
struct Three {
    first: Desc<AnyMem>,
    second: Desc<AnyMem>,
    third: Desc<AnyMem>,
}

/// Opens a memory; None where it has fewer callers, or no memory is found.
pub fn open(alloc: Global, config: Config) -> Option<Opened>
    ensures config { IfSome result (λ o. o.stm.config ≡ config) }
    ensures fresh { IfSome result (λ o.
        IsFresh o.stm o.first × IsFresh o.stm o.second × IsFresh o.stm o.third) }
{
    let Ok((stm, descs)) = Stm::new(alloc, config, AnyMem) else {
        return None;
    };
    let Three {
        first,
        second,
        third,
    } = last_three(&stm, descs)?;
    Some(Opened {
        stm,
        first,
        second,
        third,
    })
}

/// The last three descriptors of a new memory; None where it has fewer.
fn last_three(stm: &Stm<AnyMem>, mut descs: Vec<Desc<AnyMem>>) -> Option<Three>
    requires { AllOpened stm.now 0 descs.items }
    ensures { IfSome result (λ t.
        IsFresh stm.now t.first × IsFresh stm.now t.second × IsFresh stm.now t.third) }
{
    let third = descs.pop()?;
    let second = descs.pop()?;
    let first = descs.pop()?;
    Some(Three {
        first,
        second,
        third,
    })
}
