//! A plain memory commits and cancels, through the bound of an access.
ghost use Rattle.std.specs.Prelude.{◌≡◌, ◌<◌, None, IfErr, length};

use std::process::Abort;
use std::test::Fail;
use stm_model::access::Access;
use stm_model::plain::{Plain, PlainWord};
use stm_model::stop::Stop;

/// Adds what stands at 0 to the word at 1, through the bound.
fn carry<A: Access>(acc: &mut A) -> Result<u64, Stop>
    requires going { A.stopped acc.old ≡ None }
    requires within { 1 < A.words acc.old }
    ensures stops { IfErr result (λ s. A.stopped acc.new ≡ Some s) }
    ensures words { A.words acc.new ≡ A.words acc.old }
{
    let low = acc.read(0)?;
    let high = acc.read(1)?;
    acc.write(1, low.wrapping_add(high))?;
    acc.read(1)
}

/// Carries once in vain and once to stay.
fn carry_twice(rt: &impl Abort, plain: &mut Plain)
    requires two { length plain.old ≡ 2 }
{
    assert_eq!(rt; plain.settle(), false);
    assert_eq!(rt; carry(plain), Ok(4));
    plain.forget();
    assert_eq!(rt; second(plain), Some(u64::MAX));
    assert_eq!(rt; carry(plain), Ok(4));
    assert_eq!(rt; plain.settle(), true);
    assert_eq!(rt; second(plain), Some(4));
}

/// What the word at 1 was opened with, where there are two words and nothing has been written there.
fn second(plain: &Plain) -> Option<u64> {
    match plain.words() {
        [_, PlainWord { opening, own: None }] => Some(*opening),
        _ => None,
    }
}

#[test]
fn commits_and_cancels(rt: HostRuntime) -> Result<(), Fail> {
    let five = PlainWord {
        opening: 5,
        own: None,
    };
    let most = PlainWord {
        opening: u64::MAX,
        own: None,
    };
    let mut plain = Plain::new(vec![in rt.alloc(); five, most]?);
    assert_eq!(rt; plain.words().len(), 2);
    carry_twice(&rt, &mut plain);
    Ok(())
}
