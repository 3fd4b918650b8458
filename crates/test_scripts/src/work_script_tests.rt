//! What scripts reply and emit over two words, and which words of a memory are told.
ghost use Rattle.std.specs.Prelude.{[]};
ghost use Rattle.work_script.specs.Operations.{ScriptFits};

use data_regions::region::Regions;
use smallvec::SmallVec;
use std::alloc::Global;
use std::process::Abort;
use std::test::Fail;
use stm_model::plain::{Plain, PlainWord};
use stm_model::rule::AnyMem;
use work_script::interpret::interpret;
use work_script::laws::report_replays;
use work_script::lists::{Script, Words};
use work_script::op::Op;
use work_script::pairs::pairs;
use work_script::replies::Replies;
use work_script::report::Kind;

/// What the script replies and emits over the words 5 and 2^64 - 1.
fn outputs(alloc: Global, script: &Script, kind: Kind) -> Result<(Words, Words), Fail>
    requires { ScriptFits [] 2 script.now }
{
    let five = PlainWord {
        opening: 5,
        own: None,
    };
    let most = PlainWord {
        opening: u64::MAX,
        own: None,
    };
    let mut plain = Plain::new(vec![in alloc; five, most]?);
    let mut out = Replies::new(alloc, script.as_slice().len())?;
    interpret(&mut plain, &Regions::none(alloc), script, kind, &mut out)?;
    Ok(out.into_words())
}

fn check_outputs(
    rt: &impl Abort,
    alloc: Global,
    ops: &[Op],
    kind: Kind,
    replies: &[u64],
    emits: &[u64],
) -> Result<(), Fail>
    requires { ScriptFits [] 2 ops.now }
{
    let script = Script::new(SmallVec::from_slice(alloc, ops)?);
    let (replied, emitted) = outputs(alloc, &script, kind)?;
    let both = (replied.as_slice(), emitted.as_slice());
    assert_eq!(rt; (kind, both), (kind, (replies, emits)));
    Ok(())
}

#[test]
fn replies_by_kind(rt: HostRuntime) -> Result<(), Fail> {
    let ops = [Op::Write(0, 7), Op::Add(1, 2), Op::Cancel, Op::Read(0)];
    check_outputs(&rt, rt.alloc(), &ops, Kind::W, &[7, 1, 0, 7], &[])?;
    check_outputs(&rt, rt.alloc(), &ops, Kind::C, &[7, 1, 1], &[])?;
    let ops = [Op::Read(1), Op::Cancel];
    check_outputs(&rt, rt.alloc(), &ops, Kind::R, &[u64::MAX, 0], &[])
}

#[test]
fn moves_where_there_is_enough(rt: HostRuntime) -> Result<(), Fail> {
    let apart = [
        Op::Move(0, 1, 6),
        Op::Read(0),
        Op::Move(0, 1, 5),
        Op::Read(0),
        Op::Read(1),
    ];
    check_outputs(&rt, rt.alloc(), &apart, Kind::W, &[0, 5, 1, 0, 4], &[])?;
    let same = [Op::Move(0, 0, 3), Op::Read(0), Op::Move(0, 0, 9)];
    check_outputs(&rt, rt.alloc(), &same, Kind::W, &[1, 5, 0], &[])
}

#[test]
fn emits_after_an_irrev(rt: HostRuntime) -> Result<(), Fail> {
    let ops = [
        Op::Write(0, 7),
        Op::Irrev,
        Op::Emit(0),
        Op::Cancel,
        Op::Emit(1),
    ];
    check_outputs(
        &rt,
        rt.alloc(),
        &ops,
        Kind::W,
        &[7, 1, 7, 0, u64::MAX],
        &[7, u64::MAX],
    )?;
    check_outputs(&rt, rt.alloc(), &ops, Kind::C, &[7, 1, 7, 1], &[7])?;
    let ops = [Op::Read(0), Op::Irrev];
    check_outputs(&rt, rt.alloc(), &ops, Kind::C, &[5, 1], &[])
}

#[test]
fn names_operations(rt: HostRuntime) {
    assert_eq!(rt; Op::Move(0, 1, 2).name(), "move");
    assert_eq!(rt; Op::Emit(0).name(), "emit");
    assert_eq!(rt; Op::Irrev.name(), "irrev");
    assert_eq!(rt; Op::Cancel.name(), "cancel");
}

#[test]
fn leaves_zeros_out(rt: HostRuntime) -> Result<(), Fail> {
    let found = pairs(rt.alloc(), &[0, 7, 0, u64::MAX])?;
    assert_eq!(rt; found.as_slice(), [(1, 7), (3, u64::MAX)].as_slice());
    let found = pairs(rt.alloc(), &[0])?;
    assert_eq!(rt; found.as_slice().len(), 0);
    Ok(())
}

#[test]
fn holds_for_any_memory() {
    report_replays(&AnyMem);
}
