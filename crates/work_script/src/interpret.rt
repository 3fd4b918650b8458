//! Scripts over any access.
ghost use Rattle.std.specs.Prelude.{◌≡◌, ◌<◌, ◌≤◌, ◌+◌, ℕ, None, Some, All, IfOk, OnOk, IfErr, length, ltb, take};
ghost use Rattle.stm_model.specs.Logs.{SameMemories, IsReadStop};
ghost use Rattle.data_effects.specs.Accesses.{ExplainedFor, HoldsFor};
ghost use Rattle.data_regions.specs.Regions.{AllWellFormed};
ghost use Rattle.work_script.specs.Operations.{OpFits, ScriptFits, OnlyReads};
ghost use Rattle.work_script.specs.Scripts.{run, before_cancel, has_cancel, up_to_end, ran_to_end};
ghost use Rattle.work_script.specs.ScriptLaws.{ran_one};
ghost use Rattle.work_script.specs.Accesses.{GaveFor, GaveUpFor, ScriptKeepsGood};
ghost use Rattle.work_script.specs.Outputs.{HasRoom, with_reply};

use crate::lists::Script;
use crate::op::Op;
use crate::operation::run_op;
use crate::replies::Replies;
use crate::report::Kind;
use data_regions::region::Regions;
use stm_model::access::Access;
use stm_model::stop::Stop;

/// Runs one operation, and adds its reply and what it emits to `out`. A cancel replies 0 and does nothing,
/// as in a transaction that commits; an irrev replies 1 and does nothing: it is for the caller to ask.
///
/// # Errors
/// The Stop of the access, from then on in `stopped`. `out` is then as it was.
pub fn perform<A: Access>(
    acc: &mut A,
    regions: &Regions,
    op: &Op,
    out: &mut Replies,
) -> Result<u64, Stop>
    requires going { A.stopped acc.old ≡ None }
    requires within { OpFits regions.now (A.words acc.old) op.now }
    requires well { HoldsFor A.Access acc.old (AllWellFormed regions.now) }
    requires room { HasRoom out.old 1 }
    ensures gave { OnOk result
        (GaveFor A.Access acc.old acc.new (ran_one regions.now op.now) out.old out.new) }
    ensures told { IfOk result (λ r. out.new ≡ with_reply out.old op.now r) }
    ensures untold { IfErr result (λ s. out.new ≡ out.old) }
    ensures explained { OnOk result
        (ExplainedFor A.Access acc.old → ExplainedFor A.Access acc.new) }
    ensures well { OnOk result (HoldsFor A.Access acc.new (AllWellFormed regions.now)) }
    ensures kept_room { out.new.room ≡ out.old.room }
    ensures goes { OnOk result (A.stopped acc.new ≡ None) }
    ensures stops { IfErr result (λ s. A.stopped acc.new ≡ Some s) }
    ensures cause { OnlyReads op.now → IfErr result IsReadStop }
    ensures good { SameMemories (A.good acc.old) (A.good acc.new) }
    ensures words { A.words acc.new ≡ A.words acc.old }
    ensures keeps { A.keeps acc.old acc.new }
{
    let reply = match op {
        Op::Cancel => 0,
        Op::Irrev => 1,
        _ => run_op(acc, regions, op)?,
    };
    out.add(op, reply);
    Ok(reply)
}

/// Runs the operations in order, each as in a transaction that commits.
fn perform_all<A: Access>(
    acc: &mut A,
    regions: &Regions,
    ops: &[Op],
    out: &mut Replies,
) -> Result<(), Stop>
    requires going { A.stopped acc.old ≡ None }
    requires within { ScriptFits regions.now (A.words acc.old) ops.now }
    requires well { HoldsFor A.Access acc.old (AllWellFormed regions.now) }
    requires room { HasRoom out.old (length ops.now) }
    ensures gave { OnOk result
        (GaveFor A.Access acc.old acc.new (run regions.now ops.now) out.old out.new) }
    ensures gave_up_to { IfErr result (λ s.
        GaveUpFor A.Access acc.old regions.now ops.now out.old out.new) }
    ensures explained { OnOk result
        (ExplainedFor A.Access acc.old → ExplainedFor A.Access acc.new) }
    ensures keeps_rule { OnOk result
        (ScriptKeepsGood A.Access acc.old acc.new regions.now ops.now) }
    ensures well { OnOk result (HoldsFor A.Access acc.new (AllWellFormed regions.now)) }
    ensures kept_room { out.new.room ≡ out.old.room }
    ensures room { OnOk result
        ((n : ℕ) → HasRoom out.old (length ops.now + n) → HasRoom out.new n) }
    ensures goes { OnOk result (A.stopped acc.new ≡ None) }
    ensures stops { IfErr result (λ s. A.stopped acc.new ≡ Some s) }
    ensures cause { All OnlyReads ops.now → IfErr result IsReadStop }
    ensures good { SameMemories (A.good acc.old) (A.good acc.new) }
    ensures words { A.words acc.new ≡ A.words acc.old }
    ensures keeps { A.keeps acc.old acc.new }
{
    for op in ops {
        perform(acc, regions, op, out)?;
    }
    Ok(())
}

/// How many operations stand before the first cancel: all where there is none.
fn first_cancel(ops: &[Op]) -> usize
    ensures before { take result ops.now ≡ before_cancel ops.now }
    ensures within { result ≤ length ops.now }
    ensures found { ltb result (length ops.now) ≡ has_cancel ops.now }
{
    let mut end = 0;
    for op in ops {
        if op.is_cancel() {
            return end;
        }
        end += 1;
    }
    end
}

/// Runs a script to the end that a transaction of this kind comes to: all operations for W and R, and
/// for C those up to the first cancel, which replies 1; what was written before it is for the caller to
/// cancel. Replies and emits are added to `out`.
///
/// # Errors
/// The Stop of the access, from then on in `stopped`; never ClockFull where every operation only reads.
/// `out` has then gained the replies and emits of the operations before the one that was stopped.
pub fn interpret<A: Access>(
    acc: &mut A,
    regions: &Regions,
    script: &Script,
    kind: Kind,
    out: &mut Replies,
) -> Result<(), Stop>
    requires going { A.stopped acc.old ≡ None }
    requires within { ScriptFits regions.now (A.words acc.old) script.now }
    requires well { HoldsFor A.Access acc.old (AllWellFormed regions.now) }
    requires room { HasRoom out.old (length script.now) }
    ensures gave { OnOk result (GaveFor A.Access acc.old acc.new
        (ran_to_end regions.now kind script.now) out.old out.new) }
    ensures gave_up_to { IfErr result (λ s.
        GaveUpFor A.Access acc.old regions.now (up_to_end kind script.now) out.old out.new) }
    ensures explained { OnOk result
        (ExplainedFor A.Access acc.old → ExplainedFor A.Access acc.new) }
    // what the caller owes for a commit stays met where each operation keeps the rule on memories
    ensures keeps_rule { OnOk result
        (ScriptKeepsGood A.Access acc.old acc.new regions.now script.now) }
    ensures well { OnOk result (HoldsFor A.Access acc.new (AllWellFormed regions.now)) }
    ensures kept_room { out.new.room ≡ out.old.room }
    ensures goes { OnOk result (A.stopped acc.new ≡ None) }
    ensures stops { IfErr result (λ s. A.stopped acc.new ≡ Some s) }
    ensures cause { All OnlyReads script.now → IfErr result IsReadStop }
    ensures good { SameMemories (A.good acc.old) (A.good acc.new) }
    ensures words { A.words acc.new ≡ A.words acc.old }
    ensures keeps { A.keeps acc.old acc.new }
{
    let ops = script.as_slice();
    match kind {
        Kind::W | Kind::R => perform_all(acc, regions, ops, out),
        Kind::C => {
            let end = first_cancel(ops);
            perform_all(acc, regions, &ops[..end], out)?;
            if end == ops.len() {
                return Ok(());
            }
            out.reply(1);
            Ok(())
        }
    }
}
