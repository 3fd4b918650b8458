//! One operation over any access.
ghost use Rattle.std.specs.Prelude.{◌≡◌, ◌<◌, ◌^◌, ◌+◌, ◌%◌, slice_index, None, false, IfOk, OnOk, IfErr};
ghost use Rattle.stm_model.specs.Logs.{IsReadStop};
ghost use Rattle.data_effects.specs.Accesses.{HoldsFor, LeadsOn};
ghost use Rattle.data_regions.specs.Regions.{AllWellFormed};
ghost use Rattle.work_script.specs.Operations.{OpFits, is_irrev, is_cancel, OnlyReads, effect_of, stores, moves, replies};
ghost use Rattle.work_script.specs.Accesses.{DoesFor, OpKeepsGood};

use crate::laws::operations_keep_regions;
use crate::op::Op;
use crate::structures::run_on_structure;
use data_regions::region::Regions;
use stm_model::access::Access;
use stm_model::stop::Stop;

/// Runs one operation, any but `irrev` and `cancel`, and answers its reply, which is that of every good
/// memory that explains the log. What an `emit` emits is its reply.
///
/// # Errors
/// The Stop of the access, from then on in `stopped`. Never ClockFull where the operation only reads.
pub fn run_op<A: Access>(acc: &mut A, regions: &Regions, op: &Op) -> Result<u64, Stop>
    requires no_irrev { is_irrev op.now ≡ false }
    requires no_cancel { is_cancel op.now ≡ false }
    requires going { A.stopped acc.old ≡ None }
    requires within { OpFits regions.now (A.words acc.old) op.now }
    requires well { HoldsFor A.Access acc.old (AllWellFormed regions.now) }
    ensures reply { IfOk result (DoesFor A.Access acc.old acc.new (effect_of regions.now op.now)) }
    ensures range { IfOk result (λ r. r < 2 ^ 64) }
    ensures well { OnOk result (HoldsFor A.Access acc.new (AllWellFormed regions.now)) }
    // what the caller owes for a commit stays met where the operation keeps the rule on memories
    ensures keeps_rule { OnOk result (OpKeepsGood A.Access acc.old acc.new regions.now op.now) }
    ensures cause { OnlyReads op.now → IfErr result IsReadStop }
    ensures frame { LeadsOn A.Access acc.old acc.new result }
{
    operations_keep_regions();
    let reply = act(acc, regions, *op)?;
    Ok(reply)
}

/// The calls of the access that one operation makes.
fn act<A: Access>(acc: &mut A, regions: &Regions, op: Op) -> Result<u64, Stop>
    requires no_irrev { is_irrev op ≡ false }
    requires no_cancel { is_cancel op ≡ false }
    requires going { A.stopped acc.old ≡ None }
    requires within { OpFits regions.now (A.words acc.old) op }
    requires well { HoldsFor A.Access acc.old (AllWellFormed regions.now) }
    ensures reply { IfOk result (DoesFor A.Access acc.old acc.new (effect_of regions.now op)) }
    ensures range { IfOk result (λ r. r < 2 ^ 64) }
    ensures cause { OnlyReads op → IfErr result IsReadStop }
    ensures frame { LeadsOn A.Access acc.old acc.new result }
{
    match op {
        Op::Read(a) => read(acc, a),
        Op::Write(a, v) => write(acc, a, v),
        Op::Add(a, k) => add(acc, a, k),
        Op::Move(a, b, k) => move_between(acc, a, b, k),
        Op::Emit(a) => read(acc, a),
        Op::Irrev | Op::Cancel => unreachable!(),
        _ => run_on_structure(acc, regions, op),
    }
}

fn read<A: Access>(acc: &mut A, a: usize) -> Result<u64, Stop>
    requires going { A.stopped acc.old ≡ None }
    requires within { a < A.words acc.old }
    ensures reply { IfOk result
        (DoesFor A.Access acc.old acc.new (λ m. replies (slice_index m a) m)) }
    ensures range { IfOk result (λ r. r < 2 ^ 64) }
    ensures cause { IfErr result IsReadStop }
    ensures frame { LeadsOn A.Access acc.old acc.new result }
{
    let found = acc.read(a)?;
    Ok(found)
}

fn write<A: Access>(acc: &mut A, a: usize, v: u64) -> Result<u64, Stop>
    requires going { A.stopped acc.old ≡ None }
    requires within { a < A.words acc.old }
    ensures reply { IfOk result (DoesFor A.Access acc.old acc.new (stores a v)) }
    ensures range { IfOk result (λ r. r < 2 ^ 64) }
    ensures frame { LeadsOn A.Access acc.old acc.new result }
{
    acc.write(a, v)?;
    Ok(v)
}

fn add<A: Access>(acc: &mut A, a: usize, k: u64) -> Result<u64, Stop>
    requires going { A.stopped acc.old ≡ None }
    requires within { a < A.words acc.old }
    ensures reply { IfOk result
        (DoesFor A.Access acc.old acc.new (λ m. stores a ((slice_index m a + k) % 2 ^ 64) m)) }
    ensures range { IfOk result (λ r. r < 2 ^ 64) }
    ensures frame { LeadsOn A.Access acc.old acc.new result }
{
    let found = acc.read(a)?;
    let sum = found.wrapping_add(k);
    acc.write(a, sum)?;
    Ok(sum)
}

fn move_between<A: Access>(acc: &mut A, a: usize, b: usize, k: u64) -> Result<u64, Stop>
    requires going { A.stopped acc.old ≡ None }
    requires from { a < A.words acc.old }
    requires onto { b < A.words acc.old }
    ensures reply { IfOk result (DoesFor A.Access acc.old acc.new (moves a b k)) }
    ensures range { IfOk result (λ r. r < 2 ^ 64) }
    ensures frame { LeadsOn A.Access acc.old acc.new result }
{
    let found = acc.read(a)?;
    if found < k {
        return Ok(0);
    }
    acc.write(a, found - k)?;
    let other = acc.read(b)?;
    acc.write(b, other.wrapping_add(k))?;
    Ok(1)
}
