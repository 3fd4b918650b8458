//! A transaction of one's own: four threads count to 4,000 in one word.
#![tactic(auto)]

use nekchhaul::{Access, Alg, AnyMem, Stop, Transaction, sizes, with_transaction};

/// A transaction: one more in word 0.
#[derive(Drop)]
struct Add;

impl Transaction<AnyMem> for Add {
    type Output = u64;

    fn run<A: Access>(&self, _: &AnyMem, memory: &mut A) -> Result<u64, Stop> {
        let count = memory.read(0)?;
        memory.write(0, count.wrapping_add(1))?;
        Ok(count)
    }
}

fn main(rt: HostRuntime) -> anyhow::Result<()> {
    let came = with_transaction(&rt, rt.alloc(), sizes(1, 4), Alg::OrecLazy, 1_000, Add)?;
    println!(rt; "{}", came.words[0])?;
    Ok(())
}
