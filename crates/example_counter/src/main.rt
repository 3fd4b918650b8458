//! The smallest program: four threads count to 4,000 in one place.
#![tactic(auto)]

use nekchhaul::{Alg, Layout, Update, sizes, with_transaction};

fn main(rt: HostRuntime) -> anyhow::Result<()> {
    let mut layout = Layout::new();
    let place = layout.place::<u64>();
    let sizes = sizes(layout.words(), 4);
    let by = |n: u64| n.wrapping_add(1);
    let add = Update { place, by };
    let came = with_transaction(&rt, rt.alloc(), sizes, Alg::OrecLazy, 1_000, add)?;
    println!(rt; "{}", place.value_in(&came.words))?;
    Ok(())
}
