//! Plays scripts of calls on one thread: reads them on standard input,
//! and writes each line with what its call answered.
//!
//! `memory WORDS RECORDS RING CALLERS READS WRITES CLOCK ALG` opens a memory that takes ranges out of the transactions,
//! under the algorithm of this name. Each line below it is a caller's number, one of the words of [`calls`], and that
//! word's numbers; or `learn`, and the number of the caller that tells. A line that begins with `#` and an empty one
//! are repeated as they are.
#![tactic(auto)]

mod calls;
mod scripts;

use scripts::Script;
use std::io;

fn main(rt: HostRuntime) -> io::Result<()> {
    let mut script = Script::new(rt.alloc());
    for line in rt.lines(rt.alloc()) {
        let line = line?;
        let answer = script.play(rt.alloc(), line.as_str())?;
        println!(rt; "{line}{answer}")?;
    }
    Ok(())
}
