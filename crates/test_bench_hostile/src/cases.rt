//! What `bench` comes to over any ends, and what several tests name.
use std::alloc::Global;
use std::sync::Wait;
use std::thread::Threads;
use work_bench::bench::bench;
use work_bench::status::Status;
use work_bench::{MemSource, Open, Sink, Source};

/// The clock's limit, 2^62.
pub(crate) const LIMIT: u64 = 4611686018427387904;

/// The names of the algorithms.
pub(crate) const NAMES: [&str; 6] = ["CGL", "TML", "OrecLazy", "OrecEager", "RingSW", "Serial"];

/// More bytes than any of these tests has written.
pub(crate) const ROOM: usize = 8192;

/// A source without bytes, of which no call fails.
pub(crate) fn nothing(alloc: Global) -> MemSource {
    MemSource::new(Vec::new(alloc), Vec::new(alloc))
}

/// The status that `bench` answers over these ends, and whether it leaves a closed memory.
pub(crate) fn status_over<R: Threads + Wait + Sync, S: Source, K: Sink>(
    rt: &R,
    alloc: Global,
    words: &[&str],
    source: &mut S,
    report: &mut S,
    sink: &mut K,
) -> (Status, bool) {
    let mut last = None;
    let status = bench(
        rt, alloc, words, source, report, sink, &Open, &mut last, &mut None,
    );
    (status, last.is_some())
}
