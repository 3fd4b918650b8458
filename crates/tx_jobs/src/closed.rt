//! What came of a memory.

/// A closed memory: its words, what each caller answered, in the callers' order, and what tells of its past.
#[derive(Drop)]
pub struct ClosedMemory<V, P> {
    pub words: Vec<u64>,
    pub answers: Vec<V>,
    pub past: P,
}
