//! Where a test stops an attempt right before it commits.

/// Called once an attempt, right before its first `commit` call, with the caller and how many transactions
/// of that caller stand before this one. It tells the run nothing.
pub trait Turnstile {
    fn pass(&self, caller: usize, seq: usize);
}

/// Passes at once.
#[derive(Clone, Copy, Drop)]
pub struct Open;

impl Turnstile for Open {
    fn pass(&self, _caller: usize, _seq: usize) {}
}
