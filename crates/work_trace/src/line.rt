//! A line of a trace.
use crate::said::Said;

#[derive(Clone, Copy, Drop, Debug, PartialEq, Eq)]
pub enum Line {
    /// A turn of a caller.
    Of { caller: usize, said: Said },
    /// The schedule is over.
    Finish,
}
