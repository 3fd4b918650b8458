//! Where a key is in a structure of linked cells, or would be.
ghost use Rattle.std.specs.Prelude.{◌≡◌};

/// A link, and the cell that it names.
#[derive(Clone, Copy, Drop, Debug, PartialEq, Eq)]
pub struct Position {
    /// The link's address.
    pub link: usize,
    /// The word there: 0, or the number of a cell, from 1.
    pub next: u64,
    /// That cell's tag, its key + 1; 0 where the link names none.
    pub tag: u64,
}
