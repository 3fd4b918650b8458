//! What an insert did.
ghost use Rattle.std.specs.Prelude.{◌≡◌};

/// What an insert did.
#[derive(Clone, Copy, Drop, Debug, PartialEq, Eq)]
pub enum Insert {
    /// The key was absent, and has a cell now.
    Added,
    /// The key was there; nothing changed.
    Present,
    /// The key is absent, and no cell is free; nothing changed.
    NoRoom,
}
