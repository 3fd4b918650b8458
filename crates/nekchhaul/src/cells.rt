//! A counter, a sorted list and a hash set.
pub use data_cells::counter::Counter;
pub use data_cells::hash::Hash;
pub use data_cells::laws::{chains_are_apart, contents_change};
pub use data_cells::list::List;
pub use data_effects::insert::Insert;
