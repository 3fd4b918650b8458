//! A set of keys in a binary search tree.
pub use data_effects::insert::Insert;
pub use data_tree::laws::{keys_change, trees_are_apart};
pub use data_tree::tree::Tree;
