//! The memory rule that the structures of a list of regions are well formed.
pub use data_regions::laws::memories_stay_good;
pub use data_regions::region::{Region, Regions, Structure};
