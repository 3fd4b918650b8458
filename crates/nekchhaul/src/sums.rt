//! A map with the sums of ranges of keys.
pub use data_sums::laws::{
    maps_are_apart, pairs_change, removals_stay_within, removals_take_the_key,
};
pub use data_sums::sum_map::{MapPut, SumMap};
