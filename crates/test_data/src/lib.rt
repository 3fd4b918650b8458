//! Tests over a plain memory: data_places, data_layout, data_queue, data_sums, data_regions, the words of
//! tx_transaction.
#![tactic(auto)]

#[cfg(test)]
mod data_places_tests;
#[cfg(test)]
mod data_queue_tests;
#[cfg(test)]
mod data_regions_tests;
#[cfg(test)]
mod data_sums_tests;
#[cfg(test)]
mod shared;
#[cfg(test)]
mod tx_transaction_tests;
