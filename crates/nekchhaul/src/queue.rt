//! A queue of values, first in, first out.
pub use data_queue::laws::{contents_change, queues_are_apart};
pub use data_queue::queue::{Put, Queue};
