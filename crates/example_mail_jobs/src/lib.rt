//! Two producers post messages, urgent ones and others. Two consumers receive them, an urgent one before the others, or
//! wait for one. Each caller is on a thread of its own. It stands on no engine: `example_mail` runs it.
#![tactic(auto)]

pub mod clerks;
pub mod day;
