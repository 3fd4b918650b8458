//! Closed nesting over any access: a part of a transaction that may give way, and a part that is done in the place of
//! another. What a part writes lies apart until it is kept, so it means the same under each algorithm, and in an
//! attempt that can't be rolled back.
#![tactic(auto)]

pub mod lent;
pub mod nesting;
pub mod or_else;
pub mod overlay;
pub mod part;
pub mod then;
pub mod whole;
pub mod wholly;
