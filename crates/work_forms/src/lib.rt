//! The forms of a workload's lines: which may stand at a place, as far as the text above tells, and the words of a
//! line.
#![tactic(auto)]

pub mod form;
pub mod known;
pub mod letters;
pub mod offer;
pub mod shown;
pub mod spot;
pub mod words;
