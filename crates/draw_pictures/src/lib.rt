//! Pictures of schedules: the rows that the lines of a trace make, the page of a part of them, and its text as an SVG.
#![tactic(auto)]

pub mod kind;
pub mod label;
pub mod laws;
pub mod page;
pub mod part;
pub mod picture;
pub mod row;
pub mod shape;
pub mod shown;
pub mod standing;
pub mod step;
mod style;
mod writing;
