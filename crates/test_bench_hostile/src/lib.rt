//! What `bench` comes to on its worst day: ends that fail, clocks at their limit, rings that are overrun, schedules
//! that are cut off. Nothing but tests, a table each.
#![tactic(auto)]

#[cfg(test)]
mod cases;
#[cfg(test)]
mod clock_tests;
#[cfg(test)]
mod cut_tests;
#[cfg(test)]
mod end_tests;
#[cfg(test)]
mod ends;
#[cfg(test)]
mod overrun_tests;
