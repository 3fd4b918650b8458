//! Tests of ranges out of the transactions, with four callers on threads: one takes a range again and again, puts it in
//! order in place and gives it back, while three move money beside it and look at all that they may read.
#![tactic(auto)]

#[cfg(test)]
mod counts;
#[cfg(test)]
mod moving;
#[cfg(test)]
mod range_tests;
#[cfg(test)]
mod sorting;
