//! Tests of `bench` and of the parser: texts that are damaged or drawn at random have the first fault that a slow
//! reading of the grammar finds.
#![tactic(auto)]

#[cfg(test)]
mod damage_tests;
#[cfg(test)]
mod plain_grammar;
#[cfg(test)]
mod random_tests;
