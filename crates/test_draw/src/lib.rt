//! Tests of draw_pictures and draw_core: texts of each form, each way a call ends, and the pictures of docs/pictures.
#![tactic(auto)]

#[cfg(test)]
mod draw_core_tests;
#[cfg(test)]
mod picture_tests;
