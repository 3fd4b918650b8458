//! Adaptivity: what a caller's last attempts came to, and the algorithm that a policy chooses by it. After
//! Spear, "Lightweight, Robust Adaptivity for Software Transactional Memory" (2010).
#![tactic(auto)]

pub mod choosing;
pub mod laws;
pub mod numbers;
pub mod outcome;
pub mod policy;
pub mod profile;
