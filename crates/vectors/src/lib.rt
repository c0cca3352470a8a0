//! The steps of the round on four 64-bit words at a time: several halves side by side in a vector.

#![tactic(auto)]

pub mod circuit;
pub mod lanes;
pub mod rounds;
pub mod steps;
