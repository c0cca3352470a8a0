//! Engines: keyed permutations of blocks of 16 or 32 bytes, behind one interface.

#![tactic(auto)]

pub mod addition;
pub mod engine;
pub mod rows;
