//! Rows of bytes in pieces of four, and what the round does to each piece by itself.

#![tactic(auto)]

pub mod pair;
pub mod pieces;
pub mod word;
