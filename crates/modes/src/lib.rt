//! Modes of operation over any engine: how a row of readings is sealed block by block, and opened.

#![tactic(auto)]

pub mod cbc;
pub mod ecb;
pub mod kept_block;
mod masks;
pub mod mode;
pub mod sealer;
pub mod standard;
