//! Answering: an input is read in chunks, and each of its lines answered.

#![tactic(auto)]

pub mod input;
mod writing;
