//! The block cipher uBlock: its definitions and laws (specs/), its tables and its variants.

#![tactic(auto)]

pub mod laws;
pub mod tables;
pub mod variant;
