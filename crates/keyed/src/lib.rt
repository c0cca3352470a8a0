//! An engine over bundles of blocks: what the plain and the packed engine have in common.

#![tactic(auto)]

pub mod bundle;
pub mod engine;
pub mod key_row;
