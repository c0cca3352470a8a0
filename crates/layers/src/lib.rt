//! Layers over an engine: each is an engine again, and so is any stack of them.

#![tactic(auto)]

pub mod cascade;
pub mod fixed;
pub mod whitening;
