//! Whole pages sealed and opened by a variant's number, in either standard mode and with either engine.

#![tactic(auto)]

pub mod setup;
