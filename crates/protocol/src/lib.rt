//! What a line to the bench program says, and how its answers are written.

#![tactic(auto)]

pub mod byte_field;
pub mod command;
mod fields;
pub mod line;
pub mod reply;
#[cfg(test)]
mod tests;
