//! Lines: an input that comes in chunks, cut into lines in a buffer that does not grow.

#![tactic(auto)]

mod buffer;
pub mod splitter;
