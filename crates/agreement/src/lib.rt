//! Recorder and bench: lists of calls played on a log, and what every such list leaves on both machines.

#![tactic(auto)]

pub mod agree;
pub mod play;
