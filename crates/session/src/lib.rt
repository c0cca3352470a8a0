//! A session of the bench program: it keeps one log and answers each line of the protocol.

#![tactic(auto)]

mod any_log;
mod begin;
mod commands;
mod fault;
mod page;
pub mod session;
