//! The key schedule: the key register, from which all round keys of the three variants come.

#![tactic(auto)]

pub mod register;
pub mod row;
