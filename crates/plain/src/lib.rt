//! The plain engine: one block at a time, nibbles substituted by table.

#![tactic(auto)]

pub mod block;
pub mod key_halves;
mod rounds;

use block::Block;
use key_halves::KeyHalves;
use keyed::engine::Keyed;

/// The plain engine, for blocks of two such halves.
pub type Plain<H> = Keyed<Block<H>, KeyHalves<H>>;
