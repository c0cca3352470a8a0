//! The packed engine: four blocks of 16 bytes or two of 32 at once, sixteen nibbles in each 64-bit word.

#![tactic(auto)]

pub mod arrangement;
pub mod blocks;
pub mod word_bytes;
pub mod word_row;

use blocks::Blocks;
use keyed::engine::Keyed;
use word_row::WordRow;

/// The packed engine, for blocks of two such halves.
pub type Packed<H> = Keyed<Blocks<H>, WordRow>;
