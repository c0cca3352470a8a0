//! One block, as the plain engine works on it.

ghost use Rattle.std.specs.Prelude.{ℕ};
ghost use Rattle.ublock.specs.Cipher.{block_length};
ghost use Rattle.plain.specs.Unpermuted.{block_of};
ghost use Rattle.plain.specs.Lawful.{one_lane_shape};

use crate::key_halves::KeyHalves;
use crate::rounds::{permuted, round, unpermuted, unround, xor};
use halves::Half;
use keyed::bundle::Bundle;
use words::pair::Pair;
use words::pieces::Pieces;

/// One block, in halves that are still to go through the byte permutations.
#[derive(Clone, Copy)]
pub struct Block<H> {
    pub halves: Pair<H>,
}

impl<H: Half> Bundle<KeyHalves<H>> for Block<H> {
    ghost layout = { H.layout };

    ghost lane_count = { 1 };

    ghost lane = { λ x i. block_of H.layout H.bytes x.halves };

    ghost published = { H.published };

    ghost shaped = { one_lane_shape H.layout H.published };

    fn block_len() -> usize {
        H::block_len()
    }

    fn lanes() -> usize {
        1
    }

    fn key(row: &KeyHalves<H>) -> Block<H> {
        Block {
            halves: row.halves(),
        }
    }

    fn xor(self, other: Block<H>) -> Block<H> {
        Block {
            halves: xor(self.halves, other.halves),
        }
    }

    fn round(self, key: Block<H>) -> Block<H> {
        Block {
            halves: round(self.halves, key.halves),
        }
    }

    fn unround(self, key: Block<H>) -> Block<H> {
        Block {
            halves: unround(self.halves, key.halves),
        }
    }

    // In a run of no block, any block stands for none.
    fn load(run: &[u8]) -> Option<Block<H>> {
        let none = [0; 32];
        let block = if run.is_empty() {
            &none[..H::block_len()]
        } else {
            run
        };
        Some(Block {
            halves: unpermuted(Pair::read(block)?),
        })
    }

    fn store(self, run: &mut [u8]) {
        permuted(self.halves).write(run);
    }
}
