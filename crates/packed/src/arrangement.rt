//! How the words of blocks lie in the two vectors of their halves.

ghost use Rattle.std.specs.Prelude.{◌≡◌, ℕ, ◌<◌, take};
ghost use Rattle.ublock.specs.Cipher.{block_length};
ghost use Rattle.ublock.specs.Parts.{part};
ghost use Rattle.vectors.specs.Vectors.{vector_bytes, block_at};

use halves::{Narrow, Wide};
use std::simd::prelude::*;
use std::simd::u64x4;
use vectors::lanes::Lanes;

/// Halves of blocks, as the words of a run and of a round key make them.
pub trait Arrangement: Lanes {
    /// The left and the right halves of the blocks that eight words are.
    fn halves_of(words: [u64; 8]) -> (u64x4, u64x4)
        ensures { (i : ℕ) → i < Self.lane_count → block_at Self.layout.half i result.0 result.1 ≡ part (block_length Self.layout) i (vector_bytes words) };

    /// The eight words of the blocks with these halves.
    fn words_of(left: u64x4, right: u64x4) -> [u64; 8]
        ensures { (i : ℕ) → i < Self.lane_count → part (block_length Self.layout) i (vector_bytes result) ≡ block_at Self.layout.half i left right };

    /// The halves of the block at the front of four words, in every lane.
    fn spread(words: [u64; 4]) -> (u64x4, u64x4)
        ensures { (i : ℕ) → i < Self.lane_count → block_at Self.layout.half i result.0 result.1 ≡ take (block_length Self.layout) (vector_bytes words) };
}

impl Arrangement for Narrow {
    fn halves_of(w: [u64; 8]) -> (u64x4, u64x4) {
        (
            u64x4::from_array([w[0], w[2], w[4], w[6]]),
            u64x4::from_array([w[1], w[3], w[5], w[7]]),
        )
    }

    fn words_of(left: u64x4, right: u64x4) -> [u64; 8] {
        let l = left.to_array();
        let r = right.to_array();
        [l[0], r[0], l[1], r[1], l[2], r[2], l[3], r[3]]
    }

    fn spread(w: [u64; 4]) -> (u64x4, u64x4) {
        (u64x4::splat(w[0]), u64x4::splat(w[1]))
    }
}

impl Arrangement for Wide {
    fn halves_of(w: [u64; 8]) -> (u64x4, u64x4) {
        (
            u64x4::from_array([w[0], w[1], w[4], w[5]]),
            u64x4::from_array([w[2], w[3], w[6], w[7]]),
        )
    }

    fn words_of(left: u64x4, right: u64x4) -> [u64; 8] {
        let l = left.to_array();
        let r = right.to_array();
        [l[0], l[1], r[0], r[1], l[2], l[3], r[2], r[3]]
    }

    fn spread(w: [u64; 4]) -> (u64x4, u64x4) {
        (
            u64x4::from_array([w[0], w[1], w[0], w[1]]),
            u64x4::from_array([w[2], w[3], w[2], w[3]]),
        )
    }
}
