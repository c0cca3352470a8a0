//! As many blocks as two vectors hold, as the packed engine works on them.

ghost use Rattle.std.specs.Prelude.{◌≡◌, ℕ};
ghost use Rattle.vectors.specs.Vectors.{block_at};
ghost use Rattle.packed.specs.Lawful.{lanes_shape};

use crate::arrangement::Arrangement;
use crate::word_bytes::{bytes_of, padded, words_of, write_front};
use crate::word_row::WordRow;
use keyed::bundle::Bundle;
use std::marker::PhantomData;
use std::simd::prelude::*;
use std::simd::u64x4;
use vectors::rounds::{inverse_round, round};
use vectors::steps::xor;

/// Blocks side by side: their left and their right halves, each as the words of a vector.
#[derive(Clone, Copy)]
pub struct Blocks<H> {
    left: [u64; 4],
    right: [u64; 4],
    half: PhantomData<H>,
}

impl<H> Blocks<H> {
    // The blocks with these halves.
    fn of(left: u64x4, right: u64x4) -> Blocks<H>
        ensures left { result.left ≡ left }
        ensures right { result.right ≡ right }
    {
        Blocks {
            left: left.to_array(),
            right: right.to_array(),
            half: PhantomData,
        }
    }

    // The left and the right halves.
    fn halves(&self) -> (u64x4, u64x4)
        ensures left { result.0 ≡ self.now.left }
        ensures right { result.1 ≡ self.now.right }
    {
        (u64x4::from_array(self.left), u64x4::from_array(self.right))
    }
}

impl<H: Arrangement> Bundle<WordRow> for Blocks<H> {
    ghost layout = { H.layout };

    ghost lane_count = { H.lane_count };

    ghost lane = { λ x i. block_at H.layout.half i x.left x.right };

    ghost published = { H.published };

    ghost shaped = { lanes_shape H.layout H.lane_count H.published H.filled };

    fn block_len() -> usize {
        H::block_len()
    }

    fn lanes() -> usize {
        64 / H::block_len()
    }

    fn key(row: &WordRow) -> Blocks<H> {
        let (left, right) = H::spread(row.words);
        Blocks::of(left, right)
    }

    fn xor(self, other: Blocks<H>) -> Blocks<H> {
        let (left, right) = self.halves();
        let (other_left, other_right) = other.halves();
        Blocks::of(xor(left, other_left), xor(right, other_right))
    }

    fn round(self, key: Blocks<H>) -> Blocks<H> {
        let (left, right) = self.halves();
        let (key_left, key_right) = key.halves();
        let (left, right) = round::<H>(left, right, key_left, key_right);
        Blocks::of(left, right)
    }

    fn unround(self, key: Blocks<H>) -> Blocks<H> {
        let (left, right) = self.halves();
        let (key_left, key_right) = key.halves();
        let (left, right) = inverse_round::<H>(left, right, key_left, key_right);
        Blocks::of(left, right)
    }

    fn load(run: &[u8]) -> Option<Blocks<H>> {
        if run.len() % H::block_len() != 0 || run.len() > 64 {
            return None;
        }
        let (left, right) = H::halves_of(words_of(&padded(run)));
        Some(Blocks::of(left, right))
    }

    fn store(self, run: &mut [u8]) {
        let len = run.len();
        if len % H::block_len() == 0 && len <= 64 {
            let (left, right) = self.halves();
            let bytes = bytes_of(&H::words_of(left, right));
            write_front(&bytes, run);
        }
    }
}
