//! A round and its inverse, of all blocks whose halves stand side by side in two vectors.

ghost use Rattle.std.specs.Prelude.{◌≡◌, ◌<◌, ℕ};
ghost use Rattle.ublock.specs.Cipher.{round, inverse_round};
ghost use Rattle.vectors.specs.Vectors.{block_at};

use crate::circuit::{substitute, unsubstitute};
use crate::lanes::Lanes;
use crate::steps::{mix, unmix, xor};
use std::simd::u64x4;

/// A round of each block under the key in its lane.
pub fn round<H: Lanes>(
    left: u64x4,
    right: u64x4,
    key_left: u64x4,
    key_right: u64x4,
) -> (u64x4, u64x4)
    ensures { (i : ℕ) → i < H.lane_count → block_at H.layout.half i result.0 result.1 ≡ round H.layout (block_at H.layout.half i key_left key_right) (block_at H.layout.half i left right) }
{
    let (left, right) = substitute(xor(left, key_left), xor(right, key_right));
    let (left, right) = mix(left, right);
    (H::permute_left_lanes(left), H::permute_right_lanes(right))
}

/// The inverse round of each block under the key in its lane.
pub fn inverse_round<H: Lanes>(
    left: u64x4,
    right: u64x4,
    key_left: u64x4,
    key_right: u64x4,
) -> (u64x4, u64x4)
    ensures { (i : ℕ) → i < H.lane_count → block_at H.layout.half i result.0 result.1 ≡ inverse_round H.layout (block_at H.layout.half i key_left key_right) (block_at H.layout.half i left right) }
{
    let (left, right) = unmix(
        H::unpermute_left_lanes(left),
        H::unpermute_right_lanes(right),
    );
    let (left, right) = unsubstitute(left, right);
    (xor(left, key_left), xor(right, key_right))
}
