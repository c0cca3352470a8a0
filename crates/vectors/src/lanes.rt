//! The byte permutations of several halves side by side in a vector.

ghost use Rattle.std.specs.Prelude.{◌≡◌, ◌*◌, ℕ, refl};
ghost use Rattle.vectors.specs.Vectors.{vector_bytes, InLanes};

use halves::{Half, Narrow, Wide};
use std::simd::prelude::*;
use std::simd::u64x4;

/// Halves of blocks, as many side by side as a vector holds.
pub trait Lanes: Half {
    // how many halves a vector holds
    ghost lane_count: { ℕ };

    /// Each left half through the byte permutation PL.
    fn permute_left_lanes(w: u64x4) -> u64x4
        ensures { InLanes Self.layout.half lane_count Self.layout.PL (vector_bytes w) (vector_bytes result) };

    /// Each right half through the byte permutation PR.
    fn permute_right_lanes(w: u64x4) -> u64x4
        ensures { InLanes Self.layout.half lane_count Self.layout.PR (vector_bytes w) (vector_bytes result) };

    /// Each left half through the inverse of PL.
    fn unpermute_left_lanes(w: u64x4) -> u64x4
        ensures { InLanes Self.layout.half lane_count Self.layout.PL_inverse (vector_bytes w) (vector_bytes result) };

    /// Each right half through the inverse of PR.
    fn unpermute_right_lanes(w: u64x4) -> u64x4
        ensures { InLanes Self.layout.half lane_count Self.layout.PR_inverse (vector_bytes w) (vector_bytes result) };

    ghost filled: { lane_count * Self.layout.half ≡ 32 };
}

impl Lanes for Narrow {
    ghost lane_count = { 4 };

    ghost filled = { refl };

    fn permute_left_lanes(w: u64x4) -> u64x4 {
        u64x4::from_le_bytes(w.to_le_bytes().swizzle(NARROW_LEFT))
    }

    fn permute_right_lanes(w: u64x4) -> u64x4 {
        u64x4::from_le_bytes(w.to_le_bytes().swizzle(NARROW_RIGHT))
    }

    fn unpermute_left_lanes(w: u64x4) -> u64x4 {
        u64x4::from_le_bytes(w.to_le_bytes().swizzle(NARROW_LEFT_INVERSE))
    }

    fn unpermute_right_lanes(w: u64x4) -> u64x4 {
        u64x4::from_le_bytes(w.to_le_bytes().swizzle(NARROW_RIGHT_INVERSE))
    }
}

impl Lanes for Wide {
    ghost lane_count = { 2 };

    ghost filled = { refl };

    fn permute_left_lanes(w: u64x4) -> u64x4 {
        u64x4::from_le_bytes(w.to_le_bytes().swizzle(WIDE_LEFT))
    }

    fn permute_right_lanes(w: u64x4) -> u64x4 {
        u64x4::from_le_bytes(w.to_le_bytes().swizzle(WIDE_RIGHT))
    }

    fn unpermute_left_lanes(w: u64x4) -> u64x4 {
        u64x4::from_le_bytes(w.to_le_bytes().swizzle(WIDE_LEFT_INVERSE))
    }

    fn unpermute_right_lanes(w: u64x4) -> u64x4 {
        u64x4::from_le_bytes(w.to_le_bytes().swizzle(WIDE_RIGHT_INVERSE))
    }
}

// Where each byte comes from, as `to_le_bytes` places them: byte i of word k, the highest byte first, is at 8 k + 7 - i.
const NARROW_LEFT: [usize; 32] = [
    2, 0, 5, 7, 1, 3, 4, 6, 10, 8, 13, 15, 9, 11, 12, 14, 18, 16, 21, 23, 17, 19, 20, 22, 26, 24,
    29, 31, 25, 27, 28, 30,
];

const NARROW_RIGHT: [usize; 32] = [
    4, 3, 1, 6, 7, 2, 0, 5, 12, 11, 9, 14, 15, 10, 8, 13, 20, 19, 17, 22, 23, 18, 16, 21, 28, 27,
    25, 30, 31, 26, 24, 29,
];

const NARROW_LEFT_INVERSE: [usize; 32] = [
    1, 4, 0, 5, 6, 2, 7, 3, 9, 12, 8, 13, 14, 10, 15, 11, 17, 20, 16, 21, 22, 18, 23, 19, 25, 28,
    24, 29, 30, 26, 31, 27,
];

const NARROW_RIGHT_INVERSE: [usize; 32] = [
    6, 2, 5, 1, 0, 7, 3, 4, 14, 10, 13, 9, 8, 15, 11, 12, 22, 18, 21, 17, 16, 23, 19, 20, 30, 26,
    29, 25, 24, 31, 27, 28,
];

const WIDE_LEFT: [usize; 32] = [
    11, 14, 1, 4, 10, 15, 0, 5, 7, 2, 12, 9, 13, 8, 3, 6, 27, 30, 17, 20, 26, 31, 16, 21, 23, 18,
    28, 25, 29, 24, 19, 22,
];

const WIDE_RIGHT: [usize; 32] = [
    8, 5, 3, 14, 11, 6, 12, 1, 2, 15, 4, 9, 13, 10, 7, 0, 24, 21, 19, 30, 27, 22, 28, 17, 18, 31,
    20, 25, 29, 26, 23, 16,
];

const WIDE_LEFT_INVERSE: [usize; 32] = [
    6, 2, 9, 14, 3, 7, 15, 8, 13, 11, 4, 0, 10, 12, 1, 5, 22, 18, 25, 30, 19, 23, 31, 24, 29, 27,
    20, 16, 26, 28, 17, 21,
];

const WIDE_RIGHT_INVERSE: [usize; 32] = [
    15, 7, 8, 2, 10, 1, 5, 14, 0, 11, 13, 4, 6, 12, 3, 9, 31, 23, 24, 18, 26, 17, 21, 30, 16, 27,
    29, 20, 22, 28, 19, 25,
];
