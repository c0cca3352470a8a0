//! The substitution S and its inverse on every nibble of two vectors, by operations on whole words.
//!
//! First the upper two bits of one vector's nibbles change places with the lower two of the other's: then `low` has bits 0 and 1 of
//! both, `high` has bits 2 and 3, and each operation serves both. Each step takes its vectors apart into words and makes them of these again,
//! so that a proof sees the words; that costs no instruction.

ghost use Rattle.std.specs.Prelude.{◌≡◌};
ghost use Rattle.ublock.specs.Cipher.{S, S_inverse, substitute};
ghost use Rattle.vectors.specs.Vectors.{vector_bytes};
ghost use Rattle.vectors.specs.Circuits.{Through, exchange, two_gates, two_gates_reversed};

use std::simd::prelude::*;
use std::simd::u64x4;

// Two bits of each nibble, in all sixteen nibbles of a word.
const LOWER: u64 = 0x3333_3333_3333_3333;

const UPPER: u64 = 0xcccc_cccc_cccc_cccc;

const EVEN: u64 = 0x5555_5555_5555_5555;

const ODD: u64 = 0xaaaa_aaaa_aaaa_aaaa;

/// S on every nibble of both.
pub fn substitute(left: u64x4, right: u64x4) -> (u64x4, u64x4)
    ensures left { vector_bytes result.0 ≡ substitute S (vector_bytes left) }
    ensures right { vector_bytes result.1 ≡ substitute S (vector_bytes right) }
{
    let (low, high) = exchanged(left, right);
    let (low, high) = two_gates(low, high);
    let (high, low) = two_gates(high, low);
    exchanged(low, high)
}

/// The inverse of S on every nibble of both: the same steps, the last first.
pub fn unsubstitute(left: u64x4, right: u64x4) -> (u64x4, u64x4)
    ensures left { vector_bytes result.0 ≡ substitute S_inverse (vector_bytes left) }
    ensures right { vector_bytes result.1 ≡ substitute S_inverse (vector_bytes right) }
{
    let (low, high) = exchanged(left, right);
    let (high, low) = two_gates_reversed(high, low);
    let (low, high) = two_gates_reversed(low, high);
    exchanged(low, high)
}

// The upper two bits of one vector's nibbles and the lower two of the other's, each in the place of the others.
fn exchanged(one: u64x4, other: u64x4) -> (u64x4, u64x4)
    ensures { Through exchange one other result.0 result.1 }
{
    let x = one.to_array();
    let y = other.to_array();
    let x = u64x4::from_array([x[0], x[1], x[2], x[3]]);
    let y = u64x4::from_array([y[0], y[1], y[2], y[3]]);
    let lower = u64x4::splat(LOWER);
    let upper = u64x4::splat(UPPER);
    let moved = ((x >> u64x4::splat(2)) & lower) ^ (y & lower);
    (x ^ ((moved << u64x4::splat(2)) & upper), y ^ moved)
}

// Bit 0 takes not (bit 2 and bit 3), then bit 3 takes bit 1 or bit 2. With `high` and `low` turned about: bit 2 takes not (bit 0
// and bit 1), then bit 1 takes bit 0 or bit 3.
fn two_gates(one: u64x4, other: u64x4) -> (u64x4, u64x4)
    ensures { Through two_gates one other result.0 result.1 }
{
    let x = one.to_array();
    let y = other.to_array();
    let x = u64x4::from_array([x[0], x[1], x[2], x[3]]);
    let y = u64x4::from_array([y[0], y[1], y[2], y[3]]);
    let even = u64x4::splat(EVEN);
    let odd = u64x4::splat(ODD);
    let x = x ^ ((y & ((y >> u64x4::splat(1)) & even)) ^ even);
    let y = y ^ ((x & odd) | ((y << u64x4::splat(1)) & odd));
    (x, y)
}

// Both vectors as they were before `two_gates`: the same steps, the last first.
fn two_gates_reversed(one: u64x4, other: u64x4) -> (u64x4, u64x4)
    ensures { Through two_gates_reversed one other result.0 result.1 }
{
    let x = one.to_array();
    let y = other.to_array();
    let x = u64x4::from_array([x[0], x[1], x[2], x[3]]);
    let y = u64x4::from_array([y[0], y[1], y[2], y[3]]);
    let even = u64x4::splat(EVEN);
    let odd = u64x4::splat(ODD);
    let before = y ^ ((x & odd) | ((y << u64x4::splat(1)) & odd));
    (
        x ^ ((before & ((before >> u64x4::splat(1)) & even)) ^ even),
        before,
    )
}
