//! Exclusive or and the mixing, of all halves in two vectors at once.

ghost use Rattle.std.specs.Prelude.{◌≡◌, ◌<◌};
ghost use Rattle.ublock.specs.Cipher.{xor, rotate, mixing, mixed, unmixed};
ghost use Rattle.words.specs.Words.{halves};
ghost use Rattle.vectors.specs.Vectors.{vector_bytes, pieces};

use std::simd::prelude::*;
use std::simd::{u32x8, u64x4};

/// The exclusive or.
pub fn xor(x: u64x4, y: u64x4) -> u64x4
    ensures { vector_bytes result ≡ xor (vector_bytes x) (vector_bytes y) }
{
    x ^ y
}

/// The left halves mixed with the right ones.
pub fn mix(left: u64x4, right: u64x4) -> (u64x4, u64x4)
    ensures { halves (vector_bytes result.0) (vector_bytes result.1) ≡ mixed mixing (halves (vector_bytes left) (vector_bytes right)) }
{
    let x1 = xor(right, left);
    let x0 = add_rotated(left, x1, 4);
    let x1 = add_rotated(x1, x0, 8);
    let x0 = add_rotated(x0, x1, 8);
    let x1 = add_rotated(x1, x0, 20);
    let x0 = xor(x0, x1);
    (x0, x1)
}

/// The halves before they were mixed: the same steps, the last first.
pub fn unmix(left: u64x4, right: u64x4) -> (u64x4, u64x4)
    ensures { halves (vector_bytes result.0) (vector_bytes result.1) ≡ unmixed mixing (halves (vector_bytes left) (vector_bytes right)) }
{
    let y0 = xor(left, right);
    let y1 = add_rotated(right, y0, 20);
    let y0 = add_rotated(y0, y1, 8);
    let y1 = add_rotated(y1, y0, 8);
    let y0 = add_rotated(y0, y1, 4);
    let y1 = xor(y1, y0);
    (y0, y1)
}

// One step of the mixing.
fn add_rotated(x: u64x4, y: u64x4, by: u32) -> u64x4
    requires { (0 < by) × (by < 32) }
    ensures { vector_bytes result ≡ xor (vector_bytes x) (rotate by (vector_bytes y)) }
{
    xor(x, rotated(y, by))
}

// Each 32-bit piece rotated left.
fn rotated(w: u64x4, by: u32) -> u64x4
    requires { (0 < by) × (by < 32) }
    ensures { vector_bytes result ≡ rotate by (vector_bytes w) }
{
    let v = to_pieces(w);
    from_pieces((v << u32x8::splat(by)) | (v >> u32x8::splat(32 - by)))
}

// The words as 32-bit pieces.
fn to_pieces(w: u64x4) -> u32x8
    ensures { result ≡ pieces w }
{
    u32x8::from_le_bytes(w.to_le_bytes())
}

// The words of which these are the pieces.
fn from_pieces(v: u32x8) -> u64x4
    ensures { pieces result ≡ v }
{
    u64x4::from_le_bytes(v.to_le_bytes())
}
