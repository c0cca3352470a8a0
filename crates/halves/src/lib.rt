//! The half of a block, in two widths, and its byte permutations.

#![tactic(auto)]

ghost use Rattle.std.specs.Prelude.{◌≡◌, ◌-◌, ◌*◌, length, take, drop, replicate};
ghost use Rattle.ublock.specs.Cipher.{Layout, block_length, layout128, layout256, permute, substitute};
ghost use Rattle.words.specs.Pairs.{pair_bytes};
ghost use Rattle.halves.specs.Halves.{IsUblockLayout, HasPermutations};
ghost use Rattle.std.proofs.Common.{refl, inl, inr};

use ublock::tables::Substitution;
use words::pair::Pair;
use words::pieces::Pieces;
use words::word::Word;

/// The byte permutations of a half: place i takes the byte at entry i.
#[derive(Clone, Copy, Debug, PartialEq, Eq)]
pub struct Permutations {
    pub left: &'static [u8],
    pub right: &'static [u8],
    pub inverse_left: &'static [u8],
    pub inverse_right: &'static [u8],
}

/// The half of a block.
pub trait Half: Pieces {
    // what a round does to two such halves
    ghost layout: { Layout };

    /// The length of a block in bytes.
    fn block_len() -> usize
        ensures { result ≡ block_length layout };

    /// The byte permutations PL and PR, and their inverses.
    fn permutations() -> Permutations
        ensures { HasPermutations layout result };

    ghost published: { IsUblockLayout layout };

    ghost sized: { layout.half ≡ Self.count * 4 };
}

/// Half of a block of 16 bytes.
pub type Narrow = Pair<Word>;

/// Half of a block of 32 bytes.
pub type Wide = Pair<Narrow>;

impl Half for Pair<Word> {
    ghost layout = { layout128 };

    ghost published = { inl refl };

    ghost sized = { refl };

    fn block_len() -> usize {
        16
    }

    fn permutations() -> Permutations {
        Permutations {
            left: &[1, 3, 4, 6, 0, 2, 7, 5],
            right: &[2, 7, 5, 0, 1, 6, 4, 3],
            inverse_left: &[4, 0, 5, 1, 2, 7, 3, 6],
            inverse_right: &[3, 4, 0, 7, 6, 2, 5, 1],
        }
    }
}

impl Half for Pair<Pair<Word>> {
    ghost layout = { layout256 };

    ghost published = { inr refl };

    ghost sized = { refl };

    fn block_len() -> usize {
        32
    }

    fn permutations() -> Permutations {
        Permutations {
            left: &[2, 7, 8, 13, 3, 6, 9, 12, 1, 4, 15, 10, 14, 11, 5, 0],
            right: &[6, 11, 1, 12, 9, 4, 2, 15, 7, 0, 13, 10, 14, 3, 8, 5],
            inverse_left: &[15, 8, 0, 4, 9, 14, 5, 1, 2, 6, 11, 13, 7, 3, 12, 10],
            inverse_right: &[9, 2, 6, 13, 5, 15, 0, 8, 14, 4, 11, 1, 3, 10, 12, 7],
        }
    }
}

/// The two halves at the front of a row of 32 bytes.
pub fn split<H: Half>(row: &[u8; 32]) -> Pair<H>
    ensures { pair_bytes H.bytes result ≡ take (block_length H.layout) row.now }
{
    Pair::read(&row[..H::block_len()]).unwrap()
}

/// A row of 32 bytes with the two halves at its front, and zeros after them.
pub fn join<H: Half>(halves: Pair<H>) -> [u8; 32]
    ensures front { take (block_length H.layout) result ≡ pair_bytes H.bytes halves }
    ensures rest { drop (block_length H.layout) result ≡ replicate (32 - block_length H.layout) 0 }
{
    let mut row = [0; 32];
    halves.write(&mut row[..H::block_len()]);
    row
}

/// A left half through the byte permutation PL.
pub fn permute_left<H: Half>(half: H) -> H
    ensures { H.bytes result ≡ permute H.layout.PL (H.bytes half) }
{
    permuted(half, H::permutations().left)
}

/// A right half through the byte permutation PR.
pub fn permute_right<H: Half>(half: H) -> H
    ensures { H.bytes result ≡ permute H.layout.PR (H.bytes half) }
{
    permuted(half, H::permutations().right)
}

/// A left half through the inverse of PL.
pub fn unpermute_left<H: Half>(half: H) -> H
    ensures { H.bytes result ≡ permute H.layout.PL_inverse (H.bytes half) }
{
    permuted(half, H::permutations().inverse_left)
}

/// A right half through the inverse of PR.
pub fn unpermute_right<H: Half>(half: H) -> H
    ensures { H.bytes result ≡ permute H.layout.PR_inverse (H.bytes half) }
{
    permuted(half, H::permutations().inverse_right)
}

/// A left half through PL, each byte substituted.
pub fn look_up_left<H: Half, T: Substitution>(half: H) -> H
    ensures { H.bytes result ≡ substitute T.nibbles (permute H.layout.PL (H.bytes half)) }
{
    looked_up::<H, T>(half, H::permutations().left)
}

/// A right half through PR, each byte substituted.
pub fn look_up_right<H: Half, T: Substitution>(half: H) -> H
    ensures { H.bytes result ≡ substitute T.nibbles (permute H.layout.PR (H.bytes half)) }
{
    looked_up::<H, T>(half, H::permutations().right)
}

/// A left half through the inverse of PL, each byte substituted.
pub fn look_up_left_back<H: Half, T: Substitution>(half: H) -> H
    ensures { H.bytes result ≡ substitute T.nibbles (permute H.layout.PL_inverse (H.bytes half)) }
{
    looked_up::<H, T>(half, H::permutations().inverse_left)
}

/// A right half through the inverse of PR, each byte substituted.
pub fn look_up_right_back<H: Half, T: Substitution>(half: H) -> H
    ensures { H.bytes result ≡ substitute T.nibbles (permute H.layout.PR_inverse (H.bytes half)) }
{
    looked_up::<H, T>(half, H::permutations().inverse_right)
}

// The half whose bytes are those of `half` at the given places. Inlined, since the places are then known and cost nothing.
#[inline(always)]
fn permuted<H: Half>(half: H, places: &[u8]) -> H
    requires { length places.now ≡ H.count * 4 }
    ensures { H.bytes result ≡ permute places.now (H.bytes half) }
{
    // A half has at most 16 bytes.
    let mut row = [0; 16];
    let row = &mut row[..places.len()];
    half.write(row);
    H::gather(row, places).unwrap()
}

// The same, each byte substituted.
#[inline(always)]
fn looked_up<H: Half, T: Substitution>(half: H, places: &[u8]) -> H
    requires { length places.now ≡ H.count * 4 }
    ensures { H.bytes result ≡ substitute T.nibbles (permute places.now (H.bytes half)) }
{
    let mut row = [0; 16];
    let row = &mut row[..places.len()];
    half.write(row);
    H::look_up::<T>(row, places).unwrap()
}
