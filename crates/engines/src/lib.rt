//! Both engines of one variant and key.

#![tactic(auto)]

ghost use Rattle.std.specs.Prelude.{IfOk};
ghost use Rattle.ublock.specs.Cipher.{block_length};
ghost use Rattle.cipher.specs.Keys.{Filled, key_answer};
ghost use Rattle.cipher.specs.Engines.{OnePermutation};

pub mod laws;

use cipher::engine::{Engine, KeyFault};
use packed::Packed;
use packed::arrangement::Arrangement;
use plain::Plain;

/// The plain and the packed engine of the variant of this number under the key. They mean one permutation.
pub fn fill_both<H: Arrangement>(
    variant: u32,
    key: &[u8],
) -> Result<(Plain<H>, Packed<H>), KeyFault>
    ensures plain { Filled (block_length H.layout) (λ both. ⟦<Plain<H> as Engine>⟧.enc both.0) (λ both. ⟦<Plain<H> as Engine>⟧.dec both.0) variant key.now (key_answer result) }
    ensures packed { Filled (block_length H.layout) (λ both. ⟦<Packed<H> as Engine>⟧.enc both.1) (λ both. ⟦<Packed<H> as Engine>⟧.dec both.1) variant key.now (key_answer result) }
    ensures one_permutation { IfOk result (λ both. OnePermutation (block_length H.layout) (⟦<Plain<H> as Engine>⟧.enc both.0) (⟦<Plain<H> as Engine>⟧.dec both.0) (⟦<Packed<H> as Engine>⟧.enc both.1) (⟦<Packed<H> as Engine>⟧.dec both.1)) }
{
    Ok((Plain::fill(variant, key)?, Packed::fill(variant, key)?))
}
