//! Rounds of a block in halves that are still to go through the byte permutations. So a round permutes the bytes and looks them
//! up in one, and the inverse round need not undo the permutations first.

ghost use Rattle.std.specs.Prelude.{◌≡◌, take};
ghost use Rattle.ublock.specs.Cipher.{block_length, round, inverse_round, xor};
ghost use Rattle.words.specs.Pairs.{pair_bytes};
ghost use Rattle.plain.specs.Unpermuted.{block_of};

use halves::{
    Half, look_up_left, look_up_left_back, look_up_right, look_up_right_back, permute_left,
    permute_right, unpermute_left, unpermute_right,
};
use ublock::tables::{InverseSbox, Sbox};
use words::pair::Pair;
use words::pieces::Pieces;

/// The halves of a block, through the byte permutations.
pub(crate) fn permuted<H: Half>(halves: Pair<H>) -> Pair<H>
    ensures { pair_bytes H.bytes result ≡ block_of H.layout H.bytes halves }
{
    Pair {
        first: permute_left(halves.first),
        second: permute_right(halves.second),
    }
}

/// The halves of which a block is made by the byte permutations.
pub(crate) fn unpermuted<H: Half>(block: Pair<H>) -> Pair<H>
    ensures { block_of H.layout H.bytes result ≡ pair_bytes H.bytes block }
{
    Pair {
        first: unpermute_left(block.first),
        second: unpermute_right(block.second),
    }
}

/// The halves of which the block at the front of a row is made by the byte permutations: its bytes are taken from where the row has
/// them.
pub(crate) fn unpermuted_front<H: Half>(row: &[u8; 32]) -> Pair<H>
    ensures { block_of H.layout H.bytes result ≡ take (block_length H.layout) row.now }
{
    let places = H::permutations();
    let (left, right) = row[..H::block_len()].split_at(H::block_len() / 2);
    Pair {
        first: H::gather(left, places.inverse_left).unwrap(),
        second: H::gather(right, places.inverse_right).unwrap(),
    }
}

/// The exclusive or of both blocks.
pub(crate) fn xor<H: Half>(x: Pair<H>, y: Pair<H>) -> Pair<H>
    ensures { block_of H.layout H.bytes result ≡ xor (block_of H.layout H.bytes x) (block_of H.layout H.bytes y) }
{
    Pair {
        first: x.first.xor(y.first),
        second: x.second.xor(y.second),
    }
}

/// A round of a block under a round key.
pub(crate) fn round<H: Half>(block: Pair<H>, key: Pair<H>) -> Pair<H>
    ensures { block_of H.layout H.bytes result ≡ round H.layout (block_of H.layout H.bytes key) (block_of H.layout H.bytes block) }
{
    let left = look_up_left::<H, Sbox>(block.first.xor(key.first));
    let right = look_up_right::<H, Sbox>(block.second.xor(key.second));
    left.mix(right)
}

/// The block before a round under a round key.
pub(crate) fn unround<H: Half>(block: Pair<H>, key: Pair<H>) -> Pair<H>
    ensures { block_of H.layout H.bytes result ≡ inverse_round H.layout (block_of H.layout H.bytes key) (block_of H.layout H.bytes block) }
{
    let before = block.first.unmix(block.second);
    let looked_up = Pair {
        first: look_up_left_back::<H, InverseSbox>(before.first),
        second: look_up_right_back::<H, InverseSbox>(before.second),
    };
    xor(looked_up, key)
}
