//! A row of round keys, as the plain engine keeps it.

ghost use Rattle.std.specs.Prelude.{◌≡◌, take, drop};
ghost use Rattle.ublock.specs.Cipher.{block_length};
ghost use Rattle.words.specs.Pairs.{pair_bytes};
ghost use Rattle.words.specs.Words.{words};
ghost use Rattle.plain.specs.Unpermuted.{block_of, row_of};
ghost use Rattle.plain.specs.Lawful.{numbers_of_bytes};

use crate::rounds::unpermuted_front;
use halves::Half;
use keyed::key_row::KeyRow;
use schedule::row::Row;
use std::marker::PhantomData;
use words::pair::Pair;
use words::pieces::Pieces;

/// A row that a round key is the front of, as numbers: the key's halves as they are before the byte permutations, and what is past
/// the key.
#[derive(Clone, Copy)]
pub struct KeyHalves<H> {
    numbers: [u32; 8],
    half: PhantomData<H>,
}

impl<H: Half> KeyRow for KeyHalves<H> {
    ghost key_bytes = { λ key. row_of H.layout (words key.numbers) (words key.numbers) };

    ghost of_bytes = { λ key. numbers_of_bytes H.layout key.numbers };

    fn of(row: &Row) -> KeyHalves<H> {
        KeyHalves {
            numbers: numbers_of(unpermuted_front::<H>(&row.bytes), &row.bytes),
            half: PhantomData,
        }
    }
}

impl<H: Half> KeyHalves<H> {
    /// The key's halves, before the byte permutations.
    pub(crate) fn halves(&self) -> Pair<H>
        ensures { block_of H.layout H.bytes result ≡ take (block_length H.layout) (row_of H.layout (words self.now.numbers) (words self.now.numbers)) }
    {
        first(&self.numbers)
    }
}

// The halves that the first numbers are.
fn first<H: Half>(numbers: &[u32; 8]) -> Pair<H>
    ensures { pair_bytes H.bytes result ≡ take (block_length H.layout) (words numbers.now) }
{
    Pair::from_numbers(&numbers[..H::block_len() / 4]).unwrap()
}

// Eight numbers: those of the halves, and those of what is past a block in the row, which is another block or nothing.
fn numbers_of<H: Half>(halves: Pair<H>, row: &[u8; 32]) -> [u32; 8]
    ensures front { take (block_length H.layout) (words result) ≡ pair_bytes H.bytes halves }
    ensures rest { drop (block_length H.layout) (words result) ≡ drop (block_length H.layout) row.now }
{
    let mut numbers = [0; 8];
    let (front, rest) = numbers.split_at_mut(H::block_len() / 4);
    halves.write_numbers(front);
    if let Some(more) = Pair::<H>::read(&row[H::block_len()..]) {
        more.write_numbers(rest);
    }
    numbers
}
