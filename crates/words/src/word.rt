//! Four bytes, as one piece.

ghost use Rattle.std.specs.Prelude.{◌≡◌, ◌%◌, ◌<◌, ◌∷◌, [], slice_index};
ghost use Rattle.ublock.specs.Cipher.{on_nibbles, xor, rotate};
ghost use Rattle.words.specs.Words.{word};

use crate::pair::Pair;
use crate::pieces::Pieces;
use ublock::tables::Substitution;

/// Four bytes as a number, the highest byte first: the 32-bit piece that the round rotates.
#[derive(Clone, Copy, Debug, PartialEq, Eq, Hash)]
pub struct Word {
    pub number: u32,
}

impl Word {
    /// The word of these bytes.
    pub fn of(a: u8, b: u8, c: u8, d: u8) -> Word
        ensures { word result.number ≡ a ∷ b ∷ c ∷ d ∷ [] }
    {
        let [a, b, c, d] = [u32::from(a), u32::from(b), u32::from(c), u32::from(d)];
        Word {
            number: a * 0x100_0000 + b * 0x1_0000 + c * 0x100 + d,
        }
    }

    /// The four bytes.
    #[tactic(auto, unfolding(crate::specs::Words::word))]
    pub fn bytes(self) -> [u8; 4]
        ensures { result ≡ word self.number }
    {
        let n = self.number;
        [byte(n >> 24), byte(n >> 16), byte(n >> 8), byte(n)]
    }
}

impl Pieces for Word {
    ghost use Rattle.words.specs.Word.{word_bytes, word_block};

    ghost bytes = { word_bytes };

    ghost count = { 1 };

    ghost whole = { word_block };

    #[inline(always)]
    fn gather(row: &[u8], places: &[u8]) -> Option<Word> {
        let [a, b, c, d] = places else {
            return None;
        };
        Some(Word::of(
            byte_at(row, *a),
            byte_at(row, *b),
            byte_at(row, *c),
            byte_at(row, *d),
        ))
    }

    #[inline(always)]
    fn look_up<T: Substitution>(row: &[u8], places: &[u8]) -> Option<Word> {
        let [a, b, c, d] = places else {
            return None;
        };
        Some(Word::of(
            looked_up::<T>(row, *a),
            looked_up::<T>(row, *b),
            looked_up::<T>(row, *c),
            looked_up::<T>(row, *d),
        ))
    }

    fn read(row: &[u8]) -> Option<Word> {
        let [a, b, c, d] = row else {
            return None;
        };
        Some(Word::of(*a, *b, *c, *d))
    }

    fn write(self, row: &mut [u8]) {
        if row.len() == 4 {
            row.copy_from_slice(&self.bytes());
        }
    }

    fn from_numbers(numbers: &[u32]) -> Option<Word> {
        let [number] = numbers else {
            return None;
        };
        Some(Word { number: *number })
    }

    fn write_numbers(self, row: &mut [u32]) {
        if row.len() == 1 {
            row.copy_from_slice(&[self.number]);
        }
    }

    fn xor(self, other: Word) -> Word {
        Word {
            number: self.number ^ other.number,
        }
    }

    fn substitute<T: Substitution>(self) -> Word {
        let [a, b, c, d] = self.bytes();
        Word::of(
            T::substitute(a),
            T::substitute(b),
            T::substitute(c),
            T::substitute(d),
        )
    }

    fn mix(self, right: Word) -> Pair<Word> {
        let x1 = add_rotated(right, self, 0);
        let x0 = add_rotated(self, x1, 4);
        let x1 = add_rotated(x1, x0, 8);
        let x0 = add_rotated(x0, x1, 8);
        let x1 = add_rotated(x1, x0, 20);
        let x0 = add_rotated(x0, x1, 0);
        Pair {
            first: x0,
            second: x1,
        }
    }

    // The steps of the mixing in reverse: each undoes itself.
    fn unmix(self, right: Word) -> Pair<Word> {
        let y0 = add_rotated(self, right, 0);
        let y1 = add_rotated(right, y0, 20);
        let y0 = add_rotated(y0, y1, 8);
        let y1 = add_rotated(y1, y0, 8);
        let y0 = add_rotated(y0, y1, 4);
        let y1 = add_rotated(y1, y0, 0);
        Pair {
            first: y0,
            second: y1,
        }
    }
}

// The lowest byte.
fn byte(n: u32) -> u8
    ensures { result ≡ n % 256 }
{
    (n % 256) as u8
}

#[inline(always)]
fn byte_at(row: &[u8], place: u8) -> u8
    ensures { result ≡ slice_index row.now place }
{
    row.get(place as usize).copied().unwrap_or(0)
}

#[inline(always)]
fn looked_up<T: Substitution>(row: &[u8], place: u8) -> u8
    ensures { result ≡ on_nibbles T.nibbles (slice_index row.now place) }
{
    T::substitute(byte_at(row, place))
}

// One step of the mixing.
fn add_rotated(piece: Word, other: Word, by: u32) -> Word
    requires { by < 32 }
    ensures { word result.number ≡ xor (word piece.number) (rotate by (word other.number)) }
{
    Word {
        number: piece.number ^ other.number.rotate_left(by),
    }
}
