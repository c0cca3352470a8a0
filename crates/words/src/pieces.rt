//! Rows of 32-bit pieces: what the round does to each piece by itself, for any number of them.

ghost use Rattle.std.specs.Prelude.{◌≡◌, ◌≢◌, ◌↔◌, ℕ, ◌*◌, List, length, IsSome, IfSome};
ghost use Rattle.ublock.specs.Cipher.{substitute, xor, permute, mixing, mixed, unmixed};
ghost use Rattle.ublock.specs.Laws.{Block};
ghost use Rattle.words.specs.Words.{halves, words};

use crate::pair::Pair;
use ublock::tables::Substitution;

/// A row of bytes in pieces of four.
pub trait Pieces: Copy {
    // the bytes that the pieces hold
    ghost bytes: { Self → List ℕ };

    // how many pieces there are
    ghost count: { ℕ };

    /// The bytes of a row at these places, where there are as many as the pieces hold; past the row's end there are zeros.
    fn gather(row: &[u8], places: &[u8]) -> Option<Self>
        ensures fits { IsSome result ↔ (length places.now ≡ count * 4) }
        ensures value { IfSome result (λ x. bytes x ≡ permute places.now row.now) };

    /// The same, each byte through the substitution.
    fn look_up<T: Substitution>(row: &[u8], places: &[u8]) -> Option<Self>
        ensures fits { IsSome result ↔ (length places.now ≡ count * 4) }
        ensures value { IfSome result (λ x. bytes x ≡ substitute T.nibbles (permute places.now row.now)) };

    /// The pieces that these bytes are; none where there are more or fewer bytes.
    fn read(row: &[u8]) -> Option<Self>
        ensures fits { IsSome result ↔ (length row.now ≡ count * 4) }
        ensures value { IfSome result (λ x. bytes x ≡ row.now) };

    /// Writes the bytes over a row that is as long; any other row stays.
    fn write(self, row: &mut [u8])
        ensures written { length row.old ≡ count * 4 → row.new ≡ bytes self }
        ensures left_alone { length row.old ≢ count * 4 → row.new ≡ row.old };

    /// The pieces that are these numbers, where there are as many.
    fn from_numbers(numbers: &[u32]) -> Option<Self>
        ensures fits { IsSome result ↔ (length numbers.now ≡ count) }
        ensures value { IfSome result (λ x. bytes x ≡ words numbers.now) };

    /// Writes the pieces as numbers over a row of as many; any other row stays.
    fn write_numbers(self, row: &mut [u32])
        ensures written { length row.old ≡ count → words row.new ≡ bytes self }
        ensures left_alone { length row.old ≢ count → row.new ≡ row.old };

    /// The exclusive or of both.
    fn xor(self, other: Self) -> Self
        ensures { bytes result ≡ xor (bytes self) (bytes other) };

    /// Each nibble through the substitution.
    fn substitute<T: Substitution>(self) -> Self
        ensures { bytes result ≡ substitute T.nibbles (bytes self) };

    /// The left half, which is `self`, mixed with the right one.
    fn mix(self, right: Self) -> Pair<Self>
        ensures { halves (bytes result.first) (bytes result.second) ≡ mixed mixing (halves (bytes self) (bytes right)) };

    /// The halves before they were mixed.
    fn unmix(self, right: Self) -> Pair<Self>
        ensures { halves (bytes result.first) (bytes result.second) ≡ unmixed mixing (halves (bytes self) (bytes right)) };

    ghost whole: { (x : Self) → Block (count * 4) (bytes x) };
}
