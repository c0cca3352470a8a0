//! Two rows of pieces, one after the other.

ghost use Rattle.std.specs.Prelude.{◌≡◌, ◌+◌};
ghost use Rattle.words.specs.Pairs.{pair_bytes};
ghost use Rattle.words.specs.Words.{block_beside};

use crate::pieces::Pieces;
use ublock::tables::Substitution;

/// Two rows of pieces, one after the other: a wider row, or the two halves of a block.
#[derive(Clone, Copy, Debug, PartialEq, Eq, Hash)]
pub struct Pair<P> {
    pub first: P,
    pub second: P,
}

impl<P: Pieces> Pieces for Pair<P> {
    ghost bytes = { pair_bytes P.bytes };

    ghost count = { P.count + P.count };

    ghost whole = { λ x. block_beside P.count (P.bytes x.first) (P.bytes x.second) (P.whole x.first) (P.whole x.second) };

    #[inline(always)]
    fn gather(row: &[u8], places: &[u8]) -> Option<Pair<P>> {
        let (front, back) = places.split_at(places.len() / 2);
        Some(Pair {
            first: P::gather(row, front)?,
            second: P::gather(row, back)?,
        })
    }

    #[inline(always)]
    fn look_up<T: Substitution>(row: &[u8], places: &[u8]) -> Option<Pair<P>> {
        let (front, back) = places.split_at(places.len() / 2);
        Some(Pair {
            first: P::look_up::<T>(row, front)?,
            second: P::look_up::<T>(row, back)?,
        })
    }

    fn read(row: &[u8]) -> Option<Pair<P>> {
        let (front, back) = row.split_at(row.len() / 2);
        Some(Pair {
            first: P::read(front)?,
            second: P::read(back)?,
        })
    }

    fn write(self, row: &mut [u8]) {
        if row.len() % 2 == 0 {
            let (front, back) = row.split_at_mut(row.len() / 2);
            self.first.write(front);
            self.second.write(back);
        }
    }

    #[tactic(auto, using(crate::proofs::Numbers::words_parts))]
    fn from_numbers(numbers: &[u32]) -> Option<Pair<P>> {
        let (front, back) = numbers.split_at(numbers.len() / 2);
        Some(Pair {
            first: P::from_numbers(front)?,
            second: P::from_numbers(back)?,
        })
    }

    #[tactic(auto, using(crate::proofs::Numbers::words_append))]
    fn write_numbers(self, row: &mut [u32]) {
        if row.len() % 2 == 0 {
            let (front, back) = row.split_at_mut(row.len() / 2);
            self.first.write_numbers(front);
            self.second.write_numbers(back);
        }
    }

    fn xor(self, other: Pair<P>) -> Pair<P> {
        Pair {
            first: self.first.xor(other.first),
            second: self.second.xor(other.second),
        }
    }

    fn substitute<T: Substitution>(self) -> Pair<P> {
        Pair {
            first: self.first.substitute::<T>(),
            second: self.second.substitute::<T>(),
        }
    }

    fn mix(self, right: Pair<P>) -> Pair<Pair<P>> {
        halves_of(self.first.mix(right.first), self.second.mix(right.second))
    }

    fn unmix(self, right: Pair<P>) -> Pair<Pair<P>> {
        halves_of(
            self.first.unmix(right.first),
            self.second.unmix(right.second),
        )
    }
}

// From the mixed fronts and the mixed backs of two halves, the two halves.
fn halves_of<P>(front: Pair<P>, back: Pair<P>) -> Pair<Pair<P>>
    ensures { result ≡ record { first = record { first = front.first; second = back.first }; second = record { first = front.second; second = back.second } } }
{
    Pair {
        first: Pair {
            first: front.first,
            second: back.first,
        },
        second: Pair {
            first: front.second,
            second: back.second,
        },
    }
}
