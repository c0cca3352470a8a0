//! The three variants of the cipher.

ghost use Rattle.std.specs.Prelude.{◌≡◌, Some};
ghost use Rattle.ublock.specs.Cipher.{block_length, key_length};
ghost use Rattle.ublock.specs.Tables.{PKsPermute};
ghost use Rattle.ublock.specs.Variants.{parameters, Numbers, unknown_variant_text};

use std::error::Error;
use std::fmt;

/// A variant, named by block and key length in bits.
#[derive(Clone, Copy, Debug, PartialEq, Eq, Hash)]
pub enum Variant {
    Block128Key128,
    Block128Key256,
    Block256Key256,
}

/// A number that no variant has.
#[derive(Clone, Copy, Debug, PartialEq, Eq, Hash)]
pub struct UnknownVariant(pub u32);

/// The variants are numbered from 1 to 3.
impl TryFrom<u32> for Variant {
    type Error = UnknownVariant;

    ghost try_from_gives = { Numbers };

    fn try_from(number: u32) -> Result<Variant, UnknownVariant> {
        match number {
            1 => Ok(Variant::Block128Key128),
            2 => Ok(Variant::Block128Key256),
            3 => Ok(Variant::Block256Key256),
            _ => Err(UnknownVariant(number)),
        }
    }
}

impl fmt::Display for UnknownVariant {
    ghost output = { λ unknown. Some (unknown_variant_text unknown) };

    fn fmt<W: fmt::Write>(&self, f: &mut fmt::Formatter<W>) -> fmt::Result {
        write!(f, "no variant has the number {}", self.0)
    }
}

impl Error for UnknownVariant {}

impl Variant {
    /// The length of a block in bytes.
    pub fn block_len(self) -> usize
        ensures { result ≡ block_length (parameters self).layout }
    {
        match self {
            Variant::Block128Key128 | Variant::Block128Key256 => 16,
            Variant::Block256Key256 => 32,
        }
    }

    /// The length of a key in bytes.
    pub fn key_len(self) -> usize
        ensures { result ≡ key_length (parameters self) }
    {
        match self {
            Variant::Block128Key128 => 16,
            Variant::Block128Key256 | Variant::Block256Key256 => 32,
        }
    }

    /// How many rounds there are.
    pub fn rounds(self) -> usize
        ensures { result ≡ (parameters self).round_count }
    {
        match self {
            Variant::Block128Key128 => 16,
            Variant::Block128Key256 | Variant::Block256Key256 => 24,
        }
    }

    /// The permutation PK of the nibbles of the key register's first half: place i takes nibble PK(i).
    pub fn nibble_permutation(self) -> &'static [u8]
        ensures value { result.now ≡ (parameters self).PK }
        ensures permutes { PKsPermute }
    {
        match self {
            Variant::Block128Key128 => &PK1,
            Variant::Block128Key256 => &PK2,
            Variant::Block256Key256 => &PK3,
        }
    }
}

static PK1: [u8; 16] = [6, 0, 8, 13, 1, 15, 5, 10, 4, 9, 12, 2, 11, 3, 7, 14];

static PK2: [u8; 32] = [
    10, 5, 15, 0, 2, 7, 8, 13, 14, 6, 4, 12, 1, 3, 11, 9, 24, 25, 26, 27, 28, 29, 30, 31, 16, 17,
    18, 19, 20, 21, 22, 23,
];

static PK3: [u8; 32] = [
    10, 5, 15, 0, 2, 7, 8, 13, 1, 14, 4, 12, 9, 11, 3, 6, 24, 25, 26, 27, 28, 29, 30, 31, 16, 17,
    18, 19, 20, 21, 22, 23,
];
