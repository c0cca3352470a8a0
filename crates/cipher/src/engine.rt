//! What an engine is, and how its calls refuse.

ghost use Rattle.std.specs.Prelude.{◌≡◌, ℕ, List, Some};
ghost use Rattle.ublock.specs.Laws.{Permutes};
ghost use Rattle.cipher.specs.Engines.{Shape, Ran, engine_answer, engine_fault_text};
ghost use Rattle.cipher.specs.Keys.{key_fault_text};
ghost use Rattle.cipher.specs.declared.engine.KeyFault.TheVariants.{NoVariant};

use std::error::Error;
use std::fmt;
use std::fmt::Display;
use ublock::variant::UnknownVariant;

/// Why a run is refused.
#[derive(Clone, Copy, Debug, PartialEq, Eq, Hash)]
pub enum EngineFault {
    /// no multiple of the block length, or more blocks than lanes
    RunLength,
}

/// Why an engine is not filled.
#[derive(Clone, Copy, Debug, PartialEq, Eq, Hash)]
pub enum KeyFault {
    /// no variant of this number, or its blocks have another length
    NoVariant,
    /// the key is not as long as the variant's
    KeyLength,
}

impl From<UnknownVariant> for KeyFault {
    ghost from_gives = { λ _ fault. fault ≡ NoVariant };

    fn from(_unknown: UnknownVariant) -> KeyFault {
        Self::NoVariant
    }
}

/// A permutation of the blocks of some length, with its inverse, and how many blocks it takes at once. Block length and
/// lane count belong to the type: two engines of one type differ in their permutation alone.
pub trait Engine {
    ghost block_length: { ℕ };

    ghost lane_count: { ℕ };

    ghost enc: { Self → List ℕ → List ℕ };

    ghost dec: { Self → List ℕ → List ℕ };

    /// The length of a block in bytes.
    fn block_len(&self) -> usize
        ensures { result ≡ block_length };

    /// The most blocks in a run.
    fn lanes(&self) -> usize
        ensures { result ≡ lane_count };

    /// Replaces each block of a run by what it is enciphered to.
    fn encipher(&self, run: &mut [u8]) -> Result<(), EngineFault>
        ensures { Ran block_length lane_count (enc self.now) run.old run.new (engine_answer result) };

    /// Replaces each block of a run by what it is deciphered to.
    fn decipher(&self, run: &mut [u8]) -> Result<(), EngineFault>
        ensures { Ran block_length lane_count (dec self.now) run.old run.new (engine_answer result) };

    ghost shape: { Shape block_length lane_count };

    ghost permutes: { (e : Self) → Permutes block_length (enc e) (dec e) };
}

impl Display for EngineFault {
    ghost output = { λ fault. Some (engine_fault_text fault) };

    fn fmt<W: fmt::Write>(&self, f: &mut fmt::Formatter<W>) -> fmt::Result {
        f.write_str(match self {
            EngineFault::RunLength => {
                "the run ends within a block, or has more blocks than lanes"
            }
        })
    }
}

impl Display for KeyFault {
    ghost output = { λ fault. Some (key_fault_text fault) };

    fn fmt<W: fmt::Write>(&self, f: &mut fmt::Formatter<W>) -> fmt::Result {
        f.write_str(match self {
            KeyFault::NoVariant => "there is no such variant, or its blocks have another length",
            KeyFault::KeyLength => "the key is not as long as the variant's keys",
        })
    }
}

impl Error for EngineFault {}

impl Error for KeyFault {}
