//! The key register, from which all round keys come.

ghost use Rattle.std.specs.Prelude.{◌≡◌, ◌+◌, ◌<◌, ◌≤◌, length, take, MatchOption, ◌≢◌, slice_index};
ghost use Rattle.ublock.specs.Cipher.{nibbles, paired, permute, key_step, key_length, RC};
ghost use Rattle.schedule.specs.Registers.{padded};
ghost use Rattle.schedule.specs.Rows.{HoldRegisters};
ghost use Rattle.ublock.specs.Variants.{parameters};

use crate::row::Row;
use ublock::tables::{Sbox, Substitution, double, round_constant};
use ublock::variant::Variant;

/// The register of a variant's key schedule: as many bytes as its key has. `load` and `step` leave zeros after them.
#[derive(Clone, Copy)]
pub struct Register {
    pub variant: Variant,
    pub bytes: [u8; 32],
}

impl Register {
    /// The register that starts as the key; none where the key is not of the variant's length.
    pub fn load(variant: Variant, key: &[u8]) -> Option<Register>
        ensures { MatchOption result (length key.now ≢ key_length (parameters variant)) (λ s. (length key.now ≡ key_length (parameters variant)) × (s.variant ≡ variant) × (s.bytes ≡ padded key.now)) }
    {
        if key.len() != variant.key_len() {
            return None;
        }
        Some(Register {
            variant,
            bytes: padded(key),
        })
    }

    /// The register after its next step, where `taken` steps came before.
    pub fn step(self, taken: usize) -> Register
        ensures variant { result.variant ≡ self.variant }
        ensures bytes { result.bytes ≡ padded (key_step (parameters self.variant).PK (parameters self.variant).quarter (slice_index RC taken) (take (key_length (parameters self.variant)) self.bytes)) }
    {
        let quarter = self.quarter_len();
        let mut front = [0; 16];
        self.permute_front(&mut front);
        let constant = padded(&round_constant(taken).to_be_bytes());
        let (k0, k1) = front[..quarter * 2].split_at(quarter);
        let (k2, k3) = self.bytes[quarter * 2..quarter * 4].split_at(quarter);
        // K2 with S of K0 and the constant, K3 with K1 doubled, K1, K0.
        let mut next = [0; 32];
        for j in 0..quarter {
            next[j] = k2[j] ^ Sbox::substitute(k0[j] ^ constant[j]);
            next[quarter + j] = k3[j] ^ double(k1[j]);
            next[quarter * 2 + j] = k1[j];
            next[quarter * 3 + j] = k0[j];
        }
        Register {
            variant: self.variant,
            bytes: next,
        }
    }

    /// The rows of all round keys: row j is the register after j steps, up to the last round's; later rows are the first again.
    pub fn rows(self) -> [Row; 25]
        ensures { HoldRegisters (parameters self.variant) self.bytes 25 result }
    {
        let mut state = self;
        let mut rows = [self.row(); 25];
        for (taken, row) in rows[1..=self.variant.rounds()].iter_mut().enumerate() {
            state = state.step(taken);
            *row = state.row();
        }
        rows
    }

    // The register's bytes.
    fn row(self) -> Row
        ensures { result.bytes ≡ self.bytes }
    {
        Row::of(self.bytes)
    }

    // A quarter of the register in bytes.
    fn quarter_len(self) -> usize
        ensures value { result ≡ (parameters self.variant).quarter }
        ensures small { result ≤ 8 }
    {
        self.variant.key_len() / 4
    }

    // Writes the first two quarters, with their nibbles permuted, over the front of a place. Written there, since a result would be
    // copied before it is read.
    fn permute_front(self, front: &mut [u8; 16])
        ensures { let p = parameters self.variant in
            take (p.quarter + p.quarter) front.new ≡ paired (permute p.PK (nibbles self.bytes)) }
    {
        let sources = self.variant.nibble_permutation();
        for (j, pair) in sources.chunks_exact(2).enumerate() {
            front[j] = nibble(&self.bytes, pair[0]) * 16 + nibble(&self.bytes, pair[1]);
        }
    }
}

/// The bytes, at most the first 32 of them, and zeros after them.
pub fn padded(bytes: &[u8]) -> [u8; 32]
    ensures { result ≡ padded (take 32 bytes.now) }
{
    let len = bytes.len().min(32);
    let mut all = [0; 32];
    all[..len].copy_from_slice(&bytes[..len]);
    all
}

// Nibble i of a row of bytes, a byte's high nibble first; 0 past its end. The row is lent: a register by value is copied for each
// nibble.
fn nibble(bytes: &[u8], i: u8) -> u8
    ensures value { result ≡ slice_index (nibbles bytes.now) i }
    ensures small { result < 16 }
{
    let byte = bytes.get(usize::from(i / 2)).copied().unwrap_or(0);
    if i % 2 == 0 { byte / 16 } else { byte % 16 }
}
