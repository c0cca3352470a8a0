//! A fixed value that is added to blocks.

ghost use Rattle.std.specs.Prelude.{◌≡◌, ℕ, ◌<◌, ◌≤◌, length, slice_index};
ghost use Rattle.layers.specs.Layers.{added_to_blocks};

use cipher::addition::add;

/// A value of 32 bytes, the first of which are added to a block by exclusive or: as many as the block has.
#[derive(Clone, Copy)]
pub struct FixedValue {
    bytes: [u8; 32],

    // each entry is a byte, which a law over all values could not tell from the type alone
    pub ghost of_bytes: { (k : ℕ) → slice_index bytes k < 256 },
}

impl From<[u8; 32]> for FixedValue {
    ghost from_gives = { λ bytes value. value.bytes ≡ bytes };

    fn from(bytes: [u8; 32]) -> FixedValue {
        FixedValue { bytes }
    }
}

impl FixedValue {
    /// Adds the first `b` bytes to each whole block of `b` bytes of a run.
    pub(crate) fn add_to_blocks(&self, b: usize, run: &mut [u8])
        requires positive { 0 < b }
        requires fits { b ≤ 32 }
        ensures { run.new ≡ added_to_blocks b self.now.bytes run.old }
    {
        // by index: of what is written through `chunks_exact_mut` a proof knows nothing
        for i in 0..run.len() / b {
            add(&mut run[i * b..(i + 1) * b], &self.bytes[..b]);
        }
    }
}
