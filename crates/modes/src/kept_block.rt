//! A block kept by value.

ghost use Rattle.std.specs.Prelude.{◌≡◌, ℕ, ◌<◌, ◌≤◌, length, replicate, slice_index, take};

/// A block at the front of 32 bytes.
#[derive(Clone, Copy)]
pub struct KeptBlock {
    pub(crate) bytes: [u8; 32],

    // each entry is a byte, which a law over all values could not tell from the type alone
    pub ghost of_bytes: { (k : ℕ) → slice_index bytes k < 256 },
}

impl KeptBlock {
    // A block of at most 32 bytes.
    pub(crate) fn of(block: &[u8]) -> KeptBlock
        requires { length block.now ≤ 32 }
        ensures { take (length block.now) result.bytes ≡ block.now }
    {
        let mut bytes = zeros();
        bytes[..block.len()].copy_from_slice(block);
        KeptBlock { bytes }
    }
}

fn zeros() -> [u8; 32]
    ensures { result ≡ replicate 32 0 }
{
    [0; 32]
}
