//! A row of bytes.

ghost use Rattle.std.specs.Prelude.{◌≡◌, ℕ, ◌<◌, slice_index};

/// A row of bytes that a round key is the front of.
#[derive(Clone, Copy)]
pub struct Row {
    pub bytes: [u8; 32],

    // each entry is a byte, which a law over all rows could not tell from the type alone
    pub ghost of_bytes: { (k : ℕ) → slice_index bytes k < 256 },
}

impl Row {
    /// The row of these bytes.
    pub fn of(bytes: [u8; 32]) -> Row
        ensures { result.bytes ≡ bytes }
    {
        Row { bytes }
    }
}
