//! Rows of bytes added to each other.

ghost use Rattle.std.specs.Prelude.{◌≡◌};
ghost use Rattle.ublock.specs.Cipher.{xor};

/// Adds bytes to a row by exclusive or, as many as both have.
pub fn add(row: &mut [u8], bytes: &[u8])
    ensures { row.new ≡ xor row.old bytes.now }
{
    for i in 0..row.len().min(bytes.len()) {
        row[i] ^= bytes[i];
    }
}
