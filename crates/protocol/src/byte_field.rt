//! A field of bytes, kept by value.

ghost use Rattle.std.specs.Prelude.{◌≡◌, ℕ, List, ◌≤◌, length, take, ◌<◌, IfSome};
ghost use Rattle.protocol.specs.Fields.{bytes_of, hex_digit_of};

use std::marker::Model;

/// At most 100 bytes: as many as pairs of hex digits fit into a line. They may be a key, so they are not printed.
#[derive(Drop)]
pub struct ByteField {
    bytes: [u8; 100],
    len: usize,
}

impl Model for ByteField {
    ghost Value = { List ℕ };

    ghost view = { λ f. take f.len f.bytes };

    ghost invariant = { λ f. f.len ≤ 100 };
}

impl ByteField {
    /// The bytes.
    pub fn as_slice(&self) -> &[u8]
        ensures { result.now ≡ self.now }
    {
        &self.bytes[..self.len]
    }
}

// The bytes that pairs of lower-case hex digits write.
#[tactic(auto, using(crate::proofs::Digits::hex_digits))]
pub(crate) fn byte_field(digits: &[u8]) -> Option<ByteField>
    requires { length digits.now ≤ 200 }
    ensures { result ≡ bytes_of digits.now }
{
    let mut bytes = [0u8; 100];
    let mut len = 0;
    let mut rest = digits;
    while let [high, low, after @ ..] = rest {
        bytes[len] = 16 * hex_digit(*high)? + hex_digit(*low)?;
        len += 1;
        rest = after;
    }
    if rest.is_empty() {
        Some(ByteField { bytes, len })
    } else {
        None
    }
}

fn hex_digit(c: u8) -> Option<u8>
    ensures digit { result ≡ hex_digit_of c }
    ensures small { IfSome result (λ d. d < 16) }
{
    // one formula for both, so that nothing depends on which of them it is: a letter has bit 6 set
    match c {
        b'0'..=b'9' | b'a'..=b'f' => Some(c % 16 + 9 * (c / 64)),
        _ => None,
    }
}
