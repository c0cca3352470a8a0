//! An answer, as it is written.

ghost use Rattle.std.specs.Prelude.{◌≡◌, ℕ, List, [], ◌∷◌, ◌++◌, ◌+◌, ◌*◌, ◌<◌, ◌≤◌, length, take, decimal, Option, Some, None, nat_lt, if◌then◌else◌};
ghost use Rattle.protocol.specs.Examples.{TextsAsWorked};
ghost use Rattle.protocol.specs.Replies.{number_text, block_text, refusal_text, hex_text, hex_digit, layer_of};

use std::marker::Model;

/// An answer: one line, with the line feed that ends it; or none.
#[derive(Drop)]
pub struct Reply {
    bytes: [u8; 80],
    len: usize,
}

impl Model for Reply {
    ghost Value = { List ℕ };

    ghost view = { λ r. take r.len r.bytes };

    ghost invariant = { λ r. r.len ≤ 80 };
}

impl Reply {
    /// That a call was accepted, with a number.
    #[tactic(auto, using(crate::proofs::Written::decimal_short))]
    pub fn number(n: u64) -> Reply
        ensures { result ≡ number_text n }
    {
        let mut reply = Reply::nothing();
        reply.push_all(b"ok\t");
        reply.push_decimal(n);
        reply.push(b'\n');
        reply
    }

    /// That a call was accepted, with a block of at most 32 bytes.
    #[tactic(auto, using(crate::proofs::Written::length_hex_text))]
    pub fn block(block: &[u8]) -> Option<Reply>
        ensures { result ≡ (if nat_lt 32 (length block.now) then None else Some (block_text block.now)) }
    {
        if block.len() > 32 {
            return None;
        }
        let mut reply = Reply::nothing();
        reply.push_all(b"ok\t");
        reply.push_hex(block);
        reply.push(b'\n');
        Some(reply)
    }

    /// That the line of this number was refused, and the number that says why.
    #[tactic(auto, using(crate::proofs::Written::decimal_short, crate::proofs::Examples::texts_as_worked))]
    pub fn refusal(line: u64, number: u8) -> Reply
        ensures text { result ≡ refusal_text line number }
        ensures texts_as_worked { TextsAsWorked }
    {
        let mut reply = Reply::nothing();
        reply.push_all(b"no\t");
        reply.push_decimal(line);
        reply.push(b'\t');
        reply.push_all(layer(number));
        reply.push(b'\t');
        reply.push_decimal(u64::from(number));
        reply.push(b'\n');
        reply
    }

    /// The bytes of the answer.
    pub fn as_slice(&self) -> &[u8]
        ensures { result.now ≡ self.now }
    {
        &self.bytes[..self.len]
    }

    /// No answer.
    pub fn nothing() -> Reply
        ensures { result ≡ [] }
    {
        Reply {
            bytes: [0; 80],
            len: 0,
        }
    }

    fn push(&mut self, b: u8)
        requires { length self.old < 80 }
        ensures { self.new ≡ self.old ++ b ∷ [] }
    {
        self.bytes[self.len] = b;
        self.len += 1;
    }

    fn push_all(&mut self, text: &[u8])
        requires { length self.old + length text.now ≤ 80 }
        ensures { self.new ≡ self.old ++ text.now }
    {
        for b in text {
            self.push(*b);
        }
    }

    #[tactic(auto, using(crate::proofs::Written::more_digits))]
    fn push_decimal(&mut self, n: u64)
        requires { length self.old + length (decimal n) ≤ 80 }
        ensures { self.new ≡ self.old ++ decimal n }
    {
        if n < 10 {
            self.push(b'0' + n as u8);
        } else {
            self.push_decimal(n / 10);
            self.push(b'0' + (n % 10) as u8);
        }
    }

    // Pairs of hex digits.
    #[tactic(auto, unfolding(crate::specs::Replies::hex_text))]
    fn push_hex(&mut self, block: &[u8])
        requires { length self.old + 2 * length block.now ≤ 80 }
        ensures { self.new ≡ self.old ++ hex_text block.now }
    {
        let mut len = self.len;
        for b in block {
            self.bytes[len] = digit(*b / 16);
            self.bytes[len + 1] = digit(*b % 16);
            len += 2;
        }
        self.len = len;
    }
}

fn digit(n: u8) -> u8
    requires { n < 16 }
    ensures { result ≡ hex_digit n }
{
    if n < 10 { b'0' + n } else { b'a' + (n - 10) }
}

// Which layer a number is of.
fn layer(number: u8) -> &'static [u8]
    ensures name { result.now ≡ layer_of number }
    ensures short { length result.now ≤ 4 }
{
    match number {
        0..=2 => b"key",
        3..=9 => b"log",
        _ => b"line",
    }
}
