//! A row of round keys in words.

ghost use Rattle.std.specs.Prelude.{◌≡◌};
ghost use Rattle.vectors.specs.Vectors.{vector_bytes};
ghost use Rattle.vectors.proofs.Words.{bytes_vector};

use crate::word_bytes::word_at;
use keyed::key_row::KeyRow;
use schedule::row::Row;

/// A row of 32 bytes in four words, which a round key is the front of.
#[derive(Clone, Copy)]
pub struct WordRow {
    pub words: [u64; 4],
}

impl KeyRow for WordRow {
    ghost key_bytes = { λ row. vector_bytes row.words };

    ghost of_bytes = { λ row. bytes_vector row.words };

    fn of(row: &Row) -> WordRow {
        let bytes = &row.bytes;
        WordRow {
            words: [
                word_at(bytes, 0),
                word_at(bytes, 8),
                word_at(bytes, 16),
                word_at(bytes, 24),
            ],
        }
    }
}
