//! Rows that hold the round keys, in the form that an engine keeps.

ghost use Rattle.std.specs.Prelude.{◌≡◌, ℕ, List};
ghost use Rattle.ublock.specs.Laws.{Bytes};
ghost use Rattle.ublock.proofs.Bytes.{bytes_from};

use schedule::row::Row;

/// A row of 32 bytes that a round key is the front of.
pub trait KeyRow: Copy {
    ghost key_bytes: { Self → List ℕ };

    fn of(row: &Row) -> Self
        ensures { key_bytes result ≡ row.now.bytes };

    ghost of_bytes: { (row : Self) → Bytes (key_bytes row) };
}

impl KeyRow for Row {
    ghost key_bytes = { λ row. row.bytes };

    ghost of_bytes = { λ row. bytes_from row.bytes row.of_bytes };

    fn of(row: &Row) -> Row {
        *row
    }
}
