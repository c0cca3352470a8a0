//! Rows of any number of blocks.

ghost use Rattle.std.specs.Prelude.{◌≡◌, length, IfSome};
ghost use Rattle.ublock.specs.Cipher.{block_length};
ghost use Rattle.ublock.specs.Variants.{numbered};
ghost use Rattle.cipher.specs.Keys.{Filled, key_answer};
ghost use Rattle.cipher.specs.Rows.{row_refusal};
ghost use Rattle.pages.specs.Calls.{size};
ghost use Rattle.boundary.specs.Calls.{RowCiphered};

use crate::numbers;
use cipher::engine::{Engine, KeyFault};
use cipher::rows::{Direction, whole_row};
use packed::Packed;
use packed::arrangement::Arrangement;
use plain::Plain;

// The row in blocks of two such halves.
pub(crate) fn row_halves<H: Arrangement>(
    variant: u32,
    packed: bool,
    direction: Direction,
    key: &[u8],
    row: &mut [u8],
) -> u32
    requires length { IfSome (numbered variant) (λ v. size v ≡ block_length H.layout) }
    ensures { RowCiphered (row_refusal (length row.old)) variant direction key.now row.old row.new result }
{
    if packed {
        row_with(
            variant,
            key,
            Packed::<H>::fill(variant, key),
            direction,
            row,
        )
    } else {
        row_with(variant, key, Plain::<H>::fill(variant, key), direction, row)
    }
}

// The row through an engine that was filled for the variant and key.
fn row_with<E: Engine + Copy>(
    variant: u32,
    key: &[u8],
    engine: Result<E, KeyFault>,
    direction: Direction,
    row: &mut [u8],
) -> u32
    requires filled { Filled E.block_length E.enc E.dec variant key.now (key_answer engine) }
    requires length { IfSome (numbered variant) (λ v. size v ≡ E.block_length) }
    ensures { RowCiphered (row_refusal (length row.old)) variant direction key.now row.old row.new result }
{
    match engine {
        Ok(engine) => numbers::of_engine(whole_row(&engine, direction, row)),
        Err(fault) => numbers::of_key(fault),
    }
}
