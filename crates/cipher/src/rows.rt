//! Rows of any number of blocks, in runs of an engine.

ghost use Rattle.std.specs.Prelude.{◌≡◌};
ghost use Rattle.cipher.specs.Engines.{Ran, engine_answer};
ghost use Rattle.cipher.specs.Rows.{RowReplaced, in_direction};

use crate::engine::{Engine, EngineFault};

/// Whether blocks are enciphered or deciphered.
#[derive(Clone, Copy, Debug, PartialEq, Eq, Hash)]
pub enum Direction {
    Encipher,
    Decipher,
}

/// Enciphers or deciphers each block of one run.
pub fn one_run<E: Engine>(
    engine: &E,
    direction: Direction,
    run: &mut [u8],
) -> Result<(), EngineFault>
    ensures { Ran E.block_length E.lane_count (in_direction direction (E.enc engine.now) (E.dec engine.now)) run.old run.new (engine_answer result) }
{
    match direction {
        Direction::Encipher => engine.encipher(run),
        Direction::Decipher => engine.decipher(run),
    }
}

/// Enciphers or deciphers each block of a row, as many at a time as the engine takes; refuses a row that is not of whole blocks.
pub fn whole_row<E: Engine>(
    engine: &E,
    direction: Direction,
    row: &mut [u8],
) -> Result<(), EngineFault>
    ensures { RowReplaced E.block_length (in_direction direction (E.enc engine.now) (E.dec engine.now)) row.old row.new (engine_answer result) }
{
    let b = engine.block_len();
    if row.len() % b != 0 {
        return Err(EngineFault::RunLength);
    }
    let (n, width) = (row.len() / b, engine.lanes());
    let mut i = 0;
    while i < n {
        let m = width.min(n - i);
        if one_run(engine, direction, &mut row[i * b..(i + m) * b]).is_err() {
            unreachable!()
        }
        i += m;
    }
    Ok(())
}
