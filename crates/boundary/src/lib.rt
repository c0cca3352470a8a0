//! Calls on numbers, truth values and bytes alone: blocks enciphered and deciphered, and pages sealed and opened. Each call fills its engine
//! by the number of a variant, takes the packed engine where `packed` says so, else the plain one, and answers 0 or the number of a refusal.

#![tactic(auto)]

mod numbers;
mod rows;
mod runs;

ghost use Rattle.std.specs.Prelude.{◌≡◌, length};
ghost use Rattle.cipher.specs.Rows.{row_refusal};
ghost use Rattle.boundary.specs.Calls.{RowCiphered, SealedByNumber, OpenedByNumber, direction, mode, run_refusal};

use cipher::rows::Direction;
use halves::{Narrow, Wide};
use modes::standard::StandardMode;
use pages::setup::{EngineKind, Setup};

/// Enciphers each block of one run, at most as many as the engine has lanes, or deciphers each where `decipher` says so.
pub fn run(variant: u32, packed: bool, decipher: bool, key: &[u8], run: &mut [u8]) -> u32
    ensures { RowCiphered (run_refusal packed (length run.old)) variant (direction decipher) key.now run.old run.new result }
{
    let direction = direction_of(decipher);
    if runs::is_wide(variant) {
        runs::run_halves::<Wide>(variant, packed, direction, key, run)
    } else {
        runs::run_halves::<Narrow>(variant, packed, direction, key, run)
    }
}

/// Enciphers each block of a row of any number of them, or deciphers each where `decipher` says so, as many at a time as the engine has lanes.
pub fn row(variant: u32, packed: bool, decipher: bool, key: &[u8], row: &mut [u8]) -> u32
    ensures { RowCiphered (row_refusal (length row.old)) variant (direction decipher) key.now row.old row.new result }
{
    let direction = direction_of(decipher);
    if runs::is_wide(variant) {
        rows::row_halves::<Wide>(variant, packed, direction, key, row)
    } else {
        rows::row_halves::<Narrow>(variant, packed, direction, key, row)
    }
}

/// Seals a row of readings into a page and zeroes the rest, in CBC where `cbc` says so, else in ECB.
pub fn seal(
    variant: u32,
    packed: bool,
    cbc: bool,
    key: &[u8],
    start: &[u8],
    readings: &[u8],
    page: &mut [u8],
) -> u32
    ensures { SealedByNumber (record { variant = variant; mode = mode cbc; key = key.now; start = start.now }) readings.now page.old page.new result }
{
    let setup = Setup {
        variant,
        engine: engine_kind(packed),
        mode: standard_mode(cbc),
        key,
        start,
    };
    numbers::of_log(setup.seal(readings, page))
}

/// Opens the n readings of a page into one place of as many bytes, in CBC where `cbc` says so, else in ECB.
pub fn open(
    variant: u32,
    packed: bool,
    cbc: bool,
    key: &[u8],
    start: &[u8],
    page: &[u8],
    n: usize,
    place: &mut [u8],
) -> u32
    ensures { OpenedByNumber (record { variant = variant; mode = mode cbc; key = key.now; start = start.now }) page.now n place.old place.new result }
{
    let setup = Setup {
        variant,
        engine: engine_kind(packed),
        mode: standard_mode(cbc),
        key,
        start,
    };
    numbers::of_log(setup.open(page, n, place))
}

fn direction_of(decipher: bool) -> Direction
    ensures { result ≡ direction decipher }
{
    if decipher {
        Direction::Decipher
    } else {
        Direction::Encipher
    }
}

fn engine_kind(packed: bool) -> EngineKind {
    if packed {
        EngineKind::Packed
    } else {
        EngineKind::Plain
    }
}

fn standard_mode(cbc: bool) -> StandardMode
    ensures { result ≡ mode cbc }
{
    if cbc {
        StandardMode::Cbc
    } else {
        StandardMode::Ecb
    }
}
