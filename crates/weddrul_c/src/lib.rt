//! What a C program may call: the calls of `boundary`, under names of their own. `compare/weddrul.h` declares them for C.

#![tactic(auto)]

ghost use Rattle.std.specs.Prelude.{length};
ghost use Rattle.cipher.specs.Rows.{row_refusal};
ghost use Rattle.boundary.specs.Calls.{RowCiphered, SealedByNumber, OpenedByNumber, direction, mode, run_refusal};

/// Enciphers each block of one run, at most as many as the engine has lanes, or deciphers each where `decipher` says so.
#[unsafe(no_mangle)]
pub extern "C" fn weddrul_run(
    variant: u32,
    packed: bool,
    decipher: bool,
    key: &[u8],
    run: &mut [u8],
) -> u32
    ensures { RowCiphered (run_refusal packed (length run.old)) variant (direction decipher) key.now run.old run.new result }
{
    boundary::run(variant, packed, decipher, key, run)
}

/// Enciphers each block of a row of any number of them, or deciphers each where `decipher` says so, as many at a time as the engine has lanes.
#[unsafe(no_mangle)]
pub extern "C" fn weddrul_row(
    variant: u32,
    packed: bool,
    decipher: bool,
    key: &[u8],
    row: &mut [u8],
) -> u32
    ensures { RowCiphered (row_refusal (length row.old)) variant (direction decipher) key.now row.old row.new result }
{
    boundary::row(variant, packed, decipher, key, row)
}

/// Seals a row of readings into a page and zeroes the rest, in CBC where `cbc` says so, else in ECB.
#[unsafe(no_mangle)]
pub extern "C" fn weddrul_seal(
    variant: u32,
    packed: bool,
    cbc: bool,
    key: &[u8],
    start: &[u8],
    readings: &[u8],
    page: &mut [u8],
) -> u32
    ensures { SealedByNumber (record { variant = variant; mode = mode cbc; key = key.now; start = start.now }) readings.now page.old page.new result }
{
    boundary::seal(variant, packed, cbc, key, start, readings, page)
}

/// Opens the n readings of a page into one place of as many bytes, in CBC where `cbc` says so, else in ECB.
#[unsafe(no_mangle)]
pub extern "C" fn weddrul_open(
    variant: u32,
    packed: bool,
    cbc: bool,
    key: &[u8],
    start: &[u8],
    page: &[u8],
    n: usize,
    place: &mut [u8],
) -> u32
    ensures { OpenedByNumber (record { variant = variant; mode = mode cbc; key = key.now; start = start.now }) page.now n place.old place.new result }
{
    boundary::open(variant, packed, cbc, key, start, page, n, place)
}
