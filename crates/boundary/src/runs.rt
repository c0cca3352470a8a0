//! One run of an engine.

ghost use Rattle.std.specs.Prelude.{◌≡◌, true, false, length, IfSome};
ghost use Rattle.ublock.specs.Cipher.{block_length};
ghost use Rattle.ublock.specs.Variants.{numbered};
ghost use Rattle.cipher.specs.Keys.{Filled, key_answer};
ghost use Rattle.pages.specs.Calls.{size};
ghost use Rattle.boundary.specs.Calls.{RowCiphered, lanes, run_refusal};

use crate::numbers;
use cipher::engine::{Engine, KeyFault};
use cipher::rows::{Direction, one_run};
use packed::Packed;
use packed::arrangement::Arrangement;
use plain::Plain;
use ublock::variant::Variant;

/// Whether the variant of this number has blocks of 32 bytes.
pub(crate) fn is_wide(variant: u32) -> bool
    ensures wide { result ≡ true → IfSome (numbered variant) (λ v. size v ≡ 32) }
    ensures narrow { result ≡ false → IfSome (numbered variant) (λ v. size v ≡ 16) }
{
    match Variant::try_from(variant) {
        Ok(variant) => variant.block_len() == 32,
        Err(_) => false,
    }
}

// The run in blocks of two such halves.
pub(crate) fn run_halves<H: Arrangement>(
    variant: u32,
    packed: bool,
    direction: Direction,
    key: &[u8],
    run: &mut [u8],
) -> u32
    requires length { IfSome (numbered variant) (λ v. size v ≡ block_length H.layout) }
    ensures { RowCiphered (run_refusal packed (length run.old)) variant direction key.now run.old run.new result }
{
    if packed {
        run_with(
            variant,
            key,
            Packed::<H>::fill(variant, key),
            packed,
            direction,
            run,
        )
    } else {
        run_with(
            variant,
            key,
            Plain::<H>::fill(variant, key),
            packed,
            direction,
            run,
        )
    }
}

// The run through an engine that was filled for the variant and key.
fn run_with<E: Engine + Copy>(
    variant: u32,
    key: &[u8],
    engine: Result<E, KeyFault>,
    packed: bool,
    direction: Direction,
    run: &mut [u8],
) -> u32
    requires filled { Filled E.block_length E.enc E.dec variant key.now (key_answer engine) }
    requires length { IfSome (numbered variant) (λ v. size v ≡ E.block_length) }
    requires lanes { E.lane_count ≡ lanes packed E.block_length }
    ensures { RowCiphered (run_refusal packed (length run.old)) variant direction key.now run.old run.new result }
{
    match engine {
        Ok(engine) => numbers::of_engine(one_run(&engine, direction, run)),
        Err(fault) => numbers::of_key(fault),
    }
}
