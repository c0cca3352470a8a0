//! Pages of the standard modes, by a variant's number.

use crate::calls::{filled, readings};
use crate::published::Example;
use modes::standard::StandardMode;
use pages::setup::{EngineKind, Setup};
use std::alloc::Global;

/// Seals a page by either engine in both modes and opens each by the other engine. Prints what came out, and says whether it is as it
/// should be: both engines make the same page, in ECB the published plaintext becomes the published ciphertext, and every
/// reading comes back.
pub(crate) fn seal_standard_pages(rt: &HostRuntime, example: &Example) -> anyhow::Result<bool> {
    let mut good = true;
    for mode in [StandardMode::Ecb, StandardMode::Cbc] {
        good = seal_sheet(rt, example, mode)? && good;
    }
    Ok(good)
}

// The same in one mode: the published plaintext and eight readings, then zeros.
fn seal_sheet(rt: &HostRuntime, example: &Example, mode: StandardMode) -> anyhow::Result<bool> {
    let heap = rt.alloc();
    let block = example.plain.as_slice();
    let mut row = block.to_vec(heap)?;
    row.extend_from_slice(readings(heap, block.len())?.as_slice())?;
    let start = filled(heap, 0, block.len())?;
    let plain = setup(example, EngineKind::Plain, mode, start.as_slice());
    let packed = setup(example, EngineKind::Packed, mode, start.as_slice());
    let of_plain = sealed(heap, plain, row.as_slice())?;
    let of_packed = sealed(heap, packed, row.as_slice())?;
    let same = of_plain.as_slice() == of_packed.as_slice();
    let front = &of_plain.as_slice()[..block.len().min(of_plain.len())];
    let published = front == example.cipher.as_slice();
    let back = opened(heap, packed, of_plain.as_slice(), row.len())?.as_slice() == row.as_slice()
        && opened(heap, plain, of_packed.as_slice(), row.len())?.as_slice() == row.as_slice();
    let text = hex::encode(heap, front)?;
    println!(rt;
        "  a page in {}: begins {text}, by both engines {}, opened by the other {}",
        name(mode),
        if same { "the same" } else { "NOT the same" },
        if back {
            "to what was sealed"
        } else {
            "NOT to what was sealed"
        }
    )?;
    Ok(same && published && back)
}

fn name(mode: StandardMode) -> &'static str {
    match mode {
        StandardMode::Ecb => "ECB",
        StandardMode::Cbc => "CBC from zeros",
    }
}

fn setup<'a>(
    example: &'a Example,
    engine: EngineKind,
    mode: StandardMode,
    start: &'a [u8],
) -> Setup<'a> {
    Setup {
        variant: example.variant,
        engine,
        mode,
        key: example.key.as_slice(),
        start,
    }
}

// A row of readings on a page with one block more.
fn sealed(heap: Global, setup: Setup, row: &[u8]) -> anyhow::Result<Vec<u8>> {
    let mut page = filled(heap, 0xff, row.len().saturating_add(setup.start.len()))?;
    setup.seal(row, page.as_mut_slice())?;
    Ok(page)
}

// The first so many bytes of readings of a page.
fn opened(heap: Global, setup: Setup, page: &[u8], len: usize) -> anyhow::Result<Vec<u8>> {
    let mut place = filled(heap, 0, len)?;
    let n = len / setup.start.len().max(1);
    setup.open(page, n, place.as_mut_slice())?;
    Ok(place)
}
