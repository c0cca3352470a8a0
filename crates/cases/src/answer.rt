//! What the calls answer.

use crate::case::{Call, Case};
use std::alloc::Global;

/// The number that a call answered, and the bytes of the run, page or place that it left.
#[derive(Drop)]
struct Outcome {
    number: u32,
    bytes: Vec<u8>,
}

/// The answer of both engines, or where they differ that of the plain engine and that of the packed one.
pub(crate) fn answer_line(heap: Global, case: &Case) -> anyhow::Result<String> {
    let plain = text(heap, case, false)?;
    let packed = text(heap, case, true)?;
    if plain.as_str() == packed.as_str() {
        return Ok(plain);
    }
    Ok(format!(in heap; "{plain} / {packed}")?)
}

// The answer of one engine: 0 and the bytes that it left, or the number of the refusal.
fn text(heap: Global, case: &Case, packed: bool) -> anyhow::Result<String> {
    let Outcome { number, bytes } = answer(heap, case, packed)?;
    if number != 0 {
        return Ok(format!(in heap; "{number}")?);
    }
    if bytes.is_empty() {
        return Ok(format!(in heap; "0 -")?);
    }
    let written = hex::encode(heap, bytes.as_slice())?;
    Ok(format!(in heap; "0 {written}")?)
}

fn answer(heap: Global, case: &Case, packed: bool) -> anyhow::Result<Outcome> {
    let (variant, key) = (case.variant, case.key.as_slice());
    match &case.call {
        Call::Run { decipher, run } => {
            let mut bytes = run.as_slice().to_vec(heap)?;
            let number = boundary::run(variant, packed, *decipher, key, bytes.as_mut_slice());
            Ok(Outcome { number, bytes })
        }
        Call::Seal {
            cbc,
            start,
            readings,
            page,
        } => {
            let mut bytes = zeros(heap, *page)?;
            let (start, readings) = (start.as_slice(), readings.as_slice());
            let number = boundary::seal(
                variant,
                packed,
                *cbc,
                key,
                start,
                readings,
                bytes.as_mut_slice(),
            );
            Ok(Outcome { number, bytes })
        }
        Call::Open {
            cbc,
            start,
            page,
            n,
            place,
        } => {
            let mut bytes = zeros(heap, *place)?;
            let (start, page) = (start.as_slice(), page.as_slice());
            let number = boundary::open(
                variant,
                packed,
                *cbc,
                key,
                start,
                page,
                *n,
                bytes.as_mut_slice(),
            );
            Ok(Outcome { number, bytes })
        }
    }
}

fn zeros(heap: Global, len: usize) -> anyhow::Result<Vec<u8>> {
    let mut all = Vec::new(heap);
    all.resize(len, 0)?;
    Ok(all)
}
