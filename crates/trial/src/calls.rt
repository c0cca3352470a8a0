//! The lists of calls that are played on a log, some of which are refused, and what stands after them.

use agreement::play::{Call, Turn};
use std::alloc::Global;

/// The blocks that a page has.
pub(crate) const BLOCKS: usize = 5;

/// Eight different readings of b bytes.
pub(crate) fn readings(heap: Global, b: usize) -> anyhow::Result<Vec<u8>> {
    let mut all = Vec::new(heap);
    for reading in 0..8u8 {
        for i in 0..b {
            all.push(reading.wrapping_mul(37).wrapping_add((i % 256) as u8))?;
        }
    }
    Ok(all)
}

/// Calls on a page of five blocks, of which 11 are accepted. Afterwards readings 7, 3, 4 and 5 stand; the reading that was
/// read is reading 3.
pub(crate) fn calls<'a>(heap: Global, b: usize, all: &'a [u8]) -> anyhow::Result<Vec<Turn<'a>>> {
    let mut turns = Vec::new(heap);
    turns.push(append(reading(all, b, 0)))?;
    turns.push(append(reading(all, b, 1)))?;
    turns.push(append(reading(all, 8, 2)))?;
    turns.push(append(reading(all, b, 2)))?;
    turns.push(amend(heap, 1, reading(all, b, 3), b.saturating_mul(2))?)?;
    turns.push(amend(heap, 0, reading(all, b, 3), b.saturating_mul(2))?)?;
    turns.push(amend(heap, 3, reading(all, b, 4), b.saturating_mul(4))?)?;
    turns.push(read(heap, 1, b)?)?;
    turns.push(read(heap, 3, b)?)?;
    turns.push(cut(4))?;
    turns.push(cut(2))?;
    turns.push(append(reading(all, b, 4)))?;
    turns.push(append(reading(all, b, 5)))?;
    turns.push(append(reading(all, b, 6)))?;
    turns.push(append(reading(all, b, 7)))?;
    turns.push(cut(4))?;
    turns.push(amend(heap, 0, reading(all, b, 7), b.saturating_mul(4))?)?;
    Ok(turns)
}

/// The same calls, and then reading 2 is amended.
pub(crate) fn parting<'a>(heap: Global, b: usize, all: &'a [u8]) -> anyhow::Result<Vec<Turn<'a>>> {
    let mut turns = calls(heap, b, all)?;
    turns.push(amend(heap, 2, reading(all, b, 6), b.saturating_mul(2))?)?;
    Ok(turns)
}

/// What stands after `calls`.
pub(crate) fn standing(heap: Global, b: usize, all: &[u8]) -> anyhow::Result<Vec<u8>> {
    let mut joined = Vec::new(heap);
    for i in [7, 3, 4, 5] {
        joined.extend_from_slice(reading(all, b, i))?;
    }
    Ok(joined)
}

// The i-th of readings of b bytes, as far as it goes.
fn reading<'a>(all: &'a [u8], b: usize, i: usize) -> &'a [u8] {
    let from = b.saturating_mul(i).min(all.len());
    let to = from.saturating_add(b).min(all.len());
    &all[from..to]
}

fn append<'a>(reading: &'a [u8]) -> Turn<'a> {
    Turn::new(Call::Append(reading))
}

fn cut<'a>(count: usize) -> Turn<'a> {
    Turn::new(Call::Cut(count))
}

// With a work buffer that is not zero before.
fn amend<'a>(
    heap: Global,
    index: usize,
    reading: &'a [u8],
    work: usize,
) -> anyhow::Result<Turn<'a>> {
    Ok(Turn::new(Call::Amend {
        index,
        reading,
        work: filled(heap, 0xff, work)?,
    }))
}

fn read<'a>(heap: Global, index: usize, place: usize) -> anyhow::Result<Turn<'a>> {
    Ok(Turn::new(Call::Read {
        index,
        place: filled(heap, 0, place)?,
    }))
}

/// Bytes that are all the same.
pub(crate) fn filled(heap: Global, byte: u8, len: usize) -> anyhow::Result<Vec<u8>> {
    let mut bytes = Vec::new(heap);
    for _ in 0..len {
        bytes.push(byte)?;
    }
    Ok(bytes)
}
