//! Blocks side by side, and what each is enciphered to.

use cipher::engine::Engine;
use std::alloc::Global;

/// Blocks, and at the place of each what it is enciphered to.
#[derive(Drop)]
pub struct Lineup {
    blocks: Vec<Vec<u8>>,
    images: Vec<Vec<u8>>,
}

/// How many runs came out as they should, of how many.
#[derive(Clone, Copy)]
pub struct Tally {
    pub alike: usize,
    pub tried: usize,
}

impl Tally {
    fn note(self, alike: bool) -> Tally {
        Tally {
            alike: self.alike.saturating_add(usize::from(alike)),
            tried: self.tried.saturating_add(1),
        }
    }
}

/// A run of one block again and again.
pub(crate) fn repeated(heap: Global, block: &[u8], count: usize) -> anyhow::Result<Vec<u8>> {
    let mut run = Vec::new(heap);
    for _ in 0..count {
        run.extend_from_slice(block)?;
    }
    Ok(run)
}

/// One block again and again, each by itself.
pub(crate) fn equal(
    heap: Global,
    block: &[u8],
    image: &[u8],
    count: usize,
) -> anyhow::Result<Lineup> {
    let mut blocks = Vec::new(heap);
    let mut images = Vec::new(heap);
    for _ in 0..count {
        blocks.push(block.to_vec(heap)?)?;
        images.push(image.to_vec(heap)?)?;
    }
    Ok(Lineup { blocks, images })
}

/// A block, what it is enciphered to, what that is enciphered to, and so on, by an engine that takes one at a time.
pub(crate) fn different<E: Engine>(
    heap: Global,
    engine: &E,
    block: &[u8],
    count: usize,
) -> anyhow::Result<Lineup> {
    let mut blocks = Vec::new(heap);
    let mut images = Vec::new(heap);
    let mut last = block.to_vec(heap)?;
    for _ in 0..count {
        blocks.push(last.as_slice().to_vec(heap)?)?;
        engine.encipher(last.as_mut_slice())?;
        images.push(last.as_slice().to_vec(heap)?)?;
    }
    Ok(Lineup { blocks, images })
}

/// Puts the first blocks through an engine and back: none, one, and so on to all, each block at each place.
pub(crate) fn through<E: Engine>(
    heap: Global,
    engine: &E,
    lineup: &Lineup,
) -> anyhow::Result<Tally> {
    let mut run = Vec::new(heap);
    let mut images = Vec::new(heap);
    let mut tally = Tally { alike: 0, tried: 0 };
    tally = tally.note(there_and_back(heap, engine, run.as_slice(), images.as_slice())?);
    for (block, image) in lineup.blocks.iter().zip(lineup.images.iter()) {
        run.extend_from_slice(block.as_slice())?;
        images.extend_from_slice(image.as_slice())?;
        tally = each_rotation(heap, engine, run.as_slice(), images.as_slice(), tally)?;
    }
    Ok(tally)
}

// The run rotated by no block, by one, by two, and so on.
fn each_rotation<E: Engine>(
    heap: Global,
    engine: &E,
    run: &[u8],
    images: &[u8],
    tally: Tally,
) -> anyhow::Result<Tally> {
    let len = engine.block_len().max(1);
    let mut tally = tally;
    for (i, _) in run.chunks_exact(len).enumerate() {
        let rotated_run = rotated(heap, run, i.saturating_mul(len))?;
        let rotated_images = rotated(heap, images, i.saturating_mul(len))?;
        tally = tally.note(there_and_back(
            heap,
            engine,
            rotated_run.as_slice(),
            rotated_images.as_slice(),
        )?);
    }
    Ok(tally)
}

// Whether a run is enciphered to these images, and deciphered again.
fn there_and_back<E: Engine>(
    heap: Global,
    engine: &E,
    run: &[u8],
    images: &[u8],
) -> anyhow::Result<bool> {
    let mut bytes = run.to_vec(heap)?;
    engine.encipher(bytes.as_mut_slice())?;
    let there = bytes.as_slice() == images;
    engine.decipher(bytes.as_mut_slice())?;
    Ok(there && bytes.as_slice() == run)
}

// What stands after a place, and then what stands before it.
fn rotated(heap: Global, bytes: &[u8], at: usize) -> anyhow::Result<Vec<u8>> {
    let (before, after) = bytes.split_at(at.min(bytes.len()));
    let mut all = after.to_vec(heap)?;
    all.extend_from_slice(before)?;
    Ok(all)
}
