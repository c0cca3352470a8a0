//! Layers stacked over an engine.

use cipher::engine::{Engine, EngineFault};
use layers::cascade::Cascade;
use layers::whitening::Whitening;

/// Four layers: two engines in turn, values around them, two of that in turn, and values around all.
pub(crate) type LayerStack<E> = Whitening<Cascade<Whitening<Cascade<E>>>>;

// What one layer adds, another adds again: it cancels.
const MASK: [u8; 32] = [0x0f; 32];

/// The stack that enciphers one block to what the engine does: its inner part takes the block to itself and its outer part
/// to the image, whatever the two engines in turn make of it.
pub(crate) fn stack<E: Engine + Copy>(
    engine: E,
    block: &[u8],
    image: &[u8],
) -> Result<LayerStack<E>, EngineFault> {
    let pair = Cascade::new(engine, engine);
    let mut twice = value(block);
    pair.encipher(&mut twice[..block.len().min(32)])?;
    let inner = Whitening::new(pair, MASK, sum(&twice, &value(block)));
    let outer = Whitening::new(pair, [0; 32], sum(&sum(&twice, &value(image)), &MASK));
    Ok(Whitening::new(Cascade::new(outer, inner), MASK, MASK))
}

// Bytes at the front of a fixed value, and zeros after them.
fn value(bytes: &[u8]) -> [u8; 32] {
    let len = bytes.len().min(32);
    let mut value = [0; 32];
    value[..len].copy_from_slice(&bytes[..len]);
    value
}

fn sum(x: &[u8; 32], y: &[u8; 32]) -> [u8; 32] {
    let mut sum = *x;
    for (i, byte) in sum.iter_mut().enumerate() {
        *byte ^= y[i];
    }
    sum
}
