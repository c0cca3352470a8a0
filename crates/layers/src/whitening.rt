//! Two fixed values, added to each block before and after the engine below.

ghost use Rattle.std.specs.Prelude.{◌≡◌, ℕ, ◌<◌, ◌≤◌, List, take, if◌then◌else◌, is_ok};
ghost use Rattle.ublock.specs.Cipher.{xor};
ghost use Rattle.layers.specs.Layers.{whitened, added_to_blocks};
ghost use Rattle.layers.specs.Lawful.{whitened_permutes};

use crate::fixed::FixedValue;
use cipher::engine::{Engine, EngineFault};

/// An engine between two fixed values. It holds secrets, so it is not printed or compared by `==`.
#[derive(Clone, Copy)]
pub struct Whitening<E> {
    engine: E,
    first: FixedValue,
    last: FixedValue,
}

impl<E: Engine> Whitening<E> {
    /// The engine below with `first` added to each block before it and `last` after it: of each value as many bytes as a
    /// block has, the first ones.
    pub fn new(engine: E, first: [u8; 32], last: [u8; 32]) -> Whitening<E>
        ensures enciphers { (x : List ℕ) → ⟦<Whitening<E> as Engine>⟧.enc result x ≡ xor (E.enc engine (xor x (take E.block_length first))) (take E.block_length last) }
        ensures deciphers { (y : List ℕ) → ⟦<Whitening<E> as Engine>⟧.dec result y ≡ xor (E.dec engine (xor y (take E.block_length last))) (take E.block_length first) }
    {
        Whitening {
            engine,
            first: FixedValue::from(first),
            last: FixedValue::from(last),
        }
    }
}

impl<E: Engine> Engine for Whitening<E> {
    ghost block_length = { E.block_length };

    ghost lane_count = { E.lane_count };

    ghost enc = { λ s. whitened E.block_length s.first.bytes s.last.bytes (E.enc s.engine) };

    ghost dec = { λ s. whitened E.block_length s.last.bytes s.first.bytes (E.dec s.engine) };

    ghost shape = { E.shape };

    ghost permutes = { λ e.
        whitened_permutes E.block_length e.first.bytes e.last.bytes (E.enc e.engine) (E.dec e.engine)
        (E.permutes e.engine) e.first.of_bytes e.last.of_bytes };

    fn block_len(&self) -> usize {
        self.engine.block_len()
    }

    fn lanes(&self) -> usize {
        self.engine.lanes()
    }

    fn encipher(&self, run: &mut [u8]) -> Result<(), EngineFault> {
        let b = self.engine.block_len();
        self.first.add_to_blocks(b, run);
        let answer = self.engine.encipher(run);
        finish(answer, b, &self.first, &self.last, run)
    }

    fn decipher(&self, run: &mut [u8]) -> Result<(), EngineFault> {
        let b = self.engine.block_len();
        self.last.add_to_blocks(b, run);
        let answer = self.engine.decipher(run);
        finish(answer, b, &self.last, &self.first, run)
    }
}

// Hands on what the engine below answered for a run with `before` added to it. `after` is added to an accepted run; a
// refused one gets back what it was, since adding a value twice changes nothing.
fn finish(
    answer: Result<(), EngineFault>,
    b: usize,
    before: &FixedValue,
    after: &FixedValue,
    run: &mut [u8],
) -> Result<(), EngineFault>
    requires positive { 0 < b }
    requires fits { b ≤ 32 }
    ensures answer { result ≡ answer }
    ensures run { run.new ≡ added_to_blocks b (if is_ok answer then after.now.bytes else before.now.bytes) run.old }
{
    match answer {
        Ok(()) => after.add_to_blocks(b, run),
        Err(_) => before.add_to_blocks(b, run),
    }
    answer
}
