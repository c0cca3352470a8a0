//! Two engines of one type, one after the other.

ghost use Rattle.std.specs.Prelude.{◌≡◌, ℕ, List};
ghost use Rattle.layers.specs.Lawful.{cascade_permutes};

use cipher::engine::{Engine, EngineFault};

/// Enciphers by the inner engine, then by the outer one. It holds what they hold, so it is not printed or compared by `==`.
#[derive(Clone, Copy)]
pub struct Cascade<E> {
    outer: E,
    inner: E,
}

impl<E: Engine> Cascade<E> {
    /// The engine that enciphers by `inner` and then by `outer`.
    pub fn new(outer: E, inner: E) -> Cascade<E>
        ensures enciphers { (x : List ℕ) → ⟦<Cascade<E> as Engine>⟧.enc result x ≡ E.enc outer (E.enc inner x) }
        ensures deciphers { (y : List ℕ) → ⟦<Cascade<E> as Engine>⟧.dec result y ≡ E.dec inner (E.dec outer y) }
    {
        Cascade { outer, inner }
    }
}

impl<E: Engine> Engine for Cascade<E> {
    ghost block_length = { E.block_length };

    ghost lane_count = { E.lane_count };

    ghost enc = { λ s x. E.enc s.outer (E.enc s.inner x) };

    ghost dec = { λ s x. E.dec s.inner (E.dec s.outer x) };

    ghost shape = { E.shape };

    ghost permutes = { λ e.
        cascade_permutes E.block_length (E.enc e.outer) (E.dec e.outer) (E.enc e.inner) (E.dec e.inner)
        (E.permutes e.outer) (E.permutes e.inner) };

    fn block_len(&self) -> usize {
        self.inner.block_len()
    }

    fn lanes(&self) -> usize {
        self.inner.lanes()
    }

    fn encipher(&self, run: &mut [u8]) -> Result<(), EngineFault> {
        self.inner.encipher(run)?;
        self.outer.encipher(run)
    }

    fn decipher(&self, run: &mut [u8]) -> Result<(), EngineFault> {
        self.outer.decipher(run)?;
        self.inner.decipher(run)
    }
}
