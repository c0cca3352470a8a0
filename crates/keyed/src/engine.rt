//! An engine that keeps the round keys as rows, and works on a bundle of blocks at a time.

ghost use Rattle.std.specs.Prelude.{◌≡◌, ℕ, ◌<◌, ◌≤◌, List, [], map, min, IfOk, slice_index_or};
ghost use Rattle.ublock.specs.Cipher.{rounds, inverse_rounds, encipher, decipher, block_length};
ghost use Rattle.ublock.specs.Variants.{parameters};
ghost use Rattle.cipher.specs.Engines.{Ran, engine_answer};
ghost use Rattle.cipher.specs.Keys.{Filled, key_answer};
ghost use Rattle.schedule.specs.Rows.{row_at};
ghost use Rattle.keyed.specs.Lanes.{EachLane};
ghost use Rattle.keyed.specs.RoundKeys.{row_key, HoldRoundKeys, keyed_E, keyed_D};
ghost use Rattle.keyed.specs.Lawful.{invertible_of, row_key_bytes};
ghost use Rattle.ublock.proofs.Rounds.{cipher_permutes};

use crate::bundle::Bundle;
use crate::key_row::KeyRow;
use cipher::engine::{Engine, EngineFault, KeyFault};
use schedule::register::Register;
use schedule::row::Row;
use std::marker::PhantomData;
use ublock::variant::Variant;

/// An engine of the variant; row j begins with round key j. It holds the key, so it is not printed or compared by `==`.
#[derive(Clone, Copy)]
pub struct Keyed<B, R> {
    variant: Variant,
    rows: [R; 25],
    bundle: PhantomData<B>,
}

impl<R: KeyRow, B: Bundle<R>> Keyed<B, R> {
    /// The engine of the variant of this number under the key.
    pub fn fill(variant: u32, key: &[u8]) -> Result<Keyed<B, R>, KeyFault>
        ensures cipher { Filled (block_length B.layout) ⟦<Keyed<B, R> as Engine>⟧.enc ⟦<Keyed<B, R> as Engine>⟧.dec variant key.now (key_answer result) }
        ensures round_keys { IfOk result (λ (e : Keyed B R). HoldRoundKeys R.key_bytes B.layout variant key.now e.variant e.rows) }
    {
        let variant = Variant::try_from(variant)?;
        if variant.block_len() != B::block_len() {
            return Err(KeyFault::NoVariant);
        }
        let start = Register::load(variant, key).ok_or(KeyFault::KeyLength)?;
        Ok(Keyed {
            variant,
            rows: key_rows(&start.rows(), start.variant.rounds()),
            bundle: PhantomData,
        })
    }

    /// Replaces each block of a run by its state after the first `count` rounds, or after all where the variant has fewer; the
    /// last key is not added.
    pub fn state_after(&self, count: usize, run: &mut [u8]) -> Result<(), EngineFault>
        ensures { Ran (block_length B.layout) B.lane_count (rounds B.layout (row_key R.key_bytes B.layout self.now.rows) (min count (parameters self.now.variant).round_count)) run.old run.new (engine_answer result) }
    {
        if run.is_empty() {
            return Ok(());
        }
        let bundle = B::load(run).ok_or(EngineFault::RunLength)?;
        self.rounds(count.min(self.variant.rounds()), bundle)
            .store(run);
        Ok(())
    }

    // Blocks after the first n rounds. Not inlined, so that what is compiled for the loop does not depend on the caller.
    #[inline(never)]
    fn rounds(&self, n: usize, bundle: B) -> B
        requires { n ≤ 24 }
        ensures { EachLane B.lane_count (λ i. B.lane result i ≡ rounds B.layout (row_key R.key_bytes B.layout self.now.rows) n (B.lane bundle i)) }
    {
        let mut bundle = bundle;
        for row in &self.rows[..n] {
            bundle = bundle.round(B::key(row));
        }
        bundle
    }

    // Blocks before their first n rounds.
    #[inline(never)]
    fn unrounds(&self, n: usize, bundle: B) -> B
        requires { n ≤ 24 }
        ensures { EachLane B.lane_count (λ i. B.lane result i ≡ inverse_rounds B.layout (row_key R.key_bytes B.layout self.now.rows) n (B.lane bundle i)) }
    {
        let mut bundle = bundle;
        for row in self.rows[..n].iter().rev() {
            bundle = bundle.unround(B::key(row));
        }
        bundle
    }

    // Blocks enciphered.
    fn enciphered(&self, bundle: B) -> B
        ensures { EachLane B.lane_count (λ i. B.lane result i ≡ keyed_E R.key_bytes B.layout self.now.rows self.now.variant (B.lane bundle i)) }
    {
        let n = self.variant.rounds();
        self.rounds(n, bundle).xor(B::key(&self.rows[n]))
    }

    // Blocks deciphered.
    fn deciphered(&self, bundle: B) -> B
        ensures { EachLane B.lane_count (λ i. B.lane result i ≡ keyed_D R.key_bytes B.layout self.now.rows self.now.variant (B.lane bundle i)) }
    {
        let n = self.variant.rounds();
        self.unrounds(n, bundle.xor(B::key(&self.rows[n])))
    }
}

impl<R: KeyRow, B: Bundle<R>> Engine for Keyed<B, R> {
    ghost block_length = { block_length B.layout };

    ghost lane_count = { B.lane_count };

    ghost enc = { λ s. keyed_E R.key_bytes B.layout s.rows s.variant };

    ghost dec = { λ s. keyed_D R.key_bytes B.layout s.rows s.variant };

    ghost shape = { B.shaped };

    ghost permutes = { λ e.
        cipher_permutes B.layout (invertible_of B.layout B.published) (row_key R.key_bytes B.layout e.rows)
        (row_key_bytes R.key_bytes R.of_bytes B.layout e.rows) (parameters e.variant).round_count };

    fn block_len(&self) -> usize {
        B::block_len()
    }

    fn lanes(&self) -> usize {
        B::lanes()
    }

    fn encipher(&self, run: &mut [u8]) -> Result<(), EngineFault> {
        if run.is_empty() {
            return Ok(());
        }
        let bundle = B::load(run).ok_or(EngineFault::RunLength)?;
        self.enciphered(bundle).store(run);
        Ok(())
    }

    fn decipher(&self, run: &mut [u8]) -> Result<(), EngineFault> {
        if run.is_empty() {
            return Ok(());
        }
        let bundle = B::load(run).ok_or(EngineFault::RunLength)?;
        self.deciphered(bundle).store(run);
        Ok(())
    }
}

// The rows in the form that the engine keeps. Those past the last round key's are the first again, and are not made anew.
fn key_rows<R: KeyRow>(rows: &[Row; 25], last: usize) -> [R; 25]
    requires { (j : ℕ) → last < j → j < 25 → row_at rows.now j ≡ row_at rows.now 0 }
    ensures { (j : ℕ) → j < 25 → slice_index_or (map R.key_bytes result) j [] ≡ row_at rows.now j }
{
    let mut kept = [R::of(&rows[0]); 25];
    for (j, row) in kept.iter_mut().enumerate() {
        if j <= last {
            *row = R::of(&rows[j]);
        }
    }
    kept
}
