//! Blocks side by side, as an engine works on them.

ghost use Rattle.std.specs.Prelude.{◌≡◌, ◌↔◌, ℕ, ◌<◌, ◌≤◌, ◌*◌, false, true, suc, List, take, length, IsSome, IfSome};
ghost use Rattle.ublock.specs.Cipher.{Layout, block_length, round, inverse_round, xor};
ghost use Rattle.cipher.specs.Engines.{Shape, refused};
ghost use Rattle.halves.specs.Halves.{IsUblockLayout};
ghost use Rattle.ublock.specs.Parts.{part};
ghost use Rattle.keyed.specs.Lanes.{EachLane};

use crate::key_row::KeyRow;

/// A number of blocks side by side, one in each lane.
pub trait Bundle<R: KeyRow>: Copy {
    ghost layout: { Layout };

    ghost lane_count: { ℕ };

    // the block in a lane
    ghost lane: { Self → ℕ → List ℕ };

    /// The length of a block in bytes.
    fn block_len() -> usize
        ensures { result ≡ block_length layout };

    /// How many lanes there are.
    fn lanes() -> usize
        ensures { result ≡ lane_count };

    /// The round key of a row, in every lane.
    fn key(row: &R) -> Self
        ensures { EachLane lane_count (λ i. lane result i ≡ take (block_length layout) (R.key_bytes row.now)) };

    /// The exclusive or, lane by lane.
    fn xor(self, other: Self) -> Self
        ensures { EachLane lane_count (λ i. lane result i ≡ xor (lane self i) (lane other i)) };

    /// A round of each block under the round key in its lane.
    fn round(self, key: Self) -> Self
        ensures { EachLane lane_count (λ i. lane result i ≡ round layout (lane key i) (lane self i)) };

    /// Each block before a round under the round key in its lane.
    fn unround(self, key: Self) -> Self
        ensures { EachLane lane_count (λ i. lane result i ≡ inverse_round layout (lane key i) (lane self i)) };

    /// The blocks of a run in the first lanes; none where it ends within a block or has more blocks than lanes.
    fn load(run: &[u8]) -> Option<Self>
        ensures fits { IsSome result ↔ (refused (block_length layout) lane_count (length run.now) ≡ false) }
        ensures blocks { IfSome result (λ x. (i : ℕ) → suc i * block_length layout ≤ length run.now → lane x i ≡ part (block_length layout) i run.now) };

    /// Writes the blocks of the first lanes over a run that `load` takes; any other run stays.
    fn store(self, run: &mut [u8])
        ensures length { length run.new ≡ length run.old }
        ensures blocks { refused (block_length layout) lane_count (length run.old) ≡ false → (i : ℕ) → suc i * block_length layout ≤ length run.old → part (block_length layout) i run.new ≡ lane self i }
        ensures refused { refused (block_length layout) lane_count (length run.old) ≡ true → run.new ≡ run.old };

    ghost published: { IsUblockLayout layout };

    ghost shaped: { Shape (block_length layout) lane_count };
}
