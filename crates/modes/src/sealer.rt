//! Rows of readings sealed, and sealed blocks opened.

ghost use Rattle.std.specs.Prelude.{◌≡◌, ℕ, true, ◌+◌, ◌*◌, ◌/◌, ◌^◌, ◌<◌, ◌≤◌, ◌++◌, length, take, drop, IfSome, is_some, nat_le, ◌==◌};
ghost use Rattle.ublock.specs.Laws.{Block};
ghost use Rattle.modes.specs.Examples.{SealedAsWorked};
ghost use Rattle.modes.specs.Sealing.{blocks, joined, opened, previous, scheme, scheme_of, sealed, whole_blocks};

use crate::kept_block::KeptBlock;
use crate::masks::{previous_block, write_masks};
use crate::mode::Mode;
use cipher::addition::add;
use cipher::engine::Engine;
use cipher::rows::{Direction, whole_row};

/// An engine, a mode and a start block: what fixes the bytes of sealed blocks. It may hold a key, so it is not printed or
/// compared by `==`.
#[derive(Clone, Copy)]
pub struct Sealer<E, M> {
    pub(crate) engine: E,
    pub(crate) mode: M,
    pub(crate) start: KeptBlock,
}

/// Where a row of blocks begins: the index of its first block, and the sealed block before that.
#[derive(Clone, Copy)]
pub struct Position {
    pub(crate) index: usize,
    pub(crate) before: KeptBlock,

    // so that no index of a row runs over
    ghost small: { index < 2 ^ 60 },
}

impl<E: Engine + Copy, M: Mode> Sealer<E, M> {
    /// `None` where the start block is not as long as the engine's blocks.
    pub fn new(engine: E, mode: M, start: &[u8]) -> Option<Sealer<E, M>>
        ensures start_fits { is_some result ≡ (length start.now == E.block_length) }
        ensures parts { IfSome result (λ s. (s.engine ≡ engine) × (s.mode ≡ mode) × (take E.block_length s.start.bytes ≡ start.now)) }
        ensures scheme { IfSome result (λ s. scheme_of E.Engine M.Mode s ≡ scheme E.Engine M.Mode engine mode start.now) }
    {
        if start.len() != engine.block_len() {
            return None;
        }
        Some(Sealer {
            engine,
            mode,
            start: KeptBlock::of(start),
        })
    }

    /// The length of a block in bytes.
    pub fn block_len(&self) -> usize
        ensures length { result ≡ E.block_length }
        ensures start { Block result (take result self.now.start.bytes) }
    {
        self.engine.block_len()
    }

    /// The position at index 0, after the start block. From there a row of readings is sealed as in the worked example.
    pub fn start(&self) -> Position
        ensures index { result.index ≡ 0 }
        ensures before { result.before ≡ self.now.start }
        ensures as_worked { SealedAsWorked }
    {
        Position {
            index: 0,
            before: self.start,
        }
    }

    /// The position of block `index` of a page; `None` where fewer blocks stand before it.
    pub fn position(&self, index: usize, page: &[u8]) -> Option<Position>
        ensures within { is_some result ≡ nat_le index (length page.now / E.block_length) }
        ensures there { IfSome result (λ at. (at.index ≡ index) × (take E.block_length at.before.bytes ≡ previous E.block_length (take E.block_length self.now.start.bytes) index page.now)) }
    {
        let b = self.engine.block_len();
        if index > page.len() / b {
            return None;
        }
        let before = KeptBlock::of(previous_block(b, &self.start.bytes[..b], index, page));
        Some(Position { index, before })
    }

    /// Seals readings as the blocks from a position on, as many whole blocks as both rows have.
    pub fn seal(&self, at: Position, readings: &[u8], row: &mut [u8])
        ensures { row.new ≡
            joined (sealed (scheme_of E.Engine M.Mode self.now) at.index (take E.block_length at.before.bytes) (blocks E.block_length (whole_blocks E.block_length (length readings.now) (length row.old)) readings.now))
            ++ drop (whole_blocks E.block_length (length readings.now) (length row.old) * E.block_length) row.old }
    {
        let mut first = [0; 256];
        let mut last = [0; 256];
        let b = self.engine.block_len();
        let n = (readings.len() / b).min(row.len() / b);
        self.seal_rows(b, at, n, readings, row, &mut first, &mut last);
    }

    /// Opens the blocks of a row that begins at a position, as many whole blocks as both rows have.
    pub fn open(&self, at: Position, row: &[u8], readings: &mut [u8])
        ensures { readings.new ≡
            joined (opened (scheme_of E.Engine M.Mode self.now) at.index (take E.block_length at.before.bytes) (blocks E.block_length (whole_blocks E.block_length (length row.now) (length readings.old)) row.now))
            ++ drop (whole_blocks E.block_length (length row.now) (length readings.old) * E.block_length) readings.old }
    {
        let mut first = [0; 256];
        let mut last = [0; 256];
        let b = self.engine.block_len();
        let n = (row.len() / b).min(readings.len() / b);
        self.open_rows(b, at, n, row, readings, &mut first, &mut last);
    }

    // How many blocks are sealed at once, at most this many: one where the mode needs the block before.
    fn seal_width(&self, most: usize) -> usize
        requires { 0 < most }
        ensures positive { 0 < result }
        ensures most { result ≤ most }
        ensures one { M.chained self.now.mode ≡ true → result ≤ 1 }
    {
        if self.mode.needs_before() { 1 } else { most }
    }

    // Seals n blocks in groups, of one block where the mode needs the block before. The last two places hold the masks of a group.
    fn seal_rows(
        &self,
        b: usize,
        at: Position,
        n: usize,
        readings: &[u8],
        row: &mut [u8],
        first: &mut [u8],
        last: &mut [u8],
    )
        requires length { b ≡ E.block_length }
        requires readings { n * b ≤ length readings.now }
        requires row { n * b ≤ length row.old }
        requires first { length first.old ≡ 256 }
        requires last { length last.old ≡ 256 }
        ensures { row.new ≡ joined (sealed (scheme_of E.Engine M.Mode self.now) at.index (take b at.before.bytes) (blocks b n readings.now)) ++ drop (n * b) row.old }
    {
        let width = self.seal_width(first.len() / b);
        let mut i = 0;
        while i < n {
            let m = width.min(n - i);
            let (from, to) = (i * b, (i + m) * b);
            let before = KeptBlock::of(previous_block(b, &at.before.bytes[..b], i, row));
            let (first_group, last_group) = (&mut first[..m * b], &mut last[..m * b]);
            self.seal_group(
                b,
                at.index + i,
                &before.bytes[..b],
                m,
                &readings[from..to],
                &mut row[from..to],
                first_group,
                last_group,
            );
            i += m;
        }
    }

    // Opens n blocks in groups. The last two places hold the masks of a group.
    fn open_rows(
        &self,
        b: usize,
        at: Position,
        n: usize,
        row: &[u8],
        readings: &mut [u8],
        first: &mut [u8],
        last: &mut [u8],
    )
        requires length { b ≡ E.block_length }
        requires row { n * b ≤ length row.now }
        requires readings { n * b ≤ length readings.old }
        requires first { length first.old ≡ 256 }
        requires last { length last.old ≡ 256 }
        ensures { readings.new ≡ joined (opened (scheme_of E.Engine M.Mode self.now) at.index (take b at.before.bytes) (blocks b n row.now)) ++ drop (n * b) readings.old }
    {
        let width = first.len() / b;
        let mut i = 0;
        while i < n {
            let m = width.min(n - i);
            let (from, to) = (i * b, (i + m) * b);
            let before = previous_block(b, &at.before.bytes[..b], i, row);
            let (first_group, last_group) = (&mut first[..m * b], &mut last[..m * b]);
            self.open_group(
                b,
                at.index + i,
                before,
                m,
                &row[from..to],
                &mut readings[from..to],
                first_group,
                last_group,
            );
            i += m;
        }
    }

    // Seals n blocks at once, with the masks along the row of readings: so it is one block if the mode needs the block before.
    fn seal_group(
        &self,
        b: usize,
        index: usize,
        before: &[u8],
        n: usize,
        readings: &[u8],
        row: &mut [u8],
        first: &mut [u8],
        last: &mut [u8],
    )
        requires length { b ≡ E.block_length }
        requires before { length before.now ≡ b }
        requires one { M.chained self.now.mode ≡ true → n ≤ 1 }
        requires readings { length readings.now ≡ n * b }
        requires row { length row.old ≡ n * b }
        requires first { length first.old ≡ n * b }
        requires last { length last.old ≡ n * b }
        requires index { index + n < 2 ^ 64 }
        ensures { row.new ≡ joined (sealed (scheme_of E.Engine M.Mode self.now) index before.now (blocks b n readings.now)) }
    {
        write_masks(
            &self.mode,
            &self.start.bytes[..b],
            index,
            before,
            n,
            readings,
            first,
            last,
        );
        row.copy_from_slice(readings);
        add(row, first);
        if whole_row(&self.engine, Direction::Encipher, row).is_err() {
            unreachable!()
        }
        add(row, last);
    }

    // Opens n blocks at once. The masks follow the sealed blocks, which all stand in `row`.
    fn open_group(
        &self,
        b: usize,
        index: usize,
        before: &[u8],
        n: usize,
        row: &[u8],
        readings: &mut [u8],
        first: &mut [u8],
        last: &mut [u8],
    )
        requires length { b ≡ E.block_length }
        requires before { length before.now ≡ b }
        requires row { length row.now ≡ n * b }
        requires readings { length readings.old ≡ n * b }
        requires first { length first.old ≡ n * b }
        requires last { length last.old ≡ n * b }
        requires index { index + n < 2 ^ 64 }
        ensures { readings.new ≡ joined (opened (scheme_of E.Engine M.Mode self.now) index before.now (blocks b n row.now)) }
    {
        write_masks(
            &self.mode,
            &self.start.bytes[..b],
            index,
            before,
            n,
            row,
            first,
            last,
        );
        readings.copy_from_slice(row);
        add(readings, last);
        if whole_row(&self.engine, Direction::Decipher, readings).is_err() {
            unreachable!()
        }
        add(readings, first);
    }
}
