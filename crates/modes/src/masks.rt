//! The masks along a row of blocks.

ghost use Rattle.std.specs.Prelude.{◌≡◌, ℕ, ◌+◌, ◌*◌, ◌^◌, ◌<◌, ◌≤◌, length};
ghost use Rattle.modes.specs.Modes.{BlockLength};
ghost use Rattle.modes.specs.Sealing.{blocks, masks_along, previous};

use crate::mode::Mode;

// Writes both masks of each of the n blocks of a row, the first of which has this index and stands after the block `before`.
pub(crate) fn write_masks<M: Mode>(
    mode: &M,
    start: &[u8],
    index: usize,
    before: &[u8],
    n: usize,
    row: &[u8],
    first: &mut [u8],
    last: &mut [u8],
)
    requires start { BlockLength (length start.now) }
    requires before { length before.now ≡ length start.now }
    requires row { length row.now ≡ n * length start.now }
    requires first { length first.old ≡ n * length start.now }
    requires last { length last.old ≡ n * length start.now }
    requires index { index + n < 2 ^ 64 }
    ensures first { first.new ≡ masks_along (M.first_mask mode.now) start.now index before.now (blocks (length start.now) n row.now) }
    ensures last { last.new ≡ masks_along (M.last_mask mode.now) start.now index before.now (blocks (length start.now) n row.now) }
{
    let b = start.len();
    for i in 0..n {
        let previous = previous_block(b, before, i, row);
        let (from, to) = (i * b, (i + 1) * b);
        let (first_mask, last_mask) = (&mut first[from..to], &mut last[from..to]);
        if mode
            .masks(start, index + i, previous, first_mask, last_mask)
            .is_err()
        {
            unreachable!()
        }
    }
}

// The block before block i of a row that follows the block `before`.
pub(crate) fn previous_block<'a>(b: usize, before: &'a [u8], i: usize, row: &'a [u8]) -> &'a [u8]
    requires { i * b ≤ length row.now }
    ensures { result.now ≡ previous b before.now i row.now }
{
    if i == 0 {
        return before;
    }
    &row[(i - 1) * b..i * b]
}
