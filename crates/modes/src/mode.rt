//! What a mode is, and how its call refuses.

ghost use Rattle.std.specs.Prelude.{◌≡◌, ℕ, Bool, not, List, Some};
ghost use Rattle.modes.specs.Modes.{BlockLength, Mask, Masked, Rule, misfit, mode_answer, mode_fault_text};

use std::error::Error;
use std::fmt;
use std::fmt::Display;

/// Why masks are refused.
#[derive(Clone, Copy, Debug, PartialEq, Eq, Hash)]
pub enum ModeFault {
    /// the four pieces are not all of 16 or all of 32 bytes
    PieceLength,
}

/// A mode of operation: the first mask is added to a reading before the engine enciphers it, the last one after. Both are
/// functions of the start block, the block's index and the sealed block before it, which at index 0 is the start block.
pub trait Mode: Copy {
    ghost first_mask: { Self → Mask };

    ghost last_mask: { Self → Mask };

    ghost chained: { Self → Bool };

    /// Whether the masks need the block before.
    fn needs_before(&self) -> bool
        ensures { result ≡ chained self.now };

    /// Writes both masks into two places.
    fn masks(
        &self,
        start: &[u8],
        index: usize,
        before: &[u8],
        first: &mut [u8],
        last: &mut [u8],
    ) -> Result<(), ModeFault>
        ensures { Masked (first_mask self.now) (last_mask self.now) start.now index before.now first.old last.old first.new last.new (mode_answer result) };

    ghost rule: { (m : Self) (b : ℕ) → BlockLength b → Rule b (first_mask m) (last_mask m) (chained m) };
}

// Whether four pieces of these lengths are all of 16 or all of 32 bytes.
pub(crate) fn fits(m: usize, n: usize, o: usize, p: usize) -> bool
    ensures { result ≡ not (misfit m n o p) }
{
    (m == 16 || m == 32) && n == m && o == m && p == m
}

impl Display for ModeFault {
    ghost output = { λ fault. Some (mode_fault_text fault) };

    fn fmt<W: fmt::Write>(&self, f: &mut fmt::Formatter<W>) -> fmt::Result {
        f.write_str(match self {
            ModeFault::PieceLength => {
                "start block, block before and masks are not all of 16 or all of 32 bytes"
            }
        })
    }
}

impl Error for ModeFault {}
