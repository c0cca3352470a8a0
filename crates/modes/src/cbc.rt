//! Cipher block chaining (CBC): the sealed block before is added to a reading. NIST SP 800-38A.

ghost use Rattle.std.specs.Prelude.{true, length, replicate};
ghost use Rattle.modes.specs.Lawful.{cbc_rule};

use crate::mode::{Mode, ModeFault, fits};

/// The block before as first mask, zeros as last.
#[derive(Clone, Copy, Debug, PartialEq, Eq, Hash)]
pub struct Cbc;

impl Mode for Cbc {
    ghost first_mask = { λ _ v i before. before };

    ghost last_mask = { λ _ v i before. replicate (length v) 0 };

    ghost chained = { λ _. true };

    ghost rule = { λ _. cbc_rule };

    fn needs_before(&self) -> bool {
        true
    }

    fn masks(
        &self,
        start: &[u8],
        _index: usize,
        before: &[u8],
        first: &mut [u8],
        last: &mut [u8],
    ) -> Result<(), ModeFault> {
        if !fits(start.len(), before.len(), first.len(), last.len()) {
            return Err(ModeFault::PieceLength);
        }
        first.copy_from_slice(before);
        last.fill(0);
        Ok(())
    }
}
