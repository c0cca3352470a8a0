//! Electronic codebook (ECB): each block is enciphered by itself. NIST SP 800-38A.

ghost use Rattle.std.specs.Prelude.{false, length, replicate};
ghost use Rattle.modes.specs.Lawful.{ecb_rule};

use crate::mode::{Mode, ModeFault, fits};

/// Two masks of zeros.
#[derive(Clone, Copy, Debug, PartialEq, Eq, Hash)]
pub struct Ecb;

impl Mode for Ecb {
    ghost first_mask = { λ _ v i before. replicate (length v) 0 };

    ghost last_mask = { λ _ v i before. replicate (length v) 0 };

    ghost chained = { λ _. false };

    ghost rule = { λ _. ecb_rule };

    fn needs_before(&self) -> bool {
        false
    }

    fn masks(
        &self,
        start: &[u8],
        _index: usize,
        before: &[u8],
        first: &mut [u8],
        last: &mut [u8],
    ) -> Result<(), ModeFault> {
        if !fits(start.len(), before.len(), first.len(), last.len()) {
            return Err(ModeFault::PieceLength);
        }
        first.fill(0);
        last.fill(0);
        Ok(())
    }
}
