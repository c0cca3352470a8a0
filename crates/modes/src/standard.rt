//! ECB or CBC, chosen at run time.

ghost use Rattle.std.specs.Prelude.{length, replicate};
ghost use Rattle.modes.specs.Lawful.{standard_rule};
ghost use Rattle.modes.specs.StandardModes.{standard_first, standard_chained};

use crate::cbc::Cbc;
use crate::ecb::Ecb;
use crate::mode::{Mode, ModeFault};

/// One of the two modes.
#[derive(Clone, Copy, Debug, PartialEq, Eq, Hash)]
pub enum StandardMode {
    Ecb,
    Cbc,
}

impl Mode for StandardMode {
    ghost first_mask = { standard_first };

    ghost last_mask = { λ _ v i before. replicate (length v) 0 };

    ghost chained = { standard_chained };

    ghost rule = { standard_rule };

    fn needs_before(&self) -> bool {
        match self {
            StandardMode::Ecb => Ecb.needs_before(),
            StandardMode::Cbc => Cbc.needs_before(),
        }
    }

    fn masks(
        &self,
        start: &[u8],
        index: usize,
        before: &[u8],
        first: &mut [u8],
        last: &mut [u8],
    ) -> Result<(), ModeFault> {
        match self {
            StandardMode::Ecb => Ecb.masks(start, index, before, first, last),
            StandardMode::Cbc => Cbc.masks(start, index, before, first, last),
        }
    }
}
