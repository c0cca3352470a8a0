//! The numbers of refusals.

ghost use Rattle.std.specs.Prelude.{◌≡◌, ℕ, Err};
ghost use Rattle.cipher.specs.Engines.{engine_answer};
ghost use Rattle.cipher.specs.Keys.{key_answer};
ghost use Rattle.beatlog.specs.Faults.{log_answer};

use beatlog::fault::LogFault;
use cipher::engine::{EngineFault, KeyFault};

/// The number of a call on a page: 0 where it did its work.
pub(crate) fn of_log(answer: Result<usize, LogFault>) -> u32
    ensures { result ≡ (log_answer answer).number }
{
    match answer {
        Ok(_) => 0,
        Err(fault) => u32::from(fault.number()),
    }
}

/// The number of a refusal to fill.
pub(crate) fn of_key(fault: KeyFault) -> u32
    ensures number { result ≡ (key_answer {T = ℕ} (Err fault)).number }
{
    u32::from(LogFault::Key(fault).number())
}

/// The number of a run: 0 where the engine did its work.
pub(crate) fn of_engine(answer: Result<(), EngineFault>) -> u32
    ensures { result ≡ (engine_answer answer).number }
{
    match answer {
        Ok(()) => 0,
        Err(EngineFault::RunLength) => 4,
    }
}
