//! Why a line is refused.

ghost use Rattle.std.specs.Prelude.{◌≡◌, ℕ, Err};
ghost use Rattle.session.specs.Faults.{line_answer};
ghost use Rattle.session.specs.declared.fault.LineFault.TheVariants.{Log};

use beatlog::fault::LogFault;

/// Why a line is refused.
#[derive(Clone, Copy)]
pub(crate) enum LineFault {
    /// 1 to 9: by the key or by the log
    Log(LogFault),
    /// 10: the line has the wrong shape
    Shape,
    /// 11: a new log after an accepted one, or another command before
    Order,
}

impl LineFault {
    /// The number that says which refusal this is.
    pub(crate) fn number(self) -> u8
        ensures { result ≡ (line_answer {T = ℕ} (Err self)).number }
    {
        match self {
            LineFault::Log(fault) => fault.number(),
            LineFault::Shape => 10,
            LineFault::Order => 11,
        }
    }
}

impl From<LogFault> for LineFault {
    ghost from_gives = { λ fault line_fault. line_fault ≡ Log fault };

    fn from(fault: LogFault) -> LineFault {
        Self::Log(fault)
    }
}
