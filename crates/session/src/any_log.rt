//! A log of either engine and either width.

ghost use Rattle.std.specs.Prelude.{◌≡◌, ◌≤◌, IfErr, IfOk, IfSome, IsTrue, Option, is_some, length, take};
ghost use Rattle.ublock.specs.Variants.{numbered};
ghost use Rattle.beatlog.specs.Calls.{View};
ghost use Rattle.beatlog.specs.Faults.{log_answer};
ghost use Rattle.session.specs.Logs.{any_view, stage_of};
ghost use Rattle.session.specs.Session.{on_log, new_log, new_page, new_number};

use crate::begin::begin;
use crate::commands::apply;
use crate::page::ROOM_BLOCKS;
use beatlog::fault::LogFault;
use beatlog::log::Log;
use cipher::engine::Engine;
use halves::{Narrow, Wide};
use modes::mode::Mode;
use modes::standard::StandardMode;
use packed::Packed;
use pages::setup::block_len;
use plain::Plain;
use protocol::command::{EngineName, LogCommand, NewLog};
use protocol::reply::Reply;

/// A log of either engine and either width, or none yet.
#[derive(Drop)]
pub(crate) enum AnyLog {
    None,
    PlainNarrow(Log<Plain<Narrow>, StandardMode>),
    PlainWide(Log<Plain<Wide>, StandardMode>),
    PackedNarrow(Log<Packed<Narrow>, StandardMode>),
    PackedWide(Log<Packed<Wide>, StandardMode>),
}

/// Whether there was an accepted N.
#[derive(Clone, Copy)]
pub(crate) enum Stage {
    Before,
    Open,
}

/// What is kept, as the contracts see it: a trait, since a `Model` of an enum, or with functions in it, is not offered.
pub(crate) trait Viewed {
    ghost viewed: { Self → Option View };
}

impl Viewed for AnyLog {
    ghost viewed = { any_view ⟦<Plain<Narrow> as Engine>⟧ ⟦<Plain<Wide> as Engine>⟧ ⟦<Packed<Narrow> as Engine>⟧ ⟦<Packed<Wide> as Engine>⟧ ⟦<StandardMode as Mode>⟧ };
}

impl AnyLog {
    /// A new log on a page at the beginning of a room, and how long the page is.
    pub(crate) fn begin(new: &NewLog, room: &mut [u8]) -> Result<(AnyLog, usize), LogFault>
        requires room { length room.old ≡ 65568 }
        ensures number { (log_answer result).number ≡ new_number new.now }
        ensures log { IfOk result (λ r. ⟦<AnyLog as Viewed>⟧.viewed r.0 ≡ new_log (numbered new.now.variant) new.now) }
        ensures page { IfOk result (λ r. take r.1 room.new ≡ new_page (numbered new.now.variant) new.now) }
        ensures within { IfOk result (λ r. r.1 ≤ 65536) }
        ensures room_stays { IfErr result (λ _. room.new ≡ room.old) }
        ensures long { length room.new ≡ length room.old }
    {
        let b = block_len(new.variant)?;
        let len = (new.blocks as usize).min(ROOM_BLOCKS) * b;
        let page = &mut room[..len];
        let log = match (new.engine, b) {
            (EngineName::Plain, 16) => AnyLog::PlainNarrow(begin(new, page)?),
            (EngineName::Plain, _) => AnyLog::PlainWide(begin(new, page)?),
            (EngineName::Packed, 16) => AnyLog::PackedNarrow(begin(new, page)?),
            (EngineName::Packed, _) => AnyLog::PackedWide(begin(new, page)?),
        };
        Ok((log, len))
    }

    /// Whether a log is kept.
    pub(crate) fn stage(&self) -> Stage
        ensures { result ≡ stage_of (⟦<AnyLog as Viewed>⟧.viewed self.now) }
    {
        match self {
            AnyLog::None => Stage::Before,
            _ => Stage::Open,
        }
    }

    /// Carries out a command on the log.
    pub(crate) fn carry_out(
        &mut self,
        page: &mut [u8],
        work: &mut [u8],
        command: LogCommand,
    ) -> Result<Reply, LogFault>
        requires kept { IsTrue (is_some (⟦<AnyLog as Viewed>⟧.viewed self.old)) }
        requires work { length work.old ≡ length page.old }
        ensures answer { IfSome (⟦<AnyLog as Viewed>⟧.viewed self.old) (λ v. log_answer result ≡ (on_log v page.old command).answer) }
        ensures log { IfSome (⟦<AnyLog as Viewed>⟧.viewed self.old) (λ v. ⟦<AnyLog as Viewed>⟧.viewed self.new ≡ (on_log v page.old command).log) }
        ensures page { IfSome (⟦<AnyLog as Viewed>⟧.viewed self.old) (λ v. page.new ≡ (on_log v page.old command).page) }
    {
        match self {
            AnyLog::None => unreachable!(),
            AnyLog::PlainNarrow(log) => apply(log, page, work, command),
            AnyLog::PlainWide(log) => apply(log, page, work, command),
            AnyLog::PackedNarrow(log) => apply(log, page, work, command),
            AnyLog::PackedWide(log) => apply(log, page, work, command),
        }
    }
}
