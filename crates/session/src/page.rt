//! The page that a session keeps.

ghost use Rattle.std.specs.Prelude.{◌≡◌, IfErr, IfOk, IfSome, IsTrue, [], is_some};
ghost use Rattle.ublock.specs.Variants.{numbered};
ghost use Rattle.beatlog.specs.Faults.{log_answer};
ghost use Rattle.session.specs.Session.{new_log, new_number, new_page, on_log};

use crate::any_log::{AnyLog, Viewed};
use beatlog::fault::LogFault;
use protocol::command::{LogCommand, NewLog};
use protocol::reply::Reply;
use std::marker::Model;

/// The most blocks of a page and one more, so that a log on a longer page is refused by the log itself.
pub(crate) const ROOM_BLOCKS: usize = 2049;

/// Room for as many blocks of 32 bytes.
pub(crate) const ROOM: usize = 65_568;

/// A page: the first bytes of a room.
#[derive(Drop)]
pub(crate) struct Page {
    room: [u8; ROOM],
    len: usize,
}

impl Model for Page {
    ghost use Rattle.std.specs.Prelude.{ℕ, ◌≤◌, List, take};

    ghost Value = { List ℕ };

    ghost view = { λ p. take p.len p.room };

    ghost invariant = { λ p. p.len ≤ 65536 };
}

impl Page {
    /// A page of no bytes.
    pub(crate) fn empty() -> Page
        ensures { result ≡ [] }
    {
        Page {
            room: [0; ROOM],
            len: 0,
        }
    }

    /// Makes it the page of a new log. Not inlined, so that a line that begins none clears no log.
    #[inline(never)]
    pub(crate) fn begin(&mut self, new: &NewLog) -> Result<AnyLog, LogFault>
        ensures number { (log_answer result).number ≡ new_number new.now }
        ensures log { IfOk result (λ log. ⟦<AnyLog as Viewed>⟧.viewed log ≡ new_log (numbered new.now.variant) new.now) }
        ensures page { IfOk result (λ _. self.new ≡ new_page (numbered new.now.variant) new.now) }
        ensures page_stays { IfErr result (λ _. self.new ≡ self.old) }
    {
        let (log, len) = AnyLog::begin(new, &mut self.room)?;
        self.len = len;
        Ok(log)
    }

    /// Carries out a command on its log.
    pub(crate) fn carry_out(
        &mut self,
        log: &mut AnyLog,
        work: &mut [u8; ROOM],
        command: LogCommand,
    ) -> Result<Reply, LogFault>
        requires kept { IsTrue (is_some (⟦<AnyLog as Viewed>⟧.viewed log.old)) }
        ensures answer { IfSome (⟦<AnyLog as Viewed>⟧.viewed log.old) (λ v. log_answer result ≡ (on_log v self.old command).answer) }
        ensures log { IfSome (⟦<AnyLog as Viewed>⟧.viewed log.old) (λ v. ⟦<AnyLog as Viewed>⟧.viewed log.new ≡ (on_log v self.old command).log) }
        ensures page { IfSome (⟦<AnyLog as Viewed>⟧.viewed log.old) (λ v. self.new ≡ (on_log v self.old command).page) }
    {
        let len = self.len;
        log.carry_out(&mut self.room[..len], &mut work[..len], command)
    }
}
