//! The session: a line's call.

ghost use Rattle.std.specs.Prelude.{◌≡◌};
ghost use Rattle.session.specs.Faults.{line_answer};
ghost use Rattle.session.specs.Examples.{SessionAsWorked};
ghost use Rattle.session.specs.Session.{SessionState, answer, beginning, done};
ghost use Rattle.session.specs.Transcripts.{EnginesAlike, ReadingsShown, RefusalsTold};

use crate::any_log::{AnyLog, Stage, Viewed};
use crate::fault::LineFault;
use crate::page::{Page, ROOM};
use protocol::command::Command;
use protocol::line::parse;
use protocol::reply::Reply;

// How many lines are answered.
const MAX_LINES: u32 = 999_999;

/// A session: at most one log is begun in it, and kept to its end. Page and work buffer are made with it, so that no answer
/// depends on memory.
#[derive(Drop)]
pub struct Session {
    log: AnyLog,
    page: Page,
    work: [u8; ROOM],
    lines: u32,
}

/// What a session is, as the contracts see it: a trait, since a `Model` with functions in it is not offered.
pub trait Shown {
    ghost shown: { Self → SessionState };
}

impl Shown for Session {
    ghost shown = { λ s. record { lines = s.lines; log = ⟦<AnyLog as Viewed>⟧.viewed s.log; page = s.page } };
}

impl Session {
    /// A session at its beginning.
    pub fn new() -> Session
        ensures { ⟦<Session as Shown>⟧.shown result ≡ beginning }
    {
        Session {
            log: AnyLog::None,
            page: Page::empty(),
            work: [0; ROOM],
            lines: 0,
        }
    }

    /// Answers a line, of which the first 201 bytes are enough. After line 999,999 it does nothing and answers nothing.
    #[tactic(auto, using(crate::proofs::Shown::readings_shown, crate::proofs::Shown::refusals_told, crate::proofs::Engines::engines_alike, crate::proofs::Examples::session_as_worked))]
    pub fn answer(&mut self, line: &[u8]) -> Reply
        ensures text { result ≡ (answer (⟦<Session as Shown>⟧.shown self.old) line.now).text }
        ensures state { ⟦<Session as Shown>⟧.shown self.new ≡ (answer (⟦<Session as Shown>⟧.shown self.old) line.now).state }
        ensures readings_shown { ReadingsShown }
        ensures refusals_told { RefusalsTold }
        ensures engines_alike { EnginesAlike }
        ensures session_as_worked { SessionAsWorked }
    {
        if self.lines >= MAX_LINES {
            return Reply::nothing();
        }
        self.lines += 1;
        match self.obey(parse(line)) {
            Ok(reply) => reply,
            Err(fault) => Reply::refusal(u64::from(self.lines), fault.number()),
        }
    }

    // What a line says is looked at together with where the session stands.
    fn obey(&mut self, command: Option<Command>) -> Result<Reply, LineFault>
        ensures answer { line_answer result ≡ (done (⟦<Session as Shown>⟧.shown self.old).log (⟦<Session as Shown>⟧.shown self.old).page command).answer }
        ensures log { (⟦<Session as Shown>⟧.shown self.new).log ≡ (done (⟦<Session as Shown>⟧.shown self.old).log (⟦<Session as Shown>⟧.shown self.old).page command).log }
        ensures page { (⟦<Session as Shown>⟧.shown self.new).page ≡ (done (⟦<Session as Shown>⟧.shown self.old).log (⟦<Session as Shown>⟧.shown self.old).page command).page }
        ensures lines { self.new.lines ≡ self.old.lines }
    {
        match (self.log.stage(), command) {
            (_, None) => Err(LineFault::Shape),
            (Stage::Before, Some(Command::New(new))) => {
                self.log = self.page.begin(&new)?;
                Ok(Reply::number(0))
            }
            (Stage::Open, Some(Command::Log(command))) => {
                Ok(self.page.carry_out(&mut self.log, &mut self.work, command)?)
            }
            (_, Some(_)) => Err(LineFault::Order),
        }
    }
}
