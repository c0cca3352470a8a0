//! Lists of calls played on a log.

ghost use Rattle.std.specs.Prelude.{◌≡◌, map, Ok};
ghost use Rattle.modes.specs.Sealing.{scheme_of};
ghost use Rattle.beatlog.specs.Calls.{Link, state_of};
ghost use Rattle.agreement.specs.Agreements.{Run};
ghost use Rattle.agreement.specs.Played.{CallIsBareAndBuffer, bare, call_of, outcome_of};

use beatlog::fault::LogFault;
use beatlog::log::Log;
use cipher::engine::Engine;
use modes::mode::Mode;

/// A call on a log. It owns the work buffer, or the place, that is lent to it, of whatever length.
#[derive(Drop)]
pub enum Call<'a> {
    Append(&'a [u8]),
    Amend {
        index: usize,
        reading: &'a [u8],
        work: Vec<u8>,
    },
    Cut(usize),
    Read {
        index: usize,
        place: Vec<u8>,
    },
}

/// A call to be played, and, once it is, its answer.
#[derive(Drop)]
pub struct Turn<'a> {
    pub call: Call<'a>,
    pub answer: Result<usize, LogFault>,
}

impl<'a> Turn<'a> {
    /// A call that is not played yet; until it is, its answer is that no reading stands.
    pub fn new(call: Call<'a>) -> Turn<'a>
        ensures call { result.call ≡ call.entry }
        ensures answer { result.answer ≡ Ok 0 }
    {
        Turn {
            call,
            answer: Ok(0),
        }
    }
}

/// Makes the calls on a log one after the other. Each keeps its buffer as the call leaves it, and gets its answer.
#[tactic(auto, using(crate::proofs::Played::call_is_bare_and_buffer))]
pub fn play<E: Engine + Copy, M: Mode>(log: &mut Log<E, M>, page: &mut [u8], turns: &mut [Turn])
    ensures sealer_stays { log.new.sealer ≡ log.old.sealer }
    ensures capacity_stays { log.new.capacity ≡ log.old.capacity }
    ensures arguments_stay { map (λ t. bare t.call) turns.new ≡ map (λ t. bare t.call) turns.old }
    ensures call_is_bare_and_buffer { CallIsBareAndBuffer }
    ensures run { Run (scheme_of E.Engine M.Mode log.old.sealer) log.old.capacity (state_of log.old page.old) (map (λ t. call_of t.call) turns.old) (map outcome_of turns.new) (state_of log.new page.new) }
{
    for turn in turns.iter_mut() {
        make(log, page, turn);
    }
}

// Makes one call.
fn make<E: Engine + Copy, M: Mode>(log: &mut Log<E, M>, page: &mut [u8], turn: &mut Turn)
    ensures sealer_stays { log.new.sealer ≡ log.old.sealer }
    ensures capacity_stays { log.new.capacity ≡ log.old.capacity }
    ensures arguments_stay { bare turn.new.call ≡ bare turn.old.call }
    ensures link { Link (scheme_of E.Engine M.Mode log.old.sealer) log.old.capacity (state_of log.old page.old) (call_of turn.old.call) (state_of log.new page.new) (outcome_of turn.new) }
{
    turn.answer = match &mut turn.call {
        Call::Append(reading) => log.append(page, reading),
        Call::Amend {
            index,
            reading,
            work,
        } => log.amend(page, *index, reading, work),
        Call::Cut(m) => log.cut(page, *m),
        Call::Read { index, place } => log.read(page, *index, place),
    };
}
