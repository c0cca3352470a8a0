//! One log on both machines.

ghost use Rattle.std.specs.Prelude.{◌≡◌, ℕ, IfErr, IfOk, List, length, map};
ghost use Rattle.modes.specs.Sealing.{scheme};
ghost use Rattle.beatlog.specs.Faults.{log_answer};
ghost use Rattle.beatlog.specs.Refusals.{begin_refusal};
ghost use Rattle.agreement.specs.Agreements.{Agree, Kept, MeaningByParts, SameMeaning};
ghost use Rattle.agreement.specs.Played.{Crossed, FoundEqual, RoomFor, bare, call_of, outcome_of};
ghost use Rattle.agreement.specs.Standing.{standing};

use crate::play::{Turn, play};
use beatlog::common::common;
use beatlog::fault::LogFault;
use beatlog::log::Log;
use beatlog::pages::{open, seal};
use cipher::engine::Engine;
use modes::mode::Mode;

/// The engine and the mode of a recorder or of a bench.
#[derive(Clone, Copy)]
pub struct Machine<E, M> {
    pub engine: E,
    pub mode: M,
}

/// What recorder and bench found. It is the same whatever key and mode the bench has: what a bench opens it seals to the same page.
/// Other readings in the rooms, or a bench page of another length, show only there.
#[derive(Drop)]
pub struct Report {
    /// how many readings stand
    pub count: usize,
    /// how many changes the log accepted
    pub changes: u32,
    /// the bench opened the recorder's page
    pub opened: Result<usize, LogFault>,
    /// the bench sealed what it found into its own page
    pub sealed: Result<usize, LogFault>,
    /// the recorder opened the bench's page
    pub opened_back: Result<usize, LogFault>,
    /// how many leading blocks of both pages are alike
    pub alike: Result<usize, LogFault>,
}

/// Begins a log on the recorder and plays calls on it. Then the bench opens the page into `room` and seals what it found into its
/// own page, the recorder opens that into `back`, and both pages are compared.
///
/// Whatever is played, the first promise is the agreement of recorder and bench over every list of calls, and the second which
/// engines and modes it is of; the others say that what was played is such a list, and what was found.
pub fn agree<E: Engine + Copy, M: Mode, F: Engine + Copy, N: Mode>(
    recorder: Machine<E, M>,
    bench: Machine<F, N>,
    start: &[u8],
    page: &mut [u8],
    turns: &mut [Turn],
    bench_page: &mut [u8],
    room: &mut [u8],
    back: &mut [u8],
) -> Result<Report, LogFault>
    ensures agreement { (v : List ℕ) → Agree (scheme E.Engine M.Mode recorder.engine recorder.mode v) (scheme F.Engine N.Mode bench.engine bench.mode v) }
    ensures meaning_by_parts { (v : List ℕ) → MeaningByParts (scheme E.Engine M.Mode recorder.engine recorder.mode v) (scheme F.Engine N.Mode bench.engine bench.mode v) }
    ensures number { (log_answer result).number ≡ begin_refusal E.block_length (length start.now) (length page.old) }
    ensures all_stays_when_refused { IfErr result (λ _. (page.new ≡ page.old) × (turns.new ≡ turns.old) × (bench_page.new ≡ bench_page.old) × (room.new ≡ room.old) × (back.new ≡ back.old)) }
    ensures arguments_stay { map (λ t. bare t.call) turns.new ≡ map (λ t. bare t.call) turns.old }
    ensures kept { IfOk result (λ r. Kept (scheme E.Engine M.Mode recorder.engine recorder.mode start.now) (length page.old) (map (λ t. call_of t.call) turns.old) (map outcome_of turns.new) (record { count = r.count; changes = r.changes; page = page.new })) }
    ensures crossed { IfOk result (λ r. Crossed (scheme E.Engine M.Mode recorder.engine recorder.mode start.now) (scheme F.Engine N.Mode bench.engine bench.mode start.now) r.count page.new bench_page.old bench_page.new room.old room.new back.old back.new (log_answer r.opened) (log_answer r.sealed) (log_answer r.opened_back) (log_answer r.alike)) }
    ensures found_equal { IfOk result (λ r.
        SameMeaning (scheme E.Engine M.Mode recorder.engine recorder.mode start.now) (scheme F.Engine N.Mode bench.engine bench.mode start.now)
        → RoomFor E.block_length (standing E.block_length (length page.old) (map (λ t. call_of t.call) turns.old)) page.old bench_page.old room.old back.old
        → FoundEqual E.block_length (standing E.block_length (length page.old) (map (λ t. call_of t.call) turns.old)) page.new bench_page.new room.new back.new (log_answer r.opened) (log_answer r.sealed) (log_answer r.opened_back) (log_answer r.alike)) }
{
    let mut log = Log::begin(recorder.engine, recorder.mode, start, page)?;
    play(&mut log, page, turns);
    let n = log.count();
    let b = recorder.engine.block_len();
    let size = n * b;
    let (room_size, back_size) = (size.min(room.len()), size.min(back.len()));
    let opened = open(
        bench.engine,
        bench.mode,
        start,
        page,
        n,
        &mut room[..room_size],
    );
    let sealed = seal(
        bench.engine,
        bench.mode,
        start,
        &room[..room_size],
        bench_page,
    );
    let opened_back = open(
        recorder.engine,
        recorder.mode,
        start,
        bench_page,
        n,
        &mut back[..back_size],
    );
    let alike = common(b, page, n, bench_page, n);
    Ok(Report {
        count: n,
        changes: log.changes(),
        opened,
        sealed,
        opened_back,
        alike,
    })
}
