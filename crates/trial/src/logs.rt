//! One log on a recorder and on a bench.

use crate::calls::{BLOCKS, calls, filled, parting, readings, standing};
use crate::published::Example;
use crate::stack::stack;
use agreement::agree::{Machine, Report, agree};
use agreement::play::{Call, Turn};
use beatlog::common::common;
use beatlog::fault::LogFault;
use cipher::engine::Engine;
use modes::mode::Mode;
use modes::standard::StandardMode;
use std::alloc::Global;

/// A page, and what recorder and bench found there.
#[derive(Drop)]
struct Kept {
    page: Vec<u8>,
    bench_page: Vec<u8>,
    found: Vec<u8>,
    found_back: Vec<u8>,
    report: Report,
}

/// Plays lists of calls in both modes, on the plain engine with the packed one on the bench and under layers the other way
/// round. Prints what was done, and says whether all is as it should be.
pub(crate) fn play_logs<E: Engine + Copy, F: Engine + Copy>(
    rt: &HostRuntime,
    plain: E,
    packed: F,
    example: &Example,
) -> anyhow::Result<bool> {
    let (block, image) = (example.plain.as_slice(), example.cipher.as_slice());
    let over_plain = stack(plain, block, image)?;
    let over_packed = stack(packed, block, image)?;
    let mut good = true;
    for mode in [StandardMode::Ecb, StandardMode::Cbc] {
        let name = mode_name(mode);
        println!(rt;
            "  a log in {name}: the plain engine on the recorder, the packed one on the bench"
        )?;
        let (recorder, bench) = (machine(plain, mode), machine(packed, mode));
        good = play_both(rt, recorder, bench, block)? && good;
        println!(rt;
            "  a log in {name}: four layers over the packed engine on the recorder, over the plain one on the bench"
        )?;
        let (recorder, bench) = (machine(over_packed, mode), machine(over_plain, mode));
        good = play_both(rt, recorder, bench, block)? && good;
    }
    Ok(good)
}

fn mode_name(mode: StandardMode) -> &'static str {
    match mode {
        StandardMode::Ecb => "ECB",
        StandardMode::Cbc => "CBC",
    }
}

fn machine<E: Engine + Copy, M: Mode>(engine: E, mode: M) -> Machine<E, M> {
    Machine { engine, mode }
}

// Plays two logs that part at reading 2, with a block as start block.
fn play_both<E: Engine + Copy, M: Mode, F: Engine + Copy, N: Mode>(
    rt: &HostRuntime,
    recorder: Machine<E, M>,
    bench: Machine<F, N>,
    start: &[u8],
) -> anyhow::Result<bool> {
    let heap = rt.alloc();
    let b = start.len();
    let all = readings(heap, b)?;
    let mut turns = calls(heap, b, all.as_slice())?;
    let kept = keep(heap, recorder, bench, start, turns.as_mut_slice())?;
    show_answers(rt, turns.as_slice())?;
    let stand = standing(heap, b, all.as_slice())?;
    let good = show_report(rt, &kept, stand.as_slice())?;
    let buffers = show_buffers(rt, turns.as_slice(), all.as_slice(), b)?;
    let mut others = parting(heap, b, all.as_slice())?;
    let other = keep(heap, recorder, bench, start, others.as_mut_slice())?;
    let parted = show_parting(rt, b, &kept, &other)?;
    Ok(good && buffers && parted)
}

// Plays calls on a new log, on a page that was not zero.
fn keep<E: Engine + Copy, M: Mode, F: Engine + Copy, N: Mode>(
    heap: Global,
    recorder: Machine<E, M>,
    bench: Machine<F, N>,
    start: &[u8],
    turns: &mut [Turn],
) -> anyhow::Result<Kept> {
    let size = start.len().saturating_mul(BLOCKS);
    let room = start.len().saturating_mul(4);
    let mut page = filled(heap, 0xee, size)?;
    let mut bench_page = filled(heap, 0xdd, size)?;
    let mut found = filled(heap, 0, room)?;
    let mut found_back = filled(heap, 0, room)?;
    let report = agree(
        recorder,
        bench,
        start,
        page.as_mut_slice(),
        turns,
        bench_page.as_mut_slice(),
        found.as_mut_slice(),
        found_back.as_mut_slice(),
    )?;
    Ok(Kept {
        page,
        bench_page,
        found,
        found_back,
        report,
    })
}

// Prints the answers in order: a number of readings, or the number of a refusal after an exclamation mark.
fn show_answers(rt: &HostRuntime, turns: &[Turn]) -> anyhow::Result<()> {
    print!(rt; "    {} calls answered", turns.len())?;
    for turn in turns.iter() {
        match turn.answer {
            Ok(n) => print!(rt; " {n}")?,
            Err(fault) => print!(rt; " !{}", fault.number())?,
        }
    }
    println!(rt; "")?;
    Ok(())
}

// Prints what recorder and bench found, and says whether it is these readings, on equal pages.
fn show_report(rt: &HostRuntime, kept: &Kept, stand: &[u8]) -> anyhow::Result<bool> {
    let report = &kept.report;
    let (count, changes) = (report.count, report.changes);
    println!(rt; "    {count} readings stand after {changes} changes")?;
    let pages = kept.page.as_slice() == kept.bench_page.as_slice();
    let found = kept.found.as_slice() == stand && kept.found_back.as_slice() == stand;
    let whole = report.sealed == Ok(count) && report.alike == Ok(count);
    let opened = report.opened == Ok(count) && report.opened_back == Ok(count);
    println!(rt;
        "    the bench's page is {}, {} blocks alike; opened on the other machine both give {}",
        verdict(pages && whole, "equal", "NOT equal"),
        number(&report.alike),
        verdict(found && opened, "these readings", "OTHER readings")
    )?;
    Ok(pages && whole && found && opened)
}

fn verdict<'a>(good: bool, yes: &'a str, no: &'a str) -> &'a str {
    if good { yes } else { no }
}

// The number that a call answered, or 0 where it was refused.
fn number(answer: &Result<usize, LogFault>) -> usize {
    match answer {
        Ok(n) => *n,
        Err(_) => 0,
    }
}

// Prints and says whether each work buffer is zero, and whether the reading that was read is reading 3.
fn show_buffers(rt: &HostRuntime, turns: &[Turn], all: &[u8], b: usize) -> anyhow::Result<bool> {
    let mut zero = true;
    let mut read = true;
    for turn in turns.iter() {
        match &turn.call {
            Call::Amend { work, .. } => zero = work.iter().all(|byte| *byte == 0) && zero,
            Call::Read { place, .. } => {
                if turn.answer.is_ok() {
                    read = all.chunks_exact(b.max(1)).nth(3) == Some(place.as_slice()) && read;
                }
            }
            _ => {}
        }
    }
    println!(rt;
        "    work buffers {}, the reading read {}",
        verdict(zero, "all zero", "NOT zero"),
        verdict(read, "as appended", "NOT as appended")
    )?;
    Ok(zero && read)
}

// Prints how many leading blocks of two logs are alike, and says whether they part at reading 2.
fn show_parting(rt: &HostRuntime, b: usize, kept: &Kept, other: &Kept) -> anyhow::Result<bool> {
    let (page, other_page) = (kept.page.as_slice(), other.bench_page.as_slice());
    let alike = common(b, page, kept.report.count, other_page, other.report.count);
    println!(rt;
        "    beside another log, amended at reading 2: {} leading blocks alike",
        number(&alike)
    )?;
    Ok(alike == Ok(2))
}
