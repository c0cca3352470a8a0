//! One worked example through both engines of its block length, and through layers over them.

ghost use Rattle.std.specs.Prelude.{◌≡◌, true, length};

use crate::lineup::{Lineup, Tally, different, equal, repeated, through};
use crate::logs::play_logs;
use crate::published::Example;
use crate::stack::stack;
use crate::standard_pages::seal_standard_pages;
use cipher::engine::{Engine, KeyFault};
use engines::fill_both;
use keyed::bundle::Bundle;
use keyed::engine::Keyed;
use keyed::key_row::KeyRow;
use packed::arrangement::Arrangement;
use schedule::register::Register;
use std::alloc::Global;
use ublock::variant::Variant;

// How many of the published round keys the key register gives, step by step.
fn round_keys_alike(variant: Variant, example: &Example) -> Result<usize, KeyFault> {
    let mut register = Register::load(variant, example.key.as_slice()).ok_or(KeyFault::KeyLength)?;
    let len = variant.block_len();
    let mut alike: usize = 0;
    for (taken, published) in example.round_keys.iter().enumerate() {
        if &register.bytes[..len] == published.as_slice() {
            alike = alike.saturating_add(1);
        }
        register = register.step(taken);
    }
    Ok(alike)
}

// How many of the published states the engine comes to, round by round, in each of its lanes.
fn states_alike<R: KeyRow, B: Bundle<R>>(
    heap: Global,
    engine: &Keyed<B, R>,
    example: &Example,
) -> anyhow::Result<usize> {
    let mut alike: usize = 0;
    for (i, published) in example.states.iter().enumerate() {
        let mut run = repeated(heap, example.plain.as_slice(), engine.lanes())?;
        engine.state_after(i, run.as_mut_slice())?;
        if each_is(run.as_slice(), example.plain.len(), published.as_slice()) {
            alike = alike.saturating_add(1);
        }
    }
    Ok(alike)
}

// Whether each block of a run of blocks of `len` bytes is this one. One of another length is none of them.
fn each_is(run: &[u8], len: usize, block: &[u8]) -> bool
    ensures { result ≡ true → length block.now ≡ len }
{
    block.len() == len && run.chunks_exact(len.max(1)).all(|one| one == block)
}

// What came of an example, the same in every lane.
#[derive(Drop)]
struct Outcome {
    enciphered: Vec<u8>,
    deciphered: Vec<u8>,
    million: Vec<u8>,
}

// The plaintext in every lane enciphered, deciphered again, and enciphered a million times over.
fn run<E: Engine>(heap: Global, engine: &E, plain: &[u8]) -> anyhow::Result<Outcome> {
    let mut enciphered = repeated(heap, plain, engine.lanes())?;
    engine.encipher(enciphered.as_mut_slice())?;
    let mut deciphered = enciphered.as_slice().to_vec(heap)?;
    engine.decipher(deciphered.as_mut_slice())?;
    let mut million = repeated(heap, plain, engine.lanes())?;
    for _ in 0..1_000_000u32 {
        engine.encipher(million.as_mut_slice())?;
    }
    Ok(Outcome {
        enciphered,
        deciphered,
        million,
    })
}

// Prints the first block of a run of blocks of `len` bytes, and says whether each of its blocks is the published one.
fn show(
    rt: &HostRuntime,
    name: &str,
    run: &[u8],
    len: usize,
    published: &[u8],
) -> anyhow::Result<bool> {
    let same = each_is(run, len, published);
    let first = &run[..run.len().min(len)];
    let text = hex::encode(rt.alloc(), first)?;
    let verdict = if same {
        "as published"
    } else {
        "NOT as published"
    };
    println!(rt; "    {name} {text}, {verdict}")?;
    Ok(same)
}

fn show_outcome(rt: &HostRuntime, outcome: &Outcome, example: &Example) -> anyhow::Result<bool> {
    let len = example.plain.len();
    let once = show(
        rt,
        "enciphered",
        outcome.enciphered.as_slice(),
        len,
        example.cipher.as_slice(),
    )?;
    let back = show(
        rt,
        "deciphered",
        outcome.deciphered.as_slice(),
        len,
        example.plain.as_slice(),
    )?;
    let million = show(
        rt,
        "enciphered a million times",
        outcome.million.as_slice(),
        len,
        example.million.as_slice(),
    )?;
    Ok(once && back && million)
}

// Prints how many of a kind are as they should be, and says whether all are.
fn count(rt: &HostRuntime, tally: Tally, kind: &str) -> anyhow::Result<bool> {
    let Tally { alike, tried } = tally;
    println!(rt; "    {alike} of {tried} {kind}")?;
    Ok(alike == tried)
}

fn heading(rt: &HostRuntime, variant: Variant, example: &Example) -> anyhow::Result<()> {
    let number = example.variant;
    let block = variant.block_len();
    let key = variant.key_len();
    let rounds = variant.rounds();
    println!(rt; "variant {number}: blocks of {block} bytes, key of {key} bytes, {rounds} rounds")?;
    Ok(())
}

// The published block in every run that the engine takes, and different blocks, each beside the others.
fn side_by_side<E: Engine>(
    rt: &HostRuntime,
    engine: &E,
    example: &Example,
    others: &Lineup,
) -> anyhow::Result<bool> {
    let block = example.plain.as_slice();
    let cipher = example.cipher.as_slice();
    // What is not as long as a block is no block's image: it is not copied for each lane.
    let image = if cipher.len() == block.len() {
        cipher
    } else {
        &cipher[..0]
    };
    let published = equal(rt.alloc(), block, image, engine.lanes())?;
    let equal = through(rt.alloc(), engine, &published)?;
    let other = through(rt.alloc(), engine, others)?;
    let equal = count(
        rt,
        equal,
        "runs of equal blocks enciphered as published, and deciphered again",
    )?;
    let other = count(
        rt,
        other,
        "runs of different blocks enciphered as one at a time, and deciphered again",
    )?;
    Ok(equal && other)
}

// Prints what an engine made of the example, and says whether all of it is as it should be.
fn examine_engine<R: KeyRow, B: Bundle<R>>(
    rt: &HostRuntime,
    name: &str,
    engine: &Keyed<B, R>,
    example: &Example,
    others: &Lineup,
) -> anyhow::Result<bool> {
    println!(rt; "  {name} engine, lanes: {}", engine.lanes())?;
    let alike = states_alike(rt.alloc(), engine, example)?;
    let outcome = run(rt.alloc(), engine, example.plain.as_slice())?;
    let states = Tally {
        alike,
        tried: example.states.len(),
    };
    let stepped = count(rt, states, "states as published")?;
    let shown = show_outcome(rt, &outcome, example)?;
    let beside = side_by_side(rt, engine, example, others)?;
    Ok(stepped && shown && beside)
}

// Prints what the engines made of the example, and says whether all of it is as it should be.
pub(crate) fn examine<H: Arrangement>(
    rt: &HostRuntime,
    variant: Variant,
    example: &Example,
) -> anyhow::Result<bool> {
    let (plain, packed) = fill_both::<H>(example.variant, example.key.as_slice())?;
    heading(rt, variant, example)?;
    let block = example.plain.as_slice();
    let one = different(rt.alloc(), &plain, block, plain.lanes())?;
    let some = different(rt.alloc(), &plain, block, packed.lanes())?;
    let keys = Tally {
        alike: round_keys_alike(variant, example)?,
        tried: example.round_keys.len(),
    };
    let listed = count(rt, keys, "round keys as published")?;
    let of_plain = examine_engine(rt, "plain", &plain, example, &one)?;
    let of_packed = examine_engine(rt, "packed", &packed, example, &some)?;
    let through_layers = examine_stacks(rt, plain, packed, example)?;
    let engines = listed && of_plain && of_packed && through_layers;
    // A page and a log begin with a block, so an example with no plaintext has none.
    if block.is_empty() {
        return Ok(engines);
    }
    let pages_are_standard = seal_standard_pages(rt, example)?;
    let logs = play_logs(rt, plain, packed, example)?;
    Ok(engines && pages_are_standard && logs)
}

// The same with a stack of layers over each engine.
fn examine_stacks<E: Engine + Copy, F: Engine + Copy>(
    rt: &HostRuntime,
    plain: E,
    packed: F,
    example: &Example,
) -> anyhow::Result<bool> {
    let block = example.plain.as_slice();
    let over_plain = stack(plain, block, example.cipher.as_slice())?;
    let over_packed = stack(packed, block, example.cipher.as_slice())?;
    println!(rt; "  four layers over the plain engine")?;
    let one = different(rt.alloc(), &over_plain, block, over_plain.lanes())?;
    let of_plain = side_by_side(rt, &over_plain, example, &one)?;
    println!(rt; "  four layers over the packed engine")?;
    let some = different(rt.alloc(), &over_plain, block, over_packed.lanes())?;
    let of_packed = side_by_side(rt, &over_packed, example, &some)?;
    Ok(of_plain && of_packed)
}
