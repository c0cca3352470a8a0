//! Runs all of the library on the published worked examples of uBlock, read from standard input: the key register, both engines,
//! layers over them, pages, and logs on two machines. Prints what it did and how that compares, and ends with status 1 where
//! anything is not as it should be.

#![tactic(auto)]

mod calls;
mod examine;
mod lineup;
mod logs;
mod published;
mod stack;
#[cfg(test)]
mod stacks;
mod standard_pages;

use anyhow::anyhow;
use examine::examine;
use halves::{Narrow, Wide};
use published::Example;
use ublock::laws;
use ublock::variant::Variant;

fn main(rt: HostRuntime) -> anyhow::Result<()> {
    run(&rt)
}

fn run(rt: &HostRuntime) -> anyhow::Result<()> {
    println!(rt;
        "{} worked examples of the definitions are proved",
        laws::worked_examples()
    )?;
    let examples = published::read(rt)?;
    if examples.is_empty() {
        return Err(anyhow!("no examples on standard input"));
    }
    let mut alike: usize = 0;
    for example in examples.iter() {
        if run_one(rt, example)? {
            alike = alike.saturating_add(1);
        }
    }
    println!(rt;
        "{alike} of {} variants wholly as published",
        examples.len()
    )?;
    if alike != examples.len() {
        return Err(anyhow!("not all is as published"));
    }
    Ok(())
}

// One example, with the engine for its block length.
fn run_one(rt: &HostRuntime, example: &Example) -> anyhow::Result<bool> {
    let variant = Variant::try_from(example.variant).map_err(|_| anyhow!(
        "an example of no known variant"
    ))?;
    match variant {
        Variant::Block128Key128 | Variant::Block128Key256 => examine::<Narrow>(
            rt, variant, example,
        ),
        Variant::Block256Key256 => examine::<Wide>(rt, variant, example),
    }
}
