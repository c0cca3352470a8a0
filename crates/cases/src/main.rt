//! Puts cases, read from standard input, through both engines, and prints what each call answers. What it has to print was answered
//! by a C version of uBlock that is written from the published design report (`compare/write-cases`).

#![tactic(auto)]

mod answer;
mod case;

use answer::answer_line;
use case::Case;
use std::io::{BufRead, BufReader};

fn main(rt: HostRuntime) -> anyhow::Result<()> {
    for line in BufReader::new(rt.alloc(), rt.stdin())?.lines(rt.alloc()) {
        let line = line?;
        let case = Case::read(rt.alloc(), line.as_str())?;
        let text = answer_line(rt.alloc(), &case)?;
        println!(rt; "{text}")?;
    }
    Ok(())
}
