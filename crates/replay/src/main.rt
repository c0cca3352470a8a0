//! Plays kept sessions, whose names are the lines of standard input, and compares each answer with the one that is kept.
//! `NAME.in` is what a session is given, and `NAME.out` what it has to answer. Ends with status 1 where a byte differs.

#![tactic(auto)]

use answering::input;
use anyhow::anyhow;
use std::fs;

fn main(rt: HostRuntime) -> anyhow::Result<()> {
    let mut differing: usize = 0;
    for name in rt.lines(rt.alloc()) {
        if !play(&rt, name?.as_str())? {
            differing = differing.saturating_add(1);
        }
    }
    if differing > 0 {
        return Err(anyhow!("not all sessions are answered as kept"));
    }
    Ok(())
}

// Plays one session, and says whether it is answered as kept.
fn play(rt: &HostRuntime, name: &str) -> anyhow::Result<bool> {
    let given = fs::read(rt, format!(in rt.alloc(); "{name}.in")?)?;
    let kept = fs::read(rt, format!(in rt.alloc(); "{name}.out")?)?;
    let mut answers = Vec::new(rt.alloc());
    let mut reader = given.as_slice();
    input::run(rt.alloc(), &mut reader, &mut answers)?;
    let alike = answers.as_slice() == kept.as_slice();
    let word = if alike { "as kept" } else { "DIFFERENT" };
    println!(rt;
        "{name}: {} bytes, answered by {}, {word}",
        given.len(),
        answers.len()
    )?;
    Ok(alike)
}
