//! The bench program: it answers each line of standard input on standard output. Ends with status 1 where memory, reading or
//! writing fails, else with status 0.

#![tactic(auto)]

use answering::input;
use std::io;
use std::io::BufWriter;

// How many bytes of answers are written at once.
const WRITTEN: usize = 65_536;

fn main(rt: HostRuntime) -> io::Result<()> {
    let mut reader = rt.stdin();
    let mut writer = BufWriter::with_capacity(rt.alloc(), WRITTEN, rt.stdout())?;
    input::run(rt.alloc(), &mut reader, &mut writer)
}
