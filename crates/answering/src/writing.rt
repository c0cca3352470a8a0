//! Texts written whole, or up to where writing fails.

ghost use Rattle.std.specs.Prelude.{OnOk, OnErr};
ghost use Rattle.std.specs.Io.{WritesAtMost};
ghost use Rattle.std.specs.Io.KnownBytes.{Appends, WriteAppends};
ghost use Rattle.answering.specs.Output.{AppendsFront};

use std::io;
use std::io::{ErrorKind, Write};

// All bytes of a text. `write_all` does not say what was written where it fails.
pub(crate) fn write_whole<W: Write>(writer: &mut W, text: &[u8]) -> io::Result<()>
    ensures whole { OnOk result (Appends (W.contents writer.old) (W.contents writer.new) text.now) }
    ensures cut_off { OnErr result (AppendsFront (W.contents writer.old) (W.contents writer.new) text.now) }
{
    let mut done = 0;
    while done < text.len() {
        let n = write_some(writer, &text[done..])?;
        if n == 0 {
            return Err(io::Error::from(ErrorKind::WriteZero));
        }
        done += n;
    }
    Ok(())
}

// One write, tried again where a signal interrupts it.
fn write_some<W: Write>(writer: &mut W, text: &[u8]) -> io::Result<usize>
    ensures within { WritesAtMost result text.now }
    ensures bytes { WriteAppends (W.contents writer.old) (W.contents writer.new) result text.now }
{
    for _ in 0..u64::MAX {
        match writer.write(text) {
            Err(e) if e.kind() == ErrorKind::Interrupted => {}
            wrote => return wrote,
        }
    }
    Err(io::Error::from(ErrorKind::Interrupted))
}
