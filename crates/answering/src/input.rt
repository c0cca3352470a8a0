//! An input, from its first chunk to its last line.

ghost use Rattle.std.specs.Prelude.{◌≡◌, ◌-◌, ◌<◌, ◌≤◌, ◌++◌, ℕ, List, [], length, take, Option, OnOk, OnErr, IfOk, IfSome};
ghost use Rattle.std.specs.Io.KnownBytes.{Appends, Consumes, IsAtEnd};
ghost use Rattle.session.specs.Session.{answer};
ghost use Rattle.answering.specs.Output.{output_of, AppendsFront, FrontWritten, Served, ServedAll};

use crate::writing::write_whole;
use lines::splitter::Splitter;
use session::session::{Session, Shown};
use std::alloc::Global;
use std::io;
use std::io::{ErrorKind, Read, Write};

// How many bytes are read at once.
const CHUNK: usize = 65_536;

/// Answers each line of an input, and writes nothing else. The answers so far are flushed before more is read. Where memory,
/// reading or writing fails, a front part of the answers is written.
pub fn run<R: Read, W: Write>(alloc: Global, reader: &mut R, writer: &mut W) -> io::Result<()>
    ensures answered { OnOk result (IfSome (R.remaining reader.old) (λ input.
        Appends (W.contents writer.old) (W.contents writer.new) (output_of input))) }
    ensures cut_off { OnErr result (IfSome (R.remaining reader.old) (λ input.
        AppendsFront (W.contents writer.old) (W.contents writer.new) (output_of input))) }
{
    let mut buffer = vec![in alloc; 0; CHUNK]?;
    let mut session = Session::new();
    let mut splitter = Splitter::new();
    answer_chunks(reader, &mut buffer, &mut splitter, &mut session, writer)?;
    answer_last(&mut splitter, &mut session, writer)?;
    writer.flush()
}

// Reads chunk by chunk, up to the end of the input or to where no further bytes count, and answers each line that ends there.
fn answer_chunks<R: Read, W: Write>(
    reader: &mut R,
    buffer: &mut [u8],
    splitter: &mut Splitter,
    session: &mut Session,
    writer: &mut W,
) -> io::Result<()>
    requires { 0 < length buffer.old }
    ensures served { Served splitter.old (⟦<Session as Shown>⟧.shown session.old) (W.contents writer.old) (W.contents writer.old) []
        → OnOk result (ServedAll splitter.new (⟦<Session as Shown>⟧.shown session.new) (W.contents writer.old) (W.contents writer.new) (R.remaining reader.old)) }
    ensures cut_off { Served splitter.old (⟦<Session as Shown>⟧.shown session.old) (W.contents writer.old) (W.contents writer.old) []
        → OnErr result (IfSome (R.remaining reader.old) (λ input. AppendsFront (W.contents writer.old) (W.contents writer.new) (output_of input))) }
{
    while !splitter.is_full() {
        writer.flush()?;
        let n = read_some(reader, buffer)?;
        if n == 0 {
            break;
        }
        answer_lines(splitter, session, &buffer[..n], writer)?;
    }
    Ok(())
}

// One read, tried again where a signal interrupts it.
fn read_some<R: Read>(reader: &mut R, buffer: &mut [u8]) -> io::Result<usize>
    ensures within { IfOk result (λ n. n ≤ length buffer.new) }
    ensures bytes { IfOk result (λ n. Consumes (R.remaining reader.old) (R.remaining reader.new) (take n buffer.new)) }
    ensures end { IfOk result (λ n. n ≡ 0 → 0 < length buffer.old → IsAtEnd (R.remaining reader.new)) }
{
    for _ in 0..u64::MAX {
        match reader.read(buffer) {
            Err(e) if e.kind() == ErrorKind::Interrupted => {}
            read => return read,
        }
    }
    Err(io::Error::from(ErrorKind::Interrupted))
}

// Answers each line that ends in a chunk.
fn answer_lines<W: Write>(
    splitter: &mut Splitter,
    session: &mut Session,
    chunk: &[u8],
    writer: &mut W,
) -> io::Result<()>
    ensures bytes_left { OnOk result (splitter.new.bytes_left ≡ splitter.old.bytes_left - length chunk.now) }
    ensures served { (first : Option (List ℕ)) (fed : List ℕ)
        → Served splitter.old (⟦<Session as Shown>⟧.shown session.old) first (W.contents writer.old) fed
        → OnOk result (Served splitter.new (⟦<Session as Shown>⟧.shown session.new) first (W.contents writer.new) (fed ++ chunk.now)) }
    ensures cut_off { (first : Option (List ℕ)) (fed : List ℕ)
        → Served splitter.old (⟦<Session as Shown>⟧.shown session.old) first (W.contents writer.old) fed
        → OnErr result (FrontWritten first (W.contents writer.new) (fed ++ chunk.now)) }
{
    let mut rest = chunk;
    while let Some(n) = splitter.next_line(rest) {
        answer_line(splitter, session, writer)?;
        rest = &rest[n..];
    }
    Ok(())
}

// Answers the last line, if no line feed ends it.
fn answer_last<W: Write>(
    splitter: &mut Splitter,
    session: &mut Session,
    writer: &mut W,
) -> io::Result<()>
    ensures answered { (first : Option (List ℕ)) (fed : List ℕ)
        → Served splitter.old (⟦<Session as Shown>⟧.shown session.old) first (W.contents writer.old) fed
        → OnOk result (Appends first (W.contents writer.new) (output_of fed)) }
    ensures cut_off { (first : Option (List ℕ)) (fed : List ℕ)
        → Served splitter.old (⟦<Session as Shown>⟧.shown session.old) first (W.contents writer.old) fed
        → OnErr result (AppendsFront first (W.contents writer.new) (output_of fed)) }
{
    if splitter.finish() {
        answer_line(splitter, session, writer)?;
    }
    Ok(())
}

// Answers the line that the splitter gave.
fn answer_line<W: Write>(
    splitter: &Splitter,
    session: &mut Session,
    writer: &mut W,
) -> io::Result<()>
    ensures state { ⟦<Session as Shown>⟧.shown session.new ≡ (answer (⟦<Session as Shown>⟧.shown session.old) splitter.now.line).state }
    ensures text { OnOk result (Appends (W.contents writer.old) (W.contents writer.new)
        (answer (⟦<Session as Shown>⟧.shown session.old) splitter.now.line).text) }
    ensures cut_off { OnErr result (AppendsFront (W.contents writer.old) (W.contents writer.new)
        (answer (⟦<Session as Shown>⟧.shown session.old) splitter.now.line).text) }
{
    write_whole(writer, session.answer(splitter.line()).as_slice())
}
