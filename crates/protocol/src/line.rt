//! A line, read.

ghost use Rattle.std.specs.Prelude.{◌≡◌, ◌≤◌, length};
ghost use Rattle.protocol.specs.Examples.{LinesAsWorked};
ghost use Rattle.protocol.specs.Fields.{fields};
ghost use Rattle.protocol.specs.Lines.{command_of, new_of, new_from, append_of, amend_of, cut_of, read_of, show_of, number_alone, FirstBytesSuffice};

use crate::byte_field::byte_field;
use crate::command::{Command, LogCommand, NewLog};
use crate::fields::{engine, mode, number, only, split};

/// What the line says, if it has the right shape.
#[tactic(auto, using(crate::proofs::Texts::lines, crate::proofs::Texts::first_bytes_suffice, crate::proofs::Examples::lines_as_worked))]
pub fn parse(line: &[u8]) -> Option<Command>
    ensures command { result ≡ command_of line.now }
    ensures first_bytes_suffice { FirstBytesSuffice }
    ensures lines_as_worked { LinesAsWorked }
{
    if line.len() > 200 {
        return None;
    }
    let [letter, rest @ ..] = line else {
        return None;
    };
    let [b'\t', text @ ..] = rest else {
        return None;
    };
    match char::from(*letter) {
        'N' => Some(Command::New(new_log(text)?)),
        'A' => Some(Command::Log(append(text)?)),
        'M' => Some(Command::Log(amend(text)?)),
        'C' => Some(Command::Log(cut(text)?)),
        'R' => Some(Command::Log(read(text)?)),
        'S' => Some(Command::Log(show(text)?)),
        _ => None,
    }
}

// These read the fields after the letter.
#[tactic(auto, using(crate::proofs::Texts::new_of_last), unfolding(crate::specs::Lines::new_of))]
fn new_log(text: &[u8]) -> Option<NewLog>
    requires { length text.now ≤ 200 }
    ensures { result ≡ new_of (fields text.now) }
{
    let (variant, text) = split(text)?;
    let (engine, text) = split(text)?;
    let (mode, text) = split(text)?;
    let (blocks, text) = split(text)?;
    let (key, text) = split(text)?;
    new_log_from(variant, engine, mode, blocks, key, only(text)?)
}

#[tactic(auto, unfolding(crate::specs::Lines::new_from))]
fn new_log_from(
    variant: &[u8],
    engine_letter: &[u8],
    mode_letter: &[u8],
    blocks: &[u8],
    key: &[u8],
    start: &[u8],
) -> Option<NewLog>
    requires key { length key.now ≤ 200 }
    requires start { length start.now ≤ 200 }
    ensures { result ≡ new_from variant.now engine_letter.now mode_letter.now blocks.now key.now start.now }
{
    Some(NewLog {
        variant: number(variant)?,
        engine: engine(engine_letter)?,
        mode: mode(mode_letter)?,
        blocks: number(blocks)?,
        key: byte_field(key)?,
        start: byte_field(start)?,
    })
}

#[tactic(auto, unfolding(crate::specs::Lines::append_of))]
fn append(text: &[u8]) -> Option<LogCommand>
    requires { length text.now ≤ 200 }
    ensures { result ≡ append_of (fields text.now) }
{
    Some(LogCommand::Append {
        reading: byte_field(only(text)?)?,
    })
}

#[tactic(auto, using(crate::proofs::Texts::amend_of_last), unfolding(crate::specs::Lines::amend_of))]
fn amend(text: &[u8]) -> Option<LogCommand>
    requires { length text.now ≤ 200 }
    ensures { result ≡ amend_of (fields text.now) }
{
    let (index, text) = split(text)?;
    let reading = only(text)?;
    Some(LogCommand::Amend {
        index: number(index)?,
        reading: byte_field(reading)?,
    })
}

// A text that is one field, a number.
#[tactic(auto, unfolding(crate::specs::Lines::number_alone))]
fn only_number(text: &[u8]) -> Option<u32>
    ensures { result ≡ number_alone (fields text.now) }
{
    number(only(text)?)
}

#[tactic(auto, unfolding(crate::specs::Lines::cut_of))]
fn cut(text: &[u8]) -> Option<LogCommand>
    ensures { result ≡ cut_of (fields text.now) }
{
    let count = only_number(text)?;
    Some(LogCommand::Cut { count })
}

#[tactic(auto, unfolding(crate::specs::Lines::read_of))]
fn read(text: &[u8]) -> Option<LogCommand>
    ensures { result ≡ read_of (fields text.now) }
{
    let index = only_number(text)?;
    Some(LogCommand::Read { index })
}

#[tactic(auto, unfolding(crate::specs::Lines::show_of))]
fn show(text: &[u8]) -> Option<LogCommand>
    ensures { result ≡ show_of (fields text.now) }
{
    let index = only_number(text)?;
    Some(LogCommand::Show { index })
}
