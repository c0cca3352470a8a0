//! The published worked examples, as they are read: a line for each value, a name and then its bytes in hexadecimal.

ghost use Rattle.std.specs.Prelude.{◌<◌, IfOk};

use anyhow::anyhow;
use std::alloc::Global;
use std::io::{BufRead, BufReader};

/// What is published of one variant under one key.
#[derive(Drop)]
pub struct Example {
    pub variant: u32,
    pub key: Vec<u8>,
    pub plain: Vec<u8>,
    // round key i at place i
    pub round_keys: Vec<Vec<u8>>,
    // the state after i rounds at place i
    pub states: Vec<Vec<u8>>,
    pub cipher: Vec<u8>,
    // the plaintext enciphered a million times over
    pub million: Vec<u8>,
}

impl Example {
    fn of(heap: Global, variant: u32) -> Example {
        Example {
            variant,
            key: Vec::new(heap),
            plain: Vec::new(heap),
            round_keys: Vec::new(heap),
            states: Vec::new(heap),
            cipher: Vec::new(heap),
            million: Vec::new(heap),
        }
    }

    fn note(&mut self, name: &str, value: Vec<u8>) -> anyhow::Result<()> {
        match name {
            "key" => self.key = value,
            "plain" => self.plain = value,
            "cipher" => self.cipher = value,
            "million" => self.million = value,
            "RK" => self.round_keys.push(value)?,
            "X" => self.states.push(value)?,
            _ => return Err(anyhow!("a line of no known name")),
        }
        Ok(())
    }
}

// All examples on standard input.
pub(crate) fn read(rt: &HostRuntime) -> anyhow::Result<Vec<Example>> {
    let mut examples = Vec::new(rt.alloc());
    for line in BufReader::new(rt.alloc(), rt.stdin())?.lines(rt.alloc()) {
        let line = line?;
        enter(rt.alloc(), &mut examples, line.as_str())?;
    }
    Ok(examples)
}

// Enters what a line says: a name, for some a place, and a value. Empty lines and those that begin with # say nothing.
fn enter(heap: Global, examples: &mut Vec<Example>, line: &str) -> anyhow::Result<()> {
    if line.is_empty() || line.starts_with('#') {
        return Ok(());
    }
    let name = line.split(' ').next().unwrap_or("");
    let value = line.split(' ').last().unwrap_or("");
    if name == "variant" {
        examples.push(Example::of(heap, value.parse::<u32>()?))?;
        return Ok(());
    }
    let value = bytes(heap, value)?;
    match examples.last_mut() {
        Some(example) => example.note(name, value),
        None => Err(anyhow!("a value before the first variant")),
    }
}

// Upper case is refused, which `hex::decode` would take.
fn digit(c: u8) -> anyhow::Result<u8>
    ensures { IfOk result (λ d. d < 16) }
{
    match c {
        b'0'..=b'9' => Ok(c - b'0'),
        b'a'..=b'f' => Ok(c - b'a' + 10),
        _ => Err(anyhow!("not a hexadecimal digit")),
    }
}

// The bytes that pairs of hexadecimal digits write. Every digit is looked at before there is a place for the bytes, and they are written
// into it: to push them one by one took longer.
fn bytes(heap: Global, text: &str) -> anyhow::Result<Vec<u8>> {
    for pair in text.as_bytes().chunks_exact(2) {
        digit(pair[0])?;
        digit(pair[1])?;
    }
    if text.len() % 2 == 1 {
        return Err(anyhow!("half a byte"));
    }
    let mut all = vec![in heap; 0; text.len() / 2]?;
    for (byte, pair) in all
        .as_mut_slice()
        .iter_mut()
        .zip(text.as_bytes().chunks_exact(2))
    {
        *byte = digit(pair[0])? * 16 + digit(pair[1])?;
    }
    Ok(all)
}
