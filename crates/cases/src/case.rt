//! A case, as it is read: a line of fields, the name of a call and then its arguments.

use anyhow::anyhow;
use std::alloc::Global;

/// A call with its arguments.
#[derive(Drop)]
pub(crate) enum Call {
    /// a run enciphered, or deciphered
    Run {
        decipher: bool,
        run: Vec<u8>,
    },
    /// readings sealed into a page of so many bytes
    Seal {
        cbc: bool,
        start: Vec<u8>,
        readings: Vec<u8>,
        page: usize,
    },
    /// n readings of a page opened into a place of so many bytes
    Open {
        cbc: bool,
        start: Vec<u8>,
        page: Vec<u8>,
        n: usize,
        place: usize,
    },
}

/// A call under a variant's number and a key.
#[derive(Drop)]
pub(crate) struct Case {
    pub variant: u32,
    pub key: Vec<u8>,
    pub call: Call,
}

impl Case {
    /// The case that a line says.
    pub(crate) fn read(heap: Global, line: &str) -> anyhow::Result<Case> {
        let fields: Vec<&str> = line.split(' ').collect(heap)?;
        let call = match field(&fields, 0) {
            "encipher" => read_run(heap, false, &fields)?,
            "decipher" => read_run(heap, true, &fields)?,
            "seal" => read_seal(heap, &fields)?,
            "open" => read_open(heap, &fields)?,
            _ => return Err(anyhow!("a call of no known name")),
        };
        Ok(Case {
            variant: field(&fields, 1).parse::<u32>()?,
            key: bytes(heap, field(&fields, 2))?,
            call,
        })
    }
}

fn read_run(heap: Global, decipher: bool, fields: &Vec<&str>) -> anyhow::Result<Call> {
    let run = bytes(heap, field(fields, 3))?;
    Ok(Call::Run { decipher, run })
}

fn read_seal(heap: Global, fields: &Vec<&str>) -> anyhow::Result<Call> {
    Ok(Call::Seal {
        cbc: is_cbc(field(fields, 3))?,
        start: bytes(heap, field(fields, 4))?,
        readings: bytes(heap, field(fields, 5))?,
        page: field(fields, 6).parse::<usize>()?,
    })
}

fn read_open(heap: Global, fields: &Vec<&str>) -> anyhow::Result<Call> {
    Ok(Call::Open {
        cbc: is_cbc(field(fields, 3))?,
        start: bytes(heap, field(fields, 4))?,
        page: bytes(heap, field(fields, 5))?,
        n: field(fields, 6).parse::<usize>()?,
        place: field(fields, 7).parse::<usize>()?,
    })
}

// A field of a line; past its end an empty one.
fn field<'a>(fields: &Vec<&'a str>, i: usize) -> &'a str {
    fields.get(i).copied().unwrap_or("")
}

fn is_cbc(mode: &str) -> anyhow::Result<bool> {
    match mode {
        "ecb" => Ok(false),
        "cbc" => Ok(true),
        _ => Err(anyhow!("a mode of no known name")),
    }
}

// The bytes that pairs of hexadecimal digits write; no bytes are written as a dash.
fn bytes(heap: Global, text: &str) -> anyhow::Result<Vec<u8>> {
    if text == "-" {
        return Ok(Vec::new(heap));
    }
    Ok(hex::decode(heap, text)?)
}
