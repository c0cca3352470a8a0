//! What a line may say.

use crate::byte_field::ByteField;

/// The engine that works.
#[derive(Clone, Copy, Debug, PartialEq, Eq, Hash)]
pub enum EngineName {
    Plain,
    Packed,
}

/// How the blocks of a page are chained.
#[derive(Clone, Copy, Debug, PartialEq, Eq, Hash)]
pub enum ModeName {
    Ecb,
    Cbc,
}

/// What a line says.
#[derive(Drop)]
pub enum Command {
    New(NewLog),
    Log(LogCommand),
}

/// A new log. It holds a key, so it is not printed.
#[derive(Drop)]
pub struct NewLog {
    pub variant: u32,
    pub engine: EngineName,
    pub mode: ModeName,
    /// how many blocks the page has
    pub blocks: u32,
    pub key: ByteField,
    pub start: ByteField,
}

/// What a line says to a log.
#[derive(Drop)]
pub enum LogCommand {
    Append { reading: ByteField },
    Amend { index: u32, reading: ByteField },
    /// to so many readings
    Cut { count: u32 },
    Read { index: u32 },
    /// the sealed block of this index
    Show { index: u32 },
}
