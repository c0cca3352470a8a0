//! What a page is sealed with, and the two calls.

ghost use Rattle.std.specs.Prelude.{◌≡◌, IfSome};
ghost use Rattle.ublock.specs.Cipher.{block_length};
ghost use Rattle.ublock.specs.Laws.{Bytes};
ghost use Rattle.ublock.specs.Variants.{numbered};
ghost use Rattle.cipher.specs.Keys.{Filled, key_answer};
ghost use Rattle.beatlog.specs.Faults.{log_answer};
ghost use Rattle.pages.specs.Calls.{GivesBack, OnePage, OpenedPage, SealedPage, block_len_answer, size, terms};
ghost use Rattle.pages.specs.Examples.{PagesAsWorked};

use beatlog::fault::LogFault;
use beatlog::pages;
use cipher::engine::{Engine, KeyFault};
use halves::{Narrow, Wide};
use modes::standard::StandardMode;
use packed::Packed;
use packed::arrangement::Arrangement;
use plain::Plain;
use ublock::variant::Variant;

/// Which engine works: on one block at a time, or on several packed into words. Both make the same bytes.
#[derive(Clone, Copy, Debug, PartialEq, Eq, Hash)]
pub enum EngineKind {
    Plain,
    Packed,
}

/// What a page is sealed and opened with. It holds a key, so it is not printed or compared by `==`.
#[derive(Clone, Copy)]
pub struct Setup<'a> {
    /// the variant's number, 1 to 3
    pub variant: u32,
    /// which engine works
    pub engine: EngineKind,
    /// how the blocks are chained
    pub mode: StandardMode,
    /// as long as the variant's keys
    pub key: &'a [u8],
    /// the start block, as long as the variant's blocks
    pub start: &'a [u8],
}

impl<'a> Setup<'a> {
    /// Seals a row of readings into a page and zeroes the rest. The answer is how many readings it sealed.
    #[tactic(auto, using(crate::proofs::Examples::pages_as_worked))]
    pub fn seal(&self, readings: &[u8], page: &mut [u8]) -> Result<usize, LogFault>
        ensures call { SealedPage (terms self.now) readings.now page.old page.new (log_answer result) }
        ensures one_page { OnePage (terms self.now) readings.now page.new (log_answer result) }
        ensures as_worked { PagesAsWorked }
    {
        if block_len(self.variant)? == 16 {
            self.seal_halves::<Narrow>(readings, page)
        } else {
            self.seal_halves::<Wide>(readings, page)
        }
    }

    /// Opens the n readings of a page into one place of as many bytes. The answer is how many readings it opened.
    pub fn open(&self, page: &[u8], n: usize, place: &mut [u8]) -> Result<usize, LogFault>
        ensures call { OpenedPage (terms self.now) page.now n place.old place.new (log_answer result) }
        ensures gives_back { GivesBack (terms self.now) page.now n place.new (log_answer result) }
    {
        known_bytes(self.key);
        known_bytes(self.start);
        if block_len(self.variant)? == 16 {
            self.open_halves::<Narrow>(page, n, place)
        } else {
            self.open_halves::<Wide>(page, n, place)
        }
    }

    // Seals in blocks of two such halves.
    fn seal_halves<H: Arrangement>(
        &self,
        readings: &[u8],
        page: &mut [u8],
    ) -> Result<usize, LogFault>
        requires length { IfSome (numbered self.now.variant) (λ v. size v ≡ block_length H.layout) }
        ensures { SealedPage (terms self.now) readings.now page.old page.new (log_answer result) }
    {
        let (variant, key) = (self.variant, self.key);
        match self.engine {
            EngineKind::Plain => seal_with(self, Plain::<H>::fill(variant, key), readings, page),
            EngineKind::Packed => seal_with(self, Packed::<H>::fill(variant, key), readings, page),
        }
    }

    // Opens in blocks of two such halves.
    fn open_halves<H: Arrangement>(
        &self,
        page: &[u8],
        n: usize,
        place: &mut [u8],
    ) -> Result<usize, LogFault>
        requires length { IfSome (numbered self.now.variant) (λ v. size v ≡ block_length H.layout) }
        ensures { OpenedPage (terms self.now) page.now n place.old place.new (log_answer result) }
    {
        let (variant, key) = (self.variant, self.key);
        match self.engine {
            EngineKind::Plain => open_with(self, Plain::<H>::fill(variant, key), page, n, place),
            EngineKind::Packed => open_with(self, Packed::<H>::fill(variant, key), page, n, place),
        }
    }
}

/// How long a block of the variant of this number is, in bytes.
pub fn block_len(variant: u32) -> Result<usize, KeyFault>
    ensures { key_answer result ≡ block_len_answer (numbered variant) }
{
    Ok(Variant::try_from(variant)?.block_len())
}

// Each entry of a slice is a byte. This does nothing but say so, for slices in a struct, of which a proof knows the length alone.
fn known_bytes(row: &[u8])
    ensures { Bytes row.now }
{}

// Seals with an engine that was filled for the setup.
fn seal_with<E: Engine + Copy>(
    setup: &Setup,
    engine: Result<E, KeyFault>,
    readings: &[u8],
    page: &mut [u8],
) -> Result<usize, LogFault>
    requires filled { Filled E.block_length E.enc E.dec setup.now.variant setup.now.key.now (key_answer engine) }
    requires length { IfSome (numbered setup.now.variant) (λ v. size v ≡ E.block_length) }
    ensures { SealedPage (terms setup.now) readings.now page.old page.new (log_answer result) }
{
    pages::seal(engine?, setup.mode, setup.start, readings, page)
}

// Opens with an engine that was filled for the setup.
fn open_with<E: Engine + Copy>(
    setup: &Setup,
    engine: Result<E, KeyFault>,
    page: &[u8],
    n: usize,
    place: &mut [u8],
) -> Result<usize, LogFault>
    requires filled { Filled E.block_length E.enc E.dec setup.now.variant setup.now.key.now (key_answer engine) }
    requires length { IfSome (numbered setup.now.variant) (λ v. size v ≡ E.block_length) }
    ensures { OpenedPage (terms setup.now) page.now n place.old place.new (log_answer result) }
{
    pages::open(engine?, setup.mode, setup.start, page, n, place)
}
