//! Bytes in 64-bit words, the highest first.

ghost use Rattle.std.specs.Prelude.{◌≡◌, ◌+◌, ◌≤◌, length, take, drop, min};
ghost use Rattle.vectors.specs.Vectors.{word64, vector_bytes};

/// The bytes of a run, and zeros after it; of a longer run the first 64.
pub(crate) fn padded(run: &[u8]) -> [u8; 64]
    ensures { take (min (length run.now) 64) result ≡ take 64 run.now }
{
    if run.len() == 64 {
        whole(run)
    } else {
        part(run)
    }
}

// A full run: a copy of a known length is faster.
fn whole(run: &[u8]) -> [u8; 64]
    requires { length run.now ≡ 64 }
    ensures { result ≡ run.now }
{
    let mut bytes = [0; 64];
    bytes.copy_from_slice(run);
    bytes
}

fn part(run: &[u8]) -> [u8; 64]
    ensures { take (min (length run.now) 64) result ≡ take 64 run.now }
{
    let len = run.len().min(64);
    let mut bytes = [0; 64];
    bytes[..len].copy_from_slice(&run[..len]);
    bytes
}

/// The words of 64 bytes.
pub(crate) fn words_of(bytes: &[u8; 64]) -> [u64; 8]
    ensures { vector_bytes result ≡ bytes.now }
{
    [
        word_at(bytes, 0),
        word_at(bytes, 8),
        word_at(bytes, 16),
        word_at(bytes, 24),
        word_at(bytes, 32),
        word_at(bytes, 40),
        word_at(bytes, 48),
        word_at(bytes, 56),
    ]
}

/// The bytes of words.
pub(crate) fn bytes_of(words: &[u64; 8]) -> [u8; 64]
    ensures { result ≡ vector_bytes words.now }
{
    let mut bytes = [0; 64];
    for (k, word) in words.iter().enumerate() {
        bytes[k * 8..k * 8 + 8].copy_from_slice(&word.to_be_bytes());
    }
    bytes
}

/// The word of eight bytes from a place on.
pub(crate) fn word_at(bytes: &[u8], at: usize) -> u64
    requires { at + 8 ≤ length bytes.now }
    ensures { word64 result ≡ take 8 (drop at bytes.now) }
{
    let mut eight = [0; 8];
    eight.copy_from_slice(&bytes[at..at + 8]);
    word_of(eight)
}

fn word_of(bytes: [u8; 8]) -> u64
    ensures { word64 result ≡ bytes }
{
    u64::from_be_bytes(bytes)
}

/// Writes the first bytes over a run of at most 64.
pub(crate) fn write_front(bytes: &[u8; 64], run: &mut [u8])
    requires { length run.old ≤ 64 }
    ensures { run.new ≡ take (length run.old) bytes.now }
{
    let len = run.len();
    if len == 64 {
        run.copy_from_slice(bytes);
    } else {
        run.copy_from_slice(&bytes[..len]);
    }
}
