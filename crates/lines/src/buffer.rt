//! What the splitter does with bytes: it finds a line feed, and keeps the first bytes of a line.

ghost use Rattle.std.specs.Prelude.{◌≡◌, ◌≤◌, ◌++◌, ◌==◌, length, take, position};

/// The index of the first line feed.
pub(crate) fn line_feed(bytes: &[u8]) -> Option<usize>
    ensures { result ≡ position (λ x. x == 10) bytes.now }
{
    bytes.iter().position(|x| *x == b'\n')
}

/// Puts bytes after the first `kept` ones of a buffer, as many as it has room for. The answer is how many it then keeps.
pub(crate) fn keep(buffer: &mut [u8], kept: usize, bytes: &[u8]) -> usize
    requires { kept ≤ length buffer.old }
    ensures within { result ≤ length buffer.new }
    ensures bytes { take result buffer.new ≡ take (length buffer.old) (take kept buffer.old ++ bytes.now) }
{
    let n = (buffer.len() - kept).min(bytes.len());
    buffer[kept..kept + n].copy_from_slice(&bytes[..n]);
    kept + n
}
