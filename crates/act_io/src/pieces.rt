//! Pieces of bytes.

ghost use Rattle.std.specs.Prelude.{◌≡◌, ◌++◌, length, take, drop, min};

/// Copies the front of the rest, at most so many bytes, into the front of the buffer.
pub fn give(rest: &[u8], most: usize, buf: &mut [u8]) -> usize
    ensures count { result ≡ min (min (length rest.now) (length buf.old)) most }
    ensures given { buf.new ≡ take result rest.now ++ drop result buf.old }
    ensures front { rest.now ≡ take result buf.new ++ drop result rest.now }
{
    let n = rest.len().min(buf.len()).min(most);
    buf[..n].copy_from_slice(&rest[..n]);
    n
}
