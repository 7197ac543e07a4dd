ghost use Rattle.std.specs.Prelude.{◌≡◌, ◌+◌, ◌≤◌, ◌++◌, length, take, decimal};

use itoa::Buffer;

/// Writes the bytes at a place of the buffer, and answers the place behind them. What stands before
/// the place stays.
pub fn put(out: &mut [u8], at: usize, bytes: &[u8]) -> usize
    requires { at + length bytes.now ≤ length out.old }
    ensures end { result ≡ at + length bytes.now }
    ensures within { result ≤ length out.new }
    ensures put { take result out.new ≡ take at out.old ++ bytes.now }
{
    let end = at + bytes.len();
    out[at..end].copy_from_slice(bytes);
    end
}

/// Writes a number in decimal at a place of the buffer, which has room for 20 digits there, and
/// answers the place behind it. What stands before the place stays.
pub fn put_number(out: &mut [u8], at: usize, n: u64) -> usize
    requires { at + 20 ≤ length out.old }
    ensures end { result ≡ at + length (decimal n) }
    ensures short { result ≤ at + 20 }
    ensures put { take result out.new ≡ take at out.old ++ decimal n }
{
    put(out, at, Buffer::new().format(n).as_bytes())
}
