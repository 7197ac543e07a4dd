ghost use Rattle.std.specs.Prelude.{◌≡◌, ◌*◌, ◌<◌, ◌≤◌, Some, None, Ok, IfSome, max};
ghost use Rattle.mc_fields.specs.Reading.{digit_of, byte_at, hex_at};
ghost use Rattle.mc_fields.specs.Gives.{Gives};

use crate::stuck::Stuck;

/// Bytes, each spelled as two lower-case hex digits, the high one first.
pub fn read_hex<const N: usize>(bytes: &[u8]) -> Result<([u8; N], &[u8]), Stuck>
    ensures { Gives (λ x. (x.0, x.1.now)) result (hex_at N bytes.now) }
{
    match read_places(bytes) {
        Some(read) => Ok(read),
        None => read_each(bytes),
    }
}

/// The same, where all stand. All digits are looked at before one is judged, so that a processor reads many at once.
#[inline(always)]
fn read_places<const N: usize>(bytes: &[u8]) -> Option<([u8; N], &[u8])>
    ensures { IfSome result (λ x. hex_at N bytes.now ≡ Ok (x.0, x.1.now)) }
{
    if bytes.len() / 2 < N {
        return None;
    }
    let (front, rest) = bytes.split_at(2 * N);
    let mut out = [0; N];
    let mut most = 0;
    for i in 0..N {
        let high = digit_value(front[2 * i]);
        let low = digit_value(front[2 * i + 1]);
        most = greater(most, greater(high, low));
        out[i] = high.wrapping_mul(16).wrapping_add(low);
    }
    if most < 16 { Some((out, rest)) } else { None }
}

/// The greater of two.
#[inline(always)]
fn greater(a: u8, b: u8) -> u8
    ensures { result ≡ max a b }
{
    if a < b { b } else { a }
}

/// So many bytes of two digits each, one after the other, which tells the place of the first that is none.
#[inline(never)]
fn read_each<const N: usize>(bytes: &[u8]) -> Result<([u8; N], &[u8]), Stuck>
    ensures { Gives (λ x. (x.0, x.1.now)) result (hex_at N bytes.now) }
{
    let mut out = [0; N];
    let mut rest = bytes;
    for i in 0..N {
        let (byte, tail) = read_byte(rest)?;
        out[i] = byte;
        rest = tail;
    }
    Ok((out, rest))
}

/// A byte, spelled so.
#[inline(always)]
#[tactic(auto, unfolding(crate::specs::Reading::byte_at, crate::specs::Reading::digit_at))]
fn read_byte(bytes: &[u8]) -> Result<(u8, &[u8]), Stuck>
    ensures { Gives (λ x. (x.0, x.1.now)) result (byte_at bytes.now) }
{
    match bytes {
        [first, second, rest @ ..] => {
            let high = digit_value(*first);
            let low = digit_value(*second);
            if high < 16 && low < 16 {
                return Ok((high * 16 + low, rest));
            }
            let before = if high < 16 { 1 } else { 0 };
            Err(Stuck {
                left: bytes.len() - before,
            })
        }
        [first] if digit_value(*first) >= 16 => Err(Stuck { left: 1 }),
        _ => Err(Stuck { left: 0 }),
    }
}

/// The value of a hex digit in lower case, and 255 of any other byte.
#[inline(always)]
fn digit_value(byte: u8) -> u8
    ensures digit { result < 16 → digit_of byte ≡ Some result }
    ensures other { 16 ≤ result → digit_of byte ≡ None }
{
    let decimal = byte.wrapping_sub(b'0');
    let letter = byte.wrapping_sub(b'a' - 10);
    let letter = if letter < 10 { u8::MAX } else { letter };
    if decimal < 10 { decimal } else { letter }
}
