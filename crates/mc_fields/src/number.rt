ghost use Rattle.std.specs.Prelude.{◌≡◌, ◌≤◌, ◌^◌, ◌<◌, ℕ, IfOk, IfSome, IsNone, Some, None, if◌then◌else◌, false, decimal};
ghost use Rattle.mc_fields.specs.Texts.{IsNumber};
ghost use Rattle.mc_fields.specs.Reading as reading;
ghost use Rattle.mc_fields.specs.Reading.{number_machine, number_at};
ghost use Rattle.mc_fields.specs.Gives.{Gives};

use crate::stuck::Stuck;

/// A decimal number from 1 to `most`, without a leading zero, and the byte that stops it. A leading
/// zero and the digit that passes the most are faults at that digit.
pub fn read_number(most: u64, stop: u8, bytes: &[u8]) -> Result<(u64, &[u8]), Stuck>
    requires most { most ≤ 2 ^ 60 }
    requires stop { reading.is_decimal_digit stop ≡ false }
    ensures range { IfOk result (λ x. (0 < x.0) × (x.0 ≤ most)) }
    ensures gives { Gives (λ x. (x.0, x.1.now)) result (number_at most stop bytes.now) }
{
    let mut value = 0;
    let mut rest = bytes;
    while let Some((byte, tail)) = rest.split_first() {
        match next_value(most, value, *byte) {
            Some(next) => {
                value = next;
                rest = tail;
            }
            None if *byte == stop && value > 0 => return Ok((value, tail)),
            None => return Err(Stuck { left: rest.len() }),
        }
    }
    Err(Stuck { left: 0 })
}

/// The number from 1 to `most` that the bytes spell whole, in decimal and without a leading zero;
/// None exactly where they spell none.
pub fn number_of(most: u64, bytes: &[u8]) -> Option<u64>
    requires { most ≤ 2 ^ 60 }
    ensures number { IfSome result (λ n. IsNumber most n × (bytes.now ≡ decimal n)) }
    ensures none { IsNone result → (n : ℕ) → IsNumber most n → bytes.now ≡ decimal n → ⊥ }
{
    let mut value = 0;
    for byte in bytes {
        value = next_value(most, value, *byte)?;
    }
    if value > 0 { Some(value) } else { None }
}

/// The value with one more digit, where that is a number of at most `most`.
fn next_value(most: u64, value: u64, byte: u8) -> Option<u64>
    requires { value ≤ 2 ^ 60 }
    ensures { result ≡ (if (number_machine most 0).may value byte then Some ((number_machine most 0).next value byte) else None) }
{
    match byte {
        b'0'..=b'9' => {
            let next = 10 * value + u64::from(byte - b'0');
            if 0 < next && next <= most {
                Some(next)
            } else {
                None
            }
        }
        _ => None,
    }
}
