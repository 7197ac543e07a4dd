//! Readers of one binary field each, from the front of the bytes. A field is one whole: where it is
//! malformed or not whole, the fault is at its first byte.

ghost use Rattle.mc_fields.specs.Field.{one, two, four, eight};
ghost use Rattle.mc_fields.specs.Form.{sized_at, flag_at, plain_at, counted_at, str_at};
ghost use Rattle.mc_fields.specs.Texts.{is_text};
ghost use Rattle.mc_fields.specs.Gives.{Gives};

use crate::stuck::Stuck;
use crate::text::{TextRule, is_text};

/// A number of one byte, from `low` to `high`.
pub fn read_u8(bytes: &[u8], low: u8, high: u8) -> Result<(u8, &[u8]), Stuck>
    ensures { Gives (λ x. (x.0, x.1.now)) result (sized_at one low high bytes.now) }
{
    if bytes.is_empty() {
        return Err(Stuck { left: bytes.len() });
    }
    let (front, rest) = bytes.split_at(1);
    let number = u8::from_be_bytes([front[0]]);
    if number < low || high < number {
        return Err(Stuck { left: bytes.len() });
    }
    Ok((number, rest))
}

/// A number of two bytes, the high one first, from `low` to `high`.
pub fn read_u16(bytes: &[u8], low: u16, high: u16) -> Result<(u16, &[u8]), Stuck>
    ensures { Gives (λ x. (x.0, x.1.now)) result (sized_at two low high bytes.now) }
{
    if bytes.len() < 2 {
        return Err(Stuck { left: bytes.len() });
    }
    let (front, rest) = bytes.split_at(2);
    let number = u16::from_be_bytes([front[0], front[1]]);
    if number < low || high < number {
        return Err(Stuck { left: bytes.len() });
    }
    Ok((number, rest))
}

/// A number of four bytes, the high one first, from `low` to `high`.
pub fn read_u32(bytes: &[u8], low: u32, high: u32) -> Result<(u32, &[u8]), Stuck>
    ensures { Gives (λ x. (x.0, x.1.now)) result (sized_at four low high bytes.now) }
{
    if bytes.len() < 4 {
        return Err(Stuck { left: bytes.len() });
    }
    let (front, rest) = bytes.split_at(4);
    let number = u32::from_be_bytes([front[0], front[1], front[2], front[3]]);
    if number < low || high < number {
        return Err(Stuck { left: bytes.len() });
    }
    Ok((number, rest))
}

/// A number of eight bytes, the high one first, from `low` to `high`.
pub fn read_u64(bytes: &[u8], low: u64, high: u64) -> Result<(u64, &[u8]), Stuck>
    ensures { Gives (λ x. (x.0, x.1.now)) result (sized_at eight low high bytes.now) }
{
    if bytes.len() < 8 {
        return Err(Stuck { left: bytes.len() });
    }
    let (front, rest) = bytes.split_at(8);
    let number = u64::from_be_bytes([
        front[0], front[1], front[2], front[3], front[4], front[5], front[6], front[7],
    ]);
    if number < low || high < number {
        return Err(Stuck { left: bytes.len() });
    }
    Ok((number, rest))
}

/// A flag: one byte, 0 or 1.
pub fn read_flag(bytes: &[u8]) -> Result<(bool, &[u8]), Stuck>
    ensures { Gives (λ x. (x.0, x.1.now)) result (flag_at bytes.now) }
{
    match bytes {
        [0, rest @ ..] => Ok((false, rest)),
        [1, rest @ ..] => Ok((true, rest)),
        _ => Err(Stuck { left: bytes.len() }),
    }
}

/// So many bytes.
pub fn read_plain(bytes: &[u8], n: usize) -> Result<(&[u8], &[u8]), Stuck>
    ensures { Gives (λ x. (x.0.now, x.1.now)) result (plain_at n bytes.now) }
{
    if bytes.len() < n {
        return Err(Stuck { left: bytes.len() });
    }
    Ok(bytes.split_at(n))
}

/// 16 bytes, as a key, a secret or a digest has them.
pub fn read_key(bytes: &[u8]) -> Result<([u8; 16], &[u8]), Stuck>
    ensures { Gives (λ x. (x.0, x.1.now)) result (plain_at 16 bytes.now) }
{
    if bytes.len() < 16 {
        return Err(Stuck { left: bytes.len() });
    }
    let (front, rest) = bytes.split_at(16);
    let mut key = [0; 16];
    key.copy_from_slice(front);
    Ok((key, rest))
}

/// Any bytes with their length before them, as two bytes.
#[tactic(auto, unfolding(crate::specs::Form::counted_at))]
pub fn read_counted(bytes: &[u8]) -> Result<(&[u8], &[u8]), Stuck>
    ensures { Gives (λ x. (x.0.now, x.1.now)) result (counted_at bytes.now) }
{
    let (n, rest) = read_u16(bytes, 0, 65535)?;
    if rest.len() < n as usize {
        return Err(Stuck { left: bytes.len() });
    }
    Ok(rest.split_at(n as usize))
}

/// A text of this kind with its length before it, as two bytes.
#[tactic(auto, unfolding(crate::specs::Form::str_at))]
pub fn read_str<T: TextRule>(bytes: &[u8]) -> Result<(&[u8], &[u8]), Stuck>
    ensures { Gives (λ x. (x.0.now, x.1.now)) result (str_at (is_text T.first T.other T.least T.most) bytes.now) }
{
    let (text, rest) = read_counted(bytes)?;
    if !is_text::<T>(text) {
        return Err(Stuck { left: bytes.len() });
    }
    Ok((text, rest))
}
