//! Texts of claims and payments, as notes have them.

ghost use Rattle.std.specs.Prelude.{◌≡◌, ◌≤◌, ◌^◌, decimal, bytes_eq, IfSome};
ghost use Rattle.settle_core.specs.Claims.{ClaimFits, PaymentFits, number_in, claim_of, payment_of};
ghost use Rattle.settle_core.specs.Statements.{claim_in};

use crate::claim::{Claim, Payment};
use itoa::Buffer;
use mc_fields::cut;
use scrip_form::Name;

/// The greatest epoch.
const LAST_EPOCH: u128 = (1 << 24) - 1;

/// The most that is claimed for a series: what 2^32 pieces of 2^40 units are worth.
const MOST_CLAIMED: u128 = 1 << 72;

/// Whether the bytes are the decimal text of a number.
fn is_spelled(number: u128, bytes: &[u8]) -> bool
    ensures { result ≡ bytes_eq (decimal number) bytes.now }
{
    let mut digits = Buffer::new();
    digits.format(number).as_bytes() == bytes
}

/// The number from the least to the most whose decimal text the bytes are; None exactly where they are that of none.
fn number_in(least: u128, most: u128, bytes: &[u8]) -> Option<u128>
    requires small { most ≤ 2 ^ 72 }
    ensures read { result ≡ number_in least most bytes.now }
    ensures range { IfSome result (λ n. (least ≤ n) × (n ≤ most)) }
{
    let Ok(text) = str::from_utf8(bytes) else {
        return None;
    };
    let Ok(number) = text.parse::<u128>() else {
        return None;
    };
    if !is_spelled(number, bytes) {
        return None;
    }
    if number < least || most < number {
        return None;
    }
    Some(number)
}

/// The claim whose text the bytes are.
pub fn read_claim(bytes: &[u8]) -> Option<Claim>
    ensures read { result ≡ claim_of bytes.now }
    ensures fits { IfSome result ClaimFits }
{
    let (issuer, rest) = cut(b' ', bytes)?;
    let (epoch, amount) = cut(b' ', rest)?;
    claim_in(issuer, epoch, amount)
}

/// The claim of three words.
pub(crate) fn claim_in(issuer: &[u8], epoch: &[u8], amount: &[u8]) -> Option<Claim>
    ensures read { result ≡ claim_in issuer.now epoch.now amount.now }
    ensures fits { IfSome result ClaimFits }
{
    let issuer = number_in(1, 255, issuer)?;
    let epoch = number_in(0, LAST_EPOCH, epoch)?;
    let amount = number_in(0, MOST_CLAIMED, amount)?;
    Some(Claim {
        issuer: issuer as u8,
        epoch: epoch as u32,
        amount,
    })
}

/// The payment whose text the bytes are.
pub fn read_payment(bytes: &[u8]) -> Option<Payment>
    ensures read { result ≡ payment_of bytes.now }
    ensures fits { IfSome result PaymentFits }
{
    let (vendor, rest) = cut(b' ', bytes)?;
    let Some(vendor) = Name::new(vendor) else {
        return None;
    };
    let claim = read_claim(rest)?;
    Some(Payment { vendor, claim })
}
