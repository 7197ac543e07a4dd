ghost use Rattle.std.specs.Prelude.{◌≡◌, ◌+◌, ◌≤◌, ◌++◌, [], ◌∷◌, length, take, decimal};
ghost use Rattle.mc_requests.specs.Refusals.{spaced, kept_of, refusal_text};
ghost use Rattle.mc_requests.specs.RefusalArgs.{arg_texts};

use crate::refusal::Refusal;
use itoa::Buffer;
use mc_fields::{put, put_number};
use scrip_form::{Id, Name};

/// The most bytes of a refusal's text.
pub const MOST_REFUSAL_BYTES: usize = 128;

/// Writes the text of a refusal at a place of the buffer, which has room for 128 bytes there: its
/// number, its name and what is kept, with one space between. Answers the place behind it; what
/// stands before the place stays.
#[tactic(auto, unfolding(crate::specs::Refusals::refusal_text))]
pub fn put_refusal_text(out: &mut [u8], at: usize, r: &Refusal) -> usize
    requires { at + 128 ≤ length out.old }
    ensures short { result ≤ at + 128 }
    ensures put { take result out.new ≡ take at out.old ++ refusal_text r.now }
{
    let at = put_number(out, at, u64::from(r.number()));
    let at = put_word(out, at, r.name());
    put_args(out, at, args_of(r))
}

/// What a refusal keeps.
enum RefusalArgs {
    Nothing,
    Number(u64),
    Pair(u64, u64),
    Sum(u128),
    Identity(Id),
    Named(Name),
}

fn args_of(r: &Refusal) -> RefusalArgs
    ensures { arg_texts result ≡ kept_of r.now }
{
    match *r {
        Refusal::BadScrip(n)
        | Refusal::TooLittle(n)
        | Refusal::SeriesFull(n)
        | Refusal::WrongVersion(n)
        | Refusal::StaleOrder(n)
        | Refusal::PoorAccount(n)
        | Refusal::NoStock(n)
        | Refusal::AccountFull(n)
        | Refusal::NotEmpty(n)
        | Refusal::BadInput(n)
        | Refusal::ContentsFull(n)
        | Refusal::IssuerTaken(n)
        | Refusal::LicenceTwice(n)
        | Refusal::NoFunds(n)
        | Refusal::SiteRefused(n)
        | Refusal::VersionSet(n)
        | Refusal::TooEarly(n)
        | Refusal::OverBudget(n) => RefusalArgs::Number(n),
        Refusal::ExpiryMismatch(m, n)
        | Refusal::Expired(m, n)
        | Refusal::JournalFull(m, n)
        | Refusal::SeriesOpen(m, n) => RefusalArgs::Pair(m, n),
        Refusal::PaidTwice(n) | Refusal::OverSold(n) => RefusalArgs::Sum(n),
        Refusal::StockTwice(id) | Refusal::TwiceHeld(id) => RefusalArgs::Identity(id),
        Refusal::RefUsed(name) | Refusal::MissingBook(name) => RefusalArgs::Named(name),
        _ => RefusalArgs::Nothing,
    }
}

fn put_args(out: &mut [u8], at: usize, kept: RefusalArgs) -> usize
    requires { at + 90 ≤ length out.old }
    ensures short { result ≤ at + 90 }
    ensures put { take result out.new ≡ take at out.old ++ spaced (arg_texts kept) }
{
    match kept {
        RefusalArgs::Nothing => at,
        RefusalArgs::Number(n) => put_number_word(out, at, n),
        RefusalArgs::Pair(m, n) => {
            let at = put_number_word(out, at, m);
            put_number_word(out, at, n)
        }
        RefusalArgs::Sum(n) => put_word(out, at, Buffer::new().format(n).as_bytes()),
        RefusalArgs::Identity(id) => {
            let mut digits = [0; 16];
            hex::encode_to_slice(id.number().to_be_bytes(), &mut digits).unwrap();
            put_word(out, at, &digits)
        }
        RefusalArgs::Named(name) => put_word(out, at, name.bytes()),
    }
}

/// A number behind a space.
fn put_number_word(out: &mut [u8], at: usize, n: u64) -> usize
    requires { at + 21 ≤ length out.old }
    ensures short { result ≤ at + 21 }
    ensures put { take result out.new ≡ take at out.old ++ spaced (decimal n ∷ []) }
{
    put_word(out, at, Buffer::new().format(n).as_bytes())
}

/// A text behind a space.
fn put_word(out: &mut [u8], at: usize, text: &[u8]) -> usize
    requires { at + length text.now + 1 ≤ length out.old }
    ensures end { result ≡ at + length text.now + 1 }
    ensures put { take result out.new ≡ take at out.old ++ spaced (text.now ∷ []) }
{
    let at = put(out, at, b" ");
    put(out, at, text)
}
