//! Refusals by their numbers.

use crate::fault::Fault;
use crate::show::Lines;
use crate::state::State;
use crate::words::number as number_of;
use mc_requests::{MOST_REFUSAL_BYTES, Refusal, put_refusal_text};
use scrip_form::{Id, Name};

/// The refusal of this number that keeps these values.
pub(crate) fn refusal(state: &State, number: &[u8], kept: &[&[u8]]) -> Result<Refusal, Fault> {
    let number = number_of(number)?;
    let refusal = match kept.len() {
        0 => plain(number),
        1 => of_one(state, number, kept[0])?,
        2 => of_pair(number, number_of(kept[0])?, number_of(kept[1])?),
        _ => None,
    };
    match refusal {
        Some(refusal) => Ok(refusal),
        None => Err(Fault::Arguments),
    }
}

/// A refusal that keeps one value.
fn of_one(state: &State, number: u64, value: &[u8]) -> Result<Option<Refusal>, Fault> {
    match number {
        56 | 70 => Ok(of_name(number, &state.names.bytes(value)?)),
        57 | 61 => Ok(of_identity(number, Id::of_number(number_of(value)?))),
        76 | 77 => of_sum(number, value),
        _ => Ok(of_number(number, number_of(value)?)),
    }
}

/// Prints the status of a refusal, and its text.
pub(crate) fn show_refusal(refusal: &Refusal, out: &mut Lines) {
    let mut room = [0; MOST_REFUSAL_BYTES];
    let end = put_refusal_text(&mut room, 0, refusal);
    out.start("refusal");
    out.number(u64::from(refusal.status()));
    out.word(room.get(..end).unwrap_or(b""));
    out.end()
}

/// A refusal that keeps nothing.
fn plain(number: u64) -> Option<Refusal> {
    let all = [
        Refusal::BadHead,
        Refusal::HeadTooLarge,
        Refusal::NoHost,
        Refusal::BodyRefused,
        Refusal::BadTarget,
        Refusal::BadMethod,
        Refusal::RepeatedField,
        Refusal::NoScrip,
        Refusal::WrongVendor,
        Refusal::UnknownIssuer,
        Refusal::BadCertificate,
        Refusal::Spent,
        Refusal::NeedSignature,
        Refusal::BadSignature,
        Refusal::NoSuchGoods,
        Refusal::NoAccount,
        Refusal::NoVendor,
        Refusal::WrongKind,
        Refusal::AccountTaken,
        Refusal::NoLink,
        Refusal::NoReply,
        Refusal::BadReply,
        Refusal::Unproved,
        Refusal::Nothing,
        Refusal::BadBooks,
        Refusal::NoTerms,
        Refusal::BadStatement,
        Refusal::NotPlain,
        Refusal::NothingDue,
        Refusal::UpstreamFault,
        Refusal::NoMemory,
        Refusal::DiskFault,
    ];
    among(number, &all)
}

/// The refusal of this number among some.
fn among(number: u64, all: &[Refusal]) -> Option<Refusal> {
    for refusal in all {
        if u64::from(refusal.number()) == number {
            return Some(*refusal);
        }
    }
    None
}

/// A refusal that keeps a number.
fn of_number(number: u64, n: u64) -> Option<Refusal> {
    let all = [
        Refusal::BadScrip(n),
        Refusal::TooLittle(n),
        Refusal::SeriesFull(n),
        Refusal::WrongVersion(n),
        Refusal::StaleOrder(n),
        Refusal::PoorAccount(n),
        Refusal::NoStock(n),
        Refusal::AccountFull(n),
        Refusal::NotEmpty(n),
        Refusal::BadInput(n),
        Refusal::ContentsFull(n),
        Refusal::IssuerTaken(n),
        Refusal::LicenceTwice(n),
        Refusal::NoFunds(n),
        Refusal::SiteRefused(n),
        Refusal::VersionSet(n),
        Refusal::TooEarly(n),
        Refusal::OverBudget(n),
    ];
    among(number, &all)
}

/// A refusal that keeps two numbers.
fn of_pair(number: u64, m: u64, n: u64) -> Option<Refusal> {
    let all = [
        Refusal::ExpiryMismatch(m, n),
        Refusal::Expired(m, n),
        Refusal::JournalFull(m, n),
        Refusal::SeriesOpen(m, n),
    ];
    among(number, &all)
}

/// A refusal that keeps an identity.
fn of_identity(number: u64, id: Id) -> Option<Refusal> {
    among(number, &[Refusal::StockTwice(id), Refusal::TwiceHeld(id)])
}

/// A refusal that keeps a name.
fn of_name(number: u64, bytes: &[u8]) -> Option<Refusal> {
    let name = Name::new(bytes)?;
    among(
        number,
        &[Refusal::RefUsed(name), Refusal::MissingBook(name)],
    )
}

/// A refusal that keeps a sum.
fn of_sum(number: u64, digits: &[u8]) -> Result<Option<Refusal>, Fault> {
    let Ok(text) = str::from_utf8(digits) else {
        return Err(Fault::Number);
    };
    let Ok(sum) = text.parse::<u128>() else {
        return Err(Fault::Number);
    };
    Ok(among(number, &[Refusal::PaidTwice(sum), Refusal::OverSold(sum)]))
}
