//! A vendor states what it redeemed of a series.

ghost use Rattle.std.specs.Prelude.{◌≡◌, ◌<◌, ◌^◌, ◌∷◌, [], codes, Ok};
ghost use Rattle.mc_records.specs.Entry.{Entry, Note};
ghost use Rattle.ledger_model.specs.Histories.{History};
ghost use Rattle.house_core.specs.Bench.{house_time, limits_of};
ghost use Rattle.house_core.specs.House.{HouseRepresents, HandsBack, IfRefused, KeepsTime};
ghost use Rattle.house_core.specs.Refusing.{IsAmong};
ghost use Rattle.house_core.specs.Tasks.{Performs, Add};
ghost use Rattle.settle_core.specs.Claims.{claim_text};
ghost use Rattle.settle_core.specs.Tasks.{state_lines};
ghost use Rattle.counted_trade.specs.Counted.{counted_view};
ghost use Rattle.counted_trade.specs.Tasks.{state_task, TellsStated, KeepsList};

use crate::Counted;
use crate::noting::enter_note;
use house_core::{House, Outcome};
use house_state::Trade;
use mc_base::NoMemory;
use mc_outside::Disk;
use mc_requests::Refusal;
use settle_core::{Claim, Payment, append_claim, append_statement};

/// States what was redeemed of a series of an issuer above 0, whose epoch is below 2^24: notes it, where it was not noted
/// before, appends its statement and answers the amount. At a broker no issuer above 0 has terms. The inner trade asks
/// nothing of notes.
///
/// Refused with 71 NoTerms where the issuer has no terms, with 74 SeriesOpen where the house time is below the end of the
/// series, which it tells with the house time, and with 33 JournalFull. Where it is not done the bytes are as before.
pub fn state_series<D: Disk, T: Trade>(
    house: House<D, Counted<T>>,
    issuer: u8,
    epoch: u32,
    out: &mut Vec<u8>,
) -> Outcome<D, Counted<T>, u128>
    requires issuer { 0 < issuer }
    requires epoch { epoch < 2 ^ 24 }
    requires untested { (h : History) (e : Entry) → T.passes h e }
    ensures back { HandsBack D.disk D.disk_moved (KeepsTime house) house.journal.disk result }
    ensures kept { KeepsList out.old.items out.new.items result }
    ensures exact { (h : History) → HouseRepresents D.disk (counted_view T.trade) house h
        → Performs D.disk (counted_view T.trade)
        (λ task. task ≡ state_task h (house_time house.bench) issuer epoch) (TellsStated h issuer epoch out.old.items out.new.items)
        (limits_of house.bench) house.journal.disk h result }
    ensures refusals { IfRefused (IsAmong (33 ∷ 71 ∷ 74 ∷ [])) result }
{
    let Some(terms) = house.terms(issuer) else {
        return Outcome::Refused(house, Refusal::NoTerms);
    };
    let end = terms.series_end(epoch);
    let time = house.time().seconds();
    if time < end {
        return Outcome::Refused(house, Refusal::SeriesOpen(end, time));
    }
    let amount = house.trade().redeemed(issuer, epoch);
    let claim = Claim {
        issuer,
        epoch,
        amount,
    };
    let payment = Payment {
        vendor: house.name(),
        claim,
    };
    let before = out.len();
    match append_statement(house.alloc(), out, &terms, &payment) {
        Ok(()) => (),
        Err(NoMemory) => return Outcome::NoMemory(house),
    }
    if house.trade().counts().stated(issuer, epoch).is_some() {
        return Outcome::Done(house, amount);
    }
    match note_claim(house, &claim) {
        Outcome::Done(house, amount) => Outcome::Done(house, amount),
        Outcome::Refused(house, refusal) => {
            out.truncate(before);
            Outcome::Refused(house, refusal)
        }
        Outcome::NoMemory(house) => {
            out.truncate(before);
            Outcome::NoMemory(house)
        }
        Outcome::Halted(halted) => {
            out.truncate(before);
            Outcome::Halted(halted)
        }
    }
}

/// Notes a claim that is to be stated, and answers its amount.
fn note_claim<D: Disk, T: Trade>(
    house: House<D, Counted<T>>,
    claim: &Claim,
) -> Outcome<D, Counted<T>, u128>
    requires issuer { 0 < claim.now.issuer }
    requires byte { claim.now.issuer < 2 ^ 8 }
    requires epoch { claim.now.epoch < 2 ^ 24 }
    requires amount { claim.now.amount < 2 ^ 128 }
    requires untested { (h : History) (e : Entry) → T.passes h e }
    requires due { (h : History) → HouseRepresents D.disk (counted_view T.trade) house h
        → state_lines h (house_time house.bench) claim.now.issuer claim.now.epoch ≡ Ok claim.now }
    ensures back { HandsBack D.disk D.disk_moved (KeepsTime house) house.journal.disk result }
    ensures exact { (h : History) → HouseRepresents D.disk (counted_view T.trade) house h
        → Performs D.disk (counted_view T.trade)
        (λ task. task ≡ Add (Note (house_time house.bench) (codes "stated") (claim_text claim.now))) (λ task g told. told ≡ claim.now.amount)
        (limits_of house.bench) house.journal.disk h result }
    ensures refusals { IfRefused (IsAmong (33 ∷ [])) result }
{
    let mut text = Vec::new(house.alloc());
    match append_claim(&mut text, claim) {
        Ok(()) => enter_note(house, b"stated", &text, claim.amount),
        Err(NoMemory) => Outcome::NoMemory(house),
    }
}
