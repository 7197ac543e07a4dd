//! How an issuer of a vendor is moved to the second version of scrip.

ghost use Rattle.std.specs.Prelude.{◌≡◌, ◌<◌, ◌^◌, ◌∷◌, []};
ghost use Rattle.mc_records.specs.Entry.{Upgrade, Fits};
ghost use Rattle.mc_records.specs.Views.{entry};
ghost use Rattle.ledger_model.specs.Histories.{History};
ghost use Rattle.ledger_model.specs.Houses.{upgrade_in};
ghost use Rattle.ledger_model.specs.Stock.{upgrade_terms};
ghost use Rattle.house_core.specs.Bench.{house_time, limits_of};
ghost use Rattle.house_core.specs.House.{HouseRepresents, HandsBack, IfRefused, KeepsTime};
ghost use Rattle.house_core.specs.Refusing.{IsAmong};
ghost use Rattle.house_core.specs.Tasks.{Performs, TellsAdded};
ghost use Rattle.house_core.specs.Upgrading.{upgrade_task};

use crate::house::House;
use crate::outcome::Outcome;
use house_state::Trade;
use mc_base::Moment;
use mc_outside::Disk;
use mc_records::Record;
use mc_requests::Refusal;
use scrip_form::{Name, Terms};
use scrip_journal::Receipt;

/// Moves an issuer of a vendor to the second version of scrip, in the series from an epoch on. `terms` are those by which
/// the house may do so, and `standing` is the epoch from which on it did before. Answers the receipt of the Upgrade
/// entry; None where it was moved from this epoch on before, and then nothing is written.
///
/// Refused with 71 NoTerms without terms, with 72 VersionSet where it was moved from another epoch on, with 73 TooEarly
/// where the epoch is not later than that of the house time, and with 33 JournalFull.
pub fn upgrade<D: Disk, T: Trade>(
    house: House<D, T>,
    vendor: &Name,
    issuer: u8,
    from: u32,
    terms: Option<Terms>,
    standing: Option<u32>,
) -> Outcome<D, T, Option<Receipt>>
    requires from { from < 2 ^ 24 }
    requires terms { (h : History) → HouseRepresents D.disk T.trade house h
        → terms ≡ upgrade_terms h vendor.now issuer }
    requires standing { (h : History) → HouseRepresents D.disk T.trade house h
        → standing ≡ upgrade_in h vendor.now issuer }
    ensures back { HandsBack D.disk D.disk_moved (KeepsTime house) house.journal.disk result }
    ensures exact { (h : History) → HouseRepresents D.disk T.trade house h
        → Performs D.disk T.trade
        (λ task. task ≡ upgrade_task h (house_time house.bench) vendor.now issuer from) TellsAdded
        (limits_of house.bench) house.journal.disk h result }
    ensures refusals { IfRefused (IsAmong (33 ∷ 71 ∷ 72 ∷ 73 ∷ [])) result }
{
    let Some(terms) = terms else {
        return Outcome::Refused(house, Refusal::NoTerms);
    };
    if let Some(epoch) = standing {
        return if epoch == from {
            Outcome::Done(house, None)
        } else {
            Outcome::Refused(house, Refusal::VersionSet(u64::from(epoch)))
        };
    }
    let now = terms.epoch_of(house.time());
    if from <= now {
        return Outcome::Refused(house, Refusal::TooEarly(u64::from(now)));
    }
    let record = upgrade_record(house.time(), vendor, issuer, from);
    match house.enter(&record) {
        Outcome::Done(house, receipt) => Outcome::Done(house, Some(receipt)),
        Outcome::Refused(house, refusal) => Outcome::Refused(house, refusal),
        Outcome::NoMemory(house) => Outcome::NoMemory(house),
        Outcome::Halted(halted) => Outcome::Halted(halted),
    }
}

/// The record of an Upgrade.
fn upgrade_record<'a>(moment: Moment, vendor: &'a Name, issuer: u8, from: u32) -> Record<'a>
    requires { from < 2 ^ 24 }
    ensures fits { Fits (entry result) }
    ensures entry { entry result ≡ Upgrade moment vendor.now issuer from }
{
    let _moment = moment.seconds();
    Record::Upgrade {
        moment,
        vendor: vendor.bytes(),
        issuer,
        from,
    }
}
