//! What the operator of a broker's site does with its book.

ghost use Rattle.std.specs.Prelude.{◌≡◌, ◌<◌, ◌^◌, ◌∷◌, [], List as Items, ℕ, None, IfErr, IfOk, IfSome, IsSome};
ghost use Rattle.mc_records.specs.Entry.{Licence, Fits};
ghost use Rattle.mc_records.specs.Views.{entry};
ghost use Rattle.broker_ledger.specs.Tasks.{task_of};
ghost use Rattle.ledger_model.specs.Accounts.{balance};
ghost use Rattle.ledger_model.specs.Histories.{History};
ghost use Rattle.ledger_model.specs.Lawful.{MayFollow};
ghost use Rattle.house_core.specs.Bench.{house_time, limits_of};
ghost use Rattle.house_core.specs.House.{HouseRepresents, HandsBack, IfRefused, KeepsTime};
ghost use Rattle.house_core.specs.Refusing.{IsAmong};
ghost use Rattle.house_core.specs.Tasks.{Performs, TellsAdded};
ghost use Rattle.broker_core.specs.Desk.{DeskRepresents, desk_view};
ghost use Rattle.ledger_model.specs.Stock.{licence_in, stock_ids, upgrade_terms};
ghost use Rattle.broker_core.specs.Moves.{moved_issuer};
ghost use Rattle.broker_core.specs.Tasks.{account_task, deposit_task, withdraw_task, licence_task, upgrade_licence_task, stock_task, stock_lines, stock_refusal, as_task, IfAdded, IsCommandAt, IsReadAs, TellsBalance, TellsCount};

use crate::desk::Desk;
use crate::stock::refusal_of;
use house_core::{House, Outcome};
use issuer_terms::{are_same, terms_fit};
use mc_base::{Amount, Moment};
use mc_outside::Disk;
use mc_records::{PieceList, Record, RecordTerms, SiteTerms};
use mc_requests::Refusal;
use piece_lines::{PieceLinesFault, PieceRule, lines_are_of_pieces, read_piece_lines};
use scrip_form::{Id, Name, Terms};
use scrip_journal::Receipt;

/// Opens an account under a name, whose draws are signed by this key. Answers the receipt of the Account
/// entry; None where the same account stands, and then nothing is written.
///
/// Refused with 60 AccountTaken where an account of the name stands with another key, and with 33 JournalFull.
pub fn open_account<D: Disk>(
    house: House<D, Desk>,
    name: &Name,
    key: [u8; 16],
) -> Outcome<D, Desk, Option<Receipt>>
    ensures back { HandsBack D.disk D.disk_moved (KeepsTime house) house.journal.disk result }
    ensures exact { (h : History) → HouseRepresents D.disk desk_view house h
        → Performs D.disk desk_view
        (λ task. task ≡ account_task h (house_time house.bench) name.now key) TellsAdded
        (limits_of house.bench) house.journal.disk h result }
    ensures refusals { IfRefused (IsAmong (33 ∷ 60 ∷ [])) result }
{
    let _parts: Option<(PieceList<'_>, Id, SiteTerms<'_>)> = None;
    let accounts = house.trade().accounts();
    let task = accounts.account_task(house.time(), name, key);
    perform(house, &task)
}

/// Puts an amount, of 1 unit at least, into an account under a reference. Answers the balance of the account
/// as it stands then. Where this very deposit stands under the reference nothing is written, and the balance
/// is that of now.
///
/// Refused with 56 RefUsed where the reference stands with anything else, then with 40 NoAccount where there is
/// no such account, then with 45 AccountFull and the balance where that would pass 2^60, then with 33
/// JournalFull.
pub fn deposit<'a, D: Disk>(
    house: House<D, Desk>,
    name: &'a Name,
    amount: Amount,
    reference: &'a Name,
) -> Outcome<D, Desk, u64>
    requires { 0 < amount }
    ensures back { HandsBack D.disk D.disk_moved (KeepsTime house) house.journal.disk result }
    ensures exact { (h : History) → HouseRepresents D.disk desk_view house h
        → Performs D.disk desk_view
        (λ task. task ≡ deposit_task h (house_time house.bench) name.now amount reference.now) (TellsBalance name.now)
        (limits_of house.bench) house.journal.disk h result }
    ensures refusals { IfRefused (IsAmong (33 ∷ 40 ∷ 45 ∷ 56 ∷ [])) result }
{
    let _parts: Option<(PieceList<'_>, Id, SiteTerms<'_>)> = None;
    let accounts = house.trade().accounts();
    let task = accounts.deposit_task(house.time(), name, amount, reference);
    pay(house, name, &task)
}

/// Pays an amount, of 1 unit at least, out of an account under a reference. Answers the balance of the account
/// as it stands then. Where this very withdrawal stands under the reference nothing is written, and the
/// balance is that of now.
///
/// Refused with 56 RefUsed where the reference stands with anything else, then with 40 NoAccount where there is
/// no such account, then with 42 PoorAccount and the balance where that is below the amount, then with 33
/// JournalFull.
pub fn withdraw<'a, D: Disk>(
    house: House<D, Desk>,
    name: &'a Name,
    amount: Amount,
    reference: &'a Name,
) -> Outcome<D, Desk, u64>
    requires { 0 < amount }
    ensures back { HandsBack D.disk D.disk_moved (KeepsTime house) house.journal.disk result }
    ensures exact { (h : History) → HouseRepresents D.disk desk_view house h
        → Performs D.disk desk_view
        (λ task. task ≡ withdraw_task h (house_time house.bench) name.now amount reference.now) (TellsBalance name.now)
        (limits_of house.bench) house.journal.disk h result }
    ensures refusals { IfRefused (IsAmong (33 ∷ 40 ∷ 42 ∷ 56 ∷ [])) result }
{
    let _parts: Option<(PieceList<'_>, Id, SiteTerms<'_>)> = None;
    let accounts = house.trade().accounts();
    let task = accounts.withdraw_task(house.time(), name, amount, reference);
    pay(house, name, &task)
}

/// Takes a licence of a vendor: scrip of his is sold from now on that is made under these terms, of an issuer above
/// 0. Answers the receipt of the Licence entry; None where the same licence stands, and then nothing is written.
///
/// Refused with 59 LicenceTwice and the issuer that stands where the vendor has another licence, and with 33
/// JournalFull.
pub fn add_licence<D: Disk>(
    house: House<D, Desk>,
    vendor: &Name,
    terms: &Terms,
) -> Outcome<D, Desk, Option<Receipt>>
    requires issuer { 0 < terms.now.issuer }
    ensures back { HandsBack D.disk D.disk_moved (KeepsTime house) house.journal.disk result }
    ensures exact { (h : History) → HouseRepresents D.disk desk_view house h
        → Performs D.disk desk_view
        (λ task. task ≡ licence_task h (house_time house.bench) vendor.now terms.now) TellsAdded
        (limits_of house.bench) house.journal.disk h result }
    ensures refusals { IfRefused (IsAmong (33 ∷ 59 ∷ [])) result }
{
    let _parts: Option<(PieceList<'_>, Id, SiteTerms<'_>)> = None;
    let task = licence_task(house.trade(), house.time(), vendor, terms);
    perform(house, &task)
}

/// What there is to do to take a licence of a vendor.
fn licence_task<'a>(
    desk: &Desk,
    moment: Moment,
    vendor: &'a Name,
    terms: &'a Terms,
) -> Result<Option<Record<'a>>, Refusal>
    requires issuer { 0 < terms.now.issuer }
    ensures exact { (h : History) → DeskRepresents desk.now h
        → as_task (task_of result) ≡ licence_task h moment vendor.now terms.now }
    ensures new { (h : History) → DeskRepresents desk.now h
        → IfOk result (λ r. IsSome r → licence_in h vendor.now ≡ None) }
    ensures entry { IfOk result (λ r. IfSome r (λ r. entry r ≡ Licence moment vendor.now terms.now)) }
    ensures fits { IfOk result (λ r. IfSome r (λ r. Fits (entry r))) }
    ensures refusals { IfErr result (IsAmong (59 ∷ [])) }
{
    // What the moment and the terms know of themselves.
    let _moment = moment.seconds();
    terms_fit(terms);
    if let Some(standing) = desk.licence(vendor.bytes()) {
        return if are_same(standing, terms) {
            Ok(None)
        } else {
            Err(Refusal::LicenceTwice(u64::from(standing.issuer())))
        };
    }
    Ok(Some(Record::Licence {
        moment,
        vendor: vendor.bytes(),
        terms: RecordTerms::of(terms),
    }))
}

/// Moves an issuer to the second version of scrip, in the series from an epoch on, which is below 2^24: that of a vendor's
/// licence, or, by the broker's own name, its own issuer 0. Answers the receipt of the Upgrade entry; None where it was
/// moved from this epoch on before, and then nothing is written.
///
/// Refused with 71 NoTerms where the vendor has no licence, with 72 VersionSet where the issuer was moved from another
/// epoch on, with 73 TooEarly where the epoch is not later than that of the house time, and with 33 JournalFull.
pub fn upgrade_licence<D: Disk>(
    house: House<D, Desk>,
    vendor: &Name,
    from: u32,
) -> Outcome<D, Desk, Option<Receipt>>
    requires from { from < 2 ^ 24 }
    ensures back { HandsBack D.disk D.disk_moved (KeepsTime house) house.journal.disk result }
    ensures exact { (h : History) → HouseRepresents D.disk desk_view house h
        → Performs D.disk desk_view
        (λ task. task ≡ upgrade_licence_task h (house_time house.bench) vendor.now from) TellsAdded
        (limits_of house.bench) house.journal.disk h result }
    ensures refusals { IfRefused (IsAmong (33 ∷ 71 ∷ 72 ∷ 73 ∷ [])) result }
{
    let (issuer, terms) = terms_to_move(&house, vendor);
    let standing = house.trade().upgraded(vendor.bytes(), issuer);
    house_core::upgrade(house, vendor, issuer, from, terms, standing)
}

/// The issuer that is moved by the name of a vendor, and the terms by which it may be.
pub fn terms_to_move<D: Disk>(house: &House<D, Desk>, vendor: &Name) -> (u8, Option<Terms>)
    ensures issuer { (h : History) → HouseRepresents D.disk desk_view house.now h
        → result.0 ≡ moved_issuer h vendor.now }
    ensures terms { (h : History) → HouseRepresents D.disk desk_view house.now h
        → result.1 ≡ upgrade_terms h vendor.now (moved_issuer h vendor.now) }
{
    if vendor.bytes() == house.name().bytes() {
        return (0, Some(house.own_terms()));
    }
    match house.trade().licence(vendor.bytes()) {
        Some(terms) => (terms.issuer(), Some(*terms)),
        None => (1, None),
    }
}

/// Puts pieces of a vendor into stock, whose lines these are. Answers how many they are.
///
/// Refused with 53 BadInput and the first line that breaks the form, or whose piece is of another vendor or is not
/// first-hand; 0 where there are none, and 257 where more bytes follow behind 256 right lines. Then with 57 StockTwice and the first identity that stands in an earlier Stock entry of the vendor, or
/// twice in these lines. Then with 33 JournalFull.
pub fn add_stock<D: Disk>(
    house: House<D, Desk>,
    vendor: &Name,
    lines: &[u8],
) -> Outcome<D, Desk, u16>
    ensures back { HandsBack D.disk D.disk_moved (KeepsTime house) house.journal.disk result }
    ensures exact { (h : History) → HouseRepresents D.disk desk_view house h
        → Performs D.disk desk_view
        (λ task. task ≡ stock_task h (house_time house.bench) vendor.now lines.now) (TellsCount vendor.now lines.now)
        (limits_of house.bench) house.journal.disk h result }
    ensures refusals { IfRefused (IsAmong (33 ∷ 53 ∷ 57 ∷ [])) result }
{
    if let Some(refusal) = refusal_of(house.trade().stall(vendor.bytes()), vendor, lines) {
        return Outcome::Refused(house, refusal);
    }
    let mut elements = Vec::new(house.alloc());
    let rule = PieceRule::StockOf(*vendor);
    match read_piece_lines(lines, &rule, &mut elements) {
        Ok(_) => enter_stock(house, vendor, lines, &elements),
        Err(PieceLinesFault::Line(line)) => {
            Outcome::Refused(house, Refusal::BadInput(u64::from(line)))
        }
        Err(PieceLinesFault::NoMemory) => Outcome::NoMemory(house),
    }
}

/// Enters the pieces of lines that may be taken as stock, which have these elements. Answers how many they are.
fn enter_stock<D: Disk>(
    house: House<D, Desk>,
    vendor: &Name,
    lines: &[u8],
    elements: &[u8],
) -> Outcome<D, Desk, u16>
    requires read { IsReadAs vendor.now lines.now elements.now }
    requires new { (h : History) → HouseRepresents D.disk desk_view house h
        → None ≡ stock_refusal (stock_ids h vendor.now) (stock_lines vendor.now lines.now) }
    ensures back { HandsBack D.disk D.disk_moved (KeepsTime house) house.journal.disk result }
    ensures exact { (h : History) → HouseRepresents D.disk desk_view house h
        → Performs D.disk desk_view
        (λ task. task ≡ stock_task h (house_time house.bench) vendor.now lines.now) (TellsCount vendor.now lines.now)
        (limits_of house.bench) house.journal.disk h result }
    ensures refusals { IfRefused (IsAmong (33 ∷ [])) result }
{
    let _parts: Option<(Id, SiteTerms<'_>)> = None;
    lines_are_of_pieces();
    let pieces = PieceList::read(elements).unwrap();
    let record = Record::Stock {
        moment: house.time(),
        vendor: vendor.bytes(),
        pieces,
    };
    match house.enter(&record) {
        Outcome::Done(house, _) => Outcome::Done(house, pieces.count()),
        Outcome::Refused(house, refusal) => Outcome::Refused(house, refusal),
        Outcome::NoMemory(house) => Outcome::NoMemory(house),
        Outcome::Halted(halted) => Outcome::Halted(halted),
    }
}

/// Performs a task at the house time: enters its entry, where there is one to add. Answers the receipt of the
/// entry; None where the same stands.
fn perform<D: Disk>(
    house: House<D, Desk>,
    task: &Result<Option<Record<'_>>, Refusal>,
) -> Outcome<D, Desk, Option<Receipt>>
    requires command { IfAdded (IsCommandAt (house_time house.bench)) (as_task (task_of task.now)) }
    requires may { (h : History) → HouseRepresents D.disk desk_view house h
        → IfAdded (MayFollow (limits_of house.bench) h) (as_task (task_of task.now)) }
    ensures back { HandsBack D.disk D.disk_moved (KeepsTime house) house.journal.disk result }
    ensures exact { (h : History) → HouseRepresents D.disk desk_view house h
        → Performs D.disk desk_view (λ t. t ≡ as_task (task_of task.now)) TellsAdded
        (limits_of house.bench) house.journal.disk h result }
    ensures refusals { (numbers : Items ℕ) → IfErr task.now (IsAmong numbers)
        → IfRefused (IsAmong (33 ∷ numbers)) result }
{
    let added = match task {
        Ok(added) => added,
        Err(refusal) => return Outcome::Refused(house, *refusal),
    };
    let Some(record) = added else {
        return Outcome::Done(house, None);
    };
    match house.enter(record) {
        Outcome::Done(house, receipt) => Outcome::Done(house, Some(receipt)),
        Outcome::Refused(house, refusal) => Outcome::Refused(house, refusal),
        Outcome::NoMemory(house) => Outcome::NoMemory(house),
        Outcome::Halted(halted) => Outcome::Halted(halted),
    }
}

/// Performs a task of an account likewise. Answers its balance as it stands then.
fn pay<D: Disk>(
    house: House<D, Desk>,
    name: &Name,
    task: &Result<Option<Record<'_>>, Refusal>,
) -> Outcome<D, Desk, u64>
    requires command { IfAdded (IsCommandAt (house_time house.bench)) (as_task (task_of task.now)) }
    requires may { (h : History) → HouseRepresents D.disk desk_view house h
        → IfAdded (MayFollow (limits_of house.bench) h) (as_task (task_of task.now)) }
    ensures back { HandsBack D.disk D.disk_moved (KeepsTime house) house.journal.disk result }
    ensures exact { (h : History) → HouseRepresents D.disk desk_view house h
        → Performs D.disk desk_view (λ t. t ≡ as_task (task_of task.now)) (TellsBalance name.now)
        (limits_of house.bench) house.journal.disk h result }
    ensures refusals { (numbers : Items ℕ) → IfErr task.now (IsAmong numbers)
        → IfRefused (IsAmong (33 ∷ numbers)) result }
{
    match perform(house, task) {
        Outcome::Done(house, _) => {
            let balance = balance_of(house.trade(), name);
            Outcome::Done(house, balance)
        }
        Outcome::Refused(house, refusal) => Outcome::Refused(house, refusal),
        Outcome::NoMemory(house) => Outcome::NoMemory(house),
        Outcome::Halted(halted) => Outcome::Halted(halted),
    }
}

/// The balance of an account, 0 where there is no account of the name.
fn balance_of(desk: &Desk, name: &Name) -> u64
    ensures { (h : History) → DeskRepresents desk.now h → result ≡ balance h name.now }
{
    match desk.accounts().standing(name) {
        Some(standing) => standing.balance,
        None => 0,
    }
}
