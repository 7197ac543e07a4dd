//! What the operator of a vendor's site does with its book.

ghost use Rattle.std.specs.Prelude.{◌≡◌, ◌<◌, ◌≤◌, ◌^◌, ◌∷◌, ◌++◌, [], length, IsFalse, Some, Ok};
ghost use Rattle.scrip_form.specs.Issuing.{Issuing};
ghost use Rattle.mc_records.specs.declared.ranges.TheConstants.{MOST_PIECES};
ghost use Rattle.mc_records.specs.declared.ranges.TheConstants.{MOST_CONTENTS};
ghost use Rattle.mc_records.specs.Entry.{AddTerms, Fits, Goods};
ghost use Rattle.mc_records.specs.Views.{entry};
ghost use Rattle.ledger_model.specs.Goods.{in_force};
ghost use Rattle.ledger_model.specs.Histories.{History};
ghost use Rattle.ledger_model.specs.declared.numbers.TheConstants.{MOST_IN_FORCE};
ghost use Rattle.ledger_model.specs.Houses.{site_name, terms_in, version};
ghost use Rattle.ledger_model.specs.Pieces.{has_reference, run_from};
ghost use Rattle.house_core.specs.Bench.{house_time, limits_of};
ghost use Rattle.house_core.specs.House.{HouseRepresents, HandsBack, HasRun, IfRefused, KeepsTime};
ghost use Rattle.house_core.specs.Refusing.{IsAmong};
ghost use Rattle.house_core.specs.Tasks.{Add, Performs, TellsLast, TellsAdded, NoLines};
ghost use Rattle.house_core.specs.Upgrading.{upgrade_task};
ghost use Rattle.vendor_core.specs.Lines.{piece_lines};
ghost use Rattle.vendor_core.specs.Shelf.{shelf_view};
ghost use Rattle.vendor_core.specs.Tasks.{goods_task, price_task, terms_task, IsMintTask, TellsMint};

use crate::lines::put_lines;
use crate::shelf::Shelf;
use house_core::{House, Outcome};
use issuer_terms::{are_same, terms_fit};
use ledger_model::MOST_IN_FORCE;
use mc_base::{Amount, Moment, NoMemory};
use mc_outside::Disk;
use mc_records::{PieceList, Record, RecordTerms, SiteTerms};
use mc_requests::Refusal;
use scrip_form::{Id, Name, Target, Terms};
use scrip_journal::Receipt;

/// Puts goods on sale at a target, in place of those that are there: their price, 1 to 2^40 units, their
/// kind and their contents. Answers the receipt of the Goods entry.
///
/// Refused with 54 ContentsFull where more than 2^26 bytes of contents would be on sale, which it tells, and
/// with 33 JournalFull.
pub fn set_goods<D: Disk>(
    house: House<D, Shelf>,
    target: &Target,
    price: Amount,
    kind: u8,
    contents: &[u8],
) -> Outcome<D, Shelf, Receipt>
    requires price { 0 < price }
    requires kind { kind < 3 }
    requires short { length contents.now ≤ MOST_CONTENTS }
    ensures back { HandsBack D.disk D.disk_moved (KeepsTime house) house.journal.disk result }
    ensures exact { (h : History) → HouseRepresents D.disk shelf_view house h
        → Performs D.disk shelf_view
        (λ task. task ≡ goods_task h (house_time house.bench) target.now price kind contents.now) TellsLast
        (limits_of house.bench) house.journal.disk h result }
    ensures refusals { IfRefused (IsAmong (33 ∷ 54 ∷ [])) result }
{
    let bytes = house.trade().in_force_with(target.bytes(), contents);
    if bytes > MOST_IN_FORCE {
        return Outcome::Refused(house, Refusal::ContentsFull(bytes));
    }
    enter_goods(house, target, price, kind, contents)
}

/// Sells the goods of a target at another price, 1 to 2^40 units. Answers the receipt of the Goods entry.
///
/// Refused with 30 NoSuchGoods where the target has no goods, and with 33 JournalFull.
pub fn set_price<D: Disk>(
    house: House<D, Shelf>,
    target: &Target,
    price: Amount,
) -> Outcome<D, Shelf, Receipt>
    requires price { 0 < price }
    ensures back { HandsBack D.disk D.disk_moved (KeepsTime house) house.journal.disk result }
    ensures exact { (h : History) → HouseRepresents D.disk shelf_view house h
        → Performs D.disk shelf_view
        (λ task. task ≡ price_task h (house_time house.bench) target.now price) TellsLast
        (limits_of house.bench) house.journal.disk h result }
    ensures refusals { IfRefused (IsAmong (30 ∷ 33 ∷ [])) result }
{
    let Some(goods) = house.trade().goods(target.bytes()) else {
        return Outcome::Refused(house, Refusal::NoSuchGoods);
    };
    let kind = goods.kind;
    let contents = match Vec::from_slice(house.alloc(), goods.bytes) {
        Ok(contents) => contents,
        Err(_) => return Outcome::NoMemory(house),
    };
    enter_goods(house, target, price, kind, &contents)
}

/// Enters goods of a target, with which the contents in force stay within their most bytes. Answers the receipt of the
/// Goods entry; refused only with 33 JournalFull.
fn enter_goods<D: Disk>(
    house: House<D, Shelf>,
    target: &Target,
    price: Amount,
    kind: u8,
    contents: &[u8],
) -> Outcome<D, Shelf, Receipt>
    requires price { 0 < price }
    requires kind { kind < 3 }
    requires short { length contents.now ≤ MOST_CONTENTS }
    requires within { (h : History) → HouseRepresents D.disk shelf_view house h
        → in_force (h ++ Goods (house_time house.bench) target.now price kind contents.now ∷ []) ≤ MOST_IN_FORCE }
    ensures back { HandsBack D.disk D.disk_moved (KeepsTime house) house.journal.disk result }
    ensures exact { (h : History) → HouseRepresents D.disk shelf_view house h
        → Performs D.disk shelf_view
        (λ task. task ≡ Add (Goods (house_time house.bench) target.now price kind contents.now)) TellsLast
        (limits_of house.bench) house.journal.disk h result }
    ensures refusals { IfRefused (IsAmong (33 ∷ [])) result }
{
    let _parts: Option<(PieceList<'_>, Id, SiteTerms<'_>)> = None;
    let goods = Record::Goods {
        moment: house.time(),
        target: target.bytes(),
        price: price.get(),
        kind,
        contents,
    };
    house.enter(&goods)
}

/// Takes scrip of an issuer above 0 from now on, which is made under these terms. Answers the receipt of the
/// Terms entry; None where the same terms stand, and then nothing is written.
///
/// Refused with 55 IssuerTaken where other terms of that issuer stand, and with 33 JournalFull.
pub fn add_terms<D: Disk>(
    house: House<D, Shelf>,
    terms: &Terms,
) -> Outcome<D, Shelf, Option<Receipt>>
    requires issuer { 0 < terms.now.issuer }
    ensures back { HandsBack D.disk D.disk_moved (KeepsTime house) house.journal.disk result }
    ensures exact { (h : History) → HouseRepresents D.disk shelf_view house h
        → Performs D.disk shelf_view
        (λ task. task ≡ terms_task h (house_time house.bench) terms.now) TellsAdded
        (limits_of house.bench) house.journal.disk h result }
    ensures refusals { IfRefused (IsAmong (33 ∷ 55 ∷ [])) result }
{
    if let Some(standing) = house.terms(terms.issuer()) {
        return if are_same(&standing, terms) {
            Outcome::Done(house, None)
        } else {
            let taken = Refusal::IssuerTaken(u64::from(terms.issuer()));
            Outcome::Refused(house, taken)
        };
    }
    let record = terms_record(house.time(), terms);
    match house.enter(&record) {
        Outcome::Done(house, receipt) => Outcome::Done(house, Some(receipt)),
        Outcome::Refused(house, refusal) => Outcome::Refused(house, refusal),
        Outcome::NoMemory(house) => Outcome::NoMemory(house),
        Outcome::Halted(halted) => Outcome::Halted(halted),
    }
}

/// Moves an issuer of the vendor to the second version of scrip, in the series from an epoch on, which is below 2^24.
/// Answers the receipt of the Upgrade entry; None where it was moved from this epoch on before, and then nothing is
/// written.
///
/// Refused with 71 NoTerms where the vendor takes no scrip of the issuer, with 72 VersionSet where it was moved from
/// another epoch on, with 73 TooEarly where the epoch is not later than that of the house time, and with 33 JournalFull.
pub fn upgrade<D: Disk>(
    house: House<D, Shelf>,
    issuer: u8,
    from: u32,
) -> Outcome<D, Shelf, Option<Receipt>>
    requires from { from < 2 ^ 24 }
    ensures back { HandsBack D.disk D.disk_moved (KeepsTime house) house.journal.disk result }
    ensures exact { (h : History) → HouseRepresents D.disk shelf_view house h
        → Performs D.disk shelf_view
        (λ task. task ≡ upgrade_task h (house_time house.bench) (site_name h) issuer from) TellsAdded
        (limits_of house.bench) house.journal.disk h result }
    ensures refusals { IfRefused (IsAmong (33 ∷ 71 ∷ 72 ∷ 73 ∷ [])) result }
{
    let name = house.name();
    let terms = house.terms(issuer);
    let standing = house.upgraded(issuer);
    house_core::upgrade(house, &name, issuer, from, terms, standing)
}

/// The record of terms of an issuer above 0.
fn terms_record(moment: Moment, terms: &Terms) -> Record<'_>
    requires { 0 < terms.now.issuer }
    ensures fits { Fits (entry result) }
    ensures entry { entry result ≡ AddTerms moment terms.now }
{
    // What the moment and the terms know of themselves.
    let _moment = moment.seconds();
    terms_fit(terms);
    Record::Terms {
        moment,
        terms: RecordTerms::of(terms),
    }
}

/// Mints 1 to 256 pieces of a value, 1 to 2^40 units, to be sold elsewhere, and puts their lines into an empty
/// list. Answers the number of the Mint entry. Where the same count and value were minted under the reference
/// before, nothing is written, and the lines and the number are those of then.
///
/// Refused with 56 RefUsed where the reference stands with another count or value, with 32 SeriesFull where
/// the series of the house time has no room for so many, and with 33 JournalFull. Where it is not done the
/// list stays empty.
pub fn mint<D: Disk>(
    house: House<D, Shelf>,
    count: u16,
    value: Amount,
    reference: &Name,
    out: &mut Vec<u8>,
) -> Outcome<D, Shelf, u64>
    requires some { 0 < count }
    requires few { count ≤ MOST_PIECES }
    requires value { 0 < value }
    requires empty { out.old.items ≡ [] }
    ensures back { HandsBack D.disk D.disk_moved (KeepsTime house) house.journal.disk result }
    ensures empty { NoLines out.new.items result }
    ensures exact { (h : History) → HouseRepresents D.disk shelf_view house h
        → Performs D.disk shelf_view (IsMintTask h (house_time house.bench) (limits_of house.bench) reference.now count value) (TellsMint reference.now count value out.new.items)
        (limits_of house.bench) house.journal.disk h result }
    ensures refusals { IfRefused (IsAmong (32 ∷ 33 ∷ 56 ∷ [])) result }
{
    if let Some(minted) = house.trade().minted(reference.bytes()) {
        if minted.count != count || minted.value != value.get() {
            return Outcome::Refused(house, Refusal::RefUsed(*reference));
        }
        return match put_lines(&house, minted.first, count, value, out) {
            Ok(()) => Outcome::Done(house, minted.number),
            Err(NoMemory) => Outcome::NoMemory(house),
        };
    }
    let first = match house.next_run(count) {
        Ok(first) => first,
        Err(refusal) => return Outcome::Refused(house, refusal),
    };
    match put_lines(&house, first, count, value, out) {
        Ok(()) => enter_mint(house, count, value, reference, first, out),
        Err(NoMemory) => Outcome::NoMemory(house),
    }
}

/// Enters the mint of new pieces under a new reference, as the next ones of the house's own series of the house
/// time, whose lines are in the list. Answers the number of the Mint entry; where it is not done the list is
/// emptied.
fn enter_mint<D: Disk>(
    house: House<D, Shelf>,
    count: u16,
    value: Amount,
    reference: &Name,
    first: Id,
    out: &mut Vec<u8>,
) -> Outcome<D, Shelf, u64>
    requires some { 0 < count }
    requires few { count ≤ MOST_PIECES }
    requires value { 0 < value }
    requires new { (h : History) → HouseRepresents D.disk shelf_view house h
        → IsFalse (has_reference h reference.now) }
    requires run { (h : History) → HouseRepresents D.disk shelf_view house h
        → HasRun h (house_time house.bench) (limits_of house.bench) count (Ok first) }
    ensures back { HandsBack D.disk D.disk_moved (KeepsTime house) house.journal.disk result }
    ensures empty { NoLines out.new.items result }
    ensures exact { (h : History) (terms : Issuing) → HouseRepresents D.disk shelf_view house h
        → terms_in h 0 ≡ Some terms
        → out.old.items ≡ piece_lines (version h (site_name h)) terms (run_from h value first count)
        → Performs D.disk shelf_view (IsMintTask h (house_time house.bench) (limits_of house.bench) reference.now count value) (TellsMint reference.now count value out.new.items)
        (limits_of house.bench) house.journal.disk h result }
    ensures refusals { IfRefused (IsAmong (33 ∷ [])) result }
{
    let _parts: Option<(PieceList<'_>, SiteTerms<'_>)> = None;
    let record = Record::Mint {
        moment: house.time(),
        reference: reference.bytes(),
        count,
        value: value.get(),
        first,
    };
    match house.enter(&record) {
        Outcome::Done(house, receipt) => Outcome::Done(house, receipt.number()),
        Outcome::Refused(house, refusal) => {
            out.clear();
            Outcome::Refused(house, refusal)
        }
        Outcome::NoMemory(house) => {
            out.clear();
            Outcome::NoMemory(house)
        }
        Outcome::Halted(halted) => {
            out.clear();
            Outcome::Halted(halted)
        }
    }
}
