//! Notes are entered.

ghost use Rattle.std.specs.Prelude.{◌≡◌, ◌≤◌, ◌∷◌, [], length};
ghost use Rattle.scrip_form.specs.Texts.{IsName};
ghost use Rattle.mc_records.specs.declared.ranges.TheConstants.{MOST_CONTENTS};
ghost use Rattle.mc_records.specs.Entry.{Entry, Note, Fits};
ghost use Rattle.mc_records.specs.Views.{entry};
ghost use Rattle.ledger_model.specs.Histories.{History};
ghost use Rattle.house_core.specs.Bench.{house_time, limits_of};
ghost use Rattle.house_core.specs.House.{HouseRepresents, HandsBack, IfRefused, KeepsTime};
ghost use Rattle.house_core.specs.Refusing.{IsAmong};
ghost use Rattle.house_core.specs.Tasks.{Performs, Add};
ghost use Rattle.settle_core.specs.Settlement.{IsInOrder};
ghost use Rattle.counted_trade.specs.Counted.{counted_view};

use crate::Counted;
use house_core::{House, Outcome};
use house_state::Trade;
use mc_base::Moment;
use mc_outside::Disk;
use mc_records::{PieceList, Record, SiteTerms};
use scrip_form::Id;

/// Enters a note of the house time, which is in order, and answers an amount. The inner trade asks nothing of notes.
/// Refused with 33 JournalFull alone.
pub(crate) fn enter_note<D: Disk, T: Trade>(
    house: House<D, Counted<T>>,
    tag: &[u8],
    bytes: &[u8],
    amount: u128,
) -> Outcome<D, Counted<T>, u128>
    requires tag { IsName tag.now }
    requires short { length bytes.now ≤ MOST_CONTENTS }
    requires untested { (h : History) (e : Entry) → T.passes h e }
    requires order { (h : History) → HouseRepresents D.disk (counted_view T.trade) house h
        → IsInOrder h (Note (house_time house.bench) tag.now bytes.now) }
    ensures back { HandsBack D.disk D.disk_moved (KeepsTime house) house.journal.disk result }
    ensures exact { (h : History) → HouseRepresents D.disk (counted_view T.trade) house h
        → Performs D.disk (counted_view T.trade)
        (λ task. task ≡ Add (Note (house_time house.bench) tag.now bytes.now)) (λ task g told. told ≡ amount)
        (limits_of house.bench) house.journal.disk h result }
    ensures refusals { IfRefused (IsAmong (33 ∷ [])) result }
{
    let _parts: Option<(PieceList<'_>, Id, SiteTerms<'_>)> = None;
    let record = note(house.time(), tag, bytes);
    match house.enter(&record) {
        Outcome::Done(house, _) => Outcome::Done(house, amount),
        Outcome::Refused(house, refusal) => Outcome::Refused(house, refusal),
        Outcome::NoMemory(house) => Outcome::NoMemory(house),
        Outcome::Halted(halted) => Outcome::Halted(halted),
    }
}

/// The record of a note.
fn note<'a>(moment: Moment, tag: &'a [u8], bytes: &'a [u8]) -> Record<'a>
    requires tag { IsName tag.now }
    requires short { length bytes.now ≤ MOST_CONTENTS }
    ensures fits { Fits (entry result) }
    ensures entry { entry result ≡ Note moment tag.now bytes.now }
{
    let _moment = moment.seconds();
    Record::Note { moment, tag, bytes }
}
