//! A broker pays the statement of a vendor.

ghost use Rattle.std.specs.Prelude.{◌≡◌, ◌∷◌, []};
ghost use Rattle.mc_records.specs.Entry.{Entry};
ghost use Rattle.ledger_model.specs.Histories.{History};
ghost use Rattle.house_core.specs.Bench.{house_time, limits_of};
ghost use Rattle.house_core.specs.House.{HouseRepresents, HandsBack, IfRefused, KeepsTime};
ghost use Rattle.house_core.specs.Refusing.{IsAmong};
ghost use Rattle.house_core.specs.Tasks.{Performs};
ghost use Rattle.counted_trade.specs.Counted.{counted_view};
ghost use Rattle.counted_trade.specs.Tasks.{pay_task, TellsPaid};

use crate::Counted;
use crate::judging::judge;
use crate::noting::enter_note;
use house_core::{House, Outcome};
use house_state::Trade;
use mc_outside::Disk;
use mc_requests::Refusal;
use settle_core::{payment_in, read_statement};

/// Pays the statement that the bytes are, and answers its amount: the payment is noted, where it was not made before. It
/// is made outside the books. At a vendor there is no licence. The inner trade asks nothing of notes.
///
/// Refused, in this order, with 53 BadInput and the line at which the bytes break the form, 0 where there are none; 43
/// NoVendor without a licence of the vendor and of that issuer; 75 BadStatement where the certificate is not the one under
/// its terms; then, where nothing of the amount was paid before, 76 PaidTwice with what was paid for the series; 74
/// SeriesOpen with the end of the series and the house time; 77 OverSold with what was sold of it under the licence; and 33
/// JournalFull.
pub fn pay_statement<D: Disk, T: Trade>(
    house: House<D, Counted<T>>,
    line: &[u8],
) -> Outcome<D, Counted<T>, u128>
    requires untested { (h : History) (e : Entry) → T.passes h e }
    ensures back { HandsBack D.disk D.disk_moved (KeepsTime house) house.journal.disk result }
    ensures exact { (h : History) → HouseRepresents D.disk (counted_view T.trade) house h
        → Performs D.disk (counted_view T.trade)
        (λ task. task ≡ pay_task h (house_time house.bench) line.now) (TellsPaid line.now)
        (limits_of house.bench) house.journal.disk h result }
    ensures refusals { IfRefused (IsAmong (33 ∷ 43 ∷ 53 ∷ 74 ∷ 75 ∷ 76 ∷ 77 ∷ [])) result }
{
    let statement = match read_statement(line) {
        Ok(statement) => statement,
        Err(place) => return Outcome::Refused(house, Refusal::BadInput(u64::from(place))),
    };
    let amount = statement.payment.claim.amount;
    match judge(house.trade().counts(), house.time(), &statement, line) {
        Ok(Some(_due)) => enter_note(house, b"pay", payment_in(line, &statement), amount),
        Ok(None) => Outcome::Done(house, amount),
        Err(refusal) => Outcome::Refused(house, refusal),
    }
}
