//! One turn of serving a link by a house over a journal.

ghost use Rattle.std.specs.Prelude.{◌≡◌, ◌<◌, ◌+◌, IsTrue, IfOk};
ghost use Rattle.scrip_form.specs.Texts.{IsTarget};
ghost use Rattle.ledger_model.specs.Histories.{History};
ghost use Rattle.millicent_http.specs.declared.reader.TheConstants.{MAX_ITEMS};
ghost use Rattle.millicent_http.specs.declared.item.After.TheVariants.{Close};
ghost use Rattle.millicent_http.specs.HeadRefusals.{as_refusal};
ghost use Rattle.link_turns.specs.declared.turn.Turn.TheVariants.{GoOn};
ghost use Rattle.link_turns.specs.Sending.{KeptCounts, PartCauses};
ghost use Rattle.house_core.specs.Bench.{limits_of, state_of};
ghost use Rattle.house_core.specs.House.{HouseRepresents};
ghost use Rattle.house_serving.specs.Links.{RepliesTo, AnswersRequest, RefusesHead, TurnsHouse};

use house_core::{
    House, Outcome, ReplyRoom, Response, send_disk_fault, send_kept, send_refusal, send_settled,
};
use house_state::{Presented, Trade};
use link_turns::{Turn, turn_of};
use mc_base::Moment;
use mc_outside::{Link, Outside};
use mc_requests::Refusal;
use millicent_http::{After, HeadOut, HeadReader, HeadRefusal};
use scrip_journal::Halted;

/// Answers the next item of the standing link.
pub(crate) fn take_turn<O: Outside, T: Trade>(
    mut house: House<O, T>,
    reader: &mut HeadReader,
    room: &mut ReplyRoom,
) -> Result<(House<O, T>, Turn), Halted<O>>
    requires stands { IsTrue (O.link house.journal.disk).stands }
    ensures causes { PartCauses O.link O.disk house.journal.disk (λ r. r.0.journal.disk) result }
    ensures limits { IfOk result (λ r. limits_of r.0.bench ≡ limits_of house.bench) }
    ensures stands { IfOk result (λ r. r.1 ≡ GoOn → IsTrue (O.link r.0.journal.disk).stands) }
    ensures given { IfOk result (λ r. r.1 ≡ GoOn → (reader.new.given ≡ reader.old.given + 1)
        × (reader.old.given < MAX_ITEMS)) }
    ensures turned { (h : History) → HouseRepresents O.disk T.trade house h
        → TurnsHouse O.link O.disk T.trade (limits_of house.bench) house.journal.disk (state_of h house.bench) reader.old reader.new result }
{
    match reader.take(&mut house) {
        HeadOut::Head(q, after) => answer_request(house, &Presented::of(q), after, room),
        HeadOut::Refused(head, after) => Ok(answer_refused(house, head, after, room)),
        HeadOut::End => Ok((house, Turn::End)),
        HeadOut::Fault => Ok((house, Turn::NotReceived)),
    }
}

/// Answers a request at a reading of the clock.
fn answer_request<O: Outside, T: Trade>(
    mut house: House<O, T>,
    q: &Presented<'_>,
    after: After,
    room: &mut ReplyRoom,
) -> Result<(House<O, T>, Turn), Halted<O>>
    requires stands { IsTrue (O.link house.journal.disk).stands }
    requires target { IsTarget q.now.target }
    ensures causes { PartCauses O.link O.disk house.journal.disk (λ r. r.0.journal.disk) result }
    ensures limits { IfOk result (λ r. limits_of r.0.bench ≡ limits_of house.bench) }
    ensures stands { IfOk result (λ r. r.1 ≡ GoOn → IsTrue (O.link r.0.journal.disk).stands) }
    ensures open { IfOk result (λ r. r.1 ≡ GoOn → after ≡ Close → ⊥) }
    ensures answered { (h : History) → HouseRepresents O.disk T.trade house h
        → AnswersRequest O.link O.disk T.trade (limits_of house.bench) q.now after house.journal.disk (state_of h house.bench) result }
{
    let _reading = house.raise_by_clock();
    reply_to(house, q, after, room)
}

/// Answers a head that is refused, at a reading of the clock.
fn answer_refused<O: Outside, T: Trade>(
    mut house: House<O, T>,
    head: HeadRefusal,
    after: After,
    room: &mut ReplyRoom,
) -> (House<O, T>, Turn)
    requires stands { IsTrue (O.link house.journal.disk).stands }
    ensures counts { KeptCounts O.link O.disk house.journal.disk result.0.journal.disk }
    ensures limits { limits_of result.0.bench ≡ limits_of house.bench }
    ensures stands { result.1 ≡ GoOn → IsTrue (O.link result.0.journal.disk).stands }
    ensures open { result.1 ≡ GoOn → after ≡ Close → ⊥ }
    ensures answered { (h : History) → HouseRepresents O.disk T.trade house h
        → RefusesHead O.link O.disk T.trade (limits_of house.bench) (as_refusal head) after house.journal.disk (state_of h house.bench) result }
{
    let _reading = house.raise_by_clock();
    let sent = send_refusal(&mut house, None, &Refusal::from(head), room);
    (house, turn_of(sent, after))
}

/// Replies to a request at the house time.
fn reply_to<O: Outside, T: Trade>(
    house: House<O, T>,
    q: &Presented<'_>,
    after: After,
    room: &mut ReplyRoom,
) -> Result<(House<O, T>, Turn), Halted<O>>
    requires stands { IsTrue (O.link house.journal.disk).stands }
    requires target { IsTarget q.now.target }
    ensures causes { PartCauses O.link O.disk house.journal.disk (λ r. r.0.journal.disk) result }
    ensures limits { IfOk result (λ r. limits_of r.0.bench ≡ limits_of house.bench) }
    ensures stands { IfOk result (λ r. r.1 ≡ GoOn → IsTrue (O.link r.0.journal.disk).stands) }
    ensures open { IfOk result (λ r. r.1 ≡ GoOn → after ≡ Close → ⊥) }
    ensures replied { (h : History) → HouseRepresents O.disk T.trade house h
        → RepliesTo O.link O.disk T.trade (limits_of house.bench) q.now after house.journal.disk (state_of h house.bench) result }
{
    let time = house.time();
    match house.respond(q) {
        Outcome::Done(mut house, response) => {
            match response {
                Response::New(settled) => {
                    let sent = send_settled(&mut house, settled, room);
                    Ok((house, turn_of(sent, after)))
                }
                Response::Again(number) => {
                    let sent = send_kept(&mut house, &number, room);
                    Ok((house, turn_of(sent, after)))
                }
            }
        }
        Outcome::Refused(mut house, refusal) => {
            let sent = send_refusal(&mut house, Some(q), &refusal, room);
            Ok((house, turn_of(sent, after)))
        }
        Outcome::NoMemory(mut house) => {
            let sent = send_refusal(&mut house, Some(q), &Refusal::NoMemory, room);
            Ok((house, turn_of(sent, after)))
        }
        Outcome::Halted(mut halted) => {
            let _told = send_disk_fault(&mut halted, time, room);
            Err(halted)
        }
    }
}
