//! What a house says to a request, and its reply.

ghost use Rattle.std.specs.Prelude.{◌≡◌, [], ◌∷◌, IfOk, IfErr, is_ok, option_map};
ghost use Rattle.ledger_model.specs.Histories.{History};
ghost use Rattle.ledger_model.specs.Answer.{answer, as_counted, draw_in};
ghost use Rattle.mc_requests.specs.Requests.{asked_of};
ghost use Rattle.ledger_model.specs.Replies as ledger;
ghost use Rattle.millicent_http.specs.HeadRefusals.{as_refusal};
ghost use Rattle.house_core.specs.Bench.{Represents, IsHouse, KeepsReply, Refines, house_time, limits_of, windows_of, tally_of, IsTallied, state_of};
ghost use Rattle.house_core.specs.Tallies.{RefusedBy, tallied, told};
ghost use Rattle.house_state.specs.LiveWindows.{AreUsed};
ghost use Rattle.house_state.specs.Replying.{IsOfSite};
ghost use Rattle.house_state.specs.Representation.{StateRepresents};
ghost use Rattle.house_state.specs.Trade.{draw_asked};
ghost use Rattle.house_core.specs.Session.{raised, Says, said_reply, refused_reply};

use crate::bench::Bench;
use crate::fault::BenchFault;
use crate::reply::{ReplyRoom, SigningRoom, refusal_head};
use crate::signing::{customer_of, signed_refusal, taken_reply};
use house_state::{DrawAsk, HouseState, Presented, Trade, without_scrip};
use kept_replies::KeptNumber;
use link_turns::Reply;
use mc_base::Moment;
use mc_requests::{Refusal, Request};
use millicent_http::HeadRefusal;

impl<T: Trade> Bench<T> {
    /// What is said to a request at a reading of the clock, to which the house time is raised: the number
    /// of the entry whose first reply it gets, or the refusal. Want of memory is refusal 90.
    pub fn answer(&mut self, reading: Moment, q: &Presented<'_>) -> Result<KeptNumber, Refusal>
        ensures limits { limits_of self.new ≡ limits_of self.old }
        ensures used { AreUsed (windows_of self.old) → AreUsed (windows_of self.new) }
        ensures kept { IfOk result (KeepsReply self.new) }
        ensures site { IfErr result IsOfSite }
        ensures within { IsTallied self.old → IsTallied self.new }
        ensures tally { (h : History) → IsHouse T.trade self.old h → IsTallied self.old
            → tally_of self.new ≡ tallied (tally_of self.old) (told (answer h (raised (state_of h self.old) reading).time (limits_of self.old) q.now) (is_ok result) ∷ []) }
        ensures went { Refines T.trade
            (λ s t. Says (answer (raised s reading).history (raised s reading).time (limits_of self.old) q.now) result (raised s reading) t) self.old self.new }
    {
        self.raise(reading);
        self.state.keep_some();
        let mut tally = self.tally;
        let answered = self.respond(q, &mut tally);
        self.tally = tally;
        match answered {
            Ok(number) => Ok(number),
            Err(BenchFault::Refused(refusal)) => Err(refusal),
            Err(BenchFault::NoMemory) => Err(Refusal::NoMemory),
        }
    }

    /// The reply to a request to which this is said, made in a room.
    pub fn reply<'a>(
        &'a self,
        q: &Presented<'_>,
        said: &Result<KeptNumber, Refusal>,
        room: &'a mut ReplyRoom,
    ) -> Reply<'a>
        requires kept { IfOk said.now (KeepsReply self.now) }
        requires site { IfErr said.now IsOfSite }
        ensures { (h : History) → IsHouse T.trade self.now h
            → result ≡ said_reply (state_of h self.now) q.now said.now }
    {
        match said {
            Ok(number) => self.first_reply(number, room),
            Err(refusal) => self.refusal_reply(q, refusal, &mut room.signing),
        }
    }

    /// The reply to a head that is refused, at a reading of the clock, to which the house time is raised.
    #[tactic(auto, unfolding(ledger_model::specs::Replies::head_refusal))]
    pub fn refuse_head<'a>(
        &mut self,
        reading: Moment,
        head: HeadRefusal,
        room: &'a mut ReplyRoom,
    ) -> Reply<'a>
        ensures limits { limits_of self.new ≡ limits_of self.old }
        ensures used { AreUsed (windows_of self.old) → AreUsed (windows_of self.new) }
        ensures reply { result ≡ ledger.head_refusal (house_time self.new) (as_refusal head) }
        ensures within { IsTallied self.old → IsTallied self.new }
        ensures tally { IsTallied self.old
            → tally_of self.new ≡ tallied (tally_of self.old) (RefusedBy (as_refusal head) ∷ []) }
        ensures went { Refines T.trade (λ s t. t ≡ raised s reading) self.old self.new }
    {
        let time = self.raise(reading);
        let refusal = Refusal::from(head);
        self.tally.refuse(&refusal);
        Reply::of(
            &refusal_head(time, &refusal, None),
            b"",
            &mut room.signing.page,
        )
    }

    /// The first reply to the entry of a number, whose reply is kept.
    pub(crate) fn first_reply<'a>(
        &'a self,
        number: &KeptNumber,
        room: &'a mut ReplyRoom,
    ) -> Reply<'a>
        requires kept { KeepsReply self.now number.now }
        ensures { (h : History) → IsHouse T.trade self.now h → result ≡ ledger.reply_of h number.now }
    {
        let Some((q, entry)) = self.state.kept(number) else {
            unreachable!();
        };
        let body = self.trade.body(&entry.deed, &mut room.contents);
        taken_reply(
            &self.state,
            &q,
            &entry,
            &body,
            &mut room.change,
            &mut room.signing,
        )
    }

    /// The reply to a request that is refused at the house time.
    fn refusal_reply<'a>(
        &self,
        q: &Presented<'_>,
        refusal: &Refusal,
        room: &'a mut SigningRoom,
    ) -> Reply<'a>
        requires { IsOfSite refusal.now }
        ensures { (h : History) → Represents T.trade self.now h
            → result ≡ ledger.refusal_of h (house_time self.now) q.now refusal.now }
    {
        let time = self.state.time();
        let own = q.request();
        let ask = self.trade.draw(own.target);
        let request = as_counted(&ask, own);
        let price = self.price_told(request.target, refusal);
        match self.secret_of_refusal(&ask, q, refusal) {
            Some(secret) => signed_refusal(time, &request, refusal, price, &secret, room),
            None => Reply::of(&refusal_head(time, refusal, price), b"", &mut room.page),
        }
    }

    /// The reply to a refusal at the house time: that of a request, or of a head that is no request.
    #[tactic(auto, unfolding(ledger_model::specs::Replies::head_refusal))]
    pub(crate) fn refused_reply<'a>(
        &self,
        q: Option<&Presented<'_>>,
        refusal: &Refusal,
        room: &'a mut SigningRoom,
    ) -> Reply<'a>
        requires { IsOfSite refusal.now }
        ensures { (h : History) → Represents T.trade self.now h
            → result ≡ refused_reply h (house_time self.now) (option_map
            (λ q. q.now) q.entry) refusal.now }
    {
        match q {
            Some(q) => self.refusal_reply(q, refusal, room),
            None => Reply::of(
                &refusal_head(self.state.time(), refusal, None),
                b"",
                &mut room.page,
            ),
        }
    }

    /// The price that the reply to a refusal tells: that of the target where there was no scrip, or the
    /// one that the piece is below.
    fn price_told(&self, target: &[u8], refusal: &Refusal) -> Option<u64>
        ensures { (h : History) → Represents T.trade self.now h
            → result ≡ ledger.price_told h target.now refusal.now }
    {
        match refusal {
            Refusal::NoScrip => self.trade.price(target),
            Refusal::TooLittle(price) => Some(*price),
            _ => None,
        }
    }

    /// The secret under which the reply to the refusal of a request is signed, where it is signed. The draw that the
    /// request asks for is known.
    fn secret_of_refusal(
        &self,
        ask: &Option<DrawAsk>,
        q: &Presented<'_>,
        refusal: &Refusal,
    ) -> Option<[u8; 16]>
        ensures { (h : History) → Represents T.trade self.now h → ask.now ≡ draw_asked h q.now.target
            → result ≡ ledger.secret_of_refusal h q.now refusal.now }
    {
        if refusal.is_signed() {
            asker_secret(&self.state, ask, q)
        } else {
            None
        }
    }
}

/// The secret of whoever asks: the key of the account of the draw that is asked for, else that of the customer of the
/// request's piece.
fn asker_secret(state: &HouseState, ask: &Option<DrawAsk>, q: &Presented<'_>) -> Option<[u8; 16]>
    ensures { (h : History) → StateRepresents state.now h → ask.now ≡ draw_asked h q.now.target
        → result ≡ ledger.asker_secret h (draw_in h q.now.target) q.now.scrip }
{
    match ask {
        Some(ask) => ask.key,
        None => customer_of(state, q),
    }
}

/// The request as its column of the answer sees it: the scrip text of a draw does not count.
fn as_counted<'q>(ask: &Option<DrawAsk>, q: &Request<'q>) -> Request<'q>
    ensures { (h : History) → ask.now ≡ draw_asked h q.now.target.now
        → asked_of result ≡ as_counted (draw_in h q.now.target.now) (asked_of q.now) }
{
    match ask {
        Some(_) => without_scrip(q),
        None => *q,
    }
}
