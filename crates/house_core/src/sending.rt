//! A house passes the calls of Link on to its disk, where that is an Outside, and sends its replies so.

ghost use Rattle.std.specs.Prelude.{◌≡◌, ◌<◌, [], ◌∷◌, ℕ, max, length, take, IsTrue, OnOk, OnErr, option_map};
ghost use Rattle.mc_outside.specs.DiskView.{Ran};
ghost use Rattle.mc_outside.specs.LinkView.{after_send, Failed, IsWhose};
ghost use Rattle.mc_requests.specs.declared.refusal.Refusal.TheVariants as refusals;
ghost use Rattle.mc_requests.specs.Requests.{Asked};
ghost use Rattle.ledger_model.specs.Histories.{History};
ghost use Rattle.ledger_model.specs.Replies as ledger;
ghost use Rattle.millicent_http.specs.declared.clock.Clock.TheVariants.{OfLinks};
ghost use Rattle.millicent_http.specs.Courses.{AreRead, with_readings};
ghost use Rattle.house_core.specs.Bench.{KeepsReply, house_time, limits_of};
ghost use Rattle.house_core.specs.House.{HouseRepresents, HouseRests, SendsOn};
ghost use Rattle.house_state.specs.Replying.{IsOfSite};
ghost use Rattle.house_core.specs.Session.{refused_reply};

use crate::house::House;
use crate::reply::{ReplyRoom, refusal_head};
use crate::settled::Settled;
use house_state::{Presented, Trade};
use kept_replies::KeptNumber;
use link_turns::Reply;
use mc_base::Moment;
use mc_outside::{Doors, Link, LinkFault, Outside};
use mc_requests::Refusal;
use scrip_journal::Halted;

impl<O: Outside, T: Trade> Link for House<O, T> {
    ghost use Rattle.house_core.specs.House.{HouseRests, house_rests_none, house_rests_then};

    ghost link = { λ j. O.link j.journal.disk };

    ghost link_moved = { λ j k. O.link_moved j.journal.disk k.journal.disk × HouseRests j k };

    ghost is_link = { λ a. O.is_link a.journal.disk };

    ghost link_stays = { λ a. (O.link_stays a.journal.disk, house_rests_none a) };

    ghost link_goes_on = { λ a b c m n. (O.link_goes_on a.journal.disk b.journal.disk c.journal.disk m.0 n.0, house_rests_then a b c m.1 n.1) };

    ghost link_goes = { λ a b m. O.link_goes a.journal.disk b.journal.disk m.0 };

    fn next_link(&mut self) -> Result<bool, LinkFault> {
        self.journal.next_link()
    }

    fn recv(&mut self, buf: &mut [u8]) -> Result<usize, LinkFault> {
        self.journal.recv(buf)
    }

    fn send(&mut self, bytes: &[u8]) -> Result<usize, LinkFault> {
        self.journal.send(bytes)
    }

    fn end_link(&mut self) {
        self.journal.end_link()
    }

    fn say(&mut self, bytes: &[u8]) -> Result<(), LinkFault> {
        self.journal.say(bytes)
    }

    fn now(&mut self) -> Moment {
        self.journal.now()
    }
}

impl<O: Doors, T: Trade> House<O, T> {
    /// Whether the standing link came through the operator's door.
    pub fn is_operators(&self) -> bool
        requires { IsTrue (O.link self.now.journal.disk).stands }
        ensures { IsWhose (O.link self.now.journal.disk) result }
    {
        self.journal.is_operators()
    }
}

impl<O: Outside, T: Trade> House<O, T> {
    /// Raises the house time to the reading of the clock, which is read once, and answers the reading. It
    /// takes no memory.
    pub fn raise_by_clock(&mut self) -> Moment
        ensures moved { O.link_moved self.old.journal.disk self.new.journal.disk }
        ensures stands { (h : History) → HouseRepresents O.disk T.trade self.old h
            → HouseRepresents O.disk T.trade self.new h }
        ensures time { house_time self.new.bench ≡ max (house_time self.old.bench) result }
        ensures limits { limits_of self.new.bench ≡ limits_of self.old.bench }
        ensures rest { O.link self.new.journal.disk
            ≡ with_readings (O.link self.new.journal.disk).readings (O.link self.old.journal.disk) }
        ensures read { AreRead OfLinks (result ∷ [])
            (O.link self.old.journal.disk).readings (O.link self.new.journal.disk).readings }
    {
        let reading = self.now();
        let _time = self.raise(reading);
        reading
    }
}

/// Sends the reply of an accepted request, which the house keeps since it accepted, on the link that stands, and
/// spends what says that it is on the disk. At an `Err` a prefix of the reply was sent, and not the
/// whole. It takes no memory.
pub fn send_settled<O: Outside, T: Trade>(
    house: &mut House<O, T>,
    s: Settled,
    room: &mut ReplyRoom,
) -> Result<(), LinkFault>
    requires link { IsTrue (O.link house.old.journal.disk).stands }
    requires kept { KeepsReply house.old.bench s.number }
    ensures moved { O.link_moved house.old.journal.disk house.new.journal.disk }
    ensures standing { (O.link house.new.journal.disk).stands ≡ (O.link house.old.journal.disk).stands }
    ensures rests { HouseRests house.old house.new }
    ensures stands { (h : History) → HouseRepresents O.disk T.trade house.old h
        → HouseRepresents O.disk T.trade house.new h }
    ensures ran { (h : History) → HouseRepresents O.disk T.trade house.old h
        → Ran (O.disk house.old.journal.disk) (O.disk house.new.journal.disk) (SendsOn h (O.disk house.old.journal.disk).aside (O.disk house.new.journal.disk).aside) }
    ensures sent { OnOk result ((h : History)
        → HouseRepresents O.disk T.trade house.old h
        → O.link house.new.journal.disk ≡ after_send (ledger.reply_of h s.number) (O.link house.old.journal.disk)) }
    ensures fault { OnErr result ((h : History) → HouseRepresents O.disk T.trade house.old h
        → (n : ℕ) × (n < length (ledger.reply_of h s.number))
        × Failed (after_send (take n (ledger.reply_of h s.number)) (O.link house.old.journal.disk)) (O.link house.new.journal.disk)) }
{
    let Settled {
        receipt: _,
        number,
        fresh: _,
    } = s;
    send_kept(house, &number, room)
}

/// Sends the first reply to the entry of a number, which is kept, on the link that stands. At an `Err` a
/// prefix of it was sent, and not the whole. It takes no memory.
pub fn send_again<O: Outside, T: Trade>(
    house: &mut House<O, T>,
    number: u64,
    room: &mut ReplyRoom,
) -> Result<(), LinkFault>
    requires link { IsTrue (O.link house.old.journal.disk).stands }
    requires kept { KeepsReply house.old.bench number }
    ensures moved { O.link_moved house.old.journal.disk house.new.journal.disk }
    ensures standing { (O.link house.new.journal.disk).stands ≡ (O.link house.old.journal.disk).stands }
    ensures rests { HouseRests house.old house.new }
    ensures stands { (h : History) → HouseRepresents O.disk T.trade house.old h
        → HouseRepresents O.disk T.trade house.new h }
    ensures ran { (h : History) → HouseRepresents O.disk T.trade house.old h
        → Ran (O.disk house.old.journal.disk) (O.disk house.new.journal.disk) (SendsOn h (O.disk house.old.journal.disk).aside (O.disk house.new.journal.disk).aside) }
    ensures sent { OnOk result ((h : History)
        → HouseRepresents O.disk T.trade house.old h
        → O.link house.new.journal.disk ≡ after_send (ledger.reply_of h number) (O.link house.old.journal.disk)) }
    ensures fault { OnErr result ((h : History) → HouseRepresents O.disk T.trade house.old h
        → (n : ℕ) × (n < length (ledger.reply_of h number))
        × Failed (after_send (take n (ledger.reply_of h number)) (O.link house.old.journal.disk)) (O.link house.new.journal.disk)) }
{
    send_kept(house, &KeptNumber::of(number), room)
}

/// Sends the first reply to the entry of a number, as [`send_again`] does. It is not searched for where it
/// lies where it was found.
pub fn send_kept<O: Outside, T: Trade>(
    house: &mut House<O, T>,
    number: &KeptNumber,
    room: &mut ReplyRoom,
) -> Result<(), LinkFault>
    requires link { IsTrue (O.link house.old.journal.disk).stands }
    requires kept { KeepsReply house.old.bench number.now }
    ensures moved { O.link_moved house.old.journal.disk house.new.journal.disk }
    ensures standing { (O.link house.new.journal.disk).stands ≡ (O.link house.old.journal.disk).stands }
    ensures rests { HouseRests house.old house.new }
    ensures stands { (h : History) → HouseRepresents O.disk T.trade house.old h
        → HouseRepresents O.disk T.trade house.new h }
    ensures ran { (h : History) → HouseRepresents O.disk T.trade house.old h
        → Ran (O.disk house.old.journal.disk) (O.disk house.new.journal.disk) (SendsOn h (O.disk house.old.journal.disk).aside (O.disk house.new.journal.disk).aside) }
    ensures sent { OnOk result ((h : History)
        → HouseRepresents O.disk T.trade house.old h
        → O.link house.new.journal.disk ≡ after_send (ledger.reply_of h number.now) (O.link house.old.journal.disk)) }
    ensures fault { OnErr result ((h : History) → HouseRepresents O.disk T.trade house.old h
        → (n : ℕ) × (n < length (ledger.reply_of h number.now))
        × Failed (after_send (take n (ledger.reply_of h number.now)) (O.link house.old.journal.disk)) (O.link house.new.journal.disk)) }
{
    let reply = house.bench.first_reply(number, room);
    reply.send(&mut house.journal)
}

/// Sends the reply to a refusal at the house time on the link that stands: that of a request, or of a
/// head that is no request. At an `Err` a prefix of it was sent, and not the whole. It takes no
/// memory.
pub fn send_refusal<O: Outside, T: Trade>(
    house: &mut House<O, T>,
    q: Option<&Presented<'_>>,
    refusal: &Refusal,
    room: &mut ReplyRoom,
) -> Result<(), LinkFault>
    requires link { IsTrue (O.link house.old.journal.disk).stands }
    requires site { IsOfSite refusal.now }
    ensures moved { O.link_moved house.old.journal.disk house.new.journal.disk }
    ensures standing { (O.link house.new.journal.disk).stands ≡ (O.link house.old.journal.disk).stands }
    ensures rests { HouseRests house.old house.new }
    ensures stands { (h : History) → HouseRepresents O.disk T.trade house.old h
        → HouseRepresents O.disk T.trade house.new h }
    ensures ran { (h : History) → HouseRepresents O.disk T.trade house.old h
        → Ran (O.disk house.old.journal.disk) (O.disk house.new.journal.disk) (SendsOn h (O.disk house.old.journal.disk).aside (O.disk house.new.journal.disk).aside) }
    ensures sent { OnOk result ((h : History)
        → HouseRepresents O.disk T.trade house.old h
        → O.link house.new.journal.disk ≡ after_send (refused_reply h (house_time house.old.bench) (option_map (λ q. q.now) q.entry) refusal.now) (O.link house.old.journal.disk)) }
    ensures fault { OnErr result ((h : History) → HouseRepresents O.disk T.trade house.old h
        → (n : ℕ) × (n < length (refused_reply h (house_time house.old.bench) (option_map (λ q. q.now) q.entry) refusal.now))
        × Failed (after_send (take n (refused_reply h (house_time house.old.bench) (option_map (λ q. q.now) q.entry) refusal.now)) (O.link house.old.journal.disk)) (O.link house.new.journal.disk)) }
{
    let reply = house.bench.refused_reply(q, refusal, &mut room.signing);
    reply.send(&mut house.journal)
}

/// Sends the refusal that tells a request that the disk failed, on the link that stands, at a house time.
/// At an `Err` a prefix of it was sent, and not the whole. It takes no memory.
pub fn send_disk_fault<O: Outside>(
    halted: &mut Halted<O>,
    time: Moment,
    room: &mut ReplyRoom,
) -> Result<(), LinkFault>
    requires { IsTrue (O.link halted.old).stands }
    ensures moved { O.link_moved halted.old halted.new }
    ensures standing { (O.link halted.new).stands ≡ (O.link halted.old).stands }
    ensures sent { OnOk result ((a : History × Asked)
        → O.link halted.new ≡ after_send (ledger.refusal_of a.0 time a.1 refusals.DiskFault) (O.link halted.old)) }
    ensures fault { OnErr result ((a : History × Asked)
        → (n : ℕ) × (n < length (ledger.refusal_of a.0 time a.1 refusals.DiskFault))
        × Failed (after_send (take n (ledger.refusal_of a.0 time a.1 refusals.DiskFault)) (O.link halted.old)) (O.link halted.new)) }
{
    let reply = Reply::of(
        &refusal_head(time, &Refusal::DiskFault, None),
        b"",
        &mut room.signing.page,
    );
    reply.send(halted)
}
