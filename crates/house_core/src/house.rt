//! A house over a journal: what is accepted is on the disk before its reply can begin.

ghost use Rattle.std.specs.Prelude.{◌≡◌, ◌<◌, ◌≤◌, ◌+◌, ◌*◌, ◌^◌, ◌∷◌, [], ℕ, length, max, IfErr, IsSome, None, Some, Ok};
ghost use Rattle.mc_outside.specs.DiskView.{Ran};
ghost use Rattle.scrip_form.specs.Identities.{series_of};
ghost use Rattle.scrip_form.specs.Issuing.{Issuing};
ghost use Rattle.scrip_form.specs.Scrip.{scrip_body, IsVersion};
ghost use Rattle.scrip_form.specs.Texts.{IsTarget};
ghost use Rattle.mc_records.specs.Chains.{chain, has_switch};
ghost use Rattle.mc_records.specs.Entry.{Fits, moment_of};
ghost use Rattle.mc_requests.specs.Requests.{asked_of};
ghost use Rattle.mc_records.specs.Sizes.{size};
ghost use Rattle.mc_records.specs.Views.{entry};
ghost use Rattle.ledger_model.specs.Histories.{History};
ghost use Rattle.ledger_model.specs.Answer as model;
ghost use Rattle.ledger_model.specs.Houses.{site_name, terms_in, upgrade_in, version};
ghost use Rattle.ledger_model.specs.Sums.{takings};
ghost use Rattle.scrip_certs.specs.Digests as digests;
ghost use Rattle.ledger_model.specs.Lawful.{MayFollow};
ghost use Rattle.house_state.specs.Learning.{Passes};
ghost use Rattle.house_state.specs.CommandEntries.{IsCommand};
ghost use Rattle.scrip_journal.specs.States.{IsJournal};
ghost use Rattle.house_state.specs.HouseState.{size_with};
ghost use Rattle.house_core.specs.Bench.{IsHouse, KeepsReply, house_time, limits_of};
ghost use Rattle.house_state.specs.Trade.{OfGoods, NamesInForce};
ghost use Rattle.house_state.specs.Replying.{IsOfSite};
ghost use Rattle.house_state.specs.declared.verdict.Verdict.TheVariants as verdicts;
ghost use Rattle.house_state.specs.Verdicts.{judged, judged_of, authorized_entry, payload_of, BringsAs, IsOfNew, MayCommit, OfDeed};
ghost use Rattle.house_core.specs.Refusing.{IsAmong};
ghost use Rattle.house_core.specs.House.{HouseRepresents, HandsBack, HasRun, KeepsTime, RaisedTo, IfDone, IfRefused, Accepted, Responds, Entered, Leaves, number_in, outcome_disk};

use crate::bench::{Bench, entry_of};
use crate::fault::EnterFault;
use crate::outcome::{Outcome, Response};
use crate::settled::Settled;
use house_state::{Authorized, NotAuthorized, Presented, Trade, Verdict, evaluate, terms_of};
use mc_base::{Moment, NoMemory};
use mc_outside::Disk;
use mc_records::{PieceList, Record, SiteTerms};
use mc_requests::{Limits, Refusal, Request};
use scrip_form::{Id, Name, Piece, Terms};
use scrip_journal::{Journal, Receipt, StageFault};
use std::alloc::Global;
use std::marker::Model;

/// A house over a journal that it owns and never lends. It is handed back by each call that writes an
/// entry, unless the disk fails in that call. It keeps replies for some time, so that each request that is taken is
/// answered. Contracts see it as the record `HouseView`.
pub struct House<D, T> {
    pub(crate) journal: Journal<D>,
    pub(crate) bench: Bench<T>,
}

impl<D, T> Model for House<D, T> {
    ghost use Rattle.std.specs.Prelude.{◌<◌};
    ghost use Rattle.house_core.specs.HouseView.{HouseView};

    ghost Value = { HouseView D T };

    ghost view = { λ x. record { journal = x.journal; bench = x.bench } };

    ghost invariant = { λ x. 0 < x.bench.state.kept.keep };
}

impl<D: Disk, T: Trade> House<D, T> {
    /// The house of a journal and of the bench that was made of its entries. It keeps replies: where the bench kept none,
    /// for one second.
    pub fn new(journal: Journal<D>, mut bench: Bench<T>) -> House<D, T>
        ensures stands { (h : History) → IsJournal D.disk journal h → IsHouse T.trade bench h
            → journal.limit ≡ (limits_of bench).journal
            → HouseRepresents D.disk T.trade result h }
        ensures disk { result.journal.disk ≡ journal.disk }
        ensures time { house_time result.bench ≡ house_time bench }
        ensures limits { limits_of result.bench ≡ limits_of bench }
    {
        bench.state.keep_some();
        House { journal, bench }
    }

    /// The house time.
    pub fn time(&self) -> Moment
        ensures { result ≡ house_time self.now.bench }
    {
        self.bench.state.time()
    }

    /// The limits of its journal and its series.
    pub fn limits(&self) -> Limits
        ensures { result ≡ limits_of self.now.bench }
    {
        self.bench.state.limits()
    }

    /// Its name.
    pub fn name(&self) -> Name
        ensures { (h : History) → HouseRepresents D.disk T.trade self.now h → result ≡ site_name h }
    {
        self.bench.state.site_name()
    }

    /// The terms of an issuer; None exactly where it takes no scrip of that issuer.
    pub fn terms(&self, issuer: u8) -> Option<Terms>
        ensures { (h : History) → HouseRepresents D.disk T.trade self.now h
            → result ≡ terms_in h issuer }
    {
        terms_of(self.bench.state.terms(), issuer).copied()
    }

    /// Its own terms, in whose series it hands out and mints.
    pub fn own_terms(&self) -> Terms
        ensures { (h : History) → HouseRepresents D.disk T.trade self.now h
            → terms_in h 0 ≡ Some result }
    {
        *self.bench.state.own_terms()
    }

    /// The certificate of a piece of its own, by its own terms.
    pub fn own_certificate(&self, piece: &Piece) -> [u8; 16]
        ensures { (h : History) (terms : Issuing) → HouseRepresents D.disk T.trade self.now h
            → terms_in h 0 ≡ Some terms
            → result ≡ digests.certificate terms (scrip_body piece.now) piece.now.id }
    {
        self.bench.state.own_certificate(piece)
    }

    /// The secret of a customer whose identity is of its own, by its own terms, in the version of its series.
    pub fn own_secret(&self, cust: Id) -> [u8; 16]
        ensures { (h : History) (terms : Issuing) → HouseRepresents D.disk T.trade self.now h
            → terms_in h 0 ≡ Some terms
            → result ≡ digests.customer_secret terms cust (version h (site_name h) (series_of cust)) }
    {
        let state = &self.bench.state;
        state.secret_of(state.own_terms(), cust)
    }

    /// The version of the series of an issuer of its own and an epoch, which is below 2^24: 1 or 2.
    pub fn version(&self, issuer: u8, epoch: u32) -> u8
        ensures valid { IsVersion result }
        ensures series { (h : History) → HouseRepresents D.disk T.trade self.now h → epoch < 2 ^ 24
            → result ≡ version h (site_name h) (issuer * 2 ^ 24 + epoch) }
    {
        let epoch = epoch % (1 << 24);
        self.bench
            .state
            .version(u32::from(issuer) * (1 << 24) + epoch)
    }

    /// The epoch from which on the series of an issuer of its name have the second version, where there is one.
    pub fn upgraded(&self, issuer: u8) -> Option<u32>
        ensures { (h : History) → HouseRepresents D.disk T.trade self.now h
            → result ≡ upgrade_in h (site_name h) issuer }
    {
        self.bench.state.upgrade_of(issuer)
    }

    /// The identity of the first of so many next pieces of its own series of the house time; refused with 32
    /// exactly where the limit of a series leaves no room for so many.
    pub fn next_run(&self, count: u16) -> Result<Id, Refusal>
        requires { 0 < count }
        ensures exact { (h : History) → HouseRepresents D.disk T.trade self.now h
            → HasRun h (house_time self.now.bench) (limits_of self.now.bench) count result }
        ensures refusals { IfErr result (IsAmong (32 ∷ [])) }
    {
        self.bench.state.next_run(count)
    }

    /// The identity of the next piece of its own series of the house time; refused with 32 exactly where the
    /// limit of a series leaves no room for one more.
    pub fn next(&self) -> Result<Id, Refusal>
        ensures { (h : History) → HouseRepresents D.disk T.trade self.now h
            → HasRun h (house_time self.now.bench) (limits_of self.now.bench) 1 result }
    {
        self.next_run(1)
    }

    /// Its trade.
    pub fn trade(&self) -> &T
        ensures { (h : History) → HouseRepresents D.disk T.trade self.now h
            → (T.trade result.now).represents h }
    {
        self.bench.trade()
    }

    /// Where its memory comes from.
    pub fn alloc(&self) -> Global {
        self.bench.alloc()
    }

    /// What the house says of a request at the house time: the ledger's answer without its entry. It
    /// takes no memory.
    pub fn judge(&self, q: &Request<'_>) -> Verdict
        ensures kept { (n : ℕ) → result ≡ verdicts.Again n → KeepsReply self.now.bench n }
        ensures exact { (h : History) → HouseRepresents D.disk T.trade self.now h
            → judged_of result ≡ judged (model.answer h (house_time self.now.bench) (limits_of self.now.bench) (asked_of q.now)) }
    {
        self.bench.judge(q)
    }

    /// Raises the house time to a reading of the clock where that is later, and answers it. The disk is
    /// not touched. It takes no memory.
    pub fn raise(&mut self, reading: Moment) -> Moment
        ensures time { result ≡ max (house_time self.old.bench) reading }
        ensures raised { house_time self.new.bench ≡ max (house_time self.old.bench) reading }
        ensures limits { limits_of self.new.bench ≡ limits_of self.old.bench }
        ensures journal { self.new.journal ≡ self.old.journal }
        ensures same { (h : History) → HouseRepresents D.disk T.trade self.old h
            → HouseRepresents D.disk T.trade self.new h }
    {
        self.bench.raise(reading)
    }

    /// Accepts a request at the house time: its entry is on the disk behind an open gate, and then it is
    /// entered. All memory is taken before anything is written. A request that comes again is not for
    /// this call: `respond` tells it apart, and here it is refused as one whose piece is spent.
    pub fn accept(self, q: &Request<'_>) -> Outcome<D, T, Settled>
        requires target { IsTarget q.now.target.now }
        ensures back { HandsBack D.disk D.disk_moved (KeepsTime self) self.journal.disk result }
        ensures site { IfRefused IsOfSite result }
        ensures kept { IfDone (λ x s. KeepsReply x.bench s.number) result }
        ensures exact { (h : History) → HouseRepresents D.disk T.trade self h
            → Accepted D.disk T.trade self.journal.disk h (model.answer h (house_time self.bench) (limits_of self.bench) (asked_of q.now)) result }
        ensures ran { (h : History) → HouseRepresents D.disk T.trade self h
            → Ran (D.disk self.journal.disk) (D.disk (outcome_disk result))
            (Leaves (model.answer h (house_time self.bench) (limits_of self.bench) (asked_of q.now)) result h (D.disk self.journal.disk).aside) }
    {
        match self.respond(&Presented::of(*q)) {
            Outcome::Done(house, response) => match response {
                Response::New(settled) => Outcome::Done(house, settled),
                Response::Again(_) => Outcome::Refused(house, Refusal::Spent),
            },
            Outcome::Refused(house, refusal) => Outcome::Refused(house, refusal),
            Outcome::NoMemory(house) => Outcome::NoMemory(house),
            Outcome::Halted(halted) => Outcome::Halted(halted),
        }
    }

    /// Answers a request at the house time. Where it is new, its entry is on the disk behind an open gate,
    /// and then it is entered; all memory is taken before anything is written. Where it comes again, it
    /// gets the first reply of its entry, and nothing is written.
    pub fn respond(self, q: &Presented<'_>) -> Outcome<D, T, Response>
        requires target { IsTarget q.now.target }
        ensures back { HandsBack D.disk D.disk_moved (KeepsTime self) self.journal.disk result }
        ensures site { IfRefused IsOfSite result }
        ensures kept { IfDone (λ x r. KeepsReply x.bench (number_in r)) result }
        ensures exact { (h : History) → HouseRepresents D.disk T.trade self h
            → Responds D.disk T.trade self.journal.disk h (model.answer h (house_time self.bench) (limits_of self.bench) q.now) result }
        ensures ran { (h : History) → HouseRepresents D.disk T.trade self h
            → Ran (D.disk self.journal.disk) (D.disk (outcome_disk result))
            (Leaves (model.answer h (house_time self.bench) (limits_of self.bench) q.now) result h (D.disk self.journal.disk).aside) }
    {
        let House { journal, bench } = self;
        match evaluate(&bench.state, bench.state.limits(), &bench.trade, q) {
            Ok(authorization) => House { journal, bench }.commit(q, authorization),
            Err(NotAuthorized::Refused(refusal)) => {
                Outcome::Refused(House { journal, bench }, refusal)
            }
            Err(NotAuthorized::Again(number)) => {
                Outcome::Done(House { journal, bench }, Response::Again(number))
            }
        }
    }

    /// Commits a request that was evaluated: makes room for its entry, writes it and enters it.
    fn commit(self, q: &Presented<'_>, authorization: Authorized<'_, '_>) -> Outcome<D, T, Response>
        requires target { IsTarget q.now.target }
        requires new { IsOfNew self.bench.state q.now authorization }
        requires held { OfDeed (OfGoods (T.trade self.bench.trade).holds) authorization }
        requires ready { MayCommit self.bench.state q.now.target authorization }
        requires room { size_with self.bench.state (payload_of authorization) ≤ self.bench.state.limits.journal }
        ensures back { HandsBack D.disk D.disk_moved (KeepsTime self) self.journal.disk result }
        ensures site { IfRefused IsOfSite result }
        ensures kept { IfDone (λ x r. KeepsReply x.bench (number_in r)) result }
        ensures exact { (h : History) → HouseRepresents D.disk T.trade self h
            → OfDeed (NamesInForce h) authorization.entry
            → BringsAs h q.now.target authorization.entry
            → model.answer h (house_time self.bench) (limits_of self.bench) q.now ≡ model.Take (authorized_entry (house_time self.bench) q.now.target authorization.entry)
            → Responds D.disk T.trade self.journal.disk h (model.Take (authorized_entry (house_time self.bench) q.now.target authorization.entry)) result }
        ensures ran { (h : History) → HouseRepresents D.disk T.trade self h
            → Ran (D.disk self.journal.disk) (D.disk (outcome_disk result))
            (Leaves (model.Take (authorized_entry (house_time self.bench) q.now.target authorization.entry)) result h (D.disk self.journal.disk).aside) }
    {
        let House { journal, mut bench } = self;
        let _parts: Option<(PieceList<'_>, SiteTerms<'_>)> = None;
        let record = entry_of(bench.state.time(), q.request(), &authorization);
        match bench.make_room(q, &authorization, &record) {
            Ok(()) => (),
            Err(NoMemory) => return Outcome::NoMemory(House { journal, bench }),
        }
        match journal.append(&record) {
            Ok((journal, receipt)) => {
                let number = bench.apply(q, &authorization, &record);
                let settled = Settled {
                    receipt,
                    number,
                    fresh: authorization.into_fresh(),
                };
                Outcome::Done(House { journal, bench }, Response::New(settled))
            }
            // It fits, so this comes only where the house represents no history.
            Err(StageFault::Full(journal)) => {
                let full = Refusal::JournalFull(bench.state.size(), authorization.payload());
                Outcome::Refused(House { journal, bench }, full)
            }
            Err(StageFault::Disk(halted)) => Outcome::Halted(halted),
        }
    }

    /// Enters an entry by a command of the house's operator, which may follow the entries before it, and passes
    /// the trade's own test: it is on the disk behind an open gate, and then it is entered. The house time is
    /// raised to its moment where that is later. All memory is taken before anything is written. It is refused
    /// only where the journal has no room for it, with 33 JournalFull.
    pub fn enter(self, r: &Record<'_>) -> Outcome<D, T, Receipt>
        requires fits { Fits (entry r.now) }
        requires command { IsCommand (entry r.now) }
        requires may { (h : History) → HouseRepresents D.disk T.trade self h
            → MayFollow (limits_of self.bench) h (entry r.now) }
        requires passed { (h : History) → HouseRepresents D.disk T.trade self h
            → Passes T.passes h (entry r.now) }
        ensures back { HandsBack D.disk D.disk_moved (RaisedTo (moment_of (entry r.now)) self) self.journal.disk result }
        ensures exact { (h : History) → HouseRepresents D.disk T.trade self h
            → Entered D.disk T.trade (limits_of self.bench) self.journal.disk h (entry r.now) result }
        ensures ran { (h : History) → HouseRepresents D.disk T.trade self h
            → Ran (D.disk self.journal.disk) (D.disk (outcome_disk result))
            (Leaves (model.Take (entry r.now)) result h (D.disk self.journal.disk).aside) }
        ensures refusals { IfRefused (IsAmong (33 ∷ [])) result }
    {
        let House { journal, mut bench } = self;
        bench.raise(r.moment());
        let bytes = match bench.make_room_for(r) {
            Ok(bytes) => bytes,
            Err(EnterFault::Refused(refusal)) => {
                return Outcome::Refused(House { journal, bench }, refusal);
            }
            // `Unlawful` comes only where the house represents no history.
            Err(_) => return Outcome::NoMemory(House { journal, bench }),
        };
        match journal.append(r) {
            Ok((journal, receipt)) => {
                // It may follow, so an `Err` comes only where the house represents no history.
                let _applied = bench.apply_entry(r, bytes);
                Outcome::Done(House { journal, bench }, receipt)
            }
            // It fits, so this comes only where the house represents no history.
            Err(StageFault::Full(journal)) => {
                let full = Refusal::JournalFull(bench.state.size(), bytes);
                Outcome::Refused(House { journal, bench }, full)
            }
            Err(StageFault::Disk(halted)) => Outcome::Halted(halted),
        }
    }

    /// How many entries there are.
    pub fn entries(&self) -> u64
        ensures { (h : History) → HouseRepresents D.disk T.trade self.now h → result ≡ length h }
    {
        self.journal.entries()
    }

    /// How many bytes its book has.
    pub fn size(&self) -> u64
        ensures { (h : History) → HouseRepresents D.disk T.trade self.now h → result ≡ size h }
    {
        self.bench.state.size()
    }

    /// What was taken in prices of accepted requests, in units.
    pub fn takings(&self) -> u128
        ensures { (h : History) → HouseRepresents D.disk T.trade self.now h → result ≡ takings h }
    {
        self.bench.state.takings()
    }

    /// Whether its book is switched: whether each later entry has the chain of all before it.
    pub fn is_switched(&self) -> bool
        ensures { (h : History) → HouseRepresents D.disk T.trade self.now h → result ≡ has_switch h }
    {
        self.bench.state.is_switched()
    }

    /// The chain of its entries, where it is known, as behind `switch`.
    pub fn chain(&self) -> [u8; 32]
        requires { IsSome self.now.journal.chain }
        ensures { (h : History) → HouseRepresents D.disk T.trade self.now h → result ≡ chain h }
    {
        self.journal.chain().unwrap()
    }

    /// The disk, as it is.
    pub fn close(self) -> D
        ensures { result ≡ self.journal.disk }
    {
        let House { journal, bench: _ } = self;
        journal.close()
    }
}
