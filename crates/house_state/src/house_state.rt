ghost use Rattle.std.specs.Prelude.{◌≡◌, ◌+◌, ◌||◌, ◌-◌, ◌≤◌, ◌<◌, ℕ, false, length, take, Some, None, option_map, filter, max, All, IfSome, IsNone, MatchOption, ◌↔◌, ◌^◌, [], IsTrue, IsFalse, IfOk, MatchResult, OnOk, OnErr};
ghost use Rattle.scrip_form.specs.Identities.{series_of};
ghost use Rattle.scrip_form.specs.Issuing.{epoch, series_at};
ghost use Rattle.scrip_form.specs.Scrip.{scrip_body, IsVersion};
ghost use Rattle.mc_requests.specs.declared.refusal.Refusal.TheVariants.{SeriesFull};
ghost use Rattle.mc_requests.specs.Limits.{AreInRange};
ghost use Rattle.change_issue.specs.Registers.{count_in, next_in};
ghost use Rattle.mc_records.specs.Views.{house_of, entry};
ghost use Rattle.mc_records.specs.Entry.{Fits};
ghost use Rattle.scrip_certs.specs.Digests as digests;
ghost use Rattle.ledger_model.specs.Houses.{terms_by, upgrade_by};
ghost use Rattle.house_state.specs.Views.{kind_number};
ghost use Rattle.house_state.specs.CommandEntries.{IsNoSite};
ghost use Rattle.house_state.specs.Founding.{IsFounded};
ghost use Rattle.mc_requests.specs.Requests.{asked_of};
ghost use Rattle.kept_replies.specs.Kept.{found, has_number, is_in_time, reply_of, with_number, first_number};
ghost use Rattle.spent_windows.specs.Windows.{is_marked, window_of, AreInOrder};
ghost use Rattle.house_state.specs.LiveWindows.{AreUsed, AreUsedBut};
ghost use Rattle.house_state.specs.HouseState.{IsSound, HasRoom, HasRoomToEnter, HasRoomToDraw, HasChange, pieces_size, HasRoomFor, GoesOn, IsEntered, IsDrawn, IsApplied, IsAsBefore, version_of, own_scrip, size_with, series_now, end_by, ended_by};
ghost use Rattle.house_state.specs.Verdicts.{IsReady, IsDrawReady, IsOfNew, MayCommit, HasRoomToCommit, AreUsedFor, IsCommitted};
ghost use Rattle.spent_windows.specs.Looks.{Tells};

use crate::money::{drawn, redeem};
use crate::offer::SiteKind;
use crate::presented::without_scrip;
use crate::stages::terms_of;
use crate::verdict::{Authorization, Authorized, DrawAuthorization};
use crate::versions::version_in;
use change_issue::Issuer;
use kept_replies::{Kept, KeptEntry, KeptNumber};
use ledger_model::Upgraded;
use mc_base::{Moment, NoMemory, Total};
use mc_records::{EMPTY_JOURNAL, FRAME, PieceList, Record, SiteTerms, tail_len};
use mc_requests::{Limits, Refusal, Request};
use scrip_certs::{certificate_of, customer_secret, write_certified};
use scrip_form::{Id, Name, Piece, Terms};
use spent_windows::{Look, Steps, Windows};
use std::alloc::Global;
use std::marker::Model;

/// The most bytes that the texts of what was sold or drawn have.
pub(crate) const MOST_DEED: usize = 309;

/// What a house keeps in place of its history, beside its trade. Contracts see it as the record
/// `HouseStateView`.
#[derive(Drop)]
pub struct HouseState {
    name: Name,
    /// It takes requests without a signature.
    clear: bool,
    /// The terms of all issuers whose scrip it takes.
    terms: Vec<Terms>,
    /// Its issuers that were moved to the second version of scrip.
    upgrades: Vec<Upgraded>,
    /// The house time, which never goes back.
    time: Moment,
    /// The identities that were accepted, each of which is spent.
    spent: Windows,
    kept: Kept,
    /// What it hands out in its own series, and redeems.
    own: Issuer,
    /// What the accepted pieces were paid for.
    takings: Total,
    /// How many entries there are.
    count: u64,
    /// How many bytes a journal of the entries has.
    size: u64,
    /// Whether a Switch is among the entries.
    switched: bool,
    limits: Limits,
}

impl Model for HouseState {
    ghost use Rattle.std.specs.Prelude.{◌-◌, vec_len, vec_capacity};
    ghost use Rattle.house_state.specs.HouseState.{HouseStateView, IsSound};

    ghost Value = { HouseStateView };

    ghost view = { λ b. record { name = b.name; clear = b.clear; terms = b.terms.items; terms_room = vec_capacity b.terms - vec_len b.terms; upgrades = b.upgrades.items; upgrades_room = vec_capacity b.upgrades - vec_len b.upgrades; time = b.time; spent = b.spent; kept = b.kept; own = b.own; takings = b.takings; count = b.count; size = b.size; switched = b.switched; limits = b.limits } };

    ghost invariant = { λ b. IsSound (record { name = b.name; clear = b.clear; terms = b.terms.items; terms_room = vec_capacity b.terms - vec_len b.terms; upgrades = b.upgrades.items; upgrades_room = vec_capacity b.upgrades - vec_len b.upgrades; time = b.time; spent = b.spent; kept = b.kept; own = b.own; takings = b.takings; count = b.count; size = b.size; switched = b.switched; limits = b.limits }) };
}

/// Whether a Switch stands after an entry.
fn stands_with(switches: bool, switched: bool) -> bool
    ensures { result ≡ (switches || switched) }
{
    switches || switched
}

impl HouseState {
    /// The state of a house that is founded so, by an entry of so many bytes of payload.
    pub(crate) fn found(
        alloc: Global,
        moment: Moment,
        name: Name,
        house: &SiteTerms<'_>,
        limits: Limits,
        payload: u64,
    ) -> Result<HouseState, NoMemory>
        requires limits { AreInRange limits }
        requires keeps { 0 < house.now.keep }
        requires short { payload < 2 ^ 32 }
        ensures { IfOk result (λ b. IsFounded b moment name (house_of house.now) limits payload) }
    {
        let own = house.terms.terms();
        let mut terms = Vec::with_capacity(alloc, 1)?;
        terms.push_reserved(own);
        Ok(HouseState {
            name,
            clear: house.clear,
            terms,
            upgrades: Vec::new(alloc),
            time: moment,
            spent: Windows::new(alloc),
            kept: Kept::new(alloc, house.keep),
            own: Issuer::new(alloc, own, limits),
            takings: Total::zero(),
            count: 1,
            size: EMPTY_JOURNAL + payload + FRAME,
            switched: false,
            limits,
        })
    }

    pub(crate) fn name(&self) -> &[u8]
        ensures { result.now ≡ self.now.name }
    {
        self.name.bytes()
    }

    /// The name of the house.
    pub fn site_name(&self) -> Name
        ensures { result ≡ self.now.name }
    {
        self.name
    }

    /// The terms of the house itself.
    pub fn own_terms(&self) -> &Terms
        ensures { result.now ≡ self.now.own.terms }
    {
        self.own.terms()
    }

    pub(crate) fn is_clear(&self) -> bool
        ensures { result ≡ self.now.clear }
    {
        self.clear
    }

    /// The terms of all issuers whose scrip it takes.
    pub fn terms(&self) -> &[Terms]
        ensures { result.now ≡ self.now.terms }
    {
        &self.terms
    }

    /// The house time.
    pub fn time(&self) -> Moment
        ensures { result ≡ self.now.time }
    {
        self.time
    }

    /// The limits of its journal and its series.
    pub fn limits(&self) -> Limits
        ensures limits { result ≡ self.now.limits }
        ensures sound { IsSound self.now }
    {
        self.limits
    }

    /// Where its memory comes from.
    pub fn alloc(&self) -> Global {
        *self.terms.allocator()
    }

    pub(crate) fn own(&self) -> &Issuer
        ensures { result.now ≡ self.now.own }
    {
        &self.own
    }

    /// How many entries there are.
    pub fn count(&self) -> u64
        ensures { result ≡ self.now.count }
    {
        self.count
    }

    /// How many bytes a journal of the entries has.
    pub fn size(&self) -> u64
        ensures { result ≡ self.now.size }
    {
        self.size
    }

    /// What was taken in prices of accepted requests, in units.
    pub fn takings(&self) -> u128
        ensures { result ≡ self.now.takings }
    {
        self.takings.number()
    }

    /// Whether a Switch is among the entries.
    pub fn is_switched(&self) -> bool
        ensures { result ≡ self.now.switched }
    {
        self.switched
    }

    /// How many bytes the journal has with one entry more, with a payload of so many bytes.
    pub(crate) fn size_with(&self, payload: u64) -> u64
        requires { payload ≤ Limits.MOST_JOURNAL }
        ensures { result ≡ size_with self.now payload }
    {
        self.size + payload + tail_len(self.switched) + FRAME
    }

    /// The version of a series of the house's name.
    pub fn version(&self, series: u32) -> u8
        ensures value { result ≡ version_of self.now series }
        ensures valid { IsVersion result }
    {
        version_in(&self.upgrades, series)
    }

    /// The issuers of the house that were moved to the second version, and from which epoch on each has it.
    pub fn upgrades(&self) -> &[Upgraded]
        ensures { result.now ≡ self.now.upgrades }
    {
        &self.upgrades
    }

    /// The certificate of a piece of the house's own.
    pub fn own_certificate(&self, piece: &Piece) -> [u8; 16]
        ensures { result ≡ digests.certificate self.now.own.terms (scrip_body piece.now) piece.now.id }
    {
        certificate_of(self.own_terms(), piece)
    }

    /// Writes the scrip text of a piece of the house's own to the front, and answers its length, at most 293.
    pub fn write_own(&self, piece: &Piece, out: &mut [u8; 512]) -> usize
        ensures short { result ≤ 293 }
        ensures text { take result out.new ≡ own_scrip self.now piece.now }
    {
        write_certified(self.own_terms(), piece, out)
    }

    /// The secret of a customer, by the terms of the issuer of his identity, in the version of its series.
    pub fn secret_of(&self, terms: &Terms, cust: Id) -> [u8; 16]
        ensures { result ≡ digests.customer_secret terms.now cust (version_of self.now (series_of cust)) }
    {
        customer_secret(terms, cust, self.version(cust.series()))
    }

    /// Asks whether an identity was accepted.
    pub(crate) fn look(&self, id: Id) -> Look
        ensures { Tells self.now.spent id result }
    {
        self.spent.has(id, &mut Steps::start())
    }

    /// How many windows of accepted identities there are.
    pub fn windows(&self) -> usize
        ensures count { result ≡ length self.now.spent }
        ensures order { AreInOrder self.now.spent }
        ensures sound { IsSound self.now }
    {
        self.spent.count()
    }

    /// The number of the entry of the same request, within the keeping time.
    pub(crate) fn repeated(&self, q: &Request<'_>) -> Option<KeptNumber>
        ensures { result ≡ option_map
            (λ e. e.number) (found self.now.kept self.now.time (asked_of q.now)) }
    {
        self.kept.find(self.time, q)
    }

    /// The request and what is kept of the entry of this number.
    pub fn kept(&self, number: &KeptNumber) -> Option<(Request<'_>, KeptEntry)>
        ensures reply { option_map reply_of result ≡ with_number self.now.kept.replies number.now }
        ensures none { IsNone result ↔ IsFalse (has_number self.now.kept.replies number.now) }
    {
        self.kept.entry_of(number)
    }

    /// The least number of an entry whose reply is kept.
    pub fn first_kept(&self) -> Option<u64>
        ensures first { result ≡ first_number self.now.kept.replies }
        ensures least { IfSome result (λ n. All (λ r. n ≤ r.entry.number) self.now.kept.replies) }
        ensures none { IsNone result ↔ (self.now.kept.replies ≡ []) }
    {
        self.kept.first()
    }

    /// Lets go what is kept for repeats, and keeps no reply from here on.
    pub fn keep_none(&mut self)
        ensures rest { self.new ≡ record self.old { kept = self.new.kept } }
        ensures keep { self.new.kept.keep ≡ 0 }
        ensures replies { self.new.kept.replies ≡ [] }
    {
        self.kept = Kept::new(self.alloc(), 0);
    }

    /// Keeps replies for one second, where none are kept.
    pub fn keep_some(&mut self)
        ensures rest { self.new ≡ record self.old { kept = self.new.kept } }
        ensures keeps { 0 < self.new.kept.keep }
        ensures same { 0 < self.old.kept.keep → self.new ≡ self.old }
        ensures second { self.old.kept.keep ≡ 0 → self.new.kept.keep ≡ 1 }
        ensures replies { self.old.kept.keep ≡ 0 → self.new.kept.replies ≡ [] }
    {
        if self.kept.seconds() == 0 {
            self.kept = Kept::new(self.alloc(), 1);
        }
    }

    /// Raises the house time to a reading where that is later, and answers it. Replies whose keeping time
    /// is over are let go, and so are the windows of series that have ended.
    pub fn raise(&mut self, reading: Moment) -> Moment
        ensures time { result ≡ max self.old.time reading }
        ensures rest { self.new ≡ record self.old { time = max self.old.time reading; spent = self.new.spent; kept = self.new.kept } }
        ensures spent { (id : ℕ) → ended_by self.old.terms (max self.old.time reading) id ≡ false
            → is_marked self.new.spent id ≡ is_marked self.old.spent id }
        ensures used { AreUsed self.old.spent → AreUsed self.new.spent }
        ensures keep { self.new.kept.keep ≡ self.old.kept.keep }
        ensures replies { self.new.kept.replies ≡ filter (is_in_time self.old.kept.keep (max self.old.time reading)) self.old.kept.replies }
    {
        let time = later(self.time, reading);
        self.time = time;
        self.spent.forget(time);
        self.kept.forget(time);
        time
    }

    /// Makes room to enter a request at the house time with a piece of this identity, whose series ends
    /// then, where the texts of the pieces that are kept for its reply have so many bytes. All that is
    /// kept stays as it is, after an `Err` too.
    pub(crate) fn reserve(
        &mut self,
        q: &Request<'_>,
        pieces: usize,
        id: Id,
        end: u64,
    ) -> Result<(), NoMemory>
        requires its { end_by self.old.terms id ≡ Some end }
        requires live { self.old.time < end }
        ensures same { IsAsBefore self.old self.new }
        ensures room { OnOk result (HasRoom self.new (asked_of q.now) pieces id) }
        ensures used { OnOk result (AreUsed self.old.spent → AreUsedBut (window_of id) self.new.spent) }
        ensures left { OnErr result (self.new.spent ≡ self.old.spent) }
    {
        let series = self.series_now();
        self.kept.reserve(q, pieces)?;
        self.own.reserve(id.series())?;
        self.own.reserve(series)?;
        // The last, so that want of memory leaves no window without a mark.
        self.spent.reserve(id, end)?;
        Ok(())
    }

    /// Makes room to enter a draw by this request at the house time, whatever its piece is. All that is kept
    /// stays as it is, after an `Err` too.
    pub(crate) fn reserve_draw(&mut self, q: &Request<'_>) -> Result<(), NoMemory>
        ensures same { IsAsBefore self.old self.new }
        ensures room { OnOk result (HasRoomToDraw self.new (asked_of q.now)) }
        ensures spent { self.new.spent ≡ self.old.spent }
    {
        let series = self.series_now();
        self.kept.reserve(q, MOST_DEED)?;
        self.own.reserve(series)?;
        Ok(())
    }

    /// Makes room to enter what was authorized of a request. All that is kept stays as it is, after an `Err`
    /// too.
    pub fn make_room(
        &mut self,
        q: &Request<'_>,
        authorized: &Authorized<'_, '_>,
    ) -> Result<(), NoMemory>
        requires ready { MayCommit self.old q.now.target.now authorized.now }
        ensures same { IsAsBefore self.old self.new }
        ensures room { OnOk result (HasRoomToCommit self.new (asked_of q.now) authorized.now) }
        ensures used { OnOk result
            (AreUsed self.old.spent → AreUsedFor authorized.now self.new.spent) }
        ensures left { OnErr result (self.new.spent ≡ self.old.spent) }
    {
        match authorized {
            Authorized::Scrip(a) => self.reserve_piece(q, a),
            Authorized::Draw(_) => self.reserve_draw(&without_scrip(q)),
        }
    }

    /// Makes room to enter a request with a piece, likewise.
    fn reserve_piece(&mut self, q: &Request<'_>, a: &Authorization<'_, '_>) -> Result<(), NoMemory>
        requires ready { IsReady self.old q.now.target.now a.now }
        ensures same { IsAsBefore self.old self.new }
        ensures room { OnOk result (HasRoomToEnter self.new (asked_of q.now) a.now) }
        ensures used { OnOk result (AreUsed self.old.spent
            → AreUsedBut (window_of a.now.scrip.now.piece.id) self.new.spent) }
        ensures left { OnErr result (self.new.spent ≡ self.old.spent) }
    {
        let piece = a.scrip.piece();
        let pieces = a.pieces_size(&self.name);
        self.reserve(q, pieces, piece.id(), piece.expires())
    }

    /// Whether the pieces that an entry mints go on with the serials of the series of its moment and fit the
    /// limit of it, whether an Upgrade, at a vendor or of issuer 0, is of an own issuer that may be moved, and
    /// whether a Switch is the first; of other entries it asks nothing.
    pub fn goes_on(&self, kind: SiteKind, r: &Record<'_>) -> bool
        requires { Fits (entry r.now) }
        ensures { IsTrue result ↔ GoesOn self.now (kind_number kind) (entry r.now) }
    {
        let _parts: Option<PieceList<'_>> = None;
        match r {
            Record::Mint {
                moment,
                count,
                first,
                ..
            } => {
                let series = self.series_at(*moment);
                let stand = self.own.count(series);
                let (_, _, serial) = first.parts();
                first.series() == series
                    && u64::from(serial) == stand
                    && stand <= self.limits.series
                    && u64::from(*count) <= self.limits.series - stand
            }
            Record::Upgrade {
                moment,
                vendor,
                issuer,
                from,
            } => {
                let by_house = matches!(kind, SiteKind::Vendor) || *issuer == 0;
                !by_house || (*vendor == self.name() && self.may_move(*moment, *issuer, *from))
            }
            Record::Switch { .. } => !self.switched,
            _ => true,
        }
    }

    /// Whether an issuer of the house may be moved to the second version at a moment, from an epoch on.
    fn may_move(&self, moment: Moment, issuer: u8, from: u32) -> bool
        ensures { IsTrue result ↔ (IsNone (upgrade_by self.now.upgrades issuer)
            × MatchOption (terms_by self.now.terms issuer) ⊥ (λ terms. epoch terms moment < from)) }
    {
        if self.upgrade_of(issuer).is_some() {
            return false;
        }
        match terms_of(self.terms(), issuer) {
            Some(terms) => terms.epoch_of(moment) < from,
            None => false,
        }
    }

    /// The epoch from which on the series of an issuer have the second version, where there is one.
    pub fn upgrade_of(&self, issuer: u8) -> Option<u32>
        ensures { result ≡ upgrade_by self.now.upgrades issuer }
    {
        self.upgrades
            .iter()
            .find(|u| u.issuer == issuer)
            .map(|u| u.from)
    }

    /// The identity of the first of so many next pieces of the house time's series; refused where the limit
    /// of a series leaves no room for so many.
    pub fn next_run(&self, count: u16) -> Result<Id, Refusal>
        requires { 0 < count }
        ensures { MatchResult result
            (λ id. (id ≡ next_in self.now.own (series_now self.now))
            × (count_in self.now.own (series_now self.now) + count ≤ self.now.own.most))
            (λ f. (f ≡ SeriesFull (series_now self.now))
            × (self.now.own.most < count_in self.now.own (series_now self.now) + count)) }
    {
        let series = self.series_now();
        let stand = self.own.count(series);
        match self.own.next(self.time) {
            Ok(first) if u64::from(count) <= self.limits.series - stand => Ok(first),
            _ => Err(Refusal::SeriesFull(u64::from(series))),
        }
    }

    /// Makes room to enter an entry that accepts nothing. All that is kept stays as it is, after an `Err`
    /// too.
    pub fn reserve_for(&mut self, r: &Record<'_>) -> Result<(), NoMemory>
        ensures same { IsAsBefore self.old self.new }
        ensures room { OnOk result (HasRoomFor self.new (entry r.now)) }
        ensures spent { self.new.spent ≡ self.old.spent }
    {
        match r {
            Record::Terms { .. } => {
                self.terms.reserve(1)?;
                Ok(())
            }
            Record::Mint { first, .. } => self.own.reserve(first.series()),
            Record::Upgrade { .. } => {
                self.upgrades.reserve(1)?;
                Ok(())
            }
            _ => Ok(()),
        }
    }

    /// Enters an entry that accepts nothing, with a payload of so many bytes, for which there is room. It
    /// takes no memory.
    pub fn apply_entry(&mut self, kind: SiteKind, r: &Record<'_>, bytes: u64)
        requires room { HasRoomFor self.old (entry r.now) }
        requires goes_on { GoesOn self.old (kind_number kind) (entry r.now) }
        requires payload { Fits (entry r.now) }
        requires site { IsNoSite (entry r.now) }
        requires fits { size_with self.old bytes ≤ Limits.MOST_JOURNAL }
        ensures { IsApplied self.old self.new (entry r.now) bytes }
    {
        let size = self.size_with(bytes);
        match r {
            Record::Terms { terms, .. } => self.terms.push_reserved(terms.terms()),
            Record::Mint { count, first, .. } => self.own.count_on(*first, u32::from(*count)),
            Record::Upgrade {
                vendor,
                issuer,
                from,
                ..
            } if *vendor == self.name.bytes() => self.upgrades.push_reserved(Upgraded {
                issuer: *issuer,
                from: *from,
            }),
            _ => (),
        }
        self.switched = stands_with(r.is_switch(), self.switched);
        self.count += 1;
        self.size = size;
    }

    /// The series that the house hands out at the house time.
    fn series_now(&self) -> u32
        ensures series { result ≡ series_now self.now }
        ensures short { epoch self.now.own.terms self.now.time < 2 ^ 24 }
    {
        self.series_at(self.time)
    }

    /// The series that the house hands out at a moment.
    fn series_at(&self, moment: Moment) -> u32
        ensures series { result ≡ series_at self.now.own.terms moment }
        ensures short { epoch self.now.own.terms moment < 2 ^ 24 }
    {
        self.own_terms().series_at(moment)
    }

    /// Enters a request that is accepted with a piece, for which there is room, and answers the number of its
    /// entry. It takes no memory.
    pub(crate) fn enter(
        &mut self,
        q: &Request<'_>,
        paid: &Piece,
        a: &Authorization<'_, '_>,
    ) -> KeptNumber
        requires room { HasRoom self.old (asked_of q.now) (pieces_size self.old.name paid.now a.now) paid.now.id }
        requires fresh { found self.old.kept self.old.time (asked_of q.now) ≡ None }
        requires change { HasChange self.old a.now.price paid.now.value a.now.change }
        requires fits { size_with self.old a.now.payload ≤ Limits.MOST_JOURNAL }
        ensures entered { IsEntered self.old self.new (asked_of q.now) paid.now a.now }
        ensures number { result ≡ self.old.count }
    {
        let _series = self.series_now();
        let size = self.size_with(a.payload);
        let change = redeem(
            &mut self.own,
            &self.upgrades,
            &mut self.takings,
            self.time,
            self.name,
            paid,
            a.price,
            a.change,
        );
        let entry = KeptEntry {
            number: self.count,
            moment: self.time,
            price: a.price,
            change,
            secret: a.secret,
            deed: a.deed,
        };
        let number = self.kept.keep(q, Some(a.scrip), entry);
        self.spent.mark(paid.id());
        self.count += 1;
        self.size = size;
        number
    }

    /// Enters a draw by a request, which has no scrip text, for which there is room: its piece is handed out
    /// in the series of the house time. It answers the number of the entry, and takes no memory.
    pub(crate) fn enter_draw(&mut self, q: &Request<'_>, d: &DrawAuthorization) -> KeptNumber
        requires room { HasRoomToDraw self.old (asked_of q.now) }
        requires fresh { found self.old.kept self.old.time (asked_of q.now) ≡ None }
        requires ready { IsDrawReady self.old q.now.target.now d.now }
        ensures drawn { IsDrawn self.old self.new (asked_of q.now) d.now }
        ensures number { result ≡ self.old.count }
    {
        let _series = self.series_now();
        let size = self.size_with(d.payload);
        let deed = drawn(
            &mut self.own,
            &self.upgrades,
            self.time,
            self.name,
            d.amount,
        );
        // At most as many bytes as there is room for.
        let _size = deed.size();
        let entry = KeptEntry {
            number: self.count,
            moment: self.time,
            price: d.amount.get(),
            change: None,
            secret: d.key,
            deed,
        };
        let number = self.kept.keep(q, None, entry);
        self.count += 1;
        self.size = size;
        number
    }

    /// Enters what was authorized of a request, for which there is room, and answers the number of its entry.
    /// It takes no memory.
    pub fn commit(&mut self, q: &Request<'_>, authorized: &Authorized<'_, '_>) -> KeptNumber
        requires new { IsOfNew self.old (asked_of q.now) authorized.now }
        requires ready { MayCommit self.old q.now.target.now authorized.now }
        requires room { HasRoomToCommit self.old (asked_of q.now) authorized.now }
        ensures committed { IsCommitted self.old self.new (asked_of q.now) authorized.now }
        ensures number { result ≡ self.old.count }
    {
        match authorized {
            Authorized::Scrip(a) => self.enter(q, &a.scrip.piece(), a),
            Authorized::Draw(d) => self.enter_draw(&without_scrip(q), d),
        }
    }
}

/// The later of two moments.
fn later(a: Moment, b: Moment) -> Moment
    ensures { result ≡ max a b }
{
    if a.seconds() < b.seconds() { b } else { a }
}
