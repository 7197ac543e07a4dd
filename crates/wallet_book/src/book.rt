//! What a wallet keeps in place of its book.

ghost use Rattle.std.specs.Prelude.{◌||◌, ◌≡◌, ◌==◌, ◌+◌, ◌-◌, ◌<◌, ◌≤◌, ◌∷◌, [], length, max, true, vec_len, vec_capacity, map, find, option_map, OnOk, IfErr, IfSome};
ghost use Rattle.mc_requests.specs.declared.refusal.Refusal.TheVariants.{Nothing};
ghost use Rattle.mc_records.specs.Chains.{TellsChain, has_switch};
ghost use Rattle.mc_records.specs.Entry.{Fits, moment_of, payload};
ghost use Rattle.mc_records.specs.Sizes.{size, entry_size};
ghost use Rattle.mc_records.specs.Views.{entry};
ghost use Rattle.ledger_model.specs.Histories.{History};
ghost use Rattle.ledger_model.specs.Houses.{site_name};
ghost use Rattle.wallet_model.specs.Asks.{chosen, due};
ghost use Rattle.wallet_model.specs.Requests.{oldest_kept, kept_get};
ghost use Rattle.wallet_model.specs.Follows.{IsWalletBook};
ghost use Rattle.wallet_model.specs.Holdings as model;
ghost use Rattle.wallet_model.specs.Holdings.{texts_came};
ghost use Rattle.wallet_model.specs.Newness.{is_new};
ghost use Rattle.wallet_book.specs.Holdings.{holding_of, texts_of, AreSpelled};
ghost use Rattle.wallet_book.specs.Kept.{request_of, kept_of, kept_in, Retries};
ghost use Rattle.wallet_book.specs.Parts.{PartsRepresent, LearnsEntry};
ghost use Rattle.wallet_book.specs.Choosing.{Chooses, IsNoFunds, IsFitAt};
ghost use Rattle.wallet_book.specs.Book.{WalletRepresents, IsSameBook, FoundsWallet, brought_count, asked_count, HasRoom, Learns};

use crate::choosing::{choose, first_due};
use crate::finding::{first_get, first_of_peer};
use crate::holding::Holding;
use crate::kept::Kept;
use crate::parts::Parts;
use mc_base::{Amount, Moment, NoMemory};
use mc_records::{EMPTY_JOURNAL, FRAME, Record, grown_size};
use mc_requests::{Limits, Refusal};
use scrip_form::{Name, ScripRef, Target};
use std::alloc::Global;
use std::marker::Model;

/// What a wallet keeps in place of its book: its pieces with the state of each, the requests that it keeps, its
/// name and its time, and how long the book is.
///
/// Contracts see it as the record `BookView`, and say of it that it represents a history: what the book's entries
/// say. An entry is learned in two steps, so that the second can't fail for want of memory: `reserve` makes room
/// for it, and `learn` takes it.
#[derive(Drop)]
pub struct WalletBook {
    name: Name,
    time: Moment,
    /// The time of the entries.
    last: Moment,
    parts: Parts,
    count: u64,
    size: u64,
    /// Whether a Switch is among the entries.
    switched: bool,
    limits: Limits,
}

impl Model for WalletBook {
    ghost use Rattle.std.specs.Prelude.{◌≤◌, ◌-◌, vec_len, vec_capacity};
    ghost use Rattle.mc_requests.specs.declared.limits.TheConstants.Limits.{MOST_JOURNAL};
    ghost use Rattle.wallet_book.specs.Book.{BookView};

    ghost Value = { BookView };

    ghost view = { λ b. record { name = b.name; time = b.time; last = b.last; holdings = b.parts.holdings.list; kept = b.parts.kept.items; count = b.count; size = b.size; switched = b.switched; limits = b.limits; room = b.parts.holdings.room; kept_room = vec_capacity b.parts.kept - vec_len b.parts.kept } };

    ghost invariant = { λ b. (b.count ≤ b.size) × (b.size ≤ MOST_JOURNAL) };
}

impl WalletBook {
    /// The book of a wallet that is founded by this entry. It takes no memory.
    pub fn new(alloc: Global, site: &Record<'_>, limits: Limits) -> WalletBook
        requires fits { Fits (entry site.now) }
        requires wallet { FoundsWallet (entry site.now) }
        ensures stands { WalletRepresents result (entry site.now ∷ []) }
        ensures time { result.time ≡ moment_of (entry site.now) }
        ensures limits { result.limits ≡ limits }
    {
        let moment = site.moment();
        WalletBook {
            name: name_of(site),
            time: moment,
            last: moment,
            parts: Parts::new(alloc),
            count: 1,
            size: EMPTY_JOURNAL + site.payload_len() + FRAME,
            switched: false,
            limits,
        }
    }

    /// Its name.
    pub fn name(&self) -> Name
        ensures { (h : History) → WalletRepresents self.now h → result ≡ site_name h }
    {
        self.name
    }

    /// Its time, which is not below a moment of its entries.
    pub fn time(&self) -> Moment
        ensures { result ≡ self.now.time }
    {
        self.time
    }

    /// The limits of its journal and of series.
    pub fn limits(&self) -> Limits
        ensures { result ≡ self.now.limits }
    {
        self.limits
    }

    /// How many bytes its journal has.
    pub fn size(&self) -> u64
        ensures { result ≡ self.now.size }
    {
        self.size
    }

    /// Whether a Switch is among them.
    pub fn is_switched(&self) -> bool
        ensures { result ≡ self.now.switched }
    {
        self.switched
    }

    /// How many entries it has: the number of the next one.
    pub fn count(&self) -> u64
        ensures { result ≡ self.now.count }
    {
        self.count
    }

    /// The pieces, whatever their states, in the order in which they came.
    pub fn holdings(&self) -> &[Holding]
        ensures list { result.now ≡ self.now.holdings }
        ensures spelled { AreSpelled result.now }
        ensures exact { (h : History) → WalletRepresents self.now h
            → map holding_of result.now ≡ model.holdings h }
    {
        self.parts.holdings.as_slice()
    }

    /// Whether a piece is new: none of its vendor with its identity came, whatever became of it.
    pub fn is_new(&self, scrip: &ScripRef<'_>) -> bool
        ensures found { result ≡ is_new (texts_of self.now.holdings) scrip.now.text }
        ensures exact { (h : History) → WalletRepresents self.now h
            → result ≡ is_new (texts_came h) scrip.now.text }
    {
        match self.parts.holdings.find(scrip) {
            Some(_) => false,
            None => true,
        }
    }

    /// The place among the holdings of the piece to pay with: of the held pieces of a vendor that are not expired
    /// and cover the limit the one of least value, and of two of the same value the first. `Err` is 62 `NoFunds`
    /// with the greatest value of the held pieces of the vendor that are not expired, 0 where there are none.
    pub fn choose(&self, vendor: &Name, limit: Amount) -> Result<usize, Refusal>
        ensures exact { (h : History) → WalletRepresents self.now h
            → Chooses (chosen h self.now.time vendor.now limit) result }
        ensures refused { IfErr result IsNoFunds }
    {
        choose(self.parts.holdings.as_slice(), self.time, vendor, limit)
    }

    /// The place among the holdings of the piece that is due for renewal: of the held pieces of a vendor that are not
    /// expired and end at a moment at the latest the one that ends first, and of two that end together the first. None
    /// exactly where there is none.
    pub fn first_due(&self, vendor: &Name, before: Moment) -> Option<usize>
        ensures exact { (h : History) → WalletRepresents self.now h
            → result ≡ option_map (λ o. o.place) (due h self.now.time vendor.now before) }
        ensures pays { IfSome result (IsFitAt self.now.holdings self.now.time vendor.now) }
    {
        first_due(self.parts.holdings.as_slice(), self.time, vendor, before)
    }

    /// The request of a number, where it is kept.
    pub fn kept(&self, number: u64) -> Option<Kept>
        ensures found { result ≡ find (λ k. number == k.number) self.now.kept }
        ensures exact { (h : History) → WalletRepresents self.now h
            → option_map (request_of (texts_of self.now.holdings)) result ≡ kept_in h number }
    {
        self.parts.find(number)
    }

    /// Whether the request of a number asks for goods (0), to buy (1) or to draw (2); None exactly where the
    /// number is not that of a kept request.
    pub fn kept_kind(&self, number: u64) -> Option<u8>
        ensures { (h : History) → WalletRepresents self.now h
            → option_map (λ p. p.ask) (kept_in h number) ≡ result }
    {
        match self.kept(number) {
            Some(kept) => Some(kept.ask),
            None => None,
        }
    }

    /// The number of the oldest kept request of a peer. `Err` is 67 `Nothing`, exactly where there is none.
    pub fn retry_next(&self, peer: &Name) -> Result<u64, Refusal>
        ensures exact { (h : History) → WalletRepresents self.now h
            → Retries (oldest_kept h peer.now) result }
        ensures refused { IfErr result (λ f. f ≡ Nothing) }
    {
        match first_of_peer(&self.parts.kept, peer.bytes()) {
            Some(kept) => Ok(kept.number),
            None => Err(Refusal::Nothing),
        }
    }

    /// The oldest kept request for the goods of a target of a vendor.
    pub fn find_get(&self, vendor: &Name, target: &Target) -> Option<Kept>
        ensures { (h : History) → WalletRepresents self.now h
            → option_map (kept_of (texts_of self.now.holdings)) result ≡ kept_get h vendor.now target.now }
    {
        first_get(&self.parts.kept, vendor.bytes(), target.bytes())
    }

    /// Raises the time to a reading of the clock where that is later, and answers it.
    pub fn raise(&mut self, reading: Moment) -> Moment
        ensures time { result ≡ max self.old.time reading }
        ensures raised { self.new.time ≡ max self.old.time reading }
        ensures limits { self.new.limits ≡ self.old.limits }
        ensures same { (h : History) → WalletRepresents self.old h → WalletRepresents self.new h }
    {
        let time = later(self.time, reading);
        self.time = time;
        time
    }

    /// Makes room for an entry. What is kept stays as it is, after an `Err` too.
    pub fn reserve(&mut self, r: &Record<'_>) -> Result<(), NoMemory>
        ensures room { OnOk result (HasRoom self.new (entry r.now)) }
        ensures book { IsSameBook self.old self.new }
        ensures time { self.new.time ≡ self.old.time }
        ensures limits { self.new.limits ≡ self.old.limits }
        ensures same { (h : History) → WalletRepresents self.old h → WalletRepresents self.new h }
    {
        self.parts.reserve(pieces_of(r), requests_of(r))
    }

    /// Learns the next entry, for which there is room. The time is raised to its moment where that is later.
    /// False exactly where the entry may not follow those before it; then nothing is said of the book. The
    /// limit of the journal is not asked, and a Switch is told to have the chain of the entries before it. It takes no
    /// memory.
    pub fn learn(&mut self, r: &Record<'_>) -> bool
        requires fits { Fits (entry r.now) }
        requires room { HasRoom self.old (entry r.now) }
        ensures limits { self.new.limits ≡ self.old.limits }
        ensures time { result ≡ true → self.new.time ≡ max self.old.time (moment_of (entry r.now)) }
        ensures exact { (h : History) → WalletRepresents self.old h
            → TellsChain h (entry r.now)
            → size h + entry_size h (entry r.now) ≤ Limits.MOST_JOURNAL
            → Learns self.new h (entry r.now) result }
    {
        let moment = r.moment();
        if moment.seconds() < self.last.seconds() {
            return false;
        }
        let payload = r.payload_len();
        let size = match grown_size(self.size, payload, self.switched, Limits::MOST_JOURNAL) {
            Ok(size) => size,
            Err(_full) => return false,
        };
        if !learn_entry(&mut self.parts, self.count, self.switched, r) {
            return false;
        }
        self.switched = stands_with(r.is_switch(), self.switched);
        self.count += 1;
        self.size = size;
        self.last = moment;
        self.time = later(self.time, moment);
        true
    }
}

/// The name of the site that is founded by an entry.
fn name_of(site: &Record<'_>) -> Name
    requires fits { Fits (entry site.now) }
    requires wallet { FoundsWallet (entry site.now) }
    ensures { result ≡ site_name (entry site.now ∷ []) }
{
    match site {
        Record::Site { name, .. } => Name::new(name).unwrap(),
        // Only a Site entry founds a wallet.
        _ => unreachable!(),
    }
}

/// The later of two moments.
fn later(a: Moment, b: Moment) -> Moment
    ensures { result ≡ max a b }
{
    if a.seconds() < b.seconds() { b } else { a }
}

/// How many pieces an entry brings at most.
fn pieces_of(r: &Record<'_>) -> usize
    ensures { result ≡ brought_count (entry r.now) }
{
    match r {
        Record::Got { pieces, .. } => pieces.count() as usize,
        Record::Done { change, got, .. } => { change.is_some() as usize + got.is_some() as usize }
        _ => 0,
    }
}

/// How many requests an entry makes.
fn requests_of(r: &Record<'_>) -> usize
    ensures { result ≡ asked_count (entry r.now) }
{
    match r {
        Record::Pend { .. } => 1,
        _ => 0,
    }
}

/// Whether a Switch stands with one entry more.
fn stands_with(switches: bool, switched: bool) -> bool
    ensures { result ≡ (switches || switched) }
{
    switches || switched
}

/// Learns an entry of a moment that is not before the last one. False exactly where the history does not allow it.
fn learn_entry(parts: &mut Parts, number: u64, switched: bool, r: &Record<'_>) -> bool
    requires fits { Fits (entry r.now) }
    requires pieces { brought_count (entry r.now) ≤ parts.old.holdings.room }
    requires requests { asked_count (entry r.now) ≤ vec_capacity parts.old.kept - vec_len parts.old.kept }
    ensures { (h : History) → IsWalletBook h → PartsRepresent parts.old.holdings.list parts.old.kept.items h
        → length h ≡ number → has_switch h ≡ switched → TellsChain h (entry r.now)
        → LearnsEntry parts.new.holdings.list parts.new.kept.items h (entry r.now) result }
{
    match r {
        Record::Got { pieces, .. } => parts.learn_got(pieces),
        Record::Pend {
            ask,
            peer,
            target,
            scrip,
            secret,
            ..
        } => parts.learn_pend(number, *ask, peer, target, *scrip, *secret),
        Record::Done {
            number,
            change,
            got,
            ..
        } => parts.learn_done(*number, *change, *got),
        Record::Refused {
            number,
            refusal,
            ..
        } => parts.learn_refused(*number, *refusal),
        Record::Switch { .. } => !switched,
        Record::Note { .. } => true,
        _ => false,
    }
}
