ghost use Rattle.std.specs.Prelude.{◌≡◌, ◌||◌, ◌&&◌, not, ◌^◌, ℕ, false, if◌then◌else◌, ◌==◌, Some, None, option_map, is_none, find, is_some, IfSome, OnOk, true, ◌++◌, ◌<◌, ◌≤◌, length};
ghost use Rattle.std.specs.Bool.{OnTrue, OnFalse};
ghost use Rattle.std.specs.List.{list_any};
ghost use Rattle.std.specs.Option.{option_or};
ghost use Rattle.scrip_form.specs.Identities.{series_of, numbered};
ghost use Rattle.scrip_form.specs.Issuing.{HasPeriod};
ghost use Rattle.change_issue.specs.Registers.{count_in, IsRaisedAt};
ghost use Rattle.mc_records.specs.declared.ranges.TheConstants.{MOST_PIECES};
ghost use Rattle.mc_records.specs.PieceViews.{pieces_of};
ghost use Rattle.ledger_model.specs.Stock.{may_be_stock, are_stock, ids_of};
ghost use Rattle.broker_stock.specs.Racks.{is_open, sold_first};
ghost use Rattle.broker_stock.specs.Shelves.{pieces_at, room_at};
ghost use Rattle.broker_stalls.specs.Stalls.{has_id, empty_stall, terms_of, sold_count, was_stocked, stocked_at, is_known, IsAlike, IsWithin, HasPlace, HasSeries};
ghost use Rattle.broker_stalls.specs.Listed.{listed_at, HasRoomFor};

use crate::listed::{may_be_stock_of, piece_of, stock_piece};
use crate::stock_ids::StockIds;
use broker_stock::{Racks, StockPiece};
use change_issue::Issuer;
use mc_base::{Amount, Moment, NoMemory};
use mc_records::{MOST_PIECES, PieceList};
use mc_requests::Limits;
use scrip_form::{Id, Name, Piece, Terms};
use std::alloc::Global;
use std::marker::Model;

/// What a broker has of one vendor to sell. Contracts see it as the record `StallView`, and speak of it by
/// `terms_of`, `sold_count`, `was_stocked` and `stocked_at`.
#[derive(Drop)]
pub struct Stall {
    licence: Option<Issuer>,
    ids: StockIds,
    racks: Racks,
    alloc: Global,
}

impl Model for Stall {
    ghost use Rattle.std.specs.Prelude.{IfSome};
    ghost use Rattle.broker_stalls.specs.Stalls.{StallView, IsWithin};

    ghost Value = { StallView };

    ghost view = { λ s. record { licence = s.licence; ids = s.ids; racks = s.racks } };

    ghost invariant = { λ s. IfSome s.licence IsWithin };
}

impl Stall {
    /// No licence and no stock. It takes no memory.
    pub fn new(alloc: Global) -> Stall
        ensures { IsAlike empty_stall result }
    {
        Stall {
            licence: None,
            ids: StockIds::new(alloc),
            racks: Racks::new(alloc),
            alloc,
        }
    }

    /// The terms of the licence; None exactly where there is none.
    pub fn licence(&self) -> Option<&Terms>
        ensures terms { option_map (λ t. t.now) result ≡ terms_of self.now }
        ensures period { IfSome result (λ t. HasPeriod t.now.period t.now.life) }
    {
        match &self.licence {
            Some(issuer) => Some(issuer.terms()),
            None => None,
        }
    }

    /// How many pieces of a series were sold under the licence, at most 2^32: the next serial of a series that is not
    /// full.
    pub fn count(&self, series: u32) -> u64
        ensures count { result ≡ sold_count self.now series }
        ensures most { result ≤ 2 ^ 32 }
    {
        match &self.licence {
            Some(issuer) => issuer.count(series),
            None => 0,
        }
    }

    /// Whether the broker has heard of the vendor: there is a licence, or there was stock.
    pub fn is_known(&self) -> bool
        ensures { result ≡ is_known self.now }
    {
        self.licence.is_some() || !self.ids.is_empty()
    }

    /// Whether a piece of an identity was ever in stock.
    pub fn has(&self, id: u64) -> bool
        ensures { result ≡ was_stocked self.now id }
    {
        self.ids.has(id)
    }

    /// The first piece of a value in stock that is for sale at a moment.
    pub fn first(&self, value: Amount, now: Moment) -> Option<StockPiece>
        ensures { result ≡ find (is_open now) (stocked_at self.now value) }
    {
        self.racks.first(value.get(), now)
    }

    /// Makes room for one more piece of a series of the licence, if there is one. There is none in a series that is full,
    /// of which 2^32 pieces were sold. What is told of the vendor stays.
    pub fn reserve_series(&mut self, series: u32) -> Result<(), NoMemory>
        ensures room { OnOk result (HasSeries self.new series) }
        ensures terms { terms_of self.new ≡ terms_of self.old }
        ensures counts { (s : ℕ) → sold_count self.new s ≡ sold_count self.old s }
        ensures ids { self.new.ids ≡ self.old.ids }
        ensures racks { self.new.racks ≡ self.old.racks }
    {
        match &mut self.licence {
            Some(issuer) => reserve_place(issuer, series),
            None => Ok(()),
        }
    }

    /// Makes room for the pieces of a Stock entry. What is told of the vendor stays, also after an `Err`.
    pub fn reserve_stock(&mut self, pieces: &PieceList<'_>) -> Result<(), NoMemory>
        ensures room { OnOk result (HasRoomFor self.new (pieces_of pieces.now)) }
        ensures licence { self.new.licence ≡ self.old.licence }
        ensures ids { (id : ℕ) → was_stocked self.new id ≡ was_stocked self.old id }
        ensures pieces { (v : ℕ) → stocked_at self.new v ≡ stocked_at self.old v }
        ensures known { is_known self.new ≡ is_known self.old }
    {
        self.ids.reserve(usize::from(pieces.count()))?;
        reserve_racks(&mut self.racks, pieces)
    }

    /// Takes the pieces of a Stock entry, for which there is room, into stock behind the others. Where they may not
    /// all be stock of the vendor, or one of their identities was in stock or stands twice, it is false, and all is
    /// then as it was. It takes no memory.
    pub fn learn_stock(&mut self, vendor: &Name, pieces: &PieceList<'_>) -> bool
        requires { HasRoomFor self.old (pieces_of pieces.now) }
        ensures learned { result ≡ are_stock vendor.now self.old.ids.ids (pieces_of pieces.now) }
        ensures same { OnFalse result (self.new ≡ self.old) }
        ensures licence { self.new.licence ≡ self.old.licence }
        ensures ids { OnTrue result ((id : ℕ) → was_stocked self.new id
            ≡ (was_stocked self.old id || list_any (λ k. id == k) (ids_of (pieces_of pieces.now)))) }
        ensures pieces { OnTrue result ((v : ℕ) → stocked_at self.new v
            ≡ stocked_at self.old v ++ listed_at v (pieces_of pieces.now)) }
        ensures known { OnTrue result (is_known self.new ≡ true) }
    {
        if !may_stock(vendor, &self.ids, pieces) {
            return false;
        }
        put_all(&mut self.ids, &mut self.racks, pieces);
        true
    }

    /// Takes a licence under which nothing was sold; false where one stands, and all is then as it was. It takes no
    /// memory.
    pub fn learn_licence(&mut self, terms: &Terms) -> bool
        requires { HasPeriod terms.now.period terms.now.life }
        ensures learned { result ≡ is_none (terms_of self.old) }
        ensures terms { terms_of self.new ≡ option_or (terms_of self.old) (Some terms.now) }
        ensures counts { (s : ℕ) → sold_count self.new s ≡ sold_count self.old s }
        ensures ids { self.new.ids ≡ self.old.ids }
        ensures racks { self.new.racks ≡ self.old.racks }
    {
        if self.licence.is_some() {
            return false;
        }
        self.licence = Some(Issuer::new(self.alloc, *terms, Limits::FULL));
        true
    }

    /// Counts a piece that was sold under the licence, in the series of its identity, which has room; false where
    /// there is no licence, and all is then as it was. It takes no memory.
    pub fn sell_licensed(&mut self, id: Id) -> bool
        requires { HasSeries self.old (series_of id) }
        ensures some { result ≡ is_some (terms_of self.old) }
        ensures counts { OnTrue result
            (IsRaisedAt (series_of id) 1 (sold_count self.old) (sold_count self.new)) }
        ensures same { OnFalse result (self.new ≡ self.old) }
        ensures terms { terms_of self.new ≡ terms_of self.old }
        ensures ids { self.new.ids ≡ self.old.ids }
        ensures racks { self.new.racks ≡ self.old.racks }
    {
        match &mut self.licence {
            Some(issuer) => {
                count_one(issuer, id.series());
                true
            }
            None => false,
        }
    }

    /// Sells the first piece of a value in stock that is for sale at a moment; false where there is none, and all is
    /// then as it was. It takes no memory.
    pub fn sell_first(&mut self, value: Amount, now: Moment) -> bool
        ensures sold { (v : ℕ) → stocked_at self.new v
            ≡ (if value == v then sold_first now (stocked_at self.old v) else stocked_at self.old v) }
        ensures some { result ≡ is_some (find (is_open now) (stocked_at self.old value)) }
        ensures licence { self.new.licence ≡ self.old.licence }
        ensures ids { self.new.ids ≡ self.old.ids }
    {
        self.racks.sell_first(value.get(), now)
    }
}

/// Makes room for one more piece of a series under a licence.
fn reserve_place(licence: &mut Issuer, series: u32) -> Result<(), NoMemory>
    requires { IsWithin licence.old }
    ensures room { OnOk result (HasPlace series licence.new) }
    ensures within { IsWithin licence.new }
    ensures terms { licence.new.terms ≡ licence.old.terms }
    ensures counts { (s : ℕ) → count_in licence.new s ≡ count_in licence.old s }
{
    if licence.count(series) >= Limits::MOST_SERIES {
        return Err(NoMemory);
    }
    licence.reserve(series)
}

/// Counts one more piece of a series under a licence, which has room for it.
fn count_one(licence: &mut Issuer, series: u32)
    requires place { HasPlace series licence.old }
    requires within { IsWithin licence.old }
    ensures within { IsWithin licence.new }
    ensures terms { licence.new.terms ≡ licence.old.terms }
    ensures counts { IsRaisedAt series 1 (count_in licence.old) (count_in licence.new) }
{
    let next = number_of(series, licence.count(series));
    licence.count_on(Id::of_number(next), 1);
}

/// The number that a series makes with a serial.
fn number_of(series: u32, serial: u64) -> u64
    requires { serial < 2 ^ 32 }
    ensures { result ≡ numbered series serial }
{
    u64::from(series) * (1 << 32) + serial
}

/// Puts the pieces of a list into stock, behind the others.
fn put_all(ids: &mut StockIds, racks: &mut Racks, pieces: &PieceList<'_>)
    requires ids { length (pieces_of pieces.now) ≤ ids.old.room }
    requires racks { (v : ℕ) → length (listed_at v (pieces_of pieces.now)) ≤ room_at racks.old v }
    ensures ids { (id : ℕ) → has_id ids.new id
        ≡ (has_id ids.old id || list_any (λ k. id == k) (ids_of (pieces_of pieces.now))) }
    ensures pieces { (v : ℕ) → pieces_at racks.new v
        ≡ pieces_at racks.old v ++ listed_at v (pieces_of pieces.now) }
    ensures some { 0 < length ids.new.ids }
{
    let mut list = *pieces;
    loop {
        let (first, rest) = list.split_first();
        let piece = piece_of(&first.0);
        ids.put(piece.id().number());
        racks.put(
            piece.value().get(),
            stock_piece(&piece, first.0.cert(), first.1),
        );
        list = match rest {
            Some(rest) => rest,
            None => return,
        };
    }
}

/// Makes room on the racks for the pieces of a list: for each, as many places on its rack as pieces are left.
fn reserve_racks(racks: &mut Racks, pieces: &PieceList<'_>) -> Result<(), NoMemory>
    ensures room { OnOk result ((v : ℕ)
        → length (listed_at v (pieces_of pieces.now)) ≤ room_at racks.new v) }
    ensures pieces { (v : ℕ) → pieces_at racks.new v ≡ pieces_at racks.old v }
{
    let mut list = *pieces;
    loop {
        let left = usize::from(list.count());
        let (first, rest) = list.split_first();
        let piece = piece_of(&first.0);
        racks.reserve(piece.value().get(), left)?;
        list = match rest {
            Some(rest) => rest,
            None => return Ok(()),
        };
    }
}

/// Whether the pieces of a list may be put into a vendor's stock, where these identities were in it.
fn may_stock(vendor: &Name, ids: &StockIds, pieces: &PieceList<'_>) -> bool
    requires { length (pieces_of pieces.now) ≤ MOST_PIECES }
    ensures { result ≡ are_stock vendor.now ids.now.ids (pieces_of pieces.now) }
{
    let mut seen = [0; MOST_PIECES as usize];
    let mut count = 0;
    let mut list = *pieces;
    loop {
        let (first, rest) = list.split_first();
        let piece = piece_of(&first.0);
        if !is_new_stock(vendor, ids, &seen[..count], &piece) {
            return false;
        }
        seen[count] = piece.id().number();
        count += 1;
        list = match rest {
            Some(rest) => rest,
            None => return true,
        };
    }
}

/// Whether a piece may be put into a vendor's stock, and neither was in it nor was seen.
fn is_new_stock(vendor: &Name, ids: &StockIds, seen: &[u64], piece: &Piece) -> bool
    ensures { result ≡ (may_be_stock vendor.now piece.now
        && not (has_id ids.now piece.now.id || list_any (λ k. piece.now.id == k) seen.now)) }
{
    let id = piece.id().number();
    may_be_stock_of(vendor, piece) && !(ids.has(id) || seen.contains(&id))
}
