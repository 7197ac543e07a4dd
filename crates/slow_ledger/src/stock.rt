//! What a broker sold, and what it has to sell.

ghost use Rattle.std.specs.Prelude.{◌≡◌, ◌<◌, ◌≤◌, ◌==◌, ◌&&◌, length, slice_get, IfSome, IfOk, Some, None, option_map, option_to_list, if◌then◌else◌, unwrap_or, false, take, count_by};
ghost use Rattle.std.specs.List.{list_any, list_all};
ghost use Rattle.scrip_form.specs.Identities.{series_of};
ghost use Rattle.mc_records.specs.PieceViews.{pieces_of};
ghost use Rattle.ledger_model.specs.Stock as model;
ghost use Rattle.ledger_model.specs.Stock.{held_pieces, is_licence_of, licence_terms, licence_in, stock_of, stock_ids, ids_of, names_vendor, knows_vendor, sale_of, is_of_stock, is_licensed, is_sold, licensed_count, is_for_sale, for_sale, may_be_stock, are_new, are_stock};
ghost use Rattle.mc_records.specs.Views.{deed_of};
ghost use Rattle.slow_ledger.specs.NewStock.{held_id, is_new};
ghost use Rattle.slow_ledger.specs.Slow.{sale_for, first_open};

use crate::counts::sum;
use crate::prefix::Prefix;
use mc_base::{Moment, NoMemory};
use mc_records::{PieceList, Record, RecordDeed};
use mc_requests::{Errand, read_errand};
use scrip_form::{Id, Piece, Terms, read_scrip};

fn licence_at(h: &Prefix<'_>, n: usize, vendor: &[u8]) -> Option<Terms>
    requires { n < length h.now }
    ensures { IfSome (slice_get h.now n) (λ e. result ≡ (if is_licence_of vendor.now e then licence_terms e else None)) }
{
    match h.record(n) {
        Record::Licence {
            vendor: at,
            terms,
            ..
        } => if at == vendor {
            Some(terms.terms())
        } else {
            None
        },
        _ => None,
    }
}

/// The terms of the licence for a vendor.
pub fn slow_licence(h: &Prefix<'_>, vendor: &[u8]) -> Option<Terms>
    ensures { result ≡ licence_in h.now vendor.now }
{
    for n in 0..h.len() {
        match licence_at(h, n, vendor) {
            Some(terms) => return Some(terms),
            None => (),
        }
    }
    None
}

fn names_at(h: &Prefix<'_>, n: usize, vendor: &[u8]) -> bool
    requires { n < length h.now }
    ensures { IfSome (slice_get h.now n) (λ e. result ≡ names_vendor vendor.now e) }
{
    match h.record(n) {
        Record::Licence { vendor: at, .. } | Record::Stock { vendor: at, .. } => at == vendor,
        _ => false,
    }
}

/// Whether a licence or stock of a vendor stands.
pub(crate) fn slow_knows_vendor(h: &Prefix<'_>, vendor: &[u8]) -> bool
    ensures { result ≡ knows_vendor h.now vendor.now }
{
    for n in 0..h.len() {
        if names_at(h, n, vendor) {
            return true;
        }
    }
    false
}

/// Whether a deed for a target sells a piece of a vendor's stock with an identity.
fn sells(target: &[u8], deed: &RecordDeed, vendor: &[u8], id: Id) -> bool
    ensures { result ≡ list_any (λ s. is_of_stock vendor.now s && s.id == id) (option_to_list (sale_for target.now (deed_of deed.now))) }
{
    let RecordDeed::Sale { stock, id: sold } = deed else {
        return false;
    };
    match read_errand(target) {
        Some(Errand::Buy { vendor: of, .. }) => *stock && of == vendor && *sold == id,
        _ => false,
    }
}

fn sells_at(h: &Prefix<'_>, n: usize, vendor: &[u8], id: Id) -> bool
    requires { n < length h.now }
    ensures { IfSome (slice_get h.now n)
        (λ e. result ≡ list_any (λ s. is_of_stock vendor.now s && s.id == id) (option_to_list (sale_of e))) }
{
    match h.record(n) {
        Record::Accept { target, deed, .. } => sells(target, &deed, vendor, id),
        _ => false,
    }
}

/// Whether a piece of a vendor's in stock was sold.
pub(crate) fn slow_is_sold(h: &Prefix<'_>, vendor: &[u8], id: Id) -> bool
    ensures { result ≡ is_sold h.now vendor.now id }
{
    for n in 0..h.len() {
        if sells_at(h, n, vendor, id) {
            return true;
        }
    }
    false
}

/// How many pieces of a series a deed for a target sells under the licence for a vendor.
fn licensed(target: &[u8], deed: &RecordDeed, vendor: &[u8], series: u64) -> u64
    ensures { result ≡ count_by (λ s. is_licensed vendor.now s && series_of s.id == series) (option_to_list (sale_for target.now (deed_of deed.now))) }
{
    let RecordDeed::Sale { stock, id: sold } = deed else {
        return 0;
    };
    match read_errand(target) {
        Some(Errand::Buy { vendor: of, .. }) => if !*stock
            && of == vendor
            && u64::from(sold.series()) == series
        {
            1
        } else {
            0
        },
        _ => 0,
    }
}

fn licensed_at(h: &Prefix<'_>, n: usize, vendor: &[u8], series: u64) -> u64
    requires { n < length h.now }
    ensures { IfSome (slice_get h.now n)
        (λ e. result ≡ count_by (λ s. is_licensed vendor.now s && series_of s.id == series) (option_to_list (sale_of e))) }
{
    match h.record(n) {
        Record::Accept { target, deed, .. } => licensed(target, &deed, vendor, series),
        _ => 0,
    }
}

/// How many pieces of a series were sold under the licence for a vendor.
pub(crate) fn slow_licensed_count(
    h: &Prefix<'_>,
    vendor: &[u8],
    series: u64,
) -> Result<u64, NoMemory>
    ensures { IfOk result (λ all. all ≡ licensed_count h.now vendor.now series) }
{
    let mut all = 0;
    for n in 0..h.len() {
        all = sum(all, licensed_at(h, n, vendor, series))?;
    }
    Ok(all)
}

/// The piece of this number of a list.
fn held_piece(pieces: &PieceList<'_>, k: u16) -> Option<Piece>
    ensures { IfSome (slice_get (pieces_of pieces.now) k) (λ x. result ≡ model.held_piece x) }
{
    match pieces.get(k) {
        Some((scrip, _)) => match read_scrip(scrip.text()) {
            Ok(read) => Some(read.piece()),
            Err(_) => None,
        },
        None => None,
    }
}

/// Whether a piece is for sale.
fn is_open(h: &Prefix<'_>, time: Moment, vendor: &[u8], value: u64, piece: &Piece) -> bool
    ensures { result ≡ is_for_sale h.now time vendor.now value piece.now }
{
    piece.value().get() == value
        && time.seconds() < piece.expires()
        && !slow_is_sold(h, vendor, piece.id())
}

/// The identity of the piece of this number of a list, where it is for sale.
fn open_at(
    h: &Prefix<'_>,
    time: Moment,
    vendor: &[u8],
    value: u64,
    pieces: &PieceList<'_>,
    k: u16,
) -> Option<Id>
    ensures { IfSome (slice_get (pieces_of pieces.now) k)
        (λ x. result ≡ first_open h.now time vendor.now value (option_to_list (model.held_piece x))) }
{
    match held_piece(pieces, k) {
        Some(piece) => if is_open(h, time, vendor, value, &piece) {
            Some(piece.id())
        } else {
            None
        },
        None => None,
    }
}

/// The identity of the first piece of a list that is for sale.
fn open_of(
    h: &Prefix<'_>,
    time: Moment,
    vendor: &[u8],
    value: u64,
    pieces: &PieceList<'_>,
) -> Option<Id>
    ensures { result ≡ first_open h.now time vendor.now value (held_pieces (pieces_of pieces.now)) }
{
    for k in 0..pieces.count() {
        match open_at(h, time, vendor, value, pieces, k) {
            Some(id) => return Some(id),
            None => (),
        }
    }
    None
}

fn open_in(h: &Prefix<'_>, n: usize, time: Moment, vendor: &[u8], value: u64) -> Option<Id>
    requires { n < length h.now }
    ensures { IfSome (slice_get h.now n)
        (λ e. result ≡ first_open h.now time vendor.now value (held_pieces (stock_of vendor.now e))) }
{
    match h.record(n) {
        Record::Stock {
            vendor: at,
            pieces,
            ..
        } => if at == vendor {
            open_of(h, time, vendor, value, &pieces)
        } else {
            None
        },
        _ => None,
    }
}

/// The identity of the first piece of a vendor in stock that is for sale.
pub(crate) fn slow_for_sale(h: &Prefix<'_>, time: Moment, vendor: &[u8], value: u64) -> Option<Id>
    ensures { result ≡ option_map (λ p. p.id) (for_sale h.now time vendor.now value) }
{
    for n in 0..h.len() {
        match open_in(h, n, time, vendor, value) {
            Some(id) => return Some(id),
            None => (),
        }
    }
    None
}

/// Whether the piece of this number of a list has an identity.
fn has_id(pieces: &PieceList<'_>, k: u16, id: Id) -> bool
    ensures { IfSome (slice_get (pieces_of pieces.now) k)
        (λ x. result ≡ list_any (λ i. i == id) (option_to_list (held_id x))) }
{
    match held_piece(pieces, k) {
        Some(piece) => piece.id() == id,
        None => false,
    }
}

/// Whether one of the first pieces of a list has an identity.
fn first_have_id(pieces: &PieceList<'_>, count: u16, id: Id) -> bool
    requires { count ≤ length (pieces_of pieces.now) }
    ensures { result ≡ list_any (λ i. i == id) (ids_of (take count (pieces_of pieces.now))) }
{
    for k in 0..count {
        if has_id(pieces, k, id) {
            return true;
        }
    }
    false
}

fn stocks_at(h: &Prefix<'_>, n: usize, vendor: &[u8], id: Id) -> bool
    requires { n < length h.now }
    ensures { IfSome (slice_get h.now n)
        (λ e. result ≡ list_any (λ i. i == id) (ids_of (stock_of vendor.now e))) }
{
    match h.record(n) {
        Record::Stock {
            vendor: at,
            pieces,
            ..
        } => at == vendor && first_have_id(&pieces, pieces.count(), id),
        _ => false,
    }
}

/// Whether a piece of a vendor with this identity was put into stock.
fn slow_is_stocked(h: &Prefix<'_>, vendor: &[u8], id: Id) -> bool
    ensures { result ≡ list_any (λ i. i == id) (stock_ids h.now vendor.now) }
{
    for n in 0..h.len() {
        if stocks_at(h, n, vendor, id) {
            return true;
        }
    }
    false
}

/// Whether the piece of this number of a list may be put into stock for a vendor.
fn may_stock_at(vendor: &[u8], pieces: &PieceList<'_>, k: u16) -> bool
    ensures { IfSome (slice_get (pieces_of pieces.now) k)
        (λ x. result ≡ unwrap_or (option_map (may_be_stock vendor.now) (model.held_piece x)) false) }
{
    match held_piece(pieces, k) {
        Some(piece) => piece.vendor().bytes() == vendor
            && piece.cust() == piece.id()
            && piece.props().bytes().len() == 0,
        None => false,
    }
}

/// Whether each piece of a list may be put into stock for a vendor.
fn may_stock(vendor: &[u8], pieces: &PieceList<'_>) -> bool
    ensures { result ≡ list_all (λ x. unwrap_or (option_map (may_be_stock vendor.now) (model.held_piece x)) false) (pieces_of pieces.now) }
{
    for k in 0..pieces.count() {
        if !may_stock_at(vendor, pieces, k) {
            return false;
        }
    }
    true
}

/// Whether the identity of the piece of this number of a list stands neither in stock nor before it.
fn new_at(h: &Prefix<'_>, vendor: &[u8], pieces: &PieceList<'_>, k: u16) -> bool
    requires { k ≤ length (pieces_of pieces.now) }
    ensures { IfSome (slice_get (pieces_of pieces.now) k)
        (λ x. result ≡ is_new (ids_of (take k (pieces_of pieces.now))) (stock_ids h.now vendor.now) (held_id x)) }
{
    match held_piece(pieces, k) {
        Some(piece) => !(first_have_id(pieces, k, piece.id())
            || slow_is_stocked(h, vendor, piece.id())),
        None => true,
    }
}

/// Whether no identity of a list stands in stock, or twice.
fn all_new(h: &Prefix<'_>, vendor: &[u8], pieces: &PieceList<'_>) -> bool
    ensures { result ≡ are_new (stock_ids h.now vendor.now) (ids_of (pieces_of pieces.now)) }
{
    for k in 0..pieces.count() {
        if !new_at(h, vendor, pieces, k) {
            return false;
        }
    }
    true
}

/// Whether some pieces may be put into stock for a vendor.
pub(crate) fn slow_are_stock(h: &Prefix<'_>, vendor: &[u8], pieces: &PieceList<'_>) -> bool
    ensures { result ≡ are_stock vendor.now (stock_ids h.now vendor.now) (pieces_of pieces.now) }
{
    may_stock(vendor, pieces) && all_new(h, vendor, pieces)
}
