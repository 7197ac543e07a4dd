//! The filters of a history, each in one pass over its entries.

ghost use Rattle.std.specs.Prelude.{◌≡◌, ◌<◌, ◌==◌, length, max, None, Some, slice_get, IfSome, if◌then◌else◌, option_map, option_to_list, bytes_eq};
ghost use Rattle.std.specs.List.{list_any};
ghost use Rattle.scrip_form.specs.Texts.{IsTarget};
ghost use Rattle.mc_records.specs.Views.{house_of};
ghost use Rattle.mc_records.specs.Entry as entries;
ghost use Rattle.ledger_model.specs.Histories.{time};
ghost use Rattle.ledger_model.specs.Houses.{site_name, is_vendor, is_broker, fee, keeping, is_clear, terms_of, terms_by, terms_in};
ghost use Rattle.ledger_model.specs.Goods.{is_goods_of, goods_price, price_in};
ghost use Rattle.ledger_model.specs.Pieces.{accepted_piece, is_spent, reference_of, has_reference};

use crate::prefix::Prefix;
use ledger_model::{BROKER_KIND, VENDOR_KIND};
use mc_base::Moment;
use mc_records::{PieceList, Record, SiteTerms};
use scrip_form::{Id, Terms, read_scrip};

/// The moment of the entry of a number.
pub fn moment_at(h: &Prefix<'_>, n: usize) -> Moment
    requires { n < length h.now }
    ensures { IfSome (slice_get h.now n) (λ e. result ≡ entries.moment_of e) }
{
    let _parts: Option<(PieceList<'_>, SiteTerms<'_>)> = None;
    h.record(n).moment()
}

/// The greatest moment of the entries.
pub fn slow_time(h: &Prefix<'_>) -> u64
    ensures { result ≡ time h.now }
{
    let mut greatest = 0;
    for n in 0..h.len() {
        greatest = moment_at(h, n).seconds().max(greatest);
    }
    greatest
}

/// The name of the site.
pub fn slow_name<'a>(h: &'a Prefix<'_>) -> &'a [u8]
    ensures { result.now ≡ site_name h.now }
{
    if h.len() == 0 {
        return &[];
    }
    match h.record(0) {
        Record::Site { name, .. } => name,
        _ => &[],
    }
}

/// Whether the site is a vendor.
pub(crate) fn slow_is_vendor(h: &Prefix<'_>) -> bool
    ensures { result ≡ is_vendor h.now }
{
    if h.len() == 0 {
        return false;
    }
    match h.record(0) {
        Record::Site { kind, .. } => kind == VENDOR_KIND,
        _ => false,
    }
}

/// Whether the site is a broker.
pub fn slow_is_broker(h: &Prefix<'_>) -> bool
    ensures { result ≡ is_broker h.now }
{
    if h.len() == 0 {
        return false;
    }
    match h.record(0) {
        Record::Site { kind, .. } => kind == BROKER_KIND,
        _ => false,
    }
}

/// A broker's fee for each piece that it sells.
pub fn slow_fee(h: &Prefix<'_>) -> u64
    ensures { result ≡ fee h.now }
{
    if h.len() == 0 {
        return 0;
    }
    match h.record(0) {
        Record::Site {
            house: Some(house),
            ..
        } => house.fee,
        _ => 0,
    }
}

/// The keeping time, in seconds.
pub(crate) fn slow_keeping(h: &Prefix<'_>) -> u32
    ensures { result ≡ keeping h.now }
{
    if h.len() == 0 {
        return 0;
    }
    match h.record(0) {
        Record::Site {
            house: Some(house),
            ..
        } => house.keep,
        _ => 0,
    }
}

/// Whether the house has the clear flag.
pub(crate) fn slow_is_clear(h: &Prefix<'_>) -> bool
    ensures { result ≡ is_clear h.now }
{
    if h.len() == 0 {
        return false;
    }
    match h.record(0) {
        Record::Site {
            house: Some(house),
            ..
        } => house.clear,
        _ => false,
    }
}

fn terms_of_house(house: Option<SiteTerms<'_>>) -> Option<Terms>
    ensures { result ≡ option_map (λ x. x.terms) (option_map house_of house.entry) }
{
    match house {
        Some(house) => Some(house.terms.terms()),
        None => None,
    }
}

fn terms_at(h: &Prefix<'_>, n: usize) -> Option<Terms>
    requires { n < length h.now }
    ensures { IfSome (slice_get h.now n) (λ e. result ≡ terms_of e) }
{
    match h.record(n) {
        Record::Site { house, .. } => terms_of_house(house),
        Record::Terms { terms, .. } => Some(terms.terms()),
        _ => None,
    }
}

fn terms_of_issuer_at(h: &Prefix<'_>, n: usize, issuer: u8) -> Option<Terms>
    requires { n < length h.now }
    ensures { IfSome (slice_get h.now n)
        (λ e. result ≡ terms_by (option_to_list (terms_of e)) issuer) }
{
    match terms_at(h, n) {
        Some(terms) => if terms.issuer() == issuer {
            Some(terms)
        } else {
            None
        },
        None => None,
    }
}

/// The terms of an issuer.
pub fn slow_terms(h: &Prefix<'_>, issuer: u8) -> Option<Terms>
    ensures { result ≡ terms_in h.now issuer }
{
    for n in 0..h.len() {
        match terms_of_issuer_at(h, n, issuer) {
            Some(terms) => return Some(terms),
            None => (),
        }
    }
    None
}

fn price_with(h: &Prefix<'_>, n: usize, target: &[u8], before: Option<u64>) -> Option<u64>
    requires { n < length h.now }
    ensures price { IfSome (slice_get h.now n)
        (λ e. result ≡ (if is_goods_of target.now e then Some (goods_price e) else before)) }
    ensures target { IfSome before (λ _. IsTarget target.now)
        → IfSome result (λ _. IsTarget target.now) }
{
    match h.record(n) {
        Record::Goods {
            target: at,
            price,
            ..
        } => if at == target { Some(price) } else { before },
        _ => before,
    }
}

/// The price in force of a target.
pub(crate) fn slow_price(h: &Prefix<'_>, target: &[u8]) -> Option<u64>
    ensures price { result ≡ price_in h.now target.now }
    ensures target { IfSome result (λ _. IsTarget target.now) }
{
    let mut found = None;
    for n in 0..h.len() {
        found = price_with(h, n, target, found);
    }
    found
}

fn accepts_at(h: &Prefix<'_>, n: usize, id: Id) -> bool
    requires { n < length h.now }
    ensures { IfSome (slice_get h.now n)
        (λ e. result ≡ list_any (λ p. p.id == id) (option_to_list (accepted_piece e))) }
{
    match h.record(n) {
        Record::Accept { scrip, .. } => match read_scrip(scrip) {
            Ok(read) => read.piece().id() == id,
            Err(_) => false,
        },
        _ => false,
    }
}

/// Whether an identity was accepted.
pub fn slow_is_spent(h: &Prefix<'_>, id: Id) -> bool
    ensures { result ≡ is_spent h.now id }
{
    for n in 0..h.len() {
        if accepts_at(h, n, id) {
            return true;
        }
    }
    false
}

fn refers_at(h: &Prefix<'_>, n: usize, reference: &[u8]) -> bool
    requires { n < length h.now }
    ensures { IfSome (slice_get h.now n)
        (λ e. result ≡ list_any (λ r. bytes_eq r reference.now) (option_to_list (reference_of e))) }
{
    match h.record(n) {
        Record::Mint { reference: at, .. }
        | Record::Deposit { reference: at, .. }
        | Record::Withdraw { reference: at, .. } => at == reference,
        _ => false,
    }
}

/// Whether a reference stands in an entry.
pub(crate) fn slow_has_reference(h: &Prefix<'_>, reference: &[u8]) -> bool
    ensures { result ≡ has_reference h.now reference.now }
{
    for n in 0..h.len() {
        if refers_at(h, n, reference) {
            return true;
        }
    }
    false
}
