//! The versions of series, and which Upgrade entries may follow.

ghost use Rattle.std.specs.Prelude.{◌≡◌, ◌<◌, ◌↔◌, length, slice_get, IfSome, IsTrue, option_to_list};
ghost use Rattle.std.specs.List.{list_any};
ghost use Rattle.ledger_model.specs.Houses.{upgrade_of, upgrades_of, raises, version, upgrade_by, upgrade_in};
ghost use Rattle.ledger_model.specs.Stock.{upgrade_terms};
ghost use Rattle.ledger_model.specs.Lawful.{MayUpgrade};

use crate::filters::{slow_is_broker, slow_is_vendor, slow_name, slow_terms};
use crate::prefix::Prefix;
use crate::stock::slow_licence;
use ledger_model::Upgraded;
use mc_base::Moment;
use mc_records::Record;
use scrip_form::Terms;

/// The issuer of a vendor that the entry of a number moves to version 2, and from which epoch on.
fn upgrade_at(h: &Prefix<'_>, n: usize, vendor: &[u8]) -> Option<Upgraded>
    requires { n < length h.now }
    ensures { IfSome (slice_get h.now n) (λ e. result ≡ upgrade_of vendor.now e) }
{
    match h.record(n) {
        Record::Upgrade {
            vendor: at,
            issuer,
            from,
            ..
        } => if at == vendor {
            Some(Upgraded { issuer, from })
        } else {
            None
        },
        _ => None,
    }
}

/// Whether the entry of a number moves a vendor's series to version 2.
fn raises_at(h: &Prefix<'_>, n: usize, vendor: &[u8], series: u32) -> bool
    requires { n < length h.now }
    ensures { IfSome (slice_get h.now n)
        (λ e. result ≡ list_any (raises series) (option_to_list (upgrade_of vendor.now e))) }
{
    match upgrade_at(h, n, vendor) {
        Some(u) => u32::from(u.issuer) == series / (1 << 24) && u.from <= series % (1 << 24),
        None => false,
    }
}

/// Whether a vendor's series was moved to version 2.
fn is_raised(h: &Prefix<'_>, vendor: &[u8], series: u32) -> bool
    ensures { result ≡ list_any (raises series) (upgrades_of h.now vendor.now) }
{
    for n in 0..h.len() {
        if raises_at(h, n, vendor, series) {
            return true;
        }
    }
    false
}

/// The version of a vendor's series.
#[tactic(auto, unfolding(ledger_model::specs::Houses::version_by))]
pub(crate) fn slow_version(h: &Prefix<'_>, vendor: &[u8], series: u32) -> u8
    ensures { result ≡ version h.now vendor.now series }
{
    if is_raised(h, vendor, series) { 2 } else { 1 }
}

/// The epoch from which on the entry of a number moves an issuer of a vendor.
fn upgrade_of_issuer_at(h: &Prefix<'_>, n: usize, vendor: &[u8], issuer: u8) -> Option<u32>
    requires { n < length h.now }
    ensures { IfSome (slice_get h.now n)
        (λ e. result ≡ upgrade_by (option_to_list (upgrade_of vendor.now e)) issuer) }
{
    match upgrade_at(h, n, vendor) {
        Some(u) => if u.issuer == issuer {
            Some(u.from)
        } else {
            None
        },
        None => None,
    }
}

/// The epoch from which on an issuer of a vendor has version 2.
pub(crate) fn slow_upgrade(h: &Prefix<'_>, vendor: &[u8], issuer: u8) -> Option<u32>
    ensures { result ≡ upgrade_in h.now vendor.now issuer }
{
    for n in 0..h.len() {
        match upgrade_of_issuer_at(h, n, vendor, issuer) {
            Some(from) => return Some(from),
            None => (),
        }
    }
    None
}

/// The terms by which a house may move an issuer of a vendor to version 2.
#[tactic(auto, unfolding(ledger_model::specs::Stock::upgrade_terms))]
fn slow_upgrade_terms(h: &Prefix<'_>, vendor: &[u8], issuer: u8) -> Option<Terms>
    ensures { result ≡ upgrade_terms h.now vendor.now issuer }
{
    if slow_is_vendor(h) || issuer == 0 {
        return if vendor == slow_name(h) {
            slow_terms(h, issuer)
        } else {
            None
        };
    }
    if !slow_is_broker(h) {
        return None;
    }
    match slow_licence(h, vendor) {
        Some(terms) => if terms.issuer() == issuer {
            Some(terms)
        } else {
            None
        },
        None => None,
    }
}

/// Whether a house may move an issuer of a vendor to version 2 at a moment, from an epoch on.
pub(crate) fn upgrade_allowed(
    h: &Prefix<'_>,
    moment: Moment,
    vendor: &[u8],
    issuer: u8,
    from: u32,
) -> bool
    ensures { IsTrue result ↔ MayUpgrade h.now moment vendor.now issuer from }
{
    if slow_upgrade(h, vendor, issuer).is_some() {
        return false;
    }
    match slow_upgrade_terms(h, vendor, issuer) {
        Some(terms) => terms.epoch_of(moment) < from,
        None => false,
    }
}
