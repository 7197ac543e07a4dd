//! The versions of a house's series.

ghost use Rattle.std.specs.Prelude.{◌≡◌};
ghost use Rattle.std.specs.List.{list_any};
ghost use Rattle.scrip_form.specs.Scrip.{IsVersion};
ghost use Rattle.ledger_model.specs.Houses as ledger;
ghost use Rattle.ledger_model.specs.Houses.{version_by};
ghost use Rattle.house_state.specs.HouseState as spec;

use ledger_model::Upgraded;
use scrip_form::Piece;

/// The version of a series, where these issuers were moved to the second one.
#[tactic(auto, unfolding(ledger_model::specs::Houses::version_by))]
pub(crate) fn version_in(upgrades: &[Upgraded], series: u32) -> u8
    ensures value { result ≡ version_by upgrades.now series }
    ensures valid { IsVersion result }
{
    if is_raised(upgrades, series) { 2 } else { 1 }
}

/// Whether one of the issuers that were moved has the second version in a series.
fn is_raised(upgrades: &[Upgraded], series: u32) -> bool
    ensures { result ≡ list_any (ledger.raises series) upgrades.now }
{
    upgrades.iter().any(|u| raises(series, u))
}

/// Whether an issuer that was moved has the second version in a series: one of its own, of the epoch that
/// it was moved from or of a later one. It takes no memory.
pub fn raises(series: u32, u: &Upgraded) -> bool
    ensures { result ≡ ledger.raises series u.now }
{
    u32::from(u.issuer) == series / (1 << 24) && u.from <= series % (1 << 24)
}

/// A piece in the version of its series, likewise.
pub(crate) fn in_version(upgrades: &[Upgraded], piece: Piece) -> Piece
    ensures { result ≡ spec.in_version upgrades.now piece }
{
    let version = version_in(upgrades, piece.id().series());
    piece.versioned(version).unwrap()
}
