//! The money of an accepted piece and its change, and of a draw.

ghost use Rattle.std.specs.Prelude.{◌≡◌, ◌+◌, ◌-◌, ◌≤◌, ◌<◌, ◌^◌, ℕ, [], Some, None, option_map, min, MatchOption, IsTrue};
ghost use Rattle.scrip_form.specs.Identities.{series_of};
ghost use Rattle.scrip_form.specs.Issuing.{series_at};
ghost use Rattle.change_issue.specs.Registers.{has_room, count_in, issued_in, redeemed_in, next_in};
ghost use Rattle.change_issue.specs.IssuedPieces.{issued_piece};
ghost use Rattle.house_state.specs.HouseState.{at_series, change_count, change_worth, deed_drawn, in_version};

use crate::versions;
use change_issue::Issuer;
use kept_replies::Deed;
use ledger_model::Upgraded;
use mc_base::{Amount, Coin, Moment, Total};
use scrip_certs::{certificate_of, customer_secret};
use scrip_form::{Id, Name, Piece, Props};

/// The coin of a piece in two: what is paid at this price, and the rest.
fn parted(coin: Coin, price: u64) -> (Coin, Coin)
    ensures paid { result.0 ≡ min price coin }
    ensures rest { result.1 ≡ coin - price }
{
    let value = coin.amount().get();
    let part = Amount::new(price.min(value)).unwrap();
    match coin.split(part) {
        Ok(parts) => parts,
        Err(_) => unreachable!(),
    }
}

/// Redeems a piece: its value goes into the takings as far as the price, and the rest is handed out as
/// change, where there is an identity for it. It takes no memory.
pub(crate) fn redeem(
    own: &mut Issuer,
    upgrades: &[Upgraded],
    takings: &mut Total,
    time: Moment,
    vendor: Name,
    paid: &Piece,
    price: u64,
    change: Option<Id>,
) -> Option<Piece>
    requires redeemed_room { IsTrue (has_room own.old (series_of paid.now.id)) }
    requires change_room { IsTrue (has_room own.old (series_at own.old.terms time)) }
    requires change { MatchOption change (paid.now.value ≤ price)
        (λ id. (price < paid.now.value)
        × (count_in own.old (series_at own.old.terms time) < own.old.most)
        × (id ≡ next_in own.old (series_at own.old.terms time))) }
    requires redeemed_small { redeemed_in own.old (series_of paid.now.id) < 2 ^ 120 }
    requires takings_small { takings.old < 2 ^ 120 }
    ensures piece { result ≡ option_map
        (λ id. in_version upgrades.now (issued_piece own.old.terms time vendor (paid.now.value - price) id (Some paid.now.cust) paid.now.props)) change }
    ensures count { (s : ℕ)
        → count_in own.new s ≡ count_in own.old s + at_series (series_at own.old.terms time) (change_count change) s }
    ensures worth { (s : ℕ)
        → issued_in own.new s ≡ issued_in own.old s + at_series (series_at own.old.terms time) (change_worth price paid.now.value change) s }
    ensures redeemed { (s : ℕ)
        → redeemed_in own.new s ≡ redeemed_in own.old s + at_series (series_of paid.now.id) paid.now.value s }
    ensures takings { takings.new ≡ takings.old + min price paid.now.value }
    ensures terms { own.new.terms ≡ own.old.terms }
    ensures most { own.new.most ≡ own.old.most }
{
    let coin = own.redeem(paid.id(), paid.value());
    let (part, rest) = parted(coin, price);
    takings.put(part);
    match change {
        Some(_) => {
            let piece = own.issue(time, vendor, rest, Some(paid.cust()), paid.props());
            Some(versions::in_version(upgrades, piece))
        }
        None => {
            rest.end();
            None
        }
    }
}

/// The piece of a draw of this amount, handed out in the series of a moment, with its certificate and the secret
/// of its customer. The coin of it was taken out of the account. It takes no memory.
pub(crate) fn drawn(
    own: &mut Issuer,
    upgrades: &[Upgraded],
    time: Moment,
    vendor: Name,
    amount: Amount,
) -> Deed
    requires some { 0 < amount }
    requires room { IsTrue (has_room own.old (series_at own.old.terms time)) }
    requires below { count_in own.old (series_at own.old.terms time) < own.old.most }
    ensures deed { result ≡ deed_drawn own.old.terms (in_version upgrades.now (issued_piece own.old.terms time vendor amount (next_in own.old (series_at own.old.terms time)) None [])) }
    ensures count { (s : ℕ)
        → count_in own.new s ≡ count_in own.old s + at_series (series_at own.old.terms time) 1 s }
    ensures worth { (s : ℕ)
        → issued_in own.new s ≡ issued_in own.old s + at_series (series_at own.old.terms time) amount s }
    ensures redeemed { (s : ℕ) → redeemed_in own.new s ≡ redeemed_in own.old s }
    ensures terms { own.new.terms ≡ own.old.terms }
    ensures most { own.new.most ≡ own.old.most }
{
    let no_props = Props::new(b"").unwrap();
    let piece = own.issue(time, vendor, Coin::minted(amount), None, no_props);
    let piece = versions::in_version(upgrades, piece);
    let terms = own.terms();
    Deed::Draw {
        piece,
        cert: certificate_of(terms, &piece),
        secret: customer_secret(terms, piece.cust(), piece.version()),
    }
}
