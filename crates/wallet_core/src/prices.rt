//! The price and the change of a reply.

ghost use Rattle.std.specs.Prelude.{◌≡◌, ◌≤◌, codes, bytes_eq, IfSome};
ghost use Rattle.mc_base.specs.declared.amount.TheConstants.Amount.{MOST};
ghost use Rattle.mc_requests.specs.Errands.{last_number};
ghost use Rattle.reply_reader.specs.Seen.{received_of};
ghost use Rattle.wallet_model.specs.Settling as model;
ghost use Rattle.wallet_core.specs.Came.{ReadsChange};

use crate::came::Came;
use mc_base::Amount;
use mc_fields::number_of;
use reply_reader::ReplyRef;
use scrip_form::Piece;

/// The price of a reply.
pub(crate) fn price_of(r: &ReplyRef<'_>) -> Option<u64>
    ensures price { result ≡ model.price_of (received_of r.now) }
    ensures range { IfSome result (λ n. n ≤ MOST) }
{
    if is_zero(r.price) {
        return Some(0);
    }
    last_number(r.price)
}

fn last_number(bytes: &[u8]) -> Option<u64>
    ensures number { result ≡ last_number bytes.now }
    ensures range { IfSome result (λ n. n ≤ MOST) }
{
    number_of(Amount::MOST, bytes)
}

fn is_zero(bytes: &[u8]) -> bool
    ensures { result ≡ bytes_eq bytes.now (codes "0") }
{
    let zero: &[u8] = b"0";
    bytes == zero
}

/// Whether bytes are `-`, as the change of a reply is where there is none.
pub fn is_dash(bytes: &[u8]) -> bool
    ensures { result ≡ bytes_eq bytes.now (codes "-") }
{
    let dash: &[u8] = b"-";
    bytes == dash
}

/// Whether a piece is change of another at a price.
fn is_change(paid: &Piece, price: u64, change: Option<Piece>) -> bool
    requires { price ≤ MOST }
    ensures { result ≡ model.is_change paid.now price change }
{
    match change {
        Some(p) => p.vendor().bytes() == paid.vendor().bytes()
            && (p.cust() == paid.cust()
                && (p.props().bytes() == paid.props().bytes()
                    && p.value().get() + price == paid.value().get())),
        None => false,
    }
}

/// Whether a piece, where there is one, pays a price with the change of a reply.
pub(crate) fn is_paid_by(paid: Option<Piece>, price: u64, came: &Came<'_>) -> bool
    requires most { price ≤ MOST }
    requires read { ReadsChange came.now }
    ensures { result ≡ model.is_paid_by paid price came.now.reply.change.now }
{
    match paid {
        Some(paid) => if price == paid.value().get() {
            is_dash(came.reply.change)
        } else {
            price < paid.value().get() && is_change(&paid, price, came.change_piece())
        },
        None => true,
    }
}
