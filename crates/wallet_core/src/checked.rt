//! A reply that settles a kept request.

ghost use Rattle.std.specs.Prelude.{◌↔◌, IsTrue};
ghost use Rattle.wallet_model.specs.Laws.{HasItsPiece};

use crate::WalletRequest;
use crate::came::Came;
use scrip_form::is_scrip;
use std::marker::Model;

/// A reply that settles a request, for `Wallet::settle_reply`. Only `Wallet::check_reply` makes one. Contracts see the
/// number of the request, what it asks, and the reply.
#[derive(Drop)]
pub struct Checked<'a> {
    pub(crate) number: u64,
    pub(crate) request: WalletRequest,
    pub(crate) came: Came<'a>,
}

impl<'a> Model for Checked<'a> {
    ghost use Rattle.std.specs.Prelude.{◌≡◌, None};
    ghost use Rattle.mc_records.specs.Entry.{IsLong};
    ghost use Rattle.wallet_model.specs.Laws.{HasItsPiece};
    ghost use Rattle.wallet_model.specs.Settling.{check_of};
    ghost use Rattle.reply_reader.specs.Seen.{received_of};
    ghost use Rattle.wallet_core.specs.Requests.{pending_view};
    ghost use Rattle.wallet_core.specs.Checking.{CheckedView};
    ghost use Rattle.wallet_core.specs.Came.{IsCame};

    ghost Value = { CheckedView };

    ghost view = { λ c. record { number = c.number; request = pending_view c.request; reply = received_of c.came.reply } };

    ghost invariant = { λ c. HasItsPiece c.request.ask c.request.scrip × (check_of (pending_view c.request) (received_of c.came.reply) ≡ None) × IsLong c.number × IsCame c.request.ask c.came };
}

/// Whether a request that is no draw pays with a piece.
pub(crate) fn has_its_piece(request: &WalletRequest) -> bool
    ensures { IsTrue result ↔ HasItsPiece request.now.ask request.now.scrip }
{
    if request.ask >= 2 {
        return true;
    }
    match &request.scrip {
        Some(text) => is_scrip(text.bytes()),
        None => false,
    }
}
