//! What a reply brings, read once.

ghost use Rattle.std.specs.Prelude.{◌≡◌, option_map};
ghost use Rattle.mc_records.specs.PieceViews as views;
ghost use Rattle.ledger_model.specs.Pieces as pieces;
ghost use Rattle.wallet_model.specs.Newness.{are_one_piece};
ghost use Rattle.wallet_model.specs.Settling as model;
ghost use Rattle.reply_reader.specs.Seen.{received_of};
ghost use Rattle.wallet_core.specs.Came.{IsCame, ReadsChange};
ghost use Rattle.wallet_core.specs.Settled.{bought};

use crate::contents::{is_one, one_line, scrip_of};
use reply_reader::ReplyRef;
use scrip_form::{Piece, ScripRef};

/// A reply to a request, with the pieces that it brings: that of its change, where the change is a scrip text; and,
/// where the request buys or draws, the one whose line its contents are, with its secret.
#[derive(Drop)]
pub(crate) struct Came<'a> {
    pub reply: ReplyRef<'a>,
    pub change: Option<ScripRef<'a>>,
    pub got: Option<(ScripRef<'a>, [u8; 16])>,
}

impl<'a> Came<'a> {
    /// What a reply brings to a request of a kind. It takes no memory.
    pub(crate) fn of(ask: u8, r: &ReplyRef<'a>) -> Came<'a>
        ensures reply { received_of result.reply ≡ received_of r.now }
        ensures read { IsCame ask result }
    {
        Came {
            reply: *r,
            change: scrip_of(r.change),
            got: contents_came(ask, r.contents),
        }
    }

    /// The piece of the change.
    pub(crate) fn change_piece(&self) -> Option<Piece>
        requires { ReadsChange self.now }
        ensures { result ≡ pieces.piece_of self.now.reply.change.now }
    {
        match &self.change {
            Some(scrip) => Some(scrip.piece()),
            None => None,
        }
    }

    /// Whether a piece is the change, by vendor and identity.
    pub(crate) fn is_change(&self, scrip: &ScripRef<'_>) -> bool
        requires { ReadsChange self.now }
        ensures { result ≡ are_one_piece self.now.reply.change.now scrip.now.text }
    {
        match &self.change {
            Some(change) => is_one(change, scrip),
            None => false,
        }
    }

    /// The piece in the contents.
    pub(crate) fn got_piece(&self) -> Option<Piece>
        ensures { result ≡ option_map (λ x. x.0.piece) self.now.got }
    {
        match &self.got {
            Some(got) => Some(got.0.piece()),
            None => None,
        }
    }
}

/// The piece in the contents of a buy or a draw, and its secret.
fn contents_came(ask: u8, contents: &[u8]) -> Option<(ScripRef<'_>, [u8; 16])>
    ensures held { option_map views.piece_of result ≡ model.contents_came ask contents.now }
    ensures piece { option_map (λ x. x.0.piece) result ≡ bought ask contents.now }
{
    if ask == 0 {
        return None;
    }
    one_line(contents)
}
