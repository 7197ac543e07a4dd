//! The pieces of a wallet's book by their places.

ghost use Rattle.std.specs.Prelude.{◌≡◌, slice_get, option_map};
ghost use Rattle.mc_records.specs.Views.{held_of};
ghost use Rattle.wallet_model.specs.Holdings.{pieces_came, holdings};
ghost use Rattle.slow_wallet.specs.Slow.{holding_view};

use crate::came::{brought, count_brought};
use crate::states::slow_state;
use slow_ledger::Prefix;
use wallet_book::State;

/// A piece of a wallet: its scrip text, the secret of its customer, and how it stands with it.
#[derive(Clone, Copy, Drop)]
pub struct Holding<'a> {
    pub text: &'a [u8],
    pub secret: [u8; 16],
    pub state: State,
}

/// The piece of this place among all that came: its text and its secret.
fn piece_at<'a>(h: &'a Prefix<'_>, place: usize) -> Option<(&'a [u8], [u8; 16])>
    ensures { option_map held_of result ≡ slice_get (pieces_came h.now) place }
{
    let mut skip = place;
    for n in 0..h.len() {
        let count = usize::from(count_brought(h, n));
        if skip < count {
            return brought(h, n, skip as u16);
        }
        skip -= count;
    }
    None
}

/// The holding of this place, from 0, in the order in which the pieces came; None exactly where there are no
/// more.
pub fn slow_holding<'a>(h: &'a Prefix<'_>, place: usize) -> Option<Holding<'a>>
    ensures { option_map holding_view result ≡ slice_get (holdings h.now) place }
{
    let Some(piece) = piece_at(h, place) else {
        return None;
    };
    let text = piece.0;
    let secret = piece.1;
    let state = slow_state(h, text);
    Some(Holding {
        text,
        secret,
        state,
    })
}
