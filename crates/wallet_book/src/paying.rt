//! The piece that a request pays with.

ghost use Rattle.std.specs.Prelude.{◌≡◌, [], true, bytes_eq};
ghost use Rattle.mc_requests.specs.Errands.{errand_of};
ghost use Rattle.wallet_model.specs.Newness.{are_new};
ghost use Rattle.wallet_model.specs.Follows.{is_buy, is_draw};
ghost use Rattle.wallet_book.specs.Holdings.{texts_of, text_of};
ghost use Rattle.wallet_book.specs.Parts.{FindsHeld, FindsPayment, if_held};

use crate::holding::{Holding, State};
use crate::holdings::Holdings;
use mc_requests::{Errand, read_errand};
use scrip_form::{ScripRef, read_scrip, write_scrip};

/// The place of the piece that a request may pay with: it is held and of the peer, and where the request is to
/// buy its target is that of a sale. A draw pays with none.
pub(crate) fn payment(
    holdings: &Holdings,
    ask: u8,
    peer: &[u8],
    target: &[u8],
    text: &[u8],
) -> Option<usize>
    ensures { are_new [] (texts_of holdings.now.list) ≡ true → FindsPayment holdings.now.list ask peer.now target.now text.now result }
{
    match ask {
        0 => held_place(holdings, text, peer),
        1 if asks_to_buy(target) => held_place(holdings, text, peer),
        _ => None,
    }
}

/// The place of the piece of a text, where it is held and of a vendor.
fn held_place(holdings: &Holdings, text: &[u8], vendor: &[u8]) -> Option<usize>
    ensures { are_new [] (texts_of holdings.now.list) ≡ true → FindsHeld holdings.now.list text.now vendor.now result }
{
    let scrip = match read_scrip(text) {
        Ok(scrip) => scrip,
        Err(_) => return None,
    };
    if !is_of_vendor(&scrip, vendor) {
        return None;
    }
    let place = holdings.find(&scrip);
    if_held(holdings.as_slice(), place, text)
}

/// Whether a piece is of this vendor.
fn is_of_vendor(scrip: &ScripRef<'_>, vendor: &[u8]) -> bool
    ensures { result ≡ bytes_eq scrip.now.piece.vendor vendor.now }
{
    scrip.piece().vendor().bytes() == vendor
}

/// A place, where the piece that stands there is held and has this text.
fn if_held(holdings: &[Holding], place: Option<usize>, text: &[u8]) -> Option<usize>
    ensures { result ≡ if_held holdings.now place text.now }
{
    match holdings.get(place?) {
        Some(x) if x.state == State::Held && is_text_of(x, text) => place,
        _ => None,
    }
}

/// Whether a piece has this text.
fn is_text_of(holding: &Holding, text: &[u8]) -> bool
    ensures { result ≡ bytes_eq (text_of holding.now) text.now }
{
    let mut out = [0; 512];
    let len = write_scrip(&holding.piece, &holding.cert, &mut out);
    &out[..len] == text
}

/// Whether a target asks to buy scrip. It takes no memory.
pub fn asks_to_buy(target: &[u8]) -> bool
    ensures { result ≡ is_buy (errand_of target.now) }
{
    matches!(read_errand(target), Some(Errand::Buy { .. }))
}

/// Whether a target asks to draw scrip. It takes no memory.
pub fn asks_to_draw(target: &[u8]) -> bool
    ensures { result ≡ is_draw (errand_of target.now) }
{
    matches!(read_errand(target), Some(Errand::Draw { .. }))
}
