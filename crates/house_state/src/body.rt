ghost use Rattle.std.specs.Prelude.{◌≡◌, ◌≤◌, Some, take};
ghost use Rattle.scrip_form.specs.Scrip.{scrip_text};
ghost use Rattle.ledger_model.specs.Histories.{History};
ghost use Rattle.mc_records.specs.PieceLine.{piece_line};
ghost use Rattle.house_state.specs.Views.{contents_of};
ghost use Rattle.house_state.specs.Trade.{brought_by, OfGoods};
ghost use Rattle.house_state.specs.Replying.{AreContents};

use crate::offer::Body;
use kept_replies::Deed;
use mc_fields::{put, put_number};
use scrip_certs::hex_of;
use scrip_form::{Piece, write_scrip};

/// The kind of contents that are text.
const TEXT: u8 = 1;

/// What a reply with this deed brings, where no trade needs to hold anything for it: the deed names no
/// goods. Of goods it is nothing, as text.
#[tactic(auto, unfolding(crate::specs::Trade::piece_brought))]
pub fn body_of_deed<'a>(deed: &Deed, room: &'a mut [u8; 512]) -> Body<'a>
    ensures range { AreContents result }
    ensures brought { (h : History) → OfGoods (λ n. ⊥) deed.now
        → brought_by h deed.now ≡ Some (contents_of result) }
{
    let end = match deed {
        Deed::Goods { .. } => 0,
        Deed::Sale {
            piece,
            cert,
            secret,
            ..
        } => put_piece_line(room, piece, cert, secret),
        Deed::Credit { balance } => {
            let end = put_number(room, 0, *balance);
            put(room, end, b"\n")
        }
        Deed::Draw {
            piece,
            cert,
            secret,
        } => put_piece_line(room, piece, cert, secret),
    };
    Body {
        kind: TEXT,
        bytes: &room[..end],
    }
}

/// Writes the line of a piece to the front: its scrip text, a space, the secret of its customer as 32 hex
/// digits, and an LF. It answers the length of the line, at most 327.
pub fn put_piece_line(
    room: &mut [u8; 512],
    piece: &Piece,
    cert: &[u8; 16],
    secret: &[u8; 16],
) -> usize
    ensures short { result ≤ 327 }
    ensures line { take result room.new
        ≡ piece_line (record { text = scrip_text piece.now cert.now; secret = secret.now }) }
{
    let end = write_scrip(piece, cert, room);
    let end = put(room, end, b" ");
    let end = put(room, end, &hex_of(secret));
    put(room, end, b"\n")
}
