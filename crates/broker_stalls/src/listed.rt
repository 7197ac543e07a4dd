ghost use Rattle.std.specs.Prelude.{◌≡◌, ◌&&◌, ◌==◌, Ok};
ghost use Rattle.scrip_form.specs.Reading.{scrip_of};
ghost use Rattle.ledger_model.specs.Stock.{may_be_stock};
ghost use Rattle.broker_stalls.specs.Listed.{stock_piece};

use broker_stock::StockPiece;
use scrip_form::{Name, Piece, ScripRef};

/// The piece that a scrip text spells.
pub(crate) fn piece_of(scrip: &ScripRef<'_>) -> Piece
    ensures { scrip_of scrip.now.text ≡ Ok (result, scrip.now.cert) }
{
    // Contracts learn from the text what it spells.
    let _ = scrip.text();
    scrip.piece()
}

/// Whether a piece may be put into stock for a vendor: it is the vendor's, of any of his issuers, and first-hand.
pub(crate) fn may_be_stock_of(vendor: &Name, piece: &Piece) -> bool
    ensures { result ≡ may_be_stock vendor.now piece.now }
{
    piece.vendor().bytes() == vendor.bytes()
        && piece.cust().number() == piece.id().number()
        && piece.props().bytes().is_empty()
}

/// A piece as it is put into stock.
pub(crate) fn stock_piece(piece: &Piece, cert: [u8; 16], secret: [u8; 16]) -> StockPiece
    ensures { result ≡ stock_piece secret (piece.now, cert) }
{
    StockPiece {
        id: piece.id().number(),
        expires: piece.expires(),
        cert,
        secret,
        version: piece.version(),
    }
}
