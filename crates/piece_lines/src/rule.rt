ghost use Rattle.std.specs.Prelude.{◌≡◌};
ghost use Rattle.piece_lines.specs.Rules.{passes};

use scrip_form::{Name, Piece};

/// What a command asks of each piece of its input.
#[derive(Clone, Copy)]
pub enum PieceRule {
    /// Nothing: a wallet takes any piece.
    Any,
    /// A broker's stock of this vendor: his pieces, of any of his issuers, and first-hand, so that the
    /// customer's identity is the piece's own and there are no props.
    StockOf(Name),
}

impl PieceRule {
    /// Whether a piece is as the command asks.
    pub fn passes(&self, piece: &Piece) -> bool
        ensures { result ≡ passes self.now piece.now }
    {
        match self {
            PieceRule::Any => true,
            PieceRule::StockOf(vendor) => {
                piece.vendor().bytes() == vendor.bytes()
                    && piece.cust().number() == piece.id().number()
                    && piece.props().bytes().is_empty()
            }
        }
    }
}
