ghost use Rattle.std.specs.Prelude.{◌≡◌, ◌≤◌};
ghost use Rattle.kept_replies.specs.Kept.{piece_size, deed_size, entry_size};

use crate::sold::size_of_sold;
use mc_base::Moment;
use scrip_form::Piece;

/// What an accepted request was given, as far as its reply needs it.
#[derive(Clone, Copy, Drop)]
pub enum Deed {
    /// The goods that the Goods entry of this number put in force.
    Goods {
        goods: u64,
    },
    /// Scrip of another house with its certificate and customer secret; `stock` says whether it was
    /// kept in stock, and not made under a licence.
    Sale {
        piece: Piece,
        cert: [u8; 16],
        secret: [u8; 16],
        stock: bool,
    },
    /// Credit in an account, which has this balance after it.
    Credit {
        balance: u64,
    },
    /// Scrip of the house's own, drawn from an account, with its certificate and customer secret.
    Draw {
        piece: Piece,
        cert: [u8; 16],
        secret: [u8; 16],
    },
}

impl Deed {
    /// How many bytes its texts have: that of its piece with the certificate, and the secret.
    pub fn size(&self) -> usize
        ensures size { result ≡ deed_size self.now }
        ensures most { result ≤ 309 }
    {
        match self {
            Deed::Goods { .. } | Deed::Credit { .. } => 0,
            Deed::Sale {
                piece,
                cert,
                secret,
                ..
            }
            | Deed::Draw {
                piece,
                cert,
                secret,
            } => size_of_sold(piece, cert, secret),
        }
    }
}

/// What is kept of an entry for its reply: the entry's number and moment, the price, the change, which is
/// certified when a reply is made, the customer secret that signs, and the deed.
#[derive(Clone, Copy, Drop)]
pub struct KeptEntry {
    pub number: u64,
    pub moment: Moment,
    pub price: u64,
    pub change: Option<Piece>,
    pub secret: [u8; 16],
    pub deed: Deed,
}

impl KeptEntry {
    /// How many bytes its texts have together: the name and the properties of the change, and those of the
    /// deed.
    pub fn size(&self) -> usize
        ensures { result ≡ entry_size self.now }
    {
        let change = match &self.change {
            Some(piece) => size_of_piece(piece),
            None => 0,
        };
        change + self.deed.size()
    }
}

fn size_of_piece(piece: &Piece) -> usize
    ensures size { result ≡ piece_size piece.now }
    ensures most { result ≤ 191 }
{
    piece.vendor().bytes().len() + piece.props().bytes().len()
}
