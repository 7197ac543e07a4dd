//! Pieces, as sums and strangers ask of them.

ghost use Rattle.std.specs.Prelude.{◌≡◌, option_map};
ghost use Rattle.ledger_model.specs.Pieces.{piece_of};
ghost use Rattle.audit_model.specs.Parts.{part_of};

use scrip_form::{Id, read_scrip};

/// What sums and strangers ask of a piece: its identity, its value in units, and its end in seconds since 1970.
#[derive(Clone, Copy, Drop)]
pub struct Part {
    pub id: Id,
    pub value: u64,
    pub expires: u64,
}

impl Part {
    /// The piece of a scrip text; None exactly where the text is that of none.
    pub fn read(text: &[u8]) -> Option<Part>
        ensures { result ≡ option_map part_of (piece_of text.now) }
    {
        match read_scrip(text) {
            Ok(read) => {
                let piece = read.piece();
                Some(Part {
                    id: piece.id(),
                    value: piece.value().get(),
                    expires: piece.expires(),
                })
            }
            Err(_) => None,
        }
    }
}
