ghost use Rattle.std.specs.Prelude.{IsTrue};
ghost use Rattle.mc_records.specs.Pieces.{are_pieces};

use crate::listing::{count_of, element};
use crate::parts::held;
use scrip_form::{ScripRef, read_scrip};

/// 1 to 256 scrip texts, each with its customer secret. It borrows the joined bytes of its elements,
/// of which each is a scrip str, two bytes of length and the text, and the 16 bytes of the secret.
#[derive(Clone, Copy, Drop)]
pub struct PieceList<'a> {
    bytes: &'a [u8],
    count: u16,
    pub ghost spelled: { IsTrue (are_pieces count bytes.now) },
}

impl<'a> PieceList<'a> {
    ghost use Rattle.std.specs.Prelude.{◌≡◌, ◌∷◌, List, IfSome, IsSomeAnd, option_map, slice_get, length};
    ghost use Rattle.mc_records.specs.Entry.{Held, ArePieces};
    ghost use Rattle.mc_records.specs.Pieces.{are_pieces, pieces_bytes};
    ghost use Rattle.mc_records.specs.PieceViews.{pieces_of, piece_of, pieces_left};

    /// The list of these joined bytes; None exactly where they aren't 1 to 256 elements.
    pub fn read(bytes: &'a [u8]) -> Option<PieceList<'a>>
        // What is read is spelled so.
        ensures found { IfSome result (λ l. ArePieces (pieces_of l) × (bytes.now ≡ pieces_bytes (pieces_of l))) }
        // What is spelled so is read.
        ensures only { (pieces : List Held) → ArePieces pieces → bytes.now ≡ pieces_bytes pieces → IsSomeAnd result (λ l. pieces_of l ≡ pieces) }
    {
        match count_of(bytes) {
            Some(count) => Some(PieceList::of(bytes, count)),
            None => None,
        }
    }

    /// The list of bytes that are so many elements.
    pub(crate) fn of(bytes: &'a [u8], count: u16) -> PieceList<'a>
        requires { IsTrue (are_pieces count bytes.now) }
        ensures count { result.count ≡ count }
        ensures bytes { result.bytes.now ≡ bytes.now }
    {
        PieceList { bytes, count }
    }

    /// The joined bytes of the elements.
    pub(crate) fn bytes(&self) -> &'a [u8]
        ensures { result.now ≡ pieces_bytes (pieces_of self.now) }
    {
        self.bytes
    }

    /// How many pieces there are: 1 to 256.
    pub fn count(&self) -> u16
        ensures count { result ≡ length (pieces_of self.now) }
        ensures pieces { ArePieces (pieces_of self.now) }
    {
        self.count
    }

    /// The piece of this number, from 0, and its secret; None exactly where the number is not below the
    /// count.
    pub fn get(&self, n: u16) -> Option<(ScripRef<'a>, [u8; 16])>
        ensures { option_map piece_of result ≡ slice_get (pieces_of self.now) n }
    {
        if n >= self.count {
            return None;
        }
        let piece = match element(n, self.bytes) {
            Ok((piece, _)) => piece,
            Err(_) => return None,
        };
        let secret = piece.1;
        match read_scrip(piece.0) {
            Ok(scrip) => Some((scrip, secret)),
            Err(_) => None,
        }
    }

    /// The first piece with its secret, and the list of the others, where there are any. Going over a list
    /// by this call reads each element once.
    pub fn split_first(&self) -> ((ScripRef<'a>, [u8; 16]), Option<PieceList<'a>>)
        ensures { pieces_of self.now ≡ piece_of result.0 ∷ pieces_left result.1 }
    {
        let (piece, rest) = match held(self.bytes) {
            Ok(read) => read,
            // A list has a first element.
            Err(_) => unreachable!(),
        };
        let scrip = match read_scrip(piece.0) {
            Ok(scrip) => scrip,
            // The text of an element is a scrip text.
            Err(_) => unreachable!(),
        };
        if self.count > 1 {
            ((scrip, piece.1), Some(PieceList::of(rest, self.count - 1)))
        } else {
            ((scrip, piece.1), None)
        }
    }
}
