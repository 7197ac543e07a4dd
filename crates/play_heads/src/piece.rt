ghost use Rattle.std.specs.Prelude.{◌≡◌, ◌<◌, ◌≤◌, ◌^◌, ◌∷◌, [], replicate};
ghost use Rattle.play_heads.specs.PlayHeads as play;
ghost use Rattle.play_heads.specs.PlayHeads.{issuer_terms, piece_of};

use mc_base::Amount;
use scrip_form::{Id, Name, Piece, Secrets, Terms};

/// How long a series is issued, in seconds. So many pieces of one epoch have a number.
const PERIOD: u32 = 2048;

/// The terms of issuer 1, by which the pieces of a play are made: a period of 2,048 seconds, no life behind
/// it, one scrip secret of sixteen bytes 3 and one customer secret of sixteen bytes 4.
pub fn play_terms() -> Terms
    ensures { result ≡ issuer_terms }
{
    Terms::new(1, PERIOD, 0, secret(3), secret(4)).unwrap()
}

/// One secret of sixteen bytes of this value, as a list of secrets.
fn secret(byte: u8) -> Secrets
    ensures { result ≡ replicate 16 byte ∷ [] }
{
    Secrets::new(&[[byte; 16]]).unwrap()
}

/// The piece of the head of a number that has one of its own.
pub(crate) fn own_piece(i: u32) -> Piece
    ensures { result ≡ play.own_piece i }
{
    let (epoch, serial) = (i / PERIOD, i % PERIOD);
    match i % 8 {
        3 => piece(epoch.saturating_sub(1), serial, 100),
        7 => piece(epoch, serial, 24),
        _ => piece(epoch, serial, 100),
    }
}

/// A first-hand piece of issuer 1, which expires with its series.
fn piece(epoch: u32, serial: u32, value: u64) -> Piece
    requires epoch { epoch < 2 ^ 24 }
    requires some { 0 < value }
    requires most { value ≤ 2 ^ 40 }
    ensures { result ≡ piece_of epoch serial value }
{
    let name = Name::new(b"play.example").unwrap();
    let amount = Amount::new(value).unwrap();
    let id = Id::of_parts(1, epoch, serial).unwrap();
    let expires = (u64::from(epoch) + 1) * u64::from(PERIOD);
    Piece::first_hand(1, name, amount, id, expires).unwrap()
}
