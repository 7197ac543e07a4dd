//! Lists of pieces, from the front of the bytes.

ghost use Rattle.std.specs.Prelude.{◌≡◌, List, IsTrue, IfSome, IsNone};
ghost use Rattle.mc_fields.specs.Form.{run, repeated};
ghost use Rattle.mc_fields.specs.Gives.{Gives};
ghost use Rattle.mc_records.specs.Entry.{Held, ArePieces};
ghost use Rattle.mc_records.specs.Forms.{held_form};
ghost use Rattle.mc_records.specs.Pieces.{are_pieces, pieces_bytes, after, element_at};
ghost use Rattle.mc_records.specs.Views.{held_of};

use crate::parts::{held, scrip};
use crate::ranges::MOST_PIECES;
use mc_fields::{Stuck, read_plain};

/// What stands behind one element.
#[tactic(auto, unfolding(crate::specs::Forms::held_form))]
fn behind_one(bytes: &[u8]) -> Result<&[u8], Stuck>
    ensures { Gives (λ x. (tt, x.now)) result (after (run held_form bytes.now)) }
{
    let (_text, rest) = scrip(bytes)?;
    let (_secret, rest) = read_plain(rest, 16)?;
    Ok(rest)
}

/// What stands behind so many elements.
pub(crate) fn behind(count: u16, bytes: &[u8]) -> Result<&[u8], Stuck>
    ensures { Gives (λ x. (tt, x.now)) result (after (run (repeated count held_form) bytes.now)) }
{
    let mut rest = bytes;
    for _ in 0..count {
        rest = behind_one(rest)?;
    }
    Ok(rest)
}

/// The element behind so many others.
pub(crate) fn element(n: u16, bytes: &[u8]) -> Result<((&[u8], [u8; 16]), &[u8]), Stuck>
    ensures { Gives (λ x. (held_of x.0, x.1.now)) result (element_at n bytes.now) }
{
    let rest = behind(n, bytes)?;
    held(rest)
}

/// How many elements the bytes are; None exactly where they aren't 1 to 256.
pub(crate) fn count_of(bytes: &[u8]) -> Option<u16>
    ensures found { IfSome result (λ n. IsTrue (are_pieces n bytes.now)) }
    ensures none { IsNone result → (pieces : List Held) → ArePieces pieces → bytes.now ≡ pieces_bytes pieces → ⊥ }
{
    let mut rest = bytes;
    for before in 0..MOST_PIECES {
        match behind_one(rest) {
            Ok(more) => rest = more,
            Err(_) => return None,
        }
        if rest.is_empty() {
            return Some(before + 1);
        }
    }
    None
}
