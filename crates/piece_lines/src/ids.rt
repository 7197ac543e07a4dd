ghost use Rattle.std.specs.Prelude.{◌≡◌, ◌≤◌, length, IfOk};
ghost use Rattle.mc_records.specs.declared.ranges.TheConstants.{MOST_PIECES};
ghost use Rattle.piece_lines.specs.Rules.{passes};
ghost use Rattle.piece_lines.specs.PieceLines.{input_lines, lines_from};
ghost use Rattle.piece_lines.specs.Answers.{text_id, TellsIds};

use crate::line::line;
use crate::rule::PieceRule;
use mc_records::MOST_PIECES;
use scrip_form::read_scrip;

/// Puts the identities of the pieces of an input, as `read_piece_lines` reads it, into the front of a list,
/// and answers how many there are. `Err` is the line at which the input breaks. It takes no memory.
pub fn read_piece_ids(bytes: &[u8], rule: &PieceRule, ids: &mut [u64]) -> Result<u16, u16>
    requires { MOST_PIECES ≤ length ids.old }
    ensures tells { TellsIds (input_lines (passes rule.now) bytes.now) ids.new result }
    ensures few { IfOk result (λ count. count ≤ MOST_PIECES) }
{
    if bytes.is_empty() {
        return Err(0);
    }
    put_ids(bytes, rule, ids)
}

/// Puts the identities of the pieces of the lines into the front of a list.
fn put_ids(bytes: &[u8], rule: &PieceRule, ids: &mut [u64]) -> Result<u16, u16>
    requires { MOST_PIECES ≤ length ids.old }
    ensures tells { TellsIds (lines_from (passes rule.now) MOST_PIECES 1 bytes.now) ids.new result }
    ensures few { IfOk result (λ count. count ≤ MOST_PIECES) }
{
    let mut rest = bytes;
    for before in 0..MOST_PIECES {
        if rest.is_empty() {
            return Ok(before);
        }
        let (piece, more) = match line(rest, rule) {
            Ok(read) => read,
            Err(_) => return Err(before + 1),
        };
        match id_of(piece.0) {
            Some(id) => ids[usize::from(before)] = id,
            // The text of a line is a scrip text.
            None => unreachable!(),
        }
        rest = more;
    }
    if rest.is_empty() {
        Ok(MOST_PIECES)
    } else {
        Err(MOST_PIECES + 1)
    }
}

/// The identity of the piece of a scrip text; None exactly where it is none.
fn id_of(text: &[u8]) -> Option<u64>
    ensures { result ≡ text_id text.now }
{
    match read_scrip(text) {
        Ok(scrip) => Some(scrip.piece().id().number()),
        Err(_) => None,
    }
}
